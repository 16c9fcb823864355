// The program of 01, 'Feed and program'. Its stored feed ends inside a record's body: number 10.
#![tactic(auto)]

fn main(rt: HostRuntime) {
    let _ = feed_lines::print(&mut rt.stdin(), &mut rt.stdout(), &mut rt.stderr());
}
