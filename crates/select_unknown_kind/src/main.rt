// The program `select` on a feed that ends by number 9: behind a record of an unknown kind there are more bytes, of which no line is made.
#![tactic(auto)]

fn main(rt: HostRuntime) {
    let _ = feed_lines::print(&mut rt.stdin(), &mut rt.stdout(), &mut rt.stderr());
}
