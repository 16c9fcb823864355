// 01, 'Bench points': those that are compared and not proved. `stdout` has what 01 says of each.
#![tactic(auto)]

use pitch::OpenLoopLag;
use std::io;

// A line that can't be written is missing from the output, which is compared.
fn main(rt: HostRuntime) {
    let _ = print(&rt);
}

fn print(rt: &impl Print) -> io::Result<()> {
    println!(rt; "mr74 bench points")?;
    root(rt, 0)?;
    root(rt, 1)?;
    open_loop(rt, 19)?;
    open_loop(rt, 20)?;
    open_loop(rt, 143)?;
    open_loop(rt, 144)?;
    power(rt, 30)?;
    power(rt, 31)
}

fn root(rt: &impl Print, v: i32) -> io::Result<()> {
    println!(rt; "inverse root of {v} is {}", energy::inverse_sqrt(v))
}

fn open_loop(rt: &impl Print, lag: u16) -> io::Result<()> {
    let answer = match OpenLoopLag::try_new(lag) {
        Ok(_) => "passes",
        Err(_) => "is refused",
    };
    println!(rt; "open-loop lag {lag} {answer}")
}

fn power(rt: &impl Print, exponent: u8) -> io::Result<()> {
    let answer = match logarithm::pow2(exponent, 0) {
        Ok(_) => "passes",
        Err(_) => "does not",
    };
    println!(rt; "pow2 exponent {exponent} {answer}")
}
