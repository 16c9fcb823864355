// Replays recorded inputs of the operators and of the stages whose answers are not all fields of a line, and prints what the library answers. `stdin` and `stdout` are made by `oracle/run
// record` from the published Rust, so the check that the output equals `stdout` compares the library with it.
#![tactic(auto)]

mod gain_rows;
mod operators;
mod pulses;
mod records;

use std::io::{self, BufReader, BufWriter, Read, Write};

// A record's kind; every other is of the pitch gain and the gain row.
const OPERATOR: u8 = 0;

const PULSES: u8 = 1;

// An answer that can't be written is missing from the output, which is compared.
fn main(rt: HostRuntime) {
    let _ = replay(&rt);
}

fn replay(rt: &HostRuntime) -> io::Result<()> {
    let mut input = BufReader::new(rt.alloc(), rt.stdin())?;
    let mut output = BufWriter::new(rt.alloc(), rt.stdout())?;
    output.write_all(b"mr74 replay\n")?;
    for _ in 0..u64::MAX {
        if step(&mut input, &mut output).is_err() {
            break;
        }
    }
    output.flush()
}

// A record: a byte for its kind, and what the kind's file reads. High bytes first. The end of the input is an error of its read.
fn step<R: Read, W: Write>(input: &mut R, output: &mut W) -> io::Result<()> {
    match records::byte(input)? {
        OPERATOR => operators::step(input, output),
        PULSES => pulses::step(input, output),
        _ => gain_rows::step(input, output),
    }
}
