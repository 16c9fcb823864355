// An operator: its number, three longs, the length of its name, and the name.
use crate::records;
use fixed::Clipped;
use std::fmt::Display;
use std::io::{self, Read, Write};

pub(crate) fn step<R: Read, W: Write>(input: &mut R, output: &mut W) -> io::Result<()> {
    let [operator, a, b, c, d, e, f, g, h, i, j, k, l, letters] = records::bytes::<R, 14>(input)?;
    print_name(input, output, letters)?;
    print_operator(
        output,
        operator,
        i32::from_be_bytes([a, b, c, d]),
        i32::from_be_bytes([e, f, g, h]),
        i32::from_be_bytes([i, j, k, l]),
    )?;
    output.write_all(b"\n")
}

// Zeros stand for the letters that the input has no more.
fn print_name<R: Read, W: Write>(input: &mut R, output: &mut W, letters: u8) -> io::Result<()> {
    let mut room = [0u8; 255];
    let name = &mut room[..usize::from(letters)];
    let _ = input.read_exact(name);
    output.write_all(name)
}

// The operator's arguments and what it answers, by its number; a word is the low one of its long.
fn print_operator<W: Write>(
    output: &mut W,
    operator: u8,
    a: i32,
    b: i32,
    c: i32,
) -> io::Result<()> {
    let x = fixed::low_word(a);
    let y = fixed::low_word(b);
    match operator {
        1 => print_line(output, [a], i16::clip(a as i64)),
        2 => print_line(output, [a, b], i32::clip(a as i64 * b as i64)),
        3 => print_line(output, [a, b], fixed::add(x, y)),
        4 => print_line(output, [a, b], fixed::sub(x, y)),
        5 => print_line(output, [a], fixed::negate(x)),
        6 => print_line(output, [a], fixed::absolute(x)),
        7 => print_line(output, [a, b], fixed::add(a, b)),
        8 => print_line(output, [a, b], fixed::sub(a, b)),
        9 => print_line(output, [a], fixed::negate(a)),
        10 => print_line(output, [a], fixed::absolute(a)),
        11 => print_line(output, [a, b], fixed::product(x, y)),
        12 => print_line(output, [a, b, c], fixed::mac(a, y, fixed::low_word(c))),
        13 => print_line(output, [a, b, c], fixed::msu(a, y, fixed::low_word(c))),
        14 => print_line(output, [a, b], fixed::fractional(x, y)),
        15 => print_line(output, [a], fixed::rounded(a)),
        16 => print_line(output, [a], fixed::high(a)),
        17 => print_line(output, [a], fixed::deposit_high(x)),
        18 => print_line(output, [a], fixed::low_word(a)),
        19 => {
            let halves = compound::split(a);
            records::print(output, &[a, halves.high as i32, halves.low as i32])
        }
        20 => print_line(output, [a, b], compound::multiply(a, b)),
        21 => print_line(output, [a, b], compound::multiply_word(a, y)),
        22 => print_line(output, [a, b], fixed::shift(a, y)),
        23 => print_line(output, [a, b], fixed::shift(x, y)),
        24 => print_line(output, [a], fixed::even(a)),
        25 => print_line(output, [a], fixed::normalize(a)),
        26 => print_line(output, [a], a.unsigned_abs()),
        27 => print_line(output, [a, b], compound::divide(x, y)),
        28 => print_line(output, [a], energy::inverse_sqrt(a)),
        29 => {
            let logarithm = logarithm::log2(a);
            print_line(output, [a], logarithm.exponent)?;
            records::print(output, &[logarithm.fraction_q15])
        }
        30 => print_power(output, a, b),
        _ => print_line(output, [a, b], 0),
    }
}

// The arguments, and what the operator answers.
fn print_line<const N: usize, W: Write, T: Display + Drop>(
    output: &mut W,
    arguments: [i32; N],
    answer: T,
) -> io::Result<()> {
    records::print(output, &arguments)?;
    write!(output, " {answer}")
}

// The power of the lowest byte of `a` and the low word of `b`.
fn print_power<W: Write>(output: &mut W, a: i32, b: i32) -> io::Result<()> {
    let [_, _, _, exponent] = a.to_be_bytes();
    let [_, _, high, low] = b.to_be_bytes();
    write!(output, " {a} {b} ")?;
    let answer = logarithm::pow2(exponent, u16::from_be_bytes([high, low]));
    records::print_answer(output, answer, |output, value| write!(output, "{value}"))
}
