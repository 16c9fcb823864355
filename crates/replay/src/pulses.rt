// Pulses. A byte, 0 for a reading, of two words; else a search: the counts of its target and impulse words, lag, gain, and these words.
use crate::records;
use codebook::Places;
use codebook_code::PulseWords;
use codebook_sharpening::SharpeningGain;
use std::io::{self, Read, Write};

const READING: u8 = 0;

pub(crate) fn step<R: Read, W: Write>(input: &mut R, output: &mut W) -> io::Result<()> {
    match records::byte(input)? {
        READING => reading(input, output),
        _ => search(input, output),
    }
}

fn reading<R: Read, W: Write>(input: &mut R, output: &mut W) -> io::Result<()> {
    let [a, b, c, d] = records::bytes::<R, 4>(input)?;
    let positions = u16::from_be_bytes([a, b]);
    let signs = u16::from_be_bytes([c, d]);
    let mut samples = [0i16; 40];
    let answer = codebook::read(positions, signs, &mut samples);
    records::print_answer(output, answer, |output, places| {
        print_places(output, places)?;
        records::print(output, &samples)
    })?;
    output.write_all(b"\n")
}

fn search<R: Read, W: Write>(input: &mut R, output: &mut W) -> io::Result<()> {
    let [targets, impulses, a, b, c, d] = records::bytes::<R, 6>(input)?;
    records::fits(u16::from(targets) + u16::from(impulses))?;
    let lag = u16::from_be_bytes([a, b]);
    let gain = SharpeningGain(i16::from_be_bytes([c, d]));
    let mut target_room = [0i16; 255];
    let mut impulse_room = [0i16; 255];
    let target = records::words(input, targets, &mut target_room)?;
    let impulse = records::words(input, impulses, &mut impulse_room)?;
    print_search(output, target, impulse, lag, gain)
}

fn print_search<W: Write>(
    output: &mut W,
    target: &[i16],
    impulse: &[i16],
    lag: u16,
    gain: SharpeningGain,
) -> io::Result<()> {
    let mut innovation = [0i16; 40];
    let mut filtered = [0i16; 40];
    let mut sharpened = [0i16; 40];
    let answer = codebook_search::search(
        target,
        impulse,
        lag,
        gain,
        &mut innovation,
        &mut filtered,
        &mut sharpened,
    );
    records::print_answer(output, answer, |output, found| {
        print_pulses(output, found)?;
        records::print(output, &innovation)?;
        records::print(output, &filtered)?;
        records::print(output, &sharpened)
    })?;
    output.write_all(b"\n")
}

fn print_places<W: Write>(output: &mut W, places: Places) -> io::Result<()> {
    output.write_all(b"read")?;
    records::print(
        output,
        &[places.first, places.second, places.third, places.last],
    )
}

fn print_pulses<W: Write>(output: &mut W, words: PulseWords) -> io::Result<()> {
    output.write_all(b"pulses")?;
    records::print(output, &[words.positions, words.signs])
}
