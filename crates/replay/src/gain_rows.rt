// The pitch gain and the gain row: the counts of target, adaptive and innovation words, exponent, fraction, limit choice, and these words.
use crate::records;
use gain::QuantizedGain;
use gain_pitch::PitchGain;
use std::io::{self, Read, Write};

pub(crate) fn step<R: Read, W: Write>(input: &mut R, output: &mut W) -> io::Result<()> {
    let [targets, adaptives, innovations, a, b, c, d, limit] = records::bytes::<R, 8>(input)?;
    records::fits(u16::from(targets) + u16::from(adaptives) + u16::from(innovations))?;
    let exponent = i16::from_be_bytes([a, b]);
    let fraction = u16::from_be_bytes([c, d]);
    let mut target_room = [0i16; 255];
    let mut adaptive_room = [0i16; 255];
    let mut innovation_room = [0i16; 255];
    let target = records::words(input, targets, &mut target_room)?;
    let adaptive = records::words(input, adaptives, &mut adaptive_room)?;
    let innovation = records::words(input, innovations, &mut innovation_room)?;
    let pitch_gain = gain_pitch::pitch_gain(target, adaptive);
    records::print_answer(output, pitch_gain, print_gain)?;
    output.write_all(b"\n")?;
    let row = gain::quantize(target, adaptive, innovation, exponent, fraction, limit);
    records::print_answer(output, row, print_row)?;
    output.write_all(b"\n")
}

fn print_gain<W: Write>(output: &mut W, found: PitchGain) -> io::Result<()> {
    output.write_all(b"pitch_gain")?;
    let numbers = [
        found.gain_q14,
        found.yy.word,
        found.yy.exponent,
        found.xy.word,
        found.xy.exponent,
    ];
    records::print(output, &numbers)?;
    records::print(output, &[found.clips.energy, found.clips.target])
}

fn print_row<W: Write>(output: &mut W, quantized: QuantizedGain) -> io::Result<()> {
    output.write_all(b"gain")?;
    records::print(output, &[quantized.index])?;
    let row = quantized.row;
    records::print(output, &[row.pitch_q14, row.correction_q12])?;
    let counts = [
        quantized.pitch_clips.energy,
        quantized.pitch_clips.target,
        quantized.innovation_clips.energy,
        quantized.innovation_clips.target,
        quantized.innovation_clips.adaptive,
    ];
    records::print(output, &counts)
}
