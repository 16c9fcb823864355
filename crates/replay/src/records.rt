// What is read of every record, and printed of its answer.
use refusal::Refusal;
use std::fmt::Display;
use std::io::{self, Read, Write};

// The next N bytes.
pub(crate) fn bytes<R: Read, const N: usize>(input: &mut R) -> io::Result<[u8; N]> {
    let mut bytes = [0u8; N];
    input.read_exact(&mut bytes)?;
    Ok(bytes)
}

pub(crate) fn byte<R: Read>(input: &mut R) -> io::Result<u8> {
    let [byte] = bytes::<R, 1>(input)?;
    Ok(byte)
}

// The most words that a record has, in all its lists.
const WORDS: u16 = 255;

// With more than those it is no record, and the replay ends.
pub(crate) fn fits(words: u16) -> io::Result<()> {
    if WORDS < words {
        return Err(io::ErrorKind::InvalidData.into());
    }
    Ok(())
}

// The next words, as many as a byte says.
pub(crate) fn words<'a, R: Read>(
    input: &mut R,
    count: u8,
    room: &'a mut [i16; 255],
) -> io::Result<&'a [i16]> {
    let words = &mut room[..usize::from(count)];
    let mut bytes = [0u8; 510];
    input.read_exact(&mut bytes[..2 * words.len()])?;
    feed::read_words(&bytes, 0, words);
    Ok(words)
}

// Each number behind a space.
pub(crate) fn print<W: Write, T: Display>(output: &mut W, numbers: &[T]) -> io::Result<()> {
    for number in numbers {
        write!(output, " {number}")?;
    }
    Ok(())
}

// What was accepted, by its own printing, or the refusal.
pub(crate) fn print_answer<W: Write, A, F: FnOnce(&mut W, A) -> io::Result<()>>(
    output: &mut W,
    answer: Result<A, Refusal>,
    print_accepted: F,
) -> io::Result<()>
    requires { F.IsAlwaysCallable print_accepted }
{
    match answer {
        Ok(accepted) => print_accepted(output, accepted),
        Err(refusal) => write!(output, "refused {refusal}"),
    }
}
