// The program of 01, 'Feed and program': reads a feed and writes a line a record, both in blocks of 64 KB. The programs over it differ in their stored feeds alone.
#![tactic(auto)]

ghost use Rattle.std.specs.Prelude.{List, ◌≡◌, ◌+◌, ◌*◌, ◌≤◌, ◌<◌, true, is_some, Ok, Err, IfErr, IfSome, nat_abs, ℤ, pos, if◌then◌else◌};
ghost use Rattle.std.specs.Int.Signed.{lt_z};
ghost use Rattle.refusal.specs.Refused.{number, detail};
ghost use Rattle.feed.specs.Records.{ends_feed};
ghost use Rattle.selection_answers.specs.Lines.{told_answer};
ghost use Rattle.feed_lines.specs.Endings.{Stops, stops};
ghost use Rattle.feed_lines.specs.Printed.{told_fields};

use open_loop::Detector;
use pitch::UpperLag;
use refusal::Refusal;
use selection::ClosedLoop;
use selection_answers::Answer;
use std::fmt::{Display, Formatter};
use std::io::{Cursor, Read, Write};
use std::{fmt, io};

// A line begins at most here, and so fits the output block: it has at most 20 digits, a name, 160 numbers of at most 22 bytes and its end.
const LAST_START: usize = 61440;

// A sentence on how the printing ended has fewer bytes: at most 145, with two numbers of 20 digits.
const SENTENCE_ROOM: usize = 256;

// How the printing ended before the feed did.
#[derive(Clone, Copy, Debug, PartialEq, Eq)]
pub enum Ended {
    // By number 9 or 10, and the place of that record's kind in the feed, counted from 0.
    Refused { refusal: Refusal, place: u64 },
    // Standard input could not be read further.
    NotRead,
    // Standard output did not take all lines.
    NotWritten,
}

// Prints a line for each record of the feed that the reader gives, as the program does from standard input to standard output, and a sentence on `errors` where the printing does not end where the feed does.
pub fn print<R: Read, W: Write, E: Write>(
    reader: &mut R,
    writer: &mut W,
    errors: &mut E,
) -> Result<(), Ended>
    ensures { IfErr result Stops }
{
    let mut input = Input::empty();
    let mut history_q0 = Detector::fresh().history_q0;
    let mut selection = Selection::fresh(&mut history_q0);
    let mut lines = Lines::begun(writer);
    let printed = print_all(reader, &mut input, &mut selection, &mut lines);
    // Lines that are lost weigh more than a refusal.
    let result = lines.flush().and(printed);
    if let Err(ended) = result {
        lines.report(ended, errors);
    }
    result
}

// Up to the end of the feed. No input has as many blocks as the loop has turns.
fn print_all<R: Read, W: Write>(
    reader: &mut R,
    input: &mut Input,
    selection: &mut Selection<'_>,
    lines: &mut Lines<'_, W>,
) -> Result<(), Ended>
    ensures { IfErr result Stops }
{
    for _ in 0..u64::MAX {
        let more = input.refill(reader);
        let last = matches!(more, Ok(false));
        print_block(input, last, selection, lines)?;
        match more {
            Ok(true) => {}
            Ok(false) => return Ok(()),
            Err(_) => break,
        }
    }
    Err(Ended::NotRead)
}

// The whole records of a block. One that goes on behind the block waits for the next block; there is none behind the last.
fn print_block<W: Write>(
    input: &mut Input,
    last: bool,
    selection: &mut Selection<'_>,
    lines: &mut Lines<'_, W>,
) -> Result<(), Ended>
    ensures { IfErr result Stops }
{
    let mut words = [0; 160];
    // A record has at least one byte.
    for _ in 0..input.len {
        let feed = &input.bytes[..input.len];
        let next = match feed::header_at(feed, input.at) {
            Ok(None) => break,
            Ok(Some(record)) => record.next,
            Err(Refusal::FeedEnd(_)) if !last => break,
            Err(_) => input.at,
        };
        let answer = selection.step(feed, input.at, &mut words);
        lines.push(answer, &words)?;
        input.at = place_behind(answer, input.at, next);
        if let Some(refusal) = feed_ending(answer) {
            return Err(Ended::Refused {
                refusal,
                place: input.place(),
            });
        }
    }
    Ok(())
}

// Where the feed goes on behind the record at a place: one that ends the feed stays there.
fn place_behind(answer: Result<Option<Answer>, Refusal>, at: usize, next: usize) -> usize
    ensures { result ≡ (if stops answer then at else next) }
{
    match feed_ending(answer) {
        Some(_) => at,
        None => next,
    }
}

// 01: 'After refusals 9 and 10 it stops', at that record.
fn feed_ending(answer: Result<Option<Answer>, Refusal>) -> Option<Refusal>
    ensures stops { is_some result ≡ stops answer }
    ensures refusal { IfSome result (λ r. answer ≡ Err r) }
    ensures ends { IfSome result (λ r. ends_feed (number r) ≡ true) }
{
    match answer {
        Err(refusal) if feed::ends_feed(refusal.number()) => Some(refusal),
        _ => None,
    }
}

// The input block.
#[derive(Drop)]
struct Input {
    bytes: [u8; 65536],
    // How many bytes it has.
    len: usize,
    // The place of the next record among them.
    at: usize,
    // The place of the block in the feed.
    start: u64,
    ghost fits: { len ≤ 65536 },
}

impl Input {
    fn empty() -> Self {
        Input {
            bytes: [0; 65536],
            len: 0,
            at: 0,
            start: 0,
        }
    }

    fn place(&self) -> u64 {
        self.start.wrapping_add(self.at as u64)
    }

    // What is left from the next record on moves to the front, and the rest is read behind it: whether more may follow.
    fn refill<R: Read>(&mut self, reader: &mut R) -> io::Result<bool> {
        self.start = self.place();
        let at = self.at.min(self.len);
        self.bytes.copy_within(at..self.len, 0);
        self.len -= at;
        self.at = 0;
        while self.len < self.bytes.len() {
            match self.read(reader) {
                Ok(true) => {}
                // The end of the input, or a read that failed: one more read tells which.
                _ => return self.read(reader),
            }
        }
        Ok(true)
    }

    // Whether there was more.
    fn read<R: Read>(&mut self, reader: &mut R) -> io::Result<bool>
        ensures { result ≡ Ok true → self.old.len < self.new.len }
    {
        let more = reader.read(&mut self.bytes[self.len..])?;
        self.len += more;
        Ok(0 < more)
    }
}

// What is carried from record to record. The old words are lent: with them in the struct, the rest is copied through memory, and resets take 1.1 times as long.
#[derive(Drop)]
struct Selection<'h> {
    ends: ClosedLoop,
    history_q0: &'h mut [i16; 143],
}

impl<'h> Selection<'h> {
    fn fresh(history_q0: &'h mut [i16; 143]) -> Self {
        Selection {
            ends: ClosedLoop::fresh(UpperLag::Handset),
            history_q0,
        }
    }

    // The words are those of a filtering record.
    fn step(
        &mut self,
        feed: &[u8],
        at: usize,
        words: &mut [i16; 160],
    ) -> Result<Option<Answer>, Refusal> {
        let step = selection::step_lent(self.ends, self.history_q0, words, feed, at);
        self.ends = step.after;
        step.answer
    }
}

// The lines, and where they go.
#[derive(Drop)]
struct Lines<'w, W> {
    writer: &'w mut W,
    block: Block,
    // The number of the last record.
    number: u64,
}

impl<'w, W: Write> Lines<'w, W> {
    fn begun(writer: &'w mut W) -> Self {
        let mut block = Block::empty();
        block.push(*b"mr74 select\n");
        Lines {
            writer,
            block,
            number: 0,
        }
    }

    // The line of the next record. Behind the last place where a line may begin, the block is written first.
    fn push(
        &mut self,
        answer: Result<Option<Answer>, Refusal>,
        words: &[i16; 160],
    ) -> Result<(), Ended>
        ensures { IfErr result Stops }
    {
        if LAST_START < self.block.filled {
            self.flush()?;
        }
        self.number = self.number.wrapping_add(1);
        self.block.push_line(self.number, answer, words);
        Ok(())
    }

    fn flush(&mut self) -> Result<(), Ended>
        ensures stops { IfErr result Stops }
        ensures emptied { self.new.block.filled ≡ 0 }
    {
        self.block.write_to(self.writer)
    }

    // How the printing ended, as a sentence, in one write: what another program writes there comes before it or behind it.
    fn report<E: Write>(&self, ended: Ended, errors: &mut E) {
        let number = self.number;
        let sentence = Sentence { ended, number };
        let mut text = Cursor::new([0u8; SENTENCE_ROOM]);
        let _ = write!(text, "{sentence}");
        let length = (text.position() as usize).min(SENTENCE_ROOM);
        let _ = errors.write_all(&text.get_ref()[..length]);
    }
}

// The output block. Lines are made by hand: `write!` takes 1.2 times as long on filtering records and 1.3 times on lag readings.
#[derive(Drop)]
struct Block {
    // How many bytes wait to be written.
    filled: usize,
    bytes: [u8; 65536],
    ghost fits: { filled ≤ 65536 },
}

impl Block {
    fn empty() -> Self
        ensures { result.filled ≡ 0 }
    {
        Block {
            filled: 0,
            bytes: [0; 65536],
        }
    }

    // The block is empty then, where its bytes were lost too.
    fn write_to<W: Write>(&mut self, writer: &mut W) -> Result<(), Ended>
        ensures stops { IfErr result Stops }
        ensures emptied { self.new.filled ≡ 0 }
    {
        let filled = self.filled;
        self.filled = 0;
        match writer.write_all(&self.bytes[..filled]) {
            Ok(()) => Ok(()),
            Err(_) => Err(Ended::NotWritten),
        }
    }

    fn push_line(
        &mut self,
        number: u64,
        answer: Result<Option<Answer>, Refusal>,
        words: &[i16; 160],
    )
        requires { self.old.filled ≤ 61440 }
        ensures { self.new.filled ≤ self.old.filled + 3561 }
    {
        self.push_decimal(number);
        self.push_answer(answer, words);
        self.push(*b"\n");
    }

    fn push_answer(&mut self, answer: Result<Option<Answer>, Refusal>, words: &[i16; 160])
        requires { self.old.filled ≤ 61460 }
        ensures { self.new.filled ≤ self.old.filled + 3540 }
    {
        match Fields::of(answer) {
            Fields::None => {}
            Fields::Reset => self.push(*b" reset"),
            Fields::Open(fields) => self.push_fields(*b" open", fields),
            Fields::Pitch(fields) => self.push_fields(*b" pitch", fields),
            Fields::Pulses(fields) => self.push_fields(*b" pulses", fields),
            Fields::Gain(fields) => self.push_fields(*b" gain", fields),
            Fields::Filter => self.push_words(words),
            Fields::Lag(fields) => self.push_fields(*b" lag", fields),
            Fields::Refused(fields) => {
                self.push(*b" refused");
                self.push_signed(false, fields.number as u64);
                self.push_signed(fields.negative, fields.magnitude)
            }
        }
    }

    fn push_fields<const N: usize, const M: usize>(&mut self, name: [u8; N], fields: [i32; M])
        requires { self.old.filled + N + 22 * M ≤ 65536 }
        ensures { self.new.filled ≤ self.old.filled + N + 22 * M }
    {
        self.push(name);
        for field in fields {
            self.push_signed(field < 0, field.unsigned_abs() as u64);
        }
    }

    fn push_words(&mut self, words: &[i16; 160])
        requires { self.old.filled ≤ 62009 }
        ensures { self.new.filled ≤ self.old.filled + 3527 }
    {
        self.push(*b" filter");
        for word in words {
            self.push_word(*word);
        }
    }

    #[inline(always)]
    fn push_word(&mut self, word: i16)
        requires { self.old.filled ≤ 65514 }
        ensures { self.new.filled ≤ self.old.filled + 22 }
    {
        self.push_sign(word < 0);
        self.push_short(word.unsigned_abs() as u32);
    }

    fn push_signed(&mut self, negative: bool, magnitude: u64)
        requires { self.old.filled ≤ 65514 }
        ensures { self.new.filled ≤ self.old.filled + 22 }
    {
        self.push_sign(negative);
        self.push_decimal(magnitude);
    }

    // A space and the sign.
    fn push_sign(&mut self, negative: bool)
        requires { self.old.filled ≤ 65534 }
        ensures { self.new.filled ≤ self.old.filled + 2 }
    {
        self.push(*b" -");
        // A number that has no sign takes its place.
        if !negative {
            self.filled -= 1;
        }
    }

    // Five digits at a time.
    fn push_decimal(&mut self, n: u64)
        requires { self.old.filled ≤ 65516 }
        ensures { self.new.filled ≤ self.old.filled + 20 }
    {
        if n < 100000 {
            return self.push_short(n as u32);
        }
        if n < 10000000000 {
            self.push_short((n / 100000) as u32);
            return self.push(five_digits((n % 100000) as u32));
        }
        if n < 1000000000000000 {
            self.push_short((n / 10000000000) as u32);
            self.push(five_digits((n / 100000 % 100000) as u32));
            return self.push(five_digits((n % 100000) as u32));
        }
        self.push_short((n / 1000000000000000) as u32);
        self.push(five_digits((n / 10000000000 % 100000) as u32));
        self.push(five_digits((n / 100000 % 100000) as u32));
        self.push(five_digits((n % 100000) as u32));
    }

    // A number below 100000. Inlined, the place stays in a register from word to word.
    #[inline(always)]
    fn push_short(&mut self, n: u32)
        requires { self.old.filled ≤ 65531 }
        ensures { self.new.filled ≤ self.old.filled + 5 }
    {
        match n {
            0..=9 => self.push([digit(n)]),
            10..=99 => self.push([digit(n / 10), digit(n)]),
            100..=999 => self.push([digit(n / 100), digit(n / 10), digit(n)]),
            1000..=9999 => self.push([digit(n / 1000), digit(n / 100), digit(n / 10), digit(n)]),
            _ => self.push(five_digits(n)),
        }
    }

    fn push<const N: usize>(&mut self, text: [u8; N])
        requires { self.old.filled + N ≤ 65536 }
        ensures { self.new.filled ≡ self.old.filled + N }
    {
        let start = self.filled;
        self.bytes[start..start + N].copy_from_slice(&text);
        self.filled = start + N;
    }
}

// A line behind the record's number: what is printed of each kind, its name aside.
#[derive(Clone, Copy)]
enum Fields {
    // Where the feed ends there is no line.
    None,
    Reset,
    Open([i32; 1]),
    Pitch([i32; 4]),
    Pulses([i32; 2]),
    Gain([i32; 3]),
    // Its words stand beside it.
    Filter,
    Lag([i32; 3]),
    Refused(RefusedFields),
}

impl Fields {
    fn of(answer: Result<Option<Answer>, Refusal>) -> Self
        ensures { (words : List ℤ) → told_fields result words ≡ told_answer answer words }
    {
        match answer {
            Ok(None) => Fields::None,
            Ok(Some(Answer::Reset)) => Fields::Reset,
            Ok(Some(Answer::Open(lag))) => Fields::Open([lag.samples() as i32]),
            Ok(Some(Answer::Pitch { index, lag, hertz })) => {
                let thirds = i16::from(lag.fraction) as i32;
                Fields::Pitch([index as i32, lag.samples as i32, thirds, hertz as i32])
            }
            Ok(Some(Answer::Pulses(words))) => {
                Fields::Pulses([words.positions as i32, words.signs as i32])
            }
            Ok(Some(Answer::Gain(chosen))) => {
                let row = chosen.row;
                Fields::Gain([
                    chosen.index as i32,
                    row.pitch_q14 as i32,
                    row.correction_q12 as i32,
                ])
            }
            Ok(Some(Answer::Filter)) => Fields::Filter,
            Ok(Some(Answer::Lag { lag, hertz })) => {
                let thirds = i16::from(lag.fraction) as i32;
                Fields::Lag([lag.samples as i32, thirds, hertz as i32])
            }
            Err(refusal) => Fields::Refused(RefusedFields::of(refusal)),
        }
    }
}

// A refusal's number, and its detail with the sign apart.
#[derive(Clone, Copy)]
struct RefusedFields {
    number: u8,
    negative: bool,
    magnitude: u64,
}

impl RefusedFields {
    fn of(refusal: Refusal) -> Self
        ensures { result ≡ record { number = number refusal; negative = lt_z (detail refusal) (pos 0); magnitude = nat_abs (detail refusal) } }
    {
        let detail = refusal.detail();
        RefusedFields {
            number: refusal.number(),
            negative: detail < 0,
            magnitude: detail.unsigned_abs() as u64,
        }
    }
}

// Zeros in front.
fn five_digits(n: u32) -> [u8; 5] {
    [
        digit(n / 10000),
        digit(n / 1000),
        digit(n / 100),
        digit(n / 10),
        digit(n),
    ]
}

// The last one.
fn digit(n: u32) -> u8 {
    b'0' + (n % 10) as u8
}

// How the printing ended, with the number of records.
#[derive(Clone, Copy)]
struct Sentence {
    ended: Ended,
    number: u64,
}

impl Display for Sentence {
    fn fmt<W: fmt::Write>(&self, f: &mut Formatter<W>) -> fmt::Result {
        match self.ended {
            Ended::Refused { refusal, place } => {
                let number = self.number;
                write!(
                    f,
                    "select: the feed stops making sense at byte {place}, counted from 0: record {number}"
                )?;
                let detail = refusal.detail();
                match refusal {
                    Refusal::FeedEnd(_) => writeln!(f, " ends after {detail} bytes of its body"),
                    _ => writeln!(f, " has kind {detail}, and kinds are 0 to 6"),
                }
            }
            Ended::NotRead => writeln!(f, "select: standard input can't be read"),
            Ended::NotWritten => writeln!(f, "select: standard output can't be written"),
        }
    }
}
