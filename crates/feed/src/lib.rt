// The record reader: what stands at a place of a feed, from 01, 'Feed and program'.
#![tactic(auto)]

ghost use Rattle.std.specs.Prelude.{[], ◌∷◌, ◌≡◌, ◌+◌, ◌*◌, ◌≤◌, pos, length};
ghost use Rattle.refusal.specs.Refused.{values, refused, told, put};
ghost use Rattle.refusal.specs.Checks.{checked};
ghost use Rattle.fixed.specs.Operators.{extract_l, remainder};
ghost use Rattle.fixed.specs.Lists.{at, tabulate};
ghost use Rattle.feed.specs.Records.{kind_number, known_kind, told_header, body_length, header, body, ends_feed};
ghost use Rattle.feed.specs.Words.{words, words_into, swapped};

use refusal::Refusal;

#[derive(Clone, Copy, Debug, PartialEq, Eq)]
pub enum Kind {
    Reset,
    HalfFrame,
    Pitch,
    Pulses,
    Gain,
    Filtering,
    LagReading,
}

impl From<Kind> for u8 {
    ghost from_gives = { λ kind result. result ≡ kind_number kind };

    fn from(kind: Kind) -> u8 {
        match kind {
            Kind::Reset => 0,
            Kind::HalfFrame => 1,
            Kind::Pitch => 2,
            Kind::Pulses => 3,
            Kind::Gain => 4,
            Kind::Filtering => 5,
            Kind::LagReading => 6,
        }
    }
}

impl TryFrom<u8> for Kind {
    type Error = Refusal;

    ghost try_from_gives = { λ number result. put kind_number (told result) ≡ checked (known_kind number ∷ []) refused (values number) };

    fn try_from(number: u8) -> Result<Self, Refusal> {
        match number {
            0 => Ok(Kind::Reset),
            1 => Ok(Kind::HalfFrame),
            2 => Ok(Kind::Pitch),
            3 => Ok(Kind::Pulses),
            4 => Ok(Kind::Gain),
            5 => Ok(Kind::Filtering),
            6 => Ok(Kind::LagReading),
            _ => Err(Refusal::Kind(number)),
        }
    }
}

impl Kind {
    #[tactic(auto, unfolding(crate::specs::Records::lengths))]
    pub fn body_length(self) -> usize
        ensures { result ≡ body_length (kind_number self) }
    {
        match self {
            Kind::Reset => 0,
            Kind::HalfFrame => 160,
            Kind::Pitch => 551,
            Kind::Pulses => 163,
            Kind::Gain => 245,
            Kind::Filtering => 184,
            Kind::LagReading => 2,
        }
    }
}

// A whole record, and the place of the next one.
#[derive(Clone, Copy, Debug, PartialEq, Eq)]
pub struct Record {
    pub kind: Kind,
    pub next: usize,
}

// None where the feed ends.
#[tactic(auto, unfolding(crate::specs::Records::header))]
pub fn header_at(feed: &[u8], at: usize) -> Result<Option<Record>, Refusal>
    ensures { told_header result ≡ header feed.now at }
{
    if feed.len() <= at {
        return Ok(None);
    }
    let kind = Kind::try_from(feed[at])?;
    let start = at + 1;
    let needed = kind.body_length();
    let present = feed.len() - start;
    if present < needed {
        return Err(Refusal::FeedEnd(present));
    }
    Ok(Some(Record {
        kind,
        next: start + needed,
    }))
}

// The body as that part of the feed, its length found from the kind that stands there; the empty part where no whole record does.
pub fn body_at(feed: &[u8], at: usize) -> &[u8]
    ensures { result.now ≡ body feed.now at }
{
    match header_at(feed, at) {
        Ok(Some(record)) => &feed[at + 1..record.next],
        Ok(None) => &feed[..0],
        Err(_) => &feed[..0],
    }
}

// Whether a refusal of this number ends the feed. Behind every other the next record follows.
pub fn ends_feed(number: u8) -> bool
    ensures { result ≡ ends_feed number }
{
    number == 9 || number == 10
}

// The words of a body from a place on, as many as the list takes. Where the body has fewer, the list stays as it was.
pub fn read_words(body: &[u8], from: usize, list: &mut [i16])
    ensures { list.new ≡ words_into body.now from list.old }
{
    if body.len() < from {
        return;
    }
    if (body.len() - from) / 2 < list.len() {
        return;
    }
    copy_low_first(body, from, list);
    swap_all(list);
}

// The bytes as they lie, the first of a word as its low one: a copy, which the machine makes in one piece.
fn copy_low_first(body: &[u8], from: usize, list: &mut [i16])
    requires { from + 2 * length list.old ≤ length body.now }
    ensures { tabulate (λ k. swapped (at list.new k)) (length list.old) ≡ words body.now from (length list.old) }
{
    for i in 0..list.len() {
        list[i] = low_first(body[from + 2 * i], body[from + 2 * i + 1]);
    }
}

fn low_first(first: u8, second: u8) -> i16
    ensures { swapped result ≡ extract_l (pos (first * 256 + second)) }
{
    fixed::word(second, first)
}

fn swap_all(list: &mut [i16])
    ensures { list.new ≡ tabulate (λ k. swapped (at list.old k)) (length list.old) }
{
    for word in list {
        *word = swap_bytes(*word);
    }
}

// A word with its bytes exchanged.
fn swap_bytes(v: i16) -> i16
    ensures { result ≡ swapped v }
{
    let bits = v.cast_unsigned();
    fixed::word((bits % 256) as u8, (bits / 256) as u8)
}
