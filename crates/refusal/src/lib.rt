// 01, 'What is turned down', and the numbers of 02: one case for each thing that can be wrong, with its detail.
#![tactic(auto)]

ghost use Rattle.std.specs.Prelude.{◌≡◌, ◌<◌, ◌^◌, Some, Err, nat_abs, length, IfErr, IfOk};
ghost use Rattle.refusal.specs.Refused.{number, detail, in_text};

use std::error::Error;
use std::fmt;

#[derive(Clone, Copy, Debug, PartialEq, Eq)]
pub enum Refusal {
    // 1: the length of a lent list
    Length(usize),
    // 2: a subframe number, or a limit choice
    Subframe(u8),
    LimitChoice(u8),
    // 3: an open-loop lag
    OpenLoopLag(u16),
    // 4: the subframe number that is expected
    Order(u8),
    // 5: a relative pitch index
    RelativeIndex(u8),
    // 6: the pulse stage's lag
    PulseLag(u16),
    // 7: the exponent of a power or of a prediction
    Exponent(i16),
    // 8: a position word or a sign word
    Positions(u16),
    Signs(u16),
    // 9: the kind of a feed record
    Kind(u8),
    // 10: the body bytes present where a feed ends
    FeedEnd(usize),
    // 14: the fraction of a power or of a prediction
    Fraction(u16),
    // 15: the length of a list of channels
    Channels(usize),
    // 16: the number of a channel to be marked
    Channel(usize),
    // 17: no channel waits
    NoneWaits,
}

// What an entry with a state answers, and the state that it keeps for the next call.
#[derive(Clone, Copy, Debug, PartialEq, Eq)]
pub struct Step<A, S> {
    pub answer: Result<A, Refusal>,
    pub after: S,
}

impl<A, S> Step<A, S> {
    // A refusal keeps the state as it was.
    pub fn refused(refusal: Refusal, state: S) -> Self
        ensures { result ≡ record { answer = Err refusal; after = state } }
    {
        Step {
            answer: Err(refusal),
            after: state,
        }
    }
}

impl Refusal {
    pub fn number(self) -> u8
        ensures { result ≡ number self }
    {
        match self {
            Refusal::Length(_) => 1,
            Refusal::Subframe(_) => 2,
            Refusal::LimitChoice(_) => 2,
            Refusal::OpenLoopLag(_) => 3,
            Refusal::Order(_) => 4,
            Refusal::RelativeIndex(_) => 5,
            Refusal::PulseLag(_) => 6,
            Refusal::Exponent(_) => 7,
            Refusal::Positions(_) => 8,
            Refusal::Signs(_) => 8,
            Refusal::Kind(_) => 9,
            Refusal::FeedEnd(_) => 10,
            Refusal::Fraction(_) => 14,
            Refusal::Channels(_) => 15,
            Refusal::Channel(_) => 16,
            Refusal::NoneWaits => 17,
        }
    }

    // A length, as large as a list can be, or a number that may be negative.
    pub fn detail(self) -> i128
        ensures value { result ≡ detail self }
        ensures bound { nat_abs result < 2 ^ 64 }
    {
        match self {
            Refusal::Length(n) => n as i128,
            Refusal::Subframe(n) => n as i128,
            Refusal::LimitChoice(n) => n as i128,
            Refusal::OpenLoopLag(n) => n as i128,
            Refusal::Order(n) => n as i128,
            Refusal::RelativeIndex(n) => n as i128,
            Refusal::PulseLag(n) => n as i128,
            Refusal::Exponent(e) => e as i128,
            Refusal::Positions(n) => n as i128,
            Refusal::Signs(n) => n as i128,
            Refusal::Kind(n) => n as i128,
            Refusal::FeedEnd(n) => n as i128,
            Refusal::Fraction(n) => n as i128,
            Refusal::Channels(n) => n as i128,
            Refusal::Channel(n) => n as i128,
            Refusal::NoneWaits => 0,
        }
    }
}

// The number and the detail, as the program prints them.
impl fmt::Display for Refusal {
    ghost output = { λ refusal. Some (in_text refusal) };

    fn fmt<W: fmt::Write>(&self, f: &mut fmt::Formatter<W>) -> fmt::Result {
        let number = self.number();
        let detail = self.detail();
        write!(f, "{number} {detail}")
    }
}

impl Error for Refusal {}

// Number 1: a lent list as the array of N words that its stage takes.
pub fn of_length<const N: usize>(list: &[i16]) -> Result<&[i16; N], Refusal>
    ensures ok { IfOk result (λ words. (length list.now ≡ N) × (words.now ≡ list.now)) }
    ensures err { IfErr result (λ refusal. (refusal ≡ Refusal.Length (length list.now)) × (length list.now ≡ N → ⊥)) }
{
    list.as_array().ok_or(Refusal::Length(list.len()))
}
