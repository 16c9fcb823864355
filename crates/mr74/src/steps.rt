// One step on the record at a place. Detector, searcher and reader cross as in their stages; the 160 words of a filtering record are lent.
ghost use Rattle.std.specs.Prelude.{List, ◌≡◌, ℤ, length};
ghost use Rattle.refusal.specs.Refused.{values, refused, told};
ghost use Rattle.refusal.specs.Checks.{checked};
ghost use Rattle.feed.specs.Records.{kind_number, body_length, header, body};
ghost use Rattle.selection_answers.specs.Lines.{told_answer};
ghost use Rattle.pitch_state.specs.States.{searcher_numbers, reader_numbers, searcher_of, reader_of};
ghost use Rattle.mr74.specs.Fields.{fields_of};
ghost use Rattle.mr74.specs.Steps.{subframes_of, subframes_at, step_answer, stepped, told_step_answer, step_in_numbers};

use crate::details::Detail;
use crate::records::FEED_END;
use feed::Kind;
use lag_reader::Reader;
use pitch_search::Search;
use pitch_state::PitchState;
use refusal::{Refusal, Step};
use selection::ClosedLoop;
use selection_answers::Answer;

#[repr(C)]
#[derive(Clone, Copy, Default)]
pub struct StepAnswer {
    pub number: u8,
    pub negative: bool,
    pub magnitude: u64,
    // The kind, 0 to 6, or 7 where the feed ends; then the fields as the program prints them, zeros behind the last. Those of `filter` are the words.
    pub line: u8,
    pub first: i32,
    pub second: i32,
    pub third: i32,
    pub fourth: i32,
    pub searcher_samples: u16,
    pub searcher_fraction: i16,
    pub searcher_next: u8,
    pub searcher_upper: u8,
    pub searcher_start: u16,
    pub reader_samples: u16,
    pub reader_fraction: i16,
    pub reader_next: u8,
    pub reader_upper: u8,
    pub reader_start: u16,
}

// Searcher and reader as the numbers that cross.
#[derive(Clone, Copy)]
struct PitchStates {
    searcher: PitchState,
    reader: PitchState,
}

impl From<ClosedLoop> for PitchStates {
    ghost from_gives = { λ ends result. result ≡ record { searcher = searcher_numbers ends.searcher; reader = reader_numbers ends.reader } };

    fn from(ends: ClosedLoop) -> Self {
        PitchStates {
            searcher: PitchState::from(ends.searcher),
            reader: PitchState::from(ends.reader),
        }
    }
}

impl From<PitchStates> for ClosedLoop {
    ghost from_gives = { λ states result. result ≡ record { searcher = searcher_of states.searcher; reader = reader_of states.reader } };

    fn from(states: PitchStates) -> Self {
        ClosedLoop {
            searcher: Search::from(states.searcher),
            reader: Reader::from(states.reader),
        }
    }
}

#[unsafe(no_mangle)]
pub extern "C" fn mr74_step(
    feed: &[u8],
    at: usize,
    searcher: PitchState,
    reader: PitchState,
    history_q0: &mut [i16],
    words: &mut [i16],
) -> StepAnswer
    ensures { (result ≡ (step_in_numbers feed.now at searcher reader history_q0.old words.old).answer)
        × (history_q0.new ≡ (step_in_numbers feed.now at searcher reader history_q0.old words.old).history)
        × (words.new ≡ (step_in_numbers feed.now at searcher reader history_q0.old words.old).words) }
{
    let given = PitchStates { searcher, reader };
    match lent_step(feed, at, given, history_q0, words) {
        Ok(answer) => answer,
        Err(refusal) => step_answer(Err(refusal), given),
    }
}

// Refused by number 1 for each list, then by number 2; else the step on the two lists as arrays.
#[tactic(auto, unfolding(crate::specs::Steps::step_in_numbers))]
fn lent_step(
    feed: &[u8],
    at: usize,
    given: PitchStates,
    history_q0: &mut [i16],
    words: &mut [i16],
) -> Result<StepAnswer, Refusal>
    ensures { record { answer = told_step_answer (told result) given.searcher given.reader; history = history_q0.new; words = words.new } ≡ step_in_numbers feed.now at given.searcher given.reader history_q0.old words.old }
{
    let history_length = history_q0.len();
    let words_length = words.len();
    let history = history_q0
        .as_mut_array::<143>()
        .ok_or(Refusal::Length(history_length))?;
    let lent = words
        .as_mut_array::<160>()
        .ok_or(Refusal::Length(words_length))?;
    known_at(feed, at, given)?;
    let ends = ClosedLoop::from(given);
    let step = selection::step_lent(ends, history, lent, feed, at);
    Ok(stepped(step, given))
}

fn known_at(feed: &[u8], at: usize, states: PitchStates) -> Result<(), Refusal>
    ensures { told result ≡ checked (subframes_at (header feed.now at) (body feed.now at) states.searcher states.reader) refused (values tt) }
{
    match feed::header_at(feed, at) {
        Ok(Some(record)) => known_in(record.kind, feed::body_at(feed, at), states),
        Ok(None) => Ok(()),
        Err(_) => Ok(()),
    }
}

// Only the record that uses a state looks at the subframe that it expects.
#[tactic(auto, unfolding(feed::specs::Records::lengths))]
fn known_in(kind: Kind, body: &[u8], states: PitchStates) -> Result<(), Refusal>
    requires { length body.now ≡ body_length (kind_number kind) }
    ensures { told result ≡ checked (subframes_of (kind_number kind) body.now states.searcher states.reader) refused (values tt) }
{
    match kind {
        Kind::Pitch => pitch_state::known_subframes(body[0], states.searcher.next),
        Kind::LagReading => pitch_state::known_subframes(body[0], states.reader.next),
        _ => Ok(()),
    }
}

// The numbers after an accepted reset, or an accepted record of the one kind that uses the state, are new; after any other they are those given.
fn stepped(step: Step<Option<Answer>, ClosedLoop>, given: PitchStates) -> StepAnswer
    ensures { (ws : List ℤ) → result ≡ stepped (told_answer step.answer ws) step.after.searcher step.after.reader given.searcher given.reader }
{
    let new = PitchStates::from(step.after);
    let after = match step.answer {
        Ok(Some(Answer::Reset)) => new,
        Ok(Some(Answer::Pitch { .. })) => PitchStates {
            searcher: new.searcher,
            ..given
        },
        Ok(Some(Answer::Lag { .. })) => PitchStates {
            reader: new.reader,
            ..given
        },
        _ => given,
    };
    step_answer(step.answer, after)
}

fn step_answer(answer: Result<Option<Answer>, Refusal>, states: PitchStates) -> StepAnswer
    ensures { (ws : List ℤ) → result ≡ step_answer (fields_of (told_answer answer ws)) states.searcher states.reader }
{
    let numbers = StepAnswer {
        searcher_samples: states.searcher.samples,
        searcher_fraction: states.searcher.fraction,
        searcher_next: states.searcher.next,
        searcher_upper: states.searcher.upper,
        searcher_start: states.searcher.start,
        reader_samples: states.reader.samples,
        reader_fraction: states.reader.fraction,
        reader_next: states.reader.next,
        reader_upper: states.reader.upper,
        reader_start: states.reader.start,
        ..Default::default()
    };
    match answer {
        Ok(None) => StepAnswer {
            line: FEED_END,
            ..numbers
        },
        Ok(Some(Answer::Reset)) => numbers,
        Ok(Some(Answer::Open(lag))) => StepAnswer {
            line: u8::from(Kind::HalfFrame),
            first: i32::from(lag.samples()),
            ..numbers
        },
        Ok(Some(Answer::Pitch { index, lag, hertz })) => StepAnswer {
            line: u8::from(Kind::Pitch),
            first: i32::from(index),
            second: i32::from(lag.samples),
            third: i32::from(i16::from(lag.fraction)),
            fourth: i32::from(hertz),
            ..numbers
        },
        Ok(Some(Answer::Pulses(words))) => StepAnswer {
            line: u8::from(Kind::Pulses),
            first: i32::from(words.positions),
            second: i32::from(words.signs),
            ..numbers
        },
        Ok(Some(Answer::Gain(chosen))) => StepAnswer {
            line: u8::from(Kind::Gain),
            first: i32::from(chosen.index),
            second: i32::from(chosen.row.pitch_q14),
            third: i32::from(chosen.row.correction_q12),
            ..numbers
        },
        Ok(Some(Answer::Filter)) => StepAnswer {
            line: u8::from(Kind::Filtering),
            ..numbers
        },
        Ok(Some(Answer::Lag { lag, hertz })) => StepAnswer {
            line: u8::from(Kind::LagReading),
            first: i32::from(lag.samples),
            second: i32::from(i16::from(lag.fraction)),
            third: i32::from(hertz),
            ..numbers
        },
        Err(refusal) => {
            let detail = Detail::from(refusal);
            StepAnswer {
                number: refusal.number(),
                negative: detail.negative,
                magnitude: detail.magnitude,
                ..numbers
            }
        }
    }
}
