// A searcher or a lag reader as the numbers that cross to Rust and C. A refused call hands back the numbers that were given, whatever they are.
#![tactic(auto)]

ghost use Rattle.std.specs.Prelude.{cond, ◌≡◌};
ghost use Rattle.refusal.specs.Refused.{values, refused, accepts, told};
ghost use Rattle.refusal.specs.Checks.{checked, told_step};
ghost use Rattle.pitch_state.specs.States.{in_numbers, searcher_numbers, reader_numbers, searcher_of, reader_of, previous_of, subframe_of, upper_of, fresh_state};
ghost use Rattle.pitch_state.specs.Calls.{known_subframes, call_checks, search_in_numbers, preview_in_numbers, read_in_numbers};

use lag_reader::Reader;
use pitch::{Fraction, PitchLag, Subframe, UpperLag};
use pitch_search::{Search, SearchedPitch};
use refusal::{Refusal, Step};

// The previous whole lag, its fraction in thirds, the subframe expected next, the upper lag, the start of the last window.
#[repr(C)]
#[derive(Clone, Copy, Debug, PartialEq, Eq)]
pub struct PitchState {
    pub samples: u16,
    pub fraction: i16,
    pub next: u8,
    pub upper: u8,
    pub start: u16,
}

pub fn fresh(upper: UpperLag) -> PitchState
    ensures { result ≡ fresh_state upper }
{
    PitchState::from(Reader::fresh(upper))
}

impl From<Search> for PitchState {
    ghost from_gives = { λ searcher result. result ≡ searcher_numbers searcher };

    fn from(searcher: Search) -> Self {
        in_numbers(
            searcher.previous,
            searcher.next,
            searcher.upper,
            searcher.start,
        )
    }
}

impl From<Reader> for PitchState {
    ghost from_gives = { λ reader result. result ≡ reader_numbers reader };

    fn from(reader: Reader) -> Self {
        in_numbers(reader.previous, reader.next, reader.upper, reader.start)
    }
}

fn in_numbers(previous: PitchLag, next: Subframe, upper: UpperLag, start: u16) -> PitchState
    ensures { result ≡ in_numbers previous next upper start }
{
    PitchState {
        samples: previous.samples,
        fraction: i16::from(previous.fraction),
        next: u8::from(next),
        upper: upper.samples() as u8,
        start,
    }
}

impl From<PitchState> for Search {
    ghost from_gives = { λ state result. result ≡ searcher_of state };

    fn from(state: PitchState) -> Self {
        Search {
            previous: previous_of(state),
            next: subframe_of(state.next),
            upper: upper_of(state.upper),
            start: state.start,
        }
    }
}

impl From<PitchState> for Reader {
    ghost from_gives = { λ state result. result ≡ reader_of state };

    fn from(state: PitchState) -> Self {
        Reader {
            previous: previous_of(state),
            next: subframe_of(state.next),
            upper: upper_of(state.upper),
            start: state.start,
        }
    }
}

fn previous_of(state: PitchState) -> PitchLag
    ensures { result ≡ previous_of state }
{
    PitchLag {
        samples: state.samples,
        fraction: Fraction::Zero,
    }
}

// 120 is the player, every other number the handset.
fn upper_of(number: u8) -> UpperLag
    ensures { result ≡ upper_of number }
{
    if number as u16 == UpperLag::PLAYER {
        return UpperLag::Player;
    }
    UpperLag::Handset
}

// Numbers outside 1 to 4 are refused before anything uses it.
fn subframe_of(number: u8) -> Subframe
    ensures { result ≡ subframe_of number }
{
    Subframe::try_from(number).unwrap_or(Subframe::Four)
}

// ---- The checks that come before the stage's own.

// The subframe number of a call, then the one that its state expects.
pub fn known_subframes(subframe: u8, next: u8) -> Result<(), Refusal>
    ensures { told result ≡ checked (known_subframes subframe next) refused (values tt) }
{
    Subframe::try_from(subframe)?;
    Subframe::try_from(next)?;
    Ok(())
}

fn known_call(
    state: PitchState,
    excitation: &[i16],
    target: &[i16],
    impulse_q12: &[i16],
    subframe: u8,
) -> Result<(), Refusal>
    ensures { told result ≡ checked (call_checks state excitation.now target.now impulse_q12.now subframe) refused (values tt) }
{
    refusal::of_length::<194>(excitation)?;
    refusal::of_length::<40>(target)?;
    refusal::of_length::<40>(impulse_q12)?;
    known_subframes(subframe, state.next)
}

// ---- The calls.

#[tactic(auto, unfolding(crate::specs::Calls::search_in_numbers))]
pub fn search(
    state: PitchState,
    excitation: &[i16],
    target: &[i16],
    impulse_q12: &[i16],
    first: u16,
    second: u16,
    subframe: u8,
) -> Step<SearchedPitch, PitchState>
    ensures { told_step result ≡ search_in_numbers state excitation.now target.now impulse_q12.now first second subframe }
{
    match known_call(state, excitation, target, impulse_q12, subframe) {
        Ok(()) => {
            let searcher = Search::from(state);
            let step = searcher.search(excitation, target, impulse_q12, first, second, subframe);
            kept(state, step.answer, PitchState::from(step.after))
        }
        Err(refusal) => Step::refused(refusal, state),
    }
}

// What `search` would answer; the state is handed back as it was given.
#[tactic(auto, unfolding(crate::specs::Calls::preview_in_numbers, crate::specs::Calls::search_in_numbers))]
pub fn preview(
    state: PitchState,
    excitation: &[i16],
    target: &[i16],
    impulse_q12: &[i16],
    first: u16,
    second: u16,
    subframe: u8,
) -> Step<SearchedPitch, PitchState>
    ensures { told_step result ≡ preview_in_numbers state excitation.now target.now impulse_q12.now first second subframe }
{
    let step = search(
        state,
        excitation,
        target,
        impulse_q12,
        first,
        second,
        subframe,
    );
    Step {
        answer: step.answer,
        after: state,
    }
}

#[tactic(auto, unfolding(crate::specs::Calls::read_in_numbers))]
pub fn read(state: PitchState, subframe: u8, index: u8) -> Step<PitchLag, PitchState>
    ensures { told_step result ≡ read_in_numbers state subframe index }
{
    match known_subframes(subframe, state.next) {
        Ok(()) => {
            let step = Reader::from(state).read(subframe, index);
            kept(state, step.answer, PitchState::from(step.after))
        }
        Err(refusal) => Step::refused(refusal, state),
    }
}

// A refused call keeps the numbers that were given.
fn kept<T: Copy>(
    given: PitchState,
    answer: Result<T, Refusal>,
    after: PitchState,
) -> Step<T, PitchState>
    ensures { told_step result ≡ record { answer = told answer; after = cond (accepts (told answer)) after given } }
{
    let after = if answer.is_ok() { after } else { given };
    Step { answer, after }
}
