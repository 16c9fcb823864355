// The closed loop. A searcher or a lag reader crosses as numbers.
ghost use Rattle.std.specs.Prelude.{◌≡◌};
ghost use Rattle.refusal.specs.Refused.{told};
ghost use Rattle.pitch.specs.declared.UpperLag.TheVariants.{Player, Handset};
ghost use Rattle.pitch_convolution.specs.Filters.{convolve};
ghost use Rattle.pitch_state.specs.States.{fresh_state};
ghost use Rattle.pitch_state.specs.Calls.{search_in_numbers, preview_in_numbers, read_in_numbers};
ghost use Rattle.mr74.specs.Lengths.{length_answer};
ghost use Rattle.mr74.specs.Pitches.{told_pitch, pitch_answer, reading_answer};

use crate::details::Detail;
use crate::filtering::{LengthAnswer, length_answer};
use pitch::UpperLag;
use pitch_search::SearchedPitch;
use pitch_state::PitchState;
use refusal::Refusal;

// The answer, and the state after it.
#[repr(C)]
#[derive(Clone, Copy, Default)]
pub struct PitchAnswer {
    pub number: u8,
    pub magnitude: u64,
    pub index: u8,
    pub samples: u16,
    pub fraction: i16,
    pub previous_samples: u16,
    pub previous_fraction: i16,
    pub next: u8,
    pub upper: u8,
    pub start: u16,
}

#[unsafe(no_mangle)]
pub extern "C" fn mr74_fresh_pitch() -> PitchState
    ensures { result ≡ fresh_state Handset }
{
    pitch_state::fresh(UpperLag::Handset)
}

#[unsafe(no_mangle)]
pub extern "C" fn mr74_fresh_player() -> PitchState
    ensures { result ≡ fresh_state Player }
{
    pitch_state::fresh(UpperLag::Player)
}

#[tactic(auto, unfolding(crate::specs::Pitches::pitch_answer))]
#[unsafe(no_mangle)]
pub extern "C" fn mr74_pitch_search(
    state: PitchState,
    excitation: &[i16],
    target: &[i16],
    impulse_q12: &[i16],
    first: u16,
    second: u16,
    subframe: u8,
) -> PitchAnswer
    ensures { result ≡ pitch_answer (search_in_numbers state excitation.now target.now impulse_q12.now first second subframe) }
{
    let step = pitch_state::search(
        state,
        excitation,
        target,
        impulse_q12,
        first,
        second,
        subframe,
    );
    pitch_answer(step.answer, step.after)
}

#[tactic(auto, unfolding(crate::specs::Pitches::pitch_answer, pitch_state::specs::Calls::preview_in_numbers))]
#[unsafe(no_mangle)]
pub extern "C" fn mr74_preview(
    state: PitchState,
    excitation: &[i16],
    target: &[i16],
    impulse_q12: &[i16],
    first: u16,
    second: u16,
    subframe: u8,
) -> PitchAnswer
    ensures { result ≡ pitch_answer (preview_in_numbers state excitation.now target.now impulse_q12.now first second subframe) }
{
    let step = pitch_state::preview(
        state,
        excitation,
        target,
        impulse_q12,
        first,
        second,
        subframe,
    );
    pitch_answer(step.answer, step.after)
}

#[tactic(auto, unfolding(crate::specs::Pitches::reading_answer))]
#[unsafe(no_mangle)]
pub extern "C" fn mr74_read_lag(state: PitchState, subframe: u8, index: u8) -> PitchAnswer
    ensures { result ≡ reading_answer (read_in_numbers state subframe index) }
{
    let step = pitch_state::read(state, subframe, index);
    let answer = step.answer.map(|lag| SearchedPitch { lag, index: 0 });
    pitch_answer(answer, step.after)
}

#[unsafe(no_mangle)]
pub extern "C" fn mr74_convolve(
    input: &[i16],
    impulse_q12: &[i16],
    output: &mut [i16],
) -> LengthAnswer
    ensures { (result ≡ length_answer (convolve input.now impulse_q12.now output.old).answer)
        × (output.new ≡ (convolve input.now impulse_q12.now output.old).after) }
{
    length_answer(pitch_convolution::convolve(input, impulse_q12, output))
}

fn pitch_answer(answer: Result<SearchedPitch, Refusal>, after: PitchState) -> PitchAnswer
    ensures { result ≡ told_pitch (told answer) after }
{
    let state = PitchAnswer {
        previous_samples: after.samples,
        previous_fraction: after.fraction,
        next: after.next,
        upper: after.upper,
        start: after.start,
        ..Default::default()
    };
    match answer {
        Ok(pitch) => PitchAnswer {
            index: pitch.index,
            samples: pitch.lag.samples,
            fraction: i16::from(pitch.lag.fraction),
            ..state
        },
        Err(refusal) => PitchAnswer {
            number: refusal.number(),
            magnitude: Detail::from(refusal).magnitude,
            ..state
        },
    }
}
