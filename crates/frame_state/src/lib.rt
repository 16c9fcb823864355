// A whole frame on a searcher in numbers and on the detector's 143 old words, which are lent and updated if it is accepted.
#![tactic(auto)]

ghost use Rattle.std.specs.Prelude.{◌≡◌};
ghost use Rattle.refusal.specs.Refused.{told};
ghost use Rattle.frame.specs.Frames.{four_lists};
ghost use Rattle.frame_state.specs.Calls.{told_numbers, frame_in_numbers};

use frame::{FramePitches, FrameState, SubframeLists};
use open_loop::Detector;
use pitch::Subframe;
use pitch_search::Search;
use pitch_state::PitchState;
use refusal::Refusal;

// Number 1 for the thirteen lists and then for the history, then number 2; else the frame.
#[tactic(auto, unfolding(crate::specs::Calls::frame_in_numbers))]
pub fn search(
    searcher: PitchState,
    samples_q0: &[i16],
    one: SubframeLists,
    two: SubframeLists,
    three: SubframeLists,
    four: SubframeLists,
    history_q0: &mut [i16],
) -> Result<(FramePitches, PitchState), Refusal>
    ensures { told_numbers (told result) searcher history_q0.new ≡ frame_in_numbers searcher samples_q0.now (four_lists one.entry two.entry three.entry four.entry) history_q0.old }
{
    frame::known_lengths(samples_q0, one, two, three, four)?;
    let old = *refusal::of_length::<143>(history_q0)?;
    Subframe::try_from(searcher.next)?;
    let state = FrameState {
        detector: Detector { history_q0: old },
        searcher: Search::from(searcher),
    };
    let step = state.search(samples_q0, one, two, three, four);
    let found = step.answer?;
    history_q0.copy_from_slice(&step.after.detector.history_q0);
    Ok((found, PitchState::from(step.after.searcher)))
}
