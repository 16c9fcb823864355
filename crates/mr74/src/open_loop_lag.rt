// The open loop. A detector crosses as its 143 old words, lent by the caller and updated there; fresh, they are all 0.
ghost use Rattle.std.specs.Prelude.{◌≡◌};
ghost use Rattle.pitch.specs.Kinds.{told_lag, try_lag};
ghost use Rattle.mr74.specs.OpenLoops.{lag_answer, open_loop};

use crate::details::Detail;
use open_loop::Detector;
use pitch::OpenLoopLag;
use refusal::Refusal;

#[repr(C)]
#[derive(Clone, Copy, Default)]
pub struct OpenLoopAnswer {
    pub number: u8,
    pub magnitude: u64,
    pub lag: u16,
}

#[unsafe(no_mangle)]
pub extern "C" fn mr74_open_loop(samples_q0: &[i16], history_q0: &mut [i16]) -> OpenLoopAnswer
    ensures { (result ≡ lag_answer (open_loop samples_q0.now history_q0.old).answer)
        × (history_q0.new ≡ (open_loop samples_q0.now history_q0.old).after) }
{
    lag_answer(pushed(samples_q0, history_q0))
}

#[tactic(auto, unfolding(crate::specs::OpenLoops::open_loop))]
fn pushed(samples_q0: &[i16], history_q0: &mut [i16]) -> Result<OpenLoopLag, Refusal>
    ensures { (told_lag result ≡ (open_loop samples_q0.now history_q0.old).answer)
        × (history_q0.new ≡ (open_loop samples_q0.now history_q0.old).after) }
{
    refusal::of_length::<80>(samples_q0)?;
    let old = *refusal::of_length::<143>(history_q0)?;
    let detector = Detector { history_q0: old };
    let step = detector.push(samples_q0);
    history_q0.copy_from_slice(&step.after.history_q0);
    step.answer
}

// A lag that the open loop may answer, 20 to 143.
#[unsafe(no_mangle)]
pub extern "C" fn mr74_open_loop_lag(samples: u16) -> OpenLoopAnswer
    ensures { result ≡ lag_answer (try_lag samples) }
{
    let lag = OpenLoopLag::try_new(samples);
    lag_answer(lag)
}

fn lag_answer(lag: Result<OpenLoopLag, Refusal>) -> OpenLoopAnswer
    ensures { result ≡ lag_answer (told_lag lag) }
{
    match lag {
        Ok(found) => OpenLoopAnswer {
            lag: found.samples(),
            ..Default::default()
        },
        Err(refusal) => OpenLoopAnswer {
            number: refusal.number(),
            magnitude: Detail::from(refusal).magnitude,
            ..Default::default()
        },
    }
}
