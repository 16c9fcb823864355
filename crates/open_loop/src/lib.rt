// The open-loop lag, TS 26.073 Pitch_ol at 7.4 kbit/s without DTX, from pitch/open_loop.rs.
#![tactic(auto)]

ghost use Rattle.std.specs.Prelude.{◌≡◌};
ghost use Rattle.pitch.specs.Kinds.{told_lag};
ghost use Rattle.open_loop.specs.Detectors.{fresh_detector, joined, Pitch_ol};

use fixed::sizes::HALF_FRAME_SAMPLES;
use open_loop_correlation::{HISTORY_SAMPLES, INPUT_SAMPLES};
use pitch::OpenLoopLag;
use refusal::Step;

// The detector: the last 143 words, as they came in.
#[derive(Clone, Copy)]
pub struct Detector {
    pub history_q0: [i16; 143],
}

impl Detector {
    #[tactic(auto, unfolding(crate::specs::Detectors::fresh_detector))]
    pub fn fresh() -> Self
        ensures { result ≡ fresh_detector }
    {
        Detector {
            history_q0: [0; 143],
        }
    }

    pub fn reset(self) -> Self
        ensures { result ≡ fresh_detector }
    {
        Detector::fresh()
    }

    // Consecutive half frames of perceptually weighted speech.
    #[tactic(auto, using(open_loop_sections::proofs::Lags::lag_in, crate::proofs::Lengths::kept_by), unfolding(crate::specs::Detectors::Pitch_ol))]
    pub fn push(self, samples_q0: &[i16]) -> Step<OpenLoopLag, Self>
        ensures { (told_lag result.answer ≡ (Pitch_ol self samples_q0.now).answer)
            × (result.after ≡ (Pitch_ol self samples_q0.now).after) }
    {
        match refusal::of_length(samples_q0) {
            Ok(samples) => {
                let history = self.history_q0;
                let input = joined(&history, samples);
                let lag = open_loop_sections::lag_of(&input) as u16;
                Step {
                    answer: OpenLoopLag::try_new(lag),
                    after: Detector {
                        history_q0: sums::words_of(&input[HALF_FRAME_SAMPLES..]),
                    },
                }
            }
            Err(refusal) => Step::refused(refusal, self),
        }
    }
}

#[tactic(auto, using(crate::proofs::Lengths::joined_by))]
fn joined(history: &[i16; 143], samples: &[i16; 80]) -> [i16; 223]
    ensures { result ≡ joined history.now samples.now }
{
    let mut input = [0i16; INPUT_SAMPLES];
    input[..HISTORY_SAMPLES].copy_from_slice(history);
    input[HISTORY_SAMPLES..].copy_from_slice(samples);
    input
}
