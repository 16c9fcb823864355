// The resonance limit chosen by what the encoder has seen, TS 26.073 check_lsp, check_gp_clipping and update_gp_clipping, from encoder_stability.rs; and the gain stage under the limit so chosen.
#![tactic(auto)]

ghost use Rattle.std.specs.Prelude.{◌≡◌, ◌+◌, ◌<◌, fold};
ghost use Rattle.refusal.specs.Checks.{told_step};
ghost use Rattle.fixed.specs.Operators.{add};
ghost use Rattle.encoder_stability.specs.Watch.{fresh_watch, any_gap_below, threshold, close, counted, observed, eighth, limit_by, pushed, watched};

use gain::QuantizedGain;
use gain_limit::GainLimit;
use refusal::{Refusal, Step};

const GAIN_AVERAGE_SHIFT: i16 = -3;

const REQUIRED_RESONANT_FRAMES: u8 = 12;

const HIGH_FREQUENCY_GAP: i16 = 1500;

// 02 calls it the watch: how many spectra in a row had close values, and the last seven pitch gains, the oldest first.
#[derive(Clone, Copy, Debug, PartialEq, Eq)]
pub struct Stability {
    pub count: u8,
    pub gains_q11: [i16; 7],
}

// The gain row, and the limit that it lies within.
#[derive(Clone, Copy, Debug, PartialEq, Eq)]
pub struct WatchedGain {
    pub gain: QuantizedGain,
    pub limit: GainLimit,
}

impl Stability {
    pub fn fresh() -> Self
        ensures { result ≡ fresh_watch }
    {
        Stability {
            count: 0,
            gains_q11: [0; 7],
        }
    }

    pub fn reset(self) -> Self
        ensures { result ≡ fresh_watch }
    {
        Stability::fresh()
    }

    // Once a frame: whether the spectrum is resonant.
    #[tactic(auto, unfolding(crate::specs::Watch::observed))]
    pub fn observe_spectrum(self, lsp_q15: &[i16]) -> Step<bool, Self>
        ensures { told_step result ≡ observed self lsp_q15.now }
    {
        let lsp = match refusal::of_length(lsp_q15) {
            Ok(lsp) => lsp,
            Err(refusal) => return Step::refused(refusal, self),
        };
        let count = counted(is_close(lsp), self.count);
        let gains_q11 = self.gains_q11;
        Step {
            answer: Ok(REQUIRED_RESONANT_FRAMES <= count),
            after: Stability { count, gains_q11 },
        }
    }

    // The limit of the next gain stage, for an encoder that needs it before the pulses.
    #[tactic(auto, unfolding(crate::specs::Watch::limit_by))]
    pub fn limit(self, pitch_gain_q14: i16) -> GainLimit
        ensures { result ≡ limit_by self pitch_gain_q14 }
    {
        let least = GainLimit::RESONANCE_Q14;
        let sum = gain_sum(eighth(pitch_gain_q14), &self.gains_q11);
        if REQUIRED_RESONANT_FRAMES <= self.count && least < pitch_gain_q14 && least < sum {
            return GainLimit::Resonance;
        }
        GainLimit::Unrestricted
    }

    // The pitch gain of a row that was chosen.
    #[tactic(auto, unfolding(fixed::specs::Lists::part, fixed::specs::Lists::tabulate, fixed::specs::Lists::tabulate_from))]
    pub fn commit_gain(self, pitch_gain_q14: i16) -> Self
        ensures { result ≡ pushed self pitch_gain_q14 }
    {
        let [_, a, b, c, d, e, f] = self.gains_q11;
        Stability {
            count: self.count,
            gains_q11: [a, b, c, d, e, f, eighth(pitch_gain_q14)],
        }
    }

    // The gain stage with the limit that the watch chooses before it, for the pitch gain given.
    #[tactic(auto, unfolding(crate::specs::Watch::watched))]
    pub fn quantize(
        self,
        target: &[i16],
        adaptive: &[i16],
        filtered_innovation_q12: &[i16],
        exponent: i16,
        fraction: u16,
        pitch_gain_q14: i16,
    ) -> Step<WatchedGain, Self>
        ensures { told_step result ≡ watched self target.now adaptive.now filtered_innovation_q12.now exponent fraction pitch_gain_q14 }
    {
        let limit = self.limit(pitch_gain_q14);
        let chosen = gain::quantize(
            target,
            adaptive,
            filtered_innovation_q12,
            exponent,
            fraction,
            u8::from(limit),
        );
        match chosen {
            Ok(gain) => Step {
                answer: Ok(WatchedGain { gain, limit }),
                after: self.commit_gain(gain.row.pitch_q14),
            },
            Err(refusal) => Step::refused(refusal, self),
        }
    }
}

#[tactic(auto, unfolding(crate::specs::Watch::close))]
fn is_close(lsp: &[i16; 10]) -> bool
    ensures { result ≡ close lsp.now }
{
    any_gap_below(HIGH_FREQUENCY_GAP, lsp, 3, 5) || any_gap_below(threshold(lsp[1]), lsp, 1, 2)
}

// Of `count` gaps, from the one after place `first` on.
fn any_gap_below(bound: i16, lsp: &[i16; 10], first: usize, count: usize) -> bool
    requires { first + count < 10 }
    ensures { result ≡ any_gap_below bound lsp.now first count }
{
    for i in first..first + count {
        if fixed::sub(lsp[i], lsp[i + 1]) < bound {
            return true;
        }
    }
    false
}

fn threshold(second: i16) -> i16
    ensures { result ≡ threshold second }
{
    if 32000 < second {
        return 600;
    }
    if 30500 < second {
        return 800;
    }
    1100
}

fn counted(close: bool, count: u8) -> u8
    ensures { result ≡ counted close count }
{
    if close {
        return count.min(REQUIRED_RESONANT_FRAMES - 1) + 1;
    }
    0
}

fn eighth(gain_q14: i16) -> i16
    ensures { result ≡ eighth gain_q14 }
{
    fixed::shift(gain_q14, GAIN_AVERAGE_SHIFT)
}

// The sum is clipped after every addition.
fn gain_sum(first: i16, gains: &[i16; 7]) -> i16
    ensures { result ≡ fold add first gains.now }
{
    gains.iter().fold(first, |sum, gain| fixed::add(sum, *gain))
}
