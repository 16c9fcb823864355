// The watch as it crosses to Rust and C: its count as a number, its seven gains as a lent list, which an accepted gain stage updates.
#![tactic(auto)]

ghost use Rattle.std.specs.Prelude.{◌≡◌};
ghost use Rattle.refusal.specs.Refused.{told};
ghost use Rattle.refusal.specs.Checks.{told_step};
ghost use Rattle.stability_state.specs.Calls.{told_gain, spectrum_in_numbers, limit_in_numbers, gain_in_numbers};

use encoder_stability::{Stability, WatchedGain};
use gain_limit::GainLimit;
use refusal::{Refusal, Step};

// A spectrum leaves the gains as they are, so they do not cross.
#[tactic(auto, unfolding(crate::specs::Calls::spectrum_in_numbers))]
pub fn observe_spectrum(lsp_q15: &[i16], count: u8) -> Step<bool, u8>
    ensures { told_step result ≡ spectrum_in_numbers lsp_q15.now count }
{
    let watch = Stability {
        count,
        gains_q11: [0; 7],
    };
    let step = watch.observe_spectrum(lsp_q15);
    Step {
        answer: step.answer,
        after: step.after.count,
    }
}

#[tactic(auto, unfolding(crate::specs::Calls::limit_in_numbers))]
pub fn limit(pitch_gain_q14: i16, count: u8, gains_q11: &[i16]) -> Result<GainLimit, Refusal>
    ensures { told result ≡ limit_in_numbers pitch_gain_q14 count gains_q11.now }
{
    let gains = *refusal::of_length::<7>(gains_q11)?;
    let watch = Stability {
        count,
        gains_q11: gains,
    };
    Ok(watch.limit(pitch_gain_q14))
}

// Number 1 for the three lists and then for the gains; else the stage.
#[tactic(auto, using(encoder_stability::proofs::Stages::kept_by_refusal), unfolding(crate::specs::Calls::gain_in_numbers))]
pub fn quantize(
    target: &[i16],
    adaptive: &[i16],
    filtered_innovation_q12: &[i16],
    exponent: i16,
    fraction: u16,
    pitch_gain_q14: i16,
    count: u8,
    gains_q11: &mut [i16],
) -> Result<WatchedGain, Refusal>
    ensures { told_gain (told result) gains_q11.new ≡ gain_in_numbers target.now adaptive.now filtered_innovation_q12.now exponent fraction pitch_gain_q14 count gains_q11.old }
{
    refusal::of_length::<40>(target)?;
    refusal::of_length::<40>(adaptive)?;
    refusal::of_length::<40>(filtered_innovation_q12)?;
    let old = *refusal::of_length::<7>(gains_q11)?;
    let watch = Stability {
        count,
        gains_q11: old,
    };
    let step = watch.quantize(
        target,
        adaptive,
        filtered_innovation_q12,
        exponent,
        fraction,
        pitch_gain_q14,
    );
    let chosen = step.answer?;
    gains_q11.copy_from_slice(&step.after.gains_q11);
    Ok(chosen)
}
