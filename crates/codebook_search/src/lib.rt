// The pulse search behind 01's checks, from codebook/search.rs.
#![tactic(auto)]

ghost use Rattle.std.specs.Prelude.{◌≡◌};
ghost use Rattle.codebook_search.specs.Pulses.{lent, pulses};
ghost use Rattle.refusal.specs.Refused.{told};

use codebook_code::PulseWords;
use codebook_sharpening::SharpeningGain;
use fixed::sizes::SUBFRAME_SAMPLES;
use refusal::Refusal;

const MIN_LAG: u16 = 19;

const MAX_LAG: u16 = 144;

#[tactic(auto, unfolding(crate::specs::Pulses::accepted, crate::specs::Pulses::pulses))]
pub fn search(
    target: &[i16],
    impulse_q12: &[i16],
    lag: u16,
    pitch_sharp_q14: SharpeningGain,
    innovation_q13: &mut [i16],
    filtered_q12: &mut [i16],
    sharpened_impulse_q12: &mut [i16],
) -> Result<PulseWords, Refusal>
    ensures { (told result ≡ (pulses target.now impulse_q12.now lag pitch_sharp_q14 (lent innovation_q13.old filtered_q12.old sharpened_impulse_q12.old)).answer)
        × (lent innovation_q13.new filtered_q12.new sharpened_impulse_q12.new ≡ (pulses target.now impulse_q12.now lag pitch_sharp_q14 (lent innovation_q13.old filtered_q12.old sharpened_impulse_q12.old)).after) }
{
    let words = refusal::of_length(target)?;
    let impulse = refusal::of_length(impulse_q12)?;
    refusal::of_length::<SUBFRAME_SAMPLES>(innovation_q13)?;
    refusal::of_length::<SUBFRAME_SAMPLES>(filtered_q12)?;
    refusal::of_length::<SUBFRAME_SAMPLES>(sharpened_impulse_q12)?;
    if !(MIN_LAG..=MAX_LAG).contains(&lag) {
        return Err(Refusal::PulseLag(lag));
    }
    let found = codebook_code::searched(words, impulse, lag as usize, pitch_sharp_q14);
    innovation_q13.copy_from_slice(&found.innovation_q13);
    filtered_q12.copy_from_slice(&found.filtered_q12);
    sharpened_impulse_q12.copy_from_slice(&found.sharpened_impulse_q12);
    Ok(found.words)
}
