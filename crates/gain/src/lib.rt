// The gain row, TS 26.073 Qua_gain at 7.4 kbit/s, from gain/quantization.rs: the entry, over the limit, the coefficients and the choice of a row.
#![tactic(auto)]

ghost use Rattle.std.specs.Prelude.{◌≡◌};
ghost use Rattle.refusal.specs.Refused.{told};
ghost use Rattle.gain_choice.specs.Rows.{nearest_row};
ghost use Rattle.gain.specs.Rows.{weights, chosen, predicted, quantize};

use gain_coefficients::InnovationClips;
use gain_limit::GainLimit;
use gain_pitch::PitchClips;
use gain_table::GainRow;
use refusal::Refusal;

const CODE_EXPONENT_BIAS: i16 = 11;

const MIN_EXPONENT: i16 = -128;

const MAX_EXPONENT: i16 = 127;

const GCODE0_EXPONENT: u8 = 14;

// The row, and at how many of its 40 terms each of the five sums was clipped.
#[derive(Clone, Copy, Debug, PartialEq, Eq)]
pub struct QuantizedGain {
    pub index: u16,
    pub row: GainRow,
    pub pitch_clips: PitchClips,
    pub innovation_clips: InnovationClips,
}

#[tactic(auto, unfolding(crate::specs::Rows::quantize, crate::specs::Rows::Qua_gain, gain_limit::specs::Limits::limit_choice))]
pub fn quantize(
    target: &[i16],
    adaptive: &[i16],
    filtered_innovation_q12: &[i16],
    exponent: i16,
    fraction: u16,
    limit: u8,
) -> Result<QuantizedGain, Refusal>
    ensures { told result ≡ quantize target.now adaptive.now filtered_innovation_q12.now exponent fraction limit }
{
    let target = refusal::of_length(target)?;
    let adaptive = refusal::of_length(adaptive)?;
    let filtered = refusal::of_length(filtered_innovation_q12)?;
    let limit = GainLimit::try_new(limit)?;
    let gcode0 = predicted_gain(exponent, fraction)?;
    Ok(qua_gain(
        target,
        adaptive,
        filtered,
        exponent,
        gcode0,
        limit.pitch_q14(),
    ))
}

// The gain that the pair predicts. The check of the fraction is that of the power which the stage needs of it.
#[tactic(auto, unfolding(crate::specs::Rows::gcode0, logarithm::specs::Powers::Pow2))]
fn predicted_gain(exponent: i16, fraction: u16) -> Result<i16, Refusal>
    ensures { told result ≡ predicted exponent fraction }
{
    if !(MIN_EXPONENT..=MAX_EXPONENT).contains(&exponent) {
        return Err(Refusal::Exponent(exponent));
    }
    let power = logarithm::pow2(GCODE0_EXPONENT, fraction)?;
    Ok(fixed::low_word(power))
}

#[tactic(auto, unfolding(crate::specs::Rows::weights, gain_coefficients::specs::Energies::counted_coefficients, gain_pitch::specs::Gains::G_pitch, gain_pitch::specs::Gains::coefficients))]
fn qua_gain(
    target: &[i16; 40],
    adaptive: &[i16; 40],
    filtered: &[i16; 40],
    exponent: i16,
    gcode0: i16,
    limit_q14: i16,
) -> QuantizedGain
    ensures { result ≡ chosen target.now adaptive.now filtered.now (nearest_row (weights target.now adaptive.now filtered.now exponent) gcode0 limit_q14) }
{
    let gain = gain_pitch::g_pitch(target, adaptive);
    let innovation = sums::shifted40(filtered, -3);
    let code = fixed::sub(exponent, CODE_EXPONENT_BIAS);
    let weights = gain_coefficients::counted_coefficients(
        target,
        adaptive,
        &innovation,
        gain,
        code,
    );
    let index = gain_choice::nearest_row(&weights.list, gcode0, limit_q14);
    QuantizedGain {
        index,
        row: gain_table::row(index),
        pitch_clips: gain.clips,
        innovation_clips: weights.clips,
    }
}
