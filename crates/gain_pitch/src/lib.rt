// The pitch gain, TS 26.073 G_pitch, from gain/quantization.rs: the gain, and the normalised energy and correlation from which the gain row is chosen.
#![tactic(auto)]

ghost use Rattle.std.specs.Prelude.{◌≡◌, pos};
ghost use Rattle.fixed.specs.Operators.{sub};
ghost use Rattle.gain_sums.specs.Sums.{counted_sum};
ghost use Rattle.gain_pitch.specs.Gains.{normalized, energy, correlation, gain, G_pitch, pitch_gain};
ghost use Rattle.refusal.specs.Refused.{told};

use gain_sums::Counted;
use refusal::Refusal;

const MAX_PITCH_GAIN_Q14: i16 = 19661;

const MIN_POSITIVE_CORRELATION: i16 = 4;

const CORRELATION_EXPONENT: i16 = 15;

// A word and its exponent, the standard's frac and exp.
#[derive(Clone, Copy, Debug, PartialEq, Eq)]
pub struct ScaledWord {
    pub word: i16,
    pub exponent: i16,
}

// At how many of their 40 terms the first energy sum and the first target sum were clipped: not those that are made anew with quarters.
#[derive(Clone, Copy, Debug, PartialEq, Eq)]
pub struct PitchClips {
    pub energy: u8,
    pub target: u8,
}

// The standard's g_coeff beside the gain: each number is a word by two to its exponent.
#[derive(Clone, Copy, Debug, PartialEq, Eq)]
pub struct PitchGain {
    pub gain_q14: i16,
    pub yy: ScaledWord,
    pub xy: ScaledWord,
    pub clips: PitchClips,
}

#[tactic(auto, unfolding(crate::specs::Gains::pitch_gain))]
pub fn pitch_gain(target: &[i16], adaptive: &[i16]) -> Result<PitchGain, Refusal>
    ensures { told result ≡ pitch_gain target.now adaptive.now }
{
    let target = refusal::of_length(target)?;
    let adaptive = refusal::of_length(adaptive)?;
    Ok(g_pitch(target, adaptive))
}

#[tactic(auto, unfolding(crate::specs::Gains::G_pitch, crate::specs::Gains::coefficients, gain_sums::specs::Sums::counted_sum))]
pub fn g_pitch(target: &[i16; 40], adaptive: &[i16; 40]) -> PitchGain
    ensures { result ≡ G_pitch target.now adaptive.now }
{
    let first_energy = gain_sums::square_sum(adaptive);
    let first_product = gain_sums::dot(target, adaptive);
    let yy = energy(adaptive, first_energy);
    let xy = correlation(target, adaptive, first_product);
    PitchGain {
        gain_q14: gain(xy, yy),
        yy: coefficient(yy),
        xy: coefficient(xy),
        clips: PitchClips {
            energy: first_energy.clips,
            target: first_product.clips,
        },
    }
}

// As the standard's g_coeff has it.
fn coefficient(found: ScaledWord) -> ScaledWord
    ensures { result ≡ record { word = found.word; exponent = sub (pos 15) found.exponent } }
{
    ScaledWord {
        word: found.word,
        exponent: fixed::sub(CORRELATION_EXPONENT, found.exponent),
    }
}

#[tactic(auto, unfolding(crate::specs::Gains::gain, crate::specs::Gains::quotient))]
fn gain(xy: ScaledWord, yy: ScaledWord) -> i16
    ensures { result ≡ gain xy yy }
{
    if xy.word < MIN_POSITIVE_CORRELATION {
        return 0;
    }
    let ratio = compound::divide(fixed::shift(xy.word, -1), yy.word);
    let gain = fixed::shift(ratio, fixed::sub(yy.exponent, xy.exponent));
    gain.min(MAX_PITCH_GAIN_Q14)
}

// ---- A sum that overflowed is made anew with a quarter of the adaptive words, and its exponent lowered.

#[tactic(auto, using(crate::proofs::Overflowed::counted_anew, crate::proofs::Overflowed::counted_kept), unfolding(gain_sums::specs::Sums::flagged_sum, gain_sums::specs::Sums::counted_sum))]
fn energy(adaptive: &[i16; 40], first: Counted) -> ScaledWord
    requires { first ≡ counted_sum adaptive.now adaptive.now 40 }
    ensures { result ≡ energy adaptive.now }
{
    if 0 < first.clips {
        return normalized(gain_sums::square_value(&sums::shifted40(adaptive, -2)), 4);
    }
    normalized(first.value, 0)
}

#[tactic(auto, using(crate::proofs::Overflowed::counted_anew, crate::proofs::Overflowed::counted_kept), unfolding(gain_sums::specs::Sums::flagged_sum, gain_sums::specs::Sums::counted_sum))]
fn correlation(target: &[i16; 40], adaptive: &[i16; 40], first: Counted) -> ScaledWord
    requires { first ≡ counted_sum target.now adaptive.now 40 }
    ensures { result ≡ correlation target.now adaptive.now }
{
    if 0 < first.clips {
        return normalized(
            gain_sums::clipped(target, &sums::shifted40(adaptive, -2)).value,
            2,
        );
    }
    normalized(first.value, 0)
}

// A long normalised, as a word, and by how many places, less those that a sum made anew takes off.
#[tactic(auto, unfolding(crate::specs::Gains::normalized))]
fn normalized(sum: i32, lowered: i16) -> ScaledWord
    ensures { result ≡ normalized sum lowered }
{
    let places = fixed::normalize(sum);
    ScaledWord {
        word: fixed::rounded(fixed::shift(sum, places)),
        exponent: fixed::sub(places, lowered),
    }
}
