// The coefficients of a row's distance, TS 26.073 calc_filt_energies and the scaling of Qua_gain at 7.4 kbit/s, from gain/quantization.rs.
#![tactic(auto)]

ghost use Rattle.std.specs.Prelude.{◌≡◌};
ghost use Rattle.gain_coefficients.specs.Energies.{cut, negated, raised, xy_coefficient, levelled, on_one_scale, coefficients, counted_coefficients};

use gain_pitch::{PitchGain, ScaledWord};

// At how many of their 40 terms the three sums of the innovation were clipped: its energy, and its products with the target and with the adaptive words.
#[derive(Clone, Copy, Debug, PartialEq, Eq)]
pub struct InnovationClips {
    pub energy: u8,
    pub target: u8,
    pub adaptive: u8,
}

// The five coefficients, and how often the sums of three were clipped.
#[derive(Clone, Copy, Debug, PartialEq, Eq)]
pub struct CountedCoefficients {
    pub list: [i32; 5],
    pub clips: InnovationClips,
}

// Of target, adaptive words and the innovation's eighths, all on one scale.
pub fn counted_coefficients(
    target: &[i16; 40],
    adaptive: &[i16; 40],
    innovation: &[i16; 40],
    gain: PitchGain,
    code: i16,
) -> CountedCoefficients
    ensures { result ≡ counted_coefficients target.now adaptive.now innovation.now gain code }
{
    let zz = gain_sums::dot(innovation, innovation);
    let xz = gain_sums::dot(target, innovation);
    let yz = gain_sums::dot(adaptive, innovation);
    let list = on_one_scale(&[
        raised(gain.yy, -13),
        raised(adaptive_correlation(gain), -14),
        raised(cut(zz.value, -3), fixed::add(15, fixed::shift(code, 1))),
        raised(negated(cut(xz.value, 7)), code),
        raised(cut(yz.value, 7), fixed::add(1, code)),
    ]);
    CountedCoefficients {
        list,
        clips: InnovationClips {
            energy: zz.clips,
            target: xz.clips,
            adaptive: yz.clips,
        },
    }
}

// The coefficients alone.
#[tactic(auto, unfolding(crate::specs::Energies::counted_coefficients))]
pub fn coefficients(
    target: &[i16; 40],
    adaptive: &[i16; 40],
    innovation: &[i16; 40],
    gain: PitchGain,
    code: i16,
) -> [i32; 5]
    ensures { result ≡ coefficients target.now adaptive.now innovation.now gain code }
{
    counted_coefficients(target, adaptive, innovation, gain, code).list
}

// Only shifted: no rounding.
#[tactic(auto, unfolding(crate::specs::Energies::cut))]
fn cut(sum: i32, bias: i16) -> ScaledWord
    ensures { result ≡ cut sum bias }
{
    let places = fixed::normalize(sum);
    ScaledWord {
        word: fixed::high(fixed::shift(sum, places)),
        exponent: fixed::sub(bias, places),
    }
}

fn negated(coefficient: ScaledWord) -> ScaledWord
    ensures { result ≡ negated coefficient }
{
    ScaledWord {
        word: fixed::negate(coefficient.word),
        exponent: coefficient.exponent,
    }
}

fn raised(coefficient: ScaledWord, scale: i16) -> ScaledWord
    ensures { result ≡ raised coefficient scale }
{
    ScaledWord {
        word: coefficient.word,
        exponent: fixed::add(coefficient.exponent, scale),
    }
}

#[tactic(auto, unfolding(crate::specs::Energies::levelled))]
fn levelled(coefficient: ScaledWord, top: i16) -> i32
    ensures { result ≡ levelled top coefficient }
{
    fixed::shift(
        fixed::deposit_high(coefficient.word),
        fixed::sub(coefficient.exponent, top),
    )
}

// Minus twice the correlation.
fn adaptive_correlation(gain: PitchGain) -> ScaledWord
    ensures { result ≡ xy_coefficient gain }
{
    raised(negated(gain.xy), 1)
}

fn on_one_scale(list: &[ScaledWord; 5]) -> [i32; 5]
    ensures { result ≡ on_one_scale list.now }
{
    let greatest = list.iter().fold(
        list[0].exponent,
        |greatest, coefficient| coefficient.exponent.max(greatest),
    );
    let top = fixed::add(greatest, 1);
    std::array::from_fn(|i| levelled(list[i], top))
}
