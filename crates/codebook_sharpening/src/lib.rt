// The sharpening of the impulse and of the innovation, from codebook/search.rs.
#![tactic(auto)]

ghost use Rattle.std.specs.Prelude.{◌≡◌};
ghost use Rattle.codebook_sharpening.specs.Sharpenings.{doubled, sharpened};

use fixed::sizes::SUBFRAME_SAMPLES;

// The sharpening gain, in Q14. No gain in Q15, and no other gain, is of this kind.
#[repr(C)]
#[derive(Clone, Copy, Debug, PartialEq, Eq)]
pub struct SharpeningGain(pub i16);

// In Q15, where it clips from 16384 on and below -16384.
#[tactic(auto, unfolding(crate::specs::Sharpenings::doubled))]
pub fn doubled(gain: SharpeningGain) -> i16
    ensures { result ≡ doubled gain }
{
    fixed::shift(gain.0, 1)
}

// In place: a word that was raised may raise a later one.
pub fn sharpened(words: &[i16; 40], lag: usize, sharp_q15: i16) -> [i16; 40]
    ensures { result ≡ sharpened words.now lag sharp_q15 }
{
    let mut samples = *words;
    for place in lag..SUBFRAME_SAMPLES {
        let earlier = fixed::fractional(samples[place - lag], sharp_q15);
        samples[place] = fixed::add(samples[place], earlier);
    }
    samples
}
