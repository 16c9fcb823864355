// TS 26.073 Convolve, from pitch/search.rs.
#![tactic(auto)]

ghost use Rattle.std.specs.Prelude.{◌≡◌, pos};
ghost use Rattle.fixed.specs.Operators.{extract_h, L_shl};
ghost use Rattle.pitch_convolution.specs.Filters.{Convolve, convolve};
ghost use Rattle.refusal.specs.Refused.{told};

use fixed::Clipped;
use fixed::sizes::SUBFRAME_SAMPLES;
use refusal::Refusal;

// TS 26.073 Convolve, which truncates.
#[tactic(auto, unfolding(crate::specs::Filters::convolve))]
pub fn convolve(input: &[i16], impulse_q12: &[i16], output: &mut [i16]) -> Result<(), Refusal>
    ensures { (told result ≡ (convolve input.now impulse_q12.now output.old).answer)
        × (output.new ≡ (convolve input.now impulse_q12.now output.old).after) }
{
    let words = refusal::of_length(input)?;
    let impulse = refusal::of_length(impulse_q12)?;
    refusal::of_length::<SUBFRAME_SAMPLES>(output)?;
    output.copy_from_slice(&convolved(words, impulse));
    Ok(())
}

// The same on 40 words each.
pub fn convolved(input: &[i16; 40], impulse: &[i16; 40]) -> [i16; 40]
    ensures { result ≡ Convolve input.now impulse.now }
{
    let mut sums = [0i32; SUBFRAME_SAMPLES];
    sums::convolution(input, impulse, &mut sums);
    std::array::from_fn(|n| high_of_eightfold(sums[n]))
}

// The high word of a sum shifted to the left by 3, in one shift and one clip.
#[tactic(auto, using(fixed::proofs::Products::high_shifted))]
fn high_of_eightfold(sum: i32) -> i16
    ensures { result ≡ extract_h (L_shl sum (pos 3)) }
{
    i16::clip((sum >> 13) as i64)
}
