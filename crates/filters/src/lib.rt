// The linear prediction filter A(z), TS 26.073 Weight_Ai and Residu: `weight` of postfilter.rs, `residual` of encoder_filtering.rs.
#![tactic(auto)]

ghost use Rattle.std.specs.Prelude.{◌≡◌, pos};
ghost use Rattle.fixed.specs.Operators.{L_shl, round};
ghost use Rattle.fixed.specs.Lists.{tabulate};
ghost use Rattle.filters.specs.Filters.{Weight_Ai, taps_to, Residu, filtered};

use fixed::sizes::{COEFFICIENTS, LPC_ORDER, SUBFRAME_SAMPLES};

const RESIDUAL_SHIFT: i16 = 3;

// TS 26.073 Weight_Ai.
pub fn weight(coefficients: &[i16; 11], factors: &[i16; 10]) -> [i16; 11]
    ensures { result ≡ Weight_Ai coefficients.now factors.now }
{
    let mut weighted = *coefficients;
    for i in 0..LPC_ORDER {
        weighted[i + 1] = fixed::rounded(fixed::product(coefficients[i + 1], factors[i]));
    }
    weighted
}

// TS 26.073 Residu. Where a list has another length than 11 and 50, all is 0.
#[tactic(auto, unfolding(crate::specs::Filters::filtered))]
pub fn filtered(coefficients: &[i16], samples: &[i16]) -> [i16; 40]
    ensures { result ≡ filtered coefficients.now samples.now }
{
    match (coefficients.as_array(), samples.as_array()) {
        (Some(coefficients), Some(samples)) => residual(coefficients, samples),
        _ => [0; SUBFRAME_SAMPLES],
    }
}

fn residual(coefficients: &[i16; 11], samples: &[i16; 50]) -> [i16; 40]
    ensures { result ≡ Residu coefficients.now samples.now }
{
    let sums = tap_sums(coefficients, samples);
    std::array::from_fn(|i| rounded_eightfold(sums[i]))
}

// Coefficient by coefficient: the 40 sums grow side by side, each in its own order.
fn tap_sums(coefficients: &[i16; 11], samples: &[i16; 50]) -> [i32; 40]
    ensures { result ≡ tabulate (λ i. taps_to coefficients.now samples.now i 11) 40 }
{
    let mut sums = [0i32; 40];
    for tap in 0..COEFFICIENTS {
        for i in 0..SUBFRAME_SAMPLES {
            sums[i] = fixed::mac(sums[i], samples[LPC_ORDER + i - tap], coefficients[tap]);
        }
    }
    sums
}

// A sum shifted to the left by 3, rounded.
fn rounded_eightfold(sum: i32) -> i16
    ensures { result ≡ round (L_shl sum (pos 3)) }
{
    fixed::rounded(fixed::shift(sum, RESIDUAL_SHIFT))
}
