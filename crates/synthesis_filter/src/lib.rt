// The synthesis filter 1 / A(z), TS 26.073 Syn_filt: `preview` of synthesis.rs.
#![tactic(auto)]

ghost use Rattle.std.specs.Prelude.{◌≡◌, ◌+◌, ◌^◌, ◌≤◌, ◌<◌, nat_abs, ◌*ℤ◌};
ghost use Rattle.fixed.specs.Operators.{L_mult};
ghost use Rattle.fixed.specs.Lists.{at, part};
ghost use Rattle.synthesis_filter.specs.Synthesis.{less_past, with_past, synthesis};
ghost use Rattle.synthesis_filter.specs.Plain.{magnitudes, weighed, Below};

use fixed::sizes::{COEFFICIENTS, LPC_ORDER, SUBFRAME_SAMPLES};

const BUFFER_SAMPLES: usize = 50;

const SYNTHESIS_SCALE_SHIFT: i16 = 3;

// Twice this is a long, and twice the next number is not.
const MOST_UNDOUBLED: u64 = 1073741823;

// Ten samples of the past, and the 40 that the filter puts out after them. Where a list has another length than 11, 40 and 10, all is 0.
#[tactic(auto, unfolding(crate::specs::Synthesis::synthesis))]
pub fn synthesis(coefficients: &[i16], excitation: &[i16], past: &[i16]) -> [i16; 50]
    ensures { result ≡ synthesis coefficients.now excitation.now past.now }
{
    let mut samples = [0; BUFFER_SAMPLES];
    if let (Some(coefficients), Some(excitation), Some(past)) = (
        coefficients.as_array(),
        excitation.as_array(),
        past.as_array(),
    ) {
        with_past(coefficients, excitation, past, &mut samples);
    }
    samples
}

fn with_past(
    coefficients: &[i16; 11],
    excitation: &[i16; 40],
    past: &[i16; 10],
    samples: &mut [i16; 50],
)
    ensures { samples.new ≡ with_past coefficients.now excitation.now past.now }
{
    let reach = reach(coefficients);
    samples[..LPC_ORDER].copy_from_slice(past);
    let mut peak = sums::peak(past);
    for n in 0..SUBFRAME_SAMPLES {
        let before = Before {
            samples,
            place: LPC_ORDER + n,
        };
        let sum = sum_at(coefficients, excitation[n], before, reach, peak);
        let sample = fixed::rounded(fixed::shift(sum, SYNTHESIS_SCALE_SHIFT));
        samples[LPC_ORDER + n] = sample;
        peak = peak.max(sample.unsigned_abs());
    }
}

// What was put out before a place, the past's ten samples or more.
#[derive(Clone, Copy)]
struct Before<'a> {
    samples: &'a [i16; 50],
    place: usize,
    ghost inside: { (10 ≤ place) × (place ≤ 50) },
}

// Where no sample is above `peak`, no sum is above what the test computes, and below 2^30 nothing is clipped on the way.
fn sum_at(coefficients: &[i16; 11], excitation: i16, before: Before, reach: u32, peak: u16) -> i32
    requires { (reach ≡ magnitudes coefficients.now 10) × Below before.samples.now before.place peak }
    ensures { result ≡ less_past coefficients.now before.entry.samples.now before.entry.place (L_mult excitation (at coefficients.now 0)) 10 }
{
    let first = fixed::exact(excitation, coefficients[0]);
    if MOST_UNDOUBLED < first.unsigned_abs() as u64 + reach as u64 * peak as u64 {
        return clipped_sum(coefficients, excitation, before);
    }
    plain_sum(coefficients, excitation, before)
}

fn clipped_sum(coefficients: &[i16; 11], excitation: i16, before: Before) -> i32
    ensures { result ≡ less_past coefficients.now before.entry.samples.now before.entry.place (L_mult excitation (at coefficients.now 0)) 10 }
{
    let mut sum = fixed::product(excitation, coefficients[0]);
    for tap in 1..COEFFICIENTS {
        sum = fixed::msu(sum, coefficients[tap], before.samples[before.place - tap]);
    }
    sum
}

// Half the sum, doubled at the end; the newest sample last: the other products do not wait for it.
fn plain_sum(coefficients: &[i16; 11], excitation: i16, before: Before) -> i32
    requires { nat_abs (excitation *ℤ at coefficients.now 0) + weighed coefficients.now before.samples.now before.place 10 < 2 ^ 30 }
    ensures { result ≡ less_past coefficients.now before.entry.samples.now before.entry.place (L_mult excitation (at coefficients.now 0)) 10 }
{
    let mut sum = fixed::exact(excitation, coefficients[0]);
    for tap in (1..COEFFICIENTS).rev() {
        sum -= fixed::exact(coefficients[tap], before.samples[before.place - tap]);
    }
    2 * sum
}

// The sum of the magnitudes of the coefficients after place 0: no sum of their products with samples is above it times the greatest sample's.
fn reach(coefficients: &[i16; 11]) -> u32
    ensures { result ≡ magnitudes coefficients.now 10 }
{
    let mut sum: u32 = 0;
    for coefficient in &coefficients[1..] {
        sum += coefficient.unsigned_abs() as u32;
    }
    sum
}

// What a synthesis put out after its past.
pub fn put_out(samples: &[i16; 50]) -> [i16; 40]
    ensures { result ≡ part samples.now 10 40 }
{
    std::array::from_fn(|i| samples[LPC_ORDER + i])
}
