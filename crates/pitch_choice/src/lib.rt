// The choice of a lag and a fraction by the normalised correlations, TS 26.073 Pitch_fr at 7.4 kbit/s, from pitch/search.rs.
#![tactic(auto)]

ghost use Rattle.std.specs.Prelude.{◌≡◌, ◌+◌, ◌<◌, ◌≤◌};
ghost use Rattle.pitch.specs.Kinds.{absolute};
ghost use Rattle.pitch_choice.specs.Choices.{interpolator, Interpol_6, step_value, best_lag, best_step, settled, chosen, choose};

use fixed::sizes::INTERPOLATION_SAMPLES;
use pitch::{Fraction, OpenLoopLag, PitchLag, Subframe, Window};

const MAX_FRACTIONAL_LAG: usize = 84;

// TS 26.073 Interpol_3or6 uses this filter for the search.
const INTERPOLATOR: [i16; 25] = [
    29519, 28316, 24906, 19838, 13896, 7945, 2755, -1127, -3459, -4304, -3969, -2899, -1561, -336,
    534, 970, 1023, 823, 516, 220, 0, -131, -194, -215, 0,
];

// The larger lag wins a tie.
#[tactic(auto, unfolding(crate::specs::Choices::best_lag, fixed::specs::Lists::best))]
fn best_lag(correlation: &[i16; 148], window: Window) -> usize
    requires { window.start + window.span ≤ 143 }
    ensures { result ≡ best_lag correlation.now window.start window.span }
{
    let start = window.start as usize;
    let mut lag = start;
    for i in 0..window.span as usize {
        let next = start + i + 1;
        if correlation[next] >= correlation[lag] {
            lag = next;
        }
    }
    lag
}

// TS 26.073 Interpol_3or6.
#[tactic(auto, unfolding(crate::specs::Choices::interpolated_to, crate::specs::Choices::Interpol_6))]
fn interpolated(correlation: &[i16; 148], place: usize, phase: usize, table: &[i16; 25]) -> i16
    requires { (table.now ≡ interpolator) × (3 ≤ place) × (place ≤ 143) × (phase ≤ 6) }
    ensures { result ≡ Interpol_6 correlation.now place phase }
{
    let mut sum: i32 = 0;
    for i in 0..INTERPOLATION_SAMPLES {
        sum = fixed::mac(sum, correlation[place - i], table[phase + 6 * i]);
        sum = fixed::mac(sum, correlation[place + 1 + i], table[6 - phase + 6 * i]);
    }
    fixed::rounded(sum)
}

// Steps 0 to 4 stand for the fractions -2 to 2.
#[tactic(auto, using(crate::proofs::Choosings::step_early, crate::proofs::Choosings::step_late))]
fn step_value(correlation: &[i16; 148], lag: usize, step: usize, table: &[i16; 25]) -> i16
    requires { (table.now ≡ interpolator) × (4 ≤ lag) × (lag ≤ 143) × (step ≤ 4) }
    ensures { result ≡ step_value correlation.now lag step }
{
    if step < 2 {
        return interpolated(correlation, lag - 1, 2 + 2 * step, table);
    }
    interpolated(correlation, lag, 2 * (step - 2), table)
}

// The earlier fraction is kept on a tie.
#[tactic(auto, unfolding(crate::specs::Choices::interpolator))]
fn best_step(correlation: &[i16; 148], lag: usize) -> usize
    requires { (4 ≤ lag) × (lag ≤ 143) }
    ensures { result ≡ best_step correlation.now lag 4 }
{
    let table = INTERPOLATOR;
    let mut best = 0;
    let mut greatest = step_value(correlation, lag, 0, &table);
    for step in 1..5 {
        let value = step_value(correlation, lag, step, &table);
        if greatest < value {
            greatest = value;
            best = step;
        }
    }
    best
}

fn settled(lag: usize, step: usize) -> PitchLag
    requires { (1 ≤ lag) × (lag ≤ 143) }
    ensures { result ≡ settled lag step }
{
    let (samples, fraction) = match step {
        0 => (lag - 1, Fraction::PlusThird),
        1 => (lag, Fraction::MinusThird),
        2 => (lag, Fraction::Zero),
        3 => (lag, Fraction::PlusThird),
        _ => (lag + 1, Fraction::MinusThird),
    };
    PitchLag {
        samples: samples as u16,
        fraction,
    }
}

#[tactic(auto, using(crate::proofs::Choosings::best_lag_in), unfolding(crate::specs::Choices::chosen))]
fn chosen(subframe: Subframe, correlation: &[i16; 148], window: Window) -> PitchLag
    requires { (20 ≤ window.start) × (window.start + window.span ≤ 143) }
    ensures { result ≡ chosen (absolute subframe) correlation.now window.start window.span }
{
    let lag = best_lag(correlation, window);
    if subframe.absolute() && MAX_FRACTIONAL_LAG < lag {
        return settled(lag, 2);
    }
    settled(lag, best_step(correlation, lag))
}

// By the correlations at the places of the window's lags. Where these are no lags of a search, the answer is lag 0.
#[tactic(auto, unfolding(crate::specs::Choices::choose))]
pub fn choose(subframe: Subframe, correlation: &[i16; 148], window: Window) -> PitchLag
    ensures { result ≡ choose (absolute subframe) correlation.now window.start window.span }
{
    let last = window.start as u32 + window.span as u32;
    if OpenLoopLag::MIN <= window.start && last <= OpenLoopLag::MAX as u32 {
        return chosen(subframe, correlation, window);
    }
    PitchLag {
        samples: 0,
        fraction: Fraction::Zero,
    }
}
