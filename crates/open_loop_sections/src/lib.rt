// The open-loop lag of a list of words, TS 26.073 Pitch_ol at 7.4 kbit/s without DTX, from pitch/open_loop.rs: scaling, and the three sections.
#![tactic(auto)]

ghost use Rattle.std.specs.Prelude.{cond, ◌≡◌, ◌+◌, ◌≤◌, pos};
ghost use Rattle.std.specs.Int.Signed.{lt_z};
ghost use Rattle.fixed.specs.Operators.{mult};
ghost use Rattle.fixed.specs.Lists.{at, best};
ghost use Rattle.open_loop_correlation.specs.Correlations.{by_lag};
ghost use Rattle.open_loop_sections.specs.Sections.{scaled, scaled_all, held_at, Lag_max, of_sections, lag_of};

use fixed::sizes::HALF_FRAME_SAMPLES;
use open_loop_correlation::{HISTORY_SAMPLES, INPUT_SAMPLES};

const LOW_ENERGY_LIMIT: i32 = 1048576;

const SHORT_LAG_THRESHOLD_Q15: i16 = 27853;

// The lag of 223 words, 143 old ones and a half frame's 80 after them.
#[tactic(auto, unfolding(crate::specs::Sections::lag_of))]
pub fn lag_of(input: &[i16; 223]) -> usize
    ensures { result ≡ lag_of input.now }
{
    let words = scaled_all(input);
    of_sections(&words, &open_loop_correlation::correlations(&words))
}

fn scaled_all(input: &[i16; 223]) -> [i16; 223]
    ensures { result ≡ scaled_all input.now }
{
    let energy = open_loop_correlation::energy(input, 0, INPUT_SAMPLES);
    std::array::from_fn(|i| scaled(input[i], energy))
}

fn scaled(v: i16, energy: i32) -> i16
    ensures { result ≡ scaled energy v }
{
    if energy >= 2147483647 {
        return fixed::shift(v, -3);
    }
    if energy < LOW_ENERGY_LIMIT {
        return fixed::shift(v, 3);
    }
    v
}

#[tactic(auto, using(crate::proofs::Lags::favoured_held), unfolding(crate::specs::Sections::of_sections))]
fn of_sections(words: &[i16; 223], table: &[i32; 144]) -> usize
    requires { table.now ≡ by_lag words.now }
    ensures { result ≡ of_sections words.now }
{
    let long = section(words, table, 80, 63);
    let middle = section(words, table, 40, 39);
    let short = section(words, table, 20, 19);
    favoured(favoured(long, middle), short).lag
}

// A lag and its value.
#[derive(Clone, Copy)]
struct Held {
    lag: usize,
    value: i16,
}

// The best of a section's lags.
#[tactic(auto, using(fixed::proofs::Choices::best_in))]
fn section(words: &[i16; 223], table: &[i32; 144], low: usize, span: usize) -> Held
    requires { (table.now ≡ by_lag words.now) × (20 ≤ low) × (low + span ≤ 143) }
    ensures { result ≡ held_at words.now (Lag_max words.now low span) }
{
    let lag = best_lag(table, low, span);
    let energy = open_loop_correlation::energy(words, HISTORY_SAMPLES - lag, HALF_FRAME_SAMPLES);
    let root = energy::inverse_sqrt(energy);
    let value = fixed::low_word(compound::multiply(table[lag], root));
    Held { lag, value }
}

// The smaller lag wins a tie.
#[tactic(auto, unfolding(fixed::specs::Lists::best))]
fn best_lag(table: &[i32; 144], low: usize, span: usize) -> usize
    requires { low + span ≤ 143 }
    ensures { result ≡ best lt_z (at table.now) low span }
{
    let mut lag = low;
    for i in 0..span {
        let next = low + i + 1;
        if table[lag] < table[next] {
            lag = next;
        }
    }
    lag
}

// A later section's lag is shorter, and favoured.
fn favoured(held: Held, later: Held) -> Held
    ensures { result ≡ cond (lt_z (mult held.value (pos 27853)) later.value) later held }
{
    if fixed::fractional(held.value, SHORT_LAG_THRESHOLD_Q15) < later.value {
        return later;
    }
    held
}
