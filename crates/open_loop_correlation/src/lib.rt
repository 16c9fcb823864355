// The correlations of the open-loop lag, TS 26.073 comp_corr, from pitch/open_loop.rs.
#![tactic(auto)]

ghost use Rattle.std.specs.Prelude.{true, ◌≡◌, ◌+◌, ◌≤◌, pos};
ghost use Rattle.std.specs.Int.Signed.{lt_z};
ghost use Rattle.fixed.specs.Lists.{tabulate};
ghost use Rattle.open_loop_correlation.specs.Correlations.{products, energy_from, correlation, by_lag};

use fixed::sizes::HALF_FRAME_SAMPLES;

pub const HISTORY_SAMPLES: usize = 143;

pub const INPUT_SAMPLES: usize = 223;

const MINIMUM_LAG: usize = 20;

const LAGS: usize = 144;

// By the lag: places 20 to 143. An energy of all words that is not clipped proves that no sum is.
#[tactic(auto, using(crate::proofs::Energies::energy_within))]
pub fn correlations(words: &[i16; 223]) -> [i32; 144]
    ensures { result ≡ by_lag words.now }
{
    let is_quiet = energy(words, 0, INPUT_SAMPLES) < 2147483647;
    if is_quiet {
        return plain_table(words);
    }
    clipped_table(words)
}

// Of `count` words from a place on; 0 where these are not all among the 223. Terms are not negative, so the sum is clipped once.
#[tactic(auto, unfolding(crate::specs::Correlations::energy_from, sums::specs::Plain::squared))]
pub fn energy(words: &[i16; 223], from: usize, count: usize) -> i32
    ensures { result ≡ energy_from words.now from count }
{
    if INPUT_SAMPLES < from || INPUT_SAMPLES - from < count {
        return 0;
    }
    let mut sum: u64 = 0;
    for word in &words[from..from + count] {
        sum += sums::square(*word) as u64;
    }
    sums::held_energy(sum)
}

// ---- Sums that are not clipped.

fn plain_table(words: &[i16; 223]) -> [i32; 144]
    requires { lt_z (products words.now 0 0 223) (pos 2147483647) ≡ true }
    ensures { result ≡ by_lag words.now }
{
    let mut table = [0i32; LAGS];
    for lag in MINIMUM_LAG..LAGS {
        table[lag] = plain_at(words, lag);
    }
    table
}

// Half the sum, doubled at the end: the compiler makes products of several words at once of it.
#[tactic(auto, unfolding(sums::specs::Plain::plain))]
fn plain_at(words: &[i16; 223], lag: usize) -> i32
    requires { (lag ≤ 143) × (lt_z (products words.now 0 0 223) (pos 2147483647) ≡ true) }
    ensures { result ≡ correlation words.now lag }
{
    let from = HISTORY_SAMPLES - lag;
    let mut sum: i32 = 0;
    for i in 0..HALF_FRAME_SAMPLES {
        sum += fixed::exact(words[HISTORY_SAMPLES + i], words[from + i]);
    }
    2 * sum
}

// ---- Sums that may be clipped.

// Four lags at a time.
fn clipped_table(words: &[i16; 223]) -> [i32; 144]
    ensures { result ≡ by_lag words.now }
{
    let mut table = [0i32; LAGS];
    for lag in (MINIMUM_LAG..LAGS).step_by(4) {
        table[lag..lag + 4].copy_from_slice(&four_at(words, lag));
    }
    table
}

// The correlations of four neighbouring lags. The four sums grow side by side, each in its own order.
#[tactic(auto, using(fixed::proofs::Lists::zeros), unfolding(crate::specs::Correlations::products, fixed::specs::Lists::L_sum))]
fn four_at(words: &[i16; 223], lag: usize) -> [i32; 4]
    requires { lag + 3 ≤ 143 }
    ensures { result ≡ tabulate (λ n. correlation words.now (lag + n)) 4 }
{
    let mut sums = [0i32; 4];
    for i in 0..HALF_FRAME_SAMPLES {
        for n in 0..4 {
            sums[n] = fixed::mac(
                sums[n],
                words[HISTORY_SAMPLES + i],
                words[HISTORY_SAMPLES - (lag + n) + i],
            );
        }
    }
    sums
}
