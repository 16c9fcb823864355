// The normalised correlations of the closed-loop pitch search, TS 26.073 Norm_Corr, from pitch/search.rs.
#![tactic(auto)]

ghost use Rattle.std.specs.Prelude.{true, cond, ◌≡◌, ◌+◌, ◌-◌, ◌*◌, ◌/◌, ◌^◌, ◌<◌, ◌≤◌, min, leb, pos, nat_abs, length};
ghost use Rattle.std.specs.Int.Signed.{lt_z};
ghost use Rattle.fixed.specs.Operators.{L_shl, extract_h, Mpy_32};
ghost use Rattle.fixed.specs.Lists.{at, tabulate, part, between, dot};
ghost use Rattle.sums.specs.Plain.{squared, weighed};
ghost use Rattle.energy.specs.Root.{Inv_sqrt, inverses};
ghost use Rattle.pitch_correlation.specs.Correlations.{scaled, scaled_all, update, correlations_from, Norm_Corr};

use fixed::Clipped;
use fixed::sizes::SUBFRAME_SAMPLES;
use sums::EnergyAndSum;

const HISTORY_SAMPLES: usize = 154;

const CORRELATION_SAMPLES: usize = 148;

const FILTER_SHIFT: u32 = 3;

const SCALED_FILTER_SHIFT: u32 = 1;

const ENERGY_LIMIT: i32 = 67108864;

// 1 in Q12.
const ONE: u16 = 4096;

// A half sum below this, doubled, is a long.
const ROOM: u64 = 1073741824;

// The square of that, less 1.
const MOST_PRODUCT: u64 = 1152921504606846975;

// By the squares of the first list.
fn is_loud(squares: u64) -> bool
    ensures { result ≡ lt_z (pos 67108864) (pos (min (2 * squares) 2147483647)) }
{
    ENERGY_LIMIT < sums::held_energy(squares)
}

fn scaled(v: i16, loud: bool) -> i16
    ensures { result ≡ scaled loud v }
{
    if loud {
        return fixed::shift(v, -2);
    }
    v
}

#[tactic(auto, unfolding(crate::specs::Correlations::scaled_all))]
fn scaled_all(convolved: &[i16; 40], loud: bool) -> [i16; 40]
    ensures { result ≡ scaled_all loud convolved.now }
{
    if loud {
        return sums::shifted40(convolved, -2);
    }
    *convolved
}

// Each word one place on, behind a 0.
fn moved(filtered: &[i16; 40]) -> [i16; 40]
    ensures { result ≡ tabulate (between (λ j. at filtered.now (j - 1)) (λ j. pos 0) 1 40) 40 }
{
    let mut words = [0i16; SUBFRAME_SAMPLES];
    for j in 1..SUBFRAME_SAMPLES {
        words[j] = filtered[j - 1];
    }
    words
}

// One lag on. All 40 places are filtered alike, eight at a time, and then the first is the sample.
fn update(filtered: &[i16; 40], sample: i16, impulse: &[i16; 40], loud: bool) -> [i16; 40]
    ensures { result ≡ update loud impulse.now sample filtered.now }
{
    let shift = filter_shift(loud);
    let mut next = moved(filtered);
    for j in 0..SUBFRAME_SAMPLES {
        next[j] = fixed::add(compound::product_high(sample, impulse[j], shift), next[j]);
    }
    next[0] = scaled(sample, loud);
    next
}

fn filter_shift(loud: bool) -> u32
    ensures { result ≡ cond loud 1 3 }
{
    if loud {
        return SCALED_FILTER_SHIFT;
    }
    FILTER_SHIFT
}

// A list whose squares are at most this has neither sum clipped: (Σ |a b|)² is at most Σ a² times Σ b².
fn room(target: &[i16; 40]) -> u64
    ensures { (result < 2 ^ 30) × (result * squared (at target.now) 40 < 2 ^ 60) }
{
    let squares = sums::squares40(target);
    if squares < ROOM {
        return ROOM - 1;
    }
    MOST_PRODUCT / squares
}

// What the sample adds to a word at most: the response's words are at most the peak, and so is 1, the first word's factor.
fn most_added(sample: i16, peak: u16, loud: bool) -> u64
    ensures { (result ≡ nat_abs sample * peak / 2 ^ cond loud 14 12 + 1) × (result ≤ 2 ^ 20) }
{
    ((sample.unsigned_abs() as u32 * peak as u32) >> (15 - filter_shift(loud))) as u64 + 1
}

// Whether the next list's squares are within the room. (a + b)² is at most 2 a² + 2 b², and the energy of the list before is its squares doubled.
fn is_within(energy: i32, added: u64, room: u64) -> bool
    requires { added ≤ 2 ^ 20 }
    ensures { result ≡ leb (nat_abs energy + 80 * (added * added)) room }
{
    energy.unsigned_abs() as u64 + 80 * (added * added) <= room
}

// The energy and the sum with the target, in one walk. Whether it may be plain is known before it.
#[tactic(auto, using(sums::proofs::Quiet::weighed_self, sums::proofs::Quiet::weighed_below))]
fn energy_and_sum(filtered: &[i16; 40], target: &[i16; 40], plain: bool) -> EnergyAndSum
    requires { plain ≡ true → (squared (at filtered.now) 40 < 2 ^ 30) × (squared (at filtered.now) 40 * squared (at target.now) 40 < 2 ^ 60) }
    ensures { (result.energy ≡ dot filtered.now filtered.now 40) × (result.sum ≡ dot filtered.now target.now 40) }
{
    if plain {
        return plain_walk(filtered, target);
    }
    sums::energy_and_sum40(filtered, target)
}

// Half of either sum, doubled at the end: the compiler makes products of several words at once of it.
#[tactic(auto, unfolding(fixed::specs::Lists::dot, fixed::specs::Lists::L_sum))]
fn plain_walk(filtered: &[i16; 40], target: &[i16; 40]) -> EnergyAndSum
    requires { (weighed (at filtered.now) (at filtered.now) 40 < 2 ^ 30) × (weighed (at filtered.now) (at target.now) 40 < 2 ^ 30) }
    ensures { (result.energy ≡ dot filtered.now filtered.now 40) × (result.sum ≡ dot filtered.now target.now 40) }
{
    let mut energy: i32 = 0;
    let mut sum: i32 = 0;
    for i in 0..SUBFRAME_SAMPLES {
        energy += fixed::exact(filtered[i], filtered[i]);
        sum += fixed::exact(filtered[i], target[i]);
    }
    EnergyAndSum {
        energy: 2 * energy,
        sum: 2 * sum,
    }
}

fn normalized(energy: i32, sum: i32, roots: &[u16; 49]) -> i16
    requires { roots.now ≡ inverses }
    ensures { result ≡ extract_h (L_shl (Mpy_32 sum (Inv_sqrt energy)) (pos 16)) }
{
    let root = energy::inverse_sqrt_in(energy, roots);
    i16::clip(compound::multiply(sum, root) as i64)
}

// By the lag, from low up to, and without, end. Where the lists have other lengths, or there is no such lag, or one is above 147, every place is 0.
#[tactic(auto, using(crate::proofs::Filterings::unasked, crate::proofs::Filterings::forty_cut, crate::proofs::Filterings::norm_corr), unfolding(crate::specs::Correlations::correlations))]
pub fn normalized_correlation(
    excitation: &[i16],
    target: &[i16],
    impulse: &[i16],
    low: usize,
    end: usize,
) -> [i16; 148]
    ensures { result ≡ Norm_Corr excitation.now target.now impulse.now low end }
{
    match (excitation.as_array(), target.as_array(), impulse.as_array()) {
        (Some(excitation), Some(target), Some(impulse))
            if low < end && end <= CORRELATION_SAMPLES => {
            let from = HISTORY_SAMPLES - low;
            let past = sums::words_of(&excitation[from..from + SUBFRAME_SAMPLES]);
            let first = pitch_convolution::convolved(&past, impulse);
            correlated(&first, excitation, target, impulse, low, end)
        }
        _ => [0; CORRELATION_SAMPLES],
    }
}

// Each lag's list is made from the one before it and then walked once.
fn correlated(
    first: &[i16; 40],
    excitation: &[i16; 194],
    target: &[i16; 40],
    impulse: &[i16; 40],
    low: usize,
    end: usize,
) -> [i16; 148]
    requires { (low < end) × (end ≤ 148) }
    ensures { result ≡ correlations_from first.now excitation.now target.now impulse.now low end }
{
    let roots = energy::inverse_table();
    let squares = sums::squares40(first);
    let loud = is_loud(squares);
    let room = room(target);
    let peak = sums::peak(impulse).max(ONE);
    let mut filtered = scaled_all(first, loud);
    let at_low = energy_and_sum(&filtered, target, squares <= room);
    let mut energy = at_low.energy;
    let mut correlation = [0i16; CORRELATION_SAMPLES];
    correlation[low] = normalized(energy, at_low.sum, &roots);
    for next in low + 1..end {
        let sample = excitation[HISTORY_SAMPLES - next];
        let plain = is_within(energy, most_added(sample, peak, loud), room);
        filtered = update(&filtered, sample, impulse, loud);
        let at_next = energy_and_sum(&filtered, target, plain);
        energy = at_next.energy;
        correlation[next] = normalized(energy, at_next.sum, &roots);
    }
    correlation
}
