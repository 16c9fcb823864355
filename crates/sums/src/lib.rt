// Lists of 40 words, a subframe: sums over them, shifted, copied.
#![tactic(auto)]

ghost use Rattle.std.specs.Prelude.{true, ◌≡◌, ℕ, suc, ◌+◌, ◌-◌, ◌*◌, ◌^◌, ◌<◌, ◌≤◌, min, max, pos, nat_abs, ◌*ℤ◌, replicate};
ghost use Rattle.fixed.specs.Lists.{at, tabulate, between, dot, shifted, copied};
ghost use Rattle.sums.specs.Plain.{plain, squared, peak, reach, weighed};
ghost use Rattle.sums.specs.Convolutions.{convolution};

// A half sum below this, doubled, is a long.
const ROOM: u64 = 1073741824;

// Squares below this, doubled, are a long: the same number, but the limit of an energy, which an edit of the other must not move.
const LEAST_CLIPPED: u64 = 1073741824;

// ---- Sums.

pub fn energy40(x: &[i16; 40]) -> i32
    ensures { result ≡ dot x.now x.now 40 }
{
    held_energy(squares40(x))
}

// The squares of 40 words. Two are added before they are widened.
pub fn squares40(x: &[i16; 40]) -> u64
    ensures { result ≡ squared (at x.now) 40 }
{
    let mut sum: u64 = 0;
    for i in 0..20 {
        sum += (square(x[i]) + square(x[20 + i])) as u64;
    }
    sum
}

// Terms are not negative, so an energy is clipped once.
pub fn held_energy(squares: u64) -> i32
    ensures { result ≡ pos (min (2 * squares) 2147483647) }
{
    if squares < LEAST_CLIPPED {
        return (2 * squares) as i32;
    }
    2147483647
}

pub fn square(v: i16) -> u32
    ensures { (result ≡ nat_abs v * nat_abs v) × (result ≤ 2 ^ 30) }
{
    fixed::exact(v, v) as u32
}

pub fn dot40(x: &[i16; 40], y: &[i16; 40]) -> i32
    ensures { result ≡ dot x.now y.now 40 }
{
    let mut sum: i32 = 0;
    for i in 0..40 {
        sum = fixed::mac(sum, x[i], y[i]);
    }
    sum
}

#[repr(C)]
#[derive(Clone, Copy)]
pub struct EnergyAndSum {
    pub energy: i32,
    pub sum: i32,
}

// The energy of a list and its sum with another, in one walk.
pub fn energy_and_sum40(x: &[i16; 40], y: &[i16; 40]) -> EnergyAndSum
    ensures { (result.energy ≡ dot x.now x.now 40) × (result.sum ≡ dot x.now y.now 40) }
{
    let mut energy: u64 = 0;
    let mut sum: i32 = 0;
    for i in 0..40 {
        energy += square(x[i]) as u64;
        sum = fixed::mac(sum, x[i], y[i]);
    }
    EnergyAndSum {
        energy: held_energy(energy),
        sum,
    }
}

// ---- Convolution.

// The sums of TS 26.073's Convolve, into the lent list.
pub fn convolution(input: &[i16; 40], impulse: &[i16; 40], sums: &mut [i32; 40])
    ensures { sums.new ≡ tabulate (convolution input.now impulse.now) 40 }
{
    if never_clips(input, impulse) {
        let plain = plain_sums(input, impulse);
        *sums = plain;
        return;
    }
    clipped_sums(input, impulse, sums);
}

// No sum is above the peak of one list times the reach of the other, and below 2^30 nothing is clipped on the way.
fn never_clips(input: &[i16; 40], impulse: &[i16; 40]) -> bool
    ensures { result ≡ true → (n : ℕ) → n < 40 → weighed (at input.now) (λ k. at impulse.now (n - k)) (suc n) < 2 ^ 30 }
{
    if (peak(input) as u64 * reach(impulse) as u64) < ROOM {
        return true;
    }
    (peak(impulse) as u64 * reach(input) as u64) < ROOM
}

// The greatest magnitude of a list.
pub fn peak<const N: usize>(list: &[i16; N]) -> u16
    ensures { result ≡ peak (at list.now) N }
{
    let mut most: u16 = 0;
    for word in list {
        most = most.max(word.unsigned_abs());
    }
    most
}

// The sum of the magnitudes.
fn reach(list: &[i16; 40]) -> u32
    ensures { result ≡ reach (at list.now) 40 }
{
    let mut sum: u32 = 0;
    for word in list {
        sum += word.unsigned_abs() as u32;
    }
    sum
}

// Each sum takes 40 products, and those past its place have a factor 0: a fixed count is quicker than one that grows.
fn plain_sums(input: &[i16; 40], impulse: &[i16; 40]) -> [i32; 40]
    requires { (n : ℕ) → n < 40 → weighed (at input.now) (λ k. at impulse.now (n - k)) (suc n) < 2 ^ 30 }
    ensures { result ≡ tabulate (convolution input.now impulse.now) 40 }
{
    let reversed = reversed(impulse);
    std::array::from_fn(|n| plain_sum(input, &reversed, 39 - n))
}

// From its last word to its first, and 40 zeros.
fn reversed(impulse: &[i16; 40]) -> [i16; 80]
    ensures { result ≡ tabulate (between (λ j. at impulse.now (39 - j)) (λ j. pos 0) 0 40) 80 }
{
    let mut list = [0i16; 80];
    list[..40].copy_from_slice(&reversed40(impulse));
    list
}

// Half the sum, doubled at the end: the compiler makes products of several words at once of it.
fn plain_sum(input: &[i16; 40], reversed: &[i16; 80], from: usize) -> i32
    requires { (from ≤ 40) × (weighed (at input.now) (λ k. at reversed.now (from + k)) 40 < 2 ^ 30) }
    ensures { result ≡ pos 2 *ℤ plain (at input.now) (λ k. at reversed.now (from + k)) 40 }
{
    let mut sum: i32 = 0;
    for k in 0..40 {
        sum += fixed::exact(input[k], reversed[from + k]);
    }
    2 * sum
}

// Word by word of the input: the 40 sums grow side by side, each in its own order.
fn clipped_sums(input: &[i16; 40], impulse: &[i16; 40], sums: &mut [i32; 40])
    ensures { sums.new ≡ tabulate (convolution input.now impulse.now) 40 }
{
    *sums = [0i32; 40];
    for i in 0..40 {
        for n in i..40 {
            sums[n] = fixed::mac(sums[n], input[i], impulse[n - i]);
        }
    }
}

// ---- Words.

// The words of a list of N; N zeros for a list of another length.
pub fn words_of<const N: usize>(list: &[i16]) -> [i16; N]
    ensures { result ≡ copied list.now (replicate N (pos 0)) }
{
    <[i16; N]>::try_from(list).unwrap_or([0; N])
}

// From the last word to the first.
pub fn reversed40(list: &[i16; 40]) -> [i16; 40]
    ensures { result ≡ tabulate (λ j. at list.now (39 - j)) 40 }
{
    std::array::from_fn(|j| list[39 - j])
}

// 40 words, each shifted by a signed count.
pub fn shifted40(x: &[i16; 40], count: i16) -> [i16; 40]
    ensures { result ≡ shifted x.now count 40 }
{
    std::array::from_fn(|i| fixed::shift(x[i], count))
}

// Into a lent list of the same length; one of another length stays as it was.
pub fn copy(words: &[i16], list: &mut [i16])
    ensures { list.new ≡ copied words.now list.old }
{
    if words.len() == list.len() {
        list.copy_from_slice(words);
    }
}
