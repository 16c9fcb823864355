// The impulse's correlations with the signs, TS 26.073 cor_h, from codebook/search.rs.
#![tactic(auto)]

ghost use Rattle.std.specs.Prelude.{◌≡◌, true, IfSome, ℕ, ◌+◌, ◌-◌, ◌<◌, pos, negsuc, nat_abs, ◌*ℤ◌};
ghost use Rattle.fixed.specs.Operators.{mult, round, L_mult, L_shl};
ghost use Rattle.fixed.specs.Lists.{at, tabulate};
ghost use Rattle.sums.specs.Plain.{squared};
ghost use Rattle.codebook_matrix.specs.Matrices.{energy, gain_of, scaled_by, normalised, signed, correlations, cor_h};

use fixed::Clipped;
use fixed::sizes::SUBFRAME_SAMPLES;

const INITIAL_ENERGY: i32 = 2;

const INVERSE_SCALE_SHIFT: i16 = 7;

const IMPULSE_HEADROOM_Q15: i16 = 32440;

// Twice 2^30 - 2^14: an energy below it leaves room for the rounding too.
const ROOM: i32 = 2147450880;

#[tactic(auto, unfolding(crate::specs::Matrices::cor_h))]
pub fn impulse_correlation(impulse: &[i16; 40], signs: &[i16; 40]) -> [[i16; 40]; 40]
    ensures { result ≡ cor_h impulse.now signs.now }
{
    correlations(&normalized(impulse), signs)
}

// Halves where the energy's high word is 32767, else the words by about the inverse of the energy's root.
#[tactic(auto, unfolding(crate::specs::Matrices::normalised))]
fn normalized(impulse: &[i16; 40]) -> [i16; 40]
    ensures { result ≡ normalised impulse.now }
{
    let energy = energy(impulse);
    if fixed::high(energy) < 32767 {
        return scaled(impulse, gain(energy));
    }
    sums::shifted40(impulse, -1)
}

// Terms are not negative, so the start may be added last.
fn energy(impulse: &[i16; 40]) -> i32
    ensures { result ≡ energy impulse.now }
{
    fixed::add(sums::energy40(impulse), INITIAL_ENERGY)
}

#[tactic(auto, unfolding(crate::specs::Matrices::gain_of))]
fn gain(energy: i32) -> i16
    ensures { result ≡ gain_of energy }
{
    let root = energy::inverse_sqrt(fixed::shift(energy, -1));
    fixed::fractional(
        fixed::high(fixed::shift(root, INVERSE_SCALE_SHIFT)),
        IMPULSE_HEADROOM_Q15,
    )
}

fn scaled(impulse: &[i16; 40], gain: i16) -> [i16; 40]
    ensures { result ≡ scaled_by gain impulse.now }
{
    std::array::from_fn(|i| scaled_word(impulse[i], gain))
}

// The doubled product shifted to the left by 9 and rounded, in one shift and one clip.
fn scaled_word(word: i16, gain: i16) -> i16
    ensures { result ≡ round (L_shl (L_mult word gain) (pos 9)) }
{
    i16::clip(((fixed::exact(word, gain) + 32) >> 6) as i64)
}

// Where the energy leaves room for the rounding too, no sum of products is clipped: 2 |a b| is at most a² + b². The signs of a search are all 32767 or -32767.
fn correlations(normalized: &[i16; 40], signs: &[i16; 40]) -> [[i16; 40]; 40]
    ensures { result ≡ correlations normalized.now signs.now }
{
    match FullSigns::of(signs) {
        Some(full) if sums::energy40(normalized) < ROOM => plain_correlations(normalized, full),
        _ => clipped_correlations(normalized, signs),
    }
}

// Signs that are all 32767 or -32767.
#[derive(Clone, Copy)]
struct FullSigns<'a> {
    words: &'a [i16; 40],
    ghost full: { (i : ℕ) → i < 40 → nat_abs (at words.now i) ≡ 32767 },
}

impl<'a> FullSigns<'a> {
    fn of(words: &'a [i16; 40]) -> Option<Self>
        ensures { IfSome result (λ signs. signs.words.now ≡ words.now) }
    {
        if words.iter().all(|word| is_full(*word)) {
            return Some(FullSigns { words });
        }
        None
    }
}

fn is_full(word: i16) -> bool
    ensures { result ≡ true → nat_abs word ≡ 32767 }
{
    word.unsigned_abs() == 32767
}

// From the last row up. Sum 39 - d is that of distance d, and so those from k on are what row 39 - k has up to its diagonal; each value is stored at both of its places.
// A row's rest is not stored: a fixed count is quicker than one that shrinks.
fn plain_correlations(normalized: &[i16; 40], signs: FullSigns) -> [[i16; 40]; 40]
    requires { squared (at normalized.now) 40 < 1073725440 }
    ensures { result ≡ correlations normalized.now signs.entry.words.now }
{
    let reversed = sums::reversed40(normalized);
    let row = [0i16; 40];
    let mut table = [row; 40];
    let mut sums = [0i32; 80];
    for k in 0..40 {
        let word = normalized[k];
        for i in 0..40 {
            sums[k + i] += fixed::exact(word, reversed[i]);
        }
        let j = 39 - k;
        let rounded = rounded(&sums, k);
        let mut values = signed_row(&rounded, signs, j);
        values[j] = rounded[j];
        for i in 0..40 - k {
            let cell = values[i];
            table[i][j] = cell;
            table[j][i] = cell;
        }
    }
    table
}

// 40 sums from a place on, each half of a long.
fn rounded(sums: &[i32; 80], from: usize) -> [i16; 40]
    requires { (from < 40) × ((i : ℕ) → i < 40 → nat_abs (at sums.now (from + i)) < 1073725440) }
    ensures { result ≡ tabulate (λ i. round (pos 2 *ℤ at sums.now (from + i))) 40 }
{
    std::array::from_fn(|i| rounded_double(sums[from + i]))
}

fn rounded_double(sum: i32) -> i16
    requires { nat_abs sum < 1073725440 }
    ensures { result ≡ round (pos 2 *ℤ sum) }
{
    ((2 * sum + 32768) >> 16) as i16
}

// The values of a row, each by the two signs of its places; also that of a place with itself, which has none.
fn signed_row(values: &[i16; 40], signs: FullSigns, j: usize) -> [i16; 40]
    requires { j < 40 }
    ensures { result ≡ tabulate (λ i. mult (at values.now i) (mult (at signs.entry.words.now i) (at signs.entry.words.now j))) 40 }
{
    let sign = signs.words[j];
    std::array::from_fn(|i| by_signs(values[i], signs.words[i], sign))
}

// By two signs of 32767, whose Q15 product is 32766 or -32767: words alone, no product.
fn by_signs(value: i16, a: i16, b: i16) -> i16
    requires { (nat_abs a ≡ 32767) × (nat_abs b ≡ 32767) }
    ensures { result ≡ mult value (mult a b) }
{
    if a == b {
        return by_equal_signs(value);
    }
    by_opposite_signs(value)
}

fn by_equal_signs(v: i16) -> i16
    ensures { result ≡ mult v (pos 32766) }
{
    v - ((v - (v >> 1) + 8191) >> 13)
}

fn by_opposite_signs(v: i16) -> i16
    ensures { result ≡ mult v (negsuc 32766) }
{
    (v >> 15) - v
}

// From the last row up. The sums of all distances grow side by side, each in its own order; a row's values are stored at both of their places.
fn clipped_correlations(normalized: &[i16; 40], signs: &[i16; 40]) -> [[i16; 40]; 40]
    ensures { result ≡ correlations normalized.now signs.now }
{
    let row = [0i16; 40];
    let mut table = [row; 40];
    let mut sums = [0i32; 40];
    for k in 0..SUBFRAME_SAMPLES {
        for d in 0..SUBFRAME_SAMPLES - k {
            sums[d] = fixed::mac(sums[d], normalized[k], normalized[k + d]);
        }
        let j = SUBFRAME_SAMPLES - 1 - k;
        for i in 0..SUBFRAME_SAMPLES - k {
            let value = signed(fixed::rounded(sums[j - i]), signs, i, j);
            table[i][j] = value;
            table[j][i] = value;
        }
    }
    table
}

// A place with itself has no signs.
fn signed(value: i16, signs: &[i16; 40], i: usize, j: usize) -> i16
    requires { (i < 40) × (j < 40) }
    ensures { result ≡ signed signs.now i j value }
{
    if i == j {
        return value;
    }
    fixed::fractional(value, fixed::fractional(signs[i], signs[j]))
}
