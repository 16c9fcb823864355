// The row of the table that is nearest, TS 26.073 Qua_gain's search at 7.4 kbit/s, from gain/quantization.rs.
#![tactic(auto)]

ghost use Rattle.std.specs.Prelude.{true, cond, ◌≡◌, ℕ, ◌<◌, ◌≤◌, pos, nat_abs};
ghost use Rattle.std.specs.Int.Signed.{le_z};
ghost use Rattle.fixed.specs.Operators.{mult, Mpy_32_16};
ghost use Rattle.fixed.specs.Lists.{at, tabulate, L_sum};
ghost use Rattle.gain_table.specs.Rows.{pitches};
ghost use Rattle.gain_choice.specs.Rows.{term, distances, nearest, within_limit, nearest_row};

use gain_table::ROWS;

// The index of the nearest row whose pitch gain is within the limit, 0 where there is none.
#[tactic(auto, unfolding(crate::specs::Rows::nearest_row))]
pub fn nearest_row(weights: &[i32; 5], gcode0: i16, limit_q14: i16) -> u16
    ensures { result ≡ nearest_row weights.now gcode0 limit_q14 }
{
    let pitches = gain_table::pitches();
    let far = distances(weights, &pitches, gcode0);
    nearest(&far, &pitches, limit_q14) as u16
}

// The pitch gains are made once and lent: made anew for the limit, the search takes a twelfth longer.
fn distances(weights: &[i32; 5], pitches_q14: &[i16; 128], gcode0: i16) -> [i32; 128]
    requires { pitches_q14.now ≡ pitches }
    ensures { result ≡ distances weights.now gcode0 }
{
    let codes = fractions(&gain_table::corrections(), &[gcode0; ROWS]);
    let pitch_squares = fractions(pitches_q14, pitches_q14);
    let code_squares = fractions(&codes, &codes);
    let both = fractions(&codes, pitches_q14);
    std::array::from_fn(|i| {
        distance(
            weights,
            &[
                pitch_squares[i],
                pitches_q14[i],
                code_squares[i],
                codes[i],
                both[i],
            ],
        )
    })
}

// Q15 products, row by row. Stored as words, they keep the compiler at products of words.
fn fractions(left: &[i16; 128], right: &[i16; 128]) -> [i16; 128]
    ensures { result ≡ tabulate (λ k. mult (at left.now k) (at right.now k)) 128 }
{
    std::array::from_fn(|i| fixed::fractional(left[i], right[i]))
}

// Five terms, clipped after every addition.
fn distance(weights: &[i32; 5], products: &[i16; 5]) -> i32
    requires { (k : ℕ) → k < 5 → nat_abs (at products.now k) ≤ 32767 }
    ensures { result ≡ L_sum (pos 0) (λ k. Mpy_32_16 (at weights.now k) (at products.now k)) 5 }
{
    let mut sum: i32 = 0;
    for k in 0..5 {
        sum = term(sum, weights[k], products[k]);
    }
    sum
}

#[tactic(auto, unfolding(crate::specs::Rows::term))]
fn term(sum: i32, weight: i32, product: i16) -> i32
    requires { nat_abs product ≤ 32767 }
    ensures { result ≡ term sum weight product }
{
    fixed::add(sum, weighted(weight, product))
}

// The product by a word that is not -32768: nothing is clipped, so the two halves' products are added first and doubled once.
fn weighted(weight: i32, product: i16) -> i32
    requires { nat_abs product ≤ 32767 }
    ensures { result ≡ Mpy_32_16 weight product }
{
    let halves = compound::split(weight);
    2 * (fixed::exact(halves.high, product) + (fixed::exact(halves.low, product) >> 15))
}

// The lowest of the rows within the limit that are nearest. Row 0 is within both limits of the stage, and is answered where no row is.
// Three passes, in each of which the compiler takes four rows at once.
fn nearest(far: &[i32; 128], pitches_q14: &[i16; 128], limit_q14: i16) -> usize
    requires { pitches_q14.now ≡ pitches }
    ensures { (result ≡ nearest (within_limit limit_q14) (at far.now) 127) × (result ≤ 127) }
{
    let distances = allowed(far, pitches_q14, limit_q14);
    first(&distances, least(&distances))
}

// The distances, but the greatest long for a row past the limit: it is below no distance, so no limit is needed any more. Row 0 keeps its own.
fn allowed(far: &[i32; 128], pitches_q14: &[i16; 128], limit_q14: i16) -> [i32; 128]
    requires { pitches_q14.now ≡ pitches }
    ensures { nearest (λ k. true) (at result) 127 ≡ nearest (within_limit limit_q14) (at far.now) 127 }
{
    let mut distances = std::array::from_fn(|i| within(far[i], pitches_q14[i], limit_q14));
    distances[0] = far[0];
    distances
}

fn within(distance: i32, pitch: i16, limit_q14: i16) -> i32
    ensures { result ≡ cond (le_z pitch limit_q14) distance (pos 2147483647) }
{
    if pitch <= limit_q14 {
        return distance;
    }
    2147483647
}

fn least(distances: &[i32; 128]) -> i32
    ensures { result ≡ at distances.now (nearest (λ k. true) (at distances.now) 127) }
{
    distances
        .iter()
        .fold(distances[0], |least, distance| least.min(*distance))
}

// The first place of the least distance. There is one.
fn first(distances: &[i32; 128], least: i32) -> usize
    requires { least ≡ at distances.now (nearest (λ k. true) (at distances.now) 127) }
    ensures { (result ≡ nearest (λ k. true) (at distances.now) 127) × (result ≤ 127) }
{
    distances
        .iter()
        .position(|distance| *distance == least)
        .unwrap_or(0)
}
