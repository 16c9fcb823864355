// Operators that TS 26.073 makes of several basic ones, and those that stand in place of several: oper_32b.h, a product's high word, the sum with Overflow, the quotient, the straight line.
#![tactic(auto)]

ghost use Rattle.std.specs.Prelude.{◌≡◌, min, pos};
ghost use Rattle.fixed.specs.Operators.{extract_h, low_half, L_Extract, Mpy_32, Mpy_32_16, L_shl, L_mult, L_mac_flagged, div_s};
ghost use Rattle.fixed.specs.Line.{line};

use fixed::{Clipped, Flagged, Halves};

// ---- A long as two halves, and the products by them.

// The 15 bits below the high word.
fn low(v: i32) -> i16
    ensures { result ≡ low_half v }
{
    ((v >> 1) - (v >> 16) * 32768) as i16
}

pub fn split(v: i32) -> Halves
    ensures { result ≡ L_Extract v }
{
    Halves {
        high: fixed::high(v),
        low: low(v),
    }
}

pub fn multiply(a: i32, b: i32) -> i32
    ensures { result ≡ Mpy_32 a b }
{
    let ah = fixed::high(a);
    let bh = fixed::high(b);
    let upper = fixed::mac(fixed::product(ah, bh), fixed::fractional(ah, low(b)), 1);
    fixed::mac(upper, fixed::fractional(low(a), bh), 1)
}

pub fn multiply_word(a: i32, n: i16) -> i32
    ensures { result ≡ Mpy_32_16 a n }
{
    fixed::mac(
        fixed::product(fixed::high(a), n),
        fixed::fractional(low(a), n),
        1,
    )
}

// ---- Products of words.

// The high word of the doubled product shifted to the left by n places, n held at 15: one product, one shift, one clip.
pub fn product_high(a: i16, b: i16, n: u32) -> i16
    ensures { result ≡ extract_h (L_shl (L_mult a b) (pos (min n 15))) }
{
    i16::clip((fixed::exact(a, b) >> (15 - n.min(15))) as i64)
}

// Both without a branch: at which terms a loud walk clips can't be foreseen.
pub fn mac_flagged(sum: i32, a: i16, b: i16) -> Flagged
    ensures { result ≡ L_mac_flagged sum a b }
{
    let doubled = fixed::product(a, b);
    let past = sum.overflowing_add(doubled);
    Flagged {
        value: fixed::add(sum, doubled),
        overflow: (1073741823 < fixed::exact(a, b)) | past.1,
    }
}

// ---- Quotients and straight lines.

// The division of `pitch_gain`: a / b in Q15.
pub fn divide(a: i16, b: i16) -> i16
    ensures { result ≡ div_s a b }
{
    if a < 0 {
        return 0;
    }
    if b < 1 {
        return 0;
    }
    (a.unsigned_abs() as u32 * 32768 / b.unsigned_abs() as u32).min(32767) as i16
}

// The point of the straight line from one entry of a table to the next that bits 10 to 24 of `m` tell, times 65536.
pub fn interpolated(from: u16, to: u16, m: u32) -> u32
    ensures { result ≡ line from to m }
{
    let way = m / 1024 % 32768;
    2 * (from as u32 * (32768 - way) + to as u32 * way)
}
