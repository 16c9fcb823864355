// The operators of `fixed` and `compound`, sums of 40 words and the inverse root, under plain names, for the oracle alone.
#![tactic(auto)]

ghost use Rattle.std.specs.Prelude.{◌≡◌, min, pos, nat_abs};
ghost use Rattle.fixed.specs.Clip.{clip};
ghost use Rattle.fixed.specs.Operators.{add, sub, negate, abs_s, L_add, L_sub, L_negate, L_abs, L_mult, L_mac, L_msu, mult, extract_h, round, extract_l, L_deposit_h, L_Extract, Mpy_32, Mpy_32_16, L_shl, shl, even_bits, norm_l, div_s};
ghost use Rattle.fixed.specs.Line.{line};
ghost use Rattle.fixed.specs.Lists.{dot};
ghost use Rattle.energy.specs.Root.{Inv_sqrt};

use fixed::{Clipped, Halves};
use sums::EnergyAndSum;

#[unsafe(no_mangle)]
pub extern "C" fn leaf_clip16(v: i32) -> i16
    ensures { result ≡ clip 15 v }
{
    i16::clip(v as i64)
}

#[unsafe(no_mangle)]
pub extern "C" fn leaf_clip32(v: i64) -> i32
    ensures { result ≡ clip 31 v }
{
    i32::clip(v)
}

#[unsafe(no_mangle)]
pub extern "C" fn leaf_add16(a: i16, b: i16) -> i16
    ensures { result ≡ add a b }
{
    fixed::add(a, b)
}

#[unsafe(no_mangle)]
pub extern "C" fn leaf_sub16(a: i16, b: i16) -> i16
    ensures { result ≡ sub a b }
{
    fixed::sub(a, b)
}

#[unsafe(no_mangle)]
pub extern "C" fn leaf_negate16(v: i16) -> i16
    ensures { result ≡ negate v }
{
    fixed::negate(v)
}

#[unsafe(no_mangle)]
pub extern "C" fn leaf_absolute16(v: i16) -> i16
    ensures { result ≡ abs_s v }
{
    fixed::absolute(v)
}

#[unsafe(no_mangle)]
pub extern "C" fn leaf_add32(a: i32, b: i32) -> i32
    ensures { result ≡ L_add a b }
{
    fixed::add(a, b)
}

#[unsafe(no_mangle)]
pub extern "C" fn leaf_sub32(a: i32, b: i32) -> i32
    ensures { result ≡ L_sub a b }
{
    fixed::sub(a, b)
}

#[unsafe(no_mangle)]
pub extern "C" fn leaf_negate32(v: i32) -> i32
    ensures { result ≡ L_negate v }
{
    fixed::negate(v)
}

#[unsafe(no_mangle)]
pub extern "C" fn leaf_absolute32(v: i32) -> i32
    ensures { result ≡ L_abs v }
{
    fixed::absolute(v)
}

#[unsafe(no_mangle)]
pub extern "C" fn leaf_product(a: i16, b: i16) -> i32
    ensures { result ≡ L_mult a b }
{
    fixed::product(a, b)
}

#[unsafe(no_mangle)]
pub extern "C" fn leaf_mac(sum: i32, a: i16, b: i16) -> i32
    ensures { result ≡ L_mac sum a b }
{
    fixed::mac(sum, a, b)
}

#[unsafe(no_mangle)]
pub extern "C" fn leaf_msu(sum: i32, a: i16, b: i16) -> i32
    ensures { result ≡ L_msu sum a b }
{
    fixed::msu(sum, a, b)
}

#[unsafe(no_mangle)]
pub extern "C" fn leaf_fractional(a: i16, b: i16) -> i16
    ensures { result ≡ mult a b }
{
    fixed::fractional(a, b)
}

#[unsafe(no_mangle)]
pub extern "C" fn leaf_high(v: i32) -> i16
    ensures { result ≡ extract_h v }
{
    fixed::high(v)
}

#[unsafe(no_mangle)]
pub extern "C" fn leaf_rounded(v: i32) -> i16
    ensures { result ≡ round v }
{
    fixed::rounded(v)
}

#[unsafe(no_mangle)]
pub extern "C" fn leaf_low_word(v: i32) -> i16
    ensures { result ≡ extract_l v }
{
    fixed::low_word(v)
}

#[unsafe(no_mangle)]
pub extern "C" fn leaf_deposit_high(v: i16) -> i32
    ensures { result ≡ L_deposit_h v }
{
    fixed::deposit_high(v)
}

#[unsafe(no_mangle)]
pub extern "C" fn leaf_split(v: i32) -> Halves
    ensures { result ≡ L_Extract v }
{
    compound::split(v)
}

#[unsafe(no_mangle)]
pub extern "C" fn leaf_multiply(a: i32, b: i32) -> i32
    ensures { result ≡ Mpy_32 a b }
{
    compound::multiply(a, b)
}

#[unsafe(no_mangle)]
pub extern "C" fn leaf_multiply_word(a: i32, n: i16) -> i32
    ensures { result ≡ Mpy_32_16 a n }
{
    compound::multiply_word(a, n)
}

#[unsafe(no_mangle)]
pub extern "C" fn leaf_shift(v: i32, n: i16) -> i32
    ensures { result ≡ L_shl v n }
{
    fixed::shift(v, n)
}

#[unsafe(no_mangle)]
pub extern "C" fn leaf_shift_word(v: i16, n: i16) -> i16
    ensures { result ≡ shl v n }
{
    fixed::shift(v, n)
}

#[unsafe(no_mangle)]
pub extern "C" fn leaf_even(v: i32) -> i32
    ensures { result ≡ even_bits v }
{
    fixed::even(v)
}

#[unsafe(no_mangle)]
pub extern "C" fn leaf_normalize(v: i32) -> i16
    ensures { result ≡ pos (norm_l v) }
{
    fixed::normalize(v)
}

#[unsafe(no_mangle)]
pub extern "C" fn leaf_unsigned_abs(v: i32) -> u32
    ensures { result ≡ nat_abs v }
{
    v.unsigned_abs()
}

#[unsafe(no_mangle)]
pub extern "C" fn leaf_divide(a: i16, b: i16) -> i16
    ensures { result ≡ div_s a b }
{
    compound::divide(a, b)
}

#[unsafe(no_mangle)]
pub extern "C" fn leaf_interpolated(from: u16, to: u16, m: u32) -> u32
    ensures { result ≡ line from to m }
{
    compound::interpolated(from, to, m)
}

#[unsafe(no_mangle)]
pub extern "C" fn leaf_inverse_sqrt(value: i32) -> i32
    ensures { result ≡ Inv_sqrt value }
{
    energy::inverse_sqrt(value)
}

#[unsafe(no_mangle)]
pub extern "C" fn leaf_product_high(a: i16, b: i16, n: u32) -> i16
    ensures { result ≡ extract_h (L_shl (L_mult a b) (pos (min n 15))) }
{
    compound::product_high(a, b, n)
}

#[unsafe(no_mangle)]
pub extern "C" fn leaf_energy40(x: &[i16; 40]) -> i32
    ensures { result ≡ dot x.now x.now 40 }
{
    sums::energy40(x)
}

#[unsafe(no_mangle)]
pub extern "C" fn leaf_dot40(x: &[i16; 40], y: &[i16; 40]) -> i32
    ensures { result ≡ dot x.now y.now 40 }
{
    sums::dot40(x, y)
}

#[unsafe(no_mangle)]
pub extern "C" fn leaf_energy_and_sum40(x: &[i16; 40], y: &[i16; 40]) -> EnergyAndSum
    ensures { (result.energy ≡ dot x.now x.now 40) × (result.sum ≡ dot x.now y.now 40) }
{
    sums::energy_and_sum40(x, y)
}
