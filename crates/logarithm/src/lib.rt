// TS 26.073 Log2 and Pow2, from logarithm.rs: a table of 33 entries and a straight line between two of them.
#![tactic(auto)]

ghost use Rattle.std.specs.Prelude.{◌≡◌, ◌+◌, ◌*◌, ◌<◌, ◌≤◌, ◌^◌, pos};
ghost use Rattle.fixed.specs.Line.{table_line};
ghost use Rattle.logarithm.specs.Logarithms.{Log2, log2_of};
ghost use Rattle.logarithm.specs.Powers.{shr_r, power, Pow2};
ghost use Rattle.refusal.specs.Refused.{told};

use refusal::Refusal;

const LOG2_TABLE: [u16; 33] = [
    0, 1455, 2866, 4236, 5568, 6863, 8124, 9352, 10549, 11716, 12855, 13967, 15054, 16117, 17156,
    18172, 19167, 20142, 21097, 22033, 22951, 23852, 24735, 25603, 26455, 27291, 28113, 28922,
    29716, 30497, 31266, 32023, 32767,
];

const POW2_TABLE: [u16; 33] = [
    16384, 16743, 17109, 17484, 17867, 18258, 18658, 19066, 19484, 19911, 20347, 20792, 21247,
    21713, 22188, 22674, 23170, 23678, 24196, 24726, 25268, 25821, 26386, 26964, 27554, 28158,
    28774, 29405, 30048, 30706, 31379, 32066, 32767,
];

// The logarithm to base 2: a whole number and a fraction of 15 bits.
#[repr(C)]
#[derive(Clone, Copy, Debug, PartialEq, Eq)]
pub struct Logarithm {
    pub exponent: u8,
    pub fraction_q15: u16,
}

#[tactic(auto, using(fixed::proofs::Signs::not_positive, fixed::proofs::Signs::is_positive), unfolding(crate::specs::Logarithms::Log2))]
pub fn log2(value: i32) -> Logarithm
    ensures { result ≡ Log2 value }
{
    if value < 1 {
        return Logarithm {
            exponent: 0,
            fraction_q15: 0,
        };
    }
    positive_log2(value.unsigned_abs())
}

#[tactic(auto, using(fixed::proofs::Norms::one_zero, fixed::proofs::Norms::norm_is, fixed::proofs::Norms::normal_range, fixed::proofs::Norms::normal_is), unfolding(crate::specs::Logarithms::log2_of, crate::specs::Logarithms::log2_table))]
fn positive_log2(u: u32) -> Logarithm
    requires { (0 < u) × (u < 2 ^ 31) }
    ensures { result ≡ log2_of u }
{
    let shift = u.leading_zeros() - 1;
    let m = u << shift;
    let line = table_line(&LOG2_TABLE, 32, m);
    Logarithm {
        exponent: (30 - shift) as u8,
        fraction_q15: (line / 65536) as u16,
    }
}

// 2 to the power of exponent + fraction / 32768.
#[tactic(auto, unfolding(crate::specs::Powers::Pow2))]
pub fn pow2(exponent: u8, fraction_q15: u16) -> Result<i32, Refusal>
    ensures { told result ≡ Pow2 exponent fraction_q15 }
{
    if 30 < exponent {
        return Err(Refusal::Exponent(exponent as i16));
    }
    if 32767 < fraction_q15 {
        return Err(Refusal::Fraction(fraction_q15));
    }
    Ok(bounded_pow2(exponent, fraction_q15))
}

fn bounded_pow2(exponent: u8, fraction_q15: u16) -> i32
    requires { (exponent ≤ 30) × (fraction_q15 < 32768) }
    ensures { result ≡ pos (power exponent fraction_q15) }
{
    let m = fraction_q15 as u32 * 32768;
    let line = table_line(&POW2_TABLE, 0, m);
    rounded_shift(line, 30 - exponent as u32) as i32
}

fn rounded_shift(v: u32, n: u32) -> u32
    requires { n ≤ 30 }
    ensures { result ≡ shr_r v n }
{
    if n == 0 {
        return v;
    }
    (v >> n) + (v >> (n - 1)) % 2
}

// The line of a table at `m`: bits 25 and up of `m`, less those of the least, choose the entry.
#[tactic(auto, unfolding(fixed::specs::Line::table_line))]
fn table_line(table: &[u16; 33], least: u32, m: u32) -> u32
    requires { (least ≤ 32) × (least * 33554432 ≤ m) × (m < (least + 32) * 33554432) }
    ensures { result ≡ table_line table.now least m }
{
    let i = (m / 33554432 - least) as usize;
    compound::interpolated(table[i], table[i + 1], m)
}
