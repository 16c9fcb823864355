// Words (i16) and longs (i32) in fixed point: TS 26.073's basic operators as small functions that take every value.
// The Rust repeats them in every file; here they have one home. Each is equated with a number of the integers (specs/Operators.antt).
#![tactic(auto)]

ghost use Rattle.std.specs.Prelude.{◌≡◌, ℕ, ◌*◌, ◌+◌, ◌^◌, ◌<◌, ℤ, min, pos, nat_abs, neg_ℤ, ◌+ℤ◌, ◌-ℤ◌, ◌*ℤ◌};
ghost use Rattle.std.specs.Int.Signed.{mag, shr_z};
ghost use Rattle.fixed.specs.Clip.{clip};
ghost use Rattle.fixed.specs.Operators.{add, sub, negate, abs_s, L_add, L_sub, L_negate, L_abs, shift_at, L_mult, L_mac, L_msu, mult, extract_h, round, extract_l, L_deposit_h, even_bits, norm_l};
ghost use Rattle.fixed.specs.Widths.{Operators, of_words, of_longs};

pub mod sizes;

// Twice this is a long, and twice the next number is not.
const MOST_UNDOUBLED: i32 = 1073741823;

// ---- Numbers that are held to the ends of their type: a word, of 16 bits, and a long, of 32.

pub trait Clipped: Copy {
    // The bits below the sign.
    ghost bits: { ℕ };

    ghost number: { Self → ℤ };

    // The standard's operators, which have a name for each width.
    ghost sum: { ℤ → ℤ → ℤ };

    ghost difference: { ℤ → ℤ → ℤ };

    ghost opposite: { ℤ → ℤ };

    ghost magnitude: { ℤ → ℤ };

    fn clip(v: i64) -> Self
        ensures { number result ≡ clip bits v };

    fn wide(self) -> i64
        ensures value { result ≡ number self }
        ensures bound { mag result < 2 ^ bits };

    ghost operators: { Operators bits sum difference opposite magnitude };
}

impl Clipped for i16 {
    ghost bits = { 15 };

    ghost number = { λ v. v };

    ghost sum = { add };

    ghost difference = { sub };

    ghost opposite = { negate };

    ghost magnitude = { abs_s };

    ghost operators = { of_words };

    fn clip(v: i64) -> i16 {
        v.clamp(-32768, 32767) as i16
    }

    fn wide(self) -> i64 {
        self as i64
    }
}

impl Clipped for i32 {
    ghost bits = { 31 };

    ghost number = { λ v. v };

    ghost sum = { L_add };

    ghost difference = { L_sub };

    ghost opposite = { L_negate };

    ghost magnitude = { L_abs };

    ghost operators = { of_longs };

    fn clip(v: i64) -> i32 {
        v.clamp(-2147483648, 2147483647) as i32
    }

    fn wide(self) -> i64 {
        self as i64
    }
}

pub fn add<N: Clipped>(a: N, b: N) -> N
    ensures { N.number result ≡ N.sum (N.number a) (N.number b) }
{
    N::clip(a.wide() + b.wide())
}

pub fn sub<N: Clipped>(a: N, b: N) -> N
    ensures { N.number result ≡ N.difference (N.number a) (N.number b) }
{
    N::clip(a.wide() - b.wide())
}

pub fn negate<N: Clipped>(v: N) -> N
    ensures { N.number result ≡ N.opposite (N.number v) }
{
    N::clip(-v.wide())
}

pub fn absolute<N: Clipped>(v: N) -> N
    ensures { N.number result ≡ N.magnitude (N.number v) }
{
    N::clip(v.wide().abs())
}

// A product by a power of two, clipped, to the left; floor to the right. A count past the width is held at it.
pub fn shift<N: Clipped>(v: N, n: i16) -> N
    ensures { N.number result ≡ shift_at N.bits (N.number v) n }
{
    let places = n.unsigned_abs().min(31) as u32;
    if n < 0 {
        return N::clip(v.wide() >> places);
    }
    N::clip(v.wide() * power_of_two(places))
}

fn power_of_two(n: u32) -> i64
    ensures { result ≡ pos (2 ^ min n 31) }
{
    (1u64 << n.min(31)) as i64
}

// ---- Products of words.

// Not doubled: a product of two words fits a long.
pub fn exact(a: i16, b: i16) -> i32
    ensures { result ≡ a *ℤ b }
{
    a as i32 * b as i32
}

// Only -32768 by -32768 is too great when doubled, and one test of the product finds it.
pub fn product(a: i16, b: i16) -> i32
    ensures { result ≡ L_mult a b }
{
    let p = a as i32 * b as i32;
    if MOST_UNDOUBLED < p {
        return 2147483647;
    }
    2 * p
}

pub fn mac(sum: i32, a: i16, b: i16) -> i32
    ensures { result ≡ L_mac sum a b }
{
    add(sum, product(a, b))
}

pub fn msu(sum: i32, a: i16, b: i16) -> i32
    ensures { result ≡ L_msu sum a b }
{
    sub(sum, product(a, b))
}

// A sum with the standard's Overflow: whether the product or the sum was clipped.
#[derive(Clone, Copy)]
pub struct Flagged {
    pub value: i32,
    pub overflow: bool,
}

// The Q15 product.
pub fn fractional(a: i16, b: i16) -> i16
    ensures { result ≡ mult a b }
{
    i16::clip((exact(a, b) >> 15) as i64)
}

// ---- The words of a long.

pub fn high(v: i32) -> i16
    ensures { result ≡ extract_h v }
{
    (v >> 16) as i16
}

pub fn rounded(v: i32) -> i16
    ensures { result ≡ round v }
{
    high(add(v, 32768))
}

// The low 16 bits, read as signed.
pub fn low_word(v: i32) -> i16
    ensures { result ≡ extract_l v }
{
    let s = v as i64 + 32768;
    (s - (s >> 16) * 65536 - 32768) as i16
}

// The word of two bytes. By a sum: of `u16::from_be_bytes` the compiler makes slower code where a list is read.
pub fn word(high: u8, low: u8) -> i16
    ensures { result ≡ extract_l (pos (high * 256 + low)) }
{
    low_word((high as u16 * 256 + low as u16) as i32)
}

pub fn deposit_high(v: i16) -> i32
    ensures { result ≡ L_deposit_h v }
{
    v as i32 * 65536
}

// ---- A long as two halves: the high word and the 15 bits below it.

#[repr(C)]
#[derive(Clone, Copy)]
pub struct Halves {
    pub high: i16,
    pub low: i16,
}

// ---- Bits.

// n for n and for -(n + 1): the bits of a long below its sign.
fn magnitude(v: i32) -> u32
    ensures { result ≡ mag v }
{
    if v < 0 {
        return (-1 - v) as u32;
    }
    v as u32
}

// `v & !1`.
pub fn even(v: i32) -> i32
    ensures { result ≡ even_bits v }
{
    (v >> 1) * 2
}

// How far a long can be shifted to the left without clipping: 0 for 0, 31 for -1.
pub fn normalize(v: i32) -> i16
    ensures { result ≡ pos (norm_l v) }
{
    if v == 0 {
        return 0;
    }
    (u32::leading_zeros(magnitude(v)) - 1) as i16
}
