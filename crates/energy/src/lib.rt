// TS 26.073 Inv_sqrt, from energy.rs: one over the root of a long, by a table of 49 entries and a straight line between two of them.
#![tactic(auto)]

ghost use Rattle.std.specs.Prelude.{◌≡◌, ◌<◌, ◌^◌, pos};
ghost use Rattle.energy.specs.Root.{inverses, halved, root_in, Inv_sqrt_in, Inv_sqrt};

const INVERSE_TABLE: [u16; 49] = [
    32767, 31790, 30894, 30070, 29309, 28602, 27945, 27330, 26755, 26214, 25705, 25225, 24770,
    24339, 23930, 23541, 23170, 22817, 22479, 22155, 21845, 21548, 21263, 20988, 20724, 20470,
    20225, 19988, 19760, 19539, 19326, 19119, 18919, 18725, 18536, 18354, 18176, 18004, 17837,
    17674, 17515, 17361, 17211, 17064, 16921, 16782, 16646, 16514, 16384,
];

pub fn inverse_sqrt(value: i32) -> i32
    ensures { result ≡ Inv_sqrt value }
{
    let table = INVERSE_TABLE;
    inverse_sqrt_in(value, &table)
}

pub fn inverse_table() -> [u16; 49]
    ensures { result ≡ inverses }
{
    INVERSE_TABLE
}

// The same with the table lent, for a caller that takes many roots: a `const` is written anew at each place that reads it.
pub fn inverse_sqrt_in(value: i32, table: &[u16; 49]) -> i32
    ensures { result ≡ Inv_sqrt_in table.now value }
{
    if value < 1 {
        return 0x3fff_ffff;
    }
    positive_root(value.unsigned_abs(), table)
}

fn positive_root(u: u32, table: &[u16; 49]) -> i32
    requires { (0 < u) × (u < 2 ^ 31) }
    ensures { result ≡ pos (root_in table.now u) }
{
    let shift = u32::leading_zeros(u) - 1;
    let m = even_exponent_halved(u << shift, 30 - shift);
    let i = (m / 33554432 - 16) as usize;
    let line = compound::interpolated(table[i], table[i + 1], m);
    (line >> ((30 - shift) / 2 + 1)) as i32
}

fn even_exponent_halved(m: u32, exponent: u32) -> u32
    ensures { result ≡ halved m exponent }
{
    if exponent % 2 == 0 {
        return m / 2;
    }
    m
}
