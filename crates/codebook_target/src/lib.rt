// What the pulse search is led by, from codebook/search.rs: the target's correlation with the impulse, the signs and the starts that it gives.
#![tactic(auto)]

ghost use Rattle.std.specs.Prelude.{◌≡◌, ◌<◌};
ghost use Rattle.fixed.specs.Operators.{L_shl, round};
ghost use Rattle.fixed.specs.Lists.{tabulate};
ghost use Rattle.codebook_target.specs.Targets.{correlated, greatest, total, cor_h_x};
ghost use Rattle.codebook_target.specs.Starts.{sign_of, signs_of, magnitudes_of, lesser, least, set_sign};

use fixed::sizes::{POSITIONS_PER_TRACK, TRACKS};

// So often a place of a track loses the right to start.
const DROPS_PER_TRACK: usize = 4;

const DROPS: usize = 20;

const DROPPED: i16 = -1;

const INITIAL_MAXIMUM_SUM: i32 = 5;

// ---- TS 26.073 cor_h_x.

pub fn target_correlation(target: &[i16; 40], impulse: &[i16; 40]) -> [i16; 40]
    ensures { result ≡ cor_h_x target.now impulse.now }
{
    let raw = raw_correlations(target, impulse);
    let shift = fixed::sub(fixed::normalize(total(&raw)), 1);
    std::array::from_fn(|i| rounded_by(raw[i], shift))
}

// A sum shifted, and rounded.
fn rounded_by(sum: i32, shift: i16) -> i16
    ensures { result ≡ round (L_shl sum shift) }
{
    fixed::rounded(fixed::shift(sum, shift))
}

// The sum at place i is that of a convolution at place 39 - i: of the impulse with the reversed target.
fn raw_correlations(target: &[i16; 40], impulse: &[i16; 40]) -> [i32; 40]
    ensures { result ≡ tabulate (correlated target.now impulse.now) 40 }
{
    let mut sums = [0i32; 40];
    sums::convolution(impulse, &sums::reversed40(target), &mut sums);
    std::array::from_fn(|i| sums[39 - i])
}

// 5, and half of each track's greatest magnitude.
#[tactic(auto, unfolding(fixed::specs::Lists::L_sum, crate::specs::Targets::total))]
fn total(raw: &[i32; 40]) -> i32
    ensures { result ≡ total raw.now }
{
    let mut sum: i32 = INITIAL_MAXIMUM_SUM;
    for track in 0..TRACKS {
        sum = fixed::add(sum, fixed::shift(greatest(raw, track), -1));
    }
    sum
}

#[tactic(auto, unfolding(crate::specs::Targets::greatest))]
fn greatest(raw: &[i32; 40], track: usize) -> i32
    requires { track < 5 }
    ensures { result ≡ greatest raw.now track 8 }
{
    let mut held: i32 = 0;
    for n in 0..POSITIONS_PER_TRACK {
        held = fixed::absolute(raw[track + TRACKS * n]).max(held);
    }
    held
}

// ---- TS 26.073 set_sign.

fn sign_of(v: i16) -> i16
    ensures { result ≡ sign_of v }
{
    if v < 0 {
        return -32767;
    }
    32767
}

pub fn signs(correlation: &[i16; 40]) -> [i16; 40]
    ensures { result ≡ signs_of correlation.now }
{
    std::array::from_fn(|i| sign_of(correlation[i]))
}

pub fn magnitudes(correlation: &[i16; 40]) -> [i16; 40]
    ensures { result ≡ magnitudes_of correlation.now }
{
    std::array::from_fn(|i| fixed::absolute(correlation[i]))
}

// The magnitudes, with -1 at every place that may not start.
#[tactic(auto, unfolding(crate::specs::Starts::dropped, crate::specs::Starts::set_sign))]
pub fn starts(magnitudes: &[i16; 40]) -> [i16; 40]
    ensures { result ≡ set_sign magnitudes.now }
{
    let mut left = *magnitudes;
    let mut place = 0;
    for n in 0..DROPS {
        place = least(&left, n / DROPS_PER_TRACK, place);
        left[place] = DROPPED;
    }
    left
}

#[derive(Clone, Copy)]
struct Smallest {
    place: usize,
    value: i16,
}

// 32767 is never found, and where nothing is, the place dropped last is answered.
#[tactic(auto, unfolding(crate::specs::Starts::least))]
fn least(left: &[i16; 40], track: usize, last: usize) -> usize
    requires { track < 5 }
    ensures { result ≡ (least left.now last track 8).place }
{
    let mut held = Smallest {
        place: last,
        value: 32767,
    };
    for n in 0..POSITIONS_PER_TRACK {
        held = lesser(held, track + TRACKS * n, left[track + TRACKS * n]);
    }
    held.place
}

// The lower place is kept on a tie.
#[tactic(auto, unfolding(crate::specs::Starts::lesser))]
fn lesser(held: Smallest, place: usize, value: i16) -> Smallest
    ensures { result ≡ lesser held place value }
{
    if (0 <= value) & (value < held.value) {
        return Smallest { place, value };
    }
    held
}
