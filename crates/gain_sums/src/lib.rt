// The sums of the gain row, TS 26.073 G_pitch and calc_filt_energies, from gain/quantization.rs: 40 doubled products from 1 on, clipped one by one, and at how many
// of them something was clipped.
#![tactic(auto)]

ghost use Rattle.std.specs.Prelude.{true, ◌≡◌, suc, ◌^◌, ◌<◌, ◌≤◌, ltb};
ghost use Rattle.fixed.specs.Lists.{at};
ghost use Rattle.sums.specs.Plain.{squared};
ghost use Rattle.gain_sums.specs.Sums.{sum, flagged_sum, clips, counted_sum, Quiet};

const GREATEST: i32 = 2147483647;

// Twice this is past the end, and twice the number below is not.
const LEAST_CLIPPED: u32 = 1073741824;

// A sum, and the number of its terms at which the doubled product or the running sum was clipped.
#[derive(Clone, Copy, Debug, PartialEq, Eq)]
pub struct Counted {
    pub value: i32,
    pub clips: u8,
}

// Of a list with itself: no term is negative, so the whole tells whether one is clipped.
#[tactic(auto, using(crate::proofs::Counts::flag_is), unfolding(crate::specs::Sums::counted_sum, crate::specs::Sums::flagged_sum))]
pub fn square_sum(words: &[i16; 40]) -> Counted
    ensures counted { result ≡ counted_sum words.now words.now 40 }
    ensures flagged { record { value = result.value; overflow = ltb 0 result.clips } ≡ flagged_sum words.now words.now 40 }
{
    let value = square_value(words);
    if value < GREATEST {
        return Counted { value, clips: 0 };
    }
    Counted {
        value,
        clips: clipped_squares(words),
    }
}

// Its value alone.
pub fn square_value(words: &[i16; 40]) -> i32
    ensures { result ≡ sum words.now words.now 40 }
{
    fixed::add(sums::energy40(words), 1)
}

// Its clipped terms: the first at which the squares are past half the end, and what follows.
#[tactic(auto, using(crate::proofs::Squares::quiet_squares), unfolding(sums::specs::Plain::squared))]
fn clipped_squares(words: &[i16; 40]) -> u8
    ensures { result ≡ clips words.now words.now 40 }
{
    let mut squares: u32 = 0;
    for i in 0..40 {
        squares += sums::square(words[i]);
        if LEAST_CLIPPED <= squares {
            return clipped_from(words, i);
        }
    }
    0
}

// From the first clipped term on the sum stays at the end, so that every term that is not 0 is clipped.
fn clipped_from(words: &[i16; 40], first: usize) -> u8
    requires { (first < 40) × (2 ^ 30 ≤ squared (at words.now) (suc first)) × (clips words.now words.now first ≡ 0) }
    ensures { result ≡ clips words.now words.now 40 }
{
    let mut clips: u8 = 0;
    for word in &words[first..] {
        clips += (*word != 0) as u8;
    }
    clips
}

#[tactic(auto, using(crate::proofs::Counts::flag_is), unfolding(crate::specs::Sums::counted_sum, crate::specs::Sums::flagged_sum))]
pub fn dot(left: &[i16; 40], right: &[i16; 40]) -> Counted
    ensures counted { result ≡ counted_sum left.now right.now 40 }
    ensures flagged { record { value = result.value; overflow = ltb 0 result.clips } ≡ flagged_sum left.now right.now 40 }
{
    if are_quiet(left, right) {
        return Counted {
            value: plain(left, right),
            clips: 0,
        };
    }
    clipped(left, right)
}

// Its value alone.
#[tactic(auto, unfolding(crate::specs::Sums::counted_sum))]
pub fn dot_value(left: &[i16; 40], right: &[i16; 40]) -> i32
    ensures { result ≡ sum left.now right.now 40 }
{
    dot(left, right).value
}

// The same without a look whether a step can be clipped.
pub fn clipped(left: &[i16; 40], right: &[i16; 40]) -> Counted
    ensures counted { result ≡ counted_sum left.now right.now 40 }
    ensures flagged { record { value = result.value; overflow = ltb 0 result.clips } ≡ flagged_sum left.now right.now 40 }
{
    let mut value: i32 = 1;
    let mut clips: u8 = 0;
    for i in 0..40 {
        let step = compound::mac_flagged(value, left[i], right[i]);
        value = step.value;
        clips += step.overflow as u8;
    }
    Counted { value, clips }
}

// ---- The same where no product is so great that a step could be clipped.

// Whether two lists are quiet beside each other. The greatest magnitudes tell.
fn are_quiet(left: &[i16; 40], right: &[i16; 40]) -> bool
    ensures { result ≡ true → Quiet left.now right.now }
{
    sums::peak(left) as u32 * sums::peak(right) as u32 <= 26843545
}

// Half the sum, doubled at the end: the compiler makes products of several words at once of it.
fn plain(left: &[i16; 40], right: &[i16; 40]) -> i32
    requires { Quiet left.now right.now }
    ensures { (result ≡ sum left.now right.now 40) × (clips left.now right.now 40 ≡ 0) }
{
    let mut half: i32 = 0;
    for i in 0..40 {
        half += fixed::exact(left[i], right[i]);
    }
    2 * half + 1
}
