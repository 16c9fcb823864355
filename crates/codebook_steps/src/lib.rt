// A pulse more in the choice of four, and what replaces what is held, TS 26.073 search_4i40, from codebook/search.rs.
#![tactic(auto)]

ghost use Rattle.std.specs.Prelude.{◌≡◌, cond, ℤ};
ghost use Rattle.codebook_steps.specs.Steps.{step_to, exceeds, better, none_in, kept, better_choice, kept_choice};

// A pulse more: the sum of the correlations so far, its square, the energy so far.
#[derive(Clone, Copy, Debug, PartialEq, Eq)]
pub struct Step {
    pub place: usize,
    pub sum: i16,
    pub square: i16,
    pub energy: i16,
}

// Four pulses in the order in which they were chosen.
#[derive(Clone, Copy, Debug, PartialEq, Eq)]
pub struct Trial {
    pub first: usize,
    pub second: usize,
    pub third: usize,
    pub fourth: usize,
    pub square: i16,
    pub energy: i16,
}

// A square over its energy, by which steps and trials are compared.
#[derive(Clone, Copy, Debug, PartialEq, Eq)]
pub struct Ratio {
    pub square: i16,
    pub energy: i16,
}

impl Ratio {
    // Whether it is greater than the one held: products in place of the quotients.
    pub fn exceeds(self, held: Ratio) -> bool
        ensures { result ≡ exceeds self.square self.energy held.square held.energy }
    {
        fixed::exact(held.square, self.energy) < fixed::exact(held.energy, self.square)
    }
}

// What is chosen by its ratio.
pub trait Rated: Copy {
    ghost square: { Self → ℤ };

    ghost energy: { Self → ℤ };

    // The one held, or the next where it is greater.
    ghost chosen: { Self → Self → Self };

    fn ratio(self) -> Ratio
        ensures { result ≡ record { square = square self; energy = energy self } };

    ghost choice: { (held next : Self) → chosen held next ≡ cond (exceeds (square next) (energy next) (square held) (energy held)) next held };
}

impl Rated for Step {
    ghost square = { λ s. s.square };

    ghost energy = { λ s. s.energy };

    ghost chosen = { better };

    ghost choice = { better_choice };

    fn ratio(self) -> Ratio {
        Ratio {
            square: self.square,
            energy: self.energy,
        }
    }
}

impl Rated for Trial {
    ghost square = { λ t. t.square };

    ghost energy = { λ t. t.energy };

    ghost chosen = { kept };

    ghost choice = { kept_choice };

    fn ratio(self) -> Ratio {
        Ratio {
            square: self.square,
            energy: self.energy,
        }
    }
}

#[tactic(auto, unfolding(crate::specs::Steps::step_to))]
pub fn step_to(place: usize, sum: i16, energy: i32) -> Step
    ensures { result ≡ step_to place sum energy }
{
    Step {
        place,
        sum,
        square: fixed::fractional(sum, sum),
        energy: fixed::rounded(energy),
    }
}

#[tactic(auto, unfolding(crate::specs::Steps::none_in))]
pub fn none_in(track: usize) -> Step
    ensures { result ≡ none_in track }
{
    Step {
        place: track,
        sum: 0,
        square: -1,
        energy: 1,
    }
}

pub fn better<R: Rated>(held: R, next: R) -> R
    ensures { result ≡ R.chosen held next }
{
    if next.ratio().exceeds(held.ratio()) {
        return next;
    }
    held
}
