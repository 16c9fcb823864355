// The choice of four pulses, TS 26.073 search_4i40, from codebook/search.rs.
#![tactic(auto)]

ghost use Rattle.std.specs.Prelude.{◌≡◌, cond, [], ℕ, ◌+◌, ◌*◌, ◌/◌, ◌<◌, ℤ, pos, get_or};
ghost use Rattle.std.specs.Int.Signed.{mag};
ghost use Rattle.fixed.specs.Operators.{add, mult, round, L_mult, L_mac, L_deposit_h};
ghost use Rattle.fixed.specs.Lists.{at, tabulate};
ghost use Rattle.codebook_target.specs.Starts.{may_start};
ghost use Rattle.codebook_matrix.specs.Matrices.{cell};
ghost use Rattle.codebook_steps.specs.declared.Step.{Step};
ghost use Rattle.codebook_steps.specs.Steps.{step_to, none_in, kept};
ghost use Rattle.codebook_choice.specs.Choices.{second_at, third_at, fourth_at, best_step, last_step, permutation, permutations, search_4i40, zero_step};

use codebook_steps::{Rated, Ratio, Step, Trial};
use fixed::sizes::{POSITIONS_PER_TRACK, TRACKS};
use std::marker::Model;

const EIGHTH_Q15: i16 = 4096;

const SIXTEENTH_Q15: i16 = 2048;

// One of the 40 places.
#[derive(Clone, Copy)]
struct Place {
    index: usize,
}

impl Model for Place {
    ghost use Rattle.std.specs.Prelude.{ℕ, ◌<◌};

    ghost Value = { ℕ };

    ghost view = { λ p. p.index };

    ghost invariant = { λ p. p.index < 40 };

    ghost inverse = { λ n. record { index = n } };
}

// One of the five tracks.
#[derive(Clone, Copy)]
struct Track {
    number: usize,
}

impl Model for Track {
    ghost use Rattle.std.specs.Prelude.{ℕ, ◌<◌};

    ghost Value = { ℕ };

    ghost view = { λ t. t.number };

    ghost invariant = { λ t. t.number < 5 };

    ghost inverse = { λ n. record { number = n } };
}

impl Track {
    fn place(self, n: usize) -> Place
        requires { n < 8 }
        ensures { result ≡ self + 5 * n }
    {
        Place {
            index: self.number + TRACKS * n,
        }
    }
}

// A step to one of the 40 places.
#[derive(Clone, Copy)]
struct Placed {
    step: Step,
}

impl Model for Placed {
    ghost use Rattle.std.specs.Prelude.{◌<◌};
    ghost use Rattle.codebook_steps.specs.declared.Step.{Step};

    ghost Value = { Step };

    ghost view = { λ s. s.step };

    ghost invariant = { λ s. s.step.place < 40 };

    ghost inverse = { λ s. record { step = s } };
}

impl Placed {
    fn place(self) -> Place
        ensures { result ≡ self.place }
    {
        Place {
            index: self.step.place,
        }
    }

    fn step(self) -> Step
        ensures { result ≡ self }
    {
        self.step
    }
}

// The table comes by value.
#[tactic(auto, unfolding(crate::specs::Choices::search_4i40))]
pub fn select(correlation: &[i16; 40], table: [[i16; 40]; 40], left: &[i16; 40]) -> Trial
    ensures { result ≡ search_4i40 correlation.now table left.now }
{
    let lists = Lists {
        correlation,
        table: &table,
        left,
    };
    let held = Trial {
        first: 0,
        second: 1,
        third: 2,
        fourth: 3,
        square: -1,
        energy: 1,
    };
    let with_3 = lists.permutations(held, Track { number: 3 });
    lists.permutations(with_3, Track { number: 4 })
}

// What the choice reads: the correlations without their signs, their table, and which places may start.
#[derive(Clone, Copy)]
struct Lists<'a> {
    correlation: &'a [i16; 40],
    table: &'a [[i16; 40]; 40],
    left: &'a [i16; 40],
}

impl<'a> Lists<'a> {
    // The cyclic permutations of four tracks: each starts once.
    #[tactic(auto, unfolding(crate::specs::Choices::permutations))]
    fn permutations(self, held: Trial, last: Track) -> Trial
        ensures { result ≡ permutations self.entry.correlation.now self.entry.table.now self.entry.left.now last held }
    {
        let zero = Track { number: 0 };
        let one = Track { number: 1 };
        let two = Track { number: 2 };
        let from_0 = self.permutation(held, zero, one, two, last);
        let from_last = self.permutation(from_0, last, zero, one, two);
        let from_2 = self.permutation(from_last, two, last, zero, one);
        self.permutation(from_2, one, two, last, zero)
    }

    // The starts of a permutation go side by side, a pulse at a time: no choice waits for that of another start.
    #[tactic(auto, unfolding(crate::specs::Choices::permutation))]
    fn permutation(self, held: Trial, a: Track, b: Track, c: Track, d: Track) -> Trial
        ensures { result ≡ permutation self.entry.correlation.now self.entry.table.now self.entry.left.now a b c d held 8 }
    {
        let ones = self.of_starts(a, b, |first, _| self.second(first, b));
        let twos = self.of_starts(
            a,
            c,
            |first, n|
                requires { n < 8 }
                ensures { result ≡ best_step (third_at self.entry.correlation.now self.entry.table.now first (get_or ones n zero_step)) c 8 }
            { self.third(first, ones[n], c) },
        );
        let mut best = held;
        for n in 0..POSITIONS_PER_TRACK {
            best = self.started(best, a.place(n), ones[n], twos[n], d);
        }
        best
    }

    // A step from each start of track a, none in `track` where a place may not start. A loop: a list of steps made by from_fn is copied.
    fn of_starts<F: Fn(Place, usize) -> Placed>(
        self,
        a: Track,
        track: Track,
        step: F,
    ) -> [Placed; 8]
        requires { (n : ℕ) → n < 8 → F.pre step (a + 5 * n) n }
        ensures { (f : ℕ → Step) → ((n : ℕ) (s : Step) → n < 8 → F.post step (a + 5 * n) n s → s ≡ f n) → result ≡ tabulate (λ n. cond (may_start self.entry.left.now (a + 5 * n)) (f n) (none_in track)) 8 }
    {
        let mut steps = [none_in(track); 8];
        for n in 0..POSITIONS_PER_TRACK {
            let first = a.place(n);
            if self.may_start(first) {
                steps[n] = step(first, n);
            }
        }
        steps
    }

    fn started(self, held: Trial, first: Place, one: Placed, two: Placed, track: Track) -> Trial
        ensures { result ≡ cond (may_start self.entry.left.now first) (kept held (last_step self.entry.correlation.now self.entry.table.now first one two track)) held }
    {
        if self.may_start(first) {
            return codebook_steps::better(held, self.finished(first, one, two, track));
        }
        held
    }

    #[tactic(auto, unfolding(crate::specs::Choices::of_steps, crate::specs::Choices::last_step))]
    fn finished(self, first: Place, one: Placed, two: Placed, track: Track) -> Trial
        ensures { result ≡ last_step self.entry.correlation.now self.entry.table.now first one two track }
    {
        let three = self.fourth(first, one.place(), two, track).step();
        Trial {
            first: first.index,
            second: one.step().place,
            third: two.step().place,
            fourth: three.place,
            square: three.square,
            energy: three.energy,
        }
    }

    // ---- A pulse more: the eight squares and the eight energies of a track, then the choice among its places.

    fn second(self, first: Place, track: Track) -> Placed
        ensures { result ≡ best_step (second_at self.entry.correlation.now self.entry.table.now first) track 8 }
    {
        let sum = self.correlation_at(first);
        self.chosen(sum, track, |place| self.second_energy_at(first, place))
    }

    fn third(self, first: Place, one: Placed, track: Track) -> Placed
        ensures { result ≡ best_step (third_at self.entry.correlation.now self.entry.table.now first one) track 8 }
    {
        let sum = one.step().sum;
        self.chosen(sum, track, |place| self.third_energy_at(first, one, place))
    }

    // An energy up to 9/16, which three pulses of a normalised impulse have at most, leaves the fourth room: nothing is clipped.
    fn fourth(self, first: Place, second: Place, two: Placed, track: Track) -> Placed
        ensures { result ≡ best_step (fourth_at self.entry.correlation.now self.entry.table.now first second two) track 8 }
    {
        let energy = two.step().energy;
        if (-18432 <= energy) & (energy <= 18431) {
            return self.plain_fourth(first, second, two, track);
        }
        self.clipped_fourth(first, second, two, track)
    }

    fn plain_fourth(self, first: Place, second: Place, two: Placed, track: Track) -> Placed
        requires { mag two.energy < 18432 }
        ensures { result ≡ best_step (fourth_at self.entry.correlation.now self.entry.table.now first second two) track 8 }
    {
        let sum = two.step().sum;
        self.chosen(
            sum,
            track,
            |place| self.fourth_energy_at(first, second, two, place),
        )
    }

    // The best place of a track, by the sum so far and the energy at each place.
    fn chosen<F: Fn(Place) -> i16>(self, sum: i16, track: Track, energy_at: F) -> Placed
        requires { F.IsAlwaysCallable energy_at }
        ensures { (g : ℕ → ℤ) → ((n : ℕ) (e : ℤ) → n < 8 → F.post energy_at (track + 5 * n) e → e ≡ round (g (track + 5 * n))) → result ≡ best_step (λ p. step_to p (add sum (at self.entry.correlation.now p)) (g p)) track 8 }
    {
        let squares = self.squares(sum, track);
        let energies = std::array::from_fn(
            |n|
                requires { (n < 8) × F.IsAlwaysCallable energy_at }
            { energy_at(track.place(n)) },
        );
        self.best(sum, &squares, &energies, track)
    }

    #[tactic(auto, unfolding(crate::specs::Choices::second_at, codebook_steps::specs::Steps::step_to))]
    fn second_energy_at(self, first: Place, place: Place) -> i16
        ensures { result ≡ (second_at [] self.entry.table.now first place).energy }
    {
        second_energy(
            self.cell(first, first),
            self.cell(place, place),
            self.cell(first, place),
        )
    }

    #[tactic(auto, unfolding(crate::specs::Choices::third_at, codebook_steps::specs::Steps::step_to))]
    fn third_energy_at(self, first: Place, one: Placed, place: Place) -> i16
        ensures { result ≡ (third_at [] self.entry.table.now first one place).energy }
    {
        third_energy(
            one.step().energy,
            self.cell(place, place),
            self.cell(one.place(), place),
            self.cell(first, place),
        )
    }

    #[tactic(auto, unfolding(crate::specs::Choices::fourth_at, codebook_steps::specs::Steps::step_to))]
    fn fourth_energy_at(self, first: Place, second: Place, two: Placed, place: Place) -> i16
        requires { mag two.energy < 18432 }
        ensures { result ≡ (fourth_at [] self.entry.table.now first second two place).energy }
    {
        fourth_energy(
            two.step().energy,
            self.cell(place, place),
            self.cell(two.place(), place),
            self.cell(second, place),
            self.cell(first, place),
        )
    }

    // The eight in order: one that exceeds the one held replaces it. Where none exceeds the first held, -1 over 1, none is found.
    // A number past the last stands for none: with an Option the choice takes 1.4 times as long.
    fn best(self, sum: i16, squares: &[i16; 8], energies: &[i16; 8], track: Track) -> Placed
        ensures { (f : ℕ → Step) → ((n : ℕ) → n < 8 → f (track + 5 * n) ≡ record { place = track + 5 * n; sum = add sum (at self.entry.correlation.now (track + 5 * n)); square = at squares.now n; energy = at energies.now n }) → result ≡ best_step f track 8 }
    {
        let none = codebook_steps::none_in(track.number);
        let mut found = POSITIONS_PER_TRACK;
        let mut held = none.ratio();
        for n in 0..POSITIONS_PER_TRACK {
            let next = Ratio {
                square: squares[n],
                energy: energies[n],
            };
            if next.exceeds(held) {
                found = n;
                held = next;
            }
        }
        if found == POSITIONS_PER_TRACK {
            return Placed { step: none };
        }
        let place = track.place(found);
        Placed {
            step: Step {
                place: place.index,
                sum: self.total(sum, place),
                square: held.square,
                energy: held.energy,
            },
        }
    }

    fn squares(self, sum: i16, track: Track) -> [i16; 8]
        ensures { result ≡ tabulate (λ n. mult (add sum (at self.entry.correlation.now (track + 5 * n))) (add sum (at self.entry.correlation.now (track + 5 * n)))) 8 }
    {
        std::array::from_fn(|n| self.square(sum, track.place(n)))
    }

    fn square(self, sum: i16, place: Place) -> i16
        ensures { result ≡ mult (add sum (at self.entry.correlation.now place)) (add sum (at self.entry.correlation.now place)) }
    {
        let total = self.total(sum, place);
        fixed::fractional(total, total)
    }

    #[tactic(auto, unfolding(crate::specs::Choices::best_step))]
    fn clipped_fourth(self, first: Place, second: Place, two: Placed, track: Track) -> Placed
        ensures { result ≡ best_step (fourth_at self.entry.correlation.now self.entry.table.now first second two) track 8 }
    {
        let mut held = codebook_steps::none_in(track.number);
        for n in 0..POSITIONS_PER_TRACK {
            held = codebook_steps::better(held, self.fourth_at(first, second, two, track.place(n)));
        }
        Placed { step: held }
    }

    #[tactic(auto, unfolding(crate::specs::Choices::fourth_at))]
    fn fourth_at(self, first: Place, second: Place, two: Placed, place: Place) -> Step
        ensures { result ≡ fourth_at self.entry.correlation.now self.entry.table.now first second two place }
    {
        let base = fixed::deposit_high(two.step().energy);
        let own = fixed::mac(base, self.cell(place, place), SIXTEENTH_Q15);
        let third = fixed::mac(own, self.cell(two.place(), place), EIGHTH_Q15);
        let second_too = fixed::mac(third, self.cell(second, place), EIGHTH_Q15);
        let energy = fixed::mac(second_too, self.cell(first, place), EIGHTH_Q15);
        codebook_steps::step_to(place.index, self.total(two.step().sum, place), energy)
    }

    // ---- The lists at a place.

    fn may_start(self, place: Place) -> bool
        ensures { result ≡ may_start self.entry.left.now place }
    {
        0 <= self.left[place.index]
    }

    fn correlation_at(self, place: Place) -> i16
        ensures { result ≡ at self.entry.correlation.now place }
    {
        self.correlation[place.index]
    }

    fn total(self, sum: i16, place: Place) -> i16
        ensures { result ≡ add sum (at self.entry.correlation.now place) }
    {
        fixed::add(sum, self.correlation_at(place))
    }

    fn cell(self, i: Place, j: Place) -> i16
        ensures { result ≡ cell self.entry.table.now i j }
    {
        self.table[i.index][j.index]
    }
}

#[tactic(auto, unfolding(codebook_steps::specs::Steps::none_in))]
fn none_in(track: Track) -> Placed
    ensures { result ≡ none_in track }
{
    Placed {
        step: codebook_steps::none_in(track.number),
    }
}

// Sums of words by 1/4 and 1/2: nothing is clipped, so one shift and one rounding do.
fn second_energy(base: i16, own: i16, cross: i16) -> i16
    ensures { result ≡ round (L_mac (L_mac (L_mult base (pos 8192)) own (pos 8192)) cross (pos 16384)) }
{
    ((base as i32 + own as i32 + 2 * cross as i32 + 2) >> 2) as i16
}

fn third_energy(base: i16, own: i16, a: i16, b: i16) -> i16
    ensures { result ≡ round (L_mac (L_mac (L_mac (L_mult base (pos 8192)) own (pos 2048)) a (pos 4096)) b (pos 4096)) }
{
    ((4 * base as i32 + own as i32 + 2 * a as i32 + 2 * b as i32 + 8) >> 4) as i16
}

fn fourth_energy(base: i16, own: i16, a: i16, b: i16, c: i16) -> i16
    requires { mag base < 18432 }
    ensures { result ≡ round (L_mac (L_mac (L_mac (L_mac (L_deposit_h base) own (pos 2048)) a (pos 4096)) b (pos 4096)) c (pos 4096)) }
{
    ((16 * base as i32 + own as i32 + 2 * a as i32 + 2 * b as i32 + 2 * c as i32 + 8) >> 4) as i16
}
