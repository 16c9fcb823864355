// The words of four pulses, their innovation and what the impulse makes of them, TS 26.073 code_4i40_17bits on lists of 40 words, from codebook/search.rs.
#![tactic(auto)]

ghost use Rattle.std.specs.Prelude.{◌≡◌, ◌<◌, pos};
ghost use Rattle.std.specs.Int.Signed.{lt_z};
ghost use Rattle.fixed.specs.Lists.{at};
ghost use Rattle.codebook.specs.Words.{sign_bit};
ghost use Rattle.codebook_code.specs.Codes.{positions_of, signs_of, full_sign, delayed, through, filtered_at, filtered, build_code, code_4i40_17bits};

use codebook_sharpening::SharpeningGain;
use codebook_steps::Trial;

#[derive(Clone, Copy, Debug, PartialEq, Eq)]
pub struct PulseWords {
    pub positions: u16,
    pub signs: u16,
}

#[derive(Clone, Copy)]
pub struct SearchResult {
    pub words: PulseWords,
    pub innovation_q13: [i16; 40],
    pub filtered_q12: [i16; 40],
    pub sharpened_impulse_q12: [i16; 40],
}

// Every lag is taken: the entry checks it.
#[tactic(auto, unfolding(crate::specs::Codes::chosen, crate::specs::Codes::of_correlation, crate::specs::Codes::of_impulse, crate::specs::Codes::code_4i40_17bits))]
pub fn searched(
    target: &[i16; 40],
    impulse_q12: &[i16; 40],
    lag: usize,
    gain: SharpeningGain,
) -> SearchResult
    ensures { result ≡ code_4i40_17bits target.now impulse_q12.now lag gain }
{
    let sharp = codebook_sharpening::doubled(gain);
    let impulse = codebook_sharpening::sharpened(impulse_q12, lag, sharp);
    let correlation = codebook_target::target_correlation(target, &impulse);
    let signs = codebook_target::signs(&correlation);
    let magnitudes = codebook_target::magnitudes(&correlation);
    let left = codebook_target::starts(&magnitudes);
    let table = codebook_matrix::impulse_correlation(&impulse, &signs);
    let pulses = Pulses {
        chosen: codebook_choice::select(&magnitudes, table, &left),
        impulse: &impulse,
        signs: &signs,
    };
    pulses.written(lag, sharp)
}

// ---- TS 26.073 build_code.

// Four pulses, the impulse that filters them and the signs of all places.
#[derive(Clone, Copy)]
struct Pulses<'a> {
    chosen: Trial,
    impulse: &'a [i16; 40],
    signs: &'a [i16; 40],
    ghost in_subframe: { (chosen.first < 40) × (chosen.second < 40) × (chosen.third < 40) × (chosen.fourth < 40) },
}

impl<'a> Pulses<'a> {
    #[tactic(auto, unfolding(crate::specs::Codes::build_code))]
    fn written(self, lag: usize, sharp_q15: i16) -> SearchResult
        ensures { result ≡ build_code self.entry.chosen self.entry.impulse.now self.entry.signs.now lag sharp_q15 }
    {
        let positions = self.positions();
        let signs = self.sign_bits();
        let mut samples = [0i16; 40];
        // What the reader leaves there is the innovation, whatever it answers.
        let _ = codebook::read(positions, signs, &mut samples);
        SearchResult {
            words: PulseWords { positions, signs },
            innovation_q13: codebook_sharpening::sharpened(&samples, lag, sharp_q15),
            filtered_q12: self.filtered(),
            sharpened_impulse_q12: *self.impulse,
        }
    }

    #[tactic(auto, using(codebook::proofs::ReadBack::position_bits_le), unfolding(crate::specs::Codes::positions_of))]
    fn positions(self) -> u16
        ensures { result ≡ positions_of self.entry.chosen }
    {
        codebook::position_bits(self.chosen.first)
            + codebook::position_bits(self.chosen.second)
            + codebook::position_bits(self.chosen.third)
            + codebook::position_bits(self.chosen.fourth)
    }

    #[tactic(auto, unfolding(crate::specs::Codes::signs_of))]
    fn sign_bits(self) -> u16
        ensures { result ≡ signs_of self.entry.chosen self.entry.signs.now }
    {
        self.sign_bit(self.chosen.first)
            + self.sign_bit(self.chosen.second)
            + self.sign_bit(self.chosen.third)
            + self.sign_bit(self.chosen.fourth)
    }

    fn sign_bit(self, place: usize) -> u16
        requires { place < 40 }
        ensures { result ≡ sign_bit (lt_z (pos 0) (at self.entry.signs.now place)) place }
    {
        codebook::sign_bit(0 < self.signs[place], place)
    }

    fn filtered(self) -> [i16; 40]
        ensures { result ≡ filtered self.entry.chosen self.entry.impulse.now self.entry.signs.now }
    {
        std::array::from_fn(|i| self.filtered_at(i))
    }

    // In the order of the choice, clipped after every addition.
    #[tactic(auto, unfolding(crate::specs::Codes::filtered_at, crate::specs::Codes::through_all, crate::specs::Codes::in_order))]
    fn filtered_at(self, i: usize) -> i16
        requires { i < 40 }
        ensures { result ≡ filtered_at self.entry.chosen self.entry.impulse.now self.entry.signs.now i }
    {
        let one = self.through(0, self.chosen.first, i);
        let two = self.through(one, self.chosen.second, i);
        let three = self.through(two, self.chosen.third, i);
        fixed::rounded(self.through(three, self.chosen.fourth, i))
    }

    #[tactic(auto, unfolding(crate::specs::Codes::through))]
    fn through(self, sum: i32, place: usize, i: usize) -> i32
        requires { (place < 40) × (i < 40) }
        ensures { result ≡ through self.entry.impulse.now self.entry.signs.now i sum place }
    {
        fixed::mac(sum, self.delayed(place, i), full_sign(self.signs[place]))
    }

    fn delayed(self, place: usize, i: usize) -> i16
        requires { i < 40 }
        ensures { result ≡ delayed self.entry.impulse.now place i }
    {
        if i < place {
            return 0;
        }
        self.impulse[i - place]
    }
}

fn full_sign(sign: i16) -> i16
    ensures { result ≡ full_sign sign }
{
    if 0 < sign {
        return 32767;
    }
    -32768
}
