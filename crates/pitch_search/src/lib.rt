// The closed-loop pitch search, TS 26.073 Pitch_fr at 7.4 kbit/s, from pitch/search.rs.
#![tactic(auto)]

ghost use Rattle.std.specs.Prelude.{◌≡◌, IfOk};
ghost use Rattle.refusal.specs.Refused.{values, refused, told, put};
ghost use Rattle.refusal.specs.Checks.{checked, told_step};
ghost use Rattle.pitch_search.specs.Searches.{fresh_search, reset_search, accepted, search_checks, Pitch_fr};
ghost use Rattle.pitch_search.specs.Previews.{preview_of};

use pitch::{OpenLoopLag, PitchLag, Subframe, UpperLag};
use refusal::{Refusal, Step};

#[derive(Clone, Copy, Debug, PartialEq, Eq)]
pub struct SearchedPitch {
    pub lag: PitchLag,
    pub index: u8,
}

// The searcher: the lag that it sent last, the subframe that it expects, the upper lag that it is made with, and the start of its last window, 0 when fresh. With the upper lag in front of the start it has 8 bytes.
#[derive(Clone, Copy, Debug, PartialEq, Eq)]
pub struct Search {
    pub previous: PitchLag,
    pub next: Subframe,
    pub upper: UpperLag,
    pub start: u16,
}

// What a search reads, once its checks let it through.
#[derive(Clone, Copy)]
struct Asked<'a> {
    excitation: &'a [i16; 194],
    target: &'a [i16; 40],
    impulse_q12: &'a [i16; 40],
    first: OpenLoopLag,
    second: OpenLoopLag,
}

impl Search {
    pub fn fresh(upper: UpperLag) -> Self
        ensures { result ≡ fresh_search upper }
    {
        Search {
            previous: pitch::fresh_lag(),
            next: Subframe::One,
            upper,
            start: 0,
        }
    }

    // Keeps the upper lag.
    pub fn reset(self) -> Self
        ensures { result ≡ reset_search self }
    {
        Search::fresh(self.upper)
    }

    // The excitation: 154 words of the past, the subframe's 40 after them. First and second: the open-loop lags of the two half frames.
    #[tactic(auto, unfolding(crate::specs::Searches::Pitch_fr))]
    pub fn search(
        self,
        excitation: &[i16],
        target: &[i16],
        impulse_q12: &[i16],
        first: u16,
        second: u16,
        subframe: u8,
    ) -> Step<SearchedPitch, Self>
        ensures { told_step result ≡ Pitch_fr self excitation.now target.now impulse_q12.now first second subframe }
    {
        match self.checked(excitation, target, impulse_q12, first, second, subframe) {
            Ok(asked) => self.accepted(asked),
            Err(refusal) => Step::refused(refusal, self),
        }
    }

    // What a search with these inputs would answer; the searcher is handed back as it was.
    #[tactic(auto, unfolding(crate::specs::Previews::preview_of, crate::specs::Searches::Pitch_fr))]
    pub fn preview(
        self,
        excitation: &[i16],
        target: &[i16],
        impulse_q12: &[i16],
        first: u16,
        second: u16,
        subframe: u8,
    ) -> Step<SearchedPitch, Self>
        ensures { told_step result ≡ preview_of self excitation.now target.now impulse_q12.now first second subframe }
    {
        let step = self.search(excitation, target, impulse_q12, first, second, subframe);
        Step {
            answer: step.answer,
            after: self,
        }
    }

    // Numbers 1 to 4, in checking order.
    fn checked<'a>(
        self,
        excitation: &'a [i16],
        target: &'a [i16],
        impulse_q12: &'a [i16],
        first: u16,
        second: u16,
        subframe: u8,
    ) -> Result<Asked<'a>, Refusal>
        ensures answer { put (λ asked. tt {0}) (told result) ≡ checked (search_checks self excitation.now target.now impulse_q12.now first second subframe) refused (values tt) }
        ensures lists { IfOk result (λ asked. (asked.excitation.now ≡ excitation.now) × (asked.target.now ≡ target.now) × (asked.impulse_q12.now ≡ impulse_q12.now)) }
        ensures lags { IfOk result (λ asked. (asked.first.0 ≡ first) × (asked.second.0 ≡ second)) }
    {
        let excitation = refusal::of_length(excitation)?;
        let target = refusal::of_length(target)?;
        let impulse_q12 = refusal::of_length(impulse_q12)?;
        let named = Subframe::try_from(subframe)?;
        let first = OpenLoopLag::try_within(first, self.upper)?;
        let second = OpenLoopLag::try_within(second, self.upper)?;
        if named != self.next {
            return Err(Refusal::Order(u8::from(self.next)));
        }
        Ok(Asked {
            excitation,
            target,
            impulse_q12,
            first,
            second,
        })
    }

    // The Rust answers the lag that the index decodes to: it is the chosen one.
    #[tactic(auto, using(pitch::proofs::Uppers::upper_from_40, pitch::proofs::Uppers::upper_to_143, pitch_window::proofs::Sendings::sent_fits, pitch_window::proofs::Sendings::sent_back))]
    fn accepted(self, asked: Asked) -> Step<SearchedPitch, Self>
        ensures { told_step result ≡ accepted self asked.entry.excitation.now asked.entry.target.now asked.entry.impulse_q12.now asked.entry.first.0 asked.entry.second.0 }
    {
        let due = self.next;
        let previous = self.previous.samples;
        let upper = self.upper;
        let Asked {
            excitation,
            target,
            impulse_q12,
            first,
            second,
        } = asked;
        let centre = pitch_window::centre(due, previous, first.samples(), second.samples());
        let start = pitch_window::window(due, centre, upper).start;
        let chosen = pitch_window::chosen_lag(due, centre, upper, excitation, target, impulse_q12);
        let index = chosen.index(due, start) as u8;
        let lag = PitchLag::decoded(due, index, previous, upper);
        Step {
            answer: Ok(SearchedPitch { lag, index }),
            after: Search {
                previous: lag,
                next: due.next(),
                upper,
                start,
            },
        }
    }
}
