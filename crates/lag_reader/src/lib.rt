// The lag reader, the receiver's side of the closed loop: our own, over the index rules of pitch.rs.
#![tactic(auto)]

ghost use Rattle.std.specs.Prelude.{◌≡◌};
ghost use Rattle.refusal.specs.Refused.{values, refused, told};
ghost use Rattle.refusal.specs.Checks.{checked, told_step};
ghost use Rattle.pitch.specs.Kinds.{following, upper_samples};
ghost use Rattle.pitch.specs.Indexes.{lag_of};
ghost use Rattle.lag_reader.specs.Readers.{fresh_reader, reset_reader, start_used, reading_checks, read};

use pitch::{PitchLag, Subframe, UpperLag, Window};
use refusal::{Refusal, Step};

const MAX_DELTA_INDEX: u8 = 31;

// The lag reader: the lag that it read last, the subframe that it expects, the upper lag that it is made with, and the start of the window that it read in, 0 when fresh and after subframes one and three.
#[derive(Clone, Copy, Debug, PartialEq, Eq)]
pub struct Reader {
    pub previous: PitchLag,
    pub next: Subframe,
    pub upper: UpperLag,
    pub start: u16,
}

impl Reader {
    pub fn fresh(upper: UpperLag) -> Self
        ensures { result ≡ fresh_reader upper }
    {
        Reader {
            previous: pitch::fresh_lag(),
            next: Subframe::One,
            upper,
            start: 0,
        }
    }

    // Keeps the upper lag.
    pub fn reset(self) -> Self
        ensures { result ≡ reset_reader self }
    {
        Reader::fresh(self.upper)
    }

    #[tactic(auto, unfolding(crate::specs::Readers::read))]
    #[inline(always)]
    pub fn read(self, subframe: u8, index: u8) -> Step<PitchLag, Self>
        ensures { told_step result ≡ read self subframe index }
    {
        let answer = self.checked_lag(subframe, index);
        let after = match answer {
            Ok(lag) => self.after(lag),
            Err(_) => self,
        };
        Step { answer, after }
    }

    // The lag of an index that the checks let through.
    fn checked_lag(self, subframe: u8, index: u8) -> Result<PitchLag, Refusal>
        ensures { told result ≡ checked (reading_checks self subframe index) refused (values (lag_of (upper_samples self.upper) self.next self.previous.samples index)) }
    {
        let due = self.next;
        if Subframe::try_from(subframe)? != due {
            return Err(Refusal::Order(u8::from(due)));
        }
        if !due.absolute() && MAX_DELTA_INDEX < index {
            return Err(Refusal::RelativeIndex(index));
        }
        Ok(PitchLag::decoded(due, index, self.previous.samples, self.upper))
    }

    fn after(self, lag: PitchLag) -> Self
        ensures { result ≡ record { previous = lag; next = following self.next; upper = self.upper; start = start_used (upper_samples self.upper) self.next self.previous.samples } }
    {
        Reader {
            previous: lag,
            next: self.next.next(),
            start: start_used(self.next, self.previous.samples, self.upper),
            ..self
        }
    }
}

// The start of the window that a reading uses, after the whole lag `previous`: subframes one and three use none.
fn start_used(subframe: Subframe, previous: u16, upper: UpperLag) -> u16
    ensures { result ≡ start_used (upper_samples upper) subframe previous }
{
    if subframe.absolute() {
        return 0;
    }
    Window::relative(previous, upper).start
}
