// A whole frame in one call: two half frames through the detector, then the searches of the four subframes.
#![tactic(auto)]

ghost use Rattle.std.specs.Prelude.{◌≡◌, IfOk};
ghost use Rattle.refusal.specs.Refused.{values, refused, told, put};
ghost use Rattle.refusal.specs.Checks.{checked, told_step};
ghost use Rattle.frame.specs.Frames.{lists_of, four_lists, lengths_of, frame_lengths, searched_with, with_lags, checked_parts, frame_of};

use fixed::sizes::HALF_FRAME_SAMPLES;
use open_loop::Detector;
use pitch::{OpenLoopLag, Subframe};
use pitch_search::{Search, SearchedPitch};
use refusal::{Refusal, Step};

// Both open-loop lags, and what each subframe's search found.
#[derive(Clone, Copy, Debug, PartialEq, Eq)]
pub struct FramePitches {
    pub first: OpenLoopLag,
    pub second: OpenLoopLag,
    pub one: SearchedPitch,
    pub two: SearchedPitch,
    pub three: SearchedPitch,
    pub four: SearchedPitch,
}

#[derive(Clone, Copy)]
pub struct FrameState {
    pub detector: Detector,
    pub searcher: Search,
}

// What the encoder had at a subframe.
#[repr(C)]
#[derive(Clone, Copy)]
pub struct SubframeLists<'a> {
    pub excitation: &'a [i16],
    pub target: &'a [i16],
    pub impulse_q12: &'a [i16],
}

impl SubframeLists<'_> {
    fn known_lengths(self) -> Result<(), Refusal>
        ensures { told result ≡ checked (lengths_of (lists_of self.entry)) refused (values tt) }
    {
        refusal::of_length::<194>(self.excitation)?;
        refusal::of_length::<40>(self.target)?;
        refusal::of_length::<40>(self.impulse_q12)?;
        Ok(())
    }

    fn searched(
        self,
        searcher: Search,
        first: OpenLoopLag,
        second: OpenLoopLag,
        subframe: u8,
    ) -> Step<SearchedPitch, Search>
        ensures { told_step result ≡ searched_with searcher (lists_of self.entry) first.0 second.0 subframe }
    {
        searcher.search(
            self.excitation,
            self.target,
            self.impulse_q12,
            first.samples(),
            second.samples(),
            subframe,
        )
    }
}

// Number 1 over all thirteen lists.
pub fn known_lengths<'a>(
    samples_q0: &'a [i16],
    one: SubframeLists,
    two: SubframeLists,
    three: SubframeLists,
    four: SubframeLists,
) -> Result<&'a [i16; 160], Refusal>
    ensures answer { put (λ samples. tt {0}) (told result) ≡ checked (frame_lengths samples_q0.now (four_lists one.entry two.entry three.entry four.entry)) refused (values tt) }
    ensures samples { IfOk result (λ samples. samples.now ≡ samples_q0.now) }
{
    let samples = refusal::of_length(samples_q0)?;
    one.known_lengths()?;
    two.known_lengths()?;
    three.known_lengths()?;
    four.known_lengths()?;
    Ok(samples)
}

// Four searches, each with the searcher that the last one left.
fn searched(
    searcher: Search,
    first: OpenLoopLag,
    second: OpenLoopLag,
    one: SubframeLists,
    two: SubframeLists,
    three: SubframeLists,
    four: SubframeLists,
) -> Result<(FramePitches, Search), Refusal>
    ensures { told result ≡ with_lags searcher (four_lists one.entry two.entry three.entry four.entry) first.0 second.0 }
{
    let a = one.searched(searcher, first, second, 1);
    let b = two.searched(a.after, first, second, 2);
    let c = three.searched(b.after, first, second, 3);
    let d = four.searched(c.after, first, second, 4);
    let found = FramePitches {
        first,
        second,
        one: a.answer?,
        two: b.answer?,
        three: c.answer?,
        four: d.answer?,
    };
    Ok((found, d.after))
}

impl FrameState {
    // 160 samples of perceptually weighted speech.
    #[tactic(auto, unfolding(crate::specs::Frames::frame_of))]
    pub fn search(
        self,
        samples_q0: &[i16],
        one: SubframeLists,
        two: SubframeLists,
        three: SubframeLists,
        four: SubframeLists,
    ) -> Step<FramePitches, Self>
        ensures { told_step result ≡ frame_of self samples_q0.now (four_lists one.entry two.entry three.entry four.entry) }
    {
        match self.parts(samples_q0, one, two, three, four) {
            Ok((found, after)) => Step {
                answer: Ok(found),
                after,
            },
            Err(refusal) => Step::refused(refusal, self),
        }
    }

    fn parts(
        self,
        samples_q0: &[i16],
        one: SubframeLists,
        two: SubframeLists,
        three: SubframeLists,
        four: SubframeLists,
    ) -> Result<(FramePitches, Self), Refusal>
        ensures { told result ≡ checked_parts self samples_q0.now (four_lists one.entry two.entry three.entry four.entry) }
    {
        let samples = known_lengths(samples_q0, one, two, three, four)?;
        if self.searcher.next != Subframe::One {
            return Err(Refusal::Order(u8::from(self.searcher.next)));
        }
        let a = self.detector.push(&samples[..HALF_FRAME_SAMPLES]);
        let b = a.after.push(&samples[HALF_FRAME_SAMPLES..]);
        let first = a.answer?;
        let second = b.answer?;
        let (found, searcher) = searched(self.searcher, first, second, one, two, three, four)?;
        let after = FrameState {
            detector: b.after,
            searcher,
        };
        Ok((found, after))
    }
}
