// A whole frame. Its searcher crosses as numbers; the detector's 143 old words are lent, and updated if the frame is accepted.
ghost use Rattle.std.specs.Prelude.{◌≡◌};
ghost use Rattle.frame.specs.Frames.{four_lists};
ghost use Rattle.frame_state.specs.Calls.{frame_in_numbers};
ghost use Rattle.mr74.specs.Frames.{pitch_numbers, frame_answer};

use crate::details::Detail;
use frame::SubframeLists;
use pitch_search::SearchedPitch;
use pitch_state::PitchState;

#[repr(C)]
#[derive(Clone, Copy, Default)]
pub struct FramePitch {
    pub index: u8,
    pub samples: u16,
    pub fraction: i16,
}

#[repr(C)]
#[derive(Clone, Copy)]
pub struct FrameAnswer {
    pub number: u8,
    pub magnitude: u64,
    pub first_lag: u16,
    pub second_lag: u16,
    pub pitches: [FramePitch; 4],
    pub searcher: PitchState,
}

#[unsafe(no_mangle)]
pub extern "C" fn mr74_frame(
    searcher: PitchState,
    samples_q0: &[i16],
    one: SubframeLists,
    two: SubframeLists,
    three: SubframeLists,
    four: SubframeLists,
    history_q0: &mut [i16],
) -> FrameAnswer
    ensures { (result ≡ frame_answer (frame_in_numbers searcher samples_q0.now (four_lists one.entry two.entry three.entry four.entry) history_q0.old))
        × (history_q0.new ≡ (frame_in_numbers searcher samples_q0.now (four_lists one.entry two.entry three.entry four.entry) history_q0.old).after.history) }
{
    match frame_state::search(searcher, samples_q0, one, two, three, four, history_q0) {
        Ok((found, after)) => FrameAnswer {
            number: 0,
            magnitude: 0,
            first_lag: found.first.samples(),
            second_lag: found.second.samples(),
            pitches: [
                FramePitch::from(found.one),
                FramePitch::from(found.two),
                FramePitch::from(found.three),
                FramePitch::from(found.four),
            ],
            searcher: after,
        },
        Err(refusal) => FrameAnswer {
            number: refusal.number(),
            magnitude: Detail::from(refusal).magnitude,
            first_lag: 0,
            second_lag: 0,
            pitches: [FramePitch::default(); 4],
            searcher,
        },
    }
}

impl From<SearchedPitch> for FramePitch {
    ghost from_gives = { λ pitch result. result ≡ pitch_numbers pitch };

    fn from(pitch: SearchedPitch) -> Self {
        FramePitch {
            index: pitch.index,
            samples: pitch.lag.samples,
            fraction: i16::from(pitch.lag.fraction),
        }
    }
}
