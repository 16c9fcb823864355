// 02, request 11: a channel record as the numbers that cross to Rust and C. The dispatcher over a list of them is that of `dispatch`.
#![tactic(auto)]

ghost use Rattle.std.specs.Prelude.{◌≡◌};
ghost use Rattle.channel_state.specs.Kinds.{number_kind, last_number};

use dispatch::{ChannelRecord, Dispatcher};
use pitch_search::SearchedPitch;
use pitch_state::PitchState;
use refusal::Step;

// The searcher's numbers, and a mark: 0, or any other number where the channel waits.
#[repr(C)]
#[derive(Clone, Copy, Debug, PartialEq, Eq)]
pub struct ChannelState {
    pub searcher: PitchState,
    pub waiting: u8,
}

impl ChannelRecord for ChannelState {
    ghost kind = { number_kind };

    fn waits(self) -> bool {
        self.waiting != 0
    }

    fn search(
        self,
        excitation: &[i16],
        target: &[i16],
        impulse_q12: &[i16],
        first: u16,
        second: u16,
        subframe: u8,
    ) -> Step<SearchedPitch, Self> {
        let step = pitch_state::search(
            self.searcher,
            excitation,
            target,
            impulse_q12,
            first,
            second,
            subframe,
        );
        Step {
            answer: step.answer,
            after: ChannelState {
                searcher: step.after,
                waiting: 0,
            },
        }
    }

    fn marked(self) -> Self {
        ChannelState {
            searcher: self.searcher,
            waiting: 1,
        }
    }
}

// The number that stands for no channel.
pub const NO_CHANNEL: usize = usize::MAX;

pub fn last_number(dispatcher: Dispatcher) -> usize
    ensures { result ≡ last_number dispatcher.last }
{
    dispatcher.last.unwrap_or(NO_CHANNEL)
}
