// 02, request 11: a dispatcher that serves up to 24 channels in turn, one pitch search at each step. The caller lends the list of channel records.
#![tactic(auto)]

ghost use Rattle.std.specs.Prelude.{◌≡◌, ◌∷◌, [], ◌+◌, ◌<◌, ◌≤◌, ◌^◌, None, length, IfOk, IfSome};
ghost use Rattle.refusal.specs.Refused.{values, refused, told};
ghost use Rattle.refusal.specs.Checks.{checked, told_step, channel_count};
ghost use Rattle.pitch_search.specs.declared.SearchedPitch.{SearchedPitch};
ghost use Rattle.pitch_search.specs.Inputs.{Input};
ghost use Rattle.dispatch.specs.Services.{Kind, start_of, first_waiting, waiting_from, next_waiting, with_next, next_of, serve_of, mark_of};
ghost use Rattle.dispatch.specs.Channels.{channel_kind, told_served, lent};

use pitch_search::{Search, SearchedPitch};
use refusal::{Refusal, Step};

// What is done with a record of the list.
pub trait ChannelRecord: Copy {
    ghost kind: { Kind Self Input SearchedPitch };

    fn waits(self) -> bool
        ensures { result ≡ kind.waits self };

    // One search by the record's searcher, and the record after it.
    fn search(
        self,
        excitation: &[i16],
        target: &[i16],
        impulse_q12: &[i16],
        first: u16,
        second: u16,
        subframe: u8,
    ) -> Step<SearchedPitch, Self>
        ensures { told_step result ≡ kind.search self (record { subframe = subframe; excitation = excitation.now; target = target.now; impulse = impulse_q12.now; first = first; second = second }) };

    fn marked(self) -> Self
        ensures { result ≡ kind.mark self };
}

// A channel's searcher, and whether the channel waits.
#[derive(Clone, Copy, Debug, PartialEq, Eq)]
pub struct Channel {
    pub searcher: Search,
    pub waiting: bool,
}

impl ChannelRecord for Channel {
    ghost kind = { channel_kind };

    fn waits(self) -> bool {
        self.waiting
    }

    fn search(
        self,
        excitation: &[i16],
        target: &[i16],
        impulse_q12: &[i16],
        first: u16,
        second: u16,
        subframe: u8,
    ) -> Step<SearchedPitch, Self> {
        let step = self
            .searcher
            .search(excitation, target, impulse_q12, first, second, subframe);
        Step {
            answer: step.answer,
            after: Channel {
                searcher: step.after,
                waiting: false,
            },
        }
    }

    fn marked(self) -> Self {
        Channel {
            searcher: self.searcher,
            waiting: true,
        }
    }
}

// The number of the channel that was served, and what its search answered.
#[derive(Clone, Copy, Debug, PartialEq, Eq)]
pub struct Service {
    pub channel: usize,
    pub found: Result<SearchedPitch, Refusal>,
}

// The last served number, or none.
#[derive(Clone, Copy, Debug, PartialEq, Eq)]
pub struct Dispatcher {
    pub last: Option<usize>,
}

impl Dispatcher {
    pub fn fresh() -> Self
        ensures { result ≡ record { last = None } }
    {
        Dispatcher { last: None }
    }

    // The number that `serve` would take.
    #[tactic(auto, unfolding(crate::specs::Services::next_of))]
    pub fn next<C: ChannelRecord>(self, channels: &[C]) -> Result<usize, Refusal>
        ensures { told result ≡ next_of C.kind (lent channels.now self) }
    {
        let (number, _) = self.next_waiting(channels)?;
        Ok(number)
    }

    // One search, by the first waiting channel after the last one served, going round.
    #[tactic(auto, unfolding(crate::specs::Services::serve_of))]
    pub fn serve<C: ChannelRecord>(
        self,
        channels: &mut [C],
        excitation: &[i16],
        target: &[i16],
        impulse_q12: &[i16],
        first: u16,
        second: u16,
        subframe: u8,
    ) -> Step<Service, Self>
        ensures { told_served result channels.new ≡ serve_of C.kind (lent channels.old self) (record { subframe = subframe; excitation = excitation.now; target = target.now; impulse = impulse_q12.now; first = first; second = second }) }
    {
        match self.next_waiting(channels) {
            Ok((number, channel)) => {
                let step = channel.search(excitation, target, impulse_q12, first, second, subframe);
                channels[number] = step.after;
                Step {
                    answer: Ok(Service {
                        channel: number,
                        found: step.answer,
                    }),
                    after: Dispatcher { last: Some(number) },
                }
            }
            Err(refusal) => Step::refused(refusal, self),
        }
    }

    // Numbers 15 and 17, else the channel that is next.
    #[tactic(auto, unfolding(crate::specs::Services::waiting_from))]
    fn next_waiting<C: ChannelRecord>(self, channels: &[C]) -> Result<(usize, C), Refusal>
        ensures found { told result ≡ checked (channel_count (length channels.now) ∷ []) refused (with_next C.kind (next_waiting C.kind (lent channels.now self)) (λ j c. values (j, c))) }
        ensures bound { IfOk result (λ r. r.0 < length channels.now) }
    {
        let count = channels.len();
        known_count(count)?;
        let start = self.start(count);
        match first_waiting(&channels[start..], start) {
            Some(found) => Ok(found),
            None => first_waiting(&channels[..start], 0).ok_or(Refusal::NoneWaits),
        }
    }

    // Where the round begins.
    fn start(self, count: usize) -> usize
        ensures start { result ≡ start_of self.last count }
        ensures bound { result ≤ count }
    {
        match self.last {
            Some(last) if last < count => last + 1,
            _ => 0,
        }
    }
}

// Number 15, then number 16.
#[tactic(auto, using(crate::proofs::Lists::altered), unfolding(crate::specs::Services::mark_of))]
pub fn mark<C: ChannelRecord>(channels: &mut [C], number: usize) -> Result<(), Refusal>
    ensures { record { answer = told result; after = channels.new } ≡ mark_of C.kind channels.old number }
{
    known_count(channels.len())?;
    if channels.len() <= number {
        return Err(Refusal::Channel(number));
    }
    channels[number] = channels[number].marked();
    Ok(())
}

fn known_count(count: usize) -> Result<(), Refusal>
    ensures { told result ≡ checked (channel_count count ∷ []) refused (values tt) }
{
    if count == 0 || count > 24 {
        return Err(Refusal::Channels(count));
    }
    Ok(())
}

// The first channel of a list that waits, where the first number is `from`.
fn first_waiting<C: ChannelRecord>(channels: &[C], from: usize) -> Option<(usize, C)>
    requires { from + length channels.now < 2 ^ 64 }
    ensures found { result ≡ first_waiting C.kind.waits from channels.now }
    ensures bound { IfSome result (λ r. (from ≤ r.0) × (r.0 < from + length channels.now)) }
{
    let mut number = from;
    for channel in channels {
        if channel.waits() {
            return Some((number, *channel));
        }
        number += 1;
    }
    None
}
