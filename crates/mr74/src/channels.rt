// Up to 24 channels on one searcher. The list of their records is lent, and the last served number is handed in and back.
ghost use Rattle.std.specs.Prelude.{◌≡◌};
ghost use Rattle.refusal.specs.Refused.{values, number, detail, turned_down, put};
ghost use Rattle.dispatch.specs.Services.{next_of, serve_of, mark_of};
ghost use Rattle.channel_state.specs.Kinds.{number_kind, lent_numbers};
ghost use Rattle.mr74.specs.Channels.{channel_answer, refused_service, service_answer};

use crate::details::Detail;
use crate::frames::FramePitch;
use channel_state::{ChannelState, NO_CHANNEL, last_number};
use dispatch::Dispatcher;
use refusal::Refusal;

// The channel that is told or marked.
#[repr(C)]
#[derive(Clone, Copy)]
pub struct ChannelAnswer {
    pub number: u8,
    pub magnitude: u64,
    pub channel: usize,
}

// The channel that was served, the last served number after the step, and what the search answered.
#[repr(C)]
#[derive(Clone, Copy)]
pub struct ServiceAnswer {
    pub number: u8,
    pub magnitude: u64,
    pub channel: usize,
    pub last: usize,
    pub pitch: FramePitch,
}

#[unsafe(no_mangle)]
pub extern "C" fn mr74_serve(
    channels: &mut [ChannelState],
    last: usize,
    excitation: &[i16],
    target: &[i16],
    impulse_q12: &[i16],
    first: u16,
    second: u16,
    subframe: u8,
) -> ServiceAnswer
    ensures { (result ≡ service_answer (serve_of number_kind (lent_numbers channels.old last) (record { subframe = subframe; excitation = excitation.now; target = target.now; impulse = impulse_q12.now; first = first; second = second })))
        × (channels.new ≡ (serve_of number_kind (lent_numbers channels.old last) (record { subframe = subframe; excitation = excitation.now; target = target.now; impulse = impulse_q12.now; first = first; second = second })).after.channels) }
{
    let step = Dispatcher { last: Some(last) }.serve(
        channels,
        excitation,
        target,
        impulse_q12,
        first,
        second,
        subframe,
    );
    let last = last_number(step.after);
    match step.answer {
        Ok(service) => match service.found {
            Ok(found) => ServiceAnswer {
                number: 0,
                magnitude: 0,
                channel: service.channel,
                last,
                pitch: FramePitch::from(found),
            },
            Err(refusal) => refused_service(refusal, service.channel, last),
        },
        Err(refusal) => refused_service(refusal, NO_CHANNEL, last),
    }
}

fn refused_service(refusal: Refusal, channel: usize, last: usize) -> ServiceAnswer
    ensures { result ≡ refused_service (number refusal) (detail refusal) channel last }
{
    ServiceAnswer {
        number: refusal.number(),
        magnitude: Detail::from(refusal).magnitude,
        channel,
        last,
        pitch: FramePitch::default(),
    }
}

#[unsafe(no_mangle)]
pub extern "C" fn mr74_next(channels: &[ChannelState], last: usize) -> ChannelAnswer
    ensures { result ≡ channel_answer (next_of number_kind (lent_numbers channels.now last)) }
{
    match (Dispatcher { last: Some(last) }).next(channels) {
        Ok(channel) => accepted_channel(channel),
        Err(refusal) => refused_channel(refusal),
    }
}

#[unsafe(no_mangle)]
pub extern "C" fn mr74_mark(channels: &mut [ChannelState], channel: usize) -> ChannelAnswer
    ensures { (result ≡ channel_answer (put (λ u. channel) (mark_of number_kind channels.old channel).answer))
        × (channels.new ≡ (mark_of number_kind channels.old channel).after) }
{
    match dispatch::mark(channels, channel) {
        Ok(()) => accepted_channel(channel),
        Err(refusal) => refused_channel(refusal),
    }
}

fn accepted_channel(channel: usize) -> ChannelAnswer
    ensures { result ≡ channel_answer (values channel) }
{
    ChannelAnswer {
        number: 0,
        magnitude: 0,
        channel,
    }
}

fn refused_channel(refusal: Refusal) -> ChannelAnswer
    ensures { result ≡ channel_answer (turned_down refusal) }
{
    ChannelAnswer {
        number: refusal.number(),
        magnitude: Detail::from(refusal).magnitude,
        channel: NO_CHANNEL,
    }
}
