// The pulse reader, TS 26.073 decode_4i40_17bits and dgray, from codebook.rs; how a place and a sign are written, build_code and gray.
#![tactic(auto)]

ghost use Rattle.std.specs.Prelude.{◌≡◌, ◌<◌, ◌^◌, length};
ghost use Rattle.codebook.specs.Words.{number_of, position_bits, slot, sign_bit};
ghost use Rattle.refusal.specs.Refused.{told};
ghost use Rattle.codebook.specs.Readers.{place_of, pulse_of, places_of, pulses_at, decode};

use fixed::sizes::{SUBFRAME_SAMPLES, TRACKS};
use refusal::Refusal;

const MAX_POSITIONS: u16 = 8191;

const MAX_SIGNS: u16 = 15;

const GRAY: [u16; 8] = [0, 1, 3, 2, 6, 4, 5, 7];

const INVERSE_GRAY: [u8; 8] = [0, 1, 3, 2, 5, 6, 4, 7];

const POSITIVE_Q13: i16 = 8191;

const NEGATIVE_Q13: i16 = -8192;

// The pulses' places: tracks 0, 1 and 2, then track 3 or 4.
#[derive(Clone, Copy, Debug, PartialEq, Eq)]
pub struct Places {
    pub first: usize,
    pub second: usize,
    pub third: usize,
    pub last: usize,
}

// The samples are lent by the caller.
#[tactic(auto, unfolding(crate::specs::Readers::decode))]
pub fn read(
    pulse_positions: u16,
    pulse_signs: u16,
    samples_q13: &mut [i16],
) -> Result<Places, Refusal>
    ensures { (told result ≡ (decode pulse_positions pulse_signs samples_q13.old).answer)
        × (samples_q13.new ≡ (decode pulse_positions pulse_signs samples_q13.old).after) }
{
    refusal::of_length::<SUBFRAME_SAMPLES>(samples_q13)?;
    if MAX_POSITIONS < pulse_positions {
        return Err(Refusal::Positions(pulse_positions));
    }
    if MAX_SIGNS < pulse_signs {
        return Err(Refusal::Signs(pulse_signs));
    }
    let places = places_in(pulse_positions);
    write(places, pulse_signs, samples_q13);
    Ok(places)
}

fn write(places: Places, signs: u16, samples: &mut [i16])
    requires { (length samples.old ≡ 40) × (places.first < 40) × (places.second < 40) × (places.third < 40) × (places.last < 40) }
    ensures { samples.new ≡ pulses_at places signs }
{
    samples.fill(0);
    samples[places.first] = pulse(signs);
    samples[places.second] = pulse(signs / 2);
    samples[places.third] = pulse(signs / 4);
    samples[places.last] = pulse(signs / 8);
}

fn places_in(positions: u16) -> Places
    ensures { result ≡ places_of positions }
{
    let last_track = 3 + (positions / 512 % 2) as usize;
    Places {
        first: place(positions, 0),
        second: place(positions / 8, 1),
        third: place(positions / 64, 2),
        last: place(positions / 1024, last_track),
    }
}

// The place in a track whose Gray number the lowest three bits are.
#[tactic(auto, unfolding(crate::specs::Gray::dgray))]
fn place(bits: u16, track: usize) -> usize
    requires { track < 5 }
    ensures { result ≡ place_of bits track }
{
    INVERSE_GRAY[(bits % 8) as usize] as usize * TRACKS + track
}

// The pulse whose sign the lowest bit is: set means positive.
fn pulse(bits: u16) -> i16
    ensures { result ≡ pulse_of bits }
{
    if bits % 2 == 1 {
        return POSITIVE_Q13;
    }
    NEGATIVE_Q13
}

// ---- What a pulse adds to the two words.

#[tactic(auto, using(crate::proofs::ReadBack::number_lt), unfolding(crate::specs::Words::in_track))]
pub fn position_bits(place: usize) -> u16
    ensures { result ≡ position_bits place }
{
    let number = gray_number(place);
    match place % TRACKS {
        0 => number,
        1 => number * 8,
        2 => number * 64,
        3 => number * 1024,
        _ => number * 1024 + 512,
    }
}

// 0 past the last place.
#[tactic(auto, unfolding(crate::specs::Gray::gray))]
fn gray_number(place: usize) -> u16
    ensures { result ≡ number_of place }
{
    GRAY.get(place / TRACKS).copied().unwrap_or(0)
}

pub fn sign_bit(positive: bool, place: usize) -> u16
    ensures { result ≡ sign_bit positive place }
{
    if positive {
        return bit(place);
    }
    0
}

fn bit(place: usize) -> u16
    ensures { result ≡ 2 ^ slot place }
{
    match place % TRACKS {
        0 => 1,
        1 => 2,
        2 => 4,
        _ => 8,
    }
}
