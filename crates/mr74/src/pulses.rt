// The pulses. The lists that are handed back are lent by the caller.
ghost use Rattle.std.specs.Prelude.{◌≡◌};
ghost use Rattle.refusal.specs.Refused.{told};
ghost use Rattle.codebook.specs.Readers.{decode};
ghost use Rattle.codebook_search.specs.Pulses.{lent, pulses};
ghost use Rattle.mr74.specs.Pulses.{pulses_answer, places_answer};

use crate::details::Detail;
use codebook::Places;
use codebook_code::PulseWords;
use codebook_sharpening::SharpeningGain;
use refusal::Refusal;

#[repr(C)]
#[derive(Clone, Copy, Default)]
pub struct PulsesAnswer {
    pub number: u8,
    pub magnitude: u64,
    pub positions: u16,
    pub signs: u16,
}

#[unsafe(no_mangle)]
pub extern "C" fn mr74_pulse_search(
    target: &[i16],
    impulse_q12: &[i16],
    lag: u16,
    pitch_sharp_q14: SharpeningGain,
    innovation_q13: &mut [i16],
    filtered_q12: &mut [i16],
    sharpened_impulse_q12: &mut [i16],
) -> PulsesAnswer
    ensures { (result ≡ pulses_answer (pulses target.now impulse_q12.now lag pitch_sharp_q14 (lent innovation_q13.old filtered_q12.old sharpened_impulse_q12.old)).answer)
        × (lent innovation_q13.new filtered_q12.new sharpened_impulse_q12.new ≡ (pulses target.now impulse_q12.now lag pitch_sharp_q14 (lent innovation_q13.old filtered_q12.old sharpened_impulse_q12.old)).after) }
{
    let answer = codebook_search::search(
        target,
        impulse_q12,
        lag,
        pitch_sharp_q14,
        innovation_q13,
        filtered_q12,
        sharpened_impulse_q12,
    );
    pulses_answer(answer)
}

fn pulses_answer(answer: Result<PulseWords, Refusal>) -> PulsesAnswer
    ensures { result ≡ pulses_answer (told answer) }
{
    match answer {
        Ok(words) => PulsesAnswer {
            positions: words.positions,
            signs: words.signs,
            ..Default::default()
        },
        Err(refusal) => PulsesAnswer {
            number: refusal.number(),
            magnitude: Detail::from(refusal).magnitude,
            ..Default::default()
        },
    }
}

#[repr(C)]
#[derive(Clone, Copy, Default)]
pub struct PlacesAnswer {
    pub number: u8,
    pub magnitude: u64,
    pub first: usize,
    pub second: usize,
    pub third: usize,
    pub last: usize,
}

#[unsafe(no_mangle)]
pub extern "C" fn mr74_read_pulses(
    positions: u16,
    signs: u16,
    samples_q13: &mut [i16],
) -> PlacesAnswer
    ensures { (result ≡ places_answer (decode positions signs samples_q13.old).answer)
        × (samples_q13.new ≡ (decode positions signs samples_q13.old).after) }
{
    let reading = codebook::read(positions, signs, samples_q13);
    places_answer(reading)
}

fn places_answer(reading: Result<Places, Refusal>) -> PlacesAnswer
    ensures { result ≡ places_answer (told reading) }
{
    match reading {
        Ok(places) => PlacesAnswer {
            first: places.first,
            second: places.second,
            third: places.third,
            last: places.last,
            ..Default::default()
        },
        Err(refusal) => PlacesAnswer {
            number: refusal.number(),
            magnitude: Detail::from(refusal).magnitude,
            ..Default::default()
        },
    }
}
