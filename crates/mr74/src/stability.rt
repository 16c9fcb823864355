// The resonance watch. It crosses as a count and as seven gains, lent by the caller and updated there; fresh, all are 0.
ghost use Rattle.std.specs.Prelude.{◌≡◌};
ghost use Rattle.refusal.specs.Refused.{told};
ghost use Rattle.refusal.specs.Checks.{told_step};
ghost use Rattle.stability_state.specs.Calls.{spectrum_in_numbers, limit_in_numbers, gain_in_numbers};
ghost use Rattle.mr74.specs.Stabilities.{spectrum_answer, limit_answer, watched_answer};

use crate::details::Detail;
use crate::gain_row::{self, GainAnswer};
use encoder_stability::WatchedGain;
use gain_limit::GainLimit;
use refusal::Refusal;

#[repr(C)]
#[derive(Clone, Copy)]
pub struct SpectrumAnswer {
    pub number: u8,
    pub magnitude: u64,
    pub resonant: bool,
    pub count: u8,
}

#[unsafe(no_mangle)]
pub extern "C" fn mr74_observe_spectrum(lsp_q15: &[i16], count: u8) -> SpectrumAnswer
    ensures { result ≡ spectrum_answer (spectrum_in_numbers lsp_q15.now count) }
{
    let step = stability_state::observe_spectrum(lsp_q15, count);
    match step.answer {
        Ok(resonant) => SpectrumAnswer {
            number: 0,
            magnitude: 0,
            resonant,
            count: step.after,
        },
        Err(refusal) => SpectrumAnswer {
            number: refusal.number(),
            magnitude: Detail::from(refusal).magnitude,
            resonant: false,
            count: step.after,
        },
    }
}

#[repr(C)]
#[derive(Clone, Copy, Default)]
pub struct LimitAnswer {
    pub number: u8,
    pub magnitude: u64,
    pub limit: u8,
}

#[unsafe(no_mangle)]
pub extern "C" fn mr74_watch_limit(pitch_gain_q14: i16, count: u8, gains_q11: &[i16]) -> LimitAnswer
    ensures { result ≡ limit_answer (limit_in_numbers pitch_gain_q14 count gains_q11.now) }
{
    let limit = stability_state::limit(pitch_gain_q14, count, gains_q11);
    limit_answer(limit)
}

fn limit_answer(limit: Result<GainLimit, Refusal>) -> LimitAnswer
    ensures { result ≡ limit_answer (told limit) }
{
    match limit {
        Ok(limit) => LimitAnswer {
            limit: u8::from(limit),
            ..Default::default()
        },
        Err(refusal) => LimitAnswer {
            number: refusal.number(),
            magnitude: Detail::from(refusal).magnitude,
            ..Default::default()
        },
    }
}

#[repr(C)]
#[derive(Clone, Copy)]
pub struct WatchedGainAnswer {
    pub gain: GainAnswer,
    pub limit: u8,
}

#[unsafe(no_mangle)]
pub extern "C" fn mr74_watched_gain(
    target: &[i16],
    adaptive: &[i16],
    filtered_innovation_q12: &[i16],
    exponent: i16,
    fraction: u16,
    pitch_gain_q14: i16,
    count: u8,
    gains_q11: &mut [i16],
) -> WatchedGainAnswer
    ensures { (result ≡ watched_answer (gain_in_numbers target.now adaptive.now filtered_innovation_q12.now exponent fraction pitch_gain_q14 count gains_q11.old).answer)
        × (gains_q11.new ≡ (gain_in_numbers target.now adaptive.now filtered_innovation_q12.now exponent fraction pitch_gain_q14 count gains_q11.old).after) }
{
    let chosen = stability_state::quantize(
        target,
        adaptive,
        filtered_innovation_q12,
        exponent,
        fraction,
        pitch_gain_q14,
        count,
        gains_q11,
    );
    watched_answer(chosen)
}

fn watched_answer(chosen: Result<WatchedGain, Refusal>) -> WatchedGainAnswer
    ensures { result ≡ watched_answer (told chosen) }
{
    match chosen {
        Ok(chosen) => WatchedGainAnswer {
            gain: gain_row::gain_answer(Ok(chosen.gain)),
            limit: u8::from(chosen.limit),
        },
        Err(refusal) => WatchedGainAnswer {
            gain: gain_row::gain_answer(Err(refusal)),
            limit: 0,
        },
    }
}
