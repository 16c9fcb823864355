// The gain row. A limit is 0, unrestricted, or 1, resonance.
ghost use Rattle.std.specs.Prelude.{◌≡◌};
ghost use Rattle.refusal.specs.Refused.{told};
ghost use Rattle.gain_pitch.specs.Gains.{pitch_gain};
ghost use Rattle.gain.specs.Rows.{quantize};
ghost use Rattle.mr74.specs.Gains.{pitch_gain_answer, gain_answer};

use crate::details::Detail;
use gain::QuantizedGain;
use gain_pitch::PitchGain;
use refusal::Refusal;

#[repr(C)]
#[derive(Clone, Copy, Default)]
pub struct PitchGainAnswer {
    pub number: u8,
    pub magnitude: u64,
    pub gain_q14: i16,
    pub yy: i16,
    pub yy_exponent: i16,
    pub xy: i16,
    pub xy_exponent: i16,
    pub energy_clips: u8,
    pub target_clips: u8,
}

#[unsafe(no_mangle)]
pub extern "C" fn mr74_pitch_gain(target: &[i16], adaptive: &[i16]) -> PitchGainAnswer
    ensures { result ≡ pitch_gain_answer (pitch_gain target.now adaptive.now) }
{
    let answer = gain_pitch::pitch_gain(target, adaptive);
    pitch_gain_answer(answer)
}

fn pitch_gain_answer(answer: Result<PitchGain, Refusal>) -> PitchGainAnswer
    ensures { result ≡ pitch_gain_answer (told answer) }
{
    match answer {
        Ok(gain) => PitchGainAnswer {
            gain_q14: gain.gain_q14,
            yy: gain.yy.word,
            yy_exponent: gain.yy.exponent,
            xy: gain.xy.word,
            xy_exponent: gain.xy.exponent,
            energy_clips: gain.clips.energy,
            target_clips: gain.clips.target,
            ..Default::default()
        },
        Err(refusal) => PitchGainAnswer {
            number: refusal.number(),
            magnitude: Detail::from(refusal).magnitude,
            ..Default::default()
        },
    }
}

#[repr(C)]
#[derive(Clone, Copy, Default)]
pub struct GainAnswer {
    pub number: u8,
    pub negative: bool,
    pub magnitude: u64,
    pub index: u16,
    pub pitch_q14: i16,
    pub correction_q12: i16,
    pub energy_q10: i16,
    pub energy_clips: u8,
    pub target_clips: u8,
    pub innovation_clips: u8,
    pub target_innovation_clips: u8,
    pub adaptive_innovation_clips: u8,
}

#[unsafe(no_mangle)]
pub extern "C" fn mr74_quantize(
    target: &[i16],
    adaptive: &[i16],
    filtered_innovation_q12: &[i16],
    exponent: i16,
    fraction: u16,
    limit: u8,
) -> GainAnswer
    ensures { result ≡ gain_answer (quantize target.now adaptive.now filtered_innovation_q12.now exponent fraction limit) }
{
    let answer = gain::quantize(
        target,
        adaptive,
        filtered_innovation_q12,
        exponent,
        fraction,
        limit,
    );
    gain_answer(answer)
}

pub(crate) fn gain_answer(answer: Result<QuantizedGain, Refusal>) -> GainAnswer
    ensures { result ≡ gain_answer (told answer) }
{
    match answer {
        Ok(chosen) => GainAnswer {
            index: chosen.index,
            pitch_q14: chosen.row.pitch_q14,
            correction_q12: chosen.row.correction_q12,
            energy_q10: chosen.row.energy_q10,
            energy_clips: chosen.pitch_clips.energy,
            target_clips: chosen.pitch_clips.target,
            innovation_clips: chosen.innovation_clips.energy,
            target_innovation_clips: chosen.innovation_clips.target,
            adaptive_innovation_clips: chosen.innovation_clips.adaptive,
            ..Default::default()
        },
        Err(refusal) => {
            let detail = Detail::from(refusal);
            GainAnswer {
                number: refusal.number(),
                negative: detail.negative,
                magnitude: detail.magnitude,
                ..Default::default()
            }
        }
    }
}
