// Target filtering. The lists that are handed back are lent by the caller.
ghost use Rattle.std.specs.Prelude.{◌≡◌};
ghost use Rattle.refusal.specs.Refused.{told};
ghost use Rattle.encoder_filtering.specs.Subframes.{lists, residual, prepare};
ghost use Rattle.mr74.specs.Lengths.{length_answer};

use crate::details::Detail;
use refusal::Refusal;

#[repr(C)]
#[derive(Clone, Copy, Default)]
pub struct LengthAnswer {
    pub number: u8,
    pub magnitude: u64,
}

#[unsafe(no_mangle)]
pub extern "C" fn mr74_prepare(
    speech_q0: &[i16],
    coefficients_q12: &[i16],
    quantized_q12: &[i16],
    error_history_q0: &[i16],
    weighting_history_q0: &[i16],
    residual_q0: &mut [i16],
    impulse_q12: &mut [i16],
    target_q0: &mut [i16],
    error_q0: &mut [i16],
) -> LengthAnswer
    ensures { (result ≡ length_answer (prepare speech_q0.now coefficients_q12.now quantized_q12.now error_history_q0.now weighting_history_q0.now (lists residual_q0.old impulse_q12.old target_q0.old error_q0.old)).answer)
        × (lists residual_q0.new impulse_q12.new target_q0.new error_q0.new ≡ (prepare speech_q0.now coefficients_q12.now quantized_q12.now error_history_q0.now weighting_history_q0.now (lists residual_q0.old impulse_q12.old target_q0.old error_q0.old)).after) }
{
    length_answer(encoder_filtering::prepare(
        speech_q0,
        coefficients_q12,
        quantized_q12,
        error_history_q0,
        weighting_history_q0,
        residual_q0,
        impulse_q12,
        target_q0,
        error_q0,
    ))
}

#[unsafe(no_mangle)]
pub extern "C" fn mr74_residual(
    coefficients_q12: &[i16],
    samples: &[i16],
    residual_q0: &mut [i16],
) -> LengthAnswer
    ensures { (result ≡ length_answer (residual coefficients_q12.now samples.now residual_q0.old).answer)
        × (residual_q0.new ≡ (residual coefficients_q12.now samples.now residual_q0.old).after) }
{
    length_answer(encoder_filtering::residual(coefficients_q12, samples, residual_q0))
}

// Of an entry that refuses by number 1 alone.
pub(crate) fn length_answer(answer: Result<(), Refusal>) -> LengthAnswer
    ensures { result ≡ length_answer (told answer) }
{
    match answer {
        Ok(()) => LengthAnswer::default(),
        Err(refusal) => LengthAnswer {
            number: refusal.number(),
            magnitude: Detail::from(refusal).magnitude,
        },
    }
}
