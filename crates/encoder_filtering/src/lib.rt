// The entries of target filtering, from encoder_filtering.rs.
#![tactic(auto)]

ghost use Rattle.std.specs.Prelude.{◌≡◌};
ghost use Rattle.refusal.specs.Refused.{told};
ghost use Rattle.encoder_filtering.specs.Subframes.{lists, residual, prepare};

use fixed::sizes::{COEFFICIENTS, LPC_ORDER, SUBFRAME_SAMPLES};
use refusal::Refusal;

const INPUT_SAMPLES: usize = 50;

// Error and weighting histories stay as they are until quantized excitation is committed.
#[tactic(auto, using(target_filtering::proofs::Lengths::prepared_whole), unfolding(crate::specs::Subframes::prepare))]
pub fn prepare(
    speech_q0: &[i16],
    coefficients_q12: &[i16],
    quantized_q12: &[i16],
    error_history_q0: &[i16],
    weighting_history_q0: &[i16],
    residual_q0: &mut [i16],
    impulse_q12: &mut [i16],
    target_q0: &mut [i16],
    error_q0: &mut [i16],
) -> Result<(), Refusal>
    ensures { (told result ≡ (prepare speech_q0.now coefficients_q12.now quantized_q12.now error_history_q0.now weighting_history_q0.now (lists residual_q0.old impulse_q12.old target_q0.old error_q0.old)).answer)
        × (lists residual_q0.new impulse_q12.new target_q0.new error_q0.new ≡ (prepare speech_q0.now coefficients_q12.now quantized_q12.now error_history_q0.now weighting_history_q0.now (lists residual_q0.old impulse_q12.old target_q0.old error_q0.old)).after) }
{
    refusal::of_length::<INPUT_SAMPLES>(speech_q0)?;
    refusal::of_length::<COEFFICIENTS>(coefficients_q12)?;
    refusal::of_length::<COEFFICIENTS>(quantized_q12)?;
    refusal::of_length::<LPC_ORDER>(error_history_q0)?;
    refusal::of_length::<LPC_ORDER>(weighting_history_q0)?;
    refusal::of_length::<SUBFRAME_SAMPLES>(residual_q0)?;
    refusal::of_length::<SUBFRAME_SAMPLES>(impulse_q12)?;
    refusal::of_length::<SUBFRAME_SAMPLES>(target_q0)?;
    refusal::of_length::<SUBFRAME_SAMPLES>(error_q0)?;
    let prepared = target_filtering::prepared(
        speech_q0,
        coefficients_q12,
        quantized_q12,
        error_history_q0,
        weighting_history_q0,
    );
    residual_q0.copy_from_slice(&prepared.residual_q0);
    impulse_q12.copy_from_slice(&prepared.impulse_q12);
    target_q0.copy_from_slice(&prepared.target_q0);
    error_q0.copy_from_slice(&prepared.error_q0);
    Ok(())
}

// TS 26.073 Residu. The samples begin with the ten before the subframe, oldest first.
#[tactic(auto, using(filters::proofs::Lengths::filtered_whole), unfolding(crate::specs::Subframes::residual))]
pub fn residual(
    coefficients_q12: &[i16],
    samples: &[i16],
    residual_q0: &mut [i16],
) -> Result<(), Refusal>
    ensures { (told result ≡ (residual coefficients_q12.now samples.now residual_q0.old).answer)
        × (residual_q0.new ≡ (residual coefficients_q12.now samples.now residual_q0.old).after) }
{
    refusal::of_length::<COEFFICIENTS>(coefficients_q12)?;
    refusal::of_length::<INPUT_SAMPLES>(samples)?;
    refusal::of_length::<SUBFRAME_SAMPLES>(residual_q0)?;
    residual_q0.copy_from_slice(&filters::filtered(coefficients_q12, samples));
    Ok(())
}
