// The four lists of target filtering, TS 26.073 subframePreProc at 7.4 kbit/s, from `prepare` of encoder_filtering.rs.
#![tactic(auto)]

ghost use Rattle.std.specs.Prelude.{◌≡◌};
ghost use Rattle.fixed.specs.Lists.{part};
ghost use Rattle.synthesis_filter.specs.Synthesis.{Syn_filt};
ghost use Rattle.target_filtering.specs.Subframes.{impulse_response, target_of, subframePreProc, prepared};

use fixed::sizes::{COEFFICIENTS, LPC_ORDER, SUBFRAME_SAMPLES};

const GAMMA_ONE_Q15: [i16; 10] = [
    30802, 28954, 27217, 25584, 24049, 22606, 21250, 19975, 18777, 17650,
];

const GAMMA_TWO_Q15: [i16; 10] = [19661, 11797, 7078, 4247, 2548, 1529, 917, 550, 330, 198];

#[derive(Clone, Copy)]
pub struct PreparedSubframe {
    pub residual_q0: [i16; 40],
    pub impulse_q12: [i16; 40],
    pub target_q0: [i16; 40],
    pub error_q0: [i16; 40],
}

// Where a list has another length than 50, 11, 11, 10 and 10, all is 0.
#[tactic(auto, unfolding(crate::specs::Subframes::prepared))]
pub fn prepared(
    speech: &[i16],
    coefficients: &[i16],
    quantized: &[i16],
    error_history: &[i16],
    weighting_history: &[i16],
) -> PreparedSubframe
    ensures { result ≡ prepared speech.now coefficients.now quantized.now error_history.now weighting_history.now }
{
    match (
        speech.as_array(),
        coefficients.as_array(),
        quantized.as_array(),
        error_history.as_array(),
        weighting_history.as_array(),
    ) {
        (
            Some(speech),
            Some(coefficients),
            Some(quantized),
            Some(error_history),
            Some(weighting_history),
        ) => subframe(
            speech,
            coefficients,
            quantized,
            error_history,
            weighting_history,
        ),
        _ => PreparedSubframe {
            residual_q0: [0; SUBFRAME_SAMPLES],
            impulse_q12: [0; SUBFRAME_SAMPLES],
            target_q0: [0; SUBFRAME_SAMPLES],
            error_q0: [0; SUBFRAME_SAMPLES],
        },
    }
}

fn subframe(
    speech: &[i16; 50],
    coefficients: &[i16; 11],
    quantized: &[i16; 11],
    error_history: &[i16; 10],
    weighting_history: &[i16; 10],
) -> PreparedSubframe
    ensures { result ≡ subframePreProc speech.now coefficients.now quantized.now error_history.now weighting_history.now }
{
    let numerator = filters::weight(coefficients, &GAMMA_ONE_Q15);
    let denominator = filters::weight(coefficients, &GAMMA_TWO_Q15);
    let residual = filters::filtered(quantized, speech);
    let error = synthesis_filter::synthesis(quantized, &residual, error_history);
    PreparedSubframe {
        residual_q0: residual,
        impulse_q12: impulse_response(&numerator, &denominator, quantized),
        target_q0: target_of(&numerator, &denominator, &error, weighting_history),
        error_q0: synthesis_filter::put_out(&error),
    }
}

#[tactic(auto, unfolding(crate::specs::Subframes::impulse_response))]
fn impulse_response(
    numerator: &[i16; 11],
    denominator: &[i16; 11],
    quantized: &[i16; 11],
) -> [i16; 40]
    ensures { result ≡ impulse_response numerator.now denominator.now quantized.now }
{
    let silence = [0; LPC_ORDER];
    let unweighted = synthesized(quantized, &extended(numerator), &silence);
    synthesized(denominator, &unweighted, &silence)
}

// Eleven coefficients and then zeros.
fn extended(coefficients: &[i16; 11]) -> [i16; 40]
    ensures { result ≡ part coefficients.now 0 40 }
{
    let mut words = [0; SUBFRAME_SAMPLES];
    words[..COEFFICIENTS].copy_from_slice(coefficients);
    words
}

fn target_of(
    numerator: &[i16; 11],
    denominator: &[i16; 11],
    error: &[i16; 50],
    history: &[i16; 10],
) -> [i16; 40]
    ensures { result ≡ target_of numerator.now denominator.now error.now history.now }
{
    synthesized(denominator, &filters::filtered(numerator, error), history)
}

// TS 26.073 Syn_filt: what the filter puts out after its past.
fn synthesized(coefficients: &[i16; 11], excitation: &[i16; 40], past: &[i16; 10]) -> [i16; 40]
    ensures { result ≡ Syn_filt coefficients.now excitation.now past.now }
{
    synthesis_filter::put_out(&synthesis_filter::synthesis(coefficients, excitation, past))
}
