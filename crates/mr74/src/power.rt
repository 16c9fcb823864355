// Logarithm and power to the base 2.
ghost use Rattle.std.specs.Prelude.{◌≡◌};
ghost use Rattle.logarithm.specs.Logarithms.{Log2};
ghost use Rattle.logarithm.specs.Powers.{Pow2};
ghost use Rattle.mr74.specs.Powers.{power_answer};

use crate::details::Detail;
use logarithm::Logarithm;

#[repr(C)]
#[derive(Clone, Copy, Default)]
pub struct PowerAnswer {
    pub number: u8,
    pub negative: bool,
    pub magnitude: u64,
    pub value: i32,
}

#[unsafe(no_mangle)]
pub extern "C" fn mr74_log2(value: i32) -> Logarithm
    ensures { result ≡ Log2 value }
{
    logarithm::log2(value)
}

#[tactic(auto, unfolding(crate::specs::Powers::power_answer))]
#[unsafe(no_mangle)]
pub extern "C" fn mr74_pow2(exponent: u8, fraction_q15: u16) -> PowerAnswer
    ensures { result ≡ power_answer (Pow2 exponent fraction_q15) }
{
    match logarithm::pow2(exponent, fraction_q15) {
        Ok(value) => PowerAnswer {
            value,
            ..Default::default()
        },
        Err(refusal) => {
            let detail = Detail::from(refusal);
            PowerAnswer {
                number: refusal.number(),
                negative: detail.negative,
                magnitude: detail.magnitude,
                ..Default::default()
            }
        }
    }
}
