// The limit of the pitch gain, from gain/quantization.rs: a choice, and the greatest pitch gain under it.
#![tactic(auto)]

ghost use Rattle.std.specs.Prelude.{◌≡◌};
ghost use Rattle.gain_limit.specs.Limits.{limit_number, gp_limit, limit_choice};
ghost use Rattle.refusal.specs.Refused.{told, put};

use refusal::Refusal;

#[derive(Clone, Copy, Debug, PartialEq, Eq)]
pub enum GainLimit {
    Unrestricted,
    Resonance,
}

impl GainLimit {
    pub const RESONANCE_Q14: i16 = 15565;

    #[tactic(auto, unfolding(crate::specs::Limits::limit_choice))]
    pub fn try_new(choice: u8) -> Result<GainLimit, Refusal>
        ensures { put limit_number (told result) ≡ limit_choice choice }
    {
        match choice {
            0 => Ok(GainLimit::Unrestricted),
            1 => Ok(GainLimit::Resonance),
            _ => Err(Refusal::LimitChoice(choice)),
        }
    }

    pub fn pitch_q14(self) -> i16
        ensures { result ≡ gp_limit (limit_number self) }
    {
        match self {
            GainLimit::Unrestricted => 32767,
            GainLimit::Resonance => GainLimit::RESONANCE_Q14,
        }
    }
}

impl From<GainLimit> for u8 {
    ghost from_gives = { λ limit result. result ≡ limit_number limit };

    fn from(limit: GainLimit) -> u8 {
        match limit {
            GainLimit::Unrestricted => 0,
            GainLimit::Resonance => 1,
        }
    }
}
