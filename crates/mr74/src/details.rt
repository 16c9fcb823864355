// A refusal's detail as C reads it: no integer of C holds every one.
ghost use Rattle.std.specs.Prelude.{◌≡◌};
ghost use Rattle.refusal.specs.Refused.{detail};
ghost use Rattle.mr74.specs.Details.{sign_magnitude};

use refusal::Refusal;

#[derive(Clone, Copy)]
pub(crate) struct Detail {
    pub(crate) negative: bool,
    pub(crate) magnitude: u64,
}

impl From<Refusal> for Detail {
    ghost from_gives = { λ refusal result. result ≡ sign_magnitude (detail refusal) };

    fn from(refusal: Refusal) -> Self {
        let detail = refusal.detail();
        Detail {
            negative: detail < 0,
            magnitude: detail.unsigned_abs() as u64,
        }
    }
}
