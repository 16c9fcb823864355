// A search's window and the choice in it, TS 26.073 Pitch_fr at 7.4 kbit/s, from pitch/search.rs.
#![tactic(auto)]

ghost use Rattle.std.specs.Prelude.{◌≡◌};
ghost use Rattle.pitch.specs.Kinds.{upper_samples};
ghost use Rattle.pitch_window.specs.Windows.{centre_of, start_round, span_of, pitch_in};

use fixed::sizes::INTERPOLATION_SAMPLES;
use pitch::{PitchLag, Subframe, UpperLag, Window};

// First and second are the open-loop lags of the two half frames, previous is the whole lag before.
pub fn centre(subframe: Subframe, previous: u16, first: u16, second: u16) -> u16
    ensures { result ≡ centre_of subframe previous first second }
{
    match subframe {
        Subframe::One => first,
        Subframe::Three => second,
        Subframe::Two | Subframe::Four => previous,
    }
}

pub fn window(subframe: Subframe, centre: u16, upper: UpperLag) -> Window
    ensures { result ≡ record { start = start_round (upper_samples upper) subframe centre; span = span_of subframe } }
{
    if subframe.absolute() {
        return Window::absolute(centre, upper);
    }
    Window::relative(centre, upper)
}

// The lag and the fraction chosen in that window. Lists of other lengths have the correlations 0.
#[tactic(auto, using(pitch::proofs::Uppers::upper_from_40, pitch::proofs::Uppers::upper_to_143, crate::proofs::Sendings::start_low, crate::proofs::Sendings::start_high, pitch_choice::proofs::Choosings::choose_in), unfolding(crate::specs::Windows::pitch_in))]
pub fn chosen_lag(
    subframe: Subframe,
    centre: u16,
    upper: UpperLag,
    excitation: &[i16],
    target: &[i16],
    impulse: &[i16],
) -> PitchLag
    ensures { result ≡ pitch_in subframe (start_round (upper_samples upper) subframe centre) excitation.now target.now impulse.now }
{
    let window = window(subframe, centre, upper);
    let low = window.start as usize;
    let correlation = pitch_correlation::normalized_correlation(
        excitation,
        target,
        impulse,
        low - INTERPOLATION_SAMPLES,
        low + window.span as usize + INTERPOLATION_SAMPLES + 1,
    );
    pitch_choice::choose(subframe, &correlation, window)
}
