// The closed-loop pitch search, and its preview, over a lent searcher: thin entries over the by-value ones.
#![tactic(auto)]

ghost use Rattle.std.specs.Prelude.{◌≡◌};
ghost use Rattle.refusal.specs.Refused.{told};
ghost use Rattle.pitch_search.specs.Searches.{Pitch_fr};
ghost use Rattle.pitch_search.specs.Previews.{preview_of};

use pitch_search::{Search, SearchedPitch};
use refusal::Refusal;

// The searcher is lent by its caller and updated there.
pub fn search_lent(
    searcher: &mut Search,
    excitation: &[i16],
    target: &[i16],
    impulse_q12: &[i16],
    first: u16,
    second: u16,
    subframe: u8,
) -> Result<SearchedPitch, Refusal>
    ensures { (told result ≡ (Pitch_fr searcher.old excitation.now target.now impulse_q12.now first second subframe).answer)
        × (searcher.new ≡ (Pitch_fr searcher.old excitation.now target.now impulse_q12.now first second subframe).after) }
{
    let step = (*searcher).search(excitation, target, impulse_q12, first, second, subframe);
    *searcher = step.after;
    step.answer
}

// The searcher is lent to be read, so it stays as it was.
pub fn preview_lent(
    searcher: &Search,
    excitation: &[i16],
    target: &[i16],
    impulse_q12: &[i16],
    first: u16,
    second: u16,
    subframe: u8,
) -> Result<SearchedPitch, Refusal>
    ensures { told result ≡ (preview_of searcher.now excitation.now target.now impulse_q12.now first second subframe).answer }
{
    let step = (*searcher).preview(excitation, target, impulse_q12, first, second, subframe);
    step.answer
}
