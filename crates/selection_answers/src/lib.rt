// What a record answers, with the fields that the program prints, from 01, 'Feed and program'.
#![tactic(auto)]

ghost use Rattle.std.specs.Prelude.{List, ◌≡◌, ℤ};
ghost use Rattle.selection_answers.specs.Lines.{hertz, open_line, pitch_line, pulse_line, gain_line, lag_line, line_of};

use codebook_code::PulseWords;
use gain::QuantizedGain;
use pitch::{OpenLoopLag, PitchLag};
use pitch_search::SearchedPitch;

// Thirds of a sample in a second.
const THIRDS_PER_SECOND: u32 = 24000;

// What a record answers where nothing is refused. There is no answer where the feed ends, and none where a body has not its kind's length.
#[derive(Clone, Copy, Debug, PartialEq, Eq)]
pub enum Answer {
    Reset,
    Open(OpenLoopLag),
    Pitch {
        index: u8,
        lag: PitchLag,
        hertz: u16,
    },
    Pulses(PulseWords),
    Gain(QuantizedGain),
    // Its 160 words stand beside it.
    Filter,
    Lag {
        lag: PitchLag,
        hertz: u16,
    },
}

// ---- The answer of each stage. The words beside an answer count for `Filter` alone: here they are any list.

impl From<OpenLoopLag> for Answer {
    ghost from_gives = { λ lag result. (ws : List ℤ) → line_of result ws ≡ open_line lag.0 };

    fn from(lag: OpenLoopLag) -> Self {
        Answer::Open(lag)
    }
}

impl From<SearchedPitch> for Answer {
    ghost from_gives = { λ pitch result. (ws : List ℤ) → line_of result ws ≡ pitch_line pitch };

    fn from(pitch: SearchedPitch) -> Self {
        Answer::Pitch {
            index: pitch.index,
            lag: pitch.lag,
            hertz: hertz(pitch.lag),
        }
    }
}

impl From<PulseWords> for Answer {
    ghost from_gives = { λ words result. (ws : List ℤ) → line_of result ws ≡ pulse_line words };

    fn from(words: PulseWords) -> Self {
        Answer::Pulses(words)
    }
}

impl From<QuantizedGain> for Answer {
    ghost from_gives = { λ row result. (ws : List ℤ) → line_of result ws ≡ gain_line row };

    fn from(row: QuantizedGain) -> Self {
        Answer::Gain(row)
    }
}

// Of the lag reader.
impl From<PitchLag> for Answer {
    ghost from_gives = { λ lag result. (ws : List ℤ) → line_of result ws ≡ lag_line lag };

    fn from(lag: PitchLag) -> Self {
        Answer::Lag {
            lag,
            hertz: hertz(lag),
        }
    }
}

// `above` is the lag in thirds and 1 more, since the fraction is counted from 0.
fn hertz(lag: PitchLag) -> u16
    ensures { result ≡ hertz lag }
{
    let above = 3 * lag.samples as u32 + lag.fraction.from_zero();
    if above <= 1 {
        return 0;
    }
    (THIRDS_PER_SECOND / (above - 1)) as u16
}
