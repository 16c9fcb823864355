// Pitch lags, from pitch.rs: the kinds of lag, the search windows, and the index rules in both directions.
#![tactic(auto)]

ghost use Rattle.std.specs.Prelude.{[], ◌≡◌, ◌∷◌, ◌≤◌};
ghost use Rattle.refusal.specs.Refused.{values, refused, told, put};
ghost use Rattle.refusal.specs.Checks.{checked, known_subframe};
ghost use Rattle.pitch.specs.Kinds.{thirds, from_zero, fresh_lag, subframe_number, absolute, following, upper_samples, told_lag, try_within, try_lag};
ghost use Rattle.pitch.specs.Windows.{window_start, absolute_start, relative_start};
ghost use Rattle.pitch.specs.Indexes.{absolute_index, relative_index, fraction_at, absolute_lag, relative_lag, index_of, lag_of};

use refusal::Refusal;

const INITIAL_LAG_SAMPLES: u16 = 40;

const FRACTIONAL_INDEX_LIMIT: u16 = 197;

const DIRECT_LAG_OFFSET: u16 = 112;

const FRACTIONAL_LAG_BASE: u16 = 19;

const INTEGER_ENCODING_LIMIT: u32 = 85;

const INTEGER_INDEX_BIAS: u32 = 112;

// 58, and 1 since the fraction is counted from 0.
const ABSOLUTE_INDEX_BIAS: u32 = 59;

// The windows: 7 lags from 3 below an open-loop lag, 10 from 5 below the previous whole lag.
const ABSOLUTE_SPAN: u16 = 6;

const ABSOLUTE_RADIUS: u16 = 3;

const RELATIVE_SPAN: u16 = 9;

const RELATIVE_RADIUS: u16 = 5;

// Thirds of a sample.
#[derive(Clone, Copy, Debug, PartialEq, Eq)]
pub enum Fraction {
    MinusThird,
    Zero,
    PlusThird,
}

impl From<Fraction> for i16 {
    ghost from_gives = { λ fraction result. result ≡ thirds fraction };

    fn from(fraction: Fraction) -> i16 {
        match fraction {
            Fraction::MinusThird => -1,
            Fraction::Zero => 0,
            Fraction::PlusThird => 1,
        }
    }
}

impl Fraction {
    // Counted from 0.
    pub fn from_zero(self) -> u32
        ensures { result ≡ from_zero self }
    {
        match self {
            Fraction::MinusThird => 0,
            Fraction::Zero => 1,
            Fraction::PlusThird => 2,
        }
    }

    fn at(index: u8) -> Self
        ensures { result ≡ fraction_at index }
    {
        match index % 3 {
            0 => Fraction::PlusThird,
            1 => Fraction::MinusThird,
            _ => Fraction::Zero,
        }
    }
}

#[derive(Clone, Copy, Debug, PartialEq, Eq)]
pub enum Subframe {
    One,
    Two,
    Three,
    Four,
}

impl From<Subframe> for u8 {
    ghost from_gives = { λ subframe result. result ≡ subframe_number subframe };

    fn from(subframe: Subframe) -> u8 {
        match subframe {
            Subframe::One => 1,
            Subframe::Two => 2,
            Subframe::Three => 3,
            Subframe::Four => 4,
        }
    }
}

impl TryFrom<u8> for Subframe {
    type Error = Refusal;

    ghost try_from_gives = { λ number result. put subframe_number (told result) ≡ checked (known_subframe number ∷ []) refused (values number) };

    fn try_from(number: u8) -> Result<Self, Refusal> {
        match number {
            1 => Ok(Subframe::One),
            2 => Ok(Subframe::Two),
            3 => Ok(Subframe::Three),
            4 => Ok(Subframe::Four),
            _ => Err(Refusal::Subframe(number)),
        }
    }
}

impl Subframe {
    // Subframes one and three send a lag by itself, two and four beside the lag before.
    pub fn absolute(self) -> bool
        ensures { result ≡ absolute self }
    {
        matches!(self, Subframe::One | Subframe::Three)
    }

    pub fn next(self) -> Self
        ensures { result ≡ following self }
    {
        match self {
            Subframe::One => Subframe::Two,
            Subframe::Two => Subframe::Three,
            Subframe::Three => Subframe::Four,
            Subframe::Four => Subframe::One,
        }
    }
}

// A lag that the open loop may answer: made by `try_within` alone.
#[derive(Clone, Copy, Debug, PartialEq, Eq)]
pub struct OpenLoopLag(u16);

impl OpenLoopLag {
    pub const MIN: u16 = 20;

    pub const MAX: u16 = 143;

    pub fn try_new(samples: u16) -> Result<Self, Refusal>
        ensures { told_lag result ≡ try_lag samples }
    {
        OpenLoopLag::try_within(samples, UpperLag::Handset)
    }

    // One that a searcher takes whose upper lag is this one.
    pub fn try_within(samples: u16, upper: UpperLag) -> Result<Self, Refusal>
        ensures { told_lag result ≡ try_within (upper_samples upper) samples }
    {
        if samples < OpenLoopLag::MIN || upper.samples() < samples {
            return Err(Refusal::OpenLoopLag(samples));
        }
        Ok(OpenLoopLag(samples))
    }

    pub fn samples(self) -> u16
        ensures { result ≡ self.0 }
    {
        self.0
    }
}

// The upper end of the open-loop lags that a searcher takes, and of its windows. Only these two can be written.
#[derive(Clone, Copy, Debug, PartialEq, Eq)]
pub enum UpperLag {
    // The announcement player.
    Player,
    Handset,
}

impl UpperLag {
    pub const PLAYER: u16 = 120;

    pub const HANDSET: u16 = OpenLoopLag::MAX;

    pub fn samples(self) -> u16
        ensures { result ≡ upper_samples self }
    {
        match self {
            UpperLag::Player => UpperLag::PLAYER,
            UpperLag::Handset => UpperLag::HANDSET,
        }
    }
}

// Whole samples and a fraction of one.
#[derive(Clone, Copy, Debug, PartialEq, Eq)]
pub struct PitchLag {
    pub samples: u16,
    pub fraction: Fraction,
}

impl PitchLag {
    // TS 26.073 Dec_lag3, subframes one and three.
    pub fn from_absolute(index: u8) -> Self
        ensures { result ≡ absolute_lag index }
    {
        let wide = index as u16;
        if wide < FRACTIONAL_INDEX_LIMIT {
            let fraction = Fraction::at(index);
            return PitchLag {
                samples: (wide + 2) / 3 + FRACTIONAL_LAG_BASE,
                fraction,
            };
        }
        PitchLag {
            samples: wide - DIRECT_LAG_OFFSET,
            fraction: Fraction::Zero,
        }
    }

    // TS 26.073 Dec_lag3, subframes two and four: the rule of every index, as in the Rust. Above 31 the lag reader refuses.
    fn relative(index: u8, previous: u16, upper: UpperLag) -> Self
        ensures { result ≡ relative_lag (relative_start (upper_samples upper) previous) index }
    {
        let start = Window::relative(previous, upper).start;
        let fraction = Fraction::at(index);
        PitchLag {
            samples: start + (index as u16 + 2) / 3 - 1,
            fraction,
        }
    }

    // The lag of an index in a subframe, after the whole lag `previous`.
    pub fn decoded(subframe: Subframe, index: u8, previous: u16, upper: UpperLag) -> Self
        ensures { result ≡ lag_of (upper_samples upper) subframe previous index }
    {
        if subframe.absolute() {
            return PitchLag::from_absolute(index);
        }
        PitchLag::relative(index, previous, upper)
    }

    // Its index in a subframe, in a window that starts at `start`.
    pub fn index(self, subframe: Subframe, start: u16) -> u32
        ensures { result ≡ index_of subframe start self }
    {
        if subframe.absolute() {
            return self.absolute_index();
        }
        self.relative_index(start)
    }

    // TS 26.073 Enc_lag3, subframes one and three.
    pub fn absolute_index(self) -> u32
        ensures { result ≡ absolute_index self }
    {
        let samples = self.samples as u32;
        if INTEGER_ENCODING_LIMIT < samples {
            return samples + INTEGER_INDEX_BIAS;
        }
        let fraction = self.fraction;
        (3 * samples + fraction.from_zero()).saturating_sub(ABSOLUTE_INDEX_BIAS)
    }

    // TS 26.073 Enc_lag3, subframes two and four.
    pub fn relative_index(self, start: u16) -> u32
        ensures { result ≡ relative_index start self }
    {
        let fraction = self.fraction;
        (3 * self.samples as u32 + fraction.from_zero() + 1).saturating_sub(3 * start as u32)
    }
}

// The lags that a search goes through, from `start` to start + span.
#[derive(Clone, Copy, Debug, PartialEq, Eq)]
pub struct Window {
    pub start: u16,
    pub span: u16,
}

impl Window {
    // Of 7 lags round an open-loop lag.
    pub fn absolute(centre: u16, upper: UpperLag) -> Self
        ensures { result ≡ record { start = absolute_start (upper_samples upper) centre; span = 6 } }
    {
        Window::around(centre, ABSOLUTE_RADIUS, ABSOLUTE_SPAN, upper)
    }

    // Of 10 lags round the lag before.
    pub fn relative(previous: u16, upper: UpperLag) -> Self
        ensures { result ≡ record { start = relative_start (upper_samples upper) previous; span = 9 } }
    {
        Window::around(previous, RELATIVE_RADIUS, RELATIVE_SPAN, upper)
    }

    // From `radius` below the centre, held so that its lags lie from 20 to the upper lag.
    fn around(centre: u16, radius: u16, span: u16, upper: UpperLag) -> Self
        requires { span ≤ 100 }
        ensures { result ≡ record { start = window_start span radius (upper_samples upper) centre; span = span } }
    {
        let start = centre
            .saturating_sub(radius)
            .clamp(OpenLoopLag::MIN, upper.samples() - span);
        Window { start, span }
    }
}

// The lag of a fresh searcher and of a fresh reader.
pub fn fresh_lag() -> PitchLag
    ensures { result ≡ fresh_lag }
{
    PitchLag {
        samples: INITIAL_LAG_SAMPLES,
        fraction: Fraction::Zero,
    }
}
