// The sizes that several crates need, with their names in TS 26.073's cnst.h.

// L_SUBFR
pub const SUBFRAME_SAMPLES: usize = 40;

// L_FRAME_BY2
pub const HALF_FRAME_SAMPLES: usize = 80;

// M: the order of linear prediction
pub const LPC_ORDER: usize = 10;

// MP1
pub const COEFFICIENTS: usize = 11;

// L_INTER_SRCH: the correlations on either side of a lag that its fractions need
pub const INTERPOLATION_SAMPLES: usize = 4;

// NB_TRACK
pub const TRACKS: usize = 5;

// L_CODE / NB_TRACK
pub const POSITIONS_PER_TRACK: usize = 8;
