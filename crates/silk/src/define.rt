// The constants of `define.rs` that the quantiser names.

// The prediction filter's taps, at most, and the words that it keeps from one subframe to the next.
pub const MAX_LPC_ORDER: usize = 16;

pub const NSQ_LPC_BUF_LENGTH: usize = MAX_LPC_ORDER;

// The shaping filter's taps, at most.
pub const MAX_SHAPE_LPC_ORDER: usize = 24;

// The samples for which a path's pulses are held back, at most, which is the length of its rings.
pub const DECISION_DELAY: usize = 40;

// Taps of the long-term predictor, and of the harmonic shaping filter.
pub const LTP_ORDER: usize = 5;

pub const HARM_SHAPE_FIR_TAPS: usize = 3;

// The signal type of a voiced frame.
pub const TYPE_VOICED: i32 = 2;
