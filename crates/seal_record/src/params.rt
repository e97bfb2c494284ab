//! The secured parameters, and what may be wrong with their text.
use arrayvec::ArrayVec;
use drive_modes::{Constant, Mode};
use interval_clock::Offsets;
use thiserror::Error;

/// How many characters a taxi identifier has at most.
pub(crate) const LONGEST_TAXI: usize = 16;

/// How long a trip may be held without supply at most, in seconds.
pub(crate) const LONGEST_HOLD: u16 = 600;

/// How many pairs a list of offsets has at most.
pub(crate) const MOST_OFFSETS: usize = 32;

/// The day number of 2000-01-01, before which nothing is secured.
pub const FIRST_DAY: i32 = 10_957;

/// The day number of 2199-12-31, after which nothing is secured.
pub const LAST_DAY: i32 = 84_005;

/// The secured settings of a taximeter.
#[derive(Drop)]
pub struct Params {
    /// The taxi identifier: 1 to 16 characters of A to Z, 0 to 9 and `-`.
    pub taxi: ArrayVec<u8, LONGEST_TAXI>,
    /// The constant of the distance signal generator.
    pub constant: Constant,
    /// How time and distance are charged.
    pub mode: Mode,
    /// How long a trip may be held without supply and go on then, 0 to 600 seconds.
    pub hold_time: u16,
    /// The offsets from UTC that give local time.
    pub offsets: Offsets,
    /// The day number of the date of securing, of the years 2000 to 2199: 10,957 to 84,005.
    pub secured: i32,
}

/// A parameter, by its key.
#[derive(Clone, Copy, Debug)]
pub enum Name {
    Taxi,
    Constant,
    Mode,
    Hold,
    Offset,
    Secured,
}

/// Why a text gives no parameters. A line counts from 1, and empty lines and comments count too.
#[derive(Clone, Copy, Debug, Error)]
pub enum ParamFault {
    /// The text has more than 65,536 bytes.
    #[error("the text has more than 65536 bytes")]
    TooLong,
    /// The key of this line is no parameter's.
    #[error("line {0}: unknown key")]
    Unknown(u32),
    /// The value of this line is not of its parameter's form, or its offset breaks a rule of lists of
    /// offsets.
    #[error("line {0}: bad value")]
    BadValue(u32),
    /// This parameter, which is not the offset, is given a second time.
    #[error("{0:?} is given twice")]
    Twice(Name),
    /// No line gives this parameter.
    #[error("{0:?} is missing")]
    Missing(Name),
}
