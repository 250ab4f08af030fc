//! Why a text is refused as a log.

ghost use Rattle.std.specs.Prelude.{◌≡◌};
ghost use Rattle.psi_log_words.specs.Refusal.{code_of};
ghost use Rattle.psi_log_words.specs.declared.refusals.LogError.TheVariants.{Refused, OutOfMemory};

use std::alloc::{AllocError, AllocFailed};

/// Why a line is refused.
#[derive(Clone, Copy, PartialEq, Eq, Debug)]
pub enum LogCause {
    /// 1: line 1 doesn't begin with `psi-log ` and its space.
    NotLog,
    /// 2: line 1 goes on with anything but `1` or `2`.
    Version,
    /// 3: a number has another form than digits without a zero in front, or isn't in its range.
    Number,
    /// 4: the fixed words, the number of words or the number of pieces of a word aren't those of the line's
    /// form; or, where all numbers are right, a box, a set or a move isn't in its order.
    Shape,
    /// 5: a line is still to come, and no line feed is left.
    Truncated,
    /// 6: a byte follows the last line.
    TrailingText,
    /// 7: the text has more than 33,554,432 bytes.
    TooLong,
}

/// Why no log is given.
#[derive(Clone, Copy, PartialEq, Eq, Debug)]
pub enum LogError {
    /// The text is no log.
    Refused {
        /// The first line that is refused, counted from 1; 0 where the text is too long.
        line: u32,
        /// The number of the line's first cause, 1 to 7, as [`LogCause`] has them.
        cause: u8,
    },
    /// Memory ran out.
    OutOfMemory,
}

impl LogCause {
    /// Returns the number of the cause.
    pub fn code(self) -> u8
        ensures { result ≡ code_of self }
    {
        match self {
            LogCause::NotLog => 1,
            LogCause::Version => 2,
            LogCause::Number => 3,
            LogCause::Shape => 4,
            LogCause::Truncated => 5,
            LogCause::TrailingText => 6,
            LogCause::TooLong => 7,
        }
    }

    /// Returns the refusal of a line for this cause.
    pub fn at(self, line: u32) -> LogError
        ensures { result ≡ Refused line (code_of self) }
    {
        LogError::Refused {
            line,
            cause: self.code(),
        }
    }
}

impl From<AllocError> for LogError {
    ghost from_gives = { λ _ error. error ≡ OutOfMemory };

    fn from(_error: AllocError) -> LogError {
        LogError::OutOfMemory
    }
}

impl<T: Drop> From<AllocFailed<T>> for LogError {
    ghost from_gives = { λ _ error. error ≡ OutOfMemory };

    fn from(_error: AllocFailed<T>) -> LogError {
        LogError::OutOfMemory
    }
}
