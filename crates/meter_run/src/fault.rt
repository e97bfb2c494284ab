//! Why a drive wasn't carried out to its end.
use thiserror::Error;

/// Why a drive wasn't carried out to its end.
#[derive(Clone, Copy, Debug, Error)]
pub enum RunFault {
    /// A read of the drive failed.
    #[error("a read of the drive failed")]
    ReadFault,
    /// The board failed.
    #[error("the board failed")]
    BoardFault,
    /// The line of this number, from 1, is no line of a drive.
    #[error("line {0} is no line of a drive")]
    BadDrive(u64),
    /// As many bytes as a drive may have were taken, and its end wasn't told.
    #[error("the drive is too long")]
    TooLong,
}
