//! Why a conversation (the lines that a session reads, and its replies) fails. Printing a fault writes its number, and does not allocate.

use std::io::ErrorKind;
use thiserror::Error;

/// Why a conversation fails: a read or a write failed, memory was refused, or a bound was met.
#[derive(Clone, Copy, Debug, PartialEq, Eq, Error)]
pub enum SessionFault {
    /// 181: a read failed; the fault holds the error.
    #[error("181")]
    Failed(ErrorKind),
    /// 181: the allowed reads met no end; the fault has how many were interrupted.
    #[error("181")]
    Unending(u64),
    /// 182: the writer failed.
    #[error("182")]
    Write,
    /// 184: memory for a line of commands was refused.
    #[error("184")]
    Memory,
    /// 185: there were more bytes of commands than the limit that was given (67,108,864 in the program).
    #[error("185")]
    TooLong,
}
