// Why a line of the table is no case.
use std::alloc::AllocError;
use std::num::ParseIntError;
use thiserror::Error;

#[derive(Debug, Drop, Error)]
pub enum CaseFault {
    #[error("not a hex digit")]
    Digit,
    #[error("half a byte at the end of a hex string")]
    HalfByte,
    #[error("not a count")]
    Count(#[from] ParseIntError),
    #[error("too many bytes in a case")]
    TooLong,
    #[error("out of memory")]
    Memory(#[from(alloc)] AllocError),
}
