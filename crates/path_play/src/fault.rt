//! Why a line of a run cannot be played.
use clog_base::OutOfMemory;
use std::alloc::{AllocError, AllocFailed};
use thiserror::Error;

#[derive(Clone, Copy, Debug, Error)]
pub(crate) enum Fault {
    #[error("the line ends too early")]
    MissingWord,
    #[error("a word that is not known at its place")]
    UnknownWord,
    #[error("a word that is no number, or a number that is too large for its place")]
    NoNumber,
    #[error("a table is a number below 16")]
    NoTable,
    #[error("sizes outside their limits")]
    Sizes,
    #[error("no path: a line that begins with `path` is to come first in each run")]
    NoPath,
    #[error("out of memory")]
    OutOfMemory,
}

impl From<AllocError> for Fault {
    fn from(_: AllocError) -> Self {
        Fault::OutOfMemory
    }
}

impl<T: Drop> From<AllocFailed<T>> for Fault {
    fn from(_: AllocFailed<T>) -> Self {
        Fault::OutOfMemory
    }
}

impl From<OutOfMemory> for Fault {
    fn from(_: OutOfMemory) -> Self {
        Fault::OutOfMemory
    }
}
