// Why a call on a standard stream or on a file failed. It is counted, and never shown.

use std::io;
use thiserror::Error;

#[derive(Debug, Drop, Error)]
pub(crate) enum StreamFault {
    #[error("the stream failed: {0}")]
    Stream(#[from] io::Error),
    #[error("the stream took nothing of a piece that is not empty")]
    NothingTaken,
    #[error("the stream was interrupted at every try")]
    Interrupted,
    #[error("what stands under the name is no file")]
    NoFile,
}
