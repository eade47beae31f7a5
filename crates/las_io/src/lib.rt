//! The outside, for programs that stay right whatever it does. A `Source` gives bytes, a `Sink` takes them,
//! and a `Shelf` keeps files by their names. Each counts its faults, so that no failure is answered which was
//! not counted, and tells its bytes where it can: those in memory do, the standard streams and a folder of
//! the system do not. A source and a shelf also count the bytes that they have given. `read_all`, `write_all`
//! and `fetch_all` move whole inputs, outputs and files over any of them.
#![tactic(auto)]

mod dir_shelf;
mod mem_shelf;
mod mem_sink;
mod mem_source;
mod named_file;
mod std_sink;
mod std_source;
mod stream_fault;
#[cfg(test)]
mod tests;
mod traits;
mod whole;
mod whole_file;

pub use dir_shelf::DirShelf;
pub use mem_shelf::MemShelf;
pub use mem_sink::MemSink;
pub use mem_source::MemSource;
pub use named_file::{NamedFile, is_lawful_name};
pub use std_sink::{StdSink, Stream};
pub use std_source::StdSource;
pub use traits::{Failed, IoBad, Shelf, Sink, Source};
pub use whole::{ReadRefused, WriteRefused, read_all, write_all};
pub use whole_file::{FetchRefused, fetch_all};
