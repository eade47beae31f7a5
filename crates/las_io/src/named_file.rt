// A file of a shelf in memory, and the names that files may have.
ghost use Rattle.std.specs.Prelude.{◌≡◌, [], ◌++◌, IsErr, MatchResult, string_bytes};
ghost use Rattle.std.specs.List.{list_all};
ghost use Rattle.las_io.specs.Names.{is_lawful_name, is_letter_or_digit, is_name_byte};

use std::alloc::{AllocError, Global};
use std::marker::Model;

/// Whether a file may have this name: 1 to 64 characters out of A to Z, a to z, 0 to 9, `.`, `_` and `-`,
/// the first of them a letter or a digit.
pub fn is_lawful_name(name: &str) -> bool
    ensures { result ≡ is_lawful_name name.now }
{
    match name.as_bytes() {
        [] => false,
        [first, rest @ ..] => {
            is_letter_or_digit(*first) && rest.len() <= 63 && are_name_bytes(rest)
        }
    }
}

fn is_letter_or_digit(byte: u8) -> bool
    ensures { result ≡ is_letter_or_digit byte }
{
    matches!(byte, b'A'..=b'Z' | b'a'..=b'z' | b'0'..=b'9')
}

fn is_name_byte(byte: u8) -> bool
    ensures { result ≡ is_name_byte byte }
{
    is_letter_or_digit(byte) || byte == b'.' || byte == b'_' || byte == b'-'
}

fn are_name_bytes(bytes: &[u8]) -> bool
    ensures { result ≡ list_all is_name_byte bytes.now }
{
    bytes.iter().all(|byte| is_name_byte(*byte))
}

/// A name and the bytes that stand under it.
#[derive(Drop)]
pub struct NamedFile {
    name: String,
    bytes: Vec<u8>,
}

impl Model for NamedFile {
    ghost use Rattle.std.specs.Prelude.{string_bytes};
    ghost use Rattle.las_io.specs.Shelves.{File};

    ghost Value = { File };

    ghost view = { λ f. (string_bytes f.name, f.bytes.items) };
}

impl NamedFile {
    pub fn new(name: String, bytes: Vec<u8>) -> NamedFile
        ensures { result ≡ (string_bytes name, bytes.items) }
    {
        NamedFile { name, bytes }
    }

    pub(crate) fn name(&self) -> &str
        ensures { result.now ≡ self.now.0 }
    {
        self.name.as_str()
    }

    pub(crate) fn bytes(&self) -> &[u8]
        ensures { result.now ≡ self.now.1 }
    {
        &self.bytes
    }

    pub(crate) fn clear(&mut self)
        ensures { self.new ≡ (self.old.0, []) }
    {
        self.bytes.clear();
    }

    // Where memory is refused, the file is as before.
    pub(crate) fn grow(&mut self, piece: &[u8]) -> Result<(), AllocError>
        ensures { MatchResult result
            (λ _. self.new ≡ (self.old.0, self.old.1 ++ piece.now))
            (λ _. self.new ≡ self.old) }
    {
        self.bytes.extend_from_slice(piece)
    }
}
