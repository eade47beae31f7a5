// The files of one folder, as a shelf that tells no contents. What is appended is gathered, and written when
// there is much of it or when the file is finished: a log has many short lines.
ghost use Rattle.std.specs.Prelude.{◌≡◌, ◌<◌, ◌≤◌, ◌++◌, ⊤, codes, length, is_some, IsSome, IsTrue, None, Some, IfOk, IfSome, MatchResult, unwrap_or, string_bytes};
ghost use Rattle.las_io.specs.Counts.{HasFaultCause, Rose};
ghost use Rattle.las_io.specs.Names.{is_lawful_name};
ghost use Rattle.las_io.specs.Shelves.{FetchCounts, begun_after};
ghost use Rattle.las_io.specs.Streams.{folder_after_fault};

use crate::stream_fault::StreamFault;
use crate::{IoBad, Shelf};
use std::alloc::{AllocError, Global};
use std::fs;
use std::fs::{File, OpenFile};
use std::io::{BufWriter, ErrorKind, Read, Seek, SeekFrom, Write};
use std::marker::Model;
use std::rt::Files;

// How many bytes are gathered before they are written.
const GATHERED: usize = 65_536;

/// A folder of the system. Its two counts stop at the last value of `u64`.
#[derive(Drop)]
pub struct DirShelf<R: Files + Drop> {
    alloc: Global,
    system: R,
    folder: String,
    begun: Option<Begun<R::File>>,
    given: u64,
    faults: u64,
}

// The file that is begun, and its name.
#[derive(Drop)]
struct Begun<F: Write + Drop> {
    file: BufWriter<F>,
    name: String,
}

impl<R: Files + Drop> Model for DirShelf<R> {
    ghost use Rattle.std.specs.Prelude.{option_map, string_bytes};
    ghost use Rattle.las_io.specs.Streams.{FolderShelf};

    ghost Value = { FolderShelf };

    ghost view = { λ s. record {
      folder = string_bytes s.folder;
      begun = option_map (λ b. string_bytes b.name) s.begun;
      given = s.given;
      faults = s.faults;
    } };
}

impl<R: Files + Drop> DirShelf<R> {
    pub fn new(alloc: Global, system: R, folder: &str) -> Result<DirShelf<R>, AllocError>
        ensures { IfOk result (λ s. s ≡ record { folder = folder.now; begun = None; given = 0; faults = 0 }) }
    {
        let folder = String::from_str(alloc, folder)?;
        Ok(DirShelf {
            alloc,
            system,
            folder,
            begun: None,
            given: 0,
            faults: 0,
        })
    }

    // Where the file of this name stands.
    fn path_of(&self, name: &str) -> Result<String, AllocError>
        ensures { IfOk result (λ path. string_bytes path ≡ self.now.folder ++ (codes "/" ++ name.now)) }
    {
        let folder = self.folder.as_str();
        format!(in self.alloc; "{folder}/{name}")
    }

    #[tactic(auto, using(crate::proofs::Rises::rose_by))]
    fn count_fault(&mut self) -> IoBad
        ensures is { result ≡ IoBad.Failed }
        ensures after { self.new ≡ folder_after_fault self.old }
        ensures rose { Rose self.old.faults self.new.faults }
        ensures later { self.old.faults ≤ self.new.faults }
    {
        self.faults = self.faults.saturating_add(1);
        IoBad::Failed
    }

    // Whether a file stands there. Anything else of that name is a fault before it is opened, since
    // opening a pipe waits for its other end.
    fn is_file_at(&self, path: &str) -> Result<bool, StreamFault> {
        match fs::metadata(&self.system, path) {
            Ok(told) if told.is_file() => Ok(true),
            Ok(_) => Err(StreamFault::NoFile),
            Err(error) if error.kind() == ErrorKind::NotFound => Ok(false),
            Err(error) => Err(StreamFault::Stream(error)),
        }
    }

    fn try_begin(&self, path: &str) -> Result<R::File, StreamFault> {
        let _replaces = self.is_file_at(path)?;
        Ok(File::create(&self.system, path)?)
    }

    fn try_fetch(&self, path: &str, at: u64, buf: &mut [u8]) -> Result<Option<usize>, StreamFault>
        ensures { IfOk result (λ answer. IfSome answer (λ n. n ≤ length buf.new)) }
    {
        if !self.is_file_at(path)? {
            return Ok(None);
        }
        let mut file = match File::open(&self.system, path) {
            Ok(file) => file,
            Err(error) if error.kind() == ErrorKind::NotFound => return Ok(None),
            Err(error) => return Err(StreamFault::Stream(error)),
        };
        file.seek(SeekFrom::Start(at))?;
        let count = read_some(&mut file, buf)?;
        Ok(Some(count))
    }
}

// A read that a signal cut off is tried again.
fn read_some<F: Read>(file: &mut F, buf: &mut [u8]) -> Result<usize, StreamFault>
    ensures { IfOk result (λ n. n ≤ length buf.new) }
{
    for _ in 0..u64::MAX {
        match file.read(buf) {
            Ok(count) => return Ok(count),
            Err(error) if error.kind() == ErrorKind::Interrupted => {}
            Err(error) => return Err(StreamFault::Stream(error)),
        }
    }
    Err(StreamFault::Interrupted)
}

impl<R: Files + Drop> Shelf for DirShelf<R> {
    ghost files = { λ _. None };

    ghost begun_name = { λ s. s.begun };

    ghost finds = { λ _ _ _. ⊤ };

    ghost given = { λ s. s.given };

    ghost faults = { λ s. s.faults };

    fn begun(&self) -> bool
        ensures { result ≡ is_some self.now.begun }
    {
        self.begun.is_some()
    }

    fn begin(&mut self, name: &str) -> Result<(), IoBad>
        requires lawful { IsTrue (is_lawful_name name.now) }
        requires none_begun { self.old.begun ≡ None }
        ensures begun { self.new.begun ≡ begun_after name.now result }
        ensures count { self.new.given ≡ self.old.given }
        ensures cause { HasFaultCause self.old.faults self.new.faults result }

        ensures same { self.new.folder ≡ self.old.folder }
    {
        let Ok(path) = self.path_of(name) else {
            return Err(IoBad::Memory);
        };
        let Ok(name) = String::from_str(self.alloc, name) else {
            return Err(IoBad::Memory);
        };
        let Ok(file) = self.try_begin(path.as_str()) else {
            return Err(self.count_fault());
        };
        match BufWriter::with_capacity(self.alloc, GATHERED, file) {
            Ok(file) => {
                self.begun = Some(Begun { file, name });
                Ok(())
            }
            Err(_) => Err(IoBad::Memory),
        }
    }

    fn append(&mut self, piece: &[u8]) -> Result<(), IoBad>
        requires { IsSome self.old.begun }
        ensures begun { self.new.begun ≡ self.old.begun }
        ensures count { self.new.given ≡ self.old.given }
        ensures cause { HasFaultCause self.old.faults self.new.faults result }

        ensures same { self.new.folder ≡ self.old.folder }
    {
        let Some(mut begun) = self.begun.take() else {
            return Ok(());
        };
        let written = begun.file.write_all(piece);
        self.begun = Some(begun);
        match written {
            Ok(()) => Ok(()),
            Err(_) => Err(self.count_fault()),
        }
    }

    // The file is closed where it is dropped, and what is still gathered is written before.
    fn finish(&mut self) -> Result<(), IoBad>
        requires { IsSome self.old.begun }
        ensures begun { self.new.begun ≡ None }
        ensures count { self.new.given ≡ self.old.given }
        ensures cause { HasFaultCause self.old.faults self.new.faults result }

        ensures same { self.new.folder ≡ self.old.folder }
    {
        let Some(mut begun) = self.begun.take() else {
            return Ok(());
        };
        match begun.file.flush() {
            Ok(()) => Ok(()),
            Err(_) => Err(self.count_fault()),
        }
    }

    fn fetch(&mut self, name: &str, at: u64, buf: &mut [u8]) -> Result<Option<usize>, IoBad>
        requires lawful { IsTrue (is_lawful_name name.now) }
        requires none_begun { self.old.begun ≡ None }
        ensures bound { IfOk result (λ answer. IfSome answer (λ n. n ≤ length buf.new)) }
        ensures begun { self.new.begun ≡ None }
        ensures count { FetchCounts self.old.given self.new.given result }
        ensures cause { HasFaultCause self.old.faults self.new.faults result }

        ensures same { self.new.folder ≡ self.old.folder }
    {
        let Ok(path) = self.path_of(name) else {
            return Err(IoBad::Memory);
        };
        match self.try_fetch(path.as_str(), at, buf) {
            Ok(answer) => {
                self.given = self.given.saturating_add(answer.unwrap_or(0) as u64);
                Ok(answer)
            }
            Err(_) => Err(self.count_fault()),
        }
    }
}
