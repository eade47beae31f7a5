// Whole files, fetched from any shelf.
ghost use Rattle.std.specs.Prelude.{◌≡◌, ◌+◌, ◌^◌, ◌<◌, ◌≤◌, [], true, None, is_some, option_map, unwrap_or, vec_items, vec_len, length, IsTrue, IfOk, IfSome, IsErrOf, IsSomeAnd};
ghost use Rattle.las_io.specs.Counts.{HasFaultCause, Rose};
ghost use Rattle.las_io.specs.Fetches.{AnswersFetch, EndsFetches};
ghost use Rattle.las_io.specs.Names.{is_lawful_name};
ghost use Rattle.las_io.specs.Shelves.{Fetches, FetchesCount, FetchesUpTo, FilesStay, file_of};
ghost use Rattle.las_io.specs.declared.whole_file.FetchRefused.TheVariants.{Memory};

use crate::{IoBad, Shelf};
use std::alloc::{AllocError, Global};

/// Why a file was not fetched.
#[derive(Clone, Copy, PartialEq, Eq, Debug)]
pub enum FetchRefused {
    ShelfFault,
    TooLong,
    Memory,
}

impl From<AllocError> for FetchRefused {
    ghost from_gives = { λ _ e. e ≡ Memory };

    fn from(_: AllocError) -> Self {
        FetchRefused::Memory
    }
}

// As long as a piece of a whole input.
const PIECE: usize = 65536;

/// All bytes of the file of this name, `limit` of them at most, where there is one. One byte more is
/// fetched to tell that there are more.
pub fn fetch_all<H: Shelf>(
    alloc: Global,
    shelf: &mut H,
    name: &str,
    limit: usize,
) -> Result<Option<Vec<u8>>, FetchRefused>
    requires lawful { IsTrue (is_lawful_name name.now) }
    requires none_begun { H.begun_name shelf.old ≡ None }
    requires limit { limit < 2 ^ 32 }

    // Ok: these bytes came, and none where there is no file; of a shelf that tells its files they are
    // the file. The first fetch found the file, or did not.
    ensures all { IfOk result (λ file.
        Fetches H.files H.given name.now shelf.old shelf.new (unwrap_or (option_map vec_items file) [])) }
    ensures told { IfOk result (λ file. IfSome (H.files shelf.old) (λ fs.
        file_of fs name.now ≡ option_map vec_items file)) }
    ensures found { IfOk result (λ file. H.finds shelf.old name.now (is_some file)) }
    ensures within { IfOk result (λ file. IfSome file (λ v. vec_len v ≤ limit)) }

    // The first fetch found the file, and a file that is told is longer than the limit.
    ensures too_long { IsErrOf result FetchRefused.TooLong
        → FetchesCount H.files H.given name.now shelf.old shelf.new (limit + 1) }
    ensures longer { IsErrOf result FetchRefused.TooLong → IfSome (H.files shelf.old) (λ fs.
        IsSomeAnd (file_of fs name.now) (λ bytes. limit < length bytes)) }
    ensures found_long { IsErrOf result FetchRefused.TooLong → H.finds shelf.old name.now true }

    ensures shelf_fault { IsErrOf result FetchRefused.ShelfFault
        → Rose (H.faults shelf.old) (H.faults shelf.new) }
    ensures before_fault { IsErrOf result FetchRefused.ShelfFault
        → FetchesUpTo H.files H.given name.now shelf.old shelf.new limit }

    // At every answer.
    ensures most { FetchesUpTo H.files H.given name.now shelf.old shelf.new (limit + 1) }
    ensures files { FilesStay (H.files shelf.old) (H.files shelf.new) }
    ensures begun { H.begun_name shelf.new ≡ None }
    ensures faults { H.faults shelf.old ≤ H.faults shelf.new }
    ensures rises { H.faults shelf.old < H.faults shelf.new → IsErrOf result FetchRefused.ShelfFault }
{
    let mut all: Vec<u8> = Vec::new(alloc);
    let mut piece = vec![in alloc; 0u8; PIECE]?;
    match fetch_pieces(shelf, name, limit, piece.as_mut_slice(), &mut all) {
        Ok(true) => Ok(Some(all)),
        Ok(false) => Ok(None),
        Err(refused) => Err(refused),
    }
}

// Fetches pieces of the file to the end of `all`, up to the file's end, and says whether there is such a file.
fn fetch_pieces<H: Shelf>(
    shelf: &mut H,
    name: &str,
    limit: usize,
    piece: &mut [u8],
    all: &mut Vec<u8>,
) -> Result<bool, FetchRefused>
    requires lawful { IsTrue (is_lawful_name name.now) }
    requires none_begun { H.begun_name shelf.old ≡ None }
    requires limit { limit < 2 ^ 32 }
    requires room { 1 ≤ length piece.old }
    requires empty { all.old.items ≡ [] }
    ensures end { EndsFetches H.files H.begun_name H.finds H.given name.now shelf.old shelf.new limit all.new.items result }
    ensures files { FilesStay (H.files shelf.old) (H.files shelf.new) }
    ensures begun { H.begun_name shelf.new ≡ None }
    ensures shelf_fault { IsErrOf result FetchRefused.ShelfFault
        → Rose (H.faults shelf.old) (H.faults shelf.new) }
    ensures faults { H.faults shelf.old ≤ H.faults shelf.new }
    ensures rises { H.faults shelf.old < H.faults shelf.new → IsErrOf result FetchRefused.ShelfFault }
{
    while all.len() <= limit {
        let room = (limit + 1 - all.len()).min(piece.len());
        let part = &mut piece[..room];
        let count = match fetch_next(shelf, name, all, part) {
            Ok(Some(count)) => count,
            Ok(None) => return Ok(!all.is_empty()),
            Err(IoBad::Failed) => return Err(FetchRefused::ShelfFault),
            Err(IoBad::Memory) => return Err(FetchRefused::Memory),
        };
        if count == 0 {
            return Ok(true);
        }
        match all.extend_from_slice(&part[..count]) {
            Ok(()) => {}
            Err(_) => return Err(FetchRefused::Memory),
        }
    }
    Err(FetchRefused::TooLong)
}

// Fetches the bytes of the file that follow these.
fn fetch_next<H: Shelf>(
    shelf: &mut H,
    name: &str,
    all: &Vec<u8>,
    part: &mut [u8],
) -> Result<Option<usize>, IoBad>
    requires lawful { IsTrue (is_lawful_name name.now) }
    requires none_begun { H.begun_name shelf.old ≡ None }
    ensures len { length part.new ≡ length part.old }
    ensures fetch { AnswersFetch H.files H.begun_name H.finds H.given name.now shelf.old shelf.new (length all.now.items) part.new result }
    ensures cause { HasFaultCause (H.faults shelf.old) (H.faults shelf.new) result }
{
    shelf.fetch(name, all.len() as u64, part)
}
