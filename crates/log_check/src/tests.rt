// Whole logs, accepted and rejected.
ghost use Rattle.std.specs.Prelude.{◌≡◌, None, IfOk};

use crate::{Check, check};
use clause_log::{StepReader, find_log};
use cnf_base::{ClauseTake, Formula, Lit};
use las_io::{MemShelf, NamedFile};
use std::alloc::{AllocError, Global};
use std::test::Fail;

// All four clauses of two variables.
fn two_variables(alloc: Global) -> Result<Formula, AllocError> {
    let mut f = Formula::new(alloc, 2);
    f.take(&[Lit(0), Lit(2)])?;
    f.take(&[Lit(1), Lit(2)])?;
    f.take(&[Lit(0), Lit(3)])?;
    f.take(&[Lit(1), Lit(3)])?;
    Ok(f)
}

// A shelf with one log.
fn shelf_with(alloc: Global, log: &[u8]) -> Result<MemShelf, AllocError>
    ensures { IfOk result (λ shelf. shelf.begun ≡ None) }
{
    let mut files = Vec::new(alloc);
    let name = String::from_str(alloc, "a.log")?;
    files.push(NamedFile::new(name, Vec::from_slice(alloc, log)?))?;
    Ok(MemShelf::new(alloc, files, Vec::new(alloc)))
}

// What the log comes to, where it was found and read.
fn judge(alloc: Global, log: &[u8]) -> Result<Option<Check>, AllocError> {
    let f = two_variables(alloc)?;
    let mut shelf = shelf_with(alloc, log)?;
    let Ok(Some(found)) = find_log(alloc, &mut shelf, "a.log") else {
        return Ok(None);
    };
    let mut steps = StepReader::new(&mut shelf, found);
    Ok(check(alloc, &f, &mut steps).ok())
}

#[test]
fn a_log_is_accepted(rt: HostRuntime) -> Result<(), Fail> {
    assert_eq!(rt;
        judge(rt.alloc(), b"5 1 0 1 3 0\n6 0 5 2 4 0\n")?,
        Some(Check::Accepted)
    );
    assert_eq!(rt;
        judge(rt.alloc(), b"9 1 0 1 3 0\n5 d 1 0\n12 0 9 2 4 0\n")?,
        Some(Check::Accepted)
    );
    Ok(())
}

#[test]
fn the_first_fault_is_told(rt: HostRuntime) -> Result<(), Fail> {
    let cases: [(&[u8], u64, u8); 9] = [
        (b"5 1 0 1 3 0", 1, 1),
        (b"4 1 0 1 3 0\n", 1, 2),
        (b"5 1 -1 0 1 3 0\n", 1, 3),
        (b"5 1 0 1 3 0\n5 d 2 0\n6 0 5 2 4 0\n", 3, 4),
        (b"5 1 0 1 2 0\n", 1, 5),
        (b"5 1 0 1 3 2 0\n", 1, 6),
        (b"5 1 0 1 0\n", 1, 7),
        (b"5 1 0 1 3 0\n6 0 5 2 4 0\n6 d 5 0\n", 3, 8),
        (b"5 1 0 1 3 0\n", 2, 9),
    ];
    for (log, line, why) in cases {
        assert_eq!(rt;
            judge(rt.alloc(), log)?,
            Some(Check::Rejected { line, why })
        );
    }
    Ok(())
}
