// A log's text as a whole, written and read.
ghost use Rattle.std.specs.Prelude.{◌≡◌, None, IfOk};

use crate::{LogWriter, StepReader, Steps, begin_log, find_log};
use cnf_base::{LogBad, LogTake, Var};
use las_io::{MemShelf, NamedFile};
use std::alloc::{AllocError, Global};
use std::test::Fail;

fn shelf(alloc: Global, fails: Vec<u64>) -> MemShelf
    ensures { result.begun ≡ None }
{
    let files: Vec<NamedFile> = Vec::new(alloc);
    MemShelf::new(alloc, files, fails)
}

fn write_log(alloc: Global, shelf: &mut MemShelf) -> Result<(), LogBad>
    requires { shelf.old.begun ≡ None }
{
    begin_log(shelf, "a.log")?;
    let mut writer = LogWriter::new(alloc, shelf);
    writer.add(5, &[Var(0).plain(), Var(1).negated()], &[1, 3])?;
    writer.remove(5, &[2])?;
    writer.add(6, &[], &[5, 4])?;
    writer.finish()
}

#[test]
fn a_log_is_a_line_for_each_step(rt: HostRuntime) -> Result<(), Fail> {
    let mut shelf = shelf(rt.alloc(), Vec::new(rt.alloc()));
    assert_eq!(rt; write_log(rt.alloc(), &mut shelf), Ok(()));
    assert_eq!(rt;
        shelf.file("a.log"),
        Some(b"5 1 -2 0 1 3 0\n5 d 2 0\n6 0 5 4 0\n".as_slice())
    );
    Ok(())
}

#[test]
fn a_failed_append_is_a_fault(rt: HostRuntime) -> Result<(), Fail> {
    let mut shelf = shelf(rt.alloc(), vec![in rt.alloc(); 2]?);
    assert_eq!(rt; write_log(rt.alloc(), &mut shelf), Err(LogBad::Fault));
    assert_eq!(rt; shelf.file("a.log"), Some(b"5 1 -2 0 1 3 0\n".as_slice()));
    Ok(())
}

// A shelf with one log, of two lines.
fn shelf_with_log(alloc: Global) -> Result<MemShelf, AllocError>
    ensures { IfOk result (λ shelf. shelf.begun ≡ None) }
{
    let mut files = Vec::new(alloc);
    let bytes = Vec::from_slice(alloc, b"5  1 -2 0 1\t3 0\n5 d 1\n")?;
    files.push(NamedFile::new(String::from_str(alloc, "a.log")?, bytes))?;
    Ok(MemShelf::new(alloc, files, Vec::new(alloc)))
}

#[test]
fn a_line_is_a_step(rt: HostRuntime) -> Result<(), Fail> {
    let alloc = rt.alloc();
    let mut shelf = shelf_with_log(alloc)?;
    let found = find_log(alloc, &mut shelf, "a.log").ok().flatten();
    let log = found.expect(&rt, "the log is there");
    let mut steps = StepReader::new(&mut shelf, log);
    let step = steps.next();
    let shown = format!(in alloc; "{step:?}")?;
    let want =
        "Ok(Some(Add { id: 5, lits: LitList { lits: [Lit(0), Lit(3)] }, hints: IdList { ids: [1, 3] } }))";
    assert_eq!(rt; shown.as_str(), want);
    let shelf = steps.into_shelf();
    assert_eq!(rt; shelf.calls(), 2);
    Ok(())
}
