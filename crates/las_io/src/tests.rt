ghost use Rattle.std.specs.Prelude.{◌≡◌, None, IfOk};

use super::*;
use std::alloc::Global;
use std::fs;
use std::os::unix::fs::symlink;
use std::process::Abort;
use std::test::Fail;

#[test]
fn inputs_are_whole(rt: HostRuntime) -> Result<(), Fail> {
    let alloc = rt.alloc();
    let mut src = MemSource::new(b"abcde".to_vec(alloc)?, 2, Vec::new(alloc));
    let all = read_all(alloc, &mut src, 5)?;
    assert_eq!(rt; all.as_slice(), b"abcde".as_slice());
    assert_eq!(rt; src.calls(), 4);
    Ok(())
}

#[test]
fn outputs_are_whole(rt: HostRuntime) -> Result<(), Fail> {
    let alloc = rt.alloc();
    let mut sink = MemSink::new(alloc, 2, Vec::new(alloc));
    write_all(&mut sink, b"abcde")?;
    assert_eq!(rt; sink.bytes(), b"abcde".as_slice());
    assert_eq!(rt; sink.calls(), 3);
    Ok(())
}

#[test]
fn files_are_whole(rt: HostRuntime) -> Result<(), Fail> {
    let alloc = rt.alloc();
    let mut files = Vec::new(alloc);
    files.push(NamedFile::new(String::from_str(alloc, "kept")?, b"old".to_vec(alloc)?))?;
    let mut shelf = MemShelf::new(alloc, files, Vec::new(alloc));
    assert!(rt; is_lawful_name("kept") && !is_lawful_name("a/b"));
    assert!(rt; is_written(alloc, &mut shelf, b"abcde")?);
    assert_eq!(rt; shelf.file("kept"), Some(b"old".as_slice()));
    Ok(())
}

#[test]
fn standard_input_ends(rt: HostRuntime) -> Result<(), Fail> {
    let mut src = StdSource::new(rt.stdin());
    let all = read_all(rt.alloc(), &mut src, 1000)?;
    assert_eq!(rt; all.len(), 0);
    Ok(())
}

#[test]
fn standard_streams_take_lines(rt: HostRuntime) -> Result<(), Fail> {
    for stream in [Stream::Out, Stream::Err] {
        let mut sink = StdSink::new(rt.stdout(), rt.stderr(), stream);
        write_all(&mut sink, b"a line\n")?;
    }
    Ok(())
}

// Writes the file in two pieces, and fetches it.
fn is_written<H: Shelf>(alloc: Global, shelf: &mut H, text: &[u8]) -> Result<bool, Fail>
    requires { H.begun_name shelf.old ≡ None }
    ensures { IfOk result (λ _. H.begun_name shelf.new ≡ None) }
{
    let (front, end) = text.split_at(text.len() / 2);
    shelf.begin("log")?;
    let begun = shelf.begun();
    shelf.append(front)?;
    shelf.append(end)?;
    shelf.finish()?;
    let file = fetch_all(alloc, shelf, "log", 100)?;
    Ok(begun && file.is_some_and(|all| all.as_slice() == text))
}

#[test]
fn a_folder_serves_as_a_shelf(rt: HostRuntime) -> Result<(), Fail> {
    fs::create_dir(&rt, "shelf")?;
    fs::create_dir(&rt, "shelf/folder")?;
    symlink(&rt, "circle", "shelf/circle")?;
    let mut shelf = DirShelf::new(rt.alloc(), &rt, "shelf")?;
    assert_serves(&rt, &mut shelf)?;
    assert_fails(&rt, &mut shelf);
    fs::remove_dir_all(&rt, "shelf")?;
    Ok(())
}

// What follows borrows the shelf: a long function is dear to prove where it owns one.
fn assert_serves<H: Shelf>(rt: &(impl Abort + AllocGlobal), shelf: &mut H) -> Result<(), Fail>
    requires { H.begun_name shelf.old ≡ None }
    ensures { IfOk result (λ _. H.begun_name shelf.new ≡ None) }
{
    assert!(rt; is_written(rt.alloc(), shelf, b"old and longer")?);
    assert!(rt; is_written(rt.alloc(), shelf, b"abcde")?);
    let mut buf = [0u8; 9];
    assert_eq!(rt; shelf.fetch("log", 3, &mut buf)?, Some(2));
    assert_eq!(rt; &buf[..2], b"de".as_slice());
    assert_eq!(rt; shelf.fetch("log", 5, &mut buf)?, Some(0));
    assert_eq!(rt; shelf.fetch("other", 0, &mut buf)?, None);
    Ok(())
}

// A folder, and a name that leads to itself, cannot be read.
fn assert_fails<H: Shelf>(rt: &impl Abort, shelf: &mut H)
    requires { H.begun_name shelf.old ≡ None }
{
    let mut buf = [0u8; 9];
    let fault = Some(IoBad::Failed);
    assert_eq!(rt; shelf.fetch("folder", 0, &mut buf).err(), fault);
    assert_eq!(rt; shelf.fetch("circle", 0, &mut buf).err(), fault);
    assert_eq!(rt; shelf.begin("folder").err(), fault);
}
