// A shelf in memory and one over files: what it has, what is too long, and what fails.
use crate::{Blob, FileShelf, Loaded, MemShelf, Shelf, ShelfErr};
use std::fs;
use std::io::{Error, ErrorKind};
use std::process::Abort;
use std::test::Fail;

// Loads a name, and says what came: the bytes, or none where they are too long.
fn loads<R: Abort + AllocGlobal, S: Shelf>(
    rt: &R,
    shelf: &mut S,
    name: &[u8],
    want: Option<&[u8]>,
) -> Result<(), Fail> {
    match shelf.load(rt.alloc(), name, 4) {
        Ok(Loaded::Whole(blob)) => assert_eq!(rt; Some(blob.as_slice()), want),
        Ok(Loaded::TooLong) => assert!(rt; want.is_none()),
        Err(_) => assert!(rt; false),
    }
    Ok(())
}

#[test]
fn a_shelf_gives_the_bytes_of_a_name(rt: HostRuntime) -> Result<(), Fail> {
    let mut shelf = MemShelf::new(rt.alloc(), &[])?;
    shelf.add(rt.alloc(), b"a", b"one")?;
    shelf.add(rt.alloc(), b"b", b"three")?;
    shelf.add(rt.alloc(), b"c", b"")?;
    loads(&rt, &mut shelf, b"a", Some(b"one"))?;
    loads(&rt, &mut shelf, b"b", None)?;
    loads(&rt, &mut shelf, b"c", Some(b""))?;
    shelf.add(rt.alloc(), b"a", b"four")?;
    loads(&rt, &mut shelf, b"a", Some(b"four"))
}

#[test]
fn a_missing_name_and_a_listed_call_fail(rt: HostRuntime) -> Result<(), Fail> {
    let mut shelf = MemShelf::new(rt.alloc(), &[2])?;
    shelf.add(rt.alloc(), b"a", b"one")?;
    assert!(rt; matches!(shelf.load(rt.alloc(), b"x", 4), Err(ShelfErr::Failed)));
    assert!(rt; matches!(shelf.load(rt.alloc(), b"a", 4), Err(ShelfErr::Failed)));
    loads(&rt, &mut shelf, b"a", Some(b"one"))
}

#[test]
fn a_shelf_gives_the_bytes_of_a_file(rt: HostRuntime) -> Result<(), Fail> {
    let name = "a_shelf_gives_the_bytes_of_a_file.bin";
    let mut shelf = FileShelf::new(&rt);
    fs::write(&rt, name, b"four")?;
    loads(&rt, &mut shelf, name.as_bytes(), Some(b"four"))?;
    fs::write(&rt, name, b"three")?;
    loads(&rt, &mut shelf, name.as_bytes(), None)?;
    fs::write(&rt, name, b"")?;
    loads(&rt, &mut shelf, name.as_bytes(), Some(b""))?;
    fs::remove_file(&rt, name)?;
    Ok(())
}

#[test]
fn a_shelf_gives_a_long_file(rt: HostRuntime) -> Result<(), Fail> {
    let name = "a_shelf_gives_a_long_file.bin";
    let mut bytes = vec![in rt.alloc(); 0x5A; 10000]?;
    bytes[4096..8192].fill(0xA5);
    fs::write(&rt, name, bytes.as_slice())?;
    let mut shelf = FileShelf::new(&rt);
    match shelf.load(rt.alloc(), name.as_bytes(), 10000) {
        Ok(Loaded::Whole(blob)) => assert_eq!(rt; blob.as_slice(), bytes.as_slice()),
        _ => assert!(rt; false),
    }
    let short = shelf.load(rt.alloc(), name.as_bytes(), 9999);
    assert!(rt; matches!(short, Ok(Loaded::TooLong)));
    fs::remove_file(&rt, name)?;
    Ok(())
}

#[test]
fn a_name_with_no_file_fails(rt: HostRuntime) {
    let mut shelf = FileShelf::new(&rt);
    for name in [b"no_such_file.bin".as_slice(), b"", b".", b"a\0", b"\xFF"] {
        assert!(rt; matches!(shelf.load(rt.alloc(), name, 4), Err(ShelfErr::Failed)));
    }
}

#[test]
fn refused_memory_is_told_apart(rt: HostRuntime) {
    let refused = Error::from(ErrorKind::OutOfMemory);
    assert_eq!(rt; ShelfErr::from(refused), ShelfErr::NoMemory);
    let missing = Error::from(ErrorKind::NotFound);
    assert_eq!(rt; ShelfErr::from(missing), ShelfErr::Failed);
}
