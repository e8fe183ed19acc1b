// What no clause says: that scripts in memory are read, and that a reader's memory suffices for the longest line.
use crate::{LineReader, Next};
use bench_io::MemSource;
use flash_dev::Failed;
use std::test::Fail;

#[test]
fn lines_of_a_script(rt: HostRuntime) -> Result<(), Fail> {
    let mut source = MemSource::new(rt.alloc(), b"hello\n\rtwo\rwords\r\n\nlast\r", &[])?;
    let mut reader = LineReader::new();
    for want in [b"hello".as_slice(), b"\rtwo\rwords", b""] {
        assert_eq!(rt; reader.next(&mut source), Ok(Next::Line));
        assert_eq!(rt; reader.line(), want);
    }
    assert_eq!(rt; reader.next(&mut source), Ok(Next::Last));
    assert_eq!(rt; reader.line(), b"last\r".as_slice());
    assert_eq!(rt; reader.next(&mut source), Ok(Next::End));
    Ok(())
}

#[test]
fn an_empty_script(rt: HostRuntime) -> Result<(), Fail> {
    let mut source = MemSource::new(rt.alloc(), b"", &[])?;
    let mut reader = LineReader::new();
    assert_eq!(rt; reader.next(&mut source), Ok(Next::End));
    Ok(())
}

#[test]
fn the_longest_line(rt: HostRuntime) -> Result<(), Fail> {
    let mut script = vec![in rt.alloc(); b'a'; 16386]?;
    script[16384] = b'\r';
    script[16385] = b'\n';
    let mut source = MemSource::new(rt.alloc(), &script, &[])?;
    let mut reader = LineReader::new();
    assert_eq!(rt; reader.next(&mut source), Ok(Next::Line));
    assert_eq!(rt; reader.line().len(), 16384);
    script[16384] = b'a';
    let mut source = MemSource::new(rt.alloc(), &script, &[])?;
    let mut reader = LineReader::new();
    assert_eq!(rt; reader.next(&mut source), Ok(Next::TooLong));
    Ok(())
}

#[test]
fn a_source_fails(rt: HostRuntime) -> Result<(), Fail> {
    let script = vec![in rt.alloc(); b'a'; 5000]?;
    let mut source = MemSource::new(rt.alloc(), &script, &[2])?;
    let mut reader = LineReader::new();
    assert_eq!(rt; reader.next(&mut source), Err(Failed));
    Ok(())
}
