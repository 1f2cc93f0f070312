//! A source and a sink in memory, of which some calls fail.
use super::*;
use std::test::Fail;

#[test]
fn named_reads_fail(rt: HostRuntime) -> Result<(), Fail> {
    let alloc = rt.alloc();
    let bytes = b"abcde".to_vec(alloc)?;
    let mut source = MemorySource::new(bytes, [1, 3].to_vec(alloc)?);
    let mut out = [0u8; 3];
    for answer in [Ok(3), Err(Failed), Ok(2), Err(Failed), Ok(0)] {
        assert_eq!(rt; source.read(&mut out), answer);
    }
    assert_eq!(rt; out.as_slice(), b"dec".as_slice());
    Ok(())
}

#[test]
fn named_writes_fail(rt: HostRuntime) -> Result<(), Fail> {
    let alloc = rt.alloc();
    let mut sink = MemorySink::new(alloc, [1].to_vec(alloc)?);
    write_all(&mut sink, b"end ")?;
    assert_eq!(rt; write_all(&mut sink, b"bad\n"), Err(Failed));
    write_all(&mut sink, b"ok\n")?;
    assert_eq!(rt; sink.bytes(), b"end ok\n".as_slice());
    Ok(())
}
