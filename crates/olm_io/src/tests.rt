use super::*;
use olm_base::{Bytes, Many};
use std::alloc::{AllocError, Global};
use std::test::Fail;

fn bytes(alloc: Global, text: &[u8]) -> Result<Bytes, AllocError> {
    Ok(Bytes::from_vec(Vec::from_slice(alloc, text)?))
}

#[test]
fn listed_reads_fail(rt: HostRuntime) -> Result<(), Fail> {
    let alloc = rt.alloc();
    let fails = Many::from_vec(vec![in alloc; 1, 3]?);
    let mut source = MemSource::new(bytes(alloc, b"abcdef")?, fails);
    let mut into = [0u8; 4];
    let first = source.read(&mut into);
    assert_eq!(rt; (first, into), (Ok(4), *b"abcd"));
    assert_eq!(rt; source.read(&mut into), Err(Failed));
    let third = source.read(&mut into);
    assert_eq!(rt; (third, into), (Ok(2), *b"efcd"));
    assert_eq!(rt; source.read(&mut into), Err(Failed));
    assert_eq!(rt; source.read(&mut into), Ok(0));
    Ok(())
}

#[test]
fn listed_puts_fail(rt: HostRuntime) -> Result<(), Fail> {
    let alloc = rt.alloc();
    let mut sink = MemSink::new(alloc, Many::from_vec(vec![in alloc; 1]?));
    assert_eq!(rt; sink.put(b"ab"), Ok(()));
    assert_eq!(rt; sink.put(b"cd"), Err(Outage::Failed));
    assert_eq!(rt; sink.put(b"ef"), Ok(()));
    assert_eq!(rt; sink.bytes(), b"abef".as_slice());
    Ok(())
}

#[test]
fn sure_ones_never_fail(rt: HostRuntime) -> Result<(), Fail> {
    let alloc = rt.alloc();
    let mut source = SureSource::new(bytes(alloc, b"abc")?);
    let mut sink = SureSink::new(alloc);
    let mut into = [0u8; 2];
    for count in [2, 1, 0] {
        assert_eq!(rt; source.read(&mut into), Ok(count));
        assert_eq!(rt; sink.put(&into), Ok(()));
    }
    assert_eq!(rt; sink.bytes(), b"abcbcb".as_slice());
    Ok(())
}

#[test]
fn too_long_exactly_above_the_limit(rt: HostRuntime) -> Result<(), Fail> {
    let alloc = rt.alloc();
    for (limit, fits) in [
        (0, false),
        (9999, false),
        (10000, true),
        (10001, true),
        (u64::MAX, true),
    ] {
        let text = vec![in alloc; 7u8; 10000]?;
        let mut source = SureSource::new(Bytes::from_vec(text));
        match read_all(alloc, &mut source, limit) {
            Ok(text) => assert!(rt; fits && text.as_slice().len() == 10000, "at {limit}"),
            Err(fault) => assert!(rt;
                !fits && fault == FolderFault::TooLong { limit },
                "at {limit}"
            ),
        }
    }
    let mut empty = SureSource::new(bytes(alloc, b"")?);
    assert_eq!(rt; read_all(alloc, &mut empty, 0)?.as_slice(), b"".as_slice());
    let fails = Many::from_vec(vec![in alloc; 1]?);
    let mut source = MemSource::new(bytes(alloc, b"abc")?, fails);
    assert_eq!(rt; read_all(alloc, &mut source, 9), Err(FolderFault::Failed));
    Ok(())
}

#[test]
fn over_std(rt: HostRuntime) -> Result<(), Fail> {
    let alloc = rt.alloc();
    let mut source = StdSource::new(b"abcde".as_slice());
    let text = read_all(alloc, &mut source, 5)?;
    let mut held = Vec::new(alloc);
    let mut sink = StdSink::new(&mut held);
    assert_eq!(rt; sink.put(text.as_slice()), Ok(()));
    assert_eq!(rt; sink.put(b"f"), Ok(()));
    assert_eq!(rt; held.as_slice(), b"abcdef".as_slice());
    let long = vec![in alloc; 7u8; 100000]?;
    let mut all = Vec::new(alloc);
    let mut sink = StdSink::new(&mut all);
    assert_eq!(rt; sink.put(long.as_slice()), Ok(()));
    assert_eq!(rt; all.len(), 100000);
    let mut room = [0u8; 3];
    let mut full = StdSink::new(room.as_mut_slice());
    assert_eq!(rt; full.put(b"abcde"), Err(Outage::Failed));
    assert_eq!(rt; room, *b"abc");
    Ok(())
}
