use mos_io::{Capped, Failed, MemSink, MemSource, Sink, SinkFault, Source, StdSink, StdSource};
use std::io::Cursor;
use std::test::Fail;

fn source(rt: &HostRuntime, pieces: &[usize], fails: &[u64]) -> Result<MemSource, Fail> {
    let alloc = rt.alloc();
    let bytes = Vec::from_slice(alloc, b"running order")?;
    let pieces = Vec::from_slice(alloc, pieces)?;
    let fails = Vec::from_slice(alloc, fails)?;
    Ok(MemSource::new(bytes, pieces, fails))
}

#[test]
fn pieces_are_given_as_listed(rt: HostRuntime) -> Result<(), Fail> {
    let mut from = source(&rt, &[3, 0], &[])?;
    let mut room = [0u8; 32];
    assert_eq!(rt; from.read(&mut room), Ok(3), "the first piece");
    assert_eq!(rt; &room[..3], b"run".as_slice());
    assert_eq!(rt; from.read(&mut room), Ok(1), "0 counts as 1");
    assert_eq!(rt; room[0], b'n');
    assert_eq!(rt;
        from.read(&mut room[..4]),
        Ok(4),
        "as much as there is room for"
    );
    assert_eq!(rt; from.read(&mut room), Ok(5), "all that is left");
    assert_eq!(rt; &room[..5], b"order".as_slice());
    assert_eq!(rt; from.read(&mut room), Ok(0), "the end");
    Ok(())
}

#[test]
fn a_listed_read_fails_and_takes_nothing(rt: HostRuntime) -> Result<(), Fail> {
    let mut from = source(&rt, &[], &[0])?;
    let mut room = [0u8; 32];
    assert_eq!(rt; from.read(&mut room), Err(Failed));
    assert_eq!(rt; from.read(&mut room), Ok(13));
    Ok(())
}

#[test]
fn a_listed_write_fails_and_appends_nothing(rt: HostRuntime) -> Result<(), Fail> {
    let alloc = rt.alloc();
    let mut to = MemSink::new(alloc, Vec::from_slice(alloc, &[1u64])?);
    assert_eq!(rt; to.write_piece(b"ab"), Ok(()));
    assert_eq!(rt; to.write_piece(b"cd"), Err(SinkFault::Failed));
    assert_eq!(rt; to.write_piece(b"ef"), Ok(()));
    assert_eq!(rt; to.bytes(), b"abef".as_slice());
    Ok(())
}

#[test]
fn past_its_bound_a_capped_source_fails(rt: HostRuntime) -> Result<(), Fail> {
    let mut from = Capped::new(source(&rt, &[], &[])?, 10);
    let mut room = [0u8; 32];
    assert_eq!(rt; from.read(&mut room), Ok(10));
    assert_eq!(rt; &room[..10], b"running or".as_slice());
    assert_eq!(rt; from.read(&mut room), Err(Failed));
    Ok(())
}

#[test]
fn the_adapters_pass_bytes_on(rt: HostRuntime) -> Result<(), Fail> {
    let mut from = StdSource::new(Cursor::new(b"MOS".as_slice()));
    let mut room = [0u8; 8];
    assert_eq!(rt; from.read(&mut room), Ok(3));
    assert_eq!(rt; &room[..3], b"MOS".as_slice());
    assert_eq!(rt; from.read(&mut room), Ok(0));
    let mut written = Vec::new(rt.alloc());
    let mut to = StdSink::new(&mut written);
    assert_eq!(rt; to.write_piece(b"MOS"), Ok(()));
    drop(to);
    assert_eq!(rt; written.as_slice(), b"MOS".as_slice());
    Ok(())
}
