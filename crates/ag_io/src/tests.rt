use crate::{Failed, Filled, MemSink, MemSource, NullSink, Sink, Source, SureSource, fill, put};
use std::test::Fail;

#[test]
fn a_source_of_single_bytes_fills_a_buffer(rt: HostRuntime) -> Result<(), Fail> {
    let alloc = rt.alloc();
    let mut src = MemSource::new([1, 2, 3].to_vec(alloc)?, Vec::new(alloc), 1);
    let mut buf = [0u8; 2];
    assert!(rt; matches!(fill(&mut src, &mut buf), Filled::Whole));
    assert_eq!(rt; buf.as_slice(), [1, 2].as_slice());
    assert!(rt; matches!(fill(&mut src, &mut buf), Filled::End { got: 1 }));
    assert_eq!(rt; buf[0], 3);
    Ok(())
}

#[test]
fn a_failing_call_ends_a_fill(rt: HostRuntime) -> Result<(), Fail> {
    let alloc = rt.alloc();
    let mut src = MemSource::new([1, 2, 3].to_vec(alloc)?, [1].to_vec(alloc)?, 1);
    let mut buf = [0u8; 3];
    assert!(rt; matches!(fill(&mut src, &mut buf), Filled::Fault { got: 1 }));
    // the call after it goes on where that one stood
    assert!(rt; matches!(src.read(&mut buf), Ok(1)));
    assert_eq!(rt; buf[0], 2);
    Ok(())
}

#[test]
fn a_sink_takes_what_it_has_room_for(rt: HostRuntime) -> Result<(), Fail> {
    let alloc = rt.alloc();
    let mut sink = MemSink::new(alloc, 3, Vec::new(alloc))?;
    assert!(rt; put(&mut sink, &[1, 2]).is_ok());
    assert!(rt; matches!(put(&mut sink, &[3, 4]), Err(Failed)));
    assert_eq!(rt; sink.bytes(), [1, 2, 3].as_slice());
    Ok(())
}

#[test]
fn a_failing_write_takes_nothing(rt: HostRuntime) -> Result<(), Fail> {
    let alloc = rt.alloc();
    let mut sink = MemSink::new(alloc, 9, [1].to_vec(alloc)?)?;
    assert!(rt; put(&mut sink, &[1]).is_ok());
    assert!(rt; put(&mut sink, &[2]).is_err());
    assert!(rt; put(&mut sink, &[3]).is_ok());
    assert_eq!(rt; sink.bytes(), [1, 3].as_slice());
    Ok(())
}

#[test]
fn the_sure_ones_never_fail(rt: HostRuntime) -> Result<(), Fail> {
    let bytes = [5, 6, 7];
    let mut src = SureSource::new(&bytes);
    let mut buf = [0u8; 2];
    assert!(rt; matches!(fill(&mut src, &mut buf), Filled::Whole));
    assert_eq!(rt; buf.as_slice(), [5, 6].as_slice());
    assert!(rt; matches!(fill(&mut src, &mut buf), Filled::End { got: 1 }));
    let mut sink = NullSink::new();
    assert!(rt; matches!(sink.write(&bytes), Ok(3)));
    Ok(())
}
