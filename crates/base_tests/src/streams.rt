// Sources and sinks in memory, and whole streams.
use farm_base::{InputFault, MemSink, MemSource, SureSink, SureSource, read_all, write_all};
use std::alloc::Global;
use std::test::Fail;

/// More than two buffers of a read.
const LENGTH: usize = 10_000;

// How many bytes are read of a stream of 10,000, with this limit.
fn read_count(alloc: Global, limit: u32) -> Result<usize, Fail> {
    let bytes = [7u8].as_slice().repeat(alloc, LENGTH)?;
    let mut source = MemSource::new(bytes, Vec::new(alloc));
    Ok(read_all(alloc, limit as usize, &mut source)?.len())
}

#[test]
fn a_stream_is_read_to_its_end_or_past_the_limit(rt: HostRuntime) -> Result<(), Fail> {
    let alloc = rt.alloc();
    assert_eq!(rt; read_count(alloc, 9_999)?, 10_000);
    assert_eq!(rt; read_count(alloc, 10_000)?, 10_000);
    assert_eq!(rt; read_count(alloc, 70_000)?, 10_000);
    assert_eq!(rt; read_count(alloc, 5)?, 6);
    Ok(())
}

#[test]
fn a_stream_keeps_the_order_of_its_bytes(rt: HostRuntime) -> Result<(), Fail> {
    let alloc = rt.alloc();
    let text = "0123456789".repeat(alloc, 1_000)?;
    let mut source = SureSource::new(text.as_bytes().to_vec(alloc)?);
    let read = read_all(alloc, LENGTH, &mut source)?;
    assert!(rt; read.as_slice() == text.as_bytes());
    Ok(())
}

#[test]
fn a_read_that_fails_ends_the_reading(rt: HostRuntime) -> Result<(), Fail> {
    let alloc = rt.alloc();
    let bytes = [1u8].as_slice().repeat(alloc, LENGTH)?;
    let mut source = MemSource::new(bytes, [2u64].to_vec(alloc)?);
    assert_eq!(rt;
        read_all(alloc, LENGTH, &mut source),
        Err(InputFault::Failed)
    );
    Ok(())
}

#[test]
fn a_write_that_fails_leaves_the_others(rt: HostRuntime) -> Result<(), Fail> {
    let alloc = rt.alloc();
    let mut sink = MemSink::new(alloc, [2u64].to_vec(alloc)?);
    assert!(rt; write_all(&mut sink, b"one").is_ok());
    assert!(rt; write_all(&mut sink, b"two").is_err());
    assert!(rt; write_all(&mut sink, b"six").is_ok());
    assert_eq!(rt; sink.bytes(), b"onesix".as_slice());
    Ok(())
}

#[test]
fn a_sure_sink_keeps_what_is_written(rt: HostRuntime) {
    let mut sink = SureSink::new(rt.alloc());
    assert!(rt; write_all(&mut sink, b"one").is_ok());
    assert_eq!(rt; sink.bytes(), b"one".as_slice());
}
