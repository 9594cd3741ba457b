//! Streams of which reads and writes fail, and the adapters over those of std.
use crate::check::same;
use cam_io::{
    Failed, MemorySink, MemorySource, ReadFault, Sink, Source, StdSink, StdSource, read_all,
    write_all,
};
use std::alloc::Global;
use std::test::Fail;

/// Bytes that make three reads of `read_all`: two pieces and the end.
const SIZE: usize = 5000;

/// A source of `SIZE` bytes that fails the calls of these numbers.
fn source_of(alloc: Global, fail: Vec<u32>) -> Result<MemorySource, Fail> {
    Ok(MemorySource::new(vec![in alloc; 7; SIZE]?, fail))
}

/// The number of one call, which is to fail.
fn failing(alloc: Global, call: u32) -> Result<Vec<u32>, Fail> {
    Ok(vec![in alloc; call; 1]?)
}

/// What is read of `SIZE` bytes, of which this many may come.
fn read_of(alloc: Global, most: usize) -> Result<Result<Vec<u8>, ReadFault>, Fail> {
    let mut source = source_of(alloc, Vec::new(alloc))?;
    Ok(read_all(alloc, &mut source, most))
}

#[test]
fn all_is_read_and_written(rt: HostRuntime) -> Result<(), Fail> {
    let alloc = rt.alloc();
    let read = read_of(alloc, SIZE)??;
    same(&rt, read.len(), SIZE);
    let mut sink = MemorySink::new(alloc, Vec::new(alloc));
    write_all(&mut sink, &read)?;
    same(&rt, sink.text(), read.as_slice());
    Ok(())
}

#[test]
fn more_than_may_come_is_refused(rt: HostRuntime) -> Result<(), Fail> {
    let fault = read_of(rt.alloc(), SIZE - 1)?.err();
    same(&rt, fault, Some(ReadFault::TooLarge));
    Ok(())
}

/// The fault of reading all from a source that fails at this one of its calls.
fn fault_at(alloc: Global, call: u32) -> Result<Option<ReadFault>, Fail> {
    let mut source = source_of(alloc, failing(alloc, call)?)?;
    Ok(read_all(alloc, &mut source, SIZE).err())
}

/// A source that fails at each of its calls in turn, and at the call after the last.
#[test]
fn each_read_may_fail(rt: HostRuntime) -> Result<(), Fail> {
    for (call, fault) in [
        (1, Some(ReadFault::Failed)),
        (2, Some(ReadFault::Failed)),
        (3, Some(ReadFault::Failed)),
        (4, None),
    ] {
        same(&rt, (call, fault_at(rt.alloc(), call)?), (call, fault));
    }
    Ok(())
}

/// What a sink answers to a write of one byte.
type Answer = Result<usize, Failed>;

/// What a sink answers to writes of `a`, `b` and `c`.
fn three_writes(sink: &mut MemorySink) -> (Answer, Answer, Answer) {
    let first = sink.write(b"a");
    let second = sink.write(b"b");
    (first, second, sink.write(b"c"))
}

/// A sink that fails at one of its calls takes those before and those after.
#[test]
fn each_write_may_fail(rt: HostRuntime) -> Result<(), Fail> {
    let alloc = rt.alloc();
    for (call, answers, text) in [
        (1, (Err(Failed), Ok(1), Ok(1)), "bc"),
        (2, (Ok(1), Err(Failed), Ok(1)), "ac"),
        (3, (Ok(1), Ok(1), Err(Failed)), "ab"),
        (4, (Ok(1), Ok(1), Ok(1)), "abc"),
    ] {
        let mut sink = MemorySink::new(alloc, failing(alloc, call)?);
        same(&rt, (call, three_writes(&mut sink)), (call, answers));
        same(&rt, (call, sink.text()), (call, text.as_bytes()));
    }
    Ok(())
}

#[test]
fn a_text_whose_write_fails_is_not_written(rt: HostRuntime) -> Result<(), Fail> {
    let alloc = rt.alloc();
    let mut sink = MemorySink::new(alloc, failing(alloc, 1)?);
    same(&rt, write_all(&mut sink, b"abc"), Err(Failed));
    same(&rt, sink.text(), b"".as_slice());
    Ok(())
}

#[test]
fn a_reader_of_std_is_read(rt: HostRuntime) {
    let mut source = StdSource::new(b"abc".as_slice());
    let mut piece = [0u8; 2];
    let first = source.read(&mut piece);
    same(&rt, (first, piece), (Ok(2), *b"ab"));
    same(&rt, source.read(&mut piece), Ok(1));
    same(&rt, source.read(&mut piece), Ok(0));
}

#[test]
fn a_writer_of_std_is_written(rt: HostRuntime) {
    let mut sink = StdSink::new(Vec::new(rt.alloc()));
    same(&rt, write_all(&mut sink, b"abc"), Ok(()));
}
