use pac_io::{MemSink, Sink, SinkFault, StdSink};
use std::test::Fail;

#[test]
fn a_sink_goes_on_after_its_first_write_fails(rt: HostRuntime) -> Result<(), Fail> {
    let mut sink = MemSink::new(rt.alloc());
    sink.fail(1)?;
    assert!(rt; matches!(sink.write_all(b"ab"), Err(SinkFault::Failed)));
    sink.write_all(b"cd")?;
    assert!(rt; sink.written() == b"cd".as_slice());
    Ok(())
}

#[test]
fn a_std_writer_that_takes_nothing_more_fails(rt: HostRuntime) -> Result<(), Fail> {
    let mut room = [0u8; 3];
    let mut sink = StdSink::new(room.as_mut_slice());
    sink.write_all(b"ab")?;
    assert!(rt; matches!(sink.write_all(b"cd"), Err(SinkFault::Failed)));
    assert!(rt; room == *b"abc");
    Ok(())
}
