use pac_io::{MemSink, Page, SinkFault};
use std::test::Fail;

/// Puts a name and two numbers on a page, which takes them without a write.
fn put_numbers(page: &mut Page, sink: &mut MemSink) -> Result<(), SinkFault> {
    page.push(b"TIMER0 ")?;
    page.decimal(65_536)?;
    page.put(b" 0x", sink)?;
    page.hexadecimal(0x4000_a010, 8)?;
    page.put(b" 0x", sink)?;
    page.hexadecimal(0xa, 2)?;
    page.turn(sink)
}

#[test]
fn a_page_prints_numbers_and_hands_on_when_full(rt: HostRuntime) -> Result<(), Fail> {
    let mut sink = MemSink::new(rt.alloc());
    let mut page = Page::new(rt.alloc());
    put_numbers(&mut page, &mut sink)?;
    assert!(rt; sink.written().len() == 0);
    page.put(&[b'.'; 65_536], &mut sink)?;
    assert!(rt; sink.written().len() == 65_564);
    page.push(b"end")?;
    page.finish(&mut sink)?;
    assert!(rt; sink.written().starts_with(b"TIMER0 65536 0x4000a010 0x0a"));
    assert!(rt; sink.written().ends_with(b".end"));
    Ok(())
}
