ghost use Rattle.std.specs.Prelude.{◌≡◌, ◌++◌, List, OnOk};
ghost use Rattle.std.specs.List.{count_by};
ghost use Rattle.pac_io.specs.Writing.{SinkCause, Writes};
ghost use Rattle.pac_sample.specs.Summary.{is_read, is_write, summary, summary_line, written_by, written_sum};

use frag_tree::Event;
use pac_base::NoMemory;
use pac_io::{Page, Sink, SinkFault};
use std::alloc::Global;

/// Writes what a run over so many registers came to: how many there are, how many reads and writes were made, and the
/// sum of the values that were written, modulo 2^64.
pub fn write_summary<S: Sink>(
    alloc: Global,
    count: u64,
    events: &[Event],
    sink: &mut S,
) -> Result<(), SinkFault>
    ensures growth { Writes result (S.written sink.old) (S.written sink.new) (summary count events.now) }
    ensures cause { SinkCause result (S.faults sink.old) (S.faults sink.new) }
{
    let mut page = Page::new(alloc);
    push_summary(&mut page, count, events)?;
    page.finish(sink)
}

#[tactic(auto, unfolding(crate::specs::Summary::summary))]
fn push_summary(page: &mut Page, count: u64, events: &[Event]) -> Result<(), NoMemory>
    ensures { OnOk result (page.new ≡ page.old ++ summary count events.now) }
{
    push_line(page, b"registers", count)?;
    push_line(page, b"reads", reads(events))?;
    push_line(page, b"writes", writes(events))?;
    push_line(page, b"sum", written_sum(events))
}

/// Appends a word and its number.
#[tactic(auto, unfolding(crate::specs::Summary::summary_line))]
fn push_line(page: &mut Page, word: &[u8], number: u64) -> Result<(), NoMemory>
    ensures { OnOk result (page.new ≡ page.old ++ summary_line word.now number) }
{
    page.push(word)?;
    page.push(b" ")?;
    page.decimal(number)?;
    page.push(b"\n")
}

fn reads(events: &[Event]) -> u64
    ensures { result ≡ count_by is_read events.now }
{
    events.iter().filter(|event| is_read(event)).count() as u64
}

fn writes(events: &[Event]) -> u64
    ensures { result ≡ count_by is_write events.now }
{
    events.iter().filter(|event| is_write(event)).count() as u64
}

fn is_read(event: &Event) -> bool
    ensures { result ≡ is_read event.now }
{
    match event {
        Event::Read { .. } => true,
        Event::Write { .. } => false,
        Event::Say(_) => false,
    }
}

fn is_write(event: &Event) -> bool
    ensures { result ≡ is_write event.now }
{
    match event {
        Event::Read { .. } => false,
        Event::Write { .. } => true,
        Event::Say(_) => false,
    }
}

/// What a write wrote, and 0 for any other event.
fn written_by(event: &Event) -> u64
    ensures { result ≡ written_by event.now }
{
    match event {
        Event::Read { .. } => 0,
        Event::Write { value, .. } => *value,
        Event::Say(_) => 0,
    }
}

/// The sum of the values that were written, modulo 2^64.
fn written_sum(events: &[Event]) -> u64
    ensures { result ≡ written_sum events.now }
{
    let mut sum: u64 = 0;
    for event in events {
        let value = written_by(event);
        sum = sum.wrapping_add(value);
    }
    sum
}
