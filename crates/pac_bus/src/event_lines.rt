ghost use Rattle.std.specs.Prelude.{◌≡◌, ◌++◌, All, OnOk};
ghost use Rattle.pac_io.specs.Writing.{SinkCause, Writes};
ghost use Rattle.pac_bus.specs.EventTexts.{HoldsWord, access_text, address_text, event_line, event_text, said_text, truth_text, word_text};

use frag_tree::{Event, Events, Said};
use pac_base::{NoMemory, Width};
use pac_io::{Page, Sink, SinkFault};
use std::alloc::Global;

/// Writes a line for each event. Its condition is that the value of each access is one of its width.
pub fn events_text<S: Sink>(alloc: Global, events: &Events, sink: &mut S) -> Result<(), SinkFault>
    requires { All HoldsWord events.now.list }
    ensures growth { Writes result (S.written sink.old) (S.written sink.new) (event_text events.now.list) }
    ensures cause { SinkCause result (S.faults sink.old) (S.faults sink.new) }
{
    let mut page = Page::new(alloc);
    for event in events.as_slice() {
        push_event(&mut page, event)?;
        page.turn(sink)?;
    }
    page.finish(sink)
}

fn push_event(page: &mut Page, event: &Event) -> Result<(), NoMemory>
    ensures { OnOk result (page.new ≡ page.old ++ event_line event.now) }
{
    match event {
        Event::Read {
            address,
            width,
            value,
        } => push_named(page, b"read", *address, *width, *value),
        Event::Write {
            address,
            width,
            value,
        } => push_named(page, b"write", *address, *width, *value),
        Event::Say(said) => push_say(page, said),
    }
}

fn push_named(
    page: &mut Page,
    name: &[u8],
    address: u64,
    width: Width,
    value: u64,
) -> Result<(), NoMemory>
    ensures { OnOk result (page.new ≡ page.old ++ (name.now ++ access_text address width value)) }
{
    page.push(name)?;
    push_access(page, address, width, value)
}

#[tactic(auto, unfolding(crate::specs::EventTexts::access_text))]
fn push_access(page: &mut Page, address: u64, width: Width, value: u64) -> Result<(), NoMemory>
    ensures { OnOk result (page.new ≡ page.old ++ access_text address width value) }
{
    page.push(b" ")?;
    push_address(page, address)?;
    page.push(b" ")?;
    page.decimal(u64::from(width.bits()))?;
    page.push(b" ")?;
    push_word(page, width, value)?;
    page.push(b"\n")
}

fn push_address(page: &mut Page, address: u64) -> Result<(), NoMemory>
    ensures { OnOk result (page.new ≡ page.old ++ address_text address) }
{
    page.push(b"0x")?;
    page.hexadecimal(address, 8)
}

fn push_word(page: &mut Page, width: Width, word: u64) -> Result<(), NoMemory>
    ensures { OnOk result (page.new ≡ page.old ++ word_text width word) }
{
    page.push(b"0x")?;
    page.hexadecimal(word, (width.bits() / 4) as u8)
}

fn push_say(page: &mut Page, said: &Said) -> Result<(), NoMemory>
    ensures { OnOk result (page.new ≡ page.old ++ event_line (Event.Say said.now)) }
{
    page.push(b"say ")?;
    push_said(page, said)?;
    page.push(b"\n")
}

fn push_said(page: &mut Page, said: &Said) -> Result<(), NoMemory>
    ensures { OnOk result (page.new ≡ page.old ++ said_text said.now) }
{
    match said {
        Said::Number(number) => page.decimal(*number),
        Said::Truth(truth) => page.push(truth_text(*truth)),
    }
}

fn truth_text(truth: bool) -> &'static [u8]
    ensures { result.now ≡ truth_text truth }
{
    if truth { b"true" } else { b"false" }
}
