ghost use Rattle.std.specs.Prelude.{ℕ, ◌≡◌, ◌≤◌, ◌<◌, ◌++◌, List, OnOk};
ghost use Rattle.std.specs.List.{flat_map};
ghost use Rattle.pac_io.specs.Writing.{SinkCause, Writes};
ghost use Rattle.pac_sample.specs.Numbered.{between};

use pac_base::NoMemory;
use pac_io::{Page, Sink, SinkFault};
use std::alloc::Global;

/// A text in parts that are numbered from 0.
pub(crate) trait Parts {
    // The part of a number.
    ghost part: { Self → ℕ → List ℕ };

    /// Appends the part of a number. Its condition is that the number is one of at most 65,536.
    fn push_part(&self, page: &mut Page, number: u64) -> Result<(), NoMemory>
        requires { number < 65536 }
        ensures { OnOk result (page.new ≡ page.old ++ part self.now number) };
}

/// Appends the parts from the first on that are below the end.
pub(crate) fn push_parts<P: Parts>(
    page: &mut Page,
    parts: &P,
    first: u64,
    end: u64,
) -> Result<(), NoMemory>
    requires { end ≤ 65536 }
    ensures { OnOk result (page.new ≡ page.old ++ flat_map (P.part parts.now) (between first end)) }
{
    for number in first..end {
        parts.push_part(page, number)?;
    }
    Ok(())
}

/// Writes the parts below the end, between a head and a tail.
pub(crate) fn write_parts<P: Parts, S: Sink>(
    alloc: Global,
    parts: &P,
    end: u64,
    head: &[u8],
    tail: &[u8],
    sink: &mut S,
) -> Result<(), SinkFault>
    requires { end ≤ 65536 }
    ensures growth { let text = head.now ++ (flat_map (P.part parts.now) (between 0 end) ++ tail.now) in
        Writes result (S.written sink.old) (S.written sink.new) text }
    ensures cause { SinkCause result (S.faults sink.old) (S.faults sink.new) }
{
    let mut page = Page::new(alloc);
    page.push(head)?;
    for number in 0..end {
        parts.push_part(&mut page, number)?;
        page.turn(sink)?;
    }
    page.push(tail)?;
    page.finish(sink)
}
