ghost use Rattle.std.specs.Prelude.{◌≡◌, ◌<◌, ◌+◌, ◌^◌, true, IfOk};
ghost use Rattle.crate_form.specs.Crates.{emitted};
ghost use Rattle.crate_form.specs.Forms.{HasForm};
ghost use Rattle.frag_emit.specs.Parts.{IsFar, PrintsNext, PrintsPart};
ghost use Rattle.frag_emit.specs.Standing.{StandsFor};
ghost use Rattle.frag_tree.specs.Crates.{printed};
ghost use Rattle.frag_tree.specs.Validity.{valid_crate};
ghost use Rattle.pac_io.specs.Writing.{SinkCause, Writes};

use crate_form::{crate_block, crate_slots, crate_version};
use frag_tree::{print_head, print_top_block};
use pac_io::{Sink, SinkFault};
use std::alloc::Global;
use svd_model::Checked;

/// The printing of the crate text of a checked description, one part after the other: the head first, and then
/// one module at the top after the other. It keeps neither the text nor its tree between calls.
#[derive(Drop)]
pub struct Emitter<'a> {
    /// The description.
    pub state: &'a Checked,
    /// How many parts were printed.
    pub done: u64,
}

impl<'a> Emitter<'a> {
    /// Appends the next part of the crate text and counts it; `false` where no part is left. The crate whose parts
    /// these are is the one that has the form which the rows of the description ask for. A fault leaves the count
    /// as it was, and a first part of the part may have been written.
    pub fn next<S: Sink>(&mut self, alloc: Global, sink: &mut S) -> Result<bool, SinkFault>
        ensures state { self.new.state ≡ self.old.state }
        ensures part { PrintsNext result (emitted self.old.state.now) self.old.done self.new.done (S.written sink.old) (S.written sink.new) }
        ensures cause { SinkCause result (S.faults sink.old) (S.faults sink.new) }
        ensures form { HasForm self.old.state.now (emitted self.old.state.now) }
        ensures stands { StandsFor self.old.state.now (emitted self.old.state.now) }
    {
        let _device = self.state.device();
        let is_printed = print_part(alloc, self.state, self.done, sink)?;
        if is_printed {
            self.done += 1;
        }
        Ok(is_printed)
    }
}

/// Prints the part of this number, if there is one: the head is number 0.
fn print_part<S: Sink>(
    alloc: Global,
    state: &Checked,
    number: u64,
    sink: &mut S,
) -> Result<bool, SinkFault>
    ensures part { PrintsPart result (emitted state.now) number (S.written sink.old) (S.written sink.new) }
    ensures cause { SinkCause result (S.faults sink.old) (S.faults sink.new) }
    ensures far { IsFar result number }
{
    match number.checked_sub(1) {
        None => print_first(alloc, state, sink),
        Some(index) => print_module(alloc, state, index, sink),
    }
}

/// Prints the head.
fn print_first<S: Sink>(alloc: Global, state: &Checked, sink: &mut S) -> Result<bool, SinkFault>
    ensures part { PrintsPart result (emitted state.now) 0 (S.written sink.old) (S.written sink.new) }
    ensures cause { SinkCause result (S.faults sink.old) (S.faults sink.new) }
{
    let slots = crate_slots(alloc, state)?;
    print_head(alloc, crate_version(state), slots.as_slice(), sink)?;
    Ok(true)
}

/// Prints the module of this number at the top, counted from 0, if there is one.
fn print_module<S: Sink>(
    alloc: Global,
    state: &Checked,
    index: u64,
    sink: &mut S,
) -> Result<bool, SinkFault>
    ensures part { PrintsPart result (emitted state.now) (index + 1) (S.written sink.old) (S.written sink.new) }
    ensures cause { SinkCause result (S.faults sink.old) (S.faults sink.new) }
    ensures far { IsFar result (index + 1) }
{
    let _device = state.device();
    match crate_block(alloc, state, index as usize)? {
        Some(block) => {
            print_top_block(alloc, &block, sink)?;
            Ok(true)
        }
        None => Ok(false),
    }
}

/// Writes the crate text of a checked description, part after part: its crate is the one that has the form which
/// the rows ask for.
pub fn print_text<S: Sink>(alloc: Global, state: &Checked, sink: &mut S) -> Result<(), SinkFault>
    ensures growth { Writes result (S.written sink.old) (S.written sink.new) (printed (emitted state.now)) }
    ensures cause { SinkCause result (S.faults sink.old) (S.faults sink.new) }
    ensures form { HasForm state.now (emitted state.now) }
    ensures stands { StandsFor state.now (emitted state.now) }
    ensures valid { IfOk result (λ _. valid_crate (emitted state.now) ≡ true) }
{
    let _device = state.device();
    let mut emitter = Emitter { state, done: 0 };
    while emitter.next(alloc, sink)? {}
    Ok(())
}
