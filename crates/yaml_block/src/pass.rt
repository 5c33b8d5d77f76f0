ghost use Rattle.std.specs.Prelude.{◌≡◌, ◌+◌, length, reverse, IfOk, MatchBool, Some, None};
ghost use Rattle.yaml_block.specs.Nesting.{too_deep};
ghost use Rattle.yaml_block.specs.Passing.{down_to, is_collection, start, verdict};

use crate::content::Content;
use crate::line::Line;
use crate::value::Value;
use pac_base::NoMemory;
use std::alloc::Global;

/// How deep mappings and lists may nest, the file's mapping being the first.
const DEEPEST: usize = 64;

/// What the last line was.
#[derive(Clone, Copy, Drop)]
pub enum Behind {
    /// No line, or an entry with its value.
    Value,
    /// A key without a value on its line, which is this one.
    Key(u32),
    /// An item of a list at this indent.
    Item(usize),
}

/// What lines are together.
#[derive(Drop)]
pub enum Verdict {
    /// They fit; and the first line that holds a mapping or list too deep, if there is one.
    Right(Option<u32>),
    /// This line is the first that doesn't fit.
    Wrong(u32),
}

/// Where the lines that were passed have come.
#[derive(Drop)]
pub struct Pass {
    /// The indent of the innermost mapping that is open.
    top: usize,
    /// The indents of the mappings round it, the file's first.
    outer: Vec<usize>,
    /// What the last line was.
    last: Behind,
    /// The first line that holds a mapping or list too deep.
    deep: Option<u32>,
}

/// Whether the value is a flow collection.
fn is_collection(value: &Value) -> bool
    ensures { result ≡ is_collection value.now }
{
    match value {
        Value::Scalar(_) => false,
        Value::Sequence(_) | Value::Mapping(_) => true,
    }
}

/// Closes the mappings that are deeper than the indent, and gives the innermost that is left.
fn close(top: usize, outer: &mut Vec<usize>, indent: usize) -> usize
    ensures { (result, reverse outer.new.items) ≡ down_to indent top (reverse outer.old.items) }
{
    let mut top = top;
    while indent < top {
        match outer.pop() {
            Some(next) => top = next,
            None => break,
        }
    }
    top
}

impl Pass {
    ghost use Rattle.std.specs.Prelude.{◌≡◌, ◌+◌, length, reverse, IfOk, MatchBool, Some, None};
    ghost use Rattle.yaml_block.specs.Nesting.{too_deep};
    ghost use Rattle.yaml_block.specs.Passing.{deep_flow, down_to, entry_step, is_collection, item_step, list_at, noted, opened, placed, start, state_of, step};

    fn new(alloc: Global) -> Pass
        ensures { state_of result ≡ start }
    {
        Pass {
            top: 0,
            outer: Vec::new(alloc),
            last: Behind::Value,
            deep: None,
        }
    }

    /// Notes the line if it is the first that holds what stands in so many others and too deep.
    fn note(&mut self, collects: bool, level: usize, line: u32)
        ensures { state_of self.new ≡ noted (deep_flow collects level line) (state_of self.old) }
    {
        if collects && level >= DEEPEST && self.deep.is_none() {
            self.deep = Some(line);
        }
    }

    /// Begins a mapping where the indent is that of the first entry of a key's mapping.
    #[tactic(auto, unfolding(crate::specs::Passing::opened))]
    fn open(&mut self, indent: usize) -> Result<(), NoMemory>
        ensures { IfOk result (λ done. state_of self.new ≡ opened indent (state_of self.old)) }
    {
        match self.last {
            Behind::Key(number) if self.top < indent => {
                let levels = self.outer.len() + 1;
                self.note(true, levels, number);
                self.outer.push(self.top)?;
                self.top = indent;
                Ok(())
            }
            _ => Ok(()),
        }
    }

    /// Places an entry into the mapping that is open at its indent, and says whether there is one.
    #[tactic(auto, unfolding(crate::specs::Passing::placed))]
    fn place(&mut self, number: u32, indent: usize, collects: bool, last: Behind) -> bool
        ensures { MatchBool result
            (placed number indent collects last (state_of self.old) ≡ Some (state_of self.new))
            (placed number indent collects last (state_of self.old) ≡ None) }
    {
        self.top = close(self.top, &mut self.outer, indent);
        if self.top != indent {
            return false;
        }
        self.last = last;
        let levels = self.outer.len() + 1;
        self.note(collects, levels, number);
        true
    }

    #[tactic(auto, unfolding(crate::specs::Passing::entry_step))]
    fn entry(
        &mut self,
        number: u32,
        indent: usize,
        collects: bool,
        last: Behind,
    ) -> Result<bool, NoMemory>
        ensures { IfOk result (λ fits. MatchBool fits
            (entry_step number indent collects last (state_of self.old) ≡ Some (state_of self.new))
            (entry_step number indent collects last (state_of self.old) ≡ None)) }
    {
        self.open(indent)?;
        Ok(self.place(number, indent, collects, last))
    }

    /// Whether a list is open at the indent. Behind a key without a value one begins.
    #[tactic(auto, unfolding(crate::specs::Passing::list_at))]
    fn list(&mut self, indent: usize) -> bool
        ensures { MatchBool result
            (list_at indent (state_of self.old) ≡ Some (state_of self.new))
            (list_at indent (state_of self.old) ≡ None) }
    {
        match self.last {
            Behind::Value => false,
            Behind::Key(number) => {
                if indent < self.top {
                    return false;
                }
                self.last = Behind::Item(indent);
                let levels = self.outer.len() + 1;
                self.note(true, levels, number);
                true
            }
            Behind::Item(other) => other == indent,
        }
    }

    #[tactic(auto, unfolding(crate::specs::Passing::item_step))]
    fn item(&mut self, number: u32, indent: usize, collects: bool) -> bool
        ensures { MatchBool result
            (item_step number indent collects (state_of self.old) ≡ Some (state_of self.new))
            (item_step number indent collects (state_of self.old) ≡ None) }
    {
        if !self.list(indent) {
            return false;
        }
        let levels = self.outer.len() + 1;
        self.note(collects, levels + 1, number);
        true
    }

    /// Passes a line, and says whether it fits.
    #[tactic(auto, unfolding(crate::specs::Passing::step))]
    fn take_in(&mut self, line: &Line) -> Result<bool, NoMemory>
        ensures { IfOk result (λ fits. MatchBool fits
            (step (state_of self.old) line.now ≡ Some (state_of self.new))
            (step (state_of self.old) line.now ≡ None)) }
    {
        match &line.content {
            Content::Item(value) => Ok(self.item(line.number, line.indent, is_collection(value))),
            Content::Key(_) => self.entry(
                line.number,
                line.indent,
                false,
                Behind::Key(line.number),
            ),
            Content::Entry(_, value) => {
                self.entry(
                    line.number,
                    line.indent,
                    is_collection(value),
                    Behind::Value,
                )
            }
        }
    }
}

/// The first line that doesn't fit, else the first that holds a mapping or list too deep.
pub fn verdict_on(alloc: Global, lines: &[Line]) -> Result<Verdict, NoMemory>
    ensures { IfOk result (λ said. said ≡ verdict start lines.now) }
{
    let mut pass = Pass::new(alloc);
    for line in lines {
        if !pass.take_in(line)? {
            return Ok(Verdict::Wrong(line.number));
        }
    }
    Ok(Verdict::Right(pass.deep))
}
