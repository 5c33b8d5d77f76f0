ghost use Rattle.std.specs.Prelude.{◌≡◌, Some, slice_get, option_map, length};
ghost use Rattle.frag_tree.specs.Trees.{crate_tree};
ghost use Rattle.frag_eval.specs.Prefixes.{IsUnderWay, accesses_in, dues};

use crate::course::Course;
use crate::role::Role;
use frag_tree::Events;
use std::marker::Model;

/// How far a run has come.
#[derive(Drop)]
pub enum Stage {
    /// There are more accesses to make.
    Running(Running),
    /// All events were made.
    Done(Events),
}

/// A run that stands before an access. Contracts see the crate, the script, and the events that were made.
#[derive(Drop)]
pub struct Running {
    pub(crate) course: Course,
}

impl Model for Running {
    ghost use Rattle.frag_eval.specs.Courses.{IsAtAccess, seen_of};
    ghost use Rattle.frag_eval.specs.Runs.{UnderWay};
    ghost use Rattle.frag_tree.specs.contracts.block.Module as module_row;
    ghost use Rattle.std.specs.Coded.{codes};

    ghost coded = { Prim.hlevel (codes, module_row.the_row.coded) };

    ghost Value = { UnderWay };

    ghost view = { λ running. seen_of running.course };

    ghost invariant = { λ running. IsAtAccess running.course };
}

/// The bus failed in the middle of a run.
#[derive(Drop)]
pub struct BusFault {
    /// How many events were made.
    pub done: u64,
    /// The events that were made.
    pub events: Events,
}

impl Running {
    /// What the next access is. Takes no memory.
    pub fn role(&self) -> Role
        ensures { option_map (λ due. due.role) (slice_get (dues (crate_tree self.now.krate) self.now.script) (length (accesses_in self.now.events))) ≡ Some result }
    {
        self.course.target().role
    }

    /// The line of the statement that asks for it. Takes no memory.
    pub fn line(&self) -> u32
        ensures { option_map (λ due. due.line) (slice_get (dues (crate_tree self.now.krate) self.now.script) (length (accesses_in self.now.events))) ≡ Some result }
    {
        self.course.target().line
    }

    /// The events that were made so far. Takes no memory.
    pub fn made(&self) -> &Events
        ensures same { result.now.list ≡ self.now.events }
        ensures prefix { IsUnderWay (crate_tree self.now.krate) self.now.script self.now.events }
    {
        &self.course.made
    }

    /// The events that were made so far, out of the run.
    pub(crate) fn into_made(self) -> Events
        ensures same { result.list ≡ self.events }
        ensures prefix { IsUnderWay (crate_tree self.krate) self.script self.events }
    {
        let course = self.course;
        course.made
    }
}
