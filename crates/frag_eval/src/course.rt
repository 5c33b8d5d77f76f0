ghost use Rattle.std.specs.Prelude.{◌≡◌, ◌≤◌, ◌<◌, ◌+◌, length, ◌++◌, ◌∷◌, []};
ghost use Rattle.std.specs.Vec.{vec_capacity};
ghost use Rattle.frag_eval.specs.Courses.{Accesses, GoesTo, IsAtAccess, IsCourse, IsTarget, Keeps, Makes, MayMake, NextSaid, SaysAll, next_of};

use crate::deed::{Deed, Target};
use crate::word::{operand_said, written_word};
use frag_tree::{Event, Events, Said};
use frag_types::{TypedCrate, TypedScript};
use pac_bus::{Bus, BusFailed};
use std::snapshot::Snapshot;

/// How far a run has come.
#[derive(Drop)]
pub(crate) struct Course {
    /// The crate, for contracts alone.
    pub of: Snapshot<TypedCrate>,
    pub script: TypedScript,
    /// All that there is to do.
    pub deeds: Vec<Deed>,
    /// Which of it is next.
    pub next: usize,
    /// The words that were read.
    pub words: Vec<u64>,
    pub made: Events,
}

impl Course {
    /// What is said next, if anything is.
    fn next_said(&self) -> Option<Said>
        ensures { NextSaid result (next_of self.now) self.now.words.items }
    {
        match self.deeds.get(self.next) {
            Some(Deed::Say { value }) => Some(operand_said(self.words.as_slice(), value)),
            Some(Deed::Read { .. }) => None,
            Some(Deed::Write { .. }) => None,
            None => None,
        }
    }

    /// Where the next access goes.
    pub(crate) fn target(&self) -> &Target
        requires { IsTarget (next_of self.now) }
        ensures { GoesTo (next_of self.now) result.now }
    {
        match self.deeds.get(self.next) {
            Some(Deed::Read { at }) => at,
            Some(Deed::Write { at, .. }) => at,
            Some(Deed::Say { .. }) => unreachable!(),
            None => unreachable!(),
        }
    }

    /// Puts an event behind those that were made, for which there is room.
    fn keep(&mut self, event: Event)
        requires room { 1 ≤ self.old.made.spare }
        requires next { self.old.next < length self.old.deeds.items }
        ensures { Keeps self.old self.new event }
    {
        match self.made.push(event) {
            Ok(()) => (),
            Err(_) => unreachable!(),
        }
        self.next += 1;
    }

    /// Says all that is to be said before the next access.
    pub(crate) fn say_all(&mut self)
        requires { IsCourse self.old }
        ensures { SaysAll self.old self.new }
    {
        while let Some(said) = self.next_said() {
            self.keep(Event::Say(said));
        }
    }

    /// Makes the access that is next.
    pub(crate) fn access<B: Bus>(&mut self, bus: &mut B) -> Result<(), BusFailed>
        requires at { IsAtAccess self.old }
        requires spare { 1 ≤ (B.told bus.old).spare }
        ensures { Accesses result (B.told bus.old) (B.told bus.new) self.old self.new }
    {
        let event = make(&self.deeds[self.next], &mut self.words, bus)?;
        self.keep(event);
        Ok(())
    }
}

/// Makes the access of a deed.
fn make<B: Bus>(deed: &Deed, words: &mut Vec<u64>, bus: &mut B) -> Result<Event, BusFailed>
    requires may { MayMake deed.now words.old.items }
    requires room { length words.old.items + 1 ≤ vec_capacity words.old }
    requires spare { 1 ≤ (B.told bus.old).spare }
    ensures makes { Makes result (B.told bus.old) (B.told bus.new) deed.now words.old.items words.new.items }
    ensures capacity { vec_capacity words.old ≤ vec_capacity words.new }
{
    match deed {
        Deed::Read { at } => {
            let value = bus.read(at.address, at.width)?;
            keep_word(words, value);
            Ok(Event::Read {
                address: at.address,
                width: at.width,
                value,
            })
        }
        Deed::Write { at, start, puts } => {
            let value = written_word(words.as_slice(), at.width, start, puts.as_slice());
            bus.write(at.address, at.width, value)?;
            Ok(Event::Write {
                address: at.address,
                width: at.width,
                value,
            })
        }
        Deed::Say { .. } => unreachable!(),
    }
}

/// Puts a word behind those that were read, for which there is room.
fn keep_word(words: &mut Vec<u64>, word: u64)
    requires { length words.old.items + 1 ≤ vec_capacity words.old }
    ensures items { words.new.items ≡ words.old.items ++ word ∷ [] }
    ensures capacity { vec_capacity words.old ≤ vec_capacity words.new }
{
    match words.push(word) {
        Ok(()) => (),
        Err(_) => unreachable!(),
    }
}
