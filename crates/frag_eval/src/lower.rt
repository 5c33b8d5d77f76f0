ghost use Rattle.std.specs.Prelude.{◌≡◌, ◌∷◌, [], Some, None, IfOk, option_map, if◌then◌else◌};
ghost use Rattle.frag_index.specs.Walks.{found_seen};
ghost use Rattle.frag_sem.specs.Meaning.{let_outcome, modify_outcome, reset_outcome, say_outcome, write_outcome};
ghost use Rattle.frag_sem.specs.TextMeaning.{one_to_modify, started, zero_to_modify};
ghost use Rattle.frag_eval.specs.declared.role.Role.TheVariants as role;
ghost use Rattle.frag_eval.specs.Lowered.{Grows, IsFew, IsRead, TakesLine, a_due, acts_found, standing_of, target_of};

use crate::deed::{Deed, Start, Target};
use crate::names::{Bound, Names, Reading};
use crate::put::chain_puts;
use crate::role::Role;
use crate::term::operand;
use crate::word::start_word;
use frag_index::{Found, Unit};
use frag_tree::{Identifier, Link, ScriptLine, Statement, Value};
use pac_base::NoMemory;
use std::alloc::Global;

/// A script in plain numbers, as far as it was put into them.
#[derive(Drop)]
pub(crate) struct Lowering<'s, 'i, 'a> {
    pub deeds: Vec<Deed>,
    /// The names that are bound.
    pub bound: Bound<'s, 'i, 'a>,
    /// How many words are read.
    pub reads: usize,
}

/// Where an access goes.
fn target(found: Found<'_, '_>, role: Role, line: u32) -> Target
    ensures { result ≡ target_of (found_seen found.entry) role line }
{
    Target {
        address: found.address,
        width: found.register.word(),
        role,
        line,
    }
}

fn one_to_modify(unit: &Unit<'_>) -> u64
    ensures { result ≡ one_to_modify unit.now }
{
    match &unit.register().writable {
        Some(masks) => masks.one_to_modify.value,
        None => 0,
    }
}

fn zero_to_modify(unit: &Unit<'_>) -> u64
    ensures { result ≡ zero_to_modify unit.now }
{
    match &unit.register().writable {
        Some(masks) => masks.zero_to_modify.value,
        None => 0,
    }
}

/// The word from which a `write` starts.
fn started(unit: &Unit<'_>) -> u64
    ensures { result ≡ started unit.now unit.now.reset.value }
{
    start_word(
        unit.word(),
        unit.reset(),
        one_to_modify(unit),
        zero_to_modify(unit),
    )
}

/// Puts a read behind the deeds.
fn push_read<'i, 'a>(
    lowering: &mut Lowering<'_, 'i, 'a>,
    found: Found<'i, 'a>,
    role: Role,
    line: u32,
) -> Result<Reading<'i, 'a>, NoMemory>
    requires { IsFew lowering.old }
    ensures { IfOk result (λ reading. IsRead lowering.old lowering.new found.entry role line reading) }
{
    let read = lowering.reads;
    lowering.deeds.push(Deed::Read {
        at: target(found, role, line),
    })?;
    lowering.reads = read + 1;
    Ok(Reading {
        unit: found.register,
        read,
    })
}

fn lower_let<'s, 'i, 'a>(
    lowering: &mut Lowering<'s, 'i, 'a>,
    found: Found<'i, 'a>,
    name: &'s Identifier,
    line: u32,
) -> Result<(), NoMemory>
    requires { IsFew lowering.old }
    ensures { IfOk result (λ _. Grows lowering.old lowering.new (λ answers names. let_outcome name.now (standing_of answers names) (acts_found found.entry)) (a_due role.Read line)) }
{
    let reading = push_read(lowering, found, Role::Read, line)?;
    lowering.bound.set(name.bytes(), reading)
}

fn lower_write<'i, 'a>(
    alloc: Global,
    lowering: &mut Lowering<'_, 'i, 'a>,
    found: Found<'i, 'a>,
    base: u64,
    chain: &[Link],
    line: u32,
) -> Result<(), NoMemory>
    requires { IsFew lowering.old }
    ensures { IfOk result (λ _. Grows lowering.old lowering.new (λ answers names. write_outcome chain.now (standing_of answers names) (acts_found found.entry) base) (a_due role.Write line)) }
{
    let puts = chain_puts(
        alloc,
        &Names {
            bound: &lowering.bound,
            reader: None,
        },
        found.register,
        chain,
    )?;
    lowering.deeds.push(Deed::Write {
        at: target(found, Role::Write, line),
        start: Start::Word(base),
        puts,
    })?;
    Ok(())
}

fn lower_reset<'i, 'a>(
    alloc: Global,
    lowering: &mut Lowering<'_, 'i, 'a>,
    found: Found<'i, 'a>,
    line: u32,
) -> Result<(), NoMemory>
    requires { IsFew lowering.old }
    ensures { IfOk result (λ _. Grows lowering.old lowering.new (λ answers names. reset_outcome (standing_of answers names) (acts_found found.entry)) (a_due role.Write line)) }
{
    lowering.deeds.push(Deed::Write {
        at: target(found, Role::Write, line),
        start: Start::Word(found.register.reset()),
        puts: Vec::new(alloc),
    })?;
    Ok(())
}

/// What `r` is bound to within the chain of a `modify`.
fn reader_of<'i, 'a>(names_reader: bool, reading: Reading<'i, 'a>) -> Option<Reading<'i, 'a>>
    ensures { result ≡ (if names_reader then Some reading.entry else None) }
{
    if names_reader { Some(reading) } else { None }
}

fn lower_modify<'i, 'a>(
    alloc: Global,
    lowering: &mut Lowering<'_, 'i, 'a>,
    found: Found<'i, 'a>,
    names_reader: bool,
    chain: &[Link],
    line: u32,
) -> Result<(), NoMemory>
    requires { IsFew lowering.old }
    ensures { IfOk result (λ _. Grows lowering.old lowering.new (λ answers names. modify_outcome names_reader chain.now (standing_of answers names) (acts_found found.entry)) (record { role = role.ModifyRead; line = line } ∷ a_due role.ModifyWrite line)) }
{
    let reading = push_read(lowering, found, Role::ModifyRead, line)?;
    let puts = chain_puts(
        alloc,
        &Names {
            bound: &lowering.bound,
            reader: reader_of(names_reader, reading),
        },
        found.register,
        chain,
    )?;
    let write = Deed::Write {
        at: target(found, Role::ModifyWrite, line),
        start: Start::Based {
            read: reading.read,
            one: one_to_modify(found.register),
            zero: zero_to_modify(found.register),
        },
        puts,
    };
    lowering.deeds.push(write)?;
    Ok(())
}

fn lower_say(lowering: &mut Lowering<'_, '_, '_>, value: &Value) -> Result<(), NoMemory>
    requires { IsFew lowering.old }
    ensures { IfOk result (λ _. Grows lowering.old lowering.new (λ answers names. say_outcome value.now (standing_of answers names)) []) }
{
    let value = operand(
        &Names {
            bound: &lowering.bound,
            reader: None,
        },
        value,
    );
    lowering.deeds.push(Deed::Say { value })?;
    Ok(())
}

/// A statement that calls the register that was found.
fn lower_at<'s, 'i, 'a>(
    alloc: Global,
    lowering: &mut Lowering<'s, 'i, 'a>,
    found: Found<'i, 'a>,
    line: &'s ScriptLine,
) -> Result<(), NoMemory>
    requires { IsFew lowering.old }
    ensures { IfOk result (λ _. TakesLine lowering.old lowering.new line.now (Some (found_seen found.entry))) }
{
    match &line.statement {
        Statement::Let { name, .. } => lower_let(lowering, found, name, line.line),
        Statement::Write { chain, .. } => {
            let base = started(found.register);
            lower_write(alloc, lowering, found, base, chain.as_slice(), line.line)
        }
        Statement::WriteWithZero { chain, .. } => {
            lower_write(alloc, lowering, found, 0, chain.as_slice(), line.line)
        }
        Statement::Modify {
            names_reader,
            chain,
            ..
        } => lower_modify(
            alloc,
            lowering,
            found,
            *names_reader,
            chain.as_slice(),
            line.line,
        ),
        Statement::Reset { .. } => lower_reset(alloc, lowering, found, line.line),
        Statement::Say { value } => lower_say(lowering, value),
    }
}

/// A statement that calls no register that is there.
fn lower_nowhere(lowering: &mut Lowering<'_, '_, '_>, line: &ScriptLine) -> Result<(), NoMemory>
    requires { IsFew lowering.old }
    ensures { IfOk result (λ _. TakesLine lowering.old lowering.new line.now None) }
{
    match &line.statement {
        Statement::Let { .. } => Ok(()),
        Statement::Write { .. } => Ok(()),
        Statement::WriteWithZero { .. } => Ok(()),
        Statement::Modify { .. } => Ok(()),
        Statement::Reset { .. } => Ok(()),
        Statement::Say { value } => lower_say(lowering, value),
    }
}

/// Puts the deeds of a line behind those of the lines before it, given the register that it calls.
pub(crate) fn lower_line<'s, 'i, 'a>(
    alloc: Global,
    lowering: &mut Lowering<'s, 'i, 'a>,
    found: Option<Found<'i, 'a>>,
    line: &'s ScriptLine,
) -> Result<(), NoMemory>
    requires { IsFew lowering.old }
    ensures { IfOk result (λ _. TakesLine lowering.old lowering.new line.now (option_map found_seen found.entry)) }
{
    match found {
        Some(found) => lower_at(alloc, lowering, found, line),
        None => lower_nowhere(lowering, line),
    }
}
