ghost use Rattle.std.specs.Prelude.{◌≡◌, IfOk, map};
ghost use Rattle.clap.specs.Words.{first_of, found_of, rows_of};
ghost use Rattle.pac_words.specs.Commands.{bus_of, command_of, executing, generating, is_set, kind_of, listing, run_of, running, sampling, source_of, told};

use crate::table::table;
use clap::ArgMatches;
use clap::error::ErrorKind;
use pac_base::{NoMemory, Text, TextFault};
use std::alloc::Global;

/// What the words ask for.
#[derive(Drop)]
pub enum Command {
    /// `list SVD`: a line for each register of a description, and one for each of its fields.
    Listing {
        /// The description.
        source: Source,
    },
    /// `generate SVD`: the text of a peripheral access crate.
    Generating {
        /// The description.
        source: Source,
    },
    /// `exec CRATE SCRIPT`: what a script does against a crate text.
    Executing {
        /// The name of the crate text's file, as the words have it.
        krate: Text,
        /// The script, and over which bus it runs.
        run: Run,
    },
    /// `run SVD SCRIPT`: what a script does against the crate text of a description.
    Running {
        /// The description.
        source: Source,
        /// The script, and over which bus it runs.
        run: Run,
    },
    /// `sample NUMBER COUNT`: what modifying each register of a made description comes to, over memory.
    Sampling {
        /// The word for the number that the reset values begin with.
        number: Text,
        /// The word for how many registers there are.
        count: Text,
    },
}

/// The files that a description comes from, and how it is checked.
#[derive(Drop)]
pub struct Source {
    /// The name of the description's file, as the words have it.
    pub svd: Text,
    /// The name of the patch's file, where the words have one.
    pub patch: Option<Text>,
    /// Whether overlaps are refused.
    pub strict: bool,
}

/// A script, and over which bus it runs.
#[derive(Drop)]
pub struct Run {
    /// The name of the script's file, as the words have it.
    pub script: Text,
    /// The kind of the bus: `zero` where the words name none.
    pub bus: BusKind,
}

/// The kinds of buses. A word of `--bus` chooses each but the last, which no word chooses yet.
#[derive(Clone, Copy, Debug, PartialEq, Eq)]
pub enum BusKind {
    /// `zero`: each read gives 0.
    Zero,
    /// `memory`: a read gives what was written there.
    Memory,
    /// A device, as a description has it.
    Device,
}

/// The command that the words ask for, or `None` exactly where `clap` refuses them, or the word of `--bus`
/// names no bus.
pub fn command_of(alloc: Global, words: &[Text]) -> Result<Option<Command>, NoMemory>
    ensures { IfOk result (λ command. command ≡ command_of words.now) }
{
    let texts = texts(alloc, words)?;
    let command = table(alloc)?;
    let matches = match command.try_get_matches_from(texts.as_slice()) {
        Ok(matches) => matches,
        Err(error) => {
            return match error.kind() {
                ErrorKind::OutOfMemory => Err(NoMemory),
                _ => Ok(None),
            };
        }
    };
    match matches.subcommand() {
        Some((name, inner)) => told(alloc, name, inner),
        None => Ok(None),
    }
}

/// The words, as `clap` takes them.
fn texts<'a>(alloc: Global, words: &'a [Text]) -> Result<Vec<&'a str>, NoMemory>
    ensures { IfOk result (λ texts. map (λ text. text.now) texts.items ≡ words.entry.now) }
{
    let mut texts = Vec::new(alloc);
    for word in words {
        texts.push(word.as_str())?;
    }
    Ok(texts)
}

/// The command of this name, with the values that were found for its arguments.
fn told(alloc: Global, name: &str, matches: &ArgMatches<'_>) -> Result<Option<Command>, NoMemory>
    ensures { IfOk result (λ command. command ≡ told name.now (rows_of (found_of matches.now))) }
{
    match name {
        "list" => listing(alloc, matches),
        "generate" => generating(alloc, matches),
        "exec" => executing(alloc, matches),
        "run" => running(alloc, matches),
        "sample" => sampling(alloc, matches),
        _ => Ok(None),
    }
}

fn listing(alloc: Global, matches: &ArgMatches<'_>) -> Result<Option<Command>, NoMemory>
    ensures { IfOk result (λ command. command ≡ listing (rows_of (found_of matches.now))) }
{
    match source_of(alloc, matches)? {
        Some(source) => Ok(Some(Command::Listing { source })),
        None => Ok(None),
    }
}

fn generating(alloc: Global, matches: &ArgMatches<'_>) -> Result<Option<Command>, NoMemory>
    ensures { IfOk result (λ command. command ≡ generating (rows_of (found_of matches.now))) }
{
    match source_of(alloc, matches)? {
        Some(source) => Ok(Some(Command::Generating { source })),
        None => Ok(None),
    }
}

fn executing(alloc: Global, matches: &ArgMatches<'_>) -> Result<Option<Command>, NoMemory>
    ensures { IfOk result (λ command. command ≡ executing (rows_of (found_of matches.now))) }
{
    let Some(krate) = value(alloc, matches, "crate")? else {
        return Ok(None);
    };
    match run_of(alloc, matches)? {
        Some(run) => Ok(Some(Command::Executing { krate, run })),
        None => Ok(None),
    }
}

fn running(alloc: Global, matches: &ArgMatches<'_>) -> Result<Option<Command>, NoMemory>
    ensures { IfOk result (λ command. command ≡ running (rows_of (found_of matches.now))) }
{
    let Some(source) = source_of(alloc, matches)? else {
        return Ok(None);
    };
    match run_of(alloc, matches)? {
        Some(run) => Ok(Some(Command::Running { source, run })),
        None => Ok(None),
    }
}

fn sampling(alloc: Global, matches: &ArgMatches<'_>) -> Result<Option<Command>, NoMemory>
    ensures { IfOk result (λ command. command ≡ sampling (rows_of (found_of matches.now))) }
{
    let Some(number) = value(alloc, matches, "number")? else {
        return Ok(None);
    };
    match value(alloc, matches, "count")? {
        Some(count) => Ok(Some(Command::Sampling { number, count })),
        None => Ok(None),
    }
}

fn run_of(alloc: Global, matches: &ArgMatches<'_>) -> Result<Option<Run>, NoMemory>
    ensures { IfOk result (λ found. found ≡ run_of (rows_of (found_of matches.now))) }
{
    let Some(script) = value(alloc, matches, "script")? else {
        return Ok(None);
    };
    match bus_of(alloc, matches)? {
        Some(bus) => Ok(Some(Run { script, bus })),
        None => Ok(None),
    }
}

/// The kind of bus that the words choose.
fn bus_of(alloc: Global, matches: &ArgMatches<'_>) -> Result<Option<BusKind>, NoMemory>
    ensures { IfOk result (λ found. found ≡ bus_of (rows_of (found_of matches.now))) }
{
    match value(alloc, matches, "bus")? {
        Some(word) => Ok(kind_of(word.as_str())),
        None => Ok(Some(BusKind::Zero)),
    }
}

/// The kind of bus that a word names.
fn kind_of(word: &str) -> Option<BusKind>
    ensures { result ≡ kind_of word.now }
{
    match word {
        "zero" => Some(BusKind::Zero),
        "memory" => Some(BusKind::Memory),
        _ => None,
    }
}

fn source_of(alloc: Global, matches: &ArgMatches<'_>) -> Result<Option<Source>, NoMemory>
    ensures { IfOk result (λ found. found ≡ source_of (rows_of (found_of matches.now))) }
{
    match value(alloc, matches, "svd")? {
        Some(svd) => Ok(Some(Source {
            svd,
            patch: value(alloc, matches, "patch")?,
            strict: is_set(matches, "strict"),
        })),
        None => Ok(None),
    }
}

/// Whether an option without a value is given.
fn is_set(matches: &ArgMatches<'_>, id: &str) -> bool
    ensures { result ≡ is_set id.now (rows_of (found_of matches.now)) }
{
    match matches.get_str(id) {
        Some(word) => word == "true",
        None => false,
    }
}

/// The first value of an argument.
fn value(alloc: Global, matches: &ArgMatches<'_>, id: &str) -> Result<Option<Text>, NoMemory>
    ensures { IfOk result (λ text. text ≡ first_of id.now (rows_of (found_of matches.now))) }
{
    match matches.get_str(id) {
        Some(word) => Ok(Some(text(alloc, word)?)),
        None => Ok(None),
    }
}

/// The text of a word.
fn text(alloc: Global, word: &str) -> Result<Text, NoMemory>
    ensures { IfOk result (λ text. text ≡ word.now) }
{
    match Text::new(alloc, word.as_bytes()) {
        Ok(text) => Ok(text),
        Err(TextFault::NotUtf8) => unreachable!(),
        Err(TextFault::Memory) => Err(NoMemory),
    }
}
