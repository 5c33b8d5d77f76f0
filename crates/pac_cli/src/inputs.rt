ghost use Rattle.std.specs.Prelude.{◌≡◌, IfOk};
ghost use Rattle.pac_cli.specs.Inputs.{execution_files, files_of, run_files, script_file, source_files};

use pac_base::{NoMemory, Text};
use pac_inputs::Wanted;
use pac_words::{Command, Run, Source};
use std::alloc::Global;

/// How many bytes a description, a patch or a script may have: 64 MiB.
const LONGEST: u64 = 67_108_864;

/// How many bytes a crate text may have: 256 MiB.
const LONGEST_CRATE: u64 = 268_435_456;

/// The files of a command, in the order in which it reads them.
pub(crate) fn files_of(alloc: Global, command: &Command) -> Result<Vec<Wanted>, NoMemory>
    ensures { IfOk result (λ files. files.items ≡ files_of command.now) }
{
    match command {
        Command::Listing { source } | Command::Generating { source } => source_files(alloc, source),
        Command::Executing { krate, run } => execution_files(alloc, krate, run),
        Command::Running { source, run } => run_files(alloc, source, run),
        Command::Sampling { .. } => Ok(Vec::new(alloc)),
    }
}

/// The files that a description comes from.
fn source_files(alloc: Global, source: &Source) -> Result<Vec<Wanted>, NoMemory>
    ensures { IfOk result (λ files. files.items ≡ source_files source.now) }
{
    let name = source.svd.copy(alloc)?;
    let mut files = Vec::new(alloc);
    files.push(Wanted {
        name,
        limit: LONGEST,
    })?;
    if let Some(patch) = &source.patch {
        let name = patch.copy(alloc)?;
        files.push(Wanted {
            name,
            limit: LONGEST,
        })?;
    }
    Ok(files)
}

/// A crate text, and the script that is run against it.
fn execution_files(alloc: Global, krate: &Text, run: &Run) -> Result<Vec<Wanted>, NoMemory>
    ensures { IfOk result (λ files. files.items ≡ execution_files krate.now run.now) }
{
    let name = krate.copy(alloc)?;
    let mut files = Vec::new(alloc);
    files.push(Wanted {
        name,
        limit: LONGEST_CRATE,
    })?;
    files.push(script_file(alloc, run)?)?;
    Ok(files)
}

/// The files of a description, and the script that is run against its crate text.
fn run_files(alloc: Global, source: &Source, run: &Run) -> Result<Vec<Wanted>, NoMemory>
    ensures { IfOk result (λ files. files.items ≡ run_files source.now run.now) }
{
    let mut files = source_files(alloc, source)?;
    files.push(script_file(alloc, run)?)?;
    Ok(files)
}

/// The script of a run.
fn script_file(alloc: Global, run: &Run) -> Result<Wanted, NoMemory>
    ensures { IfOk result (λ file. file ≡ script_file run.now) }
{
    let name = run.script.copy(alloc)?;
    Ok(Wanted {
        name,
        limit: LONGEST,
    })
}
