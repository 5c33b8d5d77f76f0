ghost use Rattle.std.specs.Prelude.{◌≡◌, IfSome};
ghost use Rattle.pac_cli.specs.Answers.{has_numbers};
ghost use Rattle.pac_cli.specs.Stages.{Numbers};
ghost use Rattle.pac_sample.specs.Wanted.{IsCount, numbers_given};

use pac_base::Text;
use pac_fault::{PacFault, WordsFault};
use pac_sample::number_and_count;
use pac_words::Command;

/// The words of `sample` have to give its numbers.
pub(crate) fn check_numbers(command: &Command) -> Result<(), PacFault>
    ensures { Numbers (has_numbers command.now) result }
{
    if has_numbers(command) {
        return Ok(());
    }
    Err(PacFault::Words(WordsFault::BadNumber))
}

/// Whether a command has the numbers that it needs. No command but `sample` needs any.
fn has_numbers(command: &Command) -> bool
    ensures { result ≡ has_numbers command.now }
{
    match command {
        Command::Listing { .. } => true,
        Command::Generating { .. } => true,
        Command::Executing { .. } => true,
        Command::Running { .. } => true,
        Command::Sampling { number, count } => numbers_of(number, count).is_some(),
    }
}

/// The numbers that the words of `sample` give: what the reset values begin with, and how many registers there are.
pub(crate) fn numbers_of(number: &Text, count: &Text) -> Option<(u64, u64)>
    ensures given { result ≡ numbers_given number.now count.now }
    ensures count { IfSome result (λ numbers. IsCount numbers.1) }
{
    number_and_count(number.as_str().as_bytes(), count.as_str().as_bytes())
}
