ghost use Rattle.std.specs.Prelude.{◌≡◌, ◌↔◌, [], IsSome};
ghost use Rattle.clap.specs.Words.{fault_of};
ghost use Rattle.pac_words.specs.Commands.{NamesBus, command_of};
ghost use Rattle.pac_words.specs.Table.{table};

use pac_base::Text;

/// Words ask for a command exactly where `clap`'s definition finds no fault in them over the table, and
/// `--bus` names a bus where it is given.
pub fn asks_without_fault(_words: &[Text])
    ensures { IsSome (command_of _words.now) ↔ ((fault_of table _words.now ≡ []) × NamesBus _words.now) }
{}
