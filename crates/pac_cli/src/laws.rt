ghost use Rattle.std.specs.Prelude.{ℕ, List, Option, None, Some, false, option_map, ◌≡◌};
ghost use Rattle.pac_cli.specs.Answers.{Answer, Decides, IsAnswer, bad_number, has_numbers, no_command, refused};
ghost use Rattle.pac_inputs.specs.Gathering.{FileMap};
ghost use Rattle.pac_words.specs.Commands.{command_of};
ghost use Rattle.pac_words.specs.declared.command.BusKind.{BusKind};
ghost use Rattle.pac_words.specs.declared.command.Command.{Command};

/// The words, the kinds of the lent buses and the files decide at most one answer.
pub fn one_answer()
    ensures { (words : List (List ℕ)) (kinds : List BusKind) (files : FileMap) (one other : Answer) → IsAnswer words kinds (Some files) one → IsAnswer words kinds (Some files) other → one ≡ other }
{}

/// A command and its inputs decide at most one answer.
pub fn one_decision()
    ensures { (command : Command) (inputs : List (List ℕ)) (one other : Answer) → Decides command inputs one → Decides command inputs other → one ≡ other }
{}

/// Only words that ask for no command are refused as such.
pub fn refused_words()
    ensures { (words : List (List ℕ)) (kinds : List BusKind) (told : Option FileMap) → IsAnswer words kinds told (refused no_command) → command_of words ≡ None }
{}

/// Only words that ask for a command without the numbers that it needs are refused as such.
pub fn refused_numbers()
    ensures { (words : List (List ℕ)) (kinds : List BusKind) (told : Option FileMap) → IsAnswer words kinds told (refused bad_number) → option_map has_numbers (command_of words) ≡ Some false }
{}
