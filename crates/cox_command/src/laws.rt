//! Laws of the definitions.
ghost use Rattle.std.specs.Prelude.{◌≡◌, ℕ, List, Option, Some, None};
ghost use Rattle.cox_command.specs.CommandReading.{command_of};
ghost use Rattle.cox_command.specs.LineRefusal.{line_refusal};
ghost use Rattle.cox_command.specs.declared.command.Command.{Command};
ghost use Rattle.cox_command.specs.declared.command_word.CommandWord.{CommandWord};
ghost use Rattle.cox_command.specs.CommandWord.{command_text, command_word_of};

/// The tokens of a line that is not refused give a command.
pub fn accepted_gives_command()
    ensures { (tokens : List (List ℕ)) (rank : Option ℕ) → line_refusal tokens rank ≡ None
        → (command : Command) × (command_of tokens rank ≡ Some command) }
{}

/// Each command has a word.
pub fn each_has_a_word()
    ensures { (command : CommandWord) → command_word_of (command_text command) ≡ Some command }
{}
