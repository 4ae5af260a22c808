//! What is asked of a command.

ghost use Rattle.std.specs.Prelude.{◌≡◌, Ok};
ghost use Rattle.mi_model.specs.Words.{walks};
ghost use Rattle.mi_words.specs.Asked.{asked};

use mi_words::Command;

/// Whether a command carries out a package.
pub fn is_walk(command: &Command<'_>) -> bool
    ensures { result ≡ walks (Ok (asked command.now)) }
{
    match command {
        Command::Package(_) => true,
        Command::Selftest(_) => true,
        Command::Clients => false,
        Command::Products => false,
        Command::Recover => false,
    }
}
