//! The words of a command line that ask for a seed.
ghost use Rattle.std.specs.Prelude.{◌≡◌, ℕ, IfSome, IfNone, map, string_bytes};
ghost use Rattle.dash_run.specs.CommandLine.{AsksSeed, AsksSummary, AsksNoSeed};

use crate::command_line::number;

/// The seed that the words ask for, where they are `gen SEED`.
pub fn read_seed(words: &[String]) -> Option<u32>
    ensures some { IfSome result (AsksSeed (map string_bytes words.now)) }
    ensures none { IfNone result (AsksNoSeed (map string_bytes words.now)) }
{
    match words {
        [command, seed] => read_two(command.as_str(), seed.as_str()),
        _ => None,
    }
}

/// `gen SEED`.
fn read_two(command: &str, seed: &str) -> Option<u32>
    ensures some { IfSome result (AsksSummary command.now seed.now) }
    ensures none { IfNone result ((n : ℕ) → AsksSummary command.now seed.now n → ⊥) }
{
    if command != "gen" {
        return None;
    }
    number(seed)
}
