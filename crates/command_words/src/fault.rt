//! Why there is no command.

ghost use Rattle.std.specs.Prelude.{◌≡◌};
ghost use Rattle.command_words.specs.declared.fault.CommandFault.TheVariants.{Memory as no_memory};

use bson_values::Memory;
use command_replies::Refusal;

/// Why there is no command.
#[derive(Debug, Drop)]
pub enum CommandFault {
    /// The request is refused.
    Refused(Refusal),
    /// Out of memory.
    Memory,
}

impl From<Memory> for CommandFault {
    ghost from_gives = { λ _ e. e ≡ no_memory };

    fn from(_e: Memory) -> CommandFault {
        CommandFault::Memory
    }
}
