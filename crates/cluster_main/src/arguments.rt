//! The arguments of the command line.

ghost use Rattle.std.specs.Prelude.{◌≡◌, ◌≢◌, Err, IfOk, IfErr, OnOk, map, drop, string_bytes};
ghost use Rattle.std.specs.Vec.Iter.{into_iter_items};
ghost use Rattle.std.specs.IoError.{error_kind};
ghost use Rattle.std.specs.declared.io.ErrorKind.TheVariants.{OutOfMemory};
ghost use Rattle.cluster_main.specs.declared.arguments.NoArguments.TheVariants as none;

use bson_values::{Memory, Text};
use std::alloc::Global;
use std::env::Args;
use std::io;

/// Why a command line has no arguments.
#[derive(Clone, Copy, Debug, PartialEq, Eq)]
pub enum NoArguments {
    /// It can't be read, as where an argument is not UTF-8.
    Unreadable,
    /// Out of memory.
    Memory,
}

/// Returns the arguments as strings.
fn texts_of(alloc: Global, args: Args) -> Result<Vec<Text>, Memory>
    ensures { IfOk result (λ words. words.items ≡ map string_bytes (into_iter_items args)) }
{
    let mut words = Vec::new(alloc);
    for arg in args {
        words.push(Text::of(alloc, arg.as_str())?)?;
    }
    Ok(words)
}

/// Returns the program's arguments after its own name, as strings, from what the system gives.
pub fn arguments_of(alloc: Global, given: io::Result<Args>) -> Result<Vec<Text>, NoArguments>
    ensures words { IfOk given (λ args. IfOk result (λ words. words.items ≡ map string_bytes (drop 1 (into_iter_items args)))) }
    ensures no_room { OnOk given (IfErr result (λ e. e ≡ none.Memory)) }
    ensures no_memory { IfErr given (λ e. error_kind e ≡ OutOfMemory → result ≡ Err none.Memory) }
    ensures unreadable { IfErr given (λ e. error_kind e ≢ OutOfMemory → result ≡ Err none.Unreadable) }
{
    let mut args = match given {
        Ok(args) => args,
        Err(e) if e.kind() == io::ErrorKind::OutOfMemory => return Err(NoArguments::Memory),
        Err(_) => return Err(NoArguments::Unreadable),
    };
    let _name = args.next();
    texts_of(alloc, args).map_err(|_| NoArguments::Memory)
}
