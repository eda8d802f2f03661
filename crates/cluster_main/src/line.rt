//! What the program prints at its end.

ghost use Rattle.std.specs.Prelude.{◌≡◌};
ghost use Rattle.std.specs.Option.{option_map};
ghost use Rattle.std.specs.Process.{exit_status};
ghost use Rattle.cluster_main.specs.Lines.{line_at};

use cluster_top::Status;
use std::io::Eprint;
use std::process::ExitCode;

/// Returns the line of the status with this number.
pub fn line_for(number: u8) -> Option<&'static str>
    ensures { option_map (λ line. line.now) result ≡ line_at number }
{
    match Status::with_number(number) {
        Some(status) => status.line(),
        None => None,
    }
}

/// Writes the line of the status with this number, where there is one, and returns the number to the process. A
/// line that can't be written is left out.
pub fn told<R: Eprint>(rt: &R, number: u8) -> ExitCode
    ensures { exit_status result ≡ number }
{
    if let Some(line) = line_for(number) {
        let _ = rt.eprintln(line);
    }
    ExitCode::from(number)
}
