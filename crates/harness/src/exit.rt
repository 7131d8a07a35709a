//! How a program of one's own tests exits.

ghost use Rattle.std.specs.Prelude.{◌≡◌, IfOk, IfErr};
ghost use Rattle.std.specs.Process.{exit_status};

use command_line::Ending;
use std::io::Write;
use std::process::ExitCode;
use test_tree::BuildFault;

/// The exit code of a program whose tests were run, or could not be built; the second is said, and is
/// status 255.
pub fn exit_code<E: Write>(run: Result<Ending, BuildFault>, errors: &mut E) -> ExitCode
    ensures run { IfOk run (λ ending. exit_status result ≡ ending.status) }
    ensures unbuilt { IfErr run (λ _. exit_status result ≡ 255) }
{
    match run {
        Ok(ending) => ExitCode::from(ending.status),
        Err(fault) => {
            let _ = errors.write_fmt(format_args!("{fault}\n"));
            ExitCode::from(255)
        }
    }
}
