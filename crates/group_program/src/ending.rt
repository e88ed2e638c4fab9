ghost use Rattle.std.specs.Prelude.{◌≡◌};
ghost use Rattle.std.specs.Process.{exit_status};
ghost use Rattle.scenario_play.specs.Status.{number_of_status};

use scenario_play::Status;
use std::process::ExitCode;

/// What a program ends with whose command ended so: the status's number.
pub(crate) fn exit_of(status: Status) -> ExitCode
    ensures { exit_status result ≡ number_of_status status }
{
    ExitCode::from(status.number())
}
