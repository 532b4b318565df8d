ghost use Rattle.std.specs.Prelude.{◌≡◌, ℕ};
ghost use Rattle.std.specs.Process.{exit_status};

use std::marker::Model;
use std::process::{ExitCode, Termination};

/// The status with which the program ends, which `main` may return. There is no other way to it than
/// `command_of_process`.
#[derive(Drop)]
pub struct Status {
    number: u8,
}

impl Model for Status {
    ghost Value = { ℕ };

    ghost view = { λ s. s.number };
}

impl Status {
    /// The status of this number.
    pub(crate) fn new(number: u8) -> Status
        ensures { result ≡ number }
    {
        Status { number }
    }

    /// The status as the process's exit status.
    pub fn exit_code(self) -> ExitCode
        ensures { exit_status result ≡ self }
    {
        ExitCode::from(self.number)
    }
}

impl Termination for Status {
    fn report<R: Eprint>(self, _rt: &R) -> ExitCode {
        self.exit_code()
    }
}
