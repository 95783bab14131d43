//! Why a run gave up, and the line that says so.

ghost use Rattle.std.specs.Prelude.{◌≡◌};

use goblin_pe::Error;

/// Why a run gave up.
#[derive(Debug, Drop)]
pub enum RunFault {
    /// The file has no listing, or memory was asked for and refused.
    Refused(Error),
    /// A read failed.
    Input,
    /// A write failed, or took no byte.
    Output,
}

impl RunFault {
    ghost use Rattle.pe_list.specs.Run.{fault_line};

    /// The line on standard error that says why.
    pub fn line(&self) -> &'static str
        ensures { result.now ≡ fault_line self.now }
    {
        match self {
            RunFault::Refused(Error::Memory(_)) => "out of memory",
            RunFault::Refused(_) => "refused",
            RunFault::Input => "read failed",
            RunFault::Output => "write failed",
        }
    }
}
