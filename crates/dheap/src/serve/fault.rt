//! What ends a run early.
ghost use Rattle.std.specs.Prelude.{◌≡◌, ◌≤◌, ◌↔◌, ◌++◌, Some, OnOk, codes};
ghost use Rattle.std.specs.Io.KnownBytes.{Appends};
ghost use Rattle.dheap.specs.Faults.{IsOfMemory, message, status_of};

use std::alloc::{AllocError, AllocFailed};
use std::io::{ErrorKind, Write};
use std::{fmt, io};

/// What ends a run early.
#[derive(Clone, Copy, Debug, PartialEq, Eq)]
pub enum Fault {
    /// The arguments are not one digit from `1` to `8`.
    Usage,
    /// The line of this number, counted from 1, is no command.
    BadLine(u64),
    /// Memory allocation failed.
    NoMemory,
    /// The input or the output failed.
    InputOutput,
}

impl Fault {
    /// The status that the program ends with.
    pub fn status(self) -> u8
        ensures { result ≡ status_of self }
    {
        match self {
            Fault::BadLine(_) => 1,
            Fault::Usage => 2,
            Fault::NoMemory => 3,
            Fault::InputOutput => 4,
        }
    }

    /// Writes to `errors` what it was, if that can be written, and returns the status.
    pub fn report<E: Write>(self, errors: &mut E) -> u8
        ensures { result ≡ status_of self }
    {
        let _ = self.tell(errors);
        self.status()
    }

    /// Writes to `errors` a line that says what it was.
    fn tell<E: Write>(self, errors: &mut E) -> io::Result<()>
        ensures { OnOk result (Appends (E.contents errors.old) (E.contents errors.new)
            (message self ++ codes "\n")) }
    {
        writeln!(errors, "{self}")
    }
}

impl fmt::Display for Fault {
    ghost output = { λ fault. Some (message fault) };

    fn fmt<W: fmt::Write>(&self, f: &mut fmt::Formatter<W>) -> fmt::Result {
        match self {
            Fault::Usage => write!(f, "usage: dheap ARITY (1 to 8)"),
            Fault::BadLine(number) => write!(f, "line {number}: bad command"),
            Fault::NoMemory => write!(f, "no memory"),
            Fault::InputOutput => write!(f, "input or output failed"),
        }
    }
}

impl From<AllocError> for Fault {
    ghost from_gives = { λ _ fault. status_of fault ≡ 3 };

    fn from(_: AllocError) -> Fault {
        Fault::NoMemory
    }
}

impl<T: Drop> From<AllocFailed<T>> for Fault {
    ghost from_gives = { λ _ fault. status_of fault ≡ 3 };

    fn from(_: AllocFailed<T>) -> Fault {
        Fault::NoMemory
    }
}

impl From<io::Error> for Fault {
    ghost from_gives = { λ error fault. (3 ≤ status_of fault)
        × ((status_of fault ≡ 3) ↔ IsOfMemory error) };

    fn from(error: io::Error) -> Fault {
        if error.kind() == ErrorKind::OutOfMemory && error.raw_os_error().is_none() {
            Fault::NoMemory
        } else {
            Fault::InputOutput
        }
    }
}
