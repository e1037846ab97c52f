//! How a call of the program ends.
ghost use Rattle.std.specs.Prelude.{◌≡◌};
ghost use Rattle.spv_loop.specs.FileStatus.{status_of_file};
ghost use Rattle.spv_loop.specs.StatusNumbers.{status_number};
ghost use Rattle.spv_loop.specs.Stops.{status_of};
ghost use Rattle.spv_loop.specs.declared.status.Stop.TheVariants as stop;

use spv_base::{Failed, FileErr, NoMemory};
use std::alloc::AllocFailed;

/// How a call of the program ends.
#[derive(Clone, Copy, Debug, PartialEq, Eq)]
pub enum Status {
    /// The work was done to its end.
    Done = 0,
    /// The words are no command line of the program.
    Usage = 2,
    /// A rule of modules is broken.
    ModuleRefused = 3,
    /// A rule of setups is broken.
    SetupRefused = 4,
    /// A file was not read.
    FileFault = 5,
    /// A read of the input failed.
    ReadFault = 6,
    /// A write of the output failed.
    WriteFault = 7,
    /// Memory ran out.
    NoMemory = 8,
    /// The input has more than 16,777,216 bytes.
    InputTooLong = 9,
    /// The module has more than 4,194,304 bytes, or the setup more than 67,108,864.
    FileTooLong = 10,
}

impl Status {
    /// The number with which the program ends.
    pub fn number(self) -> u8
        ensures { result ≡ status_number self }
    {
        self as u8
    }
}

/// Why an answer wasn't written whole.
#[derive(Clone, Copy, Debug, PartialEq, Eq)]
pub enum Stop {
    WriteFault,
    NoMemory,
}

impl From<Failed> for Stop {
    ghost from_gives = { λ _ e. e ≡ stop.WriteFault };

    fn from(_: Failed) -> Stop {
        Stop::WriteFault
    }
}

impl From<NoMemory> for Stop {
    ghost from_gives = { λ _ e. e ≡ stop.NoMemory };

    fn from(_: NoMemory) -> Stop {
        Stop::NoMemory
    }
}

impl<T: Drop> From<AllocFailed<T>> for Stop {
    ghost from_gives = { λ _ e. e ≡ stop.NoMemory };

    fn from(_: AllocFailed<T>) -> Stop {
        Stop::NoMemory
    }
}

impl From<Stop> for Status {
    ghost from_gives = { λ stop status. status ≡ status_of stop };

    fn from(stop: Stop) -> Status {
        match stop {
            Stop::WriteFault => Status::WriteFault,
            Stop::NoMemory => Status::NoMemory,
        }
    }
}

impl From<FileErr> for Status {
    ghost from_gives = { λ error status. status ≡ status_of_file error };

    fn from(error: FileErr) -> Status {
        match error {
            FileErr::Failed => Status::FileFault,
            FileErr::TooLong => Status::FileTooLong,
            FileErr::NoMemory => Status::NoMemory,
        }
    }
}
