//! Why a run ends before its input does.

ghost use Rattle.std.specs.Prelude.{◌≡◌};
ghost use Rattle.retro_io.specs.declared.mark.ReadError.{ReadError};
ghost use Rattle.retro_run.specs.Stop.{StopsAt};
ghost use Rattle.retro_run.specs.declared.stop.Stop.TheVariants as stops;

use retro_base::NoMemory;
use retro_io::{ReadError, WriteFault};

/// Why a run ends before its input does.
#[derive(Clone, Copy)]
pub enum Stop {
    /// A read failed.
    ReadFault,
    /// A write, a send or a flush failed.
    WriteFault,
    /// There was not enough memory.
    NoMemory,
    /// The input is longer than the program reads.
    TooLong,
}

impl From<ReadError> for Stop {
    ghost from_gives = { StopsAt };

    fn from(error: ReadError) -> Stop {
        match error {
            ReadError::ReadFault => Stop::ReadFault,
            ReadError::TooLong => Stop::TooLong,
        }
    }
}

impl From<WriteFault> for Stop {
    ghost from_gives = { λ _ stop. stop ≡ stops.WriteFault };

    fn from(_fault: WriteFault) -> Stop {
        Stop::WriteFault
    }
}

impl From<NoMemory> for Stop {
    ghost from_gives = { λ _ stop. stop ≡ stops.NoMemory };

    fn from(_error: NoMemory) -> Stop {
        Stop::NoMemory
    }
}
