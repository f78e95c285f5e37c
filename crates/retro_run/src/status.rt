//! How a run ended.

ghost use Rattle.std.specs.Prelude.{◌≡◌};
ghost use Rattle.retro_run.specs.Status.{code_of};

/// How a run of the program ended.
#[derive(Clone, Copy, Debug, PartialEq, Eq)]
pub enum Status {
    /// The input was read to its end, and no answer is a refusal.
    Done,
    /// The input was read to its end, and some answer is a refusal.
    Refused,
    /// The words of the command line are none of the program's forms.
    Words,
    /// A read failed.
    ReadFault,
    /// A write failed.
    WriteFault,
    /// There was not enough memory.
    NoMemory,
    /// The input is longer than the program reads.
    TooLong,
}

impl Status {
    /// The exit status of the process, from 0 to 6 in the order of the variants.
    pub fn code(self) -> u8
        ensures { result ≡ code_of self }
    {
        self as u8
    }
}
