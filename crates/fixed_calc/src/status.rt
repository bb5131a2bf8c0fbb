//! How a call of the program ends.

ghost use Rattle.std.specs.Prelude.{◌≡◌};
ghost use Rattle.fixed_calc.specs.Headline.{code_of};

use fixed_machine::Cause;

/// How a call of the program ended.
#[derive(Clone, Copy, Debug, PartialEq, Eq)]
pub enum Status {
    /// The whole output was written, or for `demo N` the whole summary.
    Done,
    /// A line of the script has this cause, which is the first. Nothing was written to the sink.
    Script(Cause),
    /// The words of the command line are not a form of the command. Nothing was read, and nothing written to the sink.
    Usage,
    /// The source failed. Nothing was written to the sink.
    ReadFault,
    /// The sink failed. It took a prefix of the output, or of the summary.
    WriteFault,
    /// More than 67,108,864 bytes were read. Nothing was written to the sink.
    TooLong,
    /// Memory ran out. The sink took a prefix of the output, or of the summary.
    Memory,
}

impl Status {
    /// Returns the exit status of the program: 0 to 6, in the order of the variants.
    pub fn code(self) -> u8
        ensures { result ≡ code_of self }
    {
        match self {
            Status::Done => 0,
            Status::Script(_) => 1,
            Status::Usage => 2,
            Status::ReadFault => 3,
            Status::WriteFault => 4,
            Status::TooLong => 5,
            Status::Memory => 6,
        }
    }
}
