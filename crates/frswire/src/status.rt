// How a run ends.
ghost use Rattle.std.specs.Prelude.{◌≡◌};
ghost use Rattle.frswire.specs.Codes.{code_of};

/// How a run of the program ends.
#[derive(Clone, Copy, Debug, PartialEq, Eq)]
pub enum Status {
    /// The input was read to its end, and every row was answered.
    Done,
    /// There are words on the command line.
    Usage,
    /// A row asks nothing.
    RowBad,
    /// The input failed.
    ReadFault,
    /// The output failed.
    WriteFault,
    /// A row has too many bytes.
    TooLarge,
    /// Memory ran out.
    Memory,
}

impl Status {
    /// The number that the process ends with.
    pub fn code(self) -> u8
        ensures { result ≡ code_of self }
    {
        match self {
            Status::Done => 0,
            Status::Usage => 2,
            Status::RowBad => 3,
            Status::ReadFault => 4,
            Status::WriteFault => 5,
            Status::TooLarge => 8,
            Status::Memory => 9,
        }
    }
}
