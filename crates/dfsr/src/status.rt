// How a run ends.
ghost use Rattle.std.specs.Prelude.{◌≡◌};
ghost use Rattle.dfsr.specs.Codes.{code_of};

/// How a run of a program ends.
#[derive(Clone, Copy, Debug, PartialEq, Eq)]
pub enum Status {
    /// Every line was answered; where the script is read, the input was read to its end.
    Done,
    /// The words of the command line aren't those of a command.
    Usage,
    /// A row of the script is outside the grammar.
    ScriptBad,
    /// The input failed.
    ReadFault,
    /// The output failed.
    WriteFault,
    /// The script has too many bytes or makes too many members.
    TooLarge,
    /// Memory ran out.
    Memory,
}

impl Status {
    /// The number that the process ends with.
    pub fn code(self) -> u8
        ensures { result ≡ code_of self }
    {
        match self {
            Status::Done => 0,
            Status::Usage => 2,
            Status::ScriptBad => 3,
            Status::ReadFault => 4,
            Status::WriteFault => 5,
            Status::TooLarge => 8,
            Status::Memory => 9,
        }
    }
}
