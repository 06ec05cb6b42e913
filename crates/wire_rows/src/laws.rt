// What holds of every row, the law the contract of a function that does nothing.
ghost use Rattle.wire_rows.specs.Answering.{OneAnswer};

/// A row has one answer, so that its text says wholly what is printed.
pub fn one_answer()
    ensures { OneAnswer }
{}
