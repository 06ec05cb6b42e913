// What holds of every script, each law the contract of a function that does nothing.
ghost use Rattle.dfsr.specs.Laws.{AllCausesDiffer, BadLinesAreOne, BigLinesAreLines, BigTextsAreOne, EveryBigPrints, GroupsAreDrawn, OneText};

/// Of the bytes read one text is to be written, that of a script or the line that names the first
/// row outside the grammar, so that it says wholly what was to be written.
pub fn one_text()
    ensures { OneText }
{}

/// Bytes have one row that is named as the first outside the grammar.
pub fn bad_lines_are_one()
    ensures { BadLinesAreOne }
{}

/// Of the causes of the statuses 0, 3 and 8 no bytes have two, so that each comes exactly where
/// its cause is, unless the input or the output fails or memory runs out.
pub fn causes_differ()
    ensures { AllCausesDiffer }
{}

/// The script that a seed makes is one of the grammar.
pub fn big_lines_are_lines()
    ensures { BigLinesAreLines }
{}

/// Its last three lines print something.
pub fn every_big_prints()
    ensures { EveryBigPrints }
{}

/// They print one text, so that a seed and a number of groups say wholly what was to be written.
pub fn big_texts_are_one()
    ensures { BigTextsAreOne }
{}

/// The first group of one seed changes a file, the first of another pulls, and its second removes
/// a file.
pub fn groups_are_drawn()
    ensures { GroupsAreDrawn }
{}
