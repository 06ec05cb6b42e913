// What holds of every script, each law the contract of a function that does nothing.
ghost use Rattle.script_lang.specs.Laws.{FirstBadRowsAreOne, LinesStandInRows, ScriptsHaveNoBadRow, ScriptsHaveOneList, SpellingsAreScripts};

/// The row that a line spells is a script of that line, and since a script has one list of lines,
/// what is printed is read as the line that it was printed from.
pub fn spellings_are_scripts()
    ensures { SpellingsAreScripts }
{}

/// Two lists of lines of the same bytes are one.
pub fn scripts_have_one_list()
    ensures { ScriptsHaveOneList }
{}

/// A script has no row outside the grammar, so that bytes are taken or refused, and never either.
pub fn scripts_have_no_bad_row()
    ensures { ScriptsHaveNoBadRow }
{}

/// Two first rows outside the grammar of the same bytes are one.
pub fn first_bad_rows_are_one()
    ensures { FirstBadRowsAreOne }
{}

/// Where the first rows of bytes spell lines, the row whose number [`row_number`] gives for an
/// index is among them and spells that line, and the rows before it spell those before.
///
/// [`row_number`]: crate::row_number
pub fn lines_stand_in_rows()
    ensures { LinesStandInRows }
{}
