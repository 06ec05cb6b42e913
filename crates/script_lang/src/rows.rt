// The rows of a script.
ghost use Rattle.std.specs.Prelude.{◌≡◌, ◌≤◌, MatchOption, count_by};
ghost use Rattle.script_lang.specs.Script.{IsRowOf, rows, says_something};

/// Whether a row says something: it isn't empty, and doesn't begin with `#`.
pub fn says_something(row: &[u8]) -> bool
    ensures { result ≡ says_something row.now }
{
    match row {
        [] => false,
        [first, ..] => *first != b'#',
    }
}

/// The number of the row that spells the line of an index, from 1, with rows that say nothing
/// counted; none where fewer rows say something.
pub fn row_number(text: &[u8], index: usize) -> Option<u64>
    ensures { MatchOption result (count_by says_something (rows text.now) ≤ index) (IsRowOf (rows text.now) index) }
{
    let mut number = 0;
    let mut passed = 0;
    for row in text.split(|b| *b == b'\n') {
        number += 1;
        if says_something(row) {
            if passed == index {
                return Some(number);
            }
            passed += 1;
        }
    }
    None
}
