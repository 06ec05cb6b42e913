// Decimal numbers.
ghost use Rattle.std.specs.Prelude.{◌≡◌, ◌≤◌, ◌^◌};
ghost use Rattle.script_lang.specs.Reading.{Reads, begins_number, number_in};

use crate::errors::RowError;

/// Whether a number's text begins so: with no sign, and with no zero before another digit.
fn begins_number(word: &str) -> bool
    ensures { result ≡ begins_number word.now }
{
    match word.as_bytes() {
        [] => false,
        [only] => *only >= b'0' && *only <= b'9',
        [first, ..] => *first >= b'1' && *first <= b'9',
    }
}

/// The number below a limit that a word spells in decimal, without sign and leading zeros.
pub fn number_of(word: &str, limit: u64) -> Result<u64, RowError>
    ensures { Reads result (number_in limit word.now) }
{
    if !begins_number(word) {
        return Err(RowError::Bad);
    }
    let Ok(number) = word.parse::<u64>() else {
        return Err(RowError::Bad);
    };
    if number >= limit {
        return Err(RowError::Bad);
    }
    Ok(number)
}
