// Numbers of methods.
ghost use Rattle.std.specs.Prelude.{◌≡◌};
ghost use Rattle.wire_rows.specs.Reading.{begins_number, number_in, value_in};

/// Whether a number's text begins so: with no zero before another digit.
fn begins_number(word: &[u8]) -> bool
    ensures { result ≡ begins_number word.now }
{
    match word {
        [] => false,
        [_] => true,
        [first, ..] => *first != b'0',
    }
}

/// The number below 65,536 of these digits, one after the other.
fn value_in(word: &[u8]) -> Option<u16>
    ensures { result ≡ value_in 0 word.now }
{
    let mut value: u32 = 0;
    for digit in word {
        if *digit < b'0' || *digit > b'9' {
            return None;
        }
        let next = value * 10 + u32::from(*digit - b'0');
        if next >= 65_536 {
            return None;
        }
        value = next;
    }
    Some(value as u16)
}

/// The number below 65,536 that a word spells in decimal, without leading zeros.
pub fn number_in(word: &[u8]) -> Option<u16>
    ensures { result ≡ number_in word.now }
{
    if !begins_number(word) {
        return None;
    }
    value_in(word)
}
