// What the words of the command line ask for.
ghost use Rattle.std.specs.Prelude.{[], ◌∷◌, ◌≡◌, map, string_bytes};
ghost use Rattle.script_lang.specs.Reading.{begins_number};
ghost use Rattle.dfsr.specs.Words.{Ask, IsNumber};

/// The most groups that a generated script has.
const GROUPS: u64 = 20_000;

/// What the words behind the program's name ask for.
#[derive(Clone, Copy, Debug, PartialEq, Eq)]
pub enum Words {
    /// `script`: the script that is read.
    Script,
    /// `big SEED N`: the script that a seed makes.
    Big {
        /// What its groups are drawn from.
        seed: u64,
        /// How many groups it has, from 1 to 20,000.
        count: u64,
    },
}

/// Whether a number's text begins so: with no sign, and with no zero before another digit.
fn begins_number(word: &str) -> bool
    ensures { result ≡ begins_number word.now }
{
    match word.as_bytes() {
        [] => false,
        [only] => *only >= b'0' && *only <= b'9',
        [first, ..] => *first >= b'1' && *first <= b'9',
    }
}

/// The number that a word spells in decimal, without sign and leading zeros.
fn number_in(word: &str) -> Option<u64>
    ensures { IsNumber word.now result }
{
    if !begins_number(word) {
        return None;
    }
    word.parse::<u64>().ok()
}

/// What one word asks for.
fn script_of(word: &str) -> Option<Words>
    ensures { Ask (word.now ∷ []) result }
{
    if word == "script" {
        Some(Words::Script)
    } else {
        None
    }
}

/// What three words ask for.
fn big_of(word: &str, seed: &str, count: &str) -> Option<Words>
    ensures { Ask (word.now ∷ seed.now ∷ count.now ∷ []) result }
{
    if word != "big" {
        return None;
    }
    let seed = number_in(seed)?;
    let count = number_in(count)?;
    if count == 0 || count > GROUPS {
        return None;
    }
    Some(Words::Big { seed, count })
}

impl Words {
    /// What words ask for, where they are those of a command.
    pub fn of(words: &[String]) -> Option<Words>
        ensures { Ask (map string_bytes words.now) result }
    {
        match words {
            [word] => script_of(word.as_str()),
            [word, seed, count] => big_of(word.as_str(), seed.as_str(), count.as_str()),
            _ => None,
        }
    }
}
