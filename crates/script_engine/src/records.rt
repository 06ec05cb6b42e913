// What `show` prints of a member's book.
ghost use Rattle.std.specs.Prelude.{◌≡◌, IfOk, string_bytes};
ghost use Rattle.script_engine.specs.Named.{AreNamed};
ghost use Rattle.script_engine.specs.Text.{records_text, vector_text};

use crate::MemberName;
use crate::words::{interval_word, record_text};
use record_db::Book;
use std::alloc::{AllocError, Global};
use version_vector::Interval;

/// The line of a vector.
pub(crate) fn vector_text(
    alloc: Global,
    names: &[MemberName],
    intervals: &[Interval],
) -> Result<String, AllocError>
    requires { AreNamed names.now }
    ensures { IfOk result (λ text. string_bytes text ≡ vector_text names.now intervals.now) }
{
    if intervals.is_empty() {
        return String::from_str(alloc, "vector empty\n");
    }
    let mut text = String::from_str(alloc, "vector")?;
    for interval in intervals {
        let word = interval_word(alloc, names, interval)?;
        text.push_str(" ")?;
        text.push_str(word.as_str())?;
    }
    text.push_str("\n")?;
    Ok(text)
}

/// The record lines of `show`: a line for each record, in order of their UIDs.
///
/// A database without a name prints as no letters, and of two names of one database the first
/// is printed.
pub fn records_text(alloc: Global, names: &[MemberName], book: &Book) -> Result<String, AllocError>
    requires { AreNamed names.now }
    ensures { IfOk result (λ text. string_bytes text ≡ records_text names.now book.now.state.records) }
{
    let mut text = String::new(alloc);
    let records = book.rows(alloc)?;
    for record in &records {
        let line = record_text(alloc, names, record)?;
        text.push_str(line.as_str())?;
    }
    Ok(text)
}
