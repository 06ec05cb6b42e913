// A script, from the bytes read or a seed to the bytes written.
ghost use Rattle.std.specs.Prelude.{◌≡◌, ◌⊎◌, ◌↔◌, ◌≤◌, All, IfSome, OnErr, OnOk, count_by, map, string_bytes, ℕ};
ghost use Rattle.std.specs.Io.KnownBytes.{IsAtEnd};
ghost use Rattle.frs_io.specs.Causes.{HasWriteCause, Rose};
ghost use Rattle.frs_io.specs.Told.{Takes, TakesSome};
ghost use Rattle.script_lang.specs.Grammar.{IsLine};
ghost use Rattle.dfsr.specs.Answers.{IsTooLarge, PrintsAll, PrintsSome, WritesAll, WritesBadLine, WritesBig, WritesSome, WritesSomeOfBig, bad_line, makes_member};
ghost use Rattle.dfsr.specs.Words.{AreBigWords, AreOther, AreScriptWords};

use crate::big::run_big;
use crate::status::Status;
use crate::words::Words;
use frs_io::{ReadError, Sink, Source, WriteError, hand_on, read_to_limit, write_all};
use script_engine::Engine;
use script_lang::{Line, ParseError, parse};
use std::alloc::Global;
use std::mem::forget;

/// The most bytes that a script has.
const BYTES: usize = 16_777_216;

/// The most `member` lines that a script has.
const MEMBERS: usize = 8;

fn makes_member(line: &Line) -> bool
    ensures { result ≡ makes_member line.now }
{
    matches!(line, Line::Member { .. })
}

fn member_count(lines: &[Line]) -> usize
    ensures { result ≡ count_by makes_member lines.now }
{
    lines.iter().filter(|line| makes_member(line)).count()
}

/// Does the lines, and writes what they print in pieces. The members' memory is left to the system,
/// which takes it back at once when the process ends.
fn run_lines<K: Sink>(alloc: Global, lines: &[Line], out: &mut K) -> Result<(), WriteError>
    requires { All IsLine lines.now }
    ensures ok { OnOk result (PrintsAll lines.now (K.taken out.old) (K.taken out.new)) }
    ensures err { OnErr result (PrintsSome lines.now (K.taken out.old) (K.taken out.new)) }
    ensures cause { HasWriteCause (K.faults out.old) (K.faults out.new) result }
{
    let mut engine = Engine::new();
    let mut pending = String::new(alloc);
    for line in lines {
        let text = engine.run(alloc, line)?;
        pending.push_str(text.as_str())?;
        hand_on(alloc, out, &mut pending)?;
    }
    forget(engine);
    write_all(alloc, out, pending.as_bytes())
}

/// Writes the line that names the first row outside the grammar.
fn write_bad_line<K: Sink>(alloc: Global, number: u64, out: &mut K) -> Result<(), WriteError>
    ensures ok { OnOk result (Takes (K.taken out.old) (K.taken out.new) (bad_line number)) }
    ensures err { OnErr result (TakesSome (K.taken out.old) (K.taken out.new) (bad_line number)) }
    ensures cause { HasWriteCause (K.faults out.old) (K.faults out.new) result }
{
    let text = format!(in alloc; "bad line {number}\n")?;
    write_all(alloc, out, text.as_bytes())
}

/// Reads a script to its end, does its lines and writes what they print.
///
/// A script that is too large or outside the grammar does nothing. One outside the grammar writes
/// `bad line` and the number of the first row that is, empty rows and comments counted. Bytes are
/// counted before rows are looked at, and rows before members are counted.
fn run_script<S: Source, K: Sink>(alloc: Global, input: &mut S, out: &mut K) -> Status
    ensures known { (result ≡ Status.Usage) → ⊥ }
    ensures end { result ≡ Status.Done → IsAtEnd (S.left input.new) }
    ensures done { result ≡ Status.Done → IfSome (S.left input.old) (λ bytes. WritesAll bytes (K.taken out.old) (K.taken out.new)) }
    ensures bad { result ≡ Status.ScriptBad → IfSome (S.left input.old) (λ bytes. WritesBadLine bytes (K.taken out.old) (K.taken out.new)) }
    ensures cut_short { (result ≡ Status.WriteFault) → IfSome (S.left input.old) (λ bytes. WritesSome bytes (K.taken out.old) (K.taken out.new)) }
    ensures short_of_memory { (result ≡ Status.Memory) → IfSome (S.left input.old) (λ bytes.
        (K.taken out.new ≡ K.taken out.old) ⊎ WritesSome bytes (K.taken out.old) (K.taken out.new)) }
    ensures large { result ≡ Status.TooLarge → IfSome (S.left input.old) IsTooLarge }
    ensures read_fault { result ≡ Status.ReadFault → Rose (S.faults input.old) (S.faults input.new) }
    ensures write_fault { result ≡ Status.WriteFault → Rose (K.faults out.old) (K.faults out.new) }
    ensures unwritten { (result ≡ Status.ReadFault) ⊎ (result ≡ Status.TooLarge) → K.taken out.new ≡ K.taken out.old }
    ensures read_later { S.faults input.old ≤ S.faults input.new }
    ensures write_later { K.faults out.old ≤ K.faults out.new }
{
    let bytes = match read_to_limit(alloc, input, BYTES) {
        Ok(bytes) => bytes,
        Err(ReadError::Failed) => return Status::ReadFault,
        Err(ReadError::TooLong) => return Status::TooLarge,
        Err(ReadError::Memory) => return Status::Memory,
    };
    let lines = match parse(alloc, &bytes) {
        Ok(lines) => lines,
        Err(ParseError::LineBad { number }) => match write_bad_line(alloc, number, out) {
            Ok(()) => return Status::ScriptBad,
            Err(WriteError::Failed) => return Status::WriteFault,
            Err(WriteError::Memory) => return Status::Memory,
        },
        Err(ParseError::Memory) => return Status::Memory,
    };
    if member_count(&lines) > MEMBERS {
        return Status::TooLarge;
    }
    match run_lines(alloc, &lines, out) {
        Ok(()) => Status::Done,
        Err(WriteError::Failed) => Status::WriteFault,
        Err(WriteError::Memory) => Status::Memory,
    }
}

/// Does the script that is read, or that a seed makes, and writes what it prints.
///
/// `words` are those of the command line behind the program's name. Of a script that is read all
/// is written; of one that a seed makes what its last three lines print, and nothing is read.
pub fn script_main<S: Source, K: Sink>(
    alloc: Global,
    words: &[String],
    input: &mut S,
    out: &mut K,
) -> Status
    // The word `script` is wanted, or `big` with a seed and a number of groups. Nothing is read
    // without the word `script`.
    ensures usage { (result ≡ Status.Usage) ↔ AreOther (map string_bytes words.now) }
    ensures unread { (AreScriptWords (map string_bytes words.now) → ⊥) → input.new ≡ input.old }

    // When a script is done that is read, all was read, and the text of the bytes read was written.
    ensures end { AreScriptWords (map string_bytes words.now) → result ≡ Status.Done → IsAtEnd (S.left input.new) }
    ensures done { AreScriptWords (map string_bytes words.now) → result ≡ Status.Done → IfSome (S.left input.old) (λ bytes. WritesAll bytes (K.taken out.old) (K.taken out.new)) }

    // Where a row is outside the grammar, the line that names the first one was written.
    ensures bad { result ≡ Status.ScriptBad → IfSome (S.left input.old) (λ bytes. WritesBadLine bytes (K.taken out.old) (K.taken out.new)) }

    // When it is cut short, what was written is a beginning of that text or line, if only nothing.
    ensures cut_short { AreScriptWords (map string_bytes words.now) → result ≡ Status.WriteFault → IfSome (S.left input.old) (λ bytes. WritesSome bytes (K.taken out.old) (K.taken out.new)) }
    ensures short_of_memory { AreScriptWords (map string_bytes words.now) → result ≡ Status.Memory → IfSome (S.left input.old) (λ bytes.
        (K.taken out.new ≡ K.taken out.old) ⊎ WritesSome bytes (K.taken out.old) (K.taken out.new)) }

    // When one is done that a seed makes, its text was written, when it is cut short a beginning of
    // that, if only nothing; it ends in no other way.
    ensures big_done { (seed count : ℕ) → AreBigWords (map string_bytes words.now) seed count → result ≡ Status.Done → WritesBig seed count (K.taken out.old) (K.taken out.new) }
    ensures big_cut_short { (seed count : ℕ) → AreBigWords (map string_bytes words.now) seed count
        → (result ≡ Status.WriteFault) ⊎ (result ≡ Status.Memory) → WritesSomeOfBig seed count (K.taken out.old) (K.taken out.new) }
    ensures big_ways { (seed count : ℕ) → AreBigWords (map string_bytes words.now) seed count
        → (result ≡ Status.Done) ⊎ (result ≡ Status.WriteFault) ⊎ (result ≡ Status.Memory) }

    // The causes of the other answers, after which nothing was written.
    ensures large { result ≡ Status.TooLarge → IfSome (S.left input.old) IsTooLarge }
    ensures read_fault { result ≡ Status.ReadFault → Rose (S.faults input.old) (S.faults input.new) }
    ensures write_fault { result ≡ Status.WriteFault → Rose (K.faults out.old) (K.faults out.new) }
    ensures unwritten { (result ≡ Status.Usage) ⊎ (result ≡ Status.ReadFault) ⊎ (result ≡ Status.TooLarge)
        → K.taken out.new ≡ K.taken out.old }

    // No count falls.
    ensures read_later { S.faults input.old ≤ S.faults input.new }
    ensures write_later { K.faults out.old ≤ K.faults out.new }
{
    match Words::of(words) {
        None => Status::Usage,
        Some(Words::Script) => run_script(alloc, input, out),
        Some(Words::Big { seed, count }) => run_big(alloc, seed, count, out),
    }
}

#[cfg(test)]
mod tests;
