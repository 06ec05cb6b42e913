//! What a load finds of the two slots of a journal, to be compared with a reader of one's own, and
//! how fast journals are.
//!
//! Read [`probe::probe`] first: from the bytes of two slots to what a load finds of them.
#![tactic(auto)]

pub mod bench;
pub mod pile;
pub mod probe;
pub mod rows;
pub mod status;

use crate::bench::{Work, run};
use crate::probe::ProbeError;
use crate::rows::{RowsError, write_answers};
use crate::status::Status;
use frs_io::{ReadError, StdSink, StdSource, WriteError, read_to_limit, write_all};
use std::io::ErrorKind;
use std::process::ExitCode;
use std::{env, io};

const USAGE: &str = "\
usage: slot_probe slots < ROWS
       slot_probe take|commit|load COUNT LENGTH
A row is two slots in hex, `-` for no bytes.
";

const HELP: &str = "\
Says what a load finds of the two slots of a journal, and runs many commands.

usage: slot_probe slots < ROWS
       slot_probe take|commit|load COUNT LENGTH

slots    for each row of standard input, two slots in hex, `-` for no bytes:
         `state`, how many strings there are, after how many commands, and the
         SHA-1 sum of the strings, each behind its length in eight bytes; or
         `damaged`, the slot and the place from which it is wrong; or `no row`
take     lets a machine take COUNT strings of LENGTH bytes, with no journal
commit   commits them
load     commits them, and then loads them; each prints counts

  --help, --version        print this text, or the version

Statuses: 0 done; 2 other words; 4 the input failed; 5 the output failed; 6 a
disk failed; 8 more than 1 GiB of rows; 9 out of memory.
";

const VERSION: &str = "slot_probe 0.1.0\n";

/// How many bytes of rows are read.
const LIMIT: usize = 1 << 30;

/// The words behind the program's name.
fn words_of(rt: &HostRuntime) -> io::Result<Vec<String>> {
    let mut words = Vec::new(rt.alloc());
    for word in env::args(rt)?.skip(1) {
        words.push(word)?;
    }
    Ok(words)
}

/// How a run ends whose rows weren't all answered.
fn probe_status(why: ProbeError) -> Status {
    match why {
        ProbeError::Memory => Status::Memory,
        ProbeError::Device => Status::DiskFault,
    }
}

/// How a run ends whose text wasn't all written.
fn write_status(why: WriteError) -> Status {
    match why {
        WriteError::Failed => Status::WriteFault,
        WriteError::Memory => Status::Memory,
    }
}

/// Answers the rows of standard input.
fn answer_rows(rt: &HostRuntime) -> Status {
    let mut input = StdSource::new(rt.stdin());
    let rows = match read_to_limit(rt.alloc(), &mut input, LIMIT) {
        Ok(rows) => rows,
        Err(ReadError::Failed) => return Status::ReadFault,
        Err(ReadError::TooLong) => return Status::TooLarge,
        Err(ReadError::Memory) => return Status::Memory,
    };
    let mut out = StdSink::new(rt.stdout());
    match write_answers(rt.alloc(), rows.as_slice(), &mut out) {
        Ok(()) => Status::Done,
        Err(RowsError::Probe(why)) => probe_status(why),
        Err(RowsError::Write(why)) => write_status(why),
    }
}

/// Does so many commands, and writes what they came to.
fn measure(rt: &HostRuntime, work: Work, count: u32, length: u32) -> Status {
    let counts = match run(rt.alloc(), work, count, length) {
        Ok(counts) => counts,
        Err(why) => return probe_status(why),
    };
    let text = format!(in rt.alloc();
        "strings {} serial {} end {}\n",
        counts.strings, counts.serial, counts.end
    );
    let Ok(text) = text else {
        return Status::Memory;
    };
    tell(rt, text.as_str())
}

/// Writes a text to standard output.
fn tell(rt: &HostRuntime, text: &str) -> Status {
    let mut out = StdSink::new(rt.stdout());
    match write_all(rt.alloc(), &mut out, text.as_bytes()) {
        Ok(()) => Status::Done,
        Err(why) => write_status(why),
    }
}

/// How far the word goes.
fn work_of(word: &str) -> Option<Work> {
    match word {
        "take" => Some(Work::Take),
        "commit" => Some(Work::Commit),
        "load" => Some(Work::Load),
        _ => None,
    }
}

/// Does what the words ask for.
fn answer(rt: &HostRuntime, words: &[String]) -> Status {
    match words {
        [word] => match word.as_str() {
            "slots" => answer_rows(rt),
            "--help" => tell(rt, HELP),
            "--version" => tell(rt, VERSION),
            _ => Status::Usage,
        },
        [word, count, length] => {
            let work = work_of(word.as_str());
            let count = count.as_str().parse::<u32>();
            let length = length.as_str().parse::<u32>();
            match (work, count, length) {
                (Some(work), Ok(count), Ok(length)) => measure(rt, work, count, length),
                _ => Status::Usage,
            }
        }
        _ => Status::Usage,
    }
}

fn main(rt: HostRuntime) -> ExitCode {
    let status = match words_of(&rt) {
        Ok(words) => answer(&rt, &words),
        Err(error) if error.kind() == ErrorKind::OutOfMemory => Status::Memory,
        Err(_) => Status::Usage,
    };
    if status == Status::Usage {
        let _ = eprint!(rt; "{USAGE}");
    }
    ExitCode::from(status.code())
}
