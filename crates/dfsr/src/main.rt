//! A replicated folder's members in one process, driven by a script.
//!
//! Read [`script::script_main`] first: from the bytes of a script to the bytes that it writes.
#![tactic(auto)]

pub mod big;
pub mod laws;
pub mod script;
pub mod status;
pub mod words;

use crate::script::script_main;
use crate::status::Status;
use frs_io::{StdSink, StdSource, WriteError, write_all};
use std::io::ErrorKind;
use std::process::ExitCode;
use std::{env, io};

const USAGE: &str = "\
usage: dfsr script < SCRIPT
       dfsr big SEED N
";

const HELP: &str = "\
Runs the members of a replicated folder, driven by a script.

usage: dfsr script < SCRIPT
       dfsr big SEED N

The first reads a script from standard input and writes what its lines print.
Lines, of words parted by one space:
  member M primary|plain   makes a member; M has 1 to 8 letters a to z
  put M P TEXT             gives the file P contents, or makes it; P is 1 to 64
                           names parted by /, TEXT is the rest of the row
  fill M P L               likewise with L bytes of a pattern, L below 2^32
  mkdir M P                makes a directory
  move M P Q               gives what is at P the place Q
  remove M P               removes a file or an empty directory
  consume M T              takes the next change of M's journal into its records,
                           at the moment T, below 2^61
  change M P T             puts nothing into P and consumes what is left, at T
  pull M N                 M takes what N covers, and what wins of it
  install M                does the next step that brings M's volume nearer to its
                           records
  drain M                  does such steps until none is left
  show M                   prints what a member covers, and its records
  tree M                   prints a member's volume from its root
  sums M                   prints the sum of each file of a member's volume
  count M                  prints how much a member has
Empty lines and lines that begin with # print nothing.

The second runs a script made from SEED, below 2^64, of N groups of lines, 1 to
20,000, and prints how much each of its three members has in the end. It reads
nothing.

  --help, --version        print this text, or the version

Statuses: 0 done; 2 other words; 3 a line outside the grammar, whose number
is then written; 4 the input failed; 5 the output failed; 8 more than
16,777,216 bytes or 8 member lines; 9 out of memory. After 2, 4 and 8 nothing
was written.
";

const VERSION: &str = "dfsr 0.1.0\n";

/// The words behind the program's name.
fn words_of(rt: &HostRuntime) -> io::Result<Vec<String>> {
    let mut words = Vec::new(rt.alloc());
    for word in env::args(rt)?.skip(1) {
        words.push(word)?;
    }
    Ok(words)
}

/// Writes a text to standard output.
fn tell(rt: &HostRuntime, text: &str) -> Status {
    let mut out = StdSink::new(rt.stdout());
    match write_all(rt.alloc(), &mut out, text.as_bytes()) {
        Ok(()) => Status::Done,
        Err(WriteError::Failed) => Status::WriteFault,
        Err(WriteError::Memory) => Status::Memory,
    }
}

/// Does what the words ask for.
fn answer(rt: &HostRuntime, words: &[String]) -> Status {
    if let [word] = words {
        match word.as_str() {
            "--help" => return tell(rt, HELP),
            "--version" => return tell(rt, VERSION),
            _ => {}
        }
    }
    let mut input = StdSource::new(rt.stdin());
    let mut out = StdSink::new(rt.stdout());
    script_main(rt.alloc(), words, &mut input, &mut out)
}

fn main(rt: HostRuntime) -> ExitCode {
    let status = match words_of(&rt) {
        Ok(words) => answer(&rt, &words),
        Err(error) if error.kind() == ErrorKind::OutOfMemory => Status::Memory,
        Err(_) => Status::Usage,
    };
    if status == Status::Usage {
        let _ = eprint!(rt; "{USAGE}");
    }
    ExitCode::from(status.code())
}
