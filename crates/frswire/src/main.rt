//! Takes bytes of the protocol apart, as rows ask.
//!
//! Read [`wire::wire_main`] first: from the rows to their answers.
#![tactic(auto)]

pub mod rows;
pub mod status;
pub mod wire;

use crate::status::Status;
use crate::wire::wire_main;
use frs_io::{StdSink, StdSource, WriteError, write_all};
use std::io::ErrorKind;
use std::process::ExitCode;
use std::{env, io};

const USAGE: &str = "usage: frswire < ROWS\n";

const HELP: &str = "\
Takes bytes of the protocol between members apart.

usage: frswire < ROWS

Reads rows from standard input, each ended by a line feed, and prints one row
for each. HEX is an even number of hexadecimal digits, or - for no bytes.
  pdu HEX          more; bad NAME; or pdu N KIND HEX: how many bytes the PDU at
                   the front has, its kind, and its encoding
  feed HEX HEX ..  the pieces of a stream: pdu N KIND for each PDU and
                   whole CALL CONTEXT OPNUM HEX for each call that is complete,
                   parted by ; and at the end bad NAME or rest N
  request OPNUM HEX, reply OPNUM HEX
                   bad NAME AT; or stub HEX, the value that the stub is written
                   again
  form HEX         bad AT, or file ATTRIBUTES PLACE SUM

  --help, --version  print this text, or the version

Statuses: 0 done; 2 other words; 3 a row that asks nothing, whose number is
then written; 4 the input failed; 5 the output failed; 8 a row of more than
16,777,216 bytes; 9 out of memory.
";

const VERSION: &str = "frswire 0.1.0\n";

/// The words behind the program's name.
fn words_of(rt: &HostRuntime) -> io::Result<Vec<String>> {
    let mut words = Vec::new(rt.alloc());
    for word in env::args(rt)?.skip(1) {
        words.push(word)?;
    }
    Ok(words)
}

/// Writes a text to standard output.
fn tell(rt: &HostRuntime, text: &str) -> Status {
    let mut out = StdSink::new(rt.stdout());
    match write_all(rt.alloc(), &mut out, text.as_bytes()) {
        Ok(()) => Status::Done,
        Err(WriteError::Failed) => Status::WriteFault,
        Err(WriteError::Memory) => Status::Memory,
    }
}

/// Does what the words ask for.
fn answer(rt: &HostRuntime, words: &[String]) -> Status {
    if let [word] = words {
        match word.as_str() {
            "--help" => return tell(rt, HELP),
            "--version" => return tell(rt, VERSION),
            _ => {}
        }
    }
    let mut input = StdSource::new(rt.stdin());
    let mut out = StdSink::new(rt.stdout());
    wire_main(rt.alloc(), words, &mut input, &mut out)
}

fn main(rt: HostRuntime) -> ExitCode {
    let status = match words_of(&rt) {
        Ok(words) => answer(&rt, &words),
        Err(error) if error.kind() == ErrorKind::OutOfMemory => Status::Memory,
        Err(_) => Status::Usage,
    };
    if status == Status::Usage {
        let _ = eprint!(rt; "{USAGE}");
    }
    ExitCode::from(status.code())
}
