//! How fast bytes of the protocol are read and written.
//!
//! `wire_bench JOB COUNT` does a job so many times. It prints how many bytes it went through, and
//! on standard error how many megabytes a second. Read [`work`] first.
#![tactic(auto)]

mod work;

use crate::work::{BenchError, Job, run};
use std::process::ExitCode;
use std::time::Instant;
use std::{env, io};

const USAGE: &str = "usage: wire_bench decode|encode|read_page|write_page|bytes COUNT\n";

/// What the words ask for: the job, and how often it is done.
fn job_of(words: &[String]) -> Option<(Job, u64)> {
    let [job, count] = words else {
        return None;
    };
    let job = match job.as_str() {
        "decode" => Job::Decode,
        "encode" => Job::Encode,
        "read_page" => Job::ReadPage,
        "write_page" => Job::WritePage,
        "bytes" => Job::Bytes,
        _ => return None,
    };
    let count = count.as_str().parse::<u64>().ok()?;
    Some((job, count))
}

/// The words behind the program's name.
fn words_of(rt: &HostRuntime) -> io::Result<Vec<String>> {
    let mut words = Vec::new(rt.alloc());
    for word in env::args(rt)?.skip(1) {
        words.push(word)?;
    }
    Ok(words)
}

/// Tells how many megabytes a second these bytes were.
fn tell(rt: &HostRuntime, bytes: u64, start: Instant) {
    if let Ok(took) = start.elapsed(rt) {
        let rate = u128::from(bytes) * 1000 / took.as_nanos().max(1);
        let _ = eprintln!(rt; "{rate} MB/s");
    }
}

/// Does a job, and tells how fast it went.
fn timed(rt: &HostRuntime, job: Job, count: u64) -> Result<u64, BenchError> {
    let start = Instant::now(rt);
    let bytes = run(rt.alloc(), job, count)?;
    if let Ok(start) = start {
        tell(rt, bytes, start);
    }
    Ok(bytes)
}

fn main(rt: HostRuntime) -> ExitCode {
    let Ok(words) = words_of(&rt) else {
        return ExitCode::from(1);
    };
    let Some((job, count)) = job_of(&words) else {
        let _ = eprint!(rt; "{USAGE}");
        return ExitCode::from(2);
    };
    match timed(&rt, job, count) {
        Ok(bytes) => {
            let _ = println!(rt; "{bytes}");
            ExitCode::from(0)
        }
        Err(BenchError::Memory) => ExitCode::from(9),
        Err(BenchError::Bad) => ExitCode::from(1),
    }
}
