// The script that a seed makes, from its seed to what its last three lines print.
ghost use Rattle.std.specs.Prelude.{◌*◌, ◌+◌, ◌<◌, ◌^◌, ◌≡◌, ◌⊎◌, ◌≤◌, All, IfOk, OnErr, OnOk, length, string_bytes};
ghost use Rattle.frs_io.specs.Causes.{HasWriteCause, Rose};
ghost use Rattle.script_lang.specs.Grammar.{IsLine};
ghost use Rattle.script_engine.specs.Engines.{HasScene, local_by_all};
ghost use Rattle.dfsr.specs.Answers.{IsBigText, WritesBig, WritesSomeOfBig};
ghost use Rattle.dfsr.specs.Big.{groups, rounds};
ghost use Rattle.dfsr.specs.Leading.{Leads, LeadsOn};

mod lines;

use crate::status::Status;
use frs_io::{Sink, WriteError, write_all};
use lines::{counts, draw, group, next, opening, round};
use script_engine::Engine;
use script_lang::Line;
use std::alloc::{AllocError, Global};
use std::mem::forget;

/// How often all members pull and drain in the end.
const ROUNDS: usize = 3;

/// Does lines, and gives what they print.
fn run_lines(alloc: Global, engine: &mut Engine, lines: &[Line]) -> Result<String, AllocError>
    requires lines { All IsLine lines.now }
    requires scene { HasScene engine.old }
    requires room { local_by_all engine.old + length lines.now < 2 ^ 60 }
    ensures ok { IfOk result (λ text. Leads engine.old lines.now (string_bytes text) engine.new) }
    ensures made { OnOk result (local_by_all engine.new ≤ local_by_all engine.old + length lines.now) }
{
    let mut printed = String::new(alloc);
    for line in lines {
        let text = engine.run(alloc, line)?;
        printed.push_str(text.as_str())?;
    }
    Ok(printed)
}

/// Does the groups, each drawn by the number behind that of the one before, the first by that
/// behind the seed.
fn run_groups(alloc: Global, engine: &mut Engine, seed: u64, count: u64) -> Result<(), AllocError>
    requires few { count ≤ 20000 }
    requires scene { HasScene engine.old }
    requires room { local_by_all engine.old < 2 ^ 59 }
    ensures ok { OnOk result (LeadsOn engine.old (groups seed count) engine.new) }
    ensures made { OnOk result (local_by_all engine.new ≤ local_by_all engine.old + 2 * count) }
{
    let mut number = seed;
    for done in 0..count {
        number = next(number);
        let lines = group(alloc, draw(number), done + 1)?;
        run_lines(alloc, engine, &lines)?;
    }
    Ok(())
}

/// Does the rounds in which all members pull and drain.
fn run_rounds(alloc: Global, engine: &mut Engine) -> Result<(), AllocError>
    requires scene { HasScene engine.old }
    requires room { local_by_all engine.old < 2 ^ 59 }
    ensures ok { OnOk result (LeadsOn engine.old (rounds 3) engine.new) }
    ensures made { OnOk result (local_by_all engine.new ≤ local_by_all engine.old + 27) }
{
    let lines = round(alloc)?;
    for _ in 0..ROUNDS {
        run_lines(alloc, engine, &lines)?;
    }
    Ok(())
}

/// Does the whole script, and gives what its last three lines print. The members' memory is left
/// to the system.
fn big_text(alloc: Global, seed: u64, count: u64) -> Result<String, AllocError>
    requires { count ≤ 20000 }
    ensures { IfOk result (λ text. IsBigText seed count (string_bytes text)) }
{
    let mut engine = Engine::new();
    let opening = opening(alloc)?;
    run_lines(alloc, &mut engine, &opening)?;
    run_groups(alloc, &mut engine, seed, count)?;
    run_rounds(alloc, &mut engine)?;
    let counts = counts(alloc)?;
    let text = run_lines(alloc, &mut engine, &counts)?;
    forget(engine);
    Ok(text)
}

/// Writes what the last three lines print.
fn write_big<K: Sink>(alloc: Global, seed: u64, count: u64, out: &mut K) -> Result<(), WriteError>
    requires { count ≤ 20000 }
    ensures ok { OnOk result (WritesBig seed count (K.taken out.old) (K.taken out.new)) }
    ensures err { OnErr result (WritesSomeOfBig seed count (K.taken out.old) (K.taken out.new)) }
    ensures cause { HasWriteCause (K.faults out.old) (K.faults out.new) result }
{
    let text = big_text(alloc, seed, count)?;
    write_all(alloc, out, text.as_bytes())
}

/// Does the script that a seed makes with so many groups, and writes what its last three lines
/// print.
pub fn run_big<K: Sink>(alloc: Global, seed: u64, count: u64, out: &mut K) -> Status
    requires { count ≤ 20000 }
    ensures done { result ≡ Status.Done → WritesBig seed count (K.taken out.old) (K.taken out.new) }
    ensures cut_short { (result ≡ Status.WriteFault) ⊎ (result ≡ Status.Memory) → WritesSomeOfBig seed count (K.taken out.old) (K.taken out.new) }
    ensures ways { (result ≡ Status.Done) ⊎ (result ≡ Status.WriteFault) ⊎ (result ≡ Status.Memory) }
    ensures write_fault { result ≡ Status.WriteFault → Rose (K.faults out.old) (K.faults out.new) }
    ensures write_later { K.faults out.old ≤ K.faults out.new }
{
    match write_big(alloc, seed, count, out) {
        Ok(()) => Status::Done,
        Err(WriteError::Failed) => Status::WriteFault,
        Err(WriteError::Memory) => Status::Memory,
    }
}
