// What no line prints: which database a member has.
ghost use Rattle.std.specs.Prelude.{◌≡◌, ◌+◌, ℕ, IfOk, OnOk, string_bytes, true};
ghost use Rattle.script_lang.specs.Grammar.{is_member_name};
ghost use Rattle.script_lang.specs.declared.line.Line.TheVariants.{Member};
ghost use Rattle.script_engine.specs.Engines.{HasRoom, HasScene, IsWithin, Stands};
ghost use Rattle.script_engine.specs.Scene.{Scene};
ghost use Rattle.script_engine.specs.Text.{Does};

use super::Engine;
use frs_base::{Bytes, MemberKind, database_of};
use script_lang::Line;
use std::alloc::{AllocError, Global};
use std::process::Abort;
use std::test::Fail;

/// A `member` line.
fn member(alloc: Global, name: &str, kind: MemberKind) -> Result<Line, AllocError>
    ensures { IfOk result (λ line. line ≡ Member name.now kind) }
{
    Ok(Line::Member {
        name: Bytes::of(Vec::from_slice(alloc, name.as_bytes())?),
        kind,
    })
}

/// What a `member` line prints.
fn added(
    alloc: Global,
    engine: &mut Engine,
    name: &str,
    kind: MemberKind,
) -> Result<String, AllocError>
    requires name { is_member_name name.now ≡ true }
    requires scene { HasScene engine.old }
    requires room { HasRoom engine.old }
    ensures ok { (s : Scene) → Stands engine.old s → IfOk result (λ text. (new : Scene) × Does s (Member name.now kind) (string_bytes text) new × Stands engine.new new) }
    ensures within { (n : ℕ) → IsWithin n engine.old → OnOk result (IsWithin (n + 1) engine.new) }
{
    let line = member(alloc, name, kind)?;
    engine.run(alloc, &line)
}

/// The third member has this name and database.
fn is_third(engine: &Engine, name: &str) -> bool {
    match engine.names.as_slice().get(2) {
        None => false,
        Some(named) => { named.name.as_slice() == name.as_bytes() && named.db == database_of(3) }
    }
}

/// Adds a member, one of the same name, and another.
fn try_members(rt: &impl Abort, alloc: Global, engine: &mut Engine) -> Result<(), Fail>
    requires scene { HasScene engine.old }
    requires within { IsWithin 0 engine.old }
{
    let first = added(alloc, engine, "a", MemberKind::Primary)?;
    assert_eq!(rt; first.as_str(), "ok\n");
    let second = added(alloc, engine, "a", MemberKind::Plain)?;
    assert_eq!(rt; second.as_str(), "refused 2 exists a\n");
    let third = added(alloc, engine, "b", MemberKind::Plain)?;
    assert_eq!(rt; third.as_str(), "ok\n");
    assert!(rt; is_third(engine, "b"));
    Ok(())
}

#[test]
fn a_refused_member_takes_its_number(rt: HostRuntime) -> Result<(), Fail> {
    let mut engine = Engine::new();
    try_members(&rt, rt.alloc(), &mut engine)
}
