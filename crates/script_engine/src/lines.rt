// What lines print, but for `show`, `tree`, `sums` and `count`.
ghost use Rattle.std.specs.Prelude.{◌≡◌, ◌∷◌, [], true, IfOk, Ok, codes, decimal, option_to_list, string_bytes};
ghost use Rattle.script_lang.specs.Grammar.{is_member_name};
ghost use Rattle.script_engine.specs.Named.{AreNamed, HasName};
ghost use Rattle.script_engine.specs.Printed.{own_word, printed, step_subject};
ghost use Rattle.script_engine.specs.Refusals.{refused_text};
ghost use Rattle.script_engine.specs.Text.{consumed_text, installed_text, last_text, usn_text};
ghost use Rattle.script_engine.specs.declared.refusal.Refusal.TheVariants.{Exists, Local, Unknown};

use crate::names::text_of;
use crate::words::version_word;
use crate::{Consumed, MemberName, Refusal};
use name_rules::{Step, Subject};
use std::alloc::{AllocError, Global};
use vol_state::Refused;

/// What a new member prints.
pub(crate) fn ok_text(alloc: Global) -> Result<String, AllocError>
    ensures { IfOk result (λ text. string_bytes text ≡ printed (codes "ok" ∷ [])) }
{
    String::from_str(alloc, "ok\n")
}

/// What a local operation prints.
pub(crate) fn usn_text(alloc: Global, usn: u64) -> Result<String, AllocError>
    ensures { IfOk result (λ text. string_bytes text ≡ usn_text usn) }
{
    format!(in alloc; "usn {usn}\n")
}

/// What a pull prints.
pub(crate) fn pulled_text(alloc: Global, taken: u64) -> Result<String, AllocError>
    ensures { IfOk result (λ text. string_bytes text ≡ printed (codes "pulled" ∷ decimal taken ∷ [])) }
{
    format!(in alloc; "pulled {taken}\n")
}

/// A version of a member.
fn own_word(alloc: Global, name: &[u8], version: u64) -> Result<String, AllocError>
    requires { is_member_name name.now ≡ true }
    ensures { IfOk result (λ text. string_bytes text ≡ own_word name.now version) }
{
    let name = text_of(name);
    format!(in alloc; "{name}:{version}")
}

/// What a consumed journal record of a member prints.
fn consumed_text(alloc: Global, name: &[u8], consumed: Consumed) -> Result<String, AllocError>
    requires { is_member_name name.now ≡ true }
    ensures { IfOk result (λ text. string_bytes text ≡ consumed_text name.now consumed) }
{
    match consumed {
        Consumed::Made { usn } => {
            let version = own_word(alloc, name, usn)?;
            format!(in alloc; "update {version}\n")
        }
        Consumed::Skipped { usn } => {
            let version = own_word(alloc, name, usn)?;
            format!(in alloc; "skip {version}\n")
        }
    }
}

/// What the last of consumed records prints, or that nothing was left.
pub(crate) fn last_text(
    alloc: Global,
    name: &[u8],
    last: Option<Consumed>,
) -> Result<String, AllocError>
    requires { is_member_name name.now ≡ true }
    ensures { IfOk result (λ text. string_bytes text ≡ last_text name.now (option_to_list last)) }
{
    match last {
        None => String::from_str(alloc, "nothing\n"),
        Some(consumed) => consumed_text(alloc, name, consumed),
    }
}

/// What a step of the installer is of: the file, or the version of the member that a journal record
/// has.
fn subject_text(
    alloc: Global,
    names: &[MemberName],
    own: &[u8],
    step: &Step,
) -> Result<String, AllocError>
    requires names { AreNamed names.now }
    requires own { is_member_name own.now ≡ true }
    ensures { IfOk result (λ text. string_bytes text ≡ step_subject names.now own.now step.now) }
{
    match step.subject() {
        Subject::Uid(uid) => version_word(alloc, names, uid.db, uid.version),
        Subject::Usn(usn) => own_word(alloc, own, usn),
    }
}

/// What a step of the installer prints, or that none was left.
pub(crate) fn step_text(
    alloc: Global,
    names: &[MemberName],
    own: &[u8],
    step: Option<Step>,
) -> Result<String, AllocError>
    requires names { AreNamed names.now }
    requires own { is_member_name own.now ≡ true }
    ensures { IfOk result (λ text. string_bytes text ≡ installed_text names.now own.now (Ok step)) }
{
    match step {
        None => String::from_str(alloc, "drained\n"),
        Some(step) => {
            let word = step.word();
            let subject = subject_text(alloc, names, own, &step)?;
            format!(in alloc; "{word} {subject}\n")
        }
    }
}

/// What a drain prints.
pub(crate) fn drained_text(alloc: Global, steps: u128) -> Result<String, AllocError>
    ensures { IfOk result (λ text. string_bytes text ≡ printed (codes "drained" ∷ decimal steps ∷ [])) }
{
    format!(in alloc; "drained {steps}\n")
}

/// What a line prints that names no member.
pub(crate) fn unknown_text(alloc: Global, name: &[u8]) -> Result<String, AllocError>
    requires { is_member_name name.now ≡ true }
    ensures { IfOk result (λ text. string_bytes text ≡ refused_text (Unknown name.now)) }
{
    let name = text_of(name);
    format!(in alloc; "refused 1 unknown {name}\n")
}

/// What a `member` line prints whose name is taken.
pub(crate) fn exists_text(alloc: Global, name: &[u8]) -> Result<String, AllocError>
    requires { is_member_name name.now ≡ true }
    ensures { IfOk result (λ text. string_bytes text ≡ refused_text (Exists name.now)) }
{
    let name = text_of(name);
    format!(in alloc; "refused 2 exists {name}\n")
}

/// What the first refusal of a local operation prints.
pub(crate) fn local_text(alloc: Global, why: Refused) -> Result<String, AllocError>
    ensures { IfOk result (λ text. string_bytes text ≡ refused_text (Local why)) }
{
    match why {
        Refused::TooLarge { length } => format!(in alloc; "refused 10 toolarge {length}\n"),
        Refused::NoPath => String::from_str(alloc, "refused 5 nopath\n"),
        Refused::NotDirectory => String::from_str(alloc, "refused 6 notdir\n"),
        Refused::Looped => String::from_str(alloc, "refused 9 loop\n"),
        Refused::NameTaken => String::from_str(alloc, "refused 8 taken\n"),
        Refused::NotEmpty => String::from_str(alloc, "refused 7 notempty\n"),
    }
}

/// What a refused line prints: the number of the refusal, its word and its value.
pub(crate) fn refusal_text(alloc: Global, refusal: &Refusal) -> Result<String, AllocError>
    requires { HasName refusal.now }
    ensures { IfOk result (λ text. string_bytes text ≡ refused_text refusal.now) }
{
    match refusal {
        Refusal::Unknown { name } => unknown_text(alloc, name.as_slice()),
        Refusal::Exists { name } => exists_text(alloc, name.as_slice()),
        Refusal::Itself => String::from_str(alloc, "refused 18 self\n"),
        Refusal::Local { why } => local_text(alloc, *why),
        Refusal::NotYet { usn } => format!(in alloc; "refused 12 notyet {usn}\n"),
        Refusal::VectorFull { count } => format!(in alloc; "refused 20 vectorfull {count}\n"),
    }
}
