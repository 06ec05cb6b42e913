// From a line to the row that spells it.
ghost use Rattle.std.specs.Prelude.{[], ◌++◌, ◌∷◌, ◌≡◌, IfOk, IsUtf8, OnOk, string_bytes, true};
ghost use Rattle.std.specs.List.{flat_map, join_with_byte, list_all};
ghost use Rattle.script_lang.specs.Grammar.{IsLine, is_component, is_member_name, is_path, kind_word, path_word, spelling};

use crate::line::Line;
use frs_base::{Bytes, List, MemberKind, Name};
use std::alloc::{AllocError, Global};

/// These bytes, which are UTF-8, as text.
fn text_of(bytes: &[u8]) -> &str
    requires { IsUtf8 bytes.now }
    ensures { result.now ≡ bytes.now }
{
    str::from_utf8(bytes).unwrap()
}

fn name_text(name: &Bytes) -> &str
    requires { is_member_name name.now ≡ true }
    ensures { result.now ≡ name.now }
{
    text_of(name.as_slice())
}

fn kind_text(kind: MemberKind) -> &'static str
    ensures { result.now ≡ kind_word kind }
{
    match kind {
        MemberKind::Primary => "primary",
        MemberKind::Plain => "plain",
    }
}

/// Writes a component behind a text.
fn push_component(text: &mut String, name: &Name) -> Result<(), AllocError>
    requires { is_component name.now ≡ true }
    ensures { OnOk result (string_bytes text.new ≡ string_bytes text.old ++ name.now) }
{
    for unit in name.units() {
        text.push(char::from(*unit as u8))?;
    }
    Ok(())
}

/// Writes components behind a text, a `/` before each.
fn push_components(text: &mut String, names: &[Name]) -> Result<(), AllocError>
    requires { list_all is_component names.now ≡ true }
    ensures { OnOk result (string_bytes text.new ≡ string_bytes text.old ++ flat_map (λ name. 47 ∷ name) names.now) }
{
    for name in names {
        text.push('/')?;
        push_component(text, name)?;
    }
    Ok(())
}

/// The components of a path, with `/` between.
fn path_text(alloc: Global, path: &List<Name>) -> Result<String, AllocError>
    requires { is_path path.now ≡ true }
    ensures { IfOk result (λ text. string_bytes text ≡ path_word path.now) }
{
    let mut text = String::new(alloc);
    let [first, others @ ..] = path.as_slice() else {
        return Ok(text);
    };
    push_component(&mut text, first)?;
    push_components(&mut text, others)?;
    Ok(text)
}

fn two_words(alloc: Global, word: &str, name: &Bytes) -> Result<String, AllocError>
    requires { is_member_name name.now ≡ true }
    ensures { IfOk result (λ text. string_bytes text ≡ join_with_byte 32 (word.now ∷ name.now ∷ [])) }
{
    format!(in alloc; "{word} {}", name_text(name))
}

fn three_words(alloc: Global, word: &str, name: &Bytes, third: &str) -> Result<String, AllocError>
    requires { is_member_name name.now ≡ true }
    ensures { IfOk result (λ text. string_bytes text ≡ join_with_byte 32 (word.now ∷ name.now ∷ third.now ∷ [])) }
{
    format!(in alloc; "{word} {} {third}", name_text(name))
}

fn four_words(
    alloc: Global,
    word: &str,
    name: &Bytes,
    third: &str,
    last: &str,
) -> Result<String, AllocError>
    requires { is_member_name name.now ≡ true }
    ensures { IfOk result (λ text. string_bytes text ≡ join_with_byte 32 (word.now ∷ name.now ∷ third.now ∷ last.now ∷ [])) }
{
    format!(in alloc; "{word} {} {third} {last}", name_text(name))
}

/// The row that spells a line, without a line feed.
///
/// The line's values must be in the form that [`Line`] tells.
pub fn print(alloc: Global, line: &Line) -> Result<String, AllocError>
    requires { IsLine line.now }
    ensures { IfOk result (λ text. string_bytes text ≡ spelling line.now) }
{
    match line {
        Line::Member { name, kind } => three_words(alloc, "member", name, kind_text(*kind)),
        Line::Put { name, path, text } => {
            let path = path_text(alloc, path)?;
            four_words(alloc, "put", name, &path, text_of(text.as_slice()))
        }
        Line::Fill { name, path, length } => {
            let path = path_text(alloc, path)?;
            four_words(alloc, "fill", name, &path, &length.to_string(alloc)?)
        }
        Line::Mkdir { name, path } => three_words(alloc, "mkdir", name, &path_text(alloc, path)?),
        Line::Move { name, from, to } => {
            let from = path_text(alloc, from)?;
            four_words(alloc, "move", name, &from, &path_text(alloc, to)?)
        }
        Line::Remove { name, path } => three_words(alloc, "remove", name, &path_text(alloc, path)?),
        Line::Consume { name, moment } => {
            three_words(alloc, "consume", name, &moment.to_string(alloc)?)
        }
        Line::Change { name, path, moment } => {
            let path = path_text(alloc, path)?;
            four_words(alloc, "change", name, &path, &moment.to_string(alloc)?)
        }
        Line::Pull { name, other } => three_words(alloc, "pull", name, name_text(other)),
        Line::Install { name } => two_words(alloc, "install", name),
        Line::Drain { name } => two_words(alloc, "drain", name),
        Line::Show { name } => two_words(alloc, "show", name),
        Line::Tree { name } => two_words(alloc, "tree", name),
        Line::Sums { name } => two_words(alloc, "sums", name),
        Line::Count { name } => two_words(alloc, "count", name),
    }
}
