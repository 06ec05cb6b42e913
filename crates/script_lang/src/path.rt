// Paths.
ghost use Rattle.std.specs.Prelude.{◌==◌, ◌≡◌, IfErr, IfOk, count_by, true};
ghost use Rattle.std.specs.List.{list_all};
ghost use Rattle.script_lang.specs.Grammar.{is_component, is_path_byte};
ghost use Rattle.script_lang.specs.Reading.{Reads, path_in};

use crate::errors::RowError;
use frs_base::{List, Name, NameError};
use std::alloc::Global;

/// The most components that a path has.
const COMPONENTS: usize = 64;

/// The most characters that a component has.
const CHARACTERS: usize = 255;

fn has_path_bytes(part: &str) -> bool
    ensures { result ≡ list_all is_path_byte part.now }
{
    part.bytes()
        .all(|c| c >= 0x21 && c <= 0x7e && c != b'/' && c != b'\\')
}

fn is_component(part: &str) -> bool
    ensures { result ≡ is_component part.now }
{
    0 < part.len() && part.len() <= CHARACTERS && has_path_bytes(part)
}

/// The name of a component.
fn name_of(alloc: Global, part: &str) -> Result<Name, RowError>
    requires { is_component part.now ≡ true }
    ensures name { IfOk result (λ name. name ≡ part.now) }
    ensures memory { IfErr result (λ e. e ≡ RowError.Memory) }
{
    let mut units = Vec::with_capacity(alloc, part.len())?;
    for byte in part.as_bytes() {
        units.push(u16::from(*byte))?;
    }
    match Name::from_vec(units) {
        Ok(name) => Ok(name),
        Err(NameError::NameBad { .. }) => unreachable!(),
        Err(NameError::Memory) => Err(RowError::Memory),
    }
}

fn slash_count(word: &str) -> usize
    ensures { result ≡ count_by (λ b. b == 47) word.now }
{
    word.as_bytes().iter().filter(|byte| **byte == b'/').count()
}

/// The path that a word spells.
pub fn path_of(alloc: Global, word: &str) -> Result<List<Name>, RowError>
    ensures { Reads result (path_in word.now) }
{
    let slashes = slash_count(word);
    if slashes >= COMPONENTS {
        return Err(RowError::Bad);
    }
    let mut names = Vec::with_capacity(alloc, slashes + 1)?;
    for part in word.split('/') {
        if !is_component(part) {
            return Err(RowError::Bad);
        }
        names.push(name_of(alloc, part)?)?;
    }
    Ok(List::of(names))
}
