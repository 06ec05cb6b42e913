// Words of a row: what it begins with, and names of members.
ghost use Rattle.std.specs.Prelude.{◌≡◌};
ghost use Rattle.std.specs.List.{list_all};
ghost use Rattle.script_lang.specs.Grammar.{is_member_name, is_small_letter};
ghost use Rattle.script_lang.specs.Reading.{Reads, keyword_in, kind_in, name_in};

use crate::errors::RowError;
use frs_base::{Bytes, MemberKind};
use std::alloc::Global;

/// The most letters that a member's name has.
const LETTERS: usize = 8;

/// The word that a line begins with.
#[derive(Clone, Copy, Debug, PartialEq, Eq)]
pub enum Keyword {
    Member,
    Put,
    Fill,
    Mkdir,
    Move,
    Remove,
    Consume,
    Change,
    Pull,
    Install,
    Drain,
    Show,
    Tree,
    Sums,
    Count,
}

/// The keyword that a word is.
pub fn keyword_in(word: &str) -> Option<Keyword>
    ensures { result ≡ keyword_in word.now }
{
    match word {
        "member" => Some(Keyword::Member),
        "put" => Some(Keyword::Put),
        "fill" => Some(Keyword::Fill),
        "mkdir" => Some(Keyword::Mkdir),
        "move" => Some(Keyword::Move),
        "remove" => Some(Keyword::Remove),
        "consume" => Some(Keyword::Consume),
        "change" => Some(Keyword::Change),
        "pull" => Some(Keyword::Pull),
        "install" => Some(Keyword::Install),
        "drain" => Some(Keyword::Drain),
        "show" => Some(Keyword::Show),
        "tree" => Some(Keyword::Tree),
        "sums" => Some(Keyword::Sums),
        "count" => Some(Keyword::Count),
        _ => None,
    }
}

/// The kind of member that a word spells.
pub fn kind_of(word: &str) -> Result<MemberKind, RowError>
    ensures { Reads result (kind_in word.now) }
{
    if word == "primary" {
        Ok(MemberKind::Primary)
    } else if word == "plain" {
        Ok(MemberKind::Plain)
    } else {
        Err(RowError::Bad)
    }
}

fn has_small_letters(word: &str) -> bool
    ensures { result ≡ list_all is_small_letter word.now }
{
    word.bytes().all(|c| c >= b'a' && c <= b'z')
}

fn is_member_name(word: &str) -> bool
    ensures { result ≡ is_member_name word.now }
{
    0 < word.len() && word.len() <= LETTERS && has_small_letters(word)
}

/// The member's name that a word is.
pub fn member_name_of(alloc: Global, word: &str) -> Result<Bytes, RowError>
    ensures { Reads result (name_in word.now) }
{
    if !is_member_name(word) {
        return Err(RowError::Bad);
    }
    Ok(Bytes::of(Vec::from_slice(alloc, word.as_bytes())?))
}
