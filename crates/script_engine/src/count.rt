// What `count` prints.
ghost use Rattle.std.specs.Prelude.{◌≡◌, ◌∷◌, [], IfOk, codes, count_by, decimal, length, string_bytes};
ghost use Rattle.std.specs.List.{join_with_byte};
ghost use Rattle.script_engine.specs.Text.{count_text};
ghost use Rattle.script_engine.specs.Trees.{files_in};

use crate::TreeRow;
use crate::rows::files_in;
use std::alloc::{AllocError, Global};
use version_vector::Interval;
use win_order::Update;

/// How many records are present.
fn count_live(records: &[Update]) -> usize
    ensures { result ≡ count_by (λ u. u.present) records.now }
{
    records.iter().filter(|u| u.present).count()
}

/// How many records there are, and how many of them are present.
fn records_count(alloc: Global, records: &[Update]) -> Result<String, AllocError>
    ensures { IfOk result (λ text. string_bytes text ≡ join_with_byte 32 (codes "records" ∷ decimal (length records.now) ∷ codes "live" ∷ decimal (count_by (λ u. u.present) records.now) ∷ [])) }
{
    let count = records.len();
    let live = count_live(records);
    format!(in alloc; "records {count} live {live}")
}

/// How many files a tree has, and how many intervals a vector.
fn tree_count(alloc: Global, rows: &[TreeRow], vector: &[Interval]) -> Result<String, AllocError>
    ensures { IfOk result (λ text. string_bytes text ≡ join_with_byte 32 (codes "files" ∷ decimal (files_in rows.now) ∷ codes "intervals" ∷ decimal (length vector.now) ∷ [])) }
{
    let files = files_in(rows);
    let intervals = vector.len();
    format!(in alloc; "files {files} intervals {intervals}")
}

/// How many records a member holds, how many of them are present, how many files the tree of its
/// volume has, and how many intervals its vector.
pub(crate) fn count_text(
    alloc: Global,
    records: &[Update],
    rows: &[TreeRow],
    vector: &[Interval],
) -> Result<String, AllocError>
    ensures { IfOk result (λ text. string_bytes text ≡ count_text records.now rows.now vector.now) }
{
    let records = records_count(alloc, records)?;
    let tree = tree_count(alloc, rows, vector)?;
    format!(in alloc; "{records} {tree}\n")
}
