// Lines that print what a member has.
ghost use Rattle.std.specs.Prelude.{◌≡◌, true, IfOk, string_bytes};
ghost use Rattle.script_engine.specs.Scene.{Scene};

use super::Engine;
use crate::count::count_text;
use crate::lines::unknown_text;
use crate::records::vector_text;
use crate::{records_text, sums_text, tree_rows, tree_text};
use std::alloc::{AllocError, Global};

impl Engine {
    ghost use Rattle.script_lang.specs.Grammar.{is_member_name};
    ghost use Rattle.script_engine.specs.Engines.{AtNamed, HasScene, Stands};
    ghost use Rattle.script_engine.specs.Text.{Counts, PrintsSums, PrintsTree, Shows};

    /// What the member with this name covers, and its records.
    pub(super) fn show(&self, alloc: Global, name: &[u8]) -> Result<String, AllocError>
        requires name { is_member_name name.now ≡ true }
        requires scene { HasScene self.now }
        ensures { (s : Scene) → Stands self.now s → IfOk result (λ text. AtNamed s name.now (λ d said after. Shows s d said × (after ≡ s)) (string_bytes text) s) }
    {
        let Some(at) = self.place_of(name) else {
            return unknown_text(alloc, name);
        };
        let names = self.names.as_slice();
        let book = self.folder(at).book();
        let mut text = vector_text(alloc, names, book.vector().intervals())?;
        let records = records_text(alloc, names, book)?;
        text.push_str(records.as_str())?;
        Ok(text)
    }

    /// The tree of the volume of the member with this name.
    pub(super) fn tree(&self, alloc: Global, name: &[u8]) -> Result<String, AllocError>
        requires name { is_member_name name.now ≡ true }
        requires scene { HasScene self.now }
        ensures { (s : Scene) → Stands self.now s → IfOk result (λ text. AtNamed s name.now (λ d said after. PrintsTree s d said × (after ≡ s)) (string_bytes text) s) }
    {
        match self.place_of(name) {
            None => unknown_text(alloc, name),
            Some(at) => tree_text(alloc, self.folder(at).volume()),
        }
    }

    /// The sums of the files in the volume of the member with this name.
    pub(super) fn sums(&self, alloc: Global, name: &[u8]) -> Result<String, AllocError>
        requires name { is_member_name name.now ≡ true }
        requires scene { HasScene self.now }
        ensures { (s : Scene) → Stands self.now s → IfOk result (λ text. AtNamed s name.now (λ d said after. PrintsSums s d said × (after ≡ s)) (string_bytes text) s) }
    {
        match self.place_of(name) {
            None => unknown_text(alloc, name),
            Some(at) => sums_text(alloc, self.folder(at).volume()),
        }
    }

    /// How much the member with this name has.
    pub(super) fn count(&self, alloc: Global, name: &[u8]) -> Result<String, AllocError>
        requires name { is_member_name name.now ≡ true }
        requires scene { HasScene self.now }
        ensures { (s : Scene) → Stands self.now s → IfOk result (λ text. AtNamed s name.now (λ d said after. Counts s d said × (after ≡ s)) (string_bytes text) s) }
    {
        let Some(at) = self.place_of(name) else {
            return unknown_text(alloc, name);
        };
        let folder = self.folder(at);
        let book = folder.book();
        let records = book.rows(alloc)?;
        let rows = tree_rows(alloc, folder.volume())?;
        count_text(alloc, records.as_slice(), &rows, book.vector().intervals())
    }
}
