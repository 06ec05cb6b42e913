// Records of files.
ghost use Rattle.std.specs.Prelude.{◌≡◌, ◌≢◌, ◌↔◌, IsTrue, MatchOption, option_copied};
ghost use Rattle.frs_base.specs.Options.{In};
ghost use Rattle.record_db.specs.State.{IsBook};
ghost use Rattle.name_rules.specs.Shown.{AreByUid, AreShown};
ghost use Rattle.install_plan.specs.Objects.{IsShownOf};

use frs_base::Uid;
use record_db::Book;
use win_order::Update;

/// Whether the UID is one of these, which are in order.
pub(crate) fn is_among(uids: &[Uid], uid: &Uid) -> bool
    requires { AreByUid uids.now }
    ensures { IsTrue result ↔ In uid.now uids.now }
{
    uids.binary_search(uid).is_ok()
}

/// The record of a file or directory, if it is shown.
pub(crate) fn shown_record<'a>(book: &'a Book, shown: &[Uid], uid: &Uid) -> Option<&'a Update>
    requires book { IsBook book.now.state }
    requires shown { AreShown book.now.state.records shown.now }
    ensures { MatchOption (option_copied result)
        ((u : _) → IsShownOf book.now.state.records uid.now u → ⊥)
        (λ u. IsShownOf book.now.state.records uid.now u) }
{
    if !is_among(shown, uid) {
        return None;
    }
    book.held(*uid)
}
