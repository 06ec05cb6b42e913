// What an update is of.
ghost use Rattle.std.specs.Prelude.{◌≡◌};
ghost use Rattle.name_rules.specs.Tree.{is_file, kind_of};

use frs_base::Kind;
use win_order::Update;

/// Whether an update is of a present file: no directory's, and no tombstone.
pub fn is_file(update: &Update) -> bool
    ensures { result ≡ is_file update.now }
{
    update.present && !update.is_directory()
}

/// The kind of what an update is of.
pub(crate) fn kind_of(update: &Update) -> Kind
    ensures { result ≡ kind_of update.now }
{
    if update.is_directory() {
        Kind::Directory
    } else {
        Kind::File
    }
}
