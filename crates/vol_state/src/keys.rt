// Where to look for names and UIDs: numbers of 64 bits.
ghost use Rattle.std.specs.Prelude.{◌≡◌};
ghost use Rattle.frs_base.specs.Names.{fold_unit};
ghost use Rattle.vol_state.specs.Hints.{mixed, place_key, uid_key};

use frs_base::{Name, Uid};

/// The key of a list of numbers, one further.
fn mixed(key: u64, number: u64) -> u64
    ensures { result ≡ mixed key number }
{
    key.wrapping_mul(1_099_511_628_211).wrapping_add(number)
}

/// A to Z become a to z.
fn fold_unit(unit: u16) -> u16
    ensures { result ≡ fold_unit unit }
{
    if unit >= 0x41 && unit <= 0x5a {
        unit + 0x20
    } else {
        unit
    }
}

/// The key of a name in a directory. Matching names have one key.
pub(crate) fn place_key(parent: u64, name: &Name) -> u64
    ensures { result ≡ place_key parent name.now }
{
    let mut key = parent;
    for unit in name.units() {
        key = mixed(key, u64::from(fold_unit(*unit)));
    }
    key
}

/// The key of a UID.
pub(crate) fn uid_key(uid: Uid) -> u64
    ensures { result ≡ uid_key uid }
{
    let low = uid.db.number() % (1 << 64);
    mixed(uid.version, low as u64)
}
