// The names of members, by their databases.
ghost use Rattle.std.specs.Prelude.{◌≡◌, true};
ghost use Rattle.script_engine.specs.Named.{AreNamed, is_name_or_empty};
ghost use Rattle.script_engine.specs.Printed.{name_of};

use frs_base::{Bytes, Guid};

/// The name by which a script speaks of a member, or the empty one of a refused `member` line, which
/// no line can say.
#[derive(Debug, Drop)]
pub struct MemberName {
    /// The member's own database.
    pub db: Guid,
    /// 1 to 8 letters a to z, or none.
    pub name: Bytes,
}

/// A member's name as text.
pub(crate) fn text_of(name: &[u8]) -> &str
    requires { is_name_or_empty name.now ≡ true }
    ensures { result.now ≡ name.now }
{
    str::from_utf8(name).unwrap()
}

/// The name of the member whose database this is.
pub(crate) fn name_of(names: &[MemberName], db: Guid) -> &str
    requires { AreNamed names.now }
    ensures { result.now ≡ name_of names.now db }
{
    for member in names {
        if member.db == db {
            return text_of(member.name.as_slice());
        }
    }
    ""
}
