// What is sent of a file.
ghost use Rattle.std.specs.Prelude.{◌≡◌, ◌-◌, ◌++◌, ◌+◌, drop, length, min, slice_range};

use marshal_form::Form;
use std::marker::Model;

/// The marshalled form of a file with its hash, to be read piece by piece.
///
/// A contract sees its bytes.
#[derive(Debug, Drop)]
pub struct Body {
    form: Form,
}

impl Model for Body {
    ghost use Rattle.std.specs.Prelude.{List, ℕ};

    ghost Value = { List ℕ };

    ghost view = { λ body. body.form };
}

impl Body {
    /// The body that has these bytes.
    pub fn of(form: Form) -> Body
        ensures { result ≡ form }
    {
        Body { form }
    }

    /// How many bytes it has.
    pub fn length(&self) -> u64
        ensures { result ≡ length self.now }
    {
        self.form.as_slice().len() as u64
    }

    /// Copies as many of the bytes from this place on as are there and fit, and answers how many.
    pub fn read_at(&self, at: u64, buf: &mut [u8]) -> usize
        ensures count { result ≡ min (length buf.old) (length self.now - at) }
        ensures read { buf.new ≡ slice_range self.now at (at + result) ++ drop result buf.old }
    {
        let form = self.form.as_slice();
        if at >= form.len() as u64 {
            return 0;
        }
        let rest = &form[at as usize..];
        let count = rest.len().min(buf.len());
        buf[..count].copy_from_slice(&rest[..count]);
        count
    }

    /// The whole form.
    pub fn into_form(self) -> Form
        ensures { result ≡ self }
    {
        let Body { form } = self;
        form
    }
}

impl PartialEq for Body {
    ghost use Rattle.std.specs.Prelude.{nat_eq};
    ghost use Rattle.std.specs.Cmp.Lexicographic.{lists_per, pointwise};
    ghost use Rattle.std.specs.Cmp.Rules.{comparing};
    ghost use Rattle.std.proofs.Common.{rules};

    ghost eq = { pointwise nat_eq };

    ghost laws = { lists_per (Prim.search (comparing, rules)) };

    fn eq(&self, other: &Body) -> bool {
        self.form.as_slice() == other.form.as_slice()
    }
}

impl Eq for Body {
    ghost use Rattle.std.specs.Cmp.Rules.{comparing};
    ghost use Rattle.std.proofs.Common.{rules};

    ghost laws = { Prim.search (comparing, rules) };
}
