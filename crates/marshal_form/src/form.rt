// Forms whose hash is known.
ghost use Rattle.std.specs.Prelude.{◌≡◌, IfOk};
ghost use Rattle.sha1.specs.Sha1.{sha1};
ghost use Rattle.marshal_form.specs.Spelling.{spelling};

use crate::{LOCAL, marshal, sum};
use sha1::DIGEST_LEN;
use std::alloc::{AllocError, Global};
use std::marker::Model;
use std::sync::Arc;

/// The bytes of a form with their SHA-1 hash, which is taken once. Copies share the bytes.
///
/// A contract sees the bytes.
#[derive(Debug, Drop)]
pub struct Form {
    bytes: Arc<Vec<u8>>,
    sum: [u8; DIGEST_LEN],
}

impl Model for Form {
    ghost use Rattle.std.specs.Prelude.{◌≡◌, List, ℕ};
    ghost use Rattle.std.specs.Arc.{arc_value};
    ghost use Rattle.sha1.specs.Sha1.{sha1};

    ghost Value = { List ℕ };

    ghost view = { λ form. (arc_value form.bytes).items };

    ghost invariant = { λ form. form.sum ≡ sha1 (arc_value form.bytes).items };
}

impl Form {
    /// The form with these bytes, which are hashed.
    pub fn of(alloc: Global, bytes: Vec<u8>) -> Result<Form, AllocError>
        ensures { IfOk result (λ form. form ≡ bytes.items) }
    {
        let sum = sum(bytes.as_slice());
        let bytes = Arc::new(alloc, bytes)?;
        Ok(Form { bytes, sum })
    }

    /// The form of a local file with these contents, whose hash is known. Nothing is hashed.
    pub fn of_local(
        alloc: Global,
        contents: &[u8],
        sum: [u8; DIGEST_LEN],
    ) -> Result<Form, AllocError>
        requires { sum ≡ sha1 (spelling (record { attributes = 0x20 }) contents.now) }
        ensures { IfOk result (λ form. form ≡ spelling (record { attributes = 0x20 }) contents.now) }
    {
        let bytes = marshal(alloc, LOCAL, contents)?;
        let bytes = Arc::new(alloc, bytes)?;
        Ok(Form { bytes, sum })
    }

    /// The bytes, lent.
    pub fn as_slice(&self) -> &[u8]
        ensures { result.now ≡ self.now }
    {
        self.bytes.as_slice()
    }

    /// The SHA-1 hash of the bytes.
    pub fn sum(&self) -> [u8; DIGEST_LEN]
        ensures { result ≡ sha1 self.now }
    {
        self.sum
    }

    /// The same form, which shares its bytes and takes no memory.
    pub fn copy(&self) -> Result<Form, AllocError>
        ensures { IfOk result (λ form. form ≡ self.now) }
    {
        let bytes = Arc::try_clone(&self.bytes)?;
        Ok(Form {
            bytes,
            sum: self.sum,
        })
    }
}
