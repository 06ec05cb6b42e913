// The hash of a form.
ghost use Rattle.std.specs.Prelude.{◌≡◌};
ghost use Rattle.sha1.specs.Sha1.{sha1};
ghost use Rattle.marshal_form.specs.Spelling.{spelling};

use crate::head;
use sha1::{DIGEST_LEN, Sha1};

/// The SHA-1 hash of a whole form, by which two files are told apart.
pub fn sum(form: &[u8]) -> [u8; DIGEST_LEN]
    ensures { result ≡ sha1 form.now }
{
    Sha1::digest(form)
}

/// The hash of the form of a local file with these contents. It takes no memory and copies no
/// contents.
pub fn local_sum(contents: &[u8]) -> [u8; DIGEST_LEN]
    ensures { result ≡ sha1 (spelling (record { attributes = 0x20 }) contents.now) }
{
    let mut hasher = Sha1::new();
    hasher.update(&head(contents.len() as u64));
    hasher.update(contents);
    hasher.finalize()
}
