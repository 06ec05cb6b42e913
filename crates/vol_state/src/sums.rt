// Sums of contents.
ghost use Rattle.std.specs.Prelude.{◌≡◌};
ghost use Rattle.vol_state.specs.Sums.{IsKnownOf, content_sum, file_sum};

use frs_base::{Bytes, Kind, Sum};
use marshal_form::local_sum;

/// The sum of a file with these contents.
fn file_sum(bytes: &Bytes) -> Sum
    ensures { result ≡ file_sum bytes.now }
{
    Sum(local_sum(bytes.as_slice()))
}

/// The sum that contents give an object of this kind: the SHA-1 of a file's form, and zeros for a
/// directory. It takes no memory.
pub fn content_sum(kind: Kind, bytes: &Bytes) -> Sum
    ensures { result ≡ content_sum kind bytes.now }
{
    match kind {
        Kind::File => file_sum(bytes),
        Kind::Directory => Sum([0; 20]),
    }
}

/// The sum that contents give an object of this kind, taken of them only where a file's isn't known.
pub(crate) fn sum_with(kind: Kind, bytes: &Bytes, known: Option<Sum>) -> Sum
    requires { IsKnownOf bytes.now known }
    ensures { result ≡ content_sum kind bytes.now }
{
    match (kind, known) {
        (Kind::File, Some(sum)) => sum,
        (Kind::File, None) | (Kind::Directory, _) => content_sum(kind, bytes),
    }
}
