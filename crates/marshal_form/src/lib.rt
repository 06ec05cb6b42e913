//! The marshalled form of a file: what its attributes and contents are as bytes, after the
//! marshaled data of [MS-FRS2].
//!
//! Read [`Meta`] first. [`marshal`] writes the one form of a file, and [`unmarshal`] reads it, or
//! names the first place that is in no form. The fields are listed in `specs/Fields.antt`.
//! [`unmarshal_local`] takes the forms of local files alone.
//!
//! [`head`] and [`sum`] are for what is kept of a form: its first bytes, and the hash of it all.
//! [`local_sum`] is that hash for the contents of a local file, whose form needn't be made.
//! [`Form`] is a form that keeps its hash.
#![tactic(auto)]

mod errors;
mod form;
mod laws;
mod layout;
mod marshalling;
mod meta;
mod summing;
mod unmarshalling;

pub use errors::MarshalBad;
pub use form::Form;
pub use laws::{
    bad_places_are_one, every_other_has_a_bad_place, forms_are_spellings, forms_have_no_bad_place,
    forms_have_one_value, local_bad_places_are_one, local_forms_have_no_bad_place,
    spellings_are_forms,
};
pub use marshalling::{head, marshal};
pub use meta::{LOCAL, Meta};
pub use summing::{local_sum, sum};
pub use unmarshalling::{unmarshal, unmarshal_local};

#[cfg(test)]
mod tests;
