// What holds of every form, each law the contract of a function that does nothing.
ghost use Rattle.marshal_form.specs.Laws.{BadPlacesAreOne, EveryOtherHasABadPlace, FormsAreSpellings, FormsHaveNoBadPlace, FormsHaveOneValue, LocalBadPlacesAreOne, LocalFormsHaveNoBadPlace, SpellingsAreForms};

/// What [`marshal`] gives is a form of that file.
///
/// [`marshal`]: crate::marshal
pub fn spellings_are_forms()
    ensures { SpellingsAreForms }
{}

/// A file has one form, its spelling.
pub fn forms_are_spellings()
    ensures { FormsAreSpellings }
{}

/// Bytes are the form of one file at most.
pub fn forms_have_one_value()
    ensures { FormsHaveOneValue }
{}

/// A form has no bad place, so that bytes are taken or refused, and never either.
pub fn forms_have_no_bad_place()
    ensures { FormsHaveNoBadPlace }
{}

/// Two first bad places of the same bytes are one.
pub fn bad_places_are_one()
    ensures { BadPlacesAreOne }
{}

/// Bytes that are no form have a first bad place.
pub fn every_other_has_a_bad_place()
    ensures { EveryOtherHasABadPlace }
{}

/// The form of a local file has no place at which it isn't one.
pub fn local_forms_have_no_bad_place()
    ensures { LocalFormsHaveNoBadPlace }
{}

/// Two first places at which bytes are no form of a local file are one.
pub fn local_bad_places_are_one()
    ensures { LocalBadPlacesAreOne }
{}
