// What holds of the items, each law the contract of a function that does nothing.
ghost use Rattle.std.specs.Prelude.{◌≡◌, ◌≤◌, ◌<◌, ◌^◌, IfSome, ℕ, length};
ghost use Rattle.std.specs.Int.{Width, w8, w16, w32, w64};
ghost use Rattle.std.specs.List.{AllByRecursion};
ghost use Rattle.ndr_core.specs.Items.{Item, number};
ghost use Rattle.ndr_core.specs.Arrays.{conformant, many, varying};
ghost use Rattle.ndr_core.specs.Identifiers.{IsHandle, guid_item, handle_item};
ghost use Rattle.ndr_core.specs.Laws.{HasOneSpelling, IsLawful};
ghost use Rattle.ndr_core.specs.Pointers.{optional, unique};
ghost use Rattle.ndr_core.specs.Strings.{IsText, string};

/// A number is read as it is spelled, and written so.
pub fn numbers_are_lawful()
    ensures of_1 { IsLawful (number w8) (λ n. n < 2 ^ 8) }
    ensures of_2 { IsLawful (number w16) (λ n. n < 2 ^ 16) }
    ensures of_4 { IsLawful (number w32) (λ n. n < 2 ^ 32) }
    ensures of_8 { IsLawful (number w64) (λ n. n < 2 ^ 64) }
{}

/// So are UUIDs and context handles.
pub fn identifiers_are_lawful()
    ensures guids { IsLawful guid_item (λ id. id < 2 ^ 128) }
    ensures handles { IsLawful handle_item IsHandle }
{}

/// So are the counts of arrays, and pointers.
pub fn headers_are_lawful()
    ensures conformant { (limit : ℕ)
        → IsLawful (conformant limit) (λ n. (n ≤ limit) × (n < 2 ^ 32)) }
    ensures varying { (limit : ℕ)
        → IsLawful (varying limit) (λ n. (n ≤ limit) × (n < 2 ^ 32)) }
    ensures unique { IsLawful unique (λ present. Unit {0}) }
{}

/// So are strings.
pub fn strings_are_lawful()
    ensures { (limit : ℕ) → IsLawful (string limit) (IsText limit) }
{}

/// The spellings of one value at one place have one length, and differ only in bytes that may be
/// any others: padding, reserved bytes, and the number that a pointer is written as.
pub fn values_have_one_spelling()
    ensures numbers { (w : Width) → HasOneSpelling (number w) }
    ensures guids { HasOneSpelling guid_item }
    ensures handles { HasOneSpelling handle_item }
    ensures conformant { (limit : ℕ) → HasOneSpelling (conformant limit) }
    ensures varying { (limit : ℕ) → HasOneSpelling (varying limit) }
    ensures unique { HasOneSpelling unique }
    ensures strings { (limit : ℕ) → HasOneSpelling (string limit) }
{}
