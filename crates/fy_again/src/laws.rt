//! Laws of texts that are read again.

ghost use Rattle.fy_again.specs.Again.{ShortDataAreReadAgain, ShortStringsAreReadAgain, ShortTypesAreReadAgain};
ghost use Rattle.fy_again.specs.Phrases.{PhrasesAreReadAgain};
ghost use Rattle.fy_again.specs.Programs.{ProgramsAreReadAgain};

/// The short text of a type with full meets, whose fields are identifiers of the list of names, is the tokens of a written
/// type that means this type.
pub fn short_types_are_read_again()
    ensures { ShortTypesAreReadAgain }
{}

/// The short text of a datum that a literal spells is the token of a literal that means this datum, in any scope.
pub fn short_data_are_read_again()
    ensures { ShortDataAreReadAgain }
{}

/// The text of a string of bytes is the token of a string with these characters.
pub fn short_strings_are_read_again()
    ensures { ShortStringsAreReadAgain }
{}

/// The whole text of a phrase inside the prelude, whose forms the grammar has and whose names are identifiers of the list, is
/// the tokens of a written phrase that has no fault, and means this phrase but for places and for the depths of binders.
pub fn phrases_are_read_again()
    ensures { PhrasesAreReadAgain }
{}

/// The whole text of a judged program's phrase, inside the prelude, is the tokens of a written phrase that has no fault, and
/// means this phrase but for places and for the depths of binders, where the names that its binders are shown with are in the
/// list, and no field of a `letrec` is shown by another name.
pub fn programs_are_read_again()
    ensures { ProgramsAreReadAgain }
{}
