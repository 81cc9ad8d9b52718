//! Laws of the texts.

ghost use Rattle.fy_show.specs.Laws.{FreshIsFree, NoUseIsCaptured, ShortIsShort, UsesAreNames};

/// A name that is made fresh isn't used, if one of x, x_1, x_2, .. isn't.
pub fn fresh_names_are_free()
    ensures { FreshIsFree }
{}

/// A text uses just the names that are in it.
pub fn uses_are_names()
    ensures { UsesAreNames }
{}

/// Nothing outside that is used under a binder has a name that the binder is shown with, where fewer than 2^32 names are
/// used and declared there.
pub fn no_use_is_captured()
    ensures { NoUseIsCaptured }
{}

/// A short text has at most so many bytes, or is `..`.
pub fn short_texts_are_short()
    ensures { ShortIsShort }
{}
