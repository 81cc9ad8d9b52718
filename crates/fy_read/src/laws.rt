//! Laws of the texts of derivations.

ghost use Rattle.fy_read.specs.Printable.{PrintedIsText};
ghost use Rattle.fy_read.specs.TextLaws.{StepsAreTexts, TextsAreUnique, PrintedIsUnique, PrintedIsRead};

/// What is printed of a derivation is a text of it, where its names are those of identifiers, its
/// lists have the lengths that texts have, and its meets have two or more members. It does nothing:
/// its contract is the law.
pub fn printed_is_text()
    ensures { PrintedIsText }
{}

/// Stepping through bytes finds out texts: bytes begin a derivation's text exactly where each of
/// them has a step, and are one exactly where the steps lead to the end. It does nothing: its
/// contract is the law.
pub fn steps_are_texts()
    ensures { StepsAreTexts }
{}

/// Under distinct names a text is that of one derivation, and so what is printed of a derivation is
/// read as no other. It does nothing: its contract is the law.
pub fn texts_are_unique()
    ensures texts { TextsAreUnique }
    ensures printed { PrintedIsUnique }
{}

/// What is printed of a derivation is read as that derivation, where it is within the limits, its
/// names are those of identifiers, its lists have the lengths that texts have, and its meets have two
/// or more members. It does nothing: its contract is the law.
pub fn printed_is_read()
    ensures { PrintedIsRead }
{}
