//! Laws of the grammar.

ghost use Rattle.fy_syntax.specs.Again.{PhrasesAreSpelledAgain};
ghost use Rattle.fy_syntax.specs.NameLaws.{NamesAreOfTokens};
ghost use Rattle.fy_syntax.specs.Spells.{IsUnambiguous};

/// The grammar is unambiguous: at most one tree spells a list of tokens as a phrase, and at most one is that of a program.
pub fn grammar_is_unambiguous()
    ensures { IsUnambiguous }
{}

/// The names in the tree of a program are those of identifiers among its tokens: what holds of these
/// holds of each name in the tree. It does nothing: its contract is the law.
pub fn names_are_of_tokens()
    ensures { NamesAreOfTokens }
{}

/// The phrase of a program is spelled, but for places, by tokens of the same kinds, whatever stands behind
/// them in place of the end. It does nothing: its contract is the law.
pub fn phrases_are_spelled_again()
    ensures { PhrasesAreSpelledAgain }
{}
