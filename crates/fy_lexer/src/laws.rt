//! Laws of the tokens of texts.

ghost use Rattle.std.specs.Prelude.{◌≡◌, ◌≢◌, List};
ghost use Rattle.fy_base.specs.Outside.{Bytes};
ghost use Rattle.fy_lexer.specs.declared.error.LexError.{LexError};
ghost use Rattle.fy_lexer.specs.declared.token.Token.{Token};
ghost use Rattle.fy_lexer.specs.Again.{LaterNamesChangeNothing, RestsAreReadAgain};
ghost use Rattle.fy_lexer.specs.Identifiers.{IdentifiersAreNamed};
ghost use Rattle.fy_lexer.specs.Tokens.{AreWithin, IsFaultOf, IsTokensOf};

/// A text has at most one list of tokens, at most one first fault, and within the limits not both.
pub fn tokens_are_unique()
    ensures tokens { (names : List Bytes) (text : Bytes) (tokens others : List Token) (after last : List Bytes)
        → IsTokensOf names text tokens after → IsTokensOf names text others last
        → (tokens ≡ others) × (after ≡ last) }
    ensures fault { (names : List Bytes) (text : Bytes) (error other : LexError)
        → error ≢ LexError.OutOfMemory → other ≢ LexError.OutOfMemory
        → IsFaultOf names text error → IsFaultOf names text other → error ≡ other }
    ensures apart { (names : List Bytes) (text : Bytes) (tokens : List Token) (after : List Bytes) (error : LexError)
        → error ≢ LexError.OutOfMemory → IsTokensOf names text tokens after → AreWithin tokens
        → ¬ IsFaultOf names text error }
{}

/// The predefined names are identifiers. Where the names before a text are, so are those behind it, and
/// each identifier among its tokens has its number among these. It does nothing: its contract is the law.
pub fn identifiers_are_named()
    ensures { IdentifiersAreNamed }
{}

/// What the rest of a text is read as doesn't change where a closing parenthesis stands behind it: from any place, behind any
/// tokens and with any list that has all its names come tokens of the same kinds. It does nothing: its contract is the law.
pub fn rests_are_read_again()
    ensures { RestsAreReadAgain }
{}

/// With a list that has all the names that a text leaves, the text has the same tokens, and leaves that list as it is.
/// It does nothing: its contract is the law.
pub fn later_names_change_nothing()
    ensures { LaterNamesChangeNothing }
{}
