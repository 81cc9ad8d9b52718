//! Laws of the judged text.

ghost use Rattle.std.specs.Prelude.{◌≡◌, Err, List, Ok};
ghost use Rattle.fy_base.specs.Outside.{Bytes};
ghost use Rattle.fy_lexer.specs.Identifiers.{AreIdentifiers};
ghost use Rattle.fy_lexer.specs.Tokens.{IsTokensOf};
ghost use Rattle.fy_lexer.specs.declared.token.Token.{Token};
ghost use Rattle.fy_phrase.specs.CoreLimits.{KeepsCoreLimits};
ghost use Rattle.fy_phrase.specs.PhraseNames.{AllNames, HasFullTypes};
ghost use Rattle.fy_phrase.specs.Tree.{Tree};
ghost use Rattle.fy_types.specs.Fields.{IsNamed};
ghost use Rattle.fy_types.specs.Names.{first_names};
ghost use Rattle.fy_expand.specs.Imports.{PhrasesMeanTheSame};
ghost use Rattle.fy_expand.specs.Judged.{AreJudgedOneWay, IsJudged, IsJudgedFrom, Refusal};

/// A text is judged one way: it has at most one core phrase, and then no refusal, and at most one refusal. So it is
/// with any list by which its names are numbered.
pub fn texts_are_judged_one_way()
    ensures phrase { (text : Bytes) (phrase other : Tree)
        → IsJudged text (Ok phrase) → IsJudged text (Ok other) → phrase ≡ other }
    ensures apart { (text : Bytes) (phrase : Tree) (why : Refusal)
        → IsJudged text (Ok phrase) → ¬ IsJudged text (Err why) }
    ensures refusal { (text : Bytes) (why other : Refusal)
        → IsJudged text (Err why) → IsJudged text (Err other) → why ≡ other }
    ensures from { (names : List Bytes) → AreJudgedOneWay names }
{}

/// The core phrase of a judged text keeps the core limits, each meet in the types that it is written with has two members or
/// more, and each name in it has the number of an identifier among the names that the text leaves, also where names are numbered by
/// another list, of one identifier or more.
pub fn judged_phrases_are_named()
    ensures limits { (text : Bytes) (phrase : Tree) → IsJudged text (Ok phrase) → KeepsCoreLimits phrase }
    ensures full_types { (text : Bytes) (phrase : Tree) → IsJudged text (Ok phrase) → HasFullTypes phrase }
    ensures names { (text : Bytes) (phrase : Tree) (tokens : List Token) (names : List Bytes)
        → IsJudged text (Ok phrase) → IsTokensOf first_names text tokens names
        → AllNames (IsNamed names) phrase }
    ensures names_from { (names after : List Bytes) (text : Bytes) (phrase : Tree) (tokens : List Token)
        → AreIdentifiers names → IsNamed names 0
        → IsJudgedFrom names text (Ok phrase) → IsTokensOf names text tokens after
        → AllNames (IsNamed after) phrase }
{}

/// A phrase without a fault under names that are given from outside means the same, and has no fault, where these stand among
/// more names, none of them the prelude's, and at other places. It does nothing: its contract is the law.
pub fn phrases_mean_the_same()
    ensures { PhrasesMeanTheSame }
{}
