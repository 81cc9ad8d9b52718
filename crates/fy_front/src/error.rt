//! Why no program is made of a text.

ghost use Rattle.std.specs.Prelude.{◌≡◌};
ghost use Rattle.fy_front.specs.Checked.{lex_refusal, parse_refusal, expand_refusal, find_refusal, shapes_refusal, failure_of};
ghost use Rattle.fy_front.specs.declared.error.FrontError.TheVariants.{OutOfMemory as NoMemory};

use crate::refusal::Refusal;
use fy_base::OutOfMemory;
use fy_expand::ExpandError;
use fy_grammar::ParseError;
use fy_least::FindError;
use fy_lexer::LexError;
use pe_shapes::ShapeError;
use std::alloc::AllocFailed;
use thiserror::Error;

/// Why no program is made of a text.
#[derive(Clone, Copy, PartialEq, Eq, Debug, Error)]
pub enum FrontError {
    /// The first stage that refuses the text refuses it so.
    #[error("refused")]
    Refused(Refusal),
    /// Memory was wanting.
    #[error("out of memory")]
    OutOfMemory,
}

// The refusal of a text without tokens, or `None` where memory was wanting.
fn lex_refusal(error: LexError) -> Option<Refusal>
    ensures { result ≡ lex_refusal error }
{
    match error {
        LexError::BadByte(place) => Some(Refusal::Byte(place)),
        LexError::Unclosed(place) => Some(Refusal::Unclosed(place)),
        LexError::NumberTooLarge(place) => Some(Refusal::Number(place)),
        LexError::TooManyTokens => Some(Refusal::Tokens),
        LexError::OutOfMemory => None,
    }
}

// The refusal of tokens that are no program, or `None` where memory was wanting.
fn parse_refusal(error: ParseError) -> Option<Refusal>
    ensures { result ≡ parse_refusal error }
{
    match error {
        ParseError::Syntax(place) => Some(Refusal::Syntax(place)),
        ParseError::TooDeep(place) => Some(Refusal::Deep(place)),
        ParseError::OutOfMemory => None,
    }
}

// The refusal of a program without a core phrase, or `None` where memory was wanting.
fn expand_refusal(error: ExpandError) -> Option<Refusal>
    ensures { result ≡ expand_refusal error }
{
    match error {
        ExpandError::UnknownName(place) => Some(Refusal::Name(place)),
        ExpandError::UnknownType(place) => Some(Refusal::TypeName(place)),
        ExpandError::DoubleName(place) => Some(Refusal::Double(place)),
        ExpandError::LetrecName(place) => Some(Refusal::Letrec(place)),
        ExpandError::MergeRight(place) => Some(Refusal::Merge(place)),
        ExpandError::TooManyAlternatives(place) => Some(Refusal::Alternatives(place)),
        ExpandError::TypeTooLarge(place) => Some(Refusal::TypeSize(place)),
        ExpandError::TooDeep => Some(Refusal::CoreDepth),
        ExpandError::TooLarge => Some(Refusal::CoreSize),
        ExpandError::TooManyVisits => Some(Refusal::Visits),
        ExpandError::OutOfMemory => None,
    }
}

// The refusal of a core phrase without a derivation, or `None` where memory was wanting.
fn find_refusal(error: FindError) -> Option<Refusal>
    ensures { result ≡ find_refusal error }
{
    match error {
        FindError::NoType(place) => Some(Refusal::NoType(place)),
        FindError::TypeTooLarge => Some(Refusal::LeastSize),
        FindError::OutOfMemory => None,
    }
}

/// The refusal of a derivation whose table of demand shapes passes a limit, or `None` where memory
/// was wanting.
pub fn shapes_refusal(error: ShapeError) -> Option<Refusal>
    ensures { result ≡ shapes_refusal error }
{
    match error {
        ShapeError::TooManyShapes => Some(Refusal::Shapes),
        ShapeError::TooManyEntries => Some(Refusal::Entries),
        ShapeError::TablesTooLarge => Some(Refusal::Tables),
        ShapeError::OutOfMemory => None,
    }
}

// The failure that a refusal is, or else want of memory.
fn failure_of(why: Option<Refusal>) -> FrontError
    ensures { result ≡ failure_of why }
{
    match why {
        Some(why) => FrontError::Refused(why),
        None => FrontError::OutOfMemory,
    }
}

impl From<OutOfMemory> for FrontError {
    ghost from_gives = { λ _ e. e ≡ NoMemory };

    fn from(_error: OutOfMemory) -> FrontError {
        FrontError::OutOfMemory
    }
}

impl<T: Drop> From<AllocFailed<T>> for FrontError {
    ghost from_gives = { λ _ e. e ≡ NoMemory };

    fn from(_error: AllocFailed<T>) -> FrontError {
        FrontError::OutOfMemory
    }
}

impl From<LexError> for FrontError {
    ghost from_gives = { λ error e. e ≡ failure_of (lex_refusal error) };

    fn from(error: LexError) -> FrontError {
        failure_of(lex_refusal(error))
    }
}

impl From<ParseError> for FrontError {
    ghost from_gives = { λ error e. e ≡ failure_of (parse_refusal error) };

    fn from(error: ParseError) -> FrontError {
        failure_of(parse_refusal(error))
    }
}

impl From<ExpandError> for FrontError {
    ghost from_gives = { λ error e. e ≡ failure_of (expand_refusal error) };

    fn from(error: ExpandError) -> FrontError {
        failure_of(expand_refusal(error))
    }
}

impl From<FindError> for FrontError {
    ghost from_gives = { λ error e. e ≡ failure_of (find_refusal error) };

    fn from(error: FindError) -> FrontError {
        failure_of(find_refusal(error))
    }
}

impl From<ShapeError> for FrontError {
    ghost from_gives = { λ error e. e ≡ failure_of (shapes_refusal error) };

    fn from(error: ShapeError) -> FrontError {
        failure_of(shapes_refusal(error))
    }
}
