//! The next token, and the tokens behind it.

ghost use Rattle.std.specs.Prelude.{◌≡◌, IfNone, IfSome};
ghost use Rattle.fy_syntax.specs.Signs.{front as front_of};
ghost use Rattle.fy_syntax.specs.Reader.{
  begins_with,
  begins_with_word,
  behind as behind_of,
  data_at,
  expect as expected,
  expect_word as expected_word,
  kind_at as kind_of,
  name_at,
  symbol_number,
  word_number,
};
ghost use Rattle.fy_grammar.specs.Gives.{Gives};

use crate::stop::Stop;
use fy_base::Place;
use fy_lexer::{Keyword, Symbol, Token, TokenKind};
use fy_types::{Atom, Name};

// What the next token is, if one is left.
pub(crate) fn kind_at(tokens: &[Token]) -> Option<&TokenKind>
    ensures some { IfSome result (λ kind. kind_of tokens.now ≡ kind.now) }
    ensures none { IfNone result (kind_of tokens.now ≡ TokenKind.End) }
{
    match tokens {
        [] => None,
        [first, ..] => Some(&first.kind),
    }
}

// The tokens behind the next one.
pub(crate) fn behind(tokens: &[Token]) -> &[Token]
    ensures { result.now ≡ behind_of tokens.now }
{
    match tokens {
        [] => tokens,
        [_, rest @ ..] => rest,
    }
}

// The place of the next token.
pub(crate) fn front(tokens: &[Token]) -> Place
    ensures { result ≡ front_of tokens.now }
{
    match tokens {
        [] => Place::first(),
        [first, ..] => first.place,
    }
}

fn number_of_word(word: Keyword) -> u8
    ensures { result ≡ word_number word }
{
    word as u8
}

fn number_of_symbol(symbol: Symbol) -> u8
    ensures { result ≡ symbol_number symbol }
{
    symbol as u8
}

// Whether the next token is this word.
pub(crate) fn is_word(word: Keyword, tokens: &[Token]) -> bool
    ensures { result ≡ begins_with_word word tokens.now }
{
    let Some(kind) = kind_at(tokens) else {
        return false;
    };
    match kind {
        TokenKind::Word(other) => number_of_word(word) == number_of_word(*other),
        _ => false,
    }
}

// Whether the next token is this symbol.
pub(crate) fn is_symbol(symbol: Symbol, tokens: &[Token]) -> bool
    ensures { result ≡ begins_with symbol tokens.now }
{
    let Some(kind) = kind_at(tokens) else {
        return false;
    };
    match kind {
        TokenKind::Sym(other) => number_of_symbol(symbol) == number_of_symbol(*other),
        _ => false,
    }
}

// The tokens behind this word.
pub(crate) fn expect_word(word: Keyword, tokens: &[Token]) -> Result<&[Token], Stop<'_>>
    ensures { Gives (λ rest. rest.now) result (expected_word word tokens.now) }
{
    if is_word(word, tokens) {
        Ok(behind(tokens))
    } else {
        Err(Stop::Wrong(tokens))
    }
}

// The tokens behind this symbol.
pub(crate) fn expect(symbol: Symbol, tokens: &[Token]) -> Result<&[Token], Stop<'_>>
    ensures { Gives (λ rest. rest.now) result (expected symbol tokens.now) }
{
    if is_symbol(symbol, tokens) {
        Ok(behind(tokens))
    } else {
        Err(Stop::Wrong(tokens))
    }
}

// A name.
pub(crate) fn name(tokens: &[Token]) -> Result<(Name, &[Token]), Stop<'_>>
    ensures { Gives (λ x. (x.0, x.1.now)) result (name_at tokens.now) }
{
    let Some(kind) = kind_at(tokens) else {
        return Err(Stop::Wrong(tokens));
    };
    match kind {
        TokenKind::Ident(name) => Ok((*name, behind(tokens))),
        _ => Err(Stop::Wrong(tokens)),
    }
}

// A type of data.
pub(crate) fn data(tokens: &[Token]) -> Result<(Atom, &[Token]), Stop<'_>>
    ensures { Gives (λ x. (x.0, x.1.now)) result (data_at tokens.now) }
{
    let Some(kind) = kind_at(tokens) else {
        return Err(Stop::Wrong(tokens));
    };
    match kind {
        TokenKind::Word(word) => match word {
            Keyword::Int => Ok((Atom::Int, behind(tokens))),
            Keyword::Bool => Ok((Atom::Bool, behind(tokens))),
            Keyword::Char => Ok((Atom::Char, behind(tokens))),
            _ => Err(Stop::Wrong(tokens)),
        },
        _ => Err(Stop::Wrong(tokens)),
    }
}
