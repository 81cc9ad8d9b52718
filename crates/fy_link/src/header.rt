//! The headers of sources.

ghost use Rattle.std.specs.Prelude.{◌≡◌, ◌&&◌, IfOk, map, not};
ghost use Rattle.std.specs.List.{list_any, position, slice_split};
ghost use Rattle.std.specs.Option.{option_map};
ghost use Rattle.fy_syntax.specs.Reader.{symbol_number};
ghost use Rattle.fy_expand.specs.Faults.{is_among};
ghost use Rattle.fy_lexer.specs.declared.token.Symbol.TheVariants as symbol;
ghost use Rattle.fy_link.specs.Header.{are_free, ends_type, header_of, is_provided, is_sign, piece_of, pieces_of};
ghost use Rattle.fy_link.specs.Read.{plain_header, plain_piece, plain_pieces};

use fy_base::{OutOfMemory, Place};
use fy_lexer::{Symbol, Token, TokenKind};
use fy_types::Name;
use std::alloc::{AllocError, Global};

/// A piece of a header: a name, a colon and a type.
#[derive(Clone, Copy, Debug)]
pub(crate) struct Piece<'a> {
    pub name: Name,
    pub at: Place,
    pub colon_at: Place,
    pub ty: &'a [Token],
}

/// A header, and the tokens behind its `==`.
#[derive(Debug, Drop)]
pub(crate) struct Header<'a> {
    pub imports: Vec<Piece<'a>>,
    pub own: Piece<'a>,
    /// The place of the `==`.
    pub equals_at: Place,
    pub tail: &'a [Token],
}

fn number_of_symbol(symbol: Symbol) -> u8
    ensures { result ≡ symbol_number symbol }
{
    symbol as u8
}

// Whether the token is this symbol.
fn is_sign(symbol: Symbol, token: &Token) -> bool
    ensures { result ≡ is_sign symbol token.now }
{
    match &token.kind {
        TokenKind::Sym(other) => number_of_symbol(symbol) == number_of_symbol(*other),
        _ => false,
    }
}

// Whether the token would end a type in an abstraction.
fn ends_type(token: &Token) -> bool
    ensures { result ≡ ends_type token.now }
{
    is_sign(Symbol::Dot, token) || is_sign(Symbol::Bar, token)
}

// The piece that the tokens are, if they are one.
fn piece_in<'a>(tokens: &'a [Token]) -> Option<Piece<'a>>
    ensures { option_map plain_piece result ≡ piece_of tokens.now }
{
    let [first, second, ty @ ..] = tokens else {
        return None;
    };
    match &first.kind {
        TokenKind::Ident(name) => {
            if !is_sign(Symbol::Colon, second) {
                return None;
            }
            Some(Piece {
                name: *name,
                at: first.place,
                colon_at: second.place,
                ty,
            })
        }
        _ => None,
    }
}

// Where the first `==` is.
fn equals_in(tokens: &[Token]) -> Option<usize>
    ensures { result ≡ position (is_sign symbol.EqualsEquals) tokens.now }
{
    tokens
        .iter()
        .position(|token| is_sign(Symbol::EqualsEquals, token))
}

// Whether a token would end a type in an abstraction.
fn ends_a_type(tokens: &[Token]) -> bool
    ensures { result ≡ list_any ends_type tokens.now }
{
    tokens.iter().any(|token| ends_type(token))
}

// What stands between commas.
fn parts_between<'a>(alloc: Global, tokens: &'a [Token]) -> Result<Vec<&'a [Token]>, AllocError>
    ensures { IfOk result (λ parts. map (λ part. part.now) parts.items ≡ slice_split (is_sign symbol.Comma) tokens.now) }
{
    tokens
        .split(|token| is_sign(Symbol::Comma, token))
        .collect(alloc)
}

// The pieces that these parts are, if each is one.
fn pieces_in<'a>(
    alloc: Global,
    parts: &[&'a [Token]],
) -> Result<Option<Vec<Piece<'a>>>, OutOfMemory>
    ensures { IfOk result (λ found. option_map plain_pieces found ≡ pieces_of (map (λ part. part.now) parts.now)) }
{
    let mut pieces = Vec::new(alloc);
    for part in parts {
        let Some(piece) = piece_in(part) else {
            return Ok(None);
        };
        pieces.push(piece)?;
    }
    Ok(Some(pieces))
}

// Whether the name is one of the prelude's: `putint`, `putchar`, `putbool`, `read` or `newintseq`.
fn is_provided(name: Name) -> bool
    ensures { result ≡ is_provided name }
{
    name == 11 || name == 4 || name == 3 || name == 2 || name == 1
}

// Whether a piece has the name.
fn has_name(pieces: &[Piece<'_>], name: Name) -> bool
    ensures { result ≡ is_among (map (λ x. x.name) pieces.now) name }
{
    pieces.iter().any(|piece| piece.name == name)
}

// Whether the name is neither the prelude's nor one of these pieces'.
fn is_new(name: Name, pieces: &[Piece<'_>]) -> bool
    ensures { result ≡ (not (is_provided name) && not (is_among (map (λ x. x.name) pieces.now) name)) }
{
    !is_provided(name) && !has_name(pieces, name)
}

// Whether each name is there once, and none is the prelude's.
fn are_free(pieces: &[Piece<'_>]) -> bool
    ensures { result ≡ are_free (map (λ x. x.name) pieces.now) }
{
    for i in 0..pieces.len() {
        if !is_new(pieces[i].name, &pieces[i + 1..]) {
            return false;
        }
    }
    true
}

/// The header of a source with these tokens, if it has one.
pub(crate) fn header_in<'a>(
    alloc: Global,
    tokens: &'a [Token],
) -> Result<Option<Header<'a>>, OutOfMemory>
    ensures { IfOk result (λ found. option_map plain_header found ≡ header_of tokens.now) }
{
    let Some(end) = equals_in(tokens) else {
        return Ok(None);
    };
    let before = &tokens[..end];
    if ends_a_type(before) {
        return Ok(None);
    }
    let parts = parts_between(alloc, before)?;
    let Some(mut imports) = pieces_in(alloc, &parts)? else {
        return Ok(None);
    };
    if !are_free(&imports) {
        return Ok(None);
    }
    let Some(own) = imports.pop() else {
        return Ok(None);
    };
    Ok(Some(Header {
        imports,
        own,
        equals_at: tokens[end].place,
        tail: &tokens[end + 1..],
    }))
}
