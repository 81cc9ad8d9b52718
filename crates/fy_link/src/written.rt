//! Programs made of the tokens of a source, by which its types and its phrase are judged.

ghost use Rattle.std.specs.Prelude.{◌≡◌, ◌-◌, ◌∷◌, ◌++◌, [], IfOk, OnOk, length, map, take};
ghost use Rattle.std.specs.List.{flat_map};
ghost use Rattle.fy_link.specs.Header.{abstraction_over, type_program, unit_program};
ghost use Rattle.fy_link.specs.Read.{plain_header, plain_piece};

use crate::header::{Header, Piece};
use crate::unit::copied;
use fy_base::{OutOfMemory, Place};
use fy_lexer::{Keyword, Symbol, Token, TokenKind};
use std::alloc::Global;

fn copied_kind(alloc: Global, kind: &TokenKind) -> Result<TokenKind, OutOfMemory>
    ensures { IfOk result (λ made. made ≡ kind.now) }
{
    match kind {
        TokenKind::Ident(name) => Ok(TokenKind::Ident(*name)),
        TokenKind::Number(number) => Ok(TokenKind::Number(*number)),
        TokenKind::Letter(byte) => Ok(TokenKind::Letter(*byte)),
        TokenKind::Str(text) => {
            let text = copied(alloc, text.as_slice())?;
            Ok(TokenKind::Str(text))
        }
        TokenKind::Word(word) => Ok(TokenKind::Word(*word)),
        TokenKind::Sym(symbol) => Ok(TokenKind::Sym(*symbol)),
        TokenKind::End => Ok(TokenKind::End),
    }
}

fn put(made: &mut Vec<Token>, kind: TokenKind, place: Place) -> Result<(), OutOfMemory>
    ensures { OnOk result (made.new.items ≡ made.old.items ++ record { kind = kind; place = place } ∷ []) }
{
    made.push(Token { kind, place })?;
    Ok(())
}

fn put_all(alloc: Global, made: &mut Vec<Token>, tokens: &[Token]) -> Result<(), OutOfMemory>
    ensures { OnOk result (made.new.items ≡ made.old.items ++ tokens.now) }
{
    for token in tokens {
        let kind = copied_kind(alloc, &token.kind)?;
        put(made, kind, token.place)?;
    }
    Ok(())
}

// `\ name : type .`
fn put_abstraction(
    alloc: Global,
    made: &mut Vec<Token>,
    at: Place,
    piece: &Piece<'_>,
) -> Result<(), OutOfMemory>
    ensures { OnOk result (made.new.items ≡ made.old.items ++ abstraction_over at (plain_piece piece.now)) }
{
    put(made, TokenKind::Sym(Symbol::Backslash), at)?;
    put(made, TokenKind::Ident(piece.name), piece.at)?;
    put(made, TokenKind::Sym(Symbol::Colon), piece.colon_at)?;
    put_all(alloc, made, piece.ty)?;
    put(made, TokenKind::Sym(Symbol::Dot), at)
}

fn put_abstractions(
    alloc: Global,
    made: &mut Vec<Token>,
    at: Place,
    pieces: &[Piece<'_>],
) -> Result<(), OutOfMemory>
    ensures { OnOk result (made.new.items ≡ made.old.items ++ flat_map (abstraction_over at) (map plain_piece pieces.now)) }
{
    for piece in pieces {
        put_abstraction(alloc, made, at, piece)?;
    }
    Ok(())
}

/// The program `\ name : type . skip` for a piece, where an added token has that place.
pub(crate) fn type_program(
    alloc: Global,
    at: Place,
    piece: &Piece<'_>,
) -> Result<Vec<Token>, OutOfMemory>
    ensures { IfOk result (λ made. made.items ≡ type_program at (plain_piece piece.now)) }
{
    let mut made = Vec::new(alloc);
    put_abstraction(alloc, &mut made, at, piece)?;
    put(&mut made, TokenKind::Word(Keyword::Skip), at)?;
    put(&mut made, TokenKind::End, at)?;
    Ok(made)
}

/// The program of a unit: what stands behind the `==`, in parentheses inside an abstraction for each import, where an added token
/// has that place.
pub(crate) fn unit_program(
    alloc: Global,
    at: Place,
    header: &Header<'_>,
) -> Result<Vec<Token>, OutOfMemory>
    ensures { IfOk result (λ made. made.items ≡ unit_program at (plain_header header.now)) }
{
    let mut made = Vec::new(alloc);
    put_abstractions(alloc, &mut made, at, &header.imports)?;
    put(&mut made, TokenKind::Sym(Symbol::OpenParen), at)?;
    put_all(alloc, &mut made, inside(header.tail))?;
    put(&mut made, TokenKind::Sym(Symbol::CloseParen), at)?;
    put(&mut made, TokenKind::End, at)?;
    Ok(made)
}

// The tokens but the last.
fn inside(tokens: &[Token]) -> &[Token]
    ensures { result.now ≡ take (length tokens.now - 1) tokens.now }
{
    match tokens {
        [] => tokens,
        [first @ .., _] => first,
    }
}
