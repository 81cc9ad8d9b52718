//! Types, read.

ghost use Rattle.std.specs.Prelude.{◌≡◌, ◌∷◌, false, length, map};
ghost use Rattle.fy_lexer.specs.declared.token.Symbol.TheVariants as symbol;
ghost use Rattle.fy_syntax.specs.Reading.{decl_tree, type_tree, type_trees};
ghost use Rattle.fy_syntax.specs.Reader.{
  begins_with,
  decl_at,
  decls_at,
  fields_at,
  mapped,
  read_type,
  type_field,
  type_group,
  type_inner,
  type_inter,
  type_primary,
  types_at,
};
ghost use Rattle.fy_syntax.specs.Trees.{TypeTrees};
ghost use Rattle.fy_grammar.specs.Gives.{Gives};

use crate::cursor::{behind, expect, front, is_symbol, kind_at, name};
use crate::form::field_name_at;
use crate::make;
use crate::stop::Stop;
use fy_lexer::{Keyword, Symbol, Token, TokenKind};
use fy_syntax::{Decl, DeclList, NameList, SurfaceTy, SurfaceTyList};
use fy_types::Atom;
use std::alloc::Global;

// A type with at most `left` type nodes on a path below its own.
#[cycle(types)]
#[tactic(auto, using(crate::proofs::Stopping::type_deep, crate::proofs::Stopping::type_within))]
pub(crate) fn ty(
    alloc: Global,
    left: u32,
    tokens: &[Token],
) -> Result<(SurfaceTy, &[Token]), Stop<'_>>
    ensures { Gives (λ x. (type_tree x.0, x.1.now)) result (read_type left tokens.now) }
{
    let (domain, rest) = inter(alloc, left, tokens)?;
    if !is_symbol(Symbol::Arrow, rest) {
        return Ok((domain, rest));
    }
    if left == 0 {
        return Err(Stop::Deep(rest));
    }
    let (codomain, rest) = ty(alloc, left - 1, behind(rest))?;
    let whole = make::arrow(alloc, domain, codomain, front(tokens))?;
    Ok((whole, rest))
}

#[cycle(types)]
#[tactic(auto, using(crate::proofs::Lists::inter_one, crate::proofs::Lists::inter_more, crate::proofs::Stopping::stops_mapped))]
fn inter(alloc: Global, left: u32, tokens: &[Token]) -> Result<(SurfaceTy, &[Token]), Stop<'_>>
    ensures { Gives (λ x. (type_tree x.0, x.1.now)) result (type_inter (type_inner left) tokens.now) }
{
    let (first, rest) = field(alloc, left, tokens)?;
    if !is_symbol(Symbol::Ampersand, rest) {
        return Ok((first, rest));
    }
    let (members, rest) = members(alloc, left, first, rest)?;
    Ok((SurfaceTy::Meet(members, front(tokens)), rest))
}

// The first member and those behind it, each behind `&`.
#[cycle(types)]
fn members(
    alloc: Global,
    left: u32,
    first: SurfaceTy,
    tokens: &[Token],
) -> Result<(SurfaceTyList, &[Token]), Stop<'_>>
    ensures { Gives (λ x. (type_trees x.0, x.1.now)) result (mapped (TypeTrees.and_type (type_tree first))
        (types_at (length tokens.now) symbol.Ampersand (type_field (type_inner left)) tokens.now)) }
{
    let mut members = SurfaceTyList::new(alloc);
    members.push(first)?;
    let mut rest = tokens;
    while is_symbol(Symbol::Ampersand, rest) {
        let (member, next) = field(alloc, left, behind(rest))?;
        members.push(member)?;
        rest = next;
    }
    Ok((members, rest))
}

#[cycle(types)]
fn field(alloc: Global, left: u32, tokens: &[Token]) -> Result<(SurfaceTy, &[Token]), Stop<'_>>
    ensures { Gives (λ x. (type_tree x.0, x.1.now)) result (type_field (type_inner left) tokens.now) }
{
    let (names, rest) = fields(alloc, tokens)?;
    let (part, rest) = primary(alloc, left, rest)?;
    let whole = make::type_field(alloc, names, part, front(tokens))?;
    Ok((whole, rest))
}

#[cycle(types)]
#[tactic(auto, using(crate::proofs::FormSigns::type_leaf, crate::proofs::FormSigns::type_group_begins, crate::proofs::Stopping::type_deep, crate::proofs::Stopping::type_within))]
fn primary(alloc: Global, left: u32, tokens: &[Token]) -> Result<(SurfaceTy, &[Token]), Stop<'_>>
    ensures { Gives (λ x. (type_tree x.0, x.1.now)) result (type_primary (type_inner left) tokens.now) }
{
    if !is_symbol(Symbol::OpenParen, tokens) {
        return leaf(tokens);
    }
    if left == 0 {
        return Err(Stop::Deep(tokens));
    }
    group(alloc, left - 1, tokens)
}

// A type in parentheses, whose first is there.
#[cycle(types)]
fn group(alloc: Global, left: u32, tokens: &[Token]) -> Result<(SurfaceTy, &[Token]), Stop<'_>>
    ensures { Gives (λ x. (type_tree x.0, x.1.now)) result (type_group (read_type left) tokens.now) }
{
    let (inside, rest) = ty(alloc, left, behind(tokens))?;
    let rest = expect(Symbol::CloseParen, rest)?;
    let whole = make::type_group(alloc, inside, front(tokens))?;
    Ok((whole, rest))
}

// A type of one token.
fn leaf(tokens: &[Token]) -> Result<(SurfaceTy, &[Token]), Stop<'_>>
    requires { begins_with symbol.OpenParen tokens.now ≡ false }
    ensures { Gives (λ x. (type_tree x.0, x.1.now)) result (type_primary None tokens.now) }
{
    let at = front(tokens);
    let Some(kind) = kind_at(tokens) else {
        return Err(Stop::Wrong(tokens));
    };
    match kind {
        TokenKind::Ident(name) => Ok((SurfaceTy::Ident(*name, at), behind(tokens))),
        TokenKind::Word(word) => match word {
            Keyword::Ns => Ok((SurfaceTy::Ns(at), behind(tokens))),
            Keyword::Int => Ok((SurfaceTy::Atom(Atom::Int, at), behind(tokens))),
            Keyword::Bool => Ok((SurfaceTy::Atom(Atom::Bool, at), behind(tokens))),
            Keyword::Char => Ok((SurfaceTy::Atom(Atom::Char, at), behind(tokens))),
            Keyword::Comm => Ok((SurfaceTy::Atom(Atom::Comm, at), behind(tokens))),
            Keyword::Compl => Ok((SurfaceTy::Atom(Atom::Compl, at), behind(tokens))),
            Keyword::IntAcc => Ok((SurfaceTy::Atom(Atom::IntAcc, at), behind(tokens))),
            Keyword::BoolAcc => Ok((SurfaceTy::Atom(Atom::BoolAcc, at), behind(tokens))),
            Keyword::CharAcc => Ok((SurfaceTy::Atom(Atom::CharAcc, at), behind(tokens))),
            _ => Err(Stop::Wrong(tokens)),
        },
        _ => Err(Stop::Wrong(tokens)),
    }
}

// Names before colons.
#[tactic(auto, using(crate::proofs::FormSigns::fields_turn, crate::proofs::FormSigns::fields_end, crate::proofs::FormSigns::fields_smaller))]
fn fields(alloc: Global, tokens: &[Token]) -> Result<(NameList, &[Token]), Stop<'_>>
    ensures { Gives (λ x. (x.0, x.1.now)) result (Ok (fields_at tokens.now)) }
{
    let mut names = NameList::new(alloc);
    let mut rest = tokens;
    while let Some(name) = field_name_at(rest) {
        names.push(name)?;
        rest = behind(behind(rest));
    }
    Ok((names, rest))
}

// The first alternative and those behind it, each behind `|`.
pub(crate) fn alternatives(
    alloc: Global,
    left: u32,
    first: SurfaceTy,
    tokens: &[Token],
) -> Result<(SurfaceTyList, &[Token]), Stop<'_>>
    ensures { Gives (λ x. (type_trees x.0, x.1.now)) result (mapped (TypeTrees.and_type (type_tree first))
        (types_at (length tokens.now) symbol.Bar (read_type left) tokens.now)) }
{
    let mut alternatives = SurfaceTyList::new(alloc);
    alternatives.push(first)?;
    let mut rest = tokens;
    while is_symbol(Symbol::Bar, rest) {
        let (alternative, next) = ty(alloc, left, behind(rest))?;
        alternatives.push(alternative)?;
        rest = next;
    }
    Ok((alternatives, rest))
}

// A declaration.
pub(crate) fn decl(alloc: Global, left: u32, tokens: &[Token]) -> Result<(Decl, &[Token]), Stop<'_>>
    ensures { Gives (λ x. (decl_tree x.0, x.1.now)) result (decl_at (read_type left) tokens.now) }
{
    let (found, rest) = name(tokens)?;
    let rest = expect(Symbol::Colon, rest)?;
    let (ty, rest) = ty(alloc, left, rest)?;
    Ok((
        Decl {
            name: found,
            at: front(tokens),
            ty,
        },
        rest,
    ))
}

// The first declaration and those behind it, each behind a comma.
pub(crate) fn decls(
    alloc: Global,
    left: u32,
    first: Decl,
    tokens: &[Token],
) -> Result<(DeclList, &[Token]), Stop<'_>>
    ensures { Gives (λ x. (map decl_tree x.0, x.1.now)) result (mapped (λ more. decl_tree first ∷ more)
        (decls_at (length tokens.now) (read_type left) tokens.now)) }
{
    let mut decls = DeclList::new(alloc);
    decls.push(first)?;
    let mut rest = tokens;
    while is_symbol(Symbol::Comma, rest) {
        let (next_decl, next) = decl(alloc, left, behind(rest))?;
        decls.push(next_decl)?;
        rest = next;
    }
    Ok((decls, rest))
}
