//! Phrases, read. A function reads a phrase with at most `left` term and type nodes on a path below its own.

ghost use Rattle.std.specs.Prelude.{◌≡◌, IfOk, false, length};
ghost use Rattle.fy_lexer.specs.declared.token.Symbol.TheVariants as symbol;
ghost use Rattle.fy_lexer.specs.declared.token.Keyword.TheVariants as word;
ghost use Rattle.fy_syntax.specs.Reading.{def_of, defs_of, links_of, tree_of, trees_of};
ghost use Rattle.fy_syntax.specs.Reader.{
  accept_at,
  apply_at,
  arguments_at,
  assign_at,
  begins_with,
  begins_with_word,
  behind as behind_of,
  chain_at,
  cond_at,
  def_at,
  defs_at,
  dots_at,
  escape_at,
  group_at,
  inner,
  lam_at,
  let_at,
  let_type_at,
  letrec_at,
  links_at,
  loop_at,
  mapped,
  new_at,
  prefixed_at,
  prefixes_at,
  primary_at,
  read_at,
  read_phrase,
  read_term,
  relation_at,
  select_at,
  seq_at,
  sequence_at,
  trees_at,
  while_at,
};
ghost use Rattle.fy_syntax.specs.Signs.{front as front_of};
ghost use Rattle.fy_syntax.specs.Trees.{Defs, Tree, Trees};
ghost use Rattle.fy_grammar.specs.Forms.{def_tree, read_form, within};
ghost use Rattle.fy_grammar.specs.Gives.{Gives};
ghost use Rattle.fy_grammar.specs.Levels.{level_of};

use crate::cursor::{behind, data, expect, expect_word, front, is_symbol, is_word, kind_at, name};
use crate::form::{Form, forcing, form_at};
use crate::level::Level;
use crate::make;
use crate::signs::{operator_at, prefix_at, starts};
use crate::stop::Stop;
use crate::types::{alternatives, decl, decls, ty};
use fy_base::{OutOfMemory, Text};
use fy_lexer::{Keyword, Symbol, Token, TokenKind};
use fy_syntax::{
    Def, DefList, Link, LinkList, NameList, PrefixList, Prefixed, Surface, SurfaceList,
};
use fy_types::Name;
use std::alloc::Global;

#[cycle(terms)]
#[tactic(auto, using(crate::proofs::Lists::phrase_one, crate::proofs::Lists::phrase_more, crate::proofs::Stopping::stops_mapped))]
pub(crate) fn phrase(
    alloc: Global,
    left: u32,
    tokens: &[Token],
) -> Result<(Surface, &[Token]), Stop<'_>>
    ensures { Gives (λ x. (tree_of x.0, x.1.now)) result (read_phrase left tokens.now) }
{
    let (first, rest) = sequence(alloc, left, tokens)?;
    if !is_symbol(Symbol::Comma, rest) {
        return Ok((first, rest));
    }
    let (members, rest) = members(alloc, left, Level::Sequence, Symbol::Comma, first, rest)?;
    Ok((Surface::Merge(members, front(tokens)), rest))
}

#[cycle(terms)]
#[tactic(auto, using(crate::proofs::Lists::sequence_one, crate::proofs::Lists::sequence_more, crate::proofs::Stopping::stops_mapped))]
fn sequence(alloc: Global, left: u32, tokens: &[Token]) -> Result<(Surface, &[Token]), Stop<'_>>
    ensures { Gives (λ x. (tree_of x.0, x.1.now)) result (sequence_at (read_term left) tokens.now) }
{
    let (first, rest) = term(alloc, left, tokens)?;
    if !is_symbol(Symbol::Semicolon, rest) {
        return Ok((first, rest));
    }
    let (members, rest) = members(alloc, left, Level::Term, Symbol::Semicolon, first, rest)?;
    Ok((Surface::Sequence(members, front(tokens)), rest))
}

// The first member and those of the level behind it, each behind the separator.
#[cycle(terms)]
fn members(
    alloc: Global,
    left: u32,
    level: Level,
    separator: Symbol,
    first: Surface,
    tokens: &[Token],
) -> Result<(SurfaceList, &[Token]), Stop<'_>>
    ensures { Gives (λ x. (trees_of x.0, x.1.now)) result (mapped (Trees.and_tree (tree_of first))
        (trees_at (length tokens.now) separator (read_at left (level_of level)) tokens.now)) }
{
    let mut members = SurfaceList::new(alloc);
    members.push(first)?;
    let mut rest = tokens;
    while is_symbol(separator, rest) {
        let (member, next) = at_level(alloc, left, level, behind(rest))?;
        members.push(member)?;
        rest = next;
    }
    Ok((members, rest))
}

#[cycle(terms)]
fn at_level(
    alloc: Global,
    left: u32,
    level: Level,
    tokens: &[Token],
) -> Result<(Surface, &[Token]), Stop<'_>>
    ensures { Gives (λ x. (tree_of x.0, x.1.now)) result (read_at left (level_of level) tokens.now) }
{
    match level {
        Level::Sequence => sequence(alloc, left, tokens),
        Level::Term => term(alloc, left, tokens),
        Level::Either => chain(alloc, left, Level::Either, Level::Both, tokens),
        Level::Both => chain(alloc, left, Level::Both, Level::Relation, tokens),
        Level::Relation => relation(alloc, left, tokens),
        Level::Sum => chain(alloc, left, Level::Sum, Level::Product, tokens),
        Level::Product => chain(alloc, left, Level::Product, Level::Prefixed, tokens),
        Level::Prefixed => prefixed(alloc, left, tokens),
    }
}

#[cycle(terms)]
#[tactic(auto, using(crate::proofs::FormSigns::term_operand, crate::proofs::FormSigns::term_form, crate::proofs::Stopping::term_deep, crate::proofs::Stopping::term_within))]
fn term(alloc: Global, left: u32, tokens: &[Token]) -> Result<(Surface, &[Token]), Stop<'_>>
    ensures { Gives (λ x. (tree_of x.0, x.1.now)) result (read_term left tokens.now) }
{
    match form_at(tokens) {
        Some(form) => {
            if left == 0 {
                return Err(Stop::Deep(forcing(form, tokens)));
            }
            formed(alloc, left - 1, form, tokens)
        }
        None => assign(alloc, left, tokens),
    }
}

#[cycle(terms)]
fn formed(
    alloc: Global,
    left: u32,
    form: Form,
    tokens: &[Token],
) -> Result<(Surface, &[Token]), Stop<'_>>
    ensures { Gives (λ x. (tree_of x.0, x.1.now)) result (read_form form (within left) tokens.now) }
{
    match form {
        Form::Lam => lam(alloc, left, tokens),
        Form::Let => let_in(alloc, left, tokens),
        Form::Letrec => letrec(alloc, left, tokens),
        Form::Lettype => let_type(alloc, left, tokens),
        Form::New => new(alloc, left, tokens),
        Form::Escape => escape(alloc, left, tokens),
        Form::Accept => accept(alloc, left, tokens),
        Form::Cond => cond(alloc, left, tokens),
        Form::While => while_do(alloc, left, tokens),
        Form::Loop => forever(alloc, left, tokens),
        Form::Field(name) => field(alloc, left, name, tokens),
    }
}

#[cycle(terms)]
#[tactic(auto, using(crate::proofs::Parts::lam_steps))]
fn lam(alloc: Global, left: u32, tokens: &[Token]) -> Result<(Surface, &[Token]), Stop<'_>>
    ensures { Gives (λ x. (tree_of x.0, x.1.now)) result
        (lam_at (within left) (front_of tokens.now) (behind_of tokens.now)) }
{
    let (bound, rest) = name(behind(tokens))?;
    let rest = expect(Symbol::Colon, rest)?;
    let (first, rest) = ty(alloc, left, rest)?;
    let (all, rest) = alternatives(alloc, left, first, rest)?;
    let rest = expect(Symbol::Dot, rest)?;
    let (body, rest) = term(alloc, left, rest)?;
    let whole = make::lam(alloc, bound, all, body, front(tokens))?;
    Ok((whole, rest))
}

#[cycle(terms)]
#[tactic(auto, using(crate::proofs::Parts::let_steps))]
fn let_in(alloc: Global, left: u32, tokens: &[Token]) -> Result<(Surface, &[Token]), Stop<'_>>
    ensures { Gives (λ x. (tree_of x.0, x.1.now)) result
        (let_at (within left) (front_of tokens.now) (behind_of tokens.now)) }
{
    let (first, rest) = def(alloc, left, behind(tokens))?;
    let (all, rest) = defs(alloc, left, first, rest)?;
    let rest = expect_word(Keyword::In, rest)?;
    let (body, rest) = term(alloc, left, rest)?;
    let whole = make::let_in(alloc, all, body, front(tokens))?;
    Ok((whole, rest))
}

#[cycle(terms)]
#[tactic(auto, using(crate::proofs::Parts::letrec_steps))]
fn letrec(alloc: Global, left: u32, tokens: &[Token]) -> Result<(Surface, &[Token]), Stop<'_>>
    ensures { Gives (λ x. (tree_of x.0, x.1.now)) result
        (letrec_at (within left) (front_of tokens.now) (behind_of tokens.now)) }
{
    let (first_decl, rest) = decl(alloc, left, behind(tokens))?;
    let (declared, rest) = decls(alloc, left, first_decl, rest)?;
    let rest = expect_word(Keyword::Where, rest)?;
    let (first, rest) = def(alloc, left, rest)?;
    let (all, at_in) = defs(alloc, left, first, rest)?;
    let rest = expect_word(Keyword::In, at_in)?;
    let (body, rest) = term(alloc, left, rest)?;
    let whole = make::letrec(alloc, declared, all, front(at_in), body, front(tokens))?;
    Ok((whole, rest))
}

#[cycle(terms)]
#[tactic(auto, using(crate::proofs::Steps::let_type_steps))]
fn let_type(alloc: Global, left: u32, tokens: &[Token]) -> Result<(Surface, &[Token]), Stop<'_>>
    ensures { Gives (λ x. (tree_of x.0, x.1.now)) result
        (let_type_at (within left) (front_of tokens.now) (behind_of tokens.now)) }
{
    let (bound, rest) = name(behind(tokens))?;
    let rest = expect(Symbol::EqualsEquals, rest)?;
    let (meant, rest) = ty(alloc, left, rest)?;
    let rest = expect_word(Keyword::In, rest)?;
    let (body, rest) = term(alloc, left, rest)?;
    let whole = make::let_type(alloc, bound, meant, body, front(tokens))?;
    Ok((whole, rest))
}

#[cycle(terms)]
#[tactic(auto, using(crate::proofs::Steps::new_steps))]
fn new(alloc: Global, left: u32, tokens: &[Token]) -> Result<(Surface, &[Token]), Stop<'_>>
    ensures { Gives (λ x. (tree_of x.0, x.1.now)) result
        (new_at (within left) (front_of tokens.now) (behind_of tokens.now)) }
{
    let (bound, rest) = name(behind(tokens))?;
    let rest = expect(Symbol::Colon, rest)?;
    let (kind, rest) = data(rest)?;
    let rest = expect(Symbol::ColonEquals, rest)?;
    let (first, rest) = term(alloc, left, rest)?;
    let rest = expect_word(Keyword::In, rest)?;
    let (body, rest) = term(alloc, left, rest)?;
    let whole = make::new(alloc, bound, kind, first, body, front(tokens))?;
    Ok((whole, rest))
}

#[cycle(terms)]
#[tactic(auto, using(crate::proofs::Steps::escape_steps))]
fn escape(alloc: Global, left: u32, tokens: &[Token]) -> Result<(Surface, &[Token]), Stop<'_>>
    ensures { Gives (λ x. (tree_of x.0, x.1.now)) result
        (escape_at (within left) (front_of tokens.now) (behind_of tokens.now)) }
{
    let (bound, rest) = name(behind(tokens))?;
    let rest = expect_word(Keyword::In, rest)?;
    let (body, rest) = term(alloc, left, rest)?;
    let whole = make::escape(alloc, bound, body, front(tokens))?;
    Ok((whole, rest))
}

#[cycle(terms)]
#[tactic(auto, using(crate::proofs::Steps::accept_steps))]
fn accept(alloc: Global, left: u32, tokens: &[Token]) -> Result<(Surface, &[Token]), Stop<'_>>
    ensures { Gives (λ x. (tree_of x.0, x.1.now)) result
        (accept_at (within left) (front_of tokens.now) (behind_of tokens.now)) }
{
    let (bound, rest) = name(behind(tokens))?;
    let rest = expect(Symbol::Colon, rest)?;
    let (kind, rest) = data(rest)?;
    let rest = expect_word(Keyword::In, rest)?;
    let (body, rest) = term(alloc, left, rest)?;
    let whole = make::accept(alloc, bound, kind, body, front(tokens))?;
    Ok((whole, rest))
}

#[cycle(terms)]
#[tactic(auto, using(crate::proofs::Steps::cond_steps))]
fn cond(alloc: Global, left: u32, tokens: &[Token]) -> Result<(Surface, &[Token]), Stop<'_>>
    ensures { Gives (λ x. (tree_of x.0, x.1.now)) result
        (cond_at (within left) (front_of tokens.now) (behind_of tokens.now)) }
{
    let (test, rest) = term(alloc, left, behind(tokens))?;
    let rest = expect_word(Keyword::Then, rest)?;
    let (first, rest) = term(alloc, left, rest)?;
    let rest = expect_word(Keyword::Else, rest)?;
    let (second, rest) = term(alloc, left, rest)?;
    let whole = make::cond(alloc, test, first, second, front(tokens))?;
    Ok((whole, rest))
}

#[cycle(terms)]
#[tactic(auto, using(crate::proofs::Steps::while_steps))]
fn while_do(alloc: Global, left: u32, tokens: &[Token]) -> Result<(Surface, &[Token]), Stop<'_>>
    ensures { Gives (λ x. (tree_of x.0, x.1.now)) result
        (while_at (within left) (front_of tokens.now) (behind_of tokens.now)) }
{
    let (test, rest) = term(alloc, left, behind(tokens))?;
    let rest = expect_word(Keyword::Do, rest)?;
    let (body, rest) = term(alloc, left, rest)?;
    let whole = make::while_do(alloc, test, body, front(tokens))?;
    Ok((whole, rest))
}

#[cycle(terms)]
fn forever(alloc: Global, left: u32, tokens: &[Token]) -> Result<(Surface, &[Token]), Stop<'_>>
    ensures { Gives (λ x. (tree_of x.0, x.1.now)) result
        (loop_at (within left) (front_of tokens.now) (behind_of tokens.now)) }
{
    let (body, rest) = term(alloc, left, behind(tokens))?;
    let whole = make::forever(alloc, body, front(tokens))?;
    Ok((whole, rest))
}

// A definition of a field, whose name and `==` are there.
#[cycle(terms)]
fn field(
    alloc: Global,
    left: u32,
    defined: Name,
    tokens: &[Token],
) -> Result<(Surface, &[Token]), Stop<'_>>
    ensures { Gives (λ x. (tree_of x.0, x.1.now)) result (mapped (λ p. Tree.field defined p (front_of tokens.now))
        (read_term left (behind_of (behind_of tokens.now)))) }
{
    let (body, rest) = term(alloc, left, behind(behind(tokens)))?;
    let whole = make::field(alloc, defined, body, front(tokens))?;
    Ok((whole, rest))
}

// A definition.
#[cycle(terms)]
#[tactic(auto, using(crate::proofs::Steps::def_steps, crate::proofs::Made::def_made))]
fn def(alloc: Global, left: u32, tokens: &[Token]) -> Result<(Def, &[Token]), Stop<'_>>
    ensures { Gives (λ x. (def_of x.0, x.1.now)) result (mapped def_tree (def_at (read_term left) tokens.now)) }
{
    let (defined, rest) = name(tokens)?;
    let rest = expect(Symbol::EqualsEquals, rest)?;
    let (body, rest) = term(alloc, left, rest)?;
    Ok((
        Def {
            name: defined,
            at: front(tokens),
            body,
        },
        rest,
    ))
}

// The first definition and those behind it, each behind a comma.
#[cycle(terms)]
fn defs(
    alloc: Global,
    left: u32,
    first: Def,
    tokens: &[Token],
) -> Result<(DefList, &[Token]), Stop<'_>>
    ensures { Gives (λ x. (defs_of x.0, x.1.now)) result
        (mapped (Defs.and_def (def_of first).name (def_of first).at (def_of first).body)
        (defs_at (length tokens.now) (read_term left) tokens.now)) }
{
    let mut defs = DefList::new(alloc);
    defs.push(first)?;
    let mut rest = tokens;
    while is_symbol(Symbol::Comma, rest) {
        let (next_def, next) = def(alloc, left, behind(rest))?;
        defs.push(next_def)?;
        rest = next;
    }
    Ok((defs, rest))
}

// An assignment, or what may stand to the left of one.
#[cycle(terms)]
#[tactic(auto, using(crate::proofs::Stopping::term_deep, crate::proofs::Stopping::term_within))]
fn assign(alloc: Global, left: u32, tokens: &[Token]) -> Result<(Surface, &[Token]), Stop<'_>>
    ensures { Gives (λ x. (tree_of x.0, x.1.now)) result (assign_at (inner left) tokens.now) }
{
    let (target, rest) = at_level(alloc, left, Level::Either, tokens)?;
    if !is_symbol(Symbol::ColonEquals, rest) {
        return Ok((target, rest));
    }
    if left == 0 {
        return Err(Stop::Deep(rest));
    }
    let (value, end) = term(alloc, left - 1, behind(rest))?;
    let whole = make::assign(alloc, target, front(rest), value, front(tokens))?;
    Ok((whole, end))
}

// Operands of one level with operators of another between them.
#[cycle(terms)]
fn chain(
    alloc: Global,
    left: u32,
    level: Level,
    operand: Level,
    tokens: &[Token],
) -> Result<(Surface, &[Token]), Stop<'_>>
    ensures { Gives (λ x. (tree_of x.0, x.1.now)) result
        (chain_at (level_of level) (read_at left (level_of operand)) tokens.now) }
{
    let (first, rest) = at_level(alloc, left, operand, tokens)?;
    let (links, rest) = links(alloc, left, level, operand, rest)?;
    let whole = make::chain(alloc, first, links, front(tokens))?;
    Ok((whole, rest))
}

// Operators with the operands behind them.
#[cycle(terms)]
fn links(
    alloc: Global,
    left: u32,
    level: Level,
    operand: Level,
    tokens: &[Token],
) -> Result<(LinkList, &[Token]), Stop<'_>>
    ensures { Gives (λ x. (links_of x.0, x.1.now)) result
        (links_at (length tokens.now) (level_of level) (read_at left (level_of operand)) tokens.now) }
{
    let mut links = LinkList::new(alloc);
    let mut rest = tokens;
    while let Some(op) = operator_at(level, rest) {
        let at = front(rest);
        let (item, next) = at_level(alloc, left, operand, behind(rest))?;
        links.push(Link { op, at, item })?;
        rest = next;
    }
    Ok((links, rest))
}

#[cycle(terms)]
fn relation(alloc: Global, left: u32, tokens: &[Token]) -> Result<(Surface, &[Token]), Stop<'_>>
    ensures { Gives (λ x. (tree_of x.0, x.1.now)) result (relation_at (inner left) tokens.now) }
{
    let (first, rest) = at_level(alloc, left, Level::Sum, tokens)?;
    match operator_at(Level::Relation, rest) {
        Some(op) => {
            let (second, end) = at_level(alloc, left, Level::Sum, behind(rest))?;
            let whole = make::relation(alloc, first, op, front(rest), second, front(tokens))?;
            Ok((whole, end))
        }
        None => Ok((first, rest)),
    }
}

#[cycle(terms)]
fn prefixed(alloc: Global, left: u32, tokens: &[Token]) -> Result<(Surface, &[Token]), Stop<'_>>
    ensures { Gives (λ x. (tree_of x.0, x.1.now)) result (prefixed_at (inner left) tokens.now) }
{
    let (operators, rest) = prefixes(alloc, tokens)?;
    let (operand, rest) = apply(alloc, left, rest)?;
    let whole = make::prefixed(alloc, operators, operand, front(tokens))?;
    Ok((whole, rest))
}

#[cycle(terms)]
fn apply(alloc: Global, left: u32, tokens: &[Token]) -> Result<(Surface, &[Token]), Stop<'_>>
    ensures { Gives (λ x. (tree_of x.0, x.1.now)) result (apply_at (inner left) tokens.now) }
{
    let (first, rest) = select(alloc, left, tokens)?;
    let (arguments, rest) = arguments(alloc, left, rest)?;
    let whole = make::apply(alloc, first, arguments, front(tokens))?;
    Ok((whole, rest))
}

#[cycle(terms)]
fn arguments(
    alloc: Global,
    left: u32,
    tokens: &[Token],
) -> Result<(SurfaceList, &[Token]), Stop<'_>>
    ensures { Gives (λ x. (trees_of x.0, x.1.now)) result
        (arguments_at (length tokens.now) (select_at (inner left)) tokens.now) }
{
    let mut arguments = SurfaceList::new(alloc);
    let mut rest = tokens;
    while starts(rest) {
        let (argument, next) = select(alloc, left, rest)?;
        arguments.push(argument)?;
        rest = next;
    }
    Ok((arguments, rest))
}

#[cycle(terms)]
fn select(alloc: Global, left: u32, tokens: &[Token]) -> Result<(Surface, &[Token]), Stop<'_>>
    ensures { Gives (λ x. (tree_of x.0, x.1.now)) result (select_at (inner left) tokens.now) }
{
    let (operand, rest) = primary(alloc, left, tokens)?;
    let (names, rest) = dots(alloc, rest)?;
    let whole = make::select(alloc, operand, names, front(tokens))?;
    Ok((whole, rest))
}

#[cycle(terms)]
#[tactic(auto, using(crate::proofs::FormSigns::primary_leaf, crate::proofs::FormSigns::primary_group, crate::proofs::FormSigns::primary_parts, crate::proofs::Stopping::term_deep, crate::proofs::Stopping::term_within))]
fn primary(alloc: Global, left: u32, tokens: &[Token]) -> Result<(Surface, &[Token]), Stop<'_>>
    ensures { Gives (λ x. (tree_of x.0, x.1.now)) result (primary_at (inner left) tokens.now) }
{
    let is_group = is_symbol(Symbol::OpenParen, tokens);
    if !is_group && !is_word(Keyword::Seq, tokens) {
        return leaf(alloc, tokens);
    }
    if left == 0 {
        return Err(Stop::Deep(tokens));
    }
    if is_group {
        group(alloc, left - 1, tokens)
    } else {
        parts(alloc, left - 1, tokens)
    }
}

// A phrase in parentheses, whose first is there.
#[cycle(terms)]
fn group(alloc: Global, left: u32, tokens: &[Token]) -> Result<(Surface, &[Token]), Stop<'_>>
    ensures { Gives (λ x. (tree_of x.0, x.1.now)) result (group_at (within left) tokens.now) }
{
    let (inside, rest) = phrase(alloc, left, behind(tokens))?;
    let rest = expect(Symbol::CloseParen, rest)?;
    let whole = make::group(alloc, inside, front(tokens))?;
    Ok((whole, rest))
}

// The parts of a sequence of values, whose `seq` is there.
#[cycle(terms)]
#[tactic(auto, using(crate::proofs::Parts::seq_steps))]
fn parts(alloc: Global, left: u32, tokens: &[Token]) -> Result<(Surface, &[Token]), Stop<'_>>
    ensures { Gives (λ x. (tree_of x.0, x.1.now)) result (seq_at (within left) tokens.now) }
{
    let rest = expect(Symbol::OpenParen, behind(tokens))?;
    let (first, rest) = term(alloc, left, rest)?;
    let (all, rest) = members(alloc, left, Level::Term, Symbol::Comma, first, rest)?;
    let rest = expect(Symbol::CloseParen, rest)?;
    Ok((Surface::SeqOf(all, front(tokens)), rest))
}

// A phrase of one token.
fn leaf(alloc: Global, tokens: &[Token]) -> Result<(Surface, &[Token]), Stop<'_>>
    requires group { begins_with symbol.OpenParen tokens.now ≡ false }
    requires seq { begins_with_word word.Seq tokens.now ≡ false }
    ensures { Gives (λ x. (tree_of x.0, x.1.now)) result (primary_at None tokens.now) }
{
    let at = front(tokens);
    let Some(kind) = kind_at(tokens) else {
        return Err(Stop::Wrong(tokens));
    };
    match kind {
        TokenKind::Ident(name) => Ok((Surface::Ident(*name, at), behind(tokens))),
        TokenKind::Number(value) => Ok((Surface::Number(*value, at), behind(tokens))),
        TokenKind::Letter(byte) => Ok((Surface::Letter(*byte, at), behind(tokens))),
        TokenKind::Str(bytes) => {
            let copied = copy_of(alloc, bytes)?;
            Ok((Surface::Str(copied, at), behind(tokens)))
        }
        TokenKind::Word(word) => match word {
            Keyword::True => Ok((Surface::Truth(true, at), behind(tokens))),
            Keyword::False => Ok((Surface::Truth(false, at), behind(tokens))),
            Keyword::Skip => Ok((Surface::Skip(at), behind(tokens))),
            _ => Err(Stop::Wrong(tokens)),
        },
        _ => Err(Stop::Wrong(tokens)),
    }
}

// Bytes equal to the given ones.
fn copy_of(alloc: Global, bytes: &Text) -> Result<Text, OutOfMemory>
    ensures { IfOk result (λ copied. copied ≡ bytes.now) }
{
    let items = bytes.as_slice().to_vec(alloc)?;
    Ok(Text::from_vec(items))
}

// Names behind dots.
fn dots(alloc: Global, tokens: &[Token]) -> Result<(NameList, &[Token]), Stop<'_>>
    ensures { Gives (λ x. (x.0, x.1.now)) result (dots_at (length tokens.now) tokens.now) }
{
    let mut names = NameList::new(alloc);
    let mut rest = tokens;
    while is_symbol(Symbol::Dot, rest) {
        let (selected, next) = name(behind(rest))?;
        names.push(selected)?;
        rest = next;
    }
    Ok((names, rest))
}

// Operators in front of an operand.
#[tactic(auto, using(crate::proofs::FormSigns::prefixes_turn, crate::proofs::FormSigns::prefixes_end, crate::proofs::FormSigns::prefixes_smaller))]
fn prefixes(alloc: Global, tokens: &[Token]) -> Result<(PrefixList, &[Token]), Stop<'_>>
    ensures { Gives (λ x. (x.0, x.1.now)) result (Ok (prefixes_at tokens.now)) }
{
    let mut operators = PrefixList::new(alloc);
    let mut rest = tokens;
    while let Some(op) = prefix_at(rest) {
        operators.push(Prefixed {
            op,
            at: front(rest),
        })?;
        rest = behind(rest);
    }
    Ok((operators, rest))
}
