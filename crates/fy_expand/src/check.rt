//! The first fault of a written phrase.

ghost use Rattle.std.specs.Prelude.{◌≡◌, [], is_none, map, nat_lt};
ghost use Rattle.fy_syntax.specs.Reading.{decl_tree, defs_of, links_of, tree_of, trees_of, type_trees};
ghost use Rattle.fy_expand.specs.declared.error.ExpandError.TheVariants.{TooManyAlternatives};
ghost use Rattle.fy_expand.specs.Faults.{
  all_faults,
  decls_fault,
  defs_fault,
  fault,
  fault_if,
  fields_fault,
  is_among,
  is_operand as is_operand_of,
  is_same_place,
  links_fault,
  members_fault,
  operand_fault,
  types_count,
};
ghost use Rattle.fy_expand.specs.Frames.{AreSized, def_names, decl_names, scope_of, told};
ghost use Rattle.fy_expand.specs.Front.{front};

use crate::error::ExpandError;
use crate::frame::{Frame, find};
use crate::types::{check_type, check_types, type_size};
use fy_base::Place;
use fy_syntax::{Decl, Def, DefList, LinkList, Surface, SurfaceList, SurfaceTyList};
use fy_types::Name;

const MAX_ALTERNATIVES: usize = 16;

/// The first fault of a phrase in the order of the text.
#[cycle(check)]
pub(crate) fn check(tree: &Surface, frame: &Frame) -> Result<(), ExpandError>
    requires { AreSized frame.now }
    ensures { told result ≡ fault (scope_of frame.now) (tree_of tree.now) }
{
    match tree {
        Surface::Merge(members, _) => check_members(members, frame),
        Surface::Sequence(parts, _) | Surface::SeqOf(parts, _) => check_all(parts, frame),
        Surface::Lam(name, types, body, at) => {
            check_count(types, *at)?;
            check_types(types, frame)?;
            check(body, &Frame::Name(*name, &*frame))
        }
        Surface::Let(defs, body, _) => {
            check_defs(defs, frame)?;
            check(body, &Frame::Defs(defs.as_slice(), &*frame))
        }
        Surface::Letrec(decls, defs, in_at, body, _) => {
            check_decls(decls.as_slice(), frame)?;
            let inner = Frame::Members(decls.as_slice(), &*frame);
            check_fields(defs, decls.as_slice(), *in_at, &inner)?;
            check(body, &inner)
        }
        Surface::Lettype(name, ty, body, _) => {
            check_type(ty, frame)?;
            let size = type_size(ty, frame);
            check(body, &Frame::Type(*name, ty, size, &*frame))
        }
        Surface::New(name, _, first, body, _) => {
            check(first, frame)?;
            check(body, &Frame::Name(*name, &*frame))
        }
        Surface::Escape(name, body, _) => check(body, &Frame::Name(*name, &*frame)),
        Surface::Accept(name, _, body, _) => check(body, &Frame::Name(*name, &*frame)),
        Surface::If(test, first, second, _) => {
            check(test, frame)?;
            check(first, frame)?;
            check(second, frame)
        }
        Surface::WhileDo(first, second, _) | Surface::Assign(first, _, second, _) => {
            check(first, frame)?;
            check(second, frame)
        }
        Surface::Chain(first, links, _) => {
            check(first, frame)?;
            check_links(links, frame)
        }
        Surface::Apply(first, arguments, _) => {
            check(first, frame)?;
            check_all(arguments, frame)
        }
        Surface::Loop(part, _)
        | Surface::Field(_, part, _)
        | Surface::Prefix(_, part, _)
        | Surface::Select(part, _, _)
        | Surface::Group(part, _) => check(part, frame),
        Surface::Ident(name, at) => {
            if is_unknown(*name, frame) {
                return Err(ExpandError::UnknownName(*at));
            }
            Ok(())
        }
        Surface::Number(..)
        | Surface::Letter(..)
        | Surface::Str(..)
        | Surface::Truth(..)
        | Surface::Skip(_) => Ok(()),
    }
}

// Whether an abstraction has too many alternatives.
fn check_count(types: &SurfaceTyList, at: Place) -> Result<(), ExpandError>
    ensures { told result
        ≡ fault_if (nat_lt 16 (types_count (type_trees types.now))) (TooManyAlternatives at) }
{
    if types.len() > MAX_ALTERNATIVES {
        return Err(ExpandError::TooManyAlternatives(at));
    }
    Ok(())
}

// Whether the name stands for no phrase.
fn is_unknown(name: Name, frame: &Frame) -> bool
    ensures { result ≡ is_none ((scope_of frame.now).phrases name) }
{
    find(frame, name).is_none()
}

#[cycle(check)]
fn check_all(trees: &SurfaceList, frame: &Frame) -> Result<(), ExpandError>
    requires { AreSized frame.now }
    ensures { told result ≡ all_faults (scope_of frame.now) (trees_of trees.now) }
{
    for tree in trees.as_slice() {
        check(tree, frame)?;
    }
    Ok(())
}

#[cycle(check)]
fn check_links(links: &LinkList, frame: &Frame) -> Result<(), ExpandError>
    requires { AreSized frame.now }
    ensures { told result ≡ links_fault (scope_of frame.now) (links_of links.now) }
{
    for link in links.as_slice() {
        check(&link.item, frame)?;
    }
    Ok(())
}

// The first fault of the members of a merge.
#[cycle(check)]
fn check_members(members: &SurfaceList, frame: &Frame) -> Result<(), ExpandError>
    requires { AreSized frame.now }
    ensures { told result ≡ members_fault (scope_of frame.now) (trees_of members.now) }
{
    let mut is_first = true;
    for member in members.as_slice() {
        let found = check(member, frame);
        if is_first || is_operand(member) {
            found?;
        } else {
            check_other(place_of(member), found)?;
        }
        is_first = false;
    }
    Ok(())
}

// The fault of a right operand that is of another kind, with the first fault inside it.
fn check_other(at: Place, inside: Result<(), ExpandError>) -> Result<(), ExpandError>
    ensures { told result ≡ operand_fault at (told inside) }
{
    match inside {
        Err(
            ExpandError::UnknownName(here)
            | ExpandError::UnknownType(here)
            | ExpandError::DoubleName(here)
            | ExpandError::LetrecName(here),
        ) if is_same(here, at) => inside,
        _ => Err(ExpandError::MergeRight(at)),
    }
}

fn is_same(a: Place, b: Place) -> bool
    ensures { result ≡ is_same_place a b }
{
    a.line == b.line && a.col == b.col
}

// The first fault of the definitions of a `let`, which have the outer names.
#[cycle(check)]
fn check_defs(defs: &DefList, frame: &Frame) -> Result<(), ExpandError>
    requires { AreSized frame.now }
    ensures { told result ≡ defs_fault (scope_of frame.now) [] (defs_of defs.now) }
{
    for (i, def) in defs.as_slice().iter().enumerate() {
        if has_def(&defs.as_slice()[..i], def.name) {
            return Err(ExpandError::DoubleName(def.at));
        }
        check(&def.body, frame)?;
    }
    Ok(())
}

fn has_def(defs: &[Def], name: Name) -> bool
    ensures { result ≡ is_among (def_names defs.now) name }
{
    for def in defs {
        if def.name == name {
            return true;
        }
    }
    false
}

// The first fault of the declarations of a `letrec`.
fn check_decls(decls: &[Decl], frame: &Frame) -> Result<(), ExpandError>
    requires { AreSized frame.now }
    ensures { told result
        ≡ decls_fault (scope_of frame.now).types [] (map decl_tree decls.now) }
{
    for i in 0..decls.len() {
        if has_decl(&decls[..i], decls[i].name) {
            return Err(ExpandError::DoubleName(decls[i].at));
        }
        check_type(&decls[i].ty, frame)?;
    }
    Ok(())
}

fn has_decl(decls: &[Decl], name: Name) -> bool
    ensures { result ≡ is_among (decl_names decls.now) name }
{
    for decl in decls {
        if decl.name == name {
            return true;
        }
    }
    false
}

// The first fault of the definitions of a `letrec`, which are to be the declared ones in order.
#[cycle(check)]
fn check_fields(
    defs: &DefList,
    decls: &[Decl],
    in_at: Place,
    frame: &Frame,
) -> Result<(), ExpandError>
    requires { AreSized frame.now }
    ensures { told result
        ≡ fields_fault (scope_of frame.now) in_at (map decl_tree decls.now) (defs_of defs.now) }
{
    for (i, def) in defs.as_slice().iter().enumerate() {
        if i >= decls.len() || decls[i].name != def.name {
            return Err(ExpandError::LetrecName(def.at));
        }
        check(&def.body, frame)?;
    }
    if defs.len() < decls.len() {
        return Err(ExpandError::LetrecName(in_at));
    }
    Ok(())
}

// Whether the phrase is expanded to an abstraction, a field definition or an acceptor.
fn is_operand(tree: &Surface) -> bool
    ensures { result ≡ is_operand_of (tree_of tree.now) }
{
    match tree {
        Surface::Lam(..) | Surface::Field(..) | Surface::Accept(..) => true,
        Surface::Group(part, _) | Surface::Lettype(_, _, part, _) => is_operand(part),
        _ => false,
    }
}

/// The place of a phrase's first token.
pub(crate) fn place_of(tree: &Surface) -> Place
    ensures { result ≡ front (tree_of tree.now) }
{
    match tree {
        Surface::Merge(_, at)
        | Surface::Sequence(_, at)
        | Surface::Lam(_, _, _, at)
        | Surface::Let(_, _, at)
        | Surface::Letrec(_, _, _, _, at)
        | Surface::Lettype(_, _, _, at)
        | Surface::New(_, _, _, _, at)
        | Surface::Escape(_, _, at)
        | Surface::Accept(_, _, _, at)
        | Surface::If(_, _, _, at)
        | Surface::WhileDo(_, _, at)
        | Surface::Loop(_, at)
        | Surface::Field(_, _, at)
        | Surface::Assign(_, _, _, at)
        | Surface::Chain(_, _, at)
        | Surface::Prefix(_, _, at)
        | Surface::Apply(_, _, at)
        | Surface::Select(_, _, at)
        | Surface::Ident(_, at)
        | Surface::Number(_, at)
        | Surface::Letter(_, at)
        | Surface::Str(_, at)
        | Surface::Truth(_, at)
        | Surface::Skip(at)
        | Surface::Group(_, at)
        | Surface::SeqOf(_, at) => *at,
    }
}
