//! Types that are written: their faults, their sizes, and what they are once their names are replaced.

ghost use Rattle.std.specs.Prelude.{◌≡◌, IfOk, map};
ghost use Rattle.std.specs.Option.{option_map};
ghost use Rattle.fy_types.specs.Types.{PlainType};
ghost use Rattle.fy_types.specs.Reading.{plain_type, plain_types};
ghost use Rattle.fy_types.specs.Subtyping.{both_of};
ghost use Rattle.fy_syntax.specs.Reading.{decl_tree, type_tree, type_trees};
ghost use Rattle.fy_expand.specs.Core.{declared, meet_of};
ghost use Rattle.fy_expand.specs.Faults.{all_unknown, type_fault, types_fault, unknown};
ghost use Rattle.fy_expand.specs.Frames.{AreSized, scope_of, sizes_of, told};
ghost use Rattle.fy_expand.specs.Measures.{type_measure, types_measure};
ghost use Rattle.fy_expand.specs.Types.{fields, integer_variable, named_type, predefined, sequence_of, type_front, type_of, types_of, variable_sequence};

use crate::error::ExpandError;
use crate::frame::Frame;
use crate::size::Size;
use fy_base::{OutOfMemory, Place};
use fy_syntax::{Decl, SurfaceTy, SurfaceTyList};
use fy_types::{Atom, Name, Ty, TyList};
use std::alloc::Global;
use std::rc::Rc;

const MAX_TYPE_NODES: u64 = 4096;

const MAX_TYPE_NESTING: u64 = 256;

/// The fault of a written type: its first name that stands for none, or that it is too large.
pub(crate) fn check_type(ty: &SurfaceTy, frame: &Frame) -> Result<(), ExpandError>
    requires { AreSized frame.now }
    ensures { told result ≡ type_fault (scope_of frame.now).types (type_tree ty.now) }
{
    check_names(ty, frame)?;
    let size = type_size(ty, frame);
    if size.nodes > MAX_TYPE_NODES || size.nesting > MAX_TYPE_NESTING {
        return Err(ExpandError::TypeTooLarge(type_place(ty)));
    }
    Ok(())
}

/// The first fault of an abstraction's alternatives.
pub(crate) fn check_types(types: &SurfaceTyList, frame: &Frame) -> Result<(), ExpandError>
    requires { AreSized frame.now }
    ensures { told result ≡ types_fault (scope_of frame.now).types (type_trees types.now) }
{
    for ty in types.as_slice() {
        check_type(ty, frame)?;
    }
    Ok(())
}

#[cycle(check_names)]
fn check_names(ty: &SurfaceTy, frame: &Frame) -> Result<(), ExpandError>
    requires { AreSized frame.now }
    ensures { told result ≡ unknown (scope_of frame.now).types (type_tree ty.now) }
{
    match ty {
        SurfaceTy::Arrow(domain, rest, _) => {
            check_names(domain, frame)?;
            check_names(rest, frame)
        }
        SurfaceTy::Meet(members, _) => check_all_names(members, frame),
        SurfaceTy::Field(_, part, _) | SurfaceTy::Group(part, _) => check_names(part, frame),
        SurfaceTy::Ns(_) | SurfaceTy::Atom(..) => Ok(()),
        SurfaceTy::Ident(name, at) => match named_size(frame, *name) {
            Some(_) => Ok(()),
            None => Err(ExpandError::UnknownType(*at)),
        },
    }
}

#[cycle(check_names)]
fn check_all_names(types: &SurfaceTyList, frame: &Frame) -> Result<(), ExpandError>
    requires { AreSized frame.now }
    ensures { told result ≡ all_unknown (scope_of frame.now).types (type_trees types.now) }
{
    for ty in types.as_slice() {
        check_names(ty, frame)?;
    }
    Ok(())
}

/// The size of a written type once its names are replaced.
#[cycle(type_size)]
pub(crate) fn type_size(ty: &SurfaceTy, frame: &Frame) -> Size
    requires { AreSized frame.now }
    ensures { result ≡ type_measure (type_of (scope_of frame.now).types (type_tree ty.now)) }
{
    match ty {
        SurfaceTy::Arrow(domain, rest, _) => type_size(domain, frame)
            .beside(type_size(rest, frame))
            .under(1),
        SurfaceTy::Meet(members, _) => types_size(members, frame).under(1),
        SurfaceTy::Field(names, part, _) => type_size(part, frame).under(names.len() as u64),
        SurfaceTy::Ns(_) | SurfaceTy::Atom(..) => Size::LEAF,
        SurfaceTy::Ident(name, _) => named_size(frame, *name).unwrap_or(Size::LEAF),
        SurfaceTy::Group(part, _) => type_size(part, frame),
    }
}

/// The size of written types beside each other.
#[cycle(type_size)]
pub(crate) fn types_size(types: &SurfaceTyList, frame: &Frame) -> Size
    requires { AreSized frame.now }
    ensures { result ≡ types_measure (types_of (scope_of frame.now).types (type_trees types.now)) }
{
    let mut size = Size::NONE;
    for ty in types.as_slice() {
        size = size.beside(type_size(ty, frame));
    }
    size
}

/// The size of the meet of the declared fields, or of the one field.
pub(crate) fn declared_size(decls: &[Decl], frame: &Frame) -> Size
    requires { AreSized frame.now }
    ensures { result
        ≡ type_measure (meet_of (declared (scope_of frame.now).types (map decl_tree decls.now))) }
{
    let mut size = Size::NONE;
    for decl in decls {
        size = size.beside(type_size(&decl.ty, frame).under(1));
    }
    if decls.len() == 1 {
        size
    } else {
        size.under(1)
    }
}

// The size that is kept with a name of a type.
fn named_size(frame: &Frame, name: Name) -> Option<Size>
    ensures { result ≡ sizes_of frame.now name }
{
    match frame {
        Frame::Outermost => predefined_size(name),
        Frame::Name(_, outer)
        | Frame::Defs(_, outer)
        | Frame::Members(_, outer)
        | Frame::Hidden(_, outer) => named_size(outer, name),
        Frame::Type(bound, _, size, outer) => {
            if name == *bound {
                Some(*size)
            } else {
                named_size(outer, name)
            }
        }
    }
}

fn predefined_size(name: Name) -> Option<Size>
    ensures { result ≡ option_map type_measure (predefined name) }
{
    match name {
        5..=7 => Some(Size {
            nodes: 3,
            nesting: 2,
        }),
        8..=10 => Some(Size {
            nodes: 6,
            nesting: 3,
        }),
        12 => Some(Size {
            nodes: 8,
            nesting: 4,
        }),
        _ => None,
    }
}

// The place of a type's first token.
fn type_place(ty: &SurfaceTy) -> Place
    ensures { result ≡ type_front (type_tree ty.now) }
{
    match ty {
        SurfaceTy::Arrow(_, _, at)
        | SurfaceTy::Meet(_, at)
        | SurfaceTy::Field(_, _, at)
        | SurfaceTy::Ns(at)
        | SurfaceTy::Atom(_, at)
        | SurfaceTy::Ident(_, at)
        | SurfaceTy::Group(_, at) => *at,
    }
}

/// A written type, once its names are replaced.
#[cycle(build_type)]
pub(crate) fn build_type(alloc: Global, ty: &SurfaceTy, frame: &Frame) -> Result<Ty, OutOfMemory>
    ensures { IfOk result
        (λ made. plain_type made ≡ type_of (scope_of frame.now).types (type_tree ty.now)) }
{
    match ty {
        SurfaceTy::Arrow(domain, rest, _) => Ok(Ty::Arrow(
            Rc::new(alloc, build_type(alloc, domain, frame)?)?,
            Rc::new(alloc, build_type(alloc, rest, frame)?)?,
        )),
        SurfaceTy::Meet(members, _) => Ok(Ty::Meet(build_types(alloc, members, frame)?)),
        SurfaceTy::Field(names, part, _) => {
            let part = build_type(alloc, part, frame)?;
            with_fields(alloc, names.as_slice(), part)
        }
        SurfaceTy::Ns(_) => Ok(Ty::Ns),
        SurfaceTy::Atom(atom, _) => Ok(Ty::Atom(*atom)),
        SurfaceTy::Ident(name, _) => build_named(alloc, frame, *name),
        SurfaceTy::Group(part, _) => build_type(alloc, part, frame),
    }
}

/// Written types, once their names are replaced.
#[cycle(build_type)]
pub(crate) fn build_types(
    alloc: Global,
    types: &SurfaceTyList,
    frame: &Frame,
) -> Result<TyList, OutOfMemory>
    ensures { IfOk result
        (λ made. plain_types made ≡ types_of (scope_of frame.now).types (type_trees types.now)) }
{
    let mut made = TyList::new(alloc);
    for ty in types.as_slice() {
        made.push(build_type(alloc, ty, frame)?)?;
    }
    Ok(made)
}

// The type that a name stands for, built from where it is written.
#[cycle(build_type)]
fn build_named(alloc: Global, frame: &Frame, name: Name) -> Result<Ty, OutOfMemory>
    ensures { IfOk result (λ made. plain_type made ≡ named_type ((scope_of frame.now).types name)) }
{
    match frame {
        Frame::Outermost => predefined_type(alloc, name),
        Frame::Name(_, outer)
        | Frame::Defs(_, outer)
        | Frame::Members(_, outer)
        | Frame::Hidden(_, outer) => build_named(alloc, outer, name),
        Frame::Type(bound, written, _, outer) => {
            if name == *bound {
                build_type(alloc, written, outer)
            } else {
                build_named(alloc, outer, name)
            }
        }
    }
}

// The type of what has these fields one inside the other, the innermost of that type.
fn with_fields(alloc: Global, names: &[Name], part: Ty) -> Result<Ty, OutOfMemory>
    ensures { IfOk result (λ made. plain_type made ≡ fields names.now (plain_type part)) }
{
    let mut made = part;
    for i in (0..names.len()).rev() {
        made = Ty::Field(names[i], Rc::new(alloc, made)?);
    }
    Ok(made)
}

fn predefined_type(alloc: Global, name: Name) -> Result<Ty, OutOfMemory>
    ensures { IfOk result (λ made. plain_type made ≡ named_type (predefined name)) }
{
    match name {
        5 => integer_variable(alloc),
        6 => both(alloc, Ty::Atom(Atom::Bool), Ty::Atom(Atom::BoolAcc)),
        7 => both(alloc, Ty::Atom(Atom::Char), Ty::Atom(Atom::CharAcc)),
        8 => sequence_type(alloc, Ty::Atom(Atom::Int)),
        9 => sequence_type(alloc, Ty::Atom(Atom::Bool)),
        10 => sequence_type(alloc, Ty::Atom(Atom::Char)),
        12 => variable_sequence(alloc),
        _ => Ok(Ty::Ns),
    }
}

// `int & intacc`
fn integer_variable(alloc: Global) -> Result<Ty, OutOfMemory>
    ensures { IfOk result (λ made. plain_type made ≡ integer_variable) }
{
    both(alloc, Ty::Atom(Atom::Int), Ty::Atom(Atom::IntAcc))
}

/// `(int -> int & intacc) & (len : int)`, the type that `intvarseq` stands for.
pub fn variable_sequence(alloc: Global) -> Result<Ty, OutOfMemory>
    ensures { IfOk result (λ made. plain_type made ≡ variable_sequence) }
{
    sequence_type(alloc, integer_variable(alloc)?)
}

// `(int -> A) & (len : int)`
fn sequence_type(alloc: Global, part: Ty) -> Result<Ty, OutOfMemory>
    ensures { IfOk result (λ made. plain_type made ≡ sequence_of (plain_type part)) }
{
    let index = Rc::new(alloc, Ty::Atom(Atom::Int))?;
    let item = Rc::new(alloc, part)?;
    let length = Rc::new(alloc, Ty::Atom(Atom::Int))?;
    both(alloc, Ty::Arrow(index, item), Ty::Field(0, length))
}

// `A & B`
fn both(alloc: Global, first: Ty, second: Ty) -> Result<Ty, OutOfMemory>
    ensures { IfOk result (λ made. plain_type made ≡ both_of (plain_type first) (plain_type second)) }
{
    let mut members = TyList::new(alloc);
    members.push(first)?;
    members.push(second)?;
    Ok(Ty::Meet(members))
}

/// The meet of the declared fields, or the one field.
pub(crate) fn build_declared(
    alloc: Global,
    decls: &[Decl],
    frame: &Frame,
) -> Result<Ty, OutOfMemory>
    ensures { IfOk result (λ made.
        plain_type made ≡ meet_of (declared (scope_of frame.now).types (map decl_tree decls.now))) }
{
    if decls.len() == 1 {
        return declared_field(alloc, &decls[0], frame);
    }
    let mut made = TyList::new(alloc);
    for decl in decls {
        made.push(declared_field(alloc, decl, frame)?)?;
    }
    Ok(Ty::Meet(made))
}

fn declared_field(alloc: Global, decl: &Decl, frame: &Frame) -> Result<Ty, OutOfMemory>
    ensures { IfOk result (λ made. plain_type made
        ≡ PlainType.field decl.now.name (type_of (scope_of frame.now).types (type_tree decl.now.ty))) }
{
    let part = build_type(alloc, &decl.ty, frame)?;
    Ok(Ty::Field(decl.name, Rc::new(alloc, part)?))
}
