//! The core phrase of a written one.

ghost use Rattle.std.specs.Prelude.{◌≡◌, ◌+◌, ◌-◌, ◌^◌, ◌<◌, ◌≤◌, IfOk, OnOk, length, map, take, vec_len};
ghost use Rattle.fy_phrase.specs.Reads.{reads, reads_parts};
ghost use Rattle.fy_syntax.specs.Reading.{defs_of, links_of, tree_of, trees_from, trees_of};
ghost use Rattle.fy_expand.specs.Core.{
  all_fields,
  applied,
  core,
  data_of,
  indexed,
  items_of,
  lets,
  linked,
  merged_all,
  one_after,
  parts_of,
  prefixed,
  selected,
  sequence as sequence_of,
  text_parts as text_parts_of,
  used,
  variable as variable_of,
};
ghost use Rattle.fy_expand.specs.Frames.{scope_of};
ghost use Rattle.fy_expand.specs.Built.{IsShallow, item_of, items_nesting, last_joined, with_field as with_field_of};
ghost use Rattle.fy_phrase.specs.Sizes.{all_nesting};
ghost use Rattle.fy_phrase.specs.Tree.{Tree};

use crate::check::place_of;
use crate::frame::{Frame, Standing, depth_in, find};
use crate::size::Size;
use crate::types::{build_declared, build_types};
use fy_base::{Datum, OutOfMemory, Place, UnOp};
use fy_phrase::{DataTy, Parts, Phrase};
use fy_syntax::{DefList, LinkList, Prefixed, Surface, SurfaceList};
use fy_types::{Atom, Name, Ty, TyList};
use std::alloc::Global;

/// An item of a sequence, with the place of its first token.
#[derive(Debug, Drop)]
pub(crate) struct Item {
    pub phrase: Phrase,
    pub front: Place,
}

/// The name `len`.
const LEN: Name = 0;

/// The core phrase of a written one.
#[cycle(build)]
pub(crate) fn build(alloc: Global, tree: &Surface, frame: &Frame) -> Result<Phrase, OutOfMemory>
    requires { IsShallow (scope_of frame.now) (core (scope_of frame.now) (tree_of tree.now)) }
    ensures { IfOk result (λ p. reads p ≡ core (scope_of frame.now) (tree_of tree.now)) }
{
    match tree {
        Surface::Merge(members, at) => build_merge(alloc, members, *at, frame),
        Surface::Sequence(items, at) => {
            let mut made = build_items(alloc, items, frame)?;
            sequence(alloc, &mut made, *at)
        }
        Surface::Lam(name, types, body, at) => {
            let types = build_types(alloc, types, frame)?;
            let body = boxed(alloc, body, &Frame::Name(*name, &*frame))?;
            Ok(Phrase::Lam(depth_in(frame), types, body, *at))
        }
        Surface::Let(defs, body, at) => {
            let inner = build(alloc, body, &Frame::Defs(defs.as_slice(), &*frame))?;
            build_lets(alloc, defs, inner, *at, frame)
        }
        Surface::Letrec(decls, defs, _, body, at) => {
            let inner = Frame::Members(decls.as_slice(), &*frame);
            let fields = Box::new(alloc, build_fields(alloc, defs, *at, &inner)?)?;
            let ty = build_declared(alloc, decls.as_slice(), frame)?;
            let depth = depth_in(frame);
            let fixed = Box::new(alloc, Phrase::Rec(depth, ty, fields, *at))?;
            let body = boxed(alloc, body, &inner)?;
            Ok(Phrase::LetIn(depth, fixed, body, *at))
        }
        Surface::Lettype(name, ty, body, _) => {
            build(alloc, body, &Frame::Type(*name, ty, Size::NONE, &*frame))
        }
        Surface::New(name, atom, first, body, at) => {
            let first = boxed(alloc, first, frame)?;
            let body = boxed(alloc, body, &Frame::Name(*name, &*frame))?;
            Ok(Phrase::New(depth_in(frame), data_ty(*atom), first, body, *at))
        }
        Surface::Escape(name, body, at) => {
            let body = boxed(alloc, body, &Frame::Name(*name, &*frame))?;
            Ok(Phrase::Escape(depth_in(frame), body, *at))
        }
        Surface::Accept(name, atom, body, at) => {
            let body = boxed(alloc, body, &Frame::Name(*name, &*frame))?;
            Ok(Phrase::Accept(depth_in(frame), data_ty(*atom), body, *at))
        }
        Surface::If(test, first, second, at) => {
            let test = boxed(alloc, test, frame)?;
            let first = boxed(alloc, first, frame)?;
            let second = boxed(alloc, second, frame)?;
            Ok(Phrase::Cond(test, first, second, *at))
        }
        Surface::WhileDo(test, body, at) => {
            let test = boxed(alloc, test, frame)?;
            let body = boxed(alloc, body, frame)?;
            Ok(Phrase::WhileDo(test, body, *at))
        }
        Surface::Assign(target, at, value, _) => {
            let target = boxed(alloc, target, frame)?;
            let value = boxed(alloc, value, frame)?;
            Ok(Phrase::Assign(target, value, *at))
        }
        Surface::Loop(body, at) => {
            let body = boxed(alloc, body, frame)?;
            Ok(Phrase::Forever(body, *at))
        }
        Surface::Field(name, part, at) => {
            let part = boxed(alloc, part, frame)?;
            Ok(Phrase::Field(*name, part, *at))
        }
        Surface::Group(part, _) => build(alloc, part, frame),
        Surface::Chain(first, links, _) => {
            let first = build(alloc, first, frame)?;
            build_links(alloc, links, first, frame)
        }
        Surface::Apply(first, arguments, at) => {
            let first = build(alloc, first, frame)?;
            build_arguments(alloc, arguments, first, *at, frame)
        }
        Surface::Prefix(operators, part, _) => {
            let part = build(alloc, part, frame)?;
            with_prefixes(alloc, operators.as_slice(), part)
        }
        Surface::Select(part, names, at) => {
            let part = build(alloc, part, frame)?;
            with_selections(alloc, part, names.as_slice(), *at)
        }
        Surface::SeqOf(parts, at) => {
            let parts = build_parts(alloc, parts, &Frame::Hidden(1, &*frame))?;
            let count = parts.len();
            by_index(alloc, depth_in(frame), parts, count, *at)
        }
        Surface::Str(bytes, at) => {
            let parts = text_parts(alloc, bytes.as_slice(), *at)?;
            by_index(alloc, depth_in(frame), parts, bytes.len(), *at)
        }
        Surface::Ident(name, at) => build_name(alloc, *name, *at, frame),
        Surface::Number(value, at) => Ok(Phrase::Lit(Datum::Int(*value), *at)),
        Surface::Letter(byte, at) => Ok(Phrase::Lit(Datum::Char(*byte), *at)),
        Surface::Truth(value, at) => Ok(Phrase::Lit(Datum::Bool(*value), *at)),
        Surface::Skip(at) => Ok(Phrase::Skip(*at)),
    }
}

#[cycle(build)]
fn boxed(alloc: Global, tree: &Surface, frame: &Frame) -> Result<Box<Phrase>, OutOfMemory>
    requires { IsShallow (scope_of frame.now) (core (scope_of frame.now) (tree_of tree.now)) }
    ensures { IfOk result (λ p. reads p.value ≡ core (scope_of frame.now) (tree_of tree.now)) }
{
    let phrase = build(alloc, tree, frame)?;
    let made = Box::new(alloc, phrase)?;
    Ok(made)
}

// Operators between operands, grouped to the left.
#[cycle(build)]
fn build_links(
    alloc: Global,
    links: &LinkList,
    first: Phrase,
    frame: &Frame,
) -> Result<Phrase, OutOfMemory>
    requires { IsShallow (scope_of frame.now)
        (linked (scope_of frame.now) (reads first) (links_of links.now)) }
    ensures { IfOk result (λ p.
        reads p ≡ linked (scope_of frame.now) (reads first) (links_of links.now)) }
{
    let mut made = first;
    for link in links.as_slice() {
        let right = boxed(alloc, &link.item, frame)?;
        let left = Box::new(alloc, made)?;
        made = Phrase::Binary(link.op, left, right, link.at);
    }
    Ok(made)
}

// A phrase applied to arguments, grouped to the left.
#[cycle(build)]
fn build_arguments(
    alloc: Global,
    arguments: &SurfaceList,
    first: Phrase,
    at: Place,
    frame: &Frame,
) -> Result<Phrase, OutOfMemory>
    requires { IsShallow (scope_of frame.now)
        (applied (scope_of frame.now) at (reads first) (trees_of arguments.now)) }
    ensures { IfOk result (λ p.
        reads p ≡ applied (scope_of frame.now) at (reads first) (trees_of arguments.now)) }
{
    let mut made = first;
    for argument in arguments.as_slice() {
        let right = boxed(alloc, argument, frame)?;
        let left = Box::new(alloc, made)?;
        made = Phrase::App(left, right, at);
    }
    Ok(made)
}

// A merge, grouped to the left.
#[cycle(build)]
fn build_merge(
    alloc: Global,
    members: &SurfaceList,
    at: Place,
    frame: &Frame,
) -> Result<Phrase, OutOfMemory>
    requires { IsShallow (scope_of frame.now)
        (merged_all (scope_of frame.now) at (trees_of members.now)) }
    ensures { IfOk result (λ p.
        reads p ≡ merged_all (scope_of frame.now) at (trees_of members.now)) }
{
    let mut made = Phrase::Skip(at);
    let mut is_first = true;
    for member in members.as_slice() {
        let next = build(alloc, member, frame)?;
        made = if is_first {
            next
        } else {
            merge(alloc, made, next, at)?
        };
        is_first = false;
    }
    Ok(made)
}

// The fields of a `letrec`, merged in groups to the left.
#[cycle(build)]
fn build_fields(
    alloc: Global,
    defs: &DefList,
    at: Place,
    frame: &Frame,
) -> Result<Phrase, OutOfMemory>
    requires { IsShallow (scope_of frame.now)
        (all_fields (scope_of frame.now) at (defs_of defs.now)) }
    ensures { IfOk result (λ p.
        reads p ≡ all_fields (scope_of frame.now) at (defs_of defs.now)) }
{
    let mut made = Item {
        phrase: Phrase::Skip(at),
        front: at,
    };
    let mut is_first = true;
    for def in defs.as_slice() {
        let part = boxed(alloc, &def.body, frame)?;
        let next = Phrase::Field(def.name, part, def.at);
        let joined = with_field(alloc, is_first, made, next, def.at)?;
        made = joined;
        is_first = false;
    }
    Ok(made.phrase)
}

// A field beside what is merged so far, if it isn't the first. What is merged has the place of the first field.
fn with_field(
    alloc: Global,
    is_first: bool,
    merged: Item,
    next: Phrase,
    at: Place,
) -> Result<Item, OutOfMemory>
    ensures { IfOk result (λ made.
        item_of made ≡ with_field_of is_first (item_of merged) (reads next) at) }
{
    if is_first {
        return Ok(Item {
            phrase: next,
            front: at,
        });
    }
    let front = merged.front;
    let phrase = merge(alloc, merged.phrase, next, front)?;
    Ok(Item { phrase, front })
}

fn merge(alloc: Global, left: Phrase, right: Phrase, at: Place) -> Result<Phrase, OutOfMemory>
    ensures { IfOk result (λ p. reads p ≡ Tree.merge (reads left) (reads right) at) }
{
    let left = Box::new(alloc, left)?;
    let right = Box::new(alloc, right)?;
    Ok(Phrase::Merge(left, right, at))
}

// The definitions of a `let` around its body, from the innermost on.
#[cycle(build)]
fn build_lets(
    alloc: Global,
    defs: &DefList,
    body: Phrase,
    at: Place,
    frame: &Frame,
) -> Result<Phrase, OutOfMemory>
    requires { IsShallow (scope_of frame.now)
        (lets (scope_of frame.now) at (defs_of defs.now) (reads body)) }
    ensures { IfOk result (λ p.
        reads p ≡ lets (scope_of frame.now) at (defs_of defs.now) (reads body)) }
{
    let items = defs.as_slice();
    let mut made = body;
    for i in (0..items.len()).rev() {
        let outer = Frame::Hidden(i, &*frame);
        let phrase = boxed(alloc, &items[i].body, &outer)?;
        let inner = Box::new(alloc, made)?;
        made = Phrase::LetIn(depth_in(&outer), phrase, inner, at);
    }
    Ok(made)
}

// The items of a sequence.
#[cycle(build)]
fn build_items(alloc: Global, items: &SurfaceList, frame: &Frame) -> Result<Vec<Item>, OutOfMemory>
    requires { (scope_of frame.now).depth
        + items_nesting (items_of (scope_of frame.now) (trees_of items.now)) ≤ 1024 }
    ensures { IfOk result (λ made.
        map item_of made.items ≡ items_of (scope_of frame.now) (trees_of items.now)) }
{
    let mut made = Vec::new(alloc);
    for item in items.as_slice() {
        let phrase = build(alloc, item, frame)?;
        let front = place_of(item);
        made.push(Item { phrase, front })?;
    }
    Ok(made)
}

// The sequence of these items.
fn sequence(alloc: Global, items: &mut Vec<Item>, at: Place) -> Result<Phrase, OutOfMemory>
    ensures { IfOk result (λ p. reads p ≡ sequence_of at (map item_of items.old.items)) }
{
    let count = items.len();
    if count == 0 {
        return Ok(Phrase::Skip(at));
    }
    let whole = join(alloc, items, count)?;
    Ok(whole.phrase)
}

// The sequence of the last items, so many, which are taken off: its first half, and then the rest.
fn join(alloc: Global, items: &mut Vec<Item>, count: usize) -> Result<Item, OutOfMemory>
    requires some { 0 < count }
    requires enough { count ≤ vec_len items.old }
    ensures ok { IfOk result (λ made. (at : Place)
        → item_of made ≡ last_joined at count (map item_of items.old.items)) }
    ensures left { OnOk result (map item_of items.new.items
        ≡ take (vec_len items.old - count) (map item_of items.old.items)) }
{
    if count == 1 {
        return Ok(items.pop().unwrap());
    }
    let rest = join(alloc, items, count - count / 2)?;
    let first = join(alloc, items, count / 2)?;
    let made = pair(alloc, first, rest)?;
    Ok(made)
}

// One item and then another, at the place of the first.
fn pair(alloc: Global, first: Item, rest: Item) -> Result<Item, OutOfMemory>
    ensures { IfOk result (λ made. item_of made ≡ one_after (item_of first) (item_of rest)) }
{
    let front = first.front;
    let first = Box::new(alloc, first.phrase)?;
    let rest = Box::new(alloc, rest.phrase)?;
    Ok(Item {
        phrase: Phrase::Seq(first, rest, front),
        front,
    })
}

// The parts of a `seq`.
#[cycle(build)]
fn build_parts(alloc: Global, parts: &SurfaceList, frame: &Frame) -> Result<Parts, OutOfMemory>
    requires { (scope_of frame.now).depth
        + all_nesting (parts_of (scope_of frame.now) (trees_of parts.now)) ≤ 1024 }
    ensures { IfOk result (λ made.
        reads_parts made ≡ parts_of (scope_of frame.now) (trees_of parts.now)) }
{
    let mut made = Parts::new(alloc);
    for part in parts.as_slice() {
        made.push(build(alloc, part, frame)?)?;
    }
    Ok(made)
}

// The parts of a string: its characters, or for the empty one a part that faults.
#[tactic(auto, using(crate::proofs::PartLemmas::parts))]
fn text_parts(alloc: Global, bytes: &[u8], at: Place) -> Result<Parts, OutOfMemory>
    ensures { IfOk result (λ made. reads_parts made ≡ text_parts_of at bytes.now) }
{
    let mut made = Parts::new(alloc);
    if bytes.is_empty() {
        let number = Box::new(alloc, Phrase::Lit(Datum::Int(-1), at))?;
        made.push(Phrase::Unary(UnOp::Chr, number, at))?;
        return Ok(made);
    }
    for byte in bytes {
        made.push(Phrase::Lit(Datum::Char(*byte), at))?;
    }
    Ok(made)
}

// The phrase that has these parts by their index and their number as its field `len`.
fn by_index(
    alloc: Global,
    depth: u32,
    parts: Parts,
    count: usize,
    at: Place,
) -> Result<Phrase, OutOfMemory>
    requires { count < 2 ^ 63 }
    ensures { IfOk result (λ p. reads p ≡ indexed depth at count (reads_parts parts)) }
{
    let index = Box::new(alloc, Phrase::Var(0, at))?;
    let body = Box::new(alloc, Phrase::Case(index, parts, at))?;
    let mut types = TyList::new(alloc);
    types.push(Ty::Atom(Atom::Int))?;
    let items = Phrase::Lam(depth, types, body, at);
    let number = Box::new(alloc, Phrase::Lit(Datum::Int(count as i64), at))?;
    merge(alloc, items, Phrase::Field(LEN, number, at), at)
}

// A name where it is used.
fn build_name(alloc: Global, name: Name, at: Place, frame: &Frame) -> Result<Phrase, OutOfMemory>
    requires { (scope_of frame.now).depth ≤ 1024 }
    ensures { IfOk result (λ p. reads p
        ≡ used (scope_of frame.now).depth name at ((scope_of frame.now).phrases name)) }
{
    let depth = depth_in(frame);
    match find(frame, name) {
        None => Ok(Phrase::Skip(at)),
        Some(Standing::Variable(binder)) => Ok(variable(depth, binder, at)),
        Some(Standing::Member(binder)) => {
            let whole = Box::new(alloc, variable(depth, binder, at))?;
            Ok(Phrase::Sel(whole, name, at))
        }
    }
}

// The variable of the binder of that depth, under so many binders.
fn variable(depth: u32, binder: u32, at: Place) -> Phrase
    ensures { reads result ≡ variable_of depth binder at }
{
    Phrase::Var(depth.saturating_sub(binder).saturating_sub(1), at)
}

// A phrase behind prefix operators, of which the last binds first.
fn with_prefixes(alloc: Global, operators: &[Prefixed], part: Phrase) -> Result<Phrase, OutOfMemory>
    ensures { IfOk result (λ p. reads p ≡ prefixed operators.now (reads part)) }
{
    let mut made = part;
    for i in (0..operators.len()).rev() {
        let inner = Box::new(alloc, made)?;
        made = Phrase::Unary(operators[i].op, inner, operators[i].at);
    }
    Ok(made)
}

// Selections from a phrase, grouped to the left.
fn with_selections(
    alloc: Global,
    part: Phrase,
    names: &[Name],
    at: Place,
) -> Result<Phrase, OutOfMemory>
    ensures { IfOk result (λ p. reads p ≡ selected at (reads part) names.now) }
{
    let mut made = part;
    for name in names {
        let inner = Box::new(alloc, made)?;
        made = Phrase::Sel(inner, *name, at);
    }
    Ok(made)
}

// A data type that is written.
pub(crate) fn data_ty(atom: Atom) -> DataTy
    ensures { result ≡ data_of atom }
{
    match atom {
        Atom::Bool => DataTy::Bool,
        Atom::Char => DataTy::Char,
        _ => DataTy::Int,
    }
}
