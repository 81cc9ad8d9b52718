//! The names that a source gives its binders.

ghost use Rattle.std.specs.Prelude.{◌≡◌, [], ◌∷◌, ◌++◌, IfOk, OnOk, Some, map};
ghost use Rattle.fy_syntax.specs.Reading.{def_of, defs_from, defs_of, links_of, tree_of, trees_of};
ghost use Rattle.fy_show.specs.Binders.{
  all_binders,
  binder as binder_of,
  binder_text,
  binders as binders_of,
  binders_in_defs,
  binders_in_fields,
  binders_in_links,
  defined as defined_of,
  depth_behind as depth_behind_of,
  inside as inside_of,
  is_binder as is_binder_of,
  is_place as is_place_of,
  program_binders as program_binders_of,
  source_name,
};

use fy_base::{OutOfMemory, Place};
use fy_short::name_bytes;
use fy_syntax::{Def, DefList, LinkList, Surface, SurfaceList};
use fy_types::{Name, Names};
use std::alloc::Global;

/// The forms whose binders have names. The fields of a `letrec` have theirs in the core phrase.
#[derive(Clone, Copy, PartialEq, Eq, Debug)]
pub enum BinderForm {
    Lam,
    Let,
    New,
    Cells,
    Escape,
    Accept,
}

/// A binder of a source, known by its form, its place and its depth, and its name. The index of a sequence has none.
#[derive(Clone, Copy, PartialEq, Eq, Debug)]
pub struct Binder {
    pub form: BinderForm,
    pub at: Place,
    pub depth: u32,
    pub name: Option<Name>,
}

/// The binders of a program, whose first token stands at that place: those of the prelude, and then those of the text.
pub fn program_binders(alloc: Global, at: Place, tree: &Surface) -> Result<Vec<Binder>, OutOfMemory>
    ensures { IfOk result (λ made. made.items ≡ program_binders_of at (tree_of tree.now)) }
{
    let mut list = Vec::new(alloc);
    add(&mut list, BinderForm::Let, at, 0, Some(1))?;
    add(&mut list, BinderForm::Let, at, 1, Some(2))?;
    add(&mut list, BinderForm::Let, at, 2, Some(3))?;
    add(&mut list, BinderForm::Let, at, 3, Some(4))?;
    add(&mut list, BinderForm::Let, at, 4, Some(11))?;
    add_binders(&mut list, 5, tree)?;
    Ok(list)
}

fn add(
    list: &mut Vec<Binder>,
    form: BinderForm,
    at: Place,
    depth: u32,
    name: Option<Name>,
) -> Result<(), OutOfMemory>
    ensures { OnOk result (list.new.items ≡ list.old.items ++ binder_of form at depth name ∷ []) }
{
    list.push(Binder {
        form,
        at,
        depth,
        name,
    })?;
    Ok(())
}

// The binders of a phrase under so many others. The greatest depth stands for all greater ones.
#[cycle(binders)]
fn add_binders(list: &mut Vec<Binder>, depth: u32, tree: &Surface) -> Result<(), OutOfMemory>
    ensures { OnOk result (list.new.items ≡ list.old.items ++ binders_of depth (tree_of tree.now)) }
{
    match tree {
        Surface::Merge(members, _) => add_all(list, depth, members),
        Surface::Sequence(items, _) => add_all(list, depth, items),
        Surface::Lam(name, _, body, at) => {
            add_inside(list, BinderForm::Lam, *at, depth, *name, body)
        }
        Surface::Let(defs, body, at) => add_let(list, *at, depth, defs, body),
        Surface::Letrec(_, defs, _, body, _) => {
            let inside = depth.saturating_add(1);
            add_fields(list, inside, defs)?;
            add_binders(list, inside, body)
        }
        Surface::New(name, _, first, body, at) => {
            add(list, BinderForm::New, *at, depth, Some(*name))?;
            add_binders(list, depth, first)?;
            add_binders(list, depth.saturating_add(1), body)
        }
        Surface::Escape(name, body, at) => {
            add_inside(list, BinderForm::Escape, *at, depth, *name, body)
        }
        Surface::Accept(name, _, body, at) => {
            add_inside(list, BinderForm::Accept, *at, depth, *name, body)
        }
        Surface::If(test, first, second, _) => {
            add_binders(list, depth, test)?;
            add_binders(list, depth, first)?;
            add_binders(list, depth, second)
        }
        Surface::WhileDo(p, q, _) | Surface::Assign(p, _, q, _) => {
            add_binders(list, depth, p)?;
            add_binders(list, depth, q)
        }
        Surface::Lettype(_, _, part, _)
        | Surface::Loop(part, _)
        | Surface::Field(_, part, _)
        | Surface::Prefix(_, part, _)
        | Surface::Select(part, _, _)
        | Surface::Group(part, _) => add_binders(list, depth, part),
        Surface::Chain(first, links, _) => {
            add_binders(list, depth, first)?;
            add_links(list, depth, links)
        }
        Surface::Apply(first, arguments, _) => {
            add_binders(list, depth, first)?;
            add_all(list, depth, arguments)
        }
        Surface::Ident(..)
        | Surface::Number(..)
        | Surface::Letter(..)
        | Surface::Truth(..)
        | Surface::Skip(_) => Ok(()),
        Surface::Str(_, at) => add(list, BinderForm::Lam, *at, depth, None),
        Surface::SeqOf(parts, at) => {
            add(list, BinderForm::Lam, *at, depth, None)?;
            add_all(list, depth.saturating_add(1), parts)
        }
    }
}

// A binder around the whole body of a form.
#[cycle(binders)]
fn add_inside(
    list: &mut Vec<Binder>,
    form: BinderForm,
    at: Place,
    depth: u32,
    name: Name,
    body: &Surface,
) -> Result<(), OutOfMemory>
    ensures { OnOk result (list.new.items
        ≡ list.old.items ++ binder_of form at depth (Some name) ∷ binders_of (inside_of depth) (tree_of body.now)) }
{
    add(list, form, at, depth, Some(name))?;
    add_binders(list, depth.saturating_add(1), body)
}

#[cycle(binders)]
fn add_all(list: &mut Vec<Binder>, depth: u32, trees: &SurfaceList) -> Result<(), OutOfMemory>
    ensures { OnOk result (list.new.items ≡ list.old.items ++ all_binders depth (trees_of trees.now)) }
{
    for tree in trees.as_slice() {
        add_binders(list, depth, tree)?;
    }
    Ok(())
}

// The binders of a `let`, those in its definitions, and those in its body.
#[cycle(binders)]
fn add_let(
    list: &mut Vec<Binder>,
    at: Place,
    depth: u32,
    defs: &DefList,
    body: &Surface,
) -> Result<(), OutOfMemory>
    ensures { OnOk result (list.new.items ≡ list.old.items
        ++ defined_of at depth (defs_of defs.now) ++ binders_in_defs depth (defs_of defs.now)
        ++ binders_of (depth_behind_of depth (defs_of defs.now)) (tree_of body.now)) }
{
    add_defined(list, at, depth, defs.as_slice())?;
    let behind = add_definitions(list, depth, defs)?;
    add_binders(list, behind, body)
}

fn add_defined(
    list: &mut Vec<Binder>,
    at: Place,
    depth: u32,
    defs: &[Def],
) -> Result<(), OutOfMemory>
    ensures { OnOk result (list.new.items
        ≡ list.old.items ++ defined_of at depth (defs_from (map def_of defs.now))) }
{
    let mut here = depth;
    for def in defs {
        add(list, BinderForm::Let, at, here, Some(def.name))?;
        here = here.saturating_add(1);
    }
    Ok(())
}

// The binders in the definitions of a `let`, and the depth behind them.
#[cycle(binders)]
fn add_definitions(list: &mut Vec<Binder>, depth: u32, defs: &DefList) -> Result<u32, OutOfMemory>
    ensures binders { OnOk result (list.new.items ≡ list.old.items ++ binders_in_defs depth (defs_of defs.now)) }
    ensures depth { IfOk result (λ d. d ≡ depth_behind_of depth (defs_of defs.now)) }
{
    let mut here = depth;
    for def in defs.as_slice() {
        add_binders(list, here, &def.body)?;
        here = here.saturating_add(1);
    }
    Ok(here)
}

#[cycle(binders)]
fn add_fields(list: &mut Vec<Binder>, depth: u32, defs: &DefList) -> Result<(), OutOfMemory>
    ensures { OnOk result (list.new.items ≡ list.old.items ++ binders_in_fields depth (defs_of defs.now)) }
{
    for def in defs.as_slice() {
        add_binders(list, depth, &def.body)?;
    }
    Ok(())
}

#[cycle(binders)]
fn add_links(list: &mut Vec<Binder>, depth: u32, links: &LinkList) -> Result<(), OutOfMemory>
    ensures { OnOk result (list.new.items ≡ list.old.items ++ binders_in_links depth (links_of links.now)) }
{
    for link in links.as_slice() {
        add_binders(list, depth, &link.item)?;
    }
    Ok(())
}

fn is_place(a: Place, b: Place) -> bool
    ensures { result ≡ is_place_of a b }
{
    a.line == b.line && a.col == b.col
}

fn is_binder(binder: &Binder, form: BinderForm, at: Place, depth: u32) -> bool
    ensures { result ≡ is_binder_of form at depth binder.now }
{
    binder.form == form && binder.depth == depth && is_place(binder.at, at)
}

/// The name that the source gives the binder, and `x` where it has none.
pub(crate) fn name_of_binder<'a>(
    names: &'a Names,
    binders: &[Binder],
    form: BinderForm,
    at: Place,
    depth: u32,
) -> &'a [u8]
    ensures { result.now ≡ source_name names.now binders.now form at depth }
{
    for binder in binders {
        if is_binder(binder, form, at, depth) {
            return text_of_binder(names, binder.name);
        }
    }
    b"x"
}

fn text_of_binder(names: &Names, name: Option<Name>) -> &[u8]
    ensures { result.now ≡ binder_text names.now name }
{
    match name {
        Some(name) => name_bytes(names, name),
        None => b"n",
    }
}
