//! Forms by the places where their types are written.

ghost use Rattle.std.specs.Prelude.{◌≡◌, ◌≤◌, true, IfSome, OnSome};
ghost use Rattle.fy_types.specs.Limits.{all_nesting, all_nodes, most_nesting, most_nodes, IsWithinLimits};
ghost use Rattle.fy_types.specs.Once.{are_same};
ghost use Rattle.fy_types.specs.Paths.{paths as paths_in_type};
ghost use Rattle.fy_types.specs.Reading.{plain_paths, plain_type};

use crate::form::Form;
use fy_base::{OutOfMemory, Place};
use fy_forms::{TypeError, mixed};
use fy_phrase::{Parts, Phrase};
use fy_types::{Ty, same_ty};
use std::alloc::Global;
use std::collections::BTreeMap;

/// A type with its form, which keeps the limits.
#[derive(Drop)]
struct Entry<'a> {
    ty: &'a Ty,
    form: Form,
    ghost of_type: { are_same (plain_paths form.paths) (paths_in_type (plain_type ty.now)) ≡ true },
    ghost few: { all_nodes (paths_in_type (plain_type ty.now)) ≤ most_nodes },
    ghost shallow: { all_nesting (paths_in_type (plain_type ty.now)) ≤ most_nesting },
}

/// The forms of the types that are written in a phrase. A phrase that is visited many times, once for
/// each choice of alternatives around it, finds the forms of its types here, and needn't make them.
#[derive(Drop)]
pub struct Table<'a> {
    // The types of one place stand one after another.
    entries: Vec<Entry<'a>>,
    // Where the first one of a place stands, by the place's number.
    firsts: BTreeMap<u64, usize>,
}

impl<'a> Table<'a> {
    /// The table of a phrase. A type past the limits isn't in it.
    ///
    /// # Errors
    ///
    /// Memory was wanting.
    pub fn of(alloc: Global, p: &'a Phrase) -> Result<Table<'a>, OutOfMemory> {
        let mut table = Table {
            entries: Vec::new(alloc),
            firsts: BTreeMap::new(alloc),
        };
        add_types_in(alloc, &mut table, p)?;
        Ok(table)
    }

    /// The form of a type, which is the one with the index among those that are written at the place.
    /// None, if the table has another there, or none.
    pub fn find(&self, at: Place, index: usize, ty: &Ty) -> Option<&Form>
        ensures form { IfSome result (λ form. plain_paths form.now.paths ≡ paths_in_type (plain_type ty.now)) }
        ensures within { OnSome result (IsWithinLimits (paths_in_type (plain_type ty.now))) }
    {
        let first = *self.firsts.get(&number_of(at))?;
        let place = first.checked_add(index)?;
        if place >= self.entries.len() {
            return None;
        }
        let entry = &self.entries[place];
        if same_ty(entry.ty, ty) {
            Some(&entry.form)
        } else {
            None
        }
    }

    // Notes that the types of the place come next.
    fn begin(&mut self, at: Place) -> Result<(), OutOfMemory> {
        self.firsts.insert(number_of(at), self.entries.len())?;
        Ok(())
    }

    fn add(&mut self, alloc: Global, ty: &'a Ty) -> Result<(), OutOfMemory> {
        match Form::of(alloc, ty) {
            Ok(form) => {
                self.entries.push(Entry { ty, form })?;
                Ok(())
            }
            Err(TypeError::TypeTooLarge) => Ok(()),
            Err(TypeError::OutOfMemory) => Err(OutOfMemory),
        }
    }
}

// Few places have one number, if they are not the same.
fn number_of(at: Place) -> u64 {
    mixed(u64::from(at.line), u64::from(at.col))
}

#[cycle(add_types)]
fn add_types_in<'a>(
    alloc: Global,
    table: &mut Table<'a>,
    p: &'a Phrase,
) -> Result<(), OutOfMemory> {
    match p {
        Phrase::Var(..) | Phrase::Lit(..) | Phrase::Skip(_) | Phrase::Mark(..) => Ok(()),
        Phrase::Unary(_, p, _)
        | Phrase::Field(_, p, _)
        | Phrase::Sel(p, _, _)
        | Phrase::Forever(p, _)
        | Phrase::Escape(_, p, _)
        | Phrase::Accept(_, _, p, _)
        | Phrase::Put(_, p, _)
        | Phrase::Read(p, _) => add_types_in(alloc, &mut *table, p),
        Phrase::Binary(_, p, q, _)
        | Phrase::App(p, q, _)
        | Phrase::Merge(p, q, _)
        | Phrase::LetIn(_, p, q, _)
        | Phrase::Seq(p, q, _)
        | Phrase::Assign(p, q, _)
        | Phrase::WhileDo(p, q, _)
        | Phrase::New(_, _, p, q, _)
        | Phrase::Cells(_, p, q, _) => {
            add_types_in(alloc, &mut *table, p)?;
            add_types_in(alloc, &mut *table, q)
        }
        Phrase::Cond(b, p, q, _) => {
            add_types_in(alloc, &mut *table, b)?;
            add_types_in(alloc, &mut *table, p)?;
            add_types_in(alloc, &mut *table, q)
        }
        Phrase::Case(e, parts, _) => {
            add_types_in(alloc, &mut *table, e)?;
            add_types_in_parts(alloc, &mut *table, parts)
        }
        Phrase::Lam(_, types, p, at) => {
            table.begin(*at)?;
            for ty in types.as_slice() {
                table.add(alloc, ty)?;
            }
            add_types_in(alloc, &mut *table, p)
        }
        Phrase::Rec(_, ty, p, at) => {
            table.begin(*at)?;
            table.add(alloc, ty)?;
            add_types_in(alloc, &mut *table, p)
        }
    }
}

#[cycle(add_types)]
fn add_types_in_parts<'a>(
    alloc: Global,
    table: &mut Table<'a>,
    parts: &'a Parts,
) -> Result<(), OutOfMemory> {
    for part in parts.as_slice() {
        add_types_in(alloc, &mut *table, part)?;
    }
    Ok(())
}
