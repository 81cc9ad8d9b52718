//! The names that binders are shown with.

ghost use Rattle.std.specs.Prelude.{◌≡◌, ◌∷◌, [], map, IfOk};
ghost use Rattle.fy_types.specs.Reading.{plain_type};
ghost use Rattle.fy_phrase.specs.Reads.{reads};
ghost use Rattle.fy_phrase.specs.Tree.{let_in};
ghost use Rattle.fy_show.specs.Fresh.{
  all_fresh as all_fresh_of,
  bound as bound_of,
  fields_behind,
  fresh as fresh_of,
  is_taken as is_taken_of,
  like as like_of,
  most_names as most_names_of,
  one_fresh as one_fresh_of,
};
ghost use Rattle.fy_show.specs.Reading.{declared_read, entry_read, fields_read, known_read, scope_read};

use crate::binders::{BinderForm, name_of_binder};
use crate::entries::{EntryText, FieldText};
use crate::fields::{DeclaredField, declared_fields};
use crate::uses::is_taken;
use crate::view::View;
use fy_base::{OutOfMemory, Place};
use fy_phrase::Phrase;
use fy_short::{name_bytes, put, put_number};
use fy_types::Ty;
use std::alloc::Global;

/// What the phrase's own binder is shown as, if it is of a form that binds: by the source's name where that captures no
/// use, else by the first of x_1, x_2, .. that captures none.
pub fn bound(view: &View<'_, '_>, p: &Phrase) -> Result<EntryText, OutOfMemory>
    ensures { IfOk result (λ e. entry_read e
        ≡ bound_of (known_read view.now.known.now) (scope_read view.now.scope.now) (reads p.now)) }
{
    match p {
        Phrase::Lam(d, _, body, at) => one_fresh(view, BinderForm::Lam, *at, *d, body),
        Phrase::LetIn(d, p, body, at) => let_fresh(view, *at, *d, p, body),
        Phrase::Rec(_, ty, body, _) => all_fresh(view, ty, &[&**body]),
        Phrase::New(d, _, _, body, at) => one_fresh(view, BinderForm::New, *at, *d, body),
        Phrase::Cells(d, _, body, at) => one_fresh(view, BinderForm::Cells, *at, *d, body),
        Phrase::Escape(d, body, at) => one_fresh(view, BinderForm::Escape, *at, *d, body),
        Phrase::Accept(d, _, body, at) => one_fresh(view, BinderForm::Accept, *at, *d, body),
        Phrase::Var(..)
        | Phrase::Lit(..)
        | Phrase::Unary(..)
        | Phrase::Binary(..)
        | Phrase::Cond(..)
        | Phrase::Case(..)
        | Phrase::App(..)
        | Phrase::Field(..)
        | Phrase::Sel(..)
        | Phrase::Merge(..)
        | Phrase::Skip(_)
        | Phrase::Seq(..)
        | Phrase::Assign(..)
        | Phrase::WhileDo(..)
        | Phrase::Forever(..)
        | Phrase::Put(..)
        | Phrase::Read(..)
        | Phrase::Mark(..) => Ok(EntryText::Unnamed),
    }
}

/// What the binder of a definition is shown as.
pub(crate) fn let_fresh(
    view: &View<'_, '_>,
    at: Place,
    depth: u32,
    p: &Phrase,
    body: &Phrase,
) -> Result<EntryText, OutOfMemory>
    ensures { IfOk result (λ e. entry_read e ≡ bound_of (known_read view.now.known.now)
        (scope_read view.now.scope.now) (let_in depth (reads p.now) (reads body.now) at)) }
{
    match p {
        Phrase::Rec(_, ty, definitions, _) => all_fresh(view, ty, &[&**definitions, body]),
        _ => one_fresh(view, BinderForm::Let, at, depth, body),
    }
}

/// A binder's name, from that of the source.
pub(crate) fn one_fresh(
    view: &View<'_, '_>,
    form: BinderForm,
    at: Place,
    depth: u32,
    body: &Phrase,
) -> Result<EntryText, OutOfMemory>
    ensures { IfOk result (λ e. entry_read e ≡ one_fresh_of (known_read view.now.known.now)
        (scope_read view.now.scope.now) form at depth (reads body.now ∷ [])) }
{
    let base = name_of_binder(view.known.names, view.known.binders, form, at, depth);
    let name = fresh(view, &[body], &[], base)?;
    Ok(EntryText::One(name))
}

/// The names of the fields of a declared type, whose definitions and whose body are these.
pub(crate) fn all_fresh(
    view: &View<'_, '_>,
    ty: &Ty,
    bodies: &[&Phrase],
) -> Result<EntryText, OutOfMemory>
    ensures { IfOk result (λ e. entry_read e ≡ all_fresh_of (known_read view.now.known.now)
        (scope_read view.now.scope.now) (plain_type ty.now) (map (λ p. reads p.now) bodies.now)) }
{
    let declared = declared_fields(view.alloc, ty)?;
    let fields = fresh_fields(view, bodies, &declared)?;
    Ok(EntryText::All(fields))
}

// Each field's name, fresh among what is used and the names before it.
fn fresh_fields(
    view: &View<'_, '_>,
    bodies: &[&Phrase],
    declared: &[DeclaredField<'_>],
) -> Result<Vec<FieldText>, OutOfMemory>
    ensures { IfOk result (λ v. fields_read v.items ≡ fields_behind (known_read view.now.known.now)
        (scope_read view.now.scope.now) (map (λ p. reads p.now) bodies.now) [] (declared_read declared.now)) }
{
    let mut done: Vec<FieldText> = Vec::new(view.alloc);
    for field in declared {
        let base = name_bytes(view.known.names, field.field);
        let text = fresh(view, bodies, &done, base)?;
        done.push(FieldText {
            field: field.field,
            text,
        })?;
    }
    Ok(done)
}

// The first of the name, name_1, name_2, .. that isn't taken.
fn fresh(
    view: &View<'_, '_>,
    bodies: &[&Phrase],
    done: &[FieldText],
    base: &[u8],
) -> Result<Vec<u8>, OutOfMemory>
    ensures { IfOk result (λ v. v.items ≡ fresh_of (is_taken_of (known_read view.now.known.now)
        (scope_read view.now.scope.now) (map (λ p. reads p.now) bodies.now) (fields_read done.now)) base.now) }
{
    let most = most_names();
    for number in 0..most {
        let name = like(view.alloc, base, number)?;
        if !is_taken(view.known, view.scope, bodies, done, &name) {
            return Ok(name);
        }
    }
    like(view.alloc, base, most)
}

// More names than any phrase uses.
#[tactic(auto, unfolding(crate::specs::Fresh::most_names))]
fn most_names() -> u32
    ensures { result ≡ most_names_of }
{
    4294967295
}

// The name, and then name_1, name_2, ..
fn like(alloc: Global, base: &[u8], number: u32) -> Result<Vec<u8>, OutOfMemory>
    ensures { IfOk result (λ v. v.items ≡ like_of base.now number) }
{
    let mut name = Vec::new(alloc);
    put(&mut name, base)?;
    if number != 0 {
        put(&mut name, b"_")?;
        put_number(&mut name, number as usize)?;
    }
    Ok(name)
}
