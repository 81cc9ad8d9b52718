//! A closed phrase copied in for a variable.

ghost use Rattle.std.specs.Prelude.{◌≡◌, ℕ, IfOk};
ghost use Rattle.fy_phrase.specs.Reads.{reads, reads_parts};
ghost use Rattle.fy_phrase.specs.Closing.{all_closed_at, closed_at, closed_with};
ghost use Rattle.fy_phrase.specs.Sizes.{greatest_u64};

use crate::copying::{copy_phrase, copy_types};
use crate::phrase::{Parts, Phrase};
use fy_base::OutOfMemory;
use fy_types::copy_ty;
use std::alloc::Global;

/// The body with the actual phrase copied in for variable 0; the depths of binders stay. The actual
/// phrase is meant to be closed: its own variables aren't renumbered.
pub fn close_with(alloc: Global, body: &Phrase, actual: &Phrase) -> Result<Phrase, OutOfMemory>
    ensures { IfOk result (λ made. reads made ≡ closed_with (reads body.now) (reads actual.now)) }
{
    close_at(alloc, body, 0, actual)
}

// The same for a phrase that stands `level` binders below the variable. The greatest level stands for
// all greater ones: no variable has such a number.
#[cycle(close_at)]
fn close_at(
    alloc: Global,
    body: &Phrase,
    level: u64,
    actual: &Phrase,
) -> Result<Phrase, OutOfMemory>
    ensures { IfOk result (λ made. (n : ℕ) → level ≡ greatest_u64 n
        → reads made ≡ closed_at n (reads actual.now) (reads body.now)) }
{
    match body {
        Phrase::Var(k, at) => {
            let number = u64::from(*k);
            if number < level {
                Ok(Phrase::Var(*k, *at))
            } else if number == level {
                copy_phrase(alloc, actual)
            } else {
                Ok(Phrase::Var(*k - 1, *at))
            }
        }
        Phrase::Lit(v, at) => Ok(Phrase::Lit(*v, *at)),
        Phrase::Unary(op, p, at) => {
            let p = close_boxed(alloc, p, level, actual)?;
            Ok(Phrase::Unary(*op, p, *at))
        }
        Phrase::Binary(op, p, q, at) => {
            let p = close_boxed(alloc, p, level, actual)?;
            let q = close_boxed(alloc, q, level, actual)?;
            Ok(Phrase::Binary(*op, p, q, *at))
        }
        Phrase::Cond(b, p, q, at) => {
            let b = close_boxed(alloc, b, level, actual)?;
            let p = close_boxed(alloc, p, level, actual)?;
            let q = close_boxed(alloc, q, level, actual)?;
            Ok(Phrase::Cond(b, p, q, *at))
        }
        Phrase::Case(e, parts, at) => {
            let e = close_boxed(alloc, e, level, actual)?;
            let parts = close_parts(alloc, parts, level, actual)?;
            Ok(Phrase::Case(e, parts, *at))
        }
        Phrase::Lam(d, alternatives, body, at) => {
            let alternatives = copy_types(alloc, alternatives)?;
            let body = close_boxed(alloc, body, level.saturating_add(1), actual)?;
            Ok(Phrase::Lam(*d, alternatives, body, *at))
        }
        Phrase::App(p, q, at) => {
            let p = close_boxed(alloc, p, level, actual)?;
            let q = close_boxed(alloc, q, level, actual)?;
            Ok(Phrase::App(p, q, *at))
        }
        Phrase::Field(i, p, at) => {
            let p = close_boxed(alloc, p, level, actual)?;
            Ok(Phrase::Field(*i, p, *at))
        }
        Phrase::Sel(p, i, at) => {
            let p = close_boxed(alloc, p, level, actual)?;
            Ok(Phrase::Sel(p, *i, *at))
        }
        Phrase::Merge(p, q, at) => {
            let p = close_boxed(alloc, p, level, actual)?;
            let q = close_boxed(alloc, q, level, actual)?;
            Ok(Phrase::Merge(p, q, *at))
        }
        Phrase::LetIn(d, p, body, at) => {
            let p = close_boxed(alloc, p, level, actual)?;
            let body = close_boxed(alloc, body, level.saturating_add(1), actual)?;
            Ok(Phrase::LetIn(*d, p, body, *at))
        }
        Phrase::Rec(d, ty, body, at) => {
            let ty = copy_ty(alloc, ty)?;
            let body = close_boxed(alloc, body, level.saturating_add(1), actual)?;
            Ok(Phrase::Rec(*d, ty, body, *at))
        }
        Phrase::Skip(at) => Ok(Phrase::Skip(*at)),
        Phrase::Seq(p, q, at) => {
            let p = close_boxed(alloc, p, level, actual)?;
            let q = close_boxed(alloc, q, level, actual)?;
            Ok(Phrase::Seq(p, q, *at))
        }
        Phrase::Assign(p, q, at) => {
            let p = close_boxed(alloc, p, level, actual)?;
            let q = close_boxed(alloc, q, level, actual)?;
            Ok(Phrase::Assign(p, q, *at))
        }
        Phrase::WhileDo(b, c, at) => {
            let b = close_boxed(alloc, b, level, actual)?;
            let c = close_boxed(alloc, c, level, actual)?;
            Ok(Phrase::WhileDo(b, c, *at))
        }
        Phrase::Forever(c, at) => {
            let c = close_boxed(alloc, c, level, actual)?;
            Ok(Phrase::Forever(c, *at))
        }
        Phrase::New(d, ty, e, body, at) => {
            let e = close_boxed(alloc, e, level, actual)?;
            let body = close_boxed(alloc, body, level.saturating_add(1), actual)?;
            Ok(Phrase::New(*d, *ty, e, body, *at))
        }
        Phrase::Cells(d, e, body, at) => {
            let e = close_boxed(alloc, e, level, actual)?;
            let body = close_boxed(alloc, body, level.saturating_add(1), actual)?;
            Ok(Phrase::Cells(*d, e, body, *at))
        }
        Phrase::Escape(d, body, at) => {
            let body = close_boxed(alloc, body, level.saturating_add(1), actual)?;
            Ok(Phrase::Escape(*d, body, *at))
        }
        Phrase::Accept(d, ty, body, at) => {
            let body = close_boxed(alloc, body, level.saturating_add(1), actual)?;
            Ok(Phrase::Accept(*d, *ty, body, *at))
        }
        Phrase::Put(kind, p, at) => {
            let p = close_boxed(alloc, p, level, actual)?;
            Ok(Phrase::Put(*kind, p, *at))
        }
        Phrase::Read(p, at) => {
            let p = close_boxed(alloc, p, level, actual)?;
            Ok(Phrase::Read(p, *at))
        }
        Phrase::Mark(m, at) => Ok(Phrase::Mark(*m, *at)),
    }
}

#[cycle(close_at)]
fn close_boxed(
    alloc: Global,
    body: &Phrase,
    level: u64,
    actual: &Phrase,
) -> Result<Box<Phrase>, OutOfMemory>
    ensures { IfOk result (λ made. (n : ℕ) → level ≡ greatest_u64 n
        → reads made.value ≡ closed_at n (reads actual.now) (reads body.now)) }
{
    let made = close_at(alloc, body, level, actual)?;
    Ok(Box::new(alloc, made)?)
}

#[cycle(close_at)]
fn close_parts(
    alloc: Global,
    parts: &Parts,
    level: u64,
    actual: &Phrase,
) -> Result<Parts, OutOfMemory>
    ensures { IfOk result (λ made. (n : ℕ) → level ≡ greatest_u64 n
        → reads_parts made ≡ all_closed_at n (reads actual.now) (reads_parts parts.now)) }
{
    let mut made = Parts::new(alloc);
    for part in parts.as_slice() {
        made.push(close_at(alloc, part, level, actual)?)?;
    }
    Ok(made)
}
