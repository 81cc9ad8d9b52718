//! Copies of phrases.

ghost use Rattle.std.specs.Prelude.{◌≡◌, IfOk};
ghost use Rattle.fy_types.specs.Reading.{plain_types};
ghost use Rattle.fy_phrase.specs.Reads.{reads, reads_parts};

use crate::phrase::{Parts, Phrase};
use fy_base::OutOfMemory;
use fy_types::{TyList, copy_ty};
use std::alloc::Global;

/// A phrase equal to the given one.
#[cycle(copy_phrase)]
pub fn copy_phrase(alloc: Global, p: &Phrase) -> Result<Phrase, OutOfMemory>
    ensures { IfOk result (λ made. reads made ≡ reads p.now) }
{
    match p {
        Phrase::Var(k, at) => Ok(Phrase::Var(*k, *at)),
        Phrase::Lit(v, at) => Ok(Phrase::Lit(*v, *at)),
        Phrase::Unary(op, p, at) => Ok(Phrase::Unary(*op, copy_boxed(alloc, p)?, *at)),
        Phrase::Binary(op, p, q, at) => {
            let p = copy_boxed(alloc, p)?;
            Ok(Phrase::Binary(*op, p, copy_boxed(alloc, q)?, *at))
        }
        Phrase::Cond(b, p, q, at) => {
            let b = copy_boxed(alloc, b)?;
            let p = copy_boxed(alloc, p)?;
            Ok(Phrase::Cond(b, p, copy_boxed(alloc, q)?, *at))
        }
        Phrase::Case(e, parts, at) => {
            let e = copy_boxed(alloc, e)?;
            Ok(Phrase::Case(e, copy_parts(alloc, parts)?, *at))
        }
        Phrase::Lam(d, alternatives, body, at) => {
            let alternatives = copy_types(alloc, alternatives)?;
            Ok(Phrase::Lam(*d, alternatives, copy_boxed(alloc, body)?, *at))
        }
        Phrase::App(p, q, at) => {
            let p = copy_boxed(alloc, p)?;
            Ok(Phrase::App(p, copy_boxed(alloc, q)?, *at))
        }
        Phrase::Field(i, p, at) => Ok(Phrase::Field(*i, copy_boxed(alloc, p)?, *at)),
        Phrase::Sel(p, i, at) => Ok(Phrase::Sel(copy_boxed(alloc, p)?, *i, *at)),
        Phrase::Merge(p, q, at) => {
            let p = copy_boxed(alloc, p)?;
            Ok(Phrase::Merge(p, copy_boxed(alloc, q)?, *at))
        }
        Phrase::LetIn(d, p, body, at) => {
            let p = copy_boxed(alloc, p)?;
            Ok(Phrase::LetIn(*d, p, copy_boxed(alloc, body)?, *at))
        }
        Phrase::Rec(d, ty, body, at) => {
            let ty = copy_ty(alloc, ty)?;
            Ok(Phrase::Rec(*d, ty, copy_boxed(alloc, body)?, *at))
        }
        Phrase::Skip(at) => Ok(Phrase::Skip(*at)),
        Phrase::Seq(p, q, at) => {
            let p = copy_boxed(alloc, p)?;
            Ok(Phrase::Seq(p, copy_boxed(alloc, q)?, *at))
        }
        Phrase::Assign(p, q, at) => {
            let p = copy_boxed(alloc, p)?;
            Ok(Phrase::Assign(p, copy_boxed(alloc, q)?, *at))
        }
        Phrase::WhileDo(b, c, at) => {
            let b = copy_boxed(alloc, b)?;
            Ok(Phrase::WhileDo(b, copy_boxed(alloc, c)?, *at))
        }
        Phrase::Forever(c, at) => Ok(Phrase::Forever(copy_boxed(alloc, c)?, *at)),
        Phrase::New(d, ty, e, body, at) => {
            let e = copy_boxed(alloc, e)?;
            Ok(Phrase::New(*d, *ty, e, copy_boxed(alloc, body)?, *at))
        }
        Phrase::Cells(d, e, body, at) => {
            let e = copy_boxed(alloc, e)?;
            Ok(Phrase::Cells(*d, e, copy_boxed(alloc, body)?, *at))
        }
        Phrase::Escape(d, body, at) => Ok(Phrase::Escape(*d, copy_boxed(alloc, body)?, *at)),
        Phrase::Accept(d, ty, body, at) => {
            Ok(Phrase::Accept(*d, *ty, copy_boxed(alloc, body)?, *at))
        }
        Phrase::Put(kind, p, at) => Ok(Phrase::Put(*kind, copy_boxed(alloc, p)?, *at)),
        Phrase::Read(p, at) => Ok(Phrase::Read(copy_boxed(alloc, p)?, *at)),
        Phrase::Mark(m, at) => Ok(Phrase::Mark(*m, *at)),
    }
}

#[cycle(copy_phrase)]
fn copy_boxed(alloc: Global, p: &Phrase) -> Result<Box<Phrase>, OutOfMemory>
    ensures { IfOk result (λ made. reads made.value ≡ reads p.now) }
{
    let made = copy_phrase(alloc, p)?;
    Ok(Box::new(alloc, made)?)
}

#[cycle(copy_phrase)]
#[tactic(auto, using(crate::proofs::ReadLemmas::readings))]
fn copy_parts(alloc: Global, parts: &Parts) -> Result<Parts, OutOfMemory>
    ensures { IfOk result (λ made. reads_parts made ≡ reads_parts parts.now) }
{
    let mut made = Parts::new(alloc);
    for part in parts.as_slice() {
        made.push(copy_phrase(alloc, part)?)?;
    }
    Ok(made)
}

/// A list of types equal to the given one.
#[tactic(auto, using(crate::proofs::ReadLemmas::readings))]
pub(crate) fn copy_types(alloc: Global, types: &TyList) -> Result<TyList, OutOfMemory>
    ensures { IfOk result (λ made. plain_types made ≡ plain_types types.now) }
{
    let mut made = TyList::new(alloc);
    for ty in types.as_slice() {
        made.push(copy_ty(alloc, ty)?)?;
    }
    Ok(made)
}
