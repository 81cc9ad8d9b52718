//! The direct parts of a phrase that its typing rule has premises about, each with what is bound over it.

ghost use Rattle.std.specs.Prelude.{◌≡◌, ◌∷◌, IfOk, map, option_map, replicate};
ghost use Rattle.fy_phrase.specs.Reads.{reads, reads_parts};
ghost use Rattle.fy_phrase.specs.Premises.{nothing, of_parts, premise_shown, premises};

use crate::phrase::{DataTy, Parts, Phrase};
use fy_base::OutOfMemory;
use fy_types::Ty;
use std::alloc::Global;

/// The type of a variable, by its binder.
#[derive(Clone, Copy, Drop)]
pub enum Given<'a> {
    /// The type that is written.
    Type(&'a Ty),
    /// The type of a cell.
    Cell(DataTy),
    /// The type of a sequence of cells.
    Sequence,
    /// A data type.
    Value(DataTy),
    /// The type of what leaves an escape.
    Exit,
}

/// What is bound over a premise.
#[derive(Clone, Copy, Drop)]
pub enum Binds<'a> {
    Nothing,
    /// A variable of the first premise's type.
    First,
    Given(Given<'a>),
}

/// What a premise of a rule is about.
#[derive(Drop)]
pub struct Premise<'a> {
    pub binds: Binds<'a>,
    pub part: &'a Phrase,
}

impl<'a> Premise<'a> {
    /// A premise on the part alone.
    pub fn plain(part: &'a Phrase) -> Premise<'a>
        ensures { (result.binds ≡ Binds.Nothing) × (reads result.part.now ≡ reads part.now) }
    {
        Premise {
            binds: Binds::Nothing,
            part,
        }
    }

    // One on the part under a variable of the first premise's type.
    fn behind_first(part: &'a Phrase) -> Premise<'a>
        ensures { (result.binds ≡ Binds.First) × (reads result.part.now ≡ reads part.now) }
    {
        Premise {
            binds: Binds::First,
            part,
        }
    }

    // One on the part under a variable of the binder's type.
    fn behind_given(given: Given<'a>, part: &'a Phrase) -> Premise<'a>
        ensures { (result.binds ≡ Binds.Given given.entry) × (reads result.part.now ≡ reads part.now) }
    {
        Premise {
            binds: Binds::Given(given),
            part,
        }
    }
}

/// The premises of a phrase's rule, in order, if it has a rule of its own.
pub fn premises_of<'a>(
    alloc: Global,
    p: &'a Phrase,
) -> Result<Option<Vec<Premise<'a>>>, OutOfMemory>
    ensures { IfOk result (λ o. option_map (λ v. map premise_shown v.items) o ≡ premises (reads p.now)) }
{
    match p {
        Phrase::Lam(..) | Phrase::Merge(..) | Phrase::Mark(..) => Ok(None),
        Phrase::Var(..) => Ok(Some(Vec::new(alloc))),
        Phrase::Lit(..) => Ok(Some(Vec::new(alloc))),
        Phrase::Skip(_) => Ok(Some(Vec::new(alloc))),
        Phrase::Unary(_, p, _)
        | Phrase::Field(_, p, _)
        | Phrase::Sel(p, _, _)
        | Phrase::Forever(p, _)
        | Phrase::Put(_, p, _)
        | Phrase::Read(p, _) => Ok(Some(Vec::from_array(alloc, [Premise::plain(p)])?)),
        Phrase::Binary(_, p, q, _)
        | Phrase::App(p, q, _)
        | Phrase::Seq(p, q, _)
        | Phrase::Assign(p, q, _)
        | Phrase::WhileDo(p, q, _) => Ok(Some(Vec::from_array(
            alloc,
            [Premise::plain(p), Premise::plain(q)],
        )?)),
        Phrase::Cond(b, p, q, _) => {
            Ok(Some(Vec::from_array(
                alloc,
                [Premise::plain(b), Premise::plain(p), Premise::plain(q)],
            )?))
        }
        Phrase::Case(e, parts, _) => Ok(Some(case_premises(alloc, e, parts)?)),
        Phrase::LetIn(_, p, body, _) => {
            Ok(Some(Vec::from_array(alloc, [Premise::plain(p), Premise::behind_first(body)])?))
        }
        Phrase::Rec(_, ty, body, _) => Ok(Some(Vec::from_array(
            alloc,
            [Premise::behind_given(Given::Type(ty), body)],
        )?)),
        Phrase::New(_, ty, e, body, _) => Ok(Some(Vec::from_array(
            alloc,
            [
                Premise::plain(e),
                Premise::behind_given(Given::Cell(*ty), body),
            ],
        )?)),
        Phrase::Cells(_, e, body, _) => Ok(Some(Vec::from_array(
            alloc,
            [
                Premise::plain(e),
                Premise::behind_given(Given::Sequence, body),
            ],
        )?)),
        Phrase::Escape(_, body, _) => Ok(Some(Vec::from_array(
            alloc,
            [Premise::behind_given(Given::Exit, body)],
        )?)),
        Phrase::Accept(_, ty, body, _) => Ok(Some(Vec::from_array(
            alloc,
            [Premise::behind_given(Given::Value(*ty), body)],
        )?)),
    }
}

// The premises on an index and on each part.
fn case_premises<'a>(
    alloc: Global,
    e: &'a Phrase,
    parts: &'a Parts,
) -> Result<Vec<Premise<'a>>, OutOfMemory>
    ensures { IfOk result (λ v. map premise_shown v.items ≡ (nothing, reads e.now) ∷ of_parts (reads_parts parts.now)) }
{
    let mut all = Vec::new(alloc);
    all.push(Premise::plain(e))?;
    for part in parts.as_slice() {
        all.push(Premise::plain(part))?;
    }
    Ok(all)
}

/// As many premises of the phrase alone.
pub fn repeated<'a>(
    alloc: Global,
    p: &'a Phrase,
    number: usize,
) -> Result<Vec<Premise<'a>>, OutOfMemory>
    ensures { IfOk result (λ v. map premise_shown v.items ≡ replicate number (nothing, reads p.now)) }
{
    let mut all = Vec::new(alloc);
    for _ in 0..number {
        all.push(Premise::plain(p))?;
    }
    Ok(all)
}
