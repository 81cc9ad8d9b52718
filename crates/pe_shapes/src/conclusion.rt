//! The shapes that a typing rule concludes.

ghost use Rattle.std.specs.Prelude.{◌≡◌, [], List, Some, IfOk, OnOk, map, slice_index_or, slice_get};
ghost use Rattle.fy_types.specs.Types.{PlainType};
ghost use Rattle.fy_phrase.specs.Reads.{reads};
ghost use Rattle.fy_derive.specs.Rules.{conclusion};
ghost use Rattle.pe_shapes.specs.Contexts.{bounds, numbers_of};
ghost use Rattle.pe_shapes.specs.Origins.{origin};
ghost use Rattle.pe_shapes.specs.Shown.{Extends, AreIn, AreAllIn};
ghost use Rattle.pe_shapes.specs.Standing.{AreMade, AreBound, AreFit, AreShapesOfEach};

use crate::context::{Bound, Context, bound_at};
use crate::error::ShapeError;
use crate::numbers::ShapeNumbers;
use crate::sets::{copied, fronted, rests, single};
use crate::types::shapes_of_given;
use fy_phrase::{Phrase, ShapeElem, ShapeEnd};
use std::alloc::Global;

/// Where the shapes that a rule concludes come from.
#[derive(Clone, Copy, Drop)]
pub enum Origin {
    /// They are those of a variable.
    Variable(u32),
    /// It is one that has no demand before its last one.
    End(ShapeEnd),
    /// They are the first premise's with the demand in front.
    Front(ShapeElem),
    /// They are what is behind the demand in the first premise's.
    Behind(ShapeElem),
    /// They are the first premise's.
    First,
    /// They are the second premise's.
    Second,
    /// There is no such rule.
    Nothing,
}

fn origin_of(p: &Phrase) -> Origin
    ensures { result ≡ origin (reads p.now) }
{
    match p {
        Phrase::Var(k, _) => Origin::Variable(*k),
        Phrase::Lit(..) => Origin::End(ShapeEnd::Value),
        Phrase::Unary(..) => Origin::End(ShapeEnd::Value),
        Phrase::Binary(..) => Origin::End(ShapeEnd::Value),
        Phrase::Cond(..) => Origin::Second,
        Phrase::Case(..) => Origin::Second,
        Phrase::Lam(..) => Origin::Nothing,
        Phrase::App(..) => Origin::Behind(ShapeElem::Call),
        Phrase::Field(i, _, _) => Origin::Front(ShapeElem::Field(*i)),
        Phrase::Sel(_, i, _) => Origin::Behind(ShapeElem::Field(*i)),
        Phrase::Merge(..) => Origin::Nothing,
        Phrase::LetIn(..) => Origin::Second,
        Phrase::Rec(..) => Origin::First,
        Phrase::Skip(_) => Origin::End(ShapeEnd::Run),
        Phrase::Seq(..) => Origin::Second,
        Phrase::Assign(..) => Origin::End(ShapeEnd::Run),
        Phrase::WhileDo(..) => Origin::End(ShapeEnd::Run),
        Phrase::Forever(..) => Origin::End(ShapeEnd::Run),
        Phrase::New(..) => Origin::Second,
        Phrase::Cells(..) => Origin::Second,
        Phrase::Escape(..) => Origin::End(ShapeEnd::Run),
        Phrase::Accept(..) => Origin::End(ShapeEnd::Assign),
        Phrase::Put(..) => Origin::End(ShapeEnd::Run),
        Phrase::Read(..) => Origin::End(ShapeEnd::Run),
        Phrase::Mark(..) => Origin::Nothing,
    }
}

/// The shapes of a rule's conclusion, from those of its premises.
pub fn concluded(
    alloc: Global,
    numbers: &mut ShapeNumbers,
    context: &Context<'_>,
    p: &Phrase,
    done: &[Vec<usize>],
) -> Result<Vec<usize>, ShapeError>
    requires context { AreBound numbers.old (bounds context.now) }
    requires done { AreAllIn numbers.old (map numbers_of done.now) }
    ensures made { (G As : List PlainType) (A : PlainType) → AreFit numbers.old (bounds context.now) G →
        AreShapesOfEach numbers.old (map numbers_of done.now) As → conclusion G (reads p.now) As ≡ Some A →
        AreMade result numbers.new A }
    ensures within { IfOk result (λ v. AreIn numbers.new v.items) }
    ensures extends { OnOk result (Extends numbers.old numbers.new) }
{
    match origin_of(p) {
        Origin::Variable(k) => shapes_of_variable(alloc, numbers, context, k),
        Origin::End(end) => {
            let all = single(alloc, numbers, end)?;
            Ok(all)
        }
        Origin::Front(elem) => {
            let all = fronted(alloc, numbers, elem, set_at(done, 0))?;
            Ok(all)
        }
        Origin::Behind(elem) => {
            let all = rests(alloc, &*numbers, elem, set_at(done, 0))?;
            Ok(all)
        }
        Origin::First => {
            let all = copied(alloc, set_at(done, 0))?;
            Ok(all)
        }
        Origin::Second => {
            let all = copied(alloc, set_at(done, 1))?;
            Ok(all)
        }
        Origin::Nothing => Ok(Vec::new(alloc)),
    }
}

// The shapes of a variable's type.
fn shapes_of_variable(
    alloc: Global,
    numbers: &mut ShapeNumbers,
    context: &Context<'_>,
    variable: u32,
) -> Result<Vec<usize>, ShapeError>
    requires { AreBound numbers.old (bounds context.now) }
    ensures made { (G : List PlainType) (A : PlainType) → AreFit numbers.old (bounds context.now) G → slice_get G variable ≡ Some A →
        AreMade result numbers.new A }
    ensures within { IfOk result (λ v. AreIn numbers.new v.items) }
    ensures extends { OnOk result (Extends numbers.old numbers.new) }
{
    match bound_at(context, variable) {
        Some(Bound::Shapes(set)) => {
            let all = copied(alloc, set)?;
            Ok(all)
        }
        Some(Bound::Given(given)) => shapes_of_given(alloc, numbers, given),
        None => Ok(Vec::new(alloc)),
    }
}

// The set with the index, or the empty one.
fn set_at(done: &[Vec<usize>], index: usize) -> &[usize]
    ensures { result.now ≡ slice_index_or (map numbers_of done.now) index [] }
{
    match done.get(index) {
        Some(set) => set.as_slice(),
        None => &[],
    }
}
