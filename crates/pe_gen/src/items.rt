//! The items of code.

ghost use Rattle.std.specs.Prelude.{ℕ, ◌≡◌, Some, false, IfOk, length, slice_get};
ghost use Rattle.fy_derive.specs.Shapes.{PlainShape};
ghost use Rattle.fy_derive.specs.ShapeTables.{shape_at};
ghost use Rattle.fy_phrase.specs.Reads.{reads, reads_parts};
ghost use Rattle.fy_phrase.specs.declared.shapes.Pair.{Pair};
ghost use Rattle.pe_code.specs.declared.code.PeItem.{PeItem};
ghost use Rattle.pe_gen.specs.Plan.{nodes_in, AreDue, AsksParts, IsPlan, IsInsnIn, EachEntersIn, IsItemIn, IsSite};
ghost use Rattle.pe_right.specs.Right.{is_variable};
ghost use Rattle.pe_gen.specs.Sites.{is_merge, IsListed};

use crate::plan::Plan;
use fy_base::OutOfMemory;
use fy_phrase::{Pair, Parts, Phrase, ShapeElem, ShapeEnd};
use pe_code::{AddressList, PeInsn, PeItem, PeItemList};
use std::alloc::Global;

/// The items of the sites, in order.
pub fn items_of(alloc: Global, plan: &Plan<'_>, sites: &[Pair]) -> Result<PeItemList, OutOfMemory>
    requires plan { IsPlan plan.now }
    requires sites { (i : ℕ) (x : Pair) → slice_get sites.now i ≡ Some x → IsSite plan.now x }
    ensures all { IfOk result (λ items. length items ≡ length sites.now) }
    ensures each { IfOk result
        (λ items. (i : ℕ) (x : Pair) (item : PeItem) → slice_get sites.now i ≡ Some x → slice_get items i ≡ Some item → IsItemIn plan.now x item) }
{
    let mut items = PeItemList::new(alloc);
    for site in sites {
        items.push(item_of(alloc, plan, *site)?)?;
    }
    Ok(items)
}

fn item_of(alloc: Global, plan: &Plan<'_>, site: Pair) -> Result<PeItem, OutOfMemory>
    requires plan { IsPlan plan.now }
    requires site { IsSite plan.now site }
    ensures { IfOk result (λ item. IsItemIn plan.now site item) }
{
    let node = &plan.nodes[site.node as usize];
    let insn = insn_of(alloc, plan, node.phrase, site)?;
    Ok(PeItem {
        insn,
        depth: node.depth,
        place: node.phrase.place(),
    })
}

// The instruction of the form that is the site's node.
fn insn_of(
    alloc: Global,
    plan: &Plan<'_>,
    phrase: &Phrase,
    site: Pair,
) -> Result<PeInsn, OutOfMemory>
    requires plan { IsPlan plan.now }
    requires listed { IsListed (nodes_in plan.now) site.node (reads phrase.now) }
    requires whole { is_merge (reads phrase.now) ≡ false }
    requires asked { (s : PlainShape) × (shape_at plan.now.table.now site.shape ≡ Some s) × AsksParts plan.now site.node (reads phrase.now) s }
    ensures { IfOk result (λ insn. (s : PlainShape) → shape_at plan.now.table.now site.shape ≡ Some s → IsInsnIn plan.now site.node (reads phrase.now) s insn) }
{
    let shape = site.shape;
    let first = site.node + 1;
    match phrase {
        Phrase::Var(k, _) => Ok(PeInsn::UseVar(*k, shape)),
        Phrase::Lit(v, _) => Ok(PeInsn::Answer(*v)),
        Phrase::Unary(op, _, _) => {
            let operand = plan.entry_at_end(first, ShapeEnd::Value);
            Ok(PeInsn::Op1(*op, operand))
        }
        Phrase::Binary(op, _, _, _) => {
            let left = plan.entry_at_end(first, ShapeEnd::Value);
            let right = plan.entry_at_end(plan.behind(first), ShapeEnd::Value);
            Ok(PeInsn::Op2(*op, left, right))
        }
        Phrase::Cond(_, _, _, _) => {
            let second = plan.behind(first);
            let test = plan.entry_at_end(first, ShapeEnd::Value);
            let yes = plan.entry_at(second, shape);
            let no = plan.entry_at(plan.behind(second), shape);
            Ok(PeInsn::Cond(test, yes, no))
        }
        Phrase::Case(_, parts, _) => {
            let index = plan.entry_at_end(first, ShapeEnd::Value);
            let addresses = entries_of_all(alloc, plan, plan.behind(first), parts, shape)?;
            Ok(PeInsn::Case(index, addresses))
        }
        Phrase::Lam(_, _, _, _) => Ok(PeInsn::Bind(plan.entry_at_rest(first, shape))),
        Phrase::App(_, argument, _) => {
            let procedure = plan.entry_before(first, ShapeElem::Call, shape);
            match variable_of(argument) {
                Some(k) => Ok(PeInsn::PassVar(k, procedure)),
                None => Ok(PeInsn::Pass(plan.behind(first), procedure)),
            }
        }
        Phrase::Field(i, _, _) => Ok(PeInsn::Field(*i, plan.entry_at_rest(first, shape))),
        Phrase::Sel(_, i, _) => {
            let whole = plan.entry_before(first, ShapeElem::Field(*i), shape);
            Ok(PeInsn::Pick(*i, whole))
        }
        Phrase::LetIn(_, defined, _, _) => {
            let body = plan.entry_at(plan.behind(first), shape);
            match variable_of(defined) {
                Some(k) => Ok(PeInsn::LetVar(k, body)),
                None => Ok(PeInsn::Let(first, body)),
            }
        }
        Phrase::Rec(_, _, _, _) => Ok(PeInsn::Knot(site.node, plan.entry_at(first, shape))),
        Phrase::Skip(_) => Ok(PeInsn::Done),
        Phrase::Seq(_, _, _) => {
            let one = plan.entry_at_end(first, ShapeEnd::Run);
            let other = plan.entry_at_end(plan.behind(first), ShapeEnd::Run);
            Ok(PeInsn::Seq(one, other))
        }
        Phrase::Assign(_, _, _) => {
            let target = plan.entry_at_end(first, ShapeEnd::Assign);
            let value = plan.entry_at_end(plan.behind(first), ShapeEnd::Value);
            Ok(PeInsn::Assign(target, value))
        }
        Phrase::WhileDo(_, _, _) => {
            let test = plan.entry_at_end(first, ShapeEnd::Value);
            let body = plan.entry_at_end(plan.behind(first), ShapeEnd::Run);
            Ok(PeInsn::While(test, body))
        }
        Phrase::Forever(_, _) => Ok(PeInsn::Loop(plan.entry_at_end(first, ShapeEnd::Run))),
        Phrase::New(_, _, _, _, _) => {
            let value = plan.entry_at_end(first, ShapeEnd::Value);
            let body = plan.entry_at_end(plan.behind(first), ShapeEnd::Run);
            Ok(PeInsn::New(value, body))
        }
        Phrase::Cells(_, _, _, _) => {
            let value = plan.entry_at_end(first, ShapeEnd::Value);
            let body = plan.entry_at_end(plan.behind(first), ShapeEnd::Run);
            Ok(PeInsn::Cells(value, body))
        }
        Phrase::Escape(_, _, _) => Ok(PeInsn::Escape(plan.entry_at_end(first, ShapeEnd::Run))),
        Phrase::Accept(_, _, _, _) => {
            let body = plan.entry_at_end(first, ShapeEnd::Run);
            Ok(PeInsn::Accept(body))
        }
        Phrase::Put(kind, _, _) => {
            let value = plan.entry_at_end(first, ShapeEnd::Value);
            Ok(PeInsn::Put(*kind, value))
        }
        Phrase::Read(_, _) => {
            let target = plan.entry_at_end(first, ShapeEnd::Assign);
            Ok(PeInsn::Read(target))
        }
        Phrase::Merge(..) | Phrase::Mark(..) => unreachable!(),
    }
}

// Where the parts are entered, of which the first is the node with the number.
fn entries_of_all(
    alloc: Global,
    plan: &Plan<'_>,
    first: u32,
    parts: &Parts,
    shape: u32,
) -> Result<AddressList, OutOfMemory>
    requires plan { IsPlan plan.now }
    requires asked { (s : PlainShape) × (shape_at plan.now.table.now shape ≡ Some s) × AreDue plan.now first (reads_parts parts.now) s }
    ensures { IfOk result (λ ys. (s : PlainShape) → shape_at plan.now.table.now shape ≡ Some s → EachEntersIn plan.now first (reads_parts parts.now) s ys) }
{
    let mut addresses = AddressList::new(alloc);
    let mut number = first;
    for _ in parts.as_slice() {
        addresses.push(plan.entry_at(number, shape))?;
        number = plan.behind(number);
    }
    Ok(addresses)
}

// The variable that the phrase is.
fn variable_of(p: &Phrase) -> Option<u32>
    ensures { result ≡ is_variable (reads p.now) }
{
    match p {
        Phrase::Var(k, _) => Some(*k),
        _ => None,
    }
}
