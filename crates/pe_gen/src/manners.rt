//! How the nodes of a phrase are evaluated.

ghost use Rattle.std.specs.Prelude.{List, ◌≡◌, ◌+◌, ◌-◌, ◌<◌, ◌≤◌, ◌∷◌, ◌++◌, [], Some, IfOk, OnOk, length};
ghost use Rattle.fy_phrase.specs.Reads.{reads, reads_parts};
ghost use Rattle.fy_phrase.specs.Sizes.{nodes as count, all_nodes as count_all};
ghost use Rattle.pe_gen.specs.declared.manners.Manner.{Manner};
ghost use Rattle.pe_gen.specs.Manners.{FitsBelow, all_manners, covered, manners_below, manners_of as manners_of_tree, manners_of_all, with_manner};
ghost use Rattle.pe_gen.specs.Ranges.{before_inside as before_inside_of, many_inside as many_inside_of};
ghost use Rattle.pe_gen.specs.Scopes.{binders};

use crate::postfix::{OneStep, feed_room, straight_at};
use crate::scope::Scope;
use fy_base::OutOfMemory;
use fy_phrase::{Parts, Phrase};
use pe_code::PeCode;
use std::alloc::Global;

/// How a node is evaluated.
#[derive(Debug, Drop)]
pub enum Manner {
    /// By its form's own instruction, which enters its parts.
    ByParts,
    /// In one step.
    AtOnce(OneStep),
    /// Inside a node that is evaluated in one step.
    Inside,
}

/// How each node of the phrase is evaluated, in preorder: the greatest ones that can be in one step, and those that can be with an expression.
pub fn manners_of(alloc: Global, p: &Phrase, code: &PeCode) -> Result<Vec<Manner>, OutOfMemory>
    requires { count (reads p.now) ≤ 65536 }
    ensures { IfOk result (λ made. made.items ≡ all_manners code.now (reads p.now)) }
{
    let mut manners = Vec::new(alloc);
    add_manners(
        alloc,
        feed_room(p),
        code,
        &Scope::Program,
        0,
        p,
        &mut manners,
    )?;
    Ok(manners)
}

// Adds those of a phrase that is the node with the number, and gives how many nodes it has.
#[cycle(deciding)]
fn add_manners(
    alloc: Global,
    room: u32,
    code: &PeCode,
    scope: &Scope<'_>,
    number: u32,
    p: &Phrase,
    manners: &mut Vec<Manner>,
) -> Result<u32, OutOfMemory>
    requires { number + count (reads p.now) ≤ 65536 }
    ensures number { IfOk result (λ n. n ≡ count (reads p.now)) }
    ensures listed { OnOk result (manners.new.items ≡ manners.old.items ++ manners_of_tree room code.now (binders scope.now) number (reads p.now)) }
{
    let start = manners.len();
    manners.push(Manner::ByParts)?;
    let below = add_below(alloc, room, code, scope, number, p, manners)?;
    match straight_at(alloc, room, code, scope, number, p)? {
        Some(step) => {
            put_step(step, start, manners);
            Ok(below + 1)
        }
        None => Ok(below + 1),
    }
}

// Adds those of the nodes below it, and gives how many these are.
#[cycle(deciding)]
fn add_below(
    alloc: Global,
    room: u32,
    code: &PeCode,
    scope: &Scope<'_>,
    number: u32,
    p: &Phrase,
    manners: &mut Vec<Manner>,
) -> Result<u32, OutOfMemory>
    requires { number + count (reads p.now) ≤ 65536 }
    ensures number { IfOk result (λ n. n + 1 ≡ count (reads p.now)) }
    ensures listed { OnOk result (manners.new.items ≡ manners.old.items ++ manners_below room code.now (binders scope.now) number (reads p.now)) }
{
    let first = number + 1;
    match p {
        Phrase::Var(..) | Phrase::Lit(..) | Phrase::Skip(_) | Phrase::Mark(..) => Ok(0),
        Phrase::Unary(_, q, _)
        | Phrase::Field(_, q, _)
        | Phrase::Sel(q, _, _)
        | Phrase::Forever(q, _)
        | Phrase::Put(_, q, _)
        | Phrase::Read(q, _) => add_manners(alloc, room, code, scope, first, q, manners),
        Phrase::Lam(_, _, body, _)
        | Phrase::Rec(_, _, body, _)
        | Phrase::Escape(_, body, _)
        | Phrase::Accept(_, _, body, _) => {
            let inner = Scope::Under(false, &*scope);
            add_manners(alloc, room, code, &inner, first, body, manners)
        }
        Phrase::Binary(_, q, r, _)
        | Phrase::App(q, r, _)
        | Phrase::Merge(q, r, _)
        | Phrase::Seq(q, r, _)
        | Phrase::Assign(q, r, _)
        | Phrase::WhileDo(q, r, _) => {
            let size = add_manners(alloc, room, code, scope, first, q, manners)?;
            let behind = add_manners(alloc, room, code, scope, first + size, r, manners)?;
            Ok(size + behind)
        }
        Phrase::LetIn(_, q, body, _) | Phrase::Cells(_, q, body, _) => {
            let size = add_manners(alloc, room, code, scope, first, q, manners)?;
            let inner = Scope::Under(false, &*scope);
            let behind = add_manners(alloc, room, code, &inner, first + size, body, manners)?;
            Ok(size + behind)
        }
        Phrase::New(_, _, q, body, _) => {
            let size = add_manners(alloc, room, code, scope, first, q, manners)?;
            let inner = Scope::Under(true, &*scope);
            let behind = add_manners(alloc, room, code, &inner, first + size, body, manners)?;
            Ok(size + behind)
        }
        Phrase::Cond(b, q, r, _) => {
            let test = add_manners(alloc, room, code, scope, first, b, manners)?;
            let size = add_manners(alloc, room, code, scope, first + test, q, manners)? + test;
            let behind = add_manners(alloc, room, code, scope, first + size, r, manners)?;
            Ok(size + behind)
        }
        Phrase::Case(e, parts, _) => {
            let size = add_manners(alloc, room, code, scope, first, e, manners)?;
            let behind = add_manners_of_all(
                alloc,
                room,
                code,
                scope,
                first + size,
                parts,
                manners,
            )?;
            Ok(size + behind)
        }
    }
}

// Adds those of the parts, of which the first is the node with the number, and gives how many nodes they have.
#[cycle(deciding)]
fn add_manners_of_all(
    alloc: Global,
    room: u32,
    code: &PeCode,
    scope: &Scope<'_>,
    number: u32,
    parts: &Parts,
    manners: &mut Vec<Manner>,
) -> Result<u32, OutOfMemory>
    requires { number + count_all (reads_parts parts.now) ≤ 65536 }
    ensures number { IfOk result (λ n. n ≡ count_all (reads_parts parts.now)) }
    ensures listed { OnOk result (manners.new.items ≡ manners.old.items ++ manners_of_all room code.now (binders scope.now) number (reads_parts parts.now)) }
{
    let mut size = 0;
    for part in parts.as_slice() {
        size += add_manners(alloc, room, code, scope, number + size, part, manners)?;
    }
    Ok(size)
}

// The node at a place is evaluated in the step, and so are some of those behind it, which are below it.
fn put_step(step: OneStep, place: usize, manners: &mut Vec<Manner>)
    requires within { place < length manners.old.items }
    requires fits { FitsBelow step (length manners.old.items - (place + 1)) }
    ensures { (before below : List Manner) (own : Manner) → manners.old.items ≡ before ++ own ∷ below → place ≡ length before
        → manners.new.items ≡ before ++ with_manner (Some step) below }
{
    let first = place + 1;
    let most = manners.len() - first;
    let before = before_inside(&step);
    let many = many_inside(&step, most);
    cover(first + before, many, manners);
    manners[place] = Manner::AtOnce(step);
}

// How many of the nodes below one stand before those that are evaluated in the step.
fn before_inside(step: &OneStep) -> usize
    ensures { result ≡ before_inside_of step.now }
{
    match step {
        OneStep::Evaluates(_) => 0,
        OneStep::Assigns(..) => 0,
        OneStep::Feeds(before, _) => *before as usize,
    }
}

// How many these are, where so many are below.
fn many_inside(step: &OneStep, most: usize) -> usize
    ensures { result ≡ many_inside_of step.now most }
{
    match step {
        OneStep::Evaluates(_) => most,
        OneStep::Assigns(..) => most,
        OneStep::Feeds(_, parts) => parts.len(),
    }
}

// So many manners from a place on are those of nodes inside.
fn cover(start: usize, many: usize, manners: &mut Vec<Manner>)
    requires { start + many ≤ length manners.old.items }
    ensures { manners.new.items ≡ covered start many manners.old.items }
{
    for i in 0..many {
        manners[start + i] = Manner::Inside;
    }
}
