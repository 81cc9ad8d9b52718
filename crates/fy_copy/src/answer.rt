//! A datum meets the newest context.

ghost use Rattle.std.specs.Prelude.{◌≡◌, ◌≤◌, ◌<◌, ◌+◌, ◌^◌, IfOk, OnOk, OnErr, vec_len, vec_capacity};
ghost use Rattle.std.specs.Option.{option_map};
ghost use Rattle.fy_phrase.specs.Reads.{reads, reads_parts};
ghost use Rattle.fy_phrase.specs.Copy.{CopyState, chosen, datum_focused, datum_under, focused, indexed, left_meets, operated, part_at, pushed, stored};
ghost use Rattle.fy_phrase.specs.Contexts.{body_c};
ghost use Rattle.fy_phrase.specs.Tree.{skip};
ghost use Rattle.fy_copy.specs.Shown.{context_of, state_of, with_context};
ghost use Rattle.fy_copy.specs.Moves.{Moved, picked_move};
ghost use Rattle.fy_copy.specs.Low.{AreLow, IsAtOnce, LOW};

use crate::context::{Content, Context, Core, Frame};
use crate::filling::{count_cells, fill, pick_element};
use crate::progress::{Picked, Turn};
use crate::store::add_row;
use crate::words::{bind, close_with_mark, enter, push_context, put_back, set_focus};
use fy_base::{
    Applied, BinOp, Datum, FaultKind, OutOfMemory, Place, apply_binary, apply_unary, put_text,
};
use fy_phrase::{MarkKind, Parts, Phrase, copy_phrase};
use std::alloc::Global;

// What an operator's result leads to.
fn operate(applied: Applied, at: Place, core: &mut Core) -> Turn
    ensures { Moved result (operated applied at (state_of core.old)) (state_of core.new) }
{
    match applied {
        Applied::Gives(v) => {
            set_focus(core, Phrase::Lit(v, at));
            Turn::Going
        }
        Applied::Faults(kind) => Turn::Fault { kind, place: at },
        Applied::NoSense => Turn::Stuck,
    }
}

// The left operand's value: of `and` and `or` it may decide.
fn meet_left(op: BinOp, v: Datum, here: Place, q: Phrase, at: Place, core: &mut Core) -> Turn
    requires room { vec_len core.old.contexts < vec_capacity core.old.contexts }
    requires load { core.old.load + 8 < 2 ^ 64 }
    ensures { Moved result (left_meets op v here (reads q) at (state_of core.old)) (state_of core.new) }
{
    match (op, v) {
        (BinOp::And, Datum::Bool(true)) | (BinOp::Or, Datum::Bool(false)) => {
            set_focus(core, q);
            Turn::Going
        }
        (BinOp::And, Datum::Bool(false)) | (BinOp::Or, Datum::Bool(true)) => {
            set_focus(core, Phrase::Lit(v, here));
            Turn::Going
        }
        (BinOp::And, _) | (BinOp::Or, _) => Turn::Stuck,
        _ => {
            enter(core, Context::OpR(op, v, at), q);
            Turn::Going
        }
    }
}

// A condition's value chooses one of two phrases.
fn choose(v: Datum, p: Phrase, q: Phrase, core: &mut Core) -> Turn
    ensures { Moved result (chosen v (focused (reads p) (state_of core.old)) (focused (reads q) (state_of core.old))) (state_of core.new) }
{
    match v {
        Datum::Bool(true) => {
            set_focus(core, p);
            Turn::Going
        }
        Datum::Bool(false) => {
            set_focus(core, q);
            Turn::Going
        }
        _ => Turn::Stuck,
    }
}

// A loop's condition chooses its body or its end.
fn repeat(v: Datum, here: Place, whole: Phrase, body: Phrase, core: &mut Core) -> Turn
    requires room { vec_len core.old.contexts < vec_capacity core.old.contexts }
    requires load { core.old.load + 8 < 2 ^ 64 }
    ensures { Moved result (chosen v (pushed (body_c (reads whole)) (reads body) (state_of core.old)) (focused (skip here) (state_of core.old))) (state_of core.new) }
{
    match v {
        Datum::Bool(true) => {
            enter(core, Context::Body(whole), body);
            Turn::Going
        }
        Datum::Bool(false) => {
            set_focus(core, Phrase::Skip(here));
            Turn::Going
        }
        _ => Turn::Stuck,
    }
}

fn copy_part(alloc: Global, parts: &Parts, i: usize) -> Result<Option<Phrase>, OutOfMemory>
    ensures { IfOk result (λ p. option_map reads p ≡ part_at (reads_parts parts.now) i) }
{
    match parts.as_slice().get(i) {
        Some(p) => Ok(Some(copy_phrase(alloc, p)?)),
        None => Ok(None),
    }
}

// The part that an index picks.
fn pick(alloc: Global, v: Datum, parts: &Parts) -> Result<Picked, OutOfMemory>
    ensures { IfOk result (λ picked. (at : Place) (s : CopyState) → indexed v (reads_parts parts.now) at s ≡ picked_move picked at s) }
{
    match v {
        Datum::Int(n) => match usize::try_from(n) {
            Ok(i) => match copy_part(alloc, parts, i)? {
                Some(p) => Ok(Picked::Part(p)),
                None => Ok(Picked::NoPart),
            },
            Err(_) => Ok(Picked::NoPart),
        },
        _ => Ok(Picked::NoIndex),
    }
}

fn go_on(picked: Picked, at: Place, core: &mut Core) -> Turn
    ensures { Moved result (picked_move picked at (state_of core.old)) (state_of core.new) }
{
    match picked {
        Picked::Part(p) => {
            set_focus(core, p);
            Turn::Going
        }
        Picked::NoPart => Turn::Fault {
            kind: FaultKind::Range,
            place: at,
        },
        Picked::NoIndex => Turn::Stuck,
    }
}

// A new cell holds the datum as long as the body runs. After a refusal all is as it was.
fn store_new(
    alloc: Global,
    v: Datum,
    d: u32,
    body: &Phrase,
    here: Place,
    base: u64,
    core: &mut Core,
) -> Result<Turn, OutOfMemory>
    requires room { vec_len core.old.contexts < vec_capacity core.old.contexts }
    requires base { base ≤ LOW }
    requires next { core.old.next ≤ LOW }
    ensures ok { IfOk result (λ p. Moved p (stored v d (reads body.now) here (record (state_of core.old) { load = base })) (state_of core.new)) }
    ensures err { OnErr result (state_of core.new ≡ state_of core.old) }
    ensures room { OnErr result (core.new.contexts ≡ core.old.contexts) }
{
    let number = core.next;
    let made = close_with_mark(alloc, body, MarkKind::Cell(number), here)?;
    add_row(&mut core.store, number, Content::Single(v))?;
    core.load = base;
    push_context(core, Context::Drop(number));
    Ok(bind(core, d, made))
}

// What a datum does at a context without taking memory.
fn meet_at_once(v: Datum, here: Place, base: u64, context: Context, core: &mut Core) -> Turn
    requires room { vec_len core.old.contexts < vec_capacity core.old.contexts }
    requires base { base ≤ LOW }
    requires at_once { IsAtOnce context }
    ensures { Moved result (datum_under v here (context_of context) base (state_of core.old).contexts
        (with_context base (context_of context) (state_of core.old))) (state_of core.new) }
{
    core.load = base;
    match context {
        Context::Op1(op, at) => operate(apply_unary(op, v), at, core),
        Context::OpL(op, q, at) => meet_left(op, v, here, q, at, core),
        Context::OpR(op, u, at) => operate(apply_binary(op, u, v), at, core),
        Context::If(p, q) => choose(v, p, q, core),
        Context::While(whole, body) => repeat(v, here, whole, body, core),
        Context::Assign(p) => {
            enter(core, Context::Store(v), p);
            Turn::Going
        }
        Context::Element(n) => pick_element(v, n, here, core),
        _ => Turn::Stuck,
    }
}

fn meet(
    alloc: Global,
    v: Datum,
    here: Place,
    frame: Frame,
    core: &mut Core,
) -> Result<Turn, OutOfMemory>
    requires room { vec_len core.old.contexts < vec_capacity core.old.contexts }
    requires base { frame.base ≤ LOW }
    requires load { core.old.load ≤ LOW }
    requires next { core.old.next ≤ LOW }
    ensures ok { IfOk result (λ p. Moved p (datum_under v here (context_of frame.context) frame.base (state_of core.old).contexts
        (with_context frame.base (context_of frame.context) (state_of core.old))) (state_of core.new)) }
    ensures err { OnErr result (state_of core.new ≡ with_context frame.base (context_of frame.context) (state_of core.old)) }
{
    let Frame { base, context } = frame;
    match context {
        Context::Case(parts, at) => match pick(alloc, v, &parts) {
            Ok(picked) => {
                core.load = base;
                Ok(go_on(picked, at, core))
            }
            Err(e) => {
                let context = Context::Case(parts, at);
                put_back(&mut core.contexts, Frame { base, context });
                Err(e)
            }
        },
        Context::New(d, body) => match store_new(alloc, v, d, &body, here, base, core) {
            Ok(turn) => Ok(turn),
            Err(e) => {
                let context = Context::New(d, body);
                put_back(&mut core.contexts, Frame { base, context });
                Err(e)
            }
        },
        Context::Put(kind) => match put_text(alloc, kind, v) {
            Ok(None) => Ok(Turn::Stuck),
            Ok(Some(text)) => {
                core.load = base;
                set_focus(core, Phrase::Skip(here));
                Ok(Turn::Put(text))
            }
            Err(e) => {
                let context = Context::Put(kind);
                put_back(&mut core.contexts, Frame { base, context });
                Err(e)
            }
        },
        Context::Cells(d, body, at) => count_cells(alloc, v, d, body, at, base, core),
        Context::Fill(filling) => fill(alloc, v, here, base, filling, core),
        context => Ok(meet_at_once(v, here, base, context, core)),
    }
}

/// A datum meets the newest context. After a refusal all is as it was.
#[tactic(auto, using(crate::proofs::Stacks::stacks))]
pub fn answer(alloc: Global, v: Datum, here: Place, core: &mut Core) -> Result<Turn, OutOfMemory>
    requires low { AreLow (state_of core.old).contexts }
    requires load { core.old.load ≤ LOW }
    requires next { core.old.next ≤ LOW }
    ensures ok { IfOk result (λ p. Moved p (datum_focused v here (state_of core.old).contexts (state_of core.old)) (state_of core.new)) }
    ensures err { OnErr result (state_of core.new ≡ state_of core.old) }
{
    match core.contexts.pop() {
        None => Ok(Turn::Stuck),
        Some(frame) => meet(alloc, v, here, frame, core),
    }
}
