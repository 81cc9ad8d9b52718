//! One step, by the focus.

ghost use Rattle.std.specs.Prelude.{◌≡◌, ◌+◌, ◌<◌, ◌≤◌, ◌^◌, IfOk, OnErr, OnOk, vec_len, vec_capacity};
ghost use Rattle.fy_phrase.specs.Reads.{reads};
ghost use Rattle.fy_phrase.specs.Copy.{CopyState, copy_step, pushed, step_at};
ghost use Rattle.fy_copy.specs.Enters.{Asks, Enters, IsChoice, IsEscape, IsLoop};
ghost use Rattle.fy_copy.specs.Low.{IsLow};
ghost use Rattle.fy_copy.specs.Moves.{Moved};
ghost use Rattle.fy_copy.specs.Shown.{context_of, state_of};

use crate::answer::answer;
use crate::context::{Context, Core, Which};
use crate::demand::{accept, call, decide, select, use_cell, use_sequence};
use crate::finish::{finish, jump};
use crate::progress::Turn;
use crate::words::{bind, close, close_with_mark, enter, push_context, take};
use fy_base::OutOfMemory;
use fy_phrase::{MarkKind, Parts, Phrase, copy_phrase};
use std::alloc::Global;
use std::mem;

// The context and the part with which a phrase goes on, taken out of it.
fn split(alloc: Global, focus: &mut Phrase) -> (Context, Phrase)
    requires { Enters (reads focus.old) }
    ensures { (s : CopyState) → step_at (reads focus.old) s ≡ pushed (context_of result.0) (reads result.1) s }
{
    match focus {
        Phrase::Unary(op, p, at) => (Context::Op1(*op, *at), take(p)),
        Phrase::Binary(op, p, q, at) => (Context::OpL(*op, take(q), *at), take(p)),
        Phrase::Cond(b, p, q, _) => (Context::If(take(p), take(q)), take(b)),
        Phrase::Case(e, parts, at) => {
            let parts = mem::replace(parts, Parts::new(alloc));
            (Context::Case(parts, *at), take(e))
        }
        Phrase::App(p, q, _) => (Context::Arg(take(q)), take(p)),
        Phrase::Sel(p, i, _) => (Context::Pick(*i), take(p)),
        Phrase::Seq(p, q, _) => (Context::Then(take(q)), take(p)),
        Phrase::Assign(p, q, _) => (Context::Assign(take(p)), take(q)),
        Phrase::New(d, _, e, body, _) => (Context::New(*d, take(body)), take(e)),
        Phrase::Cells(d, e, body, at) => (Context::Cells(*d, take(body), *at), take(e)),
        Phrase::Put(kind, p, _) => (Context::Put(*kind), take(p)),
        _ => unreachable!(),
    }
}

// Goes on with a part of the focus.
fn go_in(alloc: Global, core: &mut Core) -> Result<Turn, OutOfMemory>
    requires form { Enters (reads core.old.focus) }
    requires low { IsLow (state_of core.old) }
    ensures ok { IfOk result (λ turn. Moved turn (step_at (reads core.old.focus) (state_of core.old)) (state_of core.new)) }
    ensures err { OnErr result (state_of core.new ≡ state_of core.old) }
{
    core.contexts.reserve(1)?;
    let (context, part) = split(alloc, &mut core.focus);
    enter(core, context, part);
    Ok(Turn::Going)
}

// A loop goes on with its condition, or where it has none with its body.
fn go_in_loop(alloc: Global, core: &mut Core) -> Result<Turn, OutOfMemory>
    requires low { IsLow (state_of core.old) }
    ensures ok { IfOk result (λ turn. IsLoop (reads core.old.focus) → Moved turn (step_at (reads core.old.focus) (state_of core.old)) (state_of core.new)) }
    ensures err { OnErr result (state_of core.new ≡ state_of core.old) }
{
    match &core.focus {
        Phrase::WhileDo(b, c, _) => {
            let test = copy_phrase(alloc, b)?;
            let body = copy_phrase(alloc, c)?;
            core.contexts.reserve(1)?;
            let whole = take(&mut core.focus);
            enter(core, Context::While(whole, body), test);
            Ok(Turn::Going)
        }
        Phrase::Forever(c, _) => {
            let body = copy_phrase(alloc, c)?;
            core.contexts.reserve(1)?;
            let whole = take(&mut core.focus);
            enter(core, Context::Loop(whole), body);
            Ok(Turn::Going)
        }
        _ => Ok(Turn::Stuck),
    }
}

// An operand of a merge, or the phrase of a field, goes on where it is demanded.
fn go_in_demanded(core: &mut Core) -> Turn
    ensures { IsChoice (reads core.old.focus) → Moved result (step_at (reads core.old.focus) (state_of core.old)) (state_of core.new) }
{
    match &mut core.focus {
        Phrase::Merge(p, q, _) => {
            let p = take(p);
            let q = take(q);
            decide(p, q, core)
        }
        Phrase::Field(i, p, _) => {
            let i = *i;
            let p = take(p);
            select(i, p, core)
        }
        _ => Turn::Stuck,
    }
}

// The command that a jump can end goes on, with the jump copied in.
fn go_in_escape(alloc: Global, core: &mut Core) -> Result<Turn, OutOfMemory>
    requires low { IsLow (state_of core.old) }
    ensures ok { IfOk result (λ turn. IsEscape (reads core.old.focus) → Moved turn (step_at (reads core.old.focus) (state_of core.old)) (state_of core.new)) }
    ensures err { OnErr result (state_of core.new ≡ state_of core.old) }
{
    match &core.focus {
        Phrase::Escape(d, body, at) => {
            let d = *d;
            let number = core.next;
            let made = close_with_mark(alloc, body, MarkKind::Jump(number), *at)?;
            core.contexts.reserve(1)?;
            push_context(core, Context::Escape(number));
            Ok(bind(core, d, made))
        }
        _ => Ok(Turn::Stuck),
    }
}

/// One step of a phrase that asks for no input. After a refusal all is as it was.
pub fn advance(alloc: Global, core: &mut Core) -> Result<Turn, OutOfMemory>
    requires low { IsLow (state_of core.old) }
    requires no_input { Asks (reads core.old.focus) → ⊥ }
    ensures ok { IfOk result (λ turn. Moved turn (copy_step (state_of core.old)) (state_of core.new)) }
    ensures err { OnErr result (state_of core.new ≡ state_of core.old) }
{
    match &core.focus {
        Phrase::Var(..) => Ok(Turn::Stuck),
        Phrase::Lit(v, at) => answer(alloc, *v, *at, core),
        Phrase::Skip(at) => Ok(finish(*at, core)),
        Phrase::Unary(..) => go_in(alloc, core),
        Phrase::Binary(..) => go_in(alloc, core),
        Phrase::Cond(..) => go_in(alloc, core),
        Phrase::Case(..) => go_in(alloc, core),
        Phrase::App(..) => go_in(alloc, core),
        Phrase::Sel(..) => go_in(alloc, core),
        Phrase::Seq(..) => go_in(alloc, core),
        Phrase::Assign(..) => go_in(alloc, core),
        Phrase::New(..) => go_in(alloc, core),
        Phrase::Cells(..) => go_in(alloc, core),
        Phrase::Put(..) => go_in(alloc, core),
        Phrase::WhileDo(..) => go_in_loop(alloc, core),
        Phrase::Forever(..) => go_in_loop(alloc, core),
        Phrase::Merge(..) => Ok(go_in_demanded(core)),
        Phrase::Field(..) => Ok(go_in_demanded(core)),
        Phrase::Escape(..) => go_in_escape(alloc, core),
        Phrase::Lam(d, _, body, _) => {
            let d = *d;
            let made = call(alloc, body, &mut core.contexts)?;
            Ok(bind(core, d, made))
        }
        Phrase::Accept(d, _, body, at) => {
            let d = *d;
            let made = accept(alloc, body, *at, &mut core.contexts)?;
            Ok(bind(core, d, made))
        }
        Phrase::LetIn(d, p, body, _) => {
            let d = *d;
            let made = close(alloc, body, p)?;
            Ok(bind(core, d, made))
        }
        Phrase::Rec(d, _, body, _) => {
            let d = *d;
            let made = close(alloc, body, &core.focus)?;
            Ok(bind(core, d, made))
        }
        Phrase::Mark(MarkKind::Cell(n), at) => Ok(use_cell(Which::Own, *n, *at, core)),
        Phrase::Mark(MarkKind::Jump(n), at) => Ok(jump(*n, *at, core)),
        Phrase::Mark(MarkKind::Sequence(n), at) => Ok(use_sequence(*n, *at, core)),
        Phrase::Mark(MarkKind::Element(n, i), at) => {
            Ok(use_cell(Which::Element(*i), *n, *at, core))
        }
        Phrase::Read(..) => unreachable!(),
    }
}
