//! What instructions do.

ghost use Rattle.std.specs.Prelude.{◌≡◌, ◌≢◌, Bool, None};
ghost use Rattle.pe_code.specs.declared.code.PeCode.{PeCode};
ghost use Rattle.pe_machine.specs.States.{PeState, to_thunk};
ghost use Rattle.pe_machine.specs.Step.{bound, executed, item_executed, pe_step, pushed, waiting};
ghost use Rattle.pe_code.specs.Code.{item_at, straight_of};
ghost use Rattle.pe_machine.specs.Shown.{context_of, number_of, pointer_of, thunk_of};
ghost use Rattle.pe_machine.specs.Names.{Frames, IsPlacedAct, IsPlacedContext, IsPlacedPointer, IsPlacedThunk, IsPlacedTurn};
ghost use Rattle.pe_machine.specs.Turns.{IsFair, act_move, frames_of, plan_move, state_of};
ghost use Rattle.pe_machine.specs.declared.contexts.Context.{Context};
ghost use Rattle.pe_machine.specs.declared.frames.FrameName.{FrameName};

use crate::answers::{complete, give_value, item_at, push};
use crate::contexts::{Context, Focus, Pointer};
use crate::core_state::Core;
use crate::demands::enter;
use crate::frames::Thunk;
use crate::lookup::variable;
use crate::plans::{answer, ask, finish, stay};
use crate::straight::{assign, evaluate, meet};
use crate::turns::{Act, Change, Demand, Plan, Turn};
use fy_base::Place;
use pe_code::{PeCode, PeInsn, PeItem, Purpose};

// Code at another address, in the same frame.
fn beside(here: Pointer, address: u32) -> Pointer
    ensures is { result ≡ record here { address = address } }
    ensures placed { (frames : Frames) → IsPlacedPointer frames here → IsPlacedPointer frames result }
{
    Pointer {
        address,
        frame: here.frame,
    }
}

// A context is pushed, and on with the code at an address.
fn go_in(context: Context, here: Pointer, address: u32) -> Act
    ensures moves { (code : PeCode) (s : PeState) → act_move code result s ≡ pushed (context_of context) (record (pointer_of here) { address = address }) s }
    ensures placed { (frames : Frames) → IsPlacedContext frames context → IsPlacedPointer frames here → IsPlacedAct frames result }
{
    Act::Now(push(context, beside(here, address)))
}

// A thunk is bound in a frame, for a body.
fn bind(depth: u32, thunk: Thunk, body: Pointer) -> Act
    ensures moves { (code : PeCode) (s : PeState) → act_move code result s ≡ bound depth (to_thunk (thunk_of thunk)) body.address (number_of body.frame) s }
    ensures placed { (frames : Frames) → IsPlacedThunk frames thunk → IsPlacedPointer frames body → IsPlacedAct frames result }
{
    Act::Now(Turn::On(Change::Bind(depth, thunk, body)))
}

// What an instruction does that stands under so many binders at a place, where it runs no straight code.
fn act_of(insn: &PeInsn, depth: u32, at: Place, here: Pointer) -> Act
    requires { straight_of insn.now ≡ None }
    ensures moves { (code : PeCode) (s : PeState) → act_move code result s ≡ executed code insn.now depth at (pointer_of here) s }
    ensures placed { (frames : Frames) → IsPlacedPointer frames here → IsPlacedAct frames result }
{
    match insn {
        PeInsn::UseVar(k, shape) => Act::Use(*k, *shape, here.frame),
        PeInsn::Answer(v) => Act::Now(give_value(*v)),
        PeInsn::Op1(op, x) => go_in(Context::Op1(*op, at), here, *x),
        PeInsn::Op2(op, x, y) => go_in(Context::OpL(*op, beside(here, *y), at), here, *x),
        PeInsn::Cond(x, y, z) => go_in(Context::If(beside(here, *y), beside(here, *z)), here, *x),
        PeInsn::Case(x, _) => go_in(Context::Case(here, at), here, *x),
        PeInsn::Bind(y) => Act::Ask(Demand::Argument(depth, beside(here, *y))),
        PeInsn::Pass(node, y) => go_in(Context::Arg(Thunk::Source(*node, here.frame)), here, *y),
        PeInsn::PassVar(k, y) => Act::Pass(*k, beside(here, *y)),
        PeInsn::PassData(v, y) => go_in(Context::Arg(Thunk::Literal(*v)), here, *y),
        PeInsn::Field(i, x) => Act::Ask(Demand::Selection(*i, beside(here, *x))),
        PeInsn::Pick(i, x) => go_in(Context::Pick(*i), here, *x),
        PeInsn::Let(node, y) => bind(depth, Thunk::Source(*node, here.frame), beside(here, *y)),
        PeInsn::LetVar(k, y) => Act::Let(depth, *k, beside(here, *y)),
        PeInsn::LetData(v, y) => bind(depth, Thunk::Literal(*v), beside(here, *y)),
        PeInsn::Knot(node, y) => bind(depth, Thunk::Source(*node, here.frame), beside(here, *y)),
        PeInsn::Done => Act::Now(complete()),
        PeInsn::Seq(x, y) => go_in(Context::Then(beside(here, *y)), here, *x),
        PeInsn::Assign(x, y) => go_in(Context::Assign(beside(here, *x)), here, *y),
        PeInsn::While(x, y) => go_in(Context::While(here, beside(here, *y)), here, *x),
        PeInsn::Loop(x) => go_in(Context::Loop(here), here, *x),
        PeInsn::New(x, y) => go_in(Context::New(depth, beside(here, *y)), here, *x),
        PeInsn::Cells(x, y) => go_in(Context::Cells(depth, beside(here, *y), at), here, *x),
        PeInsn::Escape(y) => Act::Now(Turn::On(Change::NewEscape(depth, beside(here, *y)))),
        PeInsn::Accept(y) => Act::Ask(Demand::Assigned(depth, beside(here, *y))),
        PeInsn::Put(kind, x) => go_in(Context::Put(*kind), here, *x),
        PeInsn::Read(x) => Act::Now(Turn::Read(beside(here, *x))),
        PeInsn::Eval(_) => unreachable!(),
        PeInsn::Set(..) => unreachable!(),
        PeInsn::EvalFor(..) => unreachable!(),
    }
}

// What an act leads to, by the stacks.
fn plan_of(code: &PeCode, act: Act, core: &Core) -> Plan
    requires { IsPlacedAct (frames_of core.now) act }
    ensures moves { plan_move result (state_of core.now) ≡ act_move code.now act (state_of core.now) }
    ensures fair { IsFair core.now.limit (state_of core.now) result.kept }
    ensures placed { IsPlacedTurn (frames_of core.now) result.turn }
{
    match act {
        Act::Now(turn) => stay(core, turn),
        Act::Use(k, shape, frame) => match variable(core, k, frame) {
            Some(thunk) => enter(code, shape, thunk, core),
            None => stay(core, Turn::Gone),
        },
        Act::Pass(k, p) => match variable(core, k, p.frame) {
            Some(thunk) => stay(core, push(Context::Arg(thunk), p)),
            None => stay(core, Turn::Gone),
        },
        Act::Let(depth, k, body) => match variable(core, k, body.frame) {
            Some(thunk) => stay(core, Turn::On(Change::Bind(depth, thunk, body))),
            None => stay(core, Turn::Gone),
        },
        Act::Ask(demand) => ask(demand, core),
    }
}

// The context that waits for a datum of the purpose.
fn waiting_for(purpose: Purpose, here: Pointer) -> Context
    ensures is { context_of result ≡ waiting purpose (pointer_of here) }
    ensures placed { (frames : Frames) → IsPlacedPointer frames here → IsPlacedContext frames result }
    ensures apart { (is_written : Bool) (name : FrameName) → result ≢ Context.Element is_written name }
{
    match purpose {
        Purpose::Choose(x, y) => Context::If(beside(here, x), beside(here, y)),
        Purpose::Repeat(x) => Context::While(here, beside(here, x)),
        Purpose::Store(x) => Context::Assign(beside(here, x)),
        Purpose::Write(kind) => Context::Put(kind),
    }
}

// What an item does.
fn execute_item(code: &PeCode, item: &PeItem, here: Pointer, core: &Core) -> Plan
    requires { IsPlacedPointer (frames_of core.now) here }
    ensures moves { plan_move result (state_of core.now) ≡ executed code.now item.now.insn item.now.depth item.now.place (pointer_of here) (state_of core.now) }
    ensures fair { IsFair core.now.limit (state_of core.now) result.kept }
    ensures placed { IsPlacedTurn (frames_of core.now) result.turn }
{
    match &item.insn {
        PeInsn::Eval(parts) => evaluate(code, parts.as_slice(), here.frame, core),
        PeInsn::Set(variable, parts) => {
            assign(code, *variable, parts.as_slice(), here.frame, core)
        }
        PeInsn::EvalFor(parts, purpose) => {
            let context = waiting_for(*purpose, here);
            meet(code, parts.as_slice(), context, here.frame, core)
        }
        insn => plan_of(code, act_of(insn, item.depth, item.place, here), core),
    }
}

// What the instruction at an address does.
fn execute(code: &PeCode, here: Pointer, core: &Core) -> Plan
    requires { IsPlacedPointer (frames_of core.now) here }
    ensures moves { plan_move result (state_of core.now) ≡ item_executed code.now (item_at code.now here.address) (pointer_of here) (state_of core.now) }
    ensures fair { IsFair core.now.limit (state_of core.now) result.kept }
    ensures placed { IsPlacedTurn (frames_of core.now) result.turn }
{
    match item_at(code, here.address) {
        Some(item) => execute_item(code, item, here, core),
        None => stay(core, Turn::Stuck),
    }
}

/// What the next step comes to.
pub fn plan_step(code: &PeCode, core: &Core) -> Plan
    ensures moves { plan_move result (state_of core.now) ≡ pe_step code.now (state_of core.now) }
    ensures fair { IsFair core.now.limit (state_of core.now) result.kept }
    ensures placed { IsPlacedTurn (frames_of core.now) result.turn }
{
    match core.focus {
        Focus::Code(here) => execute(code, here, core),
        Focus::Value(v) => answer(code, v, core),
        Focus::Completed => finish(core),
    }
}
