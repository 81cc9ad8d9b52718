//! A datum, or a finished command, meets a context.

ghost use Rattle.std.specs.Prelude.{◌≡◌, ◌≢◌, Bool, slice_get};
ghost use Rattle.std.specs.Option.{option_copied};
ghost use Rattle.pe_code.specs.Code.{item_at};
ghost use Rattle.pe_machine.specs.States.{PeState, value, completed, code_at};
ghost use Rattle.pe_machine.specs.Step.{chosen, completion_meets, counted, datum_meets, focused, focused_if_some, indexed, left_meets, operated, parts_at, pushed};
ghost use Rattle.pe_machine.specs.Shown.{context_of, number_of, pointer_of};
ghost use Rattle.pe_machine.specs.Names.{Frames, IsPlacedContext, IsPlacedPointer, IsPlacedTurn};
ghost use Rattle.pe_machine.specs.Turns.{turn_move};
ghost use Rattle.pe_machine.specs.declared.contexts.Context.{Context};
ghost use Rattle.pe_machine.specs.declared.frames.FrameName.{FrameName};

use crate::contexts::{Context, Focus, Pointer};
use crate::turns::{Change, Turn};
use fy_base::{Applied, BinOp, Datum, FaultKind, Place, apply_binary, apply_unary};
use pe_code::{PeCode, PeInsn, PeItem};

/// On with code.
pub fn go_to(p: Pointer) -> Turn
    ensures moves { (s : PeState) → turn_move result s ≡ focused (code_at (pointer_of p)) s }
    ensures placed { (frames : Frames) → IsPlacedPointer frames p → IsPlacedTurn frames result }
{
    Turn::On(Change::Focus(Focus::Code(p)))
}

/// On with a datum.
pub fn give_value(v: Datum) -> Turn
    ensures moves { (s : PeState) → turn_move result s ≡ focused (value v) s }
    ensures placed { (frames : Frames) → IsPlacedTurn frames result }
{
    Turn::On(Change::Focus(Focus::Value(v)))
}

/// On with a finished command.
pub fn complete() -> Turn
    ensures moves { (s : PeState) → turn_move result s ≡ focused completed s }
    ensures placed { (frames : Frames) → IsPlacedTurn frames result }
{
    Turn::On(Change::Focus(Focus::Completed))
}

/// A context is pushed, and on with code.
pub fn push(context: Context, p: Pointer) -> Turn
    ensures moves { (s : PeState) → turn_move result s ≡ pushed (context_of context) (pointer_of p) s }
    ensures placed { (frames : Frames) → IsPlacedContext frames context → IsPlacedPointer frames p → IsPlacedTurn frames result }
{
    Turn::On(Change::Push(context, p))
}

/// The item at an address.
pub fn item_at(code: &PeCode, address: u32) -> Option<&PeItem>
    ensures { option_copied result ≡ item_at code.now address }
{
    code.items.as_slice().get(address as usize)
}

// What an operator's result leads to.
fn operate(applied: Applied, at: Place) -> Turn
    ensures moves { (s : PeState) → turn_move result s ≡ operated applied at s }
    ensures placed { (frames : Frames) → IsPlacedTurn frames result }
{
    match applied {
        Applied::Gives(v) => give_value(v),
        Applied::Faults(kind) => Turn::Fault { kind, place: at },
        Applied::NoSense => Turn::Stuck,
    }
}

// The left operand's value: of `and` and `or` it may decide.
fn meet_left(op: BinOp, v: Datum, q: Pointer, at: Place) -> Turn
    ensures moves { (s : PeState) → turn_move result s ≡ left_meets op v (pointer_of q) at s }
    ensures placed { (frames : Frames) → IsPlacedPointer frames q → IsPlacedTurn frames result }
{
    match (op, v) {
        (BinOp::And, Datum::Bool(true)) | (BinOp::Or, Datum::Bool(false)) => go_to(q),
        (BinOp::And, Datum::Bool(false)) | (BinOp::Or, Datum::Bool(true)) => give_value(v),
        (BinOp::And, _) | (BinOp::Or, _) => Turn::Stuck,
        _ => push(Context::OpR(op, v, at), q),
    }
}

// A condition's value chooses.
fn choose(v: Datum, first: Turn, other: Turn) -> Turn
    ensures moves { (s : PeState) → turn_move result s ≡ chosen v (turn_move first s) (turn_move other s) }
    ensures placed { (frames : Frames) → IsPlacedTurn frames first → IsPlacedTurn frames other → IsPlacedTurn frames result }
{
    match v {
        Datum::Bool(true) => first,
        Datum::Bool(false) => other,
        _ => Turn::Stuck,
    }
}

// The address of a part of the instruction at an address, if it has one of that number.
fn part_at(code: &PeCode, address: u32, i: usize) -> Option<u32>
    ensures { result ≡ slice_get (parts_at (item_at code.now address)) i }
{
    match &item_at(code, address)?.insn {
        PeInsn::Case(_, parts) => parts.as_slice().get(i).copied(),
        _ => None,
    }
}

// On with the part that a number picks.
fn pick_part(code: &PeCode, i: usize, parts: Pointer, at: Place) -> Turn
    ensures moves { (s : PeState) → turn_move result s ≡ focused_if_some (slice_get (parts_at (item_at code.now parts.address)) i) (number_of parts.frame) at s }
    ensures placed { (frames : Frames) → IsPlacedPointer frames parts → IsPlacedTurn frames result }
{
    match part_at(code, parts.address, i) {
        Some(address) => go_to(Pointer {
            address,
            frame: parts.frame,
        }),
        None => Turn::Fault {
            kind: FaultKind::Range,
            place: at,
        },
    }
}

// On with the part that an index picks.
fn pick(code: &PeCode, v: Datum, parts: Pointer, at: Place) -> Turn
    ensures moves { (s : PeState) → turn_move result s ≡ indexed v (parts_at (item_at code.now parts.address)) (number_of parts.frame) at s }
    ensures placed { (frames : Frames) → IsPlacedPointer frames parts → IsPlacedTurn frames result }
{
    match v {
        Datum::Int(n) => match usize::try_from(n) {
            Ok(i) => pick_part(code, i, parts, at),
            Err(_) => Turn::Fault {
                kind: FaultKind::Range,
                place: at,
            },
        },
        _ => Turn::Stuck,
    }
}

// A new sequence of so many cells.
fn count(v: Datum, depth: u32, body: Pointer, at: Place) -> Turn
    ensures moves { (s : PeState) → turn_move result s ≡ counted v depth (pointer_of body) at s }
    ensures placed { (frames : Frames) → IsPlacedPointer frames body → IsPlacedTurn frames result }
{
    match v {
        Datum::Int(n) => match u64::try_from(n) {
            Ok(count) => Turn::Fill(count, depth, body, at),
            Err(_) => Turn::Fault {
                kind: FaultKind::Range,
                place: at,
            },
        },
        _ => Turn::Stuck,
    }
}

/// What a datum does at a context, other than that of an index.
pub fn meet_datum(code: &PeCode, v: Datum, context: Context) -> Turn
    requires { (is_written : Bool) (name : FrameName) → context ≢ Context.Element is_written name }
    ensures moves { (s : PeState) → turn_move result s ≡ datum_meets code.now v (context_of context) s }
    ensures placed { (frames : Frames) → IsPlacedContext frames context → IsPlacedTurn frames result }
{
    match context {
        Context::Op1(op, at) => operate(apply_unary(op, v), at),
        Context::OpL(op, q, at) => meet_left(op, v, q, at),
        Context::OpR(op, u, at) => operate(apply_binary(op, u, v), at),
        Context::If(p, q) => choose(v, go_to(p), go_to(q)),
        Context::Case(parts, at) => pick(code, v, parts, at),
        Context::While(whole, body) => choose(v, push(Context::Body(whole), body), complete()),
        Context::New(depth, body) => Turn::On(Change::NewCell(depth, v, body)),
        Context::Assign(p) => push(Context::Store(v), p),
        Context::Put(kind) => Turn::Put(kind, v),
        Context::Cells(depth, body, at) => count(v, depth, body, at),
        _ => Turn::Stuck,
    }
}

/// What a finished command does at a context.
pub fn meet_completion(context: Context) -> Turn
    ensures moves { (s : PeState) → turn_move result s ≡ completion_meets (context_of context) s }
    ensures placed { (frames : Frames) → IsPlacedContext frames context → IsPlacedTurn frames result }
{
    match context {
        Context::Then(q) => go_to(q),
        Context::Body(whole) => go_to(whole),
        Context::Loop(whole) => go_to(whole),
        Context::Drop(_) => complete(),
        Context::Escape(_) => complete(),
        _ => Turn::Stuck,
    }
}
