//! Sequences of cells: indices, cells and lengths.

ghost use Rattle.std.specs.Prelude.{◌≡◌, ◌≢◌, ◌-◌, ◌+◌, ◌<◌, ◌≤◌, Some, drop, length, take, true};
ghost use Rattle.fy_base.specs.declared.data.Datum.{Datum};
ghost use Rattle.fy_phrase.specs.Copy.{element};
ghost use Rattle.fy_phrase.specs.Contexts.{element_c, store_c};
ghost use Rattle.pe_machine.specs.States.{PeState, cell_of, completed, oldest, sequence_at, source, value, with_value};
ghost use Rattle.pe_machine.specs.Step.{assignment_meets, asked_at, cell_entered, element_picked, entered_plain, focused, index_entered, index_meets, push, sequence_asked, taken};
ghost use Rattle.pe_machine.specs.Shown.{number_of, thunk_of};
ghost use Rattle.pe_machine.specs.Names.{Frames, IsPlacedLink, IsPlacedName, IsPlacedThunk, IsPlacedTurn};
ghost use Rattle.pe_machine.specs.Places.{IsHeldAt};
ghost use Rattle.pe_machine.specs.Turns.{IsFair, frames_of, kept_of, picked_in, plan_move, state_of, turn_move};
ghost use Rattle.pe_machine.specs.declared.contexts.Context.{Context};
ghost use Rattle.pe_machine.specs.declared.frames.FrameName.{FrameName};
ghost use Rattle.pe_machine.specs.declared.frames.Thunk.{Thunk};

use crate::answers::give_value;
use crate::contexts::{Context, Held, Pointer};
use crate::core_state::Core;
use crate::demands::{enter_jump, is_assignment};
use crate::frames::{FrameName, Thunk};
use crate::lookup::{Extent, datum_in, extent_of, is_there};
use crate::plans::{ask, kept_before, kept_taken, newest, stay};
use crate::turns::{Change, Demand, Kept, Plan, Turn};
use fy_base::{Datum, FaultKind};
use pe_code::PeCode;

// The context of the cell that an index picks, and on with the index.
fn index_with(v: Datum, is_written: bool, name: FrameName) -> Turn
    ensures moves { (s : PeState) → turn_move result s ≡ focused (value v) (push (element_c (record { is_written = is_written; number = name.number })) s) }
    ensures placed { (frames : Frames) → IsPlacedName frames name → IsPlacedTurn frames result }
{
    Turn::On(Change::PushValue(Context::Element(is_written, name), v))
}

// The same where the index is a node of the source.
fn index_from(
    code: &PeCode,
    shape: u32,
    node: u32,
    frame: Option<FrameName>,
    is_written: bool,
    name: FrameName,
    core: &Core,
) -> Turn
    requires frame { IsPlacedLink (frames_of core.now) frame }
    requires name { IsPlacedName (frames_of core.now) name }
    ensures moves { (s : PeState) → s.frames ≡ (state_of core.now).frames →
        turn_move result s ≡ entered_plain code.now shape (source node (number_of frame)) (push (element_c (record { is_written = is_written; number = name.number })) s) }
    ensures placed { IsPlacedTurn (frames_of core.now) result }
{
    if !is_there(core, frame) {
        return Turn::Gone;
    }
    match code.entry(node, shape) {
        Some(address) => Turn::On(Change::Push(
            Context::Element(is_written, name),
            Pointer { address, frame },
        )),
        None => Turn::Stuck,
    }
}

// The same where it is a cell.
fn index_in(
    code: &PeCode,
    shape: u32,
    cell: FrameName,
    is_written: bool,
    name: FrameName,
    core: &Core,
) -> Turn
    requires cell { IsPlacedName (frames_of core.now) cell }
    requires name { IsPlacedName (frames_of core.now) name }
    ensures moves { (s : PeState) → s.frames ≡ (state_of core.now).frames →
        turn_move result s ≡ entered_plain code.now shape (cell_of cell.number) (push (element_c (record { is_written = is_written; number = name.number })) s) }
    ensures placed { IsPlacedTurn (frames_of core.now) result }
{
    if is_assignment(code.assignment, shape) {
        return Turn::Stuck;
    }
    match datum_in(core, cell) {
        Some(v) => index_with(v, is_written, name),
        None => Turn::Gone,
    }
}

// The same for an index that doesn't jump.
fn index_turn(
    code: &PeCode,
    shape: u32,
    thunk: Thunk,
    is_written: bool,
    name: FrameName,
    core: &Core,
) -> Turn
    requires stays { (jump : FrameName) → thunk ≢ Thunk.Jump jump }
    requires thunk { IsPlacedThunk (frames_of core.now) thunk }
    requires name { IsPlacedName (frames_of core.now) name }
    ensures moves { (s : PeState) → s.frames ≡ (state_of core.now).frames →
        turn_move result s ≡ entered_plain code.now shape (thunk_of thunk) (push (element_c (record { is_written = is_written; number = name.number })) s) }
    ensures placed { IsPlacedTurn (frames_of core.now) result }
{
    match thunk {
        Thunk::Source(node, frame) => index_from(code, shape, node, frame, is_written, name, core),
        Thunk::Literal(v) => index_with(v, is_written, name),
        Thunk::Cell(cell) => index_in(code, shape, cell, is_written, name, core),
        Thunk::Sequence(_) => Turn::Stuck,
        Thunk::Jump(_) => unreachable!(),
    }
}

// An index is entered at a shape, where the newest context has it. A jump takes off that context anyway.
fn enter_index(
    code: &PeCode,
    shape: u32,
    thunk: Thunk,
    is_written: bool,
    name: FrameName,
    held: Held,
    core: &Core,
) -> Plan
    requires held { IsHeldAt held (length core.now.contexts.items - 1) core.now.contexts.items }
    requires argument { held.context ≡ Context.Arg thunk }
    requires thunk { IsPlacedThunk (frames_of core.now) thunk }
    requires name { IsPlacedName (frames_of core.now) name }
    ensures moves { plan_move result (state_of core.now) ≡ taken (λ c s. index_entered code.now (Some shape) (record { is_written = is_written; number = name.number }) (thunk_of thunk) s) (state_of core.now).contexts (state_of core.now) }
    ensures fair { IsFair core.now.limit (state_of core.now) result.kept }
    ensures placed { IsPlacedTurn (frames_of core.now) result.turn }
{
    match thunk {
        Thunk::Jump(jump) => enter_jump(jump, core),
        _ => Plan {
            kept: kept_taken(core),
            turn: index_turn(code, shape, thunk, is_written, name, core),
        },
    }
}

// The same at the shape of a value, where there is one.
fn enter_at_value(
    code: &PeCode,
    thunk: Thunk,
    is_written: bool,
    name: FrameName,
    held: Held,
    core: &Core,
) -> Plan
    requires held { IsHeldAt held (length core.now.contexts.items - 1) core.now.contexts.items }
    requires argument { held.context ≡ Context.Arg thunk }
    requires thunk { IsPlacedThunk (frames_of core.now) thunk }
    requires name { IsPlacedName (frames_of core.now) name }
    ensures moves { plan_move result (state_of core.now) ≡ taken (λ c s. index_entered code.now code.now.sequences.value (record { is_written = is_written; number = name.number }) (thunk_of thunk) s) (state_of core.now).contexts (state_of core.now) }
    ensures fair { IsFair core.now.limit (state_of core.now) result.kept }
    ensures placed { IsPlacedTurn (frames_of core.now) result.turn }
{
    match code.sequences.value {
        Some(shape) => enter_index(code, shape, thunk, is_written, name, held, core),
        None => stay(core, Turn::Stuck),
    }
}

// A sequence takes its index.
fn take_index(code: &PeCode, is_written: bool, name: FrameName, core: &Core) -> Plan
    requires { IsPlacedName (frames_of core.now) name }
    ensures moves { plan_move result (state_of core.now) ≡ taken (index_meets code.now (record { is_written = is_written; number = name.number })) (state_of core.now).contexts (state_of core.now) }
    ensures fair { IsFair core.now.limit (state_of core.now) result.kept }
    ensures placed { IsPlacedTurn (frames_of core.now) result.turn }
{
    match newest(core) {
        None => stay(core, Turn::Stuck),
        Some(held) => match held.context {
            Context::Arg(thunk) => enter_at_value(code, thunk, is_written, name, held, core),
            _ => stay(core, Turn::Stuck),
        },
    }
}

/// A sequence is entered at a shape: it takes an index, or tells its length.
pub fn enter_sequence(code: &PeCode, shape: u32, name: FrameName, core: &Core) -> Plan
    requires { IsPlacedName (frames_of core.now) name }
    ensures moves { plan_move result (state_of core.now) ≡ sequence_asked code.now (asked_at code.now.sequences shape) name.number (sequence_at name.number (state_of core.now).frames) (state_of core.now) }
    ensures fair { IsFair core.now.limit (state_of core.now) result.kept }
    ensures placed { IsPlacedTurn (frames_of core.now) result.turn }
{
    let Some(extent) = extent_of(core, core.frames.len(), name) else {
        return stay(core, Turn::Gone);
    };
    let shapes = code.sequences;
    if is_assignment(shapes.element, shape) {
        return take_index(code, false, name, core);
    }
    if is_assignment(shapes.assigned_element, shape) {
        return take_index(code, true, name, core);
    }
    if is_assignment(shapes.row_length, shape) {
        return ask(Demand::Length(extent.count), core);
    }
    stay(core, Turn::Stuck)
}

// ---- a cell

// The context under that of an index has the datum that the cell takes.
fn write_cell(i: u32, name: FrameName, held: Held, core: &Core) -> Plan
    requires held { IsHeldAt held (length core.now.contexts.items - 1) core.now.contexts.items }
    requires name { IsPlacedName (frames_of core.now) name }
    requires there { (v : Datum) (s : PeState) → s.frames ≡ oldest held.frames (state_of core.now).frames → assignment_meets (element i) name.number (store_c v) s ≡ focused completed (record s { frames = with_value (element i) name.number v s.frames }) }
    ensures moves { plan_move result (state_of core.now) ≡ cell_entered true (element i) name.number (kept_of (record { contexts = length core.now.contexts.items - 1; frames = held.frames; load = held.base }) (state_of core.now)) }
    ensures fair { IsFair core.now.limit (state_of core.now) result.kept }
    ensures placed { IsPlacedTurn (frames_of core.now) result.turn }
{
    let count = core.contexts.len();
    if count < 2 {
        return stay(core, Turn::Stuck);
    }
    match core.contexts[count - 2].context {
        Context::Store(v) => Plan {
            kept: Kept {
                contexts: count - 2,
                frames: held.frames as usize,
                load: held.base,
            },
            turn: Turn::On(Change::SetElement(name, i, v)),
        },
        _ => stay(core, Turn::Stuck),
    }
}

// The cell is there: it is written or read.
fn pick_cell(
    i: u32,
    extent: Extent,
    is_written: bool,
    name: FrameName,
    held: Held,
    core: &Core,
) -> Plan
    requires held { IsHeldAt held (length core.now.contexts.items - 1) core.now.contexts.items }
    requires name { IsPlacedName (frames_of core.now) name }
    requires fewer { i < extent.count }
    requires inside { extent.start + extent.count ≤ length core.now.cells.items }
    requires extent { sequence_at name.number (oldest held.frames (state_of core.now).frames) ≡ Some (record { place = extent.place; values = take extent.count (drop extent.start core.now.cells.items) }) }
    ensures moves { plan_move result (state_of core.now) ≡ cell_entered is_written (element i) name.number (kept_of (record { contexts = length core.now.contexts.items - 1; frames = held.frames; load = held.base }) (state_of core.now)) }
    ensures fair { IsFair core.now.limit (state_of core.now) result.kept }
    ensures placed { IsPlacedTurn (frames_of core.now) result.turn }
{
    if is_written {
        return write_cell(i, name, held, core);
    }
    let v = core.cells[(extent.start + i) as usize];
    Plan {
        kept: kept_before(core, core.contexts.len() - 1, held),
        turn: give_value(v),
    }
}

// A number picks a cell, or there is none.
fn pick_in(
    v: Datum,
    extent: Extent,
    is_written: bool,
    name: FrameName,
    held: Held,
    core: &Core,
) -> Plan
    requires held { IsHeldAt held (length core.now.contexts.items - 1) core.now.contexts.items }
    requires name { IsPlacedName (frames_of core.now) name }
    requires inside { extent.start + extent.count ≤ length core.now.cells.items }
    requires extent { sequence_at name.number (oldest held.frames (state_of core.now).frames) ≡ Some (record { place = extent.place; values = take extent.count (drop extent.start core.now.cells.items) }) }
    ensures moves { plan_move result (state_of core.now) ≡ picked_in v extent.count extent.place
        (λ i. cell_entered is_written (element i) name.number (kept_of (record { contexts = length core.now.contexts.items - 1; frames = held.frames; load = held.base }) (state_of core.now))) }
    ensures fair { IsFair core.now.limit (state_of core.now) result.kept }
    ensures placed { IsPlacedTurn (frames_of core.now) result.turn }
{
    let fault = Turn::Fault {
        kind: FaultKind::Range,
        place: extent.place,
    };
    match v {
        Datum::Int(n) => match u64::try_from(n) {
            Ok(i) => {
                if i < u64::from(extent.count) {
                    return pick_cell(i as u32, extent, is_written, name, held, core);
                }
                stay(core, fault)
            }
            Err(_) => stay(core, fault),
        },
        _ => stay(core, Turn::Stuck),
    }
}

/// A datum answers the context of an index: the cell that it picks is read or written.
pub fn pick(v: Datum, is_written: bool, name: FrameName, held: Held, core: &Core) -> Plan
    requires held { IsHeldAt held (length core.now.contexts.items - 1) core.now.contexts.items }
    requires name { IsPlacedName (frames_of core.now) name }
    ensures moves { plan_move result (state_of core.now) ≡ element_picked v (record { is_written = is_written; number = name.number }) (sequence_at name.number (oldest held.frames (state_of core.now).frames))
        (kept_of (record { contexts = length core.now.contexts.items - 1; frames = held.frames; load = held.base }) (state_of core.now)) }
    ensures fair { IsFair core.now.limit (state_of core.now) result.kept }
    ensures placed { IsPlacedTurn (frames_of core.now) result.turn }
{
    match extent_of(core, held.frames as usize, name) {
        Some(extent) => pick_in(v, extent, is_written, name, held, core),
        None => stay(core, Turn::Gone),
    }
}
