//! What demands the newest context, and thunks that are entered.

ghost use Rattle.std.specs.Prelude.{◌≡◌, Some};
ghost use Rattle.pe_code.specs.Code.{entry_of};
ghost use Rattle.fy_phrase.specs.Copy.{own};
ghost use Rattle.pe_machine.specs.States.{PeState, datum_of, is_listed};
ghost use Rattle.pe_machine.specs.Step.{assigned, at_entry, cell_entered, entered, if_listed, is_assignment, jumped, loaded};
ghost use Rattle.pe_machine.specs.Shown.{context_of, number_of, thunk_of};
ghost use Rattle.pe_machine.specs.Names.{IsPlacedContext, IsPlacedDemand, IsPlacedLink, IsPlacedName, IsPlacedThunk, IsPlacedTurn};
ghost use Rattle.pe_machine.specs.Turns.{IsFair, demand_move, frames_of, plan_move, state_of, turn_move};

use crate::answers::{give_value, go_to};
use crate::contexts::{Context, Pointer};
use crate::core_state::Core;
use crate::frames::{FrameName, Thunk};
use crate::lookup::{datum_in, is_there};
use crate::plans::{ask, jump, stay};
use crate::sequences::enter_sequence;
use crate::turns::{Change, Demand, Plan, Turn};
use fy_base::Datum;
use fy_types::Name;
use pe_code::PeCode;

// The number of the name `len`.
const LENGTH: Name = 0;

// A cell takes a datum.
fn assign(name: FrameName, v: Datum, core: &Core) -> Turn
    requires { IsPlacedName (frames_of core.now) name }
    ensures moves { (s : PeState) → s.frames ≡ (state_of core.now).frames → turn_move result s ≡ assigned (datum_of name.number s.frames) own name.number v s }
    ensures placed { IsPlacedTurn (frames_of core.now) result }
{
    match datum_in(core, name) {
        Some(_) => Turn::On(Change::SetCell(name, v)),
        None => Turn::Gone,
    }
}

/// What the context that is asked gives.
pub fn meet_demand(demand: Demand, context: Context, core: &Core) -> Turn
    requires demand { IsPlacedDemand (frames_of core.now) demand }
    requires context { IsPlacedContext (frames_of core.now) context }
    ensures moves { (s : PeState) → s.frames ≡ (state_of core.now).frames → turn_move result s ≡ demand_move demand (context_of context) s }
    ensures placed { IsPlacedTurn (frames_of core.now) result }
{
    match (demand, context) {
        (Demand::Argument(depth, body), Context::Arg(thunk)) => {
            Turn::On(Change::Bind(depth, thunk, body))
        }
        (Demand::Selection(i, p), Context::Pick(j)) => {
            if i == j { go_to(p) } else { Turn::Stuck }
        }
        (Demand::Assigned(depth, body), Context::Store(v)) => {
            Turn::On(Change::Bind(depth, Thunk::Literal(v), body))
        }
        (Demand::Cell(name), Context::Store(v)) => assign(name, v, core),
        (Demand::Length(count), Context::Pick(i)) => {
            if i == LENGTH {
                give_value(Datum::Int(i64::from(count)))
            } else {
                Turn::Stuck
            }
        }
        _ => Turn::Stuck,
    }
}

// A node is entered at a shape, in a frame.
fn enter_source(code: &PeCode, node: u32, shape: u32, frame: Option<FrameName>, core: &Core) -> Turn
    requires { IsPlacedLink (frames_of core.now) frame }
    ensures moves { turn_move result (state_of core.now) ≡ if_listed (is_listed (number_of frame) (state_of core.now).frames) (at_entry (entry_of code.now node shape) (number_of frame) (state_of core.now)) }
    ensures placed { IsPlacedTurn (frames_of core.now) result }
{
    if !is_there(core, frame) {
        return Turn::Gone;
    }
    match code.entry(node, shape) {
        Some(address) => go_to(Pointer { address, frame }),
        None => Turn::Stuck,
    }
}

// A cell gives its datum.
fn load_cell(name: FrameName, core: &Core) -> Turn
    requires { IsPlacedName (frames_of core.now) name }
    ensures moves { turn_move result (state_of core.now) ≡ loaded (datum_of name.number (state_of core.now).frames) (state_of core.now) }
    ensures placed { IsPlacedTurn (frames_of core.now) result }
{
    match datum_in(core, name) {
        Some(v) => give_value(v),
        None => Turn::Gone,
    }
}

/// Whether the shape is the one that is meant.
pub fn is_assignment(meant: Option<u32>, shape: u32) -> bool
    ensures { result ≡ is_assignment meant shape }
{
    match meant {
        Some(number) => number == shape,
        None => false,
    }
}

// A cell takes a datum at the shape that asks for an assignment, and gives its own at every other.
fn enter_cell(code: &PeCode, shape: u32, name: FrameName, core: &Core) -> Plan
    requires { IsPlacedName (frames_of core.now) name }
    ensures moves { plan_move result (state_of core.now) ≡ cell_entered (is_assignment code.now.assignment shape) own name.number (state_of core.now) }
    ensures fair { IsFair core.now.limit (state_of core.now) result.kept }
    ensures placed { IsPlacedTurn (frames_of core.now) result.turn }
{
    if is_assignment(code.assignment, shape) {
        return ask(Demand::Cell(name), core);
    }
    stay(core, load_cell(name, core))
}

/// A jump to an escape that is still there.
pub fn enter_jump(name: FrameName, core: &Core) -> Plan
    requires { IsPlacedName (frames_of core.now) name }
    ensures moves { plan_move result (state_of core.now) ≡ if_listed (is_listed (Some name.number) (state_of core.now).frames) (jumped name.number (state_of core.now).contexts (state_of core.now)) }
    ensures fair { IsFair core.now.limit (state_of core.now) result.kept }
    ensures placed { IsPlacedTurn (frames_of core.now) result.turn }
{
    if is_there(core, Some(name)) {
        return jump(name.number, core);
    }
    stay(core, Turn::Gone)
}

/// A thunk is entered at a shape.
pub fn enter(code: &PeCode, shape: u32, thunk: Thunk, core: &Core) -> Plan
    requires { IsPlacedThunk (frames_of core.now) thunk }
    ensures moves { plan_move result (state_of core.now) ≡ entered code.now shape (thunk_of thunk) (state_of core.now) }
    ensures fair { IsFair core.now.limit (state_of core.now) result.kept }
    ensures placed { IsPlacedTurn (frames_of core.now) result.turn }
{
    match thunk {
        Thunk::Source(node, frame) => stay(core, enter_source(code, node, shape, frame, core)),
        Thunk::Literal(v) => stay(core, give_value(v)),
        Thunk::Cell(name) => enter_cell(code, shape, name, core),
        Thunk::Jump(name) => enter_jump(name, core),
        Thunk::Sequence(name) => enter_sequence(code, shape, name, core),
    }
}
