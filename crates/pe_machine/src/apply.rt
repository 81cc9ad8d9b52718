//! Plans are carried out.

ghost use Rattle.std.specs.Prelude.{◌≡◌, ◌+◌, ◌^◌, ◌<◌, ◌≤◌, ◌++◌, List, length, pos, replicate, take, vec_len, vec_capacity};
ghost use Rattle.fy_base.specs.declared.data.Datum.{Datum};
ghost use Rattle.fy_phrase.specs.Copy.{element};
ghost use Rattle.pe_machine.specs.States.{PeState, with_datum, with_cell, with_value};
ghost use Rattle.pe_machine.specs.Run.{load_after};
ghost use Rattle.pe_machine.specs.Step.{bind, bound, focus_on, goes, push};
ghost use Rattle.pe_machine.specs.Sound.{AreLaid, count_in};
ghost use Rattle.pe_machine.specs.Shown.{binding_of, context_of, focus_of, fresh_binding, number_of};
ghost use Rattle.pe_machine.specs.Names.{Frames, IsPlacedBinding, IsPlacedChange, IsPlacedContext, IsPlacedFocus, IsPlacedLink, IsPlacedName};
ghost use Rattle.pe_machine.specs.Turns.{IsFair, change_move, frames_of, kept_of, state_of};

use crate::contexts::{Context, Focus, Held, Pointer};
use crate::core_state::Core;
use crate::frames::{Binding, Frame, FrameName};
use crate::lookup::place_of;
use crate::turns::{Change, Kept};
use fy_base::Datum;

/// Another focus.
pub fn set_focus(core: &mut Core, focus: Focus)
    requires { IsPlacedFocus (frames_of core.old) focus }
    ensures state { state_of core.new ≡ focus_on (focus_of focus) (state_of core.old) }
    ensures limit { core.new.limit ≡ core.old.limit }
    ensures next { core.new.next ≡ core.old.next }
    ensures load { core.new.load ≡ core.old.load }
{
    core.focus = focus;
}

// How many cells the oldest frames have.
fn cells_before(core: &Core, frames: usize) -> usize
    ensures laid { AreLaid 0 (take frames core.now.frames.items) result }
    ensures within { result ≤ length core.now.cells.items }
{
    match core.frames.as_slice().get(frames) {
        Some(frame) => frame.cells as usize,
        None => core.cells.len(),
    }
}

/// Cuts the stacks back.
#[tactic(auto, using(crate::proofs::Stacks::stacks))]
pub fn cut(core: &mut Core, kept: Kept)
    requires { IsFair core.old.limit (state_of core.old) kept }
    ensures state { state_of core.new ≡ kept_of kept (state_of core.old) }
    ensures frames { frames_of core.new ≡ record (frames_of core.old) { items = take kept.frames core.old.frames.items } }
    ensures limit { core.new.limit ≡ core.old.limit }
    ensures next { core.new.next ≡ core.old.next }
    ensures load { core.new.load ≡ kept.load }
{
    let cells = cells_before(core, kept.frames);
    core.contexts.truncate(kept.contexts);
    core.frames.truncate(kept.frames);
    core.cells.truncate(cells);
    core.load = kept.load;
}

/// Pushes a context, which fits the limit.
#[tactic(auto, using(crate::proofs::Stacks::stacks))]
pub fn push_context(core: &mut Core, context: Context)
    requires load { core.old.load + 8 ≤ core.old.limit }
    requires placed { IsPlacedContext (frames_of core.old) context }
    ensures state { state_of core.new ≡ push (context_of context) (state_of core.old) }
    ensures frames { frames_of core.new ≡ frames_of core.old }
    ensures limit { core.new.limit ≡ core.old.limit }
    ensures next { core.new.next ≡ core.old.next }
    ensures load { core.new.load ≡ core.old.load + 8 }
{
    let held = Held {
        base: core.load,
        frames: core.frames.len() as u32,
        context,
    };
    match core.contexts.push(held) {
        Ok(()) => {}
        Err(_) => unreachable!(),
    }
    core.load += 8;
}

// How many cells are made with a frame.
fn count_in(binding: Binding) -> u32
    ensures { result ≡ count_in binding }
{
    match binding {
        Binding::ToSequence(_, count) => count,
        _ => 0,
    }
}

// Adds so many cells, each with 0, for which there is room.
fn add_cells(cells: &mut Vec<Datum>, count: u32)
    requires { vec_len cells.old + count ≤ vec_capacity cells.old }
    ensures items { cells.new.items ≡ cells.old.items ++ replicate count (Datum.Int (pos 0)) }
    ensures len { vec_len cells.new ≡ vec_len cells.old + count }
    ensures room { vec_capacity cells.old ≤ vec_capacity cells.new }
{
    for k in 0..count {
        match cells.push(Datum::Int(0)) {
            Ok(()) => {}
            Err(_) => unreachable!(),
        }
    }
}

// Makes a frame, with the cells of its sequence, which fits the limit, and names it.
#[tactic(auto, using(crate::proofs::Stacks::stacks))]
fn push_frame(core: &mut Core, depth: u32, binding: Binding, around: Option<FrameName>) -> FrameName
    requires load { (count_in binding + core.old.load) + (8 + depth) ≤ core.old.limit }
    requires next { core.old.next + 1 < 2 ^ 64 }
    requires binding { IsPlacedBinding (frames_of core.old) binding }
    requires around { IsPlacedLink (frames_of core.old) around }
    ensures state { state_of core.new ≡ bind depth (fresh_binding binding) (number_of around) (record (state_of core.old) { load = count_in binding + core.old.load }) }
    ensures number { result.number ≡ core.old.next }
    ensures placed { IsPlacedName (frames_of core.new) result }
    ensures limit { core.new.limit ≡ core.old.limit }
    ensures next { core.new.next ≡ core.old.next + 1 }
{
    let name = FrameName {
        place: core.frames.len() as u32,
        number: core.next,
    };
    let frame = Frame {
        number: core.next,
        depth,
        binding,
        around,
        cells: core.cells.len() as u32,
    };
    let count = count_in(binding);
    add_cells(&mut core.cells, count);
    match core.frames.push(frame) {
        Ok(()) => {}
        Err(_) => unreachable!(),
    }
    core.next += 1;
    core.load += u64::from(count) + 8 + u64::from(depth);
    name
}

/// Makes a frame, with the cells of its sequence, and goes on with the body in it.
pub fn enter_body(core: &mut Core, depth: u32, binding: Binding, body: Pointer)
    requires load { (count_in binding + core.old.load) + (8 + depth) ≤ core.old.limit }
    requires next { core.old.next + 1 < 2 ^ 64 }
    requires binding { IsPlacedBinding (frames_of core.old) binding }
    requires around { IsPlacedLink (frames_of core.old) body.frame }
    ensures state { bound depth (fresh_binding binding) body.address (number_of body.frame) (record (state_of core.old) { load = count_in binding + core.old.load }) ≡ goes (state_of core.new) }
    ensures limit { core.new.limit ≡ core.old.limit }
    ensures next { core.new.next ≡ core.old.next + 1 }
{
    let name = push_frame(core, depth, binding, body.frame);
    let inner = Pointer {
        address: body.address,
        frame: Some(name),
    };
    set_focus(core, Focus::Code(inner));
}

// A cell holds another datum.
fn with_datum(binding: Binding, v: Datum) -> Binding
    ensures binding { (cells : List Datum) → binding_of cells result ≡ with_datum v (binding_of cells binding) }
    ensures count { count_in result ≡ count_in binding }
    ensures placed { (frames : Frames) → IsPlacedBinding frames binding → IsPlacedBinding frames result }
{
    match binding {
        Binding::ToCell(_) => Binding::ToCell(v),
        other => other,
    }
}

// The cell of a frame takes a datum, if the frame is there.
fn set_cell(core: &mut Core, name: FrameName, v: Datum)
    requires { IsPlacedName (frames_of core.old) name }
    ensures state { state_of core.new ≡ record (state_of core.old) { frames = with_cell name.number v (state_of core.old).frames } }
    ensures limit { core.new.limit ≡ core.old.limit }
    ensures next { core.new.next ≡ core.old.next }
{
    if let Some(place) = place_of(core, core.frames.len(), name) {
        let frame = core.frames[place];
        core.frames[place] = Frame {
            number: frame.number,
            depth: frame.depth,
            binding: with_datum(frame.binding, v),
            around: frame.around,
            cells: frame.cells,
        };
    }
}

// The cell of an index in the sequence of a frame takes a datum, if it is there.
fn set_element(core: &mut Core, name: FrameName, i: u32, v: Datum)
    requires { IsPlacedName (frames_of core.old) name }
    ensures state { state_of core.new ≡ record (state_of core.old) { frames = with_value (element i) name.number v (state_of core.old).frames } }
    ensures limit { core.new.limit ≡ core.old.limit }
    ensures next { core.new.next ≡ core.old.next }
{
    if let Some(place) = place_of(core, core.frames.len(), name) {
        let frame = core.frames[place];
        if i < count_in(frame.binding) {
            let at = (frame.cells + i) as usize;
            core.cells[at] = v;
        }
    }
}

// The load grows alone.
fn add_to_load(core: &mut Core, words: u64)
    requires { core.old.load + words ≤ core.old.limit }
    ensures state { state_of core.new ≡ record (state_of core.old) { load = core.old.load + words } }
    ensures limit { core.new.limit ≡ core.old.limit }
    ensures next { core.new.next ≡ core.old.next }
{
    core.load += words;
}

/// What a change adds to the load.
pub fn cost_of(change: Change) -> u64
    ensures cost { (s : PeState) → load_after (change_move change s) ≡ s.load + result }
    ensures small { result < 2 ^ 33 }
{
    match change {
        Change::Focus(_) => 0,
        Change::Push(..) => 8,
        Change::PushValue(..) => 8,
        Change::Bind(depth, ..) => 8 + u64::from(depth),
        Change::NewCell(depth, ..) => 16 + u64::from(depth),
        Change::NewEscape(depth, _) => 16 + u64::from(depth),
        Change::SetCell(..) => 0,
        Change::SetElement(..) => 0,
        Change::Assign(..) => 8,
    }
}

/// Makes a change, which fits the limit.
pub fn make(core: &mut Core, change: Change)
    requires load { load_after (change_move change (state_of core.old)) ≤ core.old.limit }
    requires next { core.old.next + 1 < 2 ^ 64 }
    requires placed { IsPlacedChange (frames_of core.old) change }
    ensures state { change_move change (state_of core.old) ≡ goes (state_of core.new) }
    ensures limit { core.new.limit ≡ core.old.limit }
    ensures next { core.new.next ≤ core.old.next + 1 }
{
    match change {
        Change::Focus(focus) => set_focus(core, focus),
        Change::Push(context, p) => {
            push_context(core, context);
            set_focus(core, Focus::Code(p));
        }
        Change::PushValue(context, v) => {
            push_context(core, context);
            set_focus(core, Focus::Value(v));
        }
        Change::Bind(depth, thunk, body) => {
            enter_body(core, depth, Binding::ToThunk(thunk), body);
        }
        Change::NewCell(depth, v, body) => {
            let number = core.next;
            push_context(core, Context::Drop(number));
            enter_body(core, depth, Binding::ToCell(v), body);
        }
        Change::NewEscape(depth, body) => {
            let number = core.next;
            push_context(core, Context::Escape(number));
            enter_body(core, depth, Binding::ToEscape, body);
        }
        Change::SetCell(name, v) => {
            set_cell(core, name, v);
            set_focus(core, Focus::Completed);
        }
        Change::SetElement(name, i, v) => {
            set_element(core, name, i, v);
            set_focus(core, Focus::Completed);
        }
        Change::Assign(name, v) => {
            set_cell(core, name, v);
            add_to_load(core, 8);
            set_focus(core, Focus::Completed);
        }
    }
}
