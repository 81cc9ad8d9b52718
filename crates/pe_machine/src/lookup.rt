//! Frames by their names.

ghost use Rattle.std.specs.Prelude.{◌≡◌, ◌+◌, ◌<◌, ◌≤◌, ◌^◌, List, IfSome, MatchOption, None, Some, drop, length, take};
ghost use Rattle.fy_base.specs.declared.data.Datum.{Datum};
ghost use Rattle.std.specs.Option.{option_map};
ghost use Rattle.pe_machine.specs.States.{PeState, datum_in as datum_bound, datum_of, frame_outside, is_listed, oldest, sequence_at};
ghost use Rattle.pe_code.specs.Straight.{cell_read};
ghost use Rattle.pe_machine.specs.Step.{cell_set, own_cell as own_cell_of, own_cell_set};
ghost use Rattle.pe_machine.specs.Shown.{frame_of, number_of, reading_of, thunk_of};
ghost use Rattle.pe_machine.specs.Names.{Frames, IsPlacedBinding, IsPlacedLink, IsPlacedName, IsPlacedOwnCell, IsPlacedThunk};
ghost use Rattle.pe_machine.specs.Places.{IsOutside, IsPlace, handed_by};
ghost use Rattle.pe_machine.specs.Turns.{frames_of, set_move, state_of};

use crate::core_state::Core;
use crate::frames::{Binding, Frame, FrameName, Thunk};
use fy_base::{Datum, Place};

/// The place of the frame that is named among the oldest `end` frames. A frame that is there stands at the
/// place of its name, so no other is looked at.
pub fn place_of(core: &Core, end: usize, name: FrameName) -> Option<usize>
    requires end { end ≤ length core.now.frames.items }
    requires placed { IsPlacedName (frames_of core.now) name }
    ensures { IsPlace core.now.frames.items end name.number result }
{
    let place = name.place as usize;
    if place < end && core.frames[place].number == name.number {
        return Some(place);
    }
    None
}

// The place of the frame so many links outside the one that is named, if one is.
fn place_outside(core: &Core, links: u32, frame: Option<FrameName>) -> Option<usize>
    requires { IsPlacedLink (frames_of core.now) frame }
    ensures { IsOutside core.now.cells.items core.now.frames.items links frame result }
{
    let mut end = core.frames.len();
    let mut name = frame?;
    let mut left = links;
    while left > 0 {
        end = place_of(core, end, name)?;
        name = core.frames[end].around?;
        left -= 1;
    }
    place_of(core, end, name)
}

// What a variable of the frame at a place hands on.
fn handed_on(place: usize, frame: Frame) -> Thunk
    requires { place < 2 ^ 32 }
    ensures thunk { (cells : List Datum) → thunk_of result ≡ handed_by (frame_of cells frame) }
    ensures placed { (frames : Frames) → IsPlacedBinding frames frame.binding → IsPlacedName frames (record { place = place; number = frame.number }) → IsPlacedThunk frames result }
{
    let name = FrameName {
        place: place as u32,
        number: frame.number,
    };
    match frame.binding {
        Binding::ToThunk(thunk) => thunk,
        Binding::ToCell(_) => Thunk::Cell(name),
        Binding::ToEscape => Thunk::Jump(name),
        Binding::ToSequence(..) => Thunk::Sequence(name),
    }
}

/// What the variable of the frame so many links outside the one that is named hands on. `None` is that a
/// frame isn't there.
pub fn variable(core: &Core, links: u32, frame: Option<FrameName>) -> Option<Thunk>
    requires { IsPlacedLink (frames_of core.now) frame }
    ensures thunk { option_map thunk_of result ≡ option_map handed_by (frame_outside (state_of core.now).frames links (number_of frame)) }
    ensures placed { IfSome result (IsPlacedThunk (frames_of core.now)) }
{
    let place = place_outside(core, links, frame)?;
    Some(handed_on(place, core.frames[place]))
}

/// What is found where a variable's own cell is looked for.
#[derive(Clone, Copy, Debug)]
pub enum OwnCell {
    /// The frame that holds it, and its datum.
    Reads(FrameName, Datum),
    NoCell,
    NoFrame,
}

// What the frame at a place holds itself.
fn cell_at(place: usize, frame: Frame) -> OwnCell
    requires { place < 2 ^ 32 }
    ensures reading { (cells : List Datum) → reading_of result ≡ cell_read (datum_bound (frame_of cells frame).binding) }
    ensures set { (cells : List Datum) (v : Datum) (s : PeState) → set_move result v s ≡ cell_set (datum_bound (frame_of cells frame).binding) frame.number v s }
    ensures placed { (frames : Frames) → IsPlacedName frames (record { place = place; number = frame.number }) → IsPlacedOwnCell frames result }
{
    let name = FrameName {
        place: place as u32,
        number: frame.number,
    };
    match frame.binding {
        Binding::ToThunk(_) => OwnCell::NoCell,
        Binding::ToCell(v) => OwnCell::Reads(name, v),
        Binding::ToEscape => OwnCell::NoCell,
        Binding::ToSequence(..) => OwnCell::NoCell,
    }
}

/// The cell of the frame so many links outside the one that is named.
pub fn own_cell(core: &Core, links: u32, frame: Option<FrameName>) -> OwnCell
    requires { IsPlacedLink (frames_of core.now) frame }
    ensures reading { reading_of result ≡ own_cell_of (frame_outside (state_of core.now).frames links (number_of frame)) }
    ensures set { (v : Datum) (s : PeState) → set_move result v s ≡ own_cell_set (frame_outside (state_of core.now).frames links (number_of frame)) v s }
    ensures placed { IsPlacedOwnCell (frames_of core.now) result }
{
    match place_outside(core, links, frame) {
        Some(place) => cell_at(place, core.frames[place]),
        None => OwnCell::NoFrame,
    }
}

/// Whether the frame that is named is there; where none is named, nothing is missing.
pub fn is_there(core: &Core, frame: Option<FrameName>) -> bool
    requires { IsPlacedLink (frames_of core.now) frame }
    ensures { result ≡ is_listed (number_of frame) (state_of core.now).frames }
{
    match frame {
        None => true,
        Some(name) => place_of(core, core.frames.len(), name).is_some(),
    }
}

/// The datum in the cell of the frame that is named. `None` is that the frame isn't there, or holds no cell.
pub fn datum_in(core: &Core, name: FrameName) -> Option<Datum>
    requires { IsPlacedName (frames_of core.now) name }
    ensures { result ≡ datum_of name.number (state_of core.now).frames }
{
    let place = place_of(core, core.frames.len(), name)?;
    match core.frames[place].binding {
        Binding::ToCell(v) => Some(v),
        _ => None,
    }
}

/// Where the cells of a sequence are: from which on, so many of them, and the place of their `Cells`.
#[derive(Clone, Copy, Debug)]
pub struct Extent {
    pub start: u32,
    pub count: u32,
    pub place: Place,
}

/// The cells of the sequence of the frame that is named, which is among the oldest `end` frames. `None` is that the
/// frame isn't there, or holds no sequence.
pub fn extent_of(core: &Core, end: usize, name: FrameName) -> Option<Extent>
    requires end { end ≤ length core.now.frames.items }
    requires placed { IsPlacedName (frames_of core.now) name }
    ensures extent { MatchOption result (sequence_at name.number (oldest end (state_of core.now).frames) ≡ None)
        (λ x. sequence_at name.number (oldest end (state_of core.now).frames) ≡ Some (record { place = x.place; values = take x.count (drop x.start core.now.cells.items) })) }
    ensures inside { IfSome result (λ x. x.start + x.count ≤ length core.now.cells.items) }
{
    let place = place_of(core, end, name)?;
    let frame = core.frames[place];
    match frame.binding {
        Binding::ToSequence(at, count) => Some(Extent {
            start: frame.cells,
            count,
            place: at,
        }),
        _ => None,
    }
}
