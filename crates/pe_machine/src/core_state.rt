//! What a step changes.

ghost use Rattle.std.specs.Prelude.{◌+◌, ◌*◌, ◌^◌, ◌<◌, ◌≤◌, [], length, vec_len, vec_capacity};
ghost use Rattle.pe_machine.specs.Shown.{frames_onto, contexts_onto};
ghost use Rattle.pe_machine.specs.Sound.{IsNumbered, AreBased, AreLaid, numbered_prop, based_prop, laid_prop};
ghost use Rattle.pe_machine.specs.Names.{ArePlacedContexts, ArePlacedFrames, IsPlacedFocus, contexts_prop, focus_prop, frames_prop};

use crate::contexts::{Focus, Held};
use crate::frames::Frame;
use fy_base::Datum;

/// What a step changes, with the newest contexts, frames and cells of sequences last, and the limit on
/// the load. Frames and contexts take at least 8 of the load each and cells 1, so there is room for all
/// that the limit lets stand. Each name that is held leads to its frame, if that is still there.
#[derive(Debug, Drop)]
pub struct Core {
    pub focus: Focus,
    pub contexts: Vec<Held>,
    pub frames: Vec<Frame>,
    pub cells: Vec<Datum>,
    pub next: u64,
    pub load: u64,
    pub limit: u64,
    ghost numbered: { IsNumbered next (frames_onto cells.items [] frames.items) } by { numbered_prop next (frames_onto cells.items [] frames.items) },
    ghost laid: { AreLaid 0 frames.items (length cells.items) } by { laid_prop 0 frames.items (length cells.items) },
    ghost based: { AreBased limit (frames_onto cells.items [] frames.items) (contexts_onto [] contexts.items) } by { based_prop limit (frames_onto cells.items [] frames.items) (contexts_onto [] contexts.items) },
    ghost focus_placed: { IsPlacedFocus (record { items = frames.items; next = next }) focus } by { focus_prop (record { items = frames.items; next = next }) focus },
    ghost contexts_placed: { ArePlacedContexts (record { items = frames.items; next = next }) contexts.items } by { contexts_prop (record { items = frames.items; next = next }) contexts.items },
    ghost frames_placed: { ArePlacedFrames (record { items = frames.items; next = next }) } by { frames_prop (record { items = frames.items; next = next }) },
    ghost counted: { 8 * (vec_len frames + vec_len contexts) ≤ load },
    ghost cells_counted: { vec_len cells ≤ load },
    ghost within: { load ≤ limit },
    ghost small: { limit < 2 ^ 32 },
    ghost frame_room: { limit < 8 * (vec_capacity frames + 1) },
    ghost context_room: { limit < 8 * (vec_capacity contexts + 1) },
    ghost cell_room: { limit ≤ vec_capacity cells },
}
