//! Sequences that get their cells one by one, and indices into them.

ghost use Rattle.std.specs.Prelude.{◌≡◌, ◌≤◌, ◌<◌, ◌+◌, ◌^◌, pos, IfOk, OnErr, vec_len, vec_capacity};
ghost use Rattle.fy_phrase.specs.Reads.{reads};
ghost use Rattle.fy_phrase.specs.Copy.{CopyMove, bound_filled, content_of, counted, datum_under, element_picked, one_more};
ghost use Rattle.fy_phrase.specs.Contexts.{cells_c, drop_c};
ghost use Rattle.fy_copy.specs.Shown.{filling_of, state_of, with_context};
ghost use Rattle.fy_copy.specs.Store.{picked_in};
ghost use Rattle.fy_copy.specs.Moves.{Binds, Moved};
ghost use Rattle.fy_copy.specs.Low.{LOW};

use crate::context::{Content, Context, Core, Extent, Filling, Frame};
use crate::progress::{Body, Turn};
use crate::store::{add_row, extent_of, lengthen};
use crate::words::{bind, close_with_mark, enter, integer, put_back, set_focus};
use fy_base::{Datum, FaultKind, OutOfMemory, Place};
use fy_phrase::{MarkKind, Phrase};
use std::alloc::Global;

fn pick_at(extent: Extent, i: u64, n: u64, here: Place, core: &mut Core) -> Turn
    ensures { Moved result (picked_in extent (Datum.Int (pos i)) n here (state_of core.old)) (state_of core.new) }
{
    if i < extent.count {
        set_focus(core, Phrase::Mark(MarkKind::Element(n, i), here));
        return Turn::Going;
    }
    Turn::Fault {
        kind: FaultKind::Range,
        place: extent.place,
    }
}

fn pick_in(extent: Extent, v: Datum, n: u64, here: Place, core: &mut Core) -> Turn
    ensures { Moved result (picked_in extent v n here (state_of core.old)) (state_of core.new) }
{
    match v {
        Datum::Int(i) => match u64::try_from(i) {
            Ok(i) => pick_at(extent, i, n, here, core),
            Err(_) => Turn::Fault {
                kind: FaultKind::Range,
                place: extent.place,
            },
        },
        _ => Turn::Stuck,
    }
}

/// The cell of a sequence that an index picks.
pub fn pick_element(v: Datum, n: u64, here: Place, core: &mut Core) -> Turn
    ensures { Moved result (element_picked v n (content_of n (state_of core.old).store) here (state_of core.old)) (state_of core.new) }
{
    match extent_of(core.store.as_slice(), n) {
        None => Turn::Stuck,
        Some(extent) => pick_in(extent, v, n, here, core),
    }
}

// A new sequence without cells, which is to get so many.
fn begin(
    alloc: Global,
    count: u64,
    depth: u32,
    body: Phrase,
    place: Place,
    base: u64,
    core: &mut Core,
) -> Result<Turn, OutOfMemory>
    requires room { vec_len core.old.contexts < vec_capacity core.old.contexts }
    requires base { base ≤ LOW }
    requires small { count < 2 ^ 63 }
    ensures ok { IfOk result (λ turn. Moved turn (counted (Datum.Int (pos count)) depth (reads body) place (record (state_of core.old) { load = base })) (state_of core.new)) }
    ensures err { OnErr result (state_of core.new ≡ with_context base (cells_c depth (reads body) place) (state_of core.old)) }
{
    let number = core.next;
    let values = Vec::new(alloc);
    match add_row(&mut core.store, number, Content::Several(place, values)) {
        Ok(()) => {
            core.load = base;
            let filling = Filling {
                number,
                count,
                depth,
                body,
                place,
            };
            let zero = Phrase::Lit(Datum::Int(0), place);
            enter(core, Context::Fill(filling), zero);
            Ok(Turn::Going)
        }
        Err(e) => {
            let context = Context::Cells(depth, body, place);
            put_back(&mut core.contexts, Frame { base, context });
            Err(e)
        }
    }
}

fn count_from(
    alloc: Global,
    n: i64,
    depth: u32,
    body: Phrase,
    place: Place,
    base: u64,
    core: &mut Core,
) -> Result<Turn, OutOfMemory>
    requires room { vec_len core.old.contexts < vec_capacity core.old.contexts }
    requires base { base ≤ LOW }
    ensures ok { IfOk result (λ turn. Moved turn (counted (Datum.Int n) depth (reads body) place (record (state_of core.old) { load = base })) (state_of core.new)) }
    ensures err { OnErr result (state_of core.new ≡ with_context base (cells_c depth (reads body) place) (state_of core.old)) }
{
    let count = match u64::try_from(n) {
        Ok(count) => count,
        Err(_) => {
            return Ok(Turn::Fault {
                kind: FaultKind::Range,
                place,
            });
        }
    };
    begin(alloc, count, depth, body, place, base, core)
}

/// A datum says how many cells a new sequence is to get. After a refusal all is as it was.
pub fn count_cells(
    alloc: Global,
    v: Datum,
    depth: u32,
    body: Phrase,
    place: Place,
    base: u64,
    core: &mut Core,
) -> Result<Turn, OutOfMemory>
    requires room { vec_len core.old.contexts < vec_capacity core.old.contexts }
    requires base { base ≤ LOW }
    ensures ok { IfOk result (λ turn. Moved turn (counted v depth (reads body) place (record (state_of core.old) { load = base })) (state_of core.new)) }
    ensures err { OnErr result (state_of core.new ≡ with_context base (cells_c depth (reads body) place) (state_of core.old)) }
{
    let Datum::Int(n) = v else {
        return Ok(Turn::Stuck);
    };
    count_from(alloc, n, depth, body, place, base, core)
}

// One more cell for a sequence that has `k`.
fn add_cell(
    k: u64,
    here: Place,
    base: u64,
    filling: Filling,
    core: &mut Core,
) -> Result<Turn, OutOfMemory>
    requires room { vec_len core.old.contexts < vec_capacity core.old.contexts }
    requires load { core.old.load ≤ LOW }
    requires fewer { k < filling.count }
    ensures ok { IfOk result (λ turn. Moved turn (one_more filling.number k here (with_context base (filling_of filling) (state_of core.old))) (state_of core.new)) }
    ensures err { OnErr result (state_of core.new ≡ with_context base (filling_of filling) (state_of core.old)) }
{
    let more = k + 1;
    let next = integer(more);
    match lengthen(&mut core.store, filling.number) {
        Ok(()) => {
            let context = Context::Fill(filling);
            put_back(&mut core.contexts, Frame { base, context });
            core.load += 1;
            set_focus(core, Phrase::Lit(Datum::Int(next), here));
            Ok(Turn::Going)
        }
        Err(e) => {
            let context = Context::Fill(filling);
            put_back(&mut core.contexts, Frame { base, context });
            Err(e)
        }
    }
}

// The body of a sequence that has all its cells, which stand until it ends.
fn run_body(core: &mut Core, base: u64, number: u64, depth: u32, made: Body) -> Turn
    requires room { vec_len core.old.contexts < vec_capacity core.old.contexts }
    requires load { core.old.load ≤ LOW }
    requires next { core.old.next ≤ LOW }
    ensures { (m : CopyMove) → Binds made depth m (with_context base (drop_c number) (state_of core.old)) → Moved result m (state_of core.new) }
{
    let context = Context::Drop(number);
    put_back(&mut core.contexts, Frame { base, context });
    bind(core, depth, made)
}

// All cells are there.
fn complete(
    alloc: Global,
    base: u64,
    filling: Filling,
    core: &mut Core,
) -> Result<Turn, OutOfMemory>
    requires room { vec_len core.old.contexts < vec_capacity core.old.contexts }
    requires load { core.old.load ≤ LOW }
    requires next { core.old.next ≤ LOW }
    ensures ok { IfOk result (λ turn. Moved turn (bound_filled filling.number filling.depth (reads filling.body) filling.place base (state_of core.old).contexts
        (with_context base (filling_of filling) (state_of core.old))) (state_of core.new)) }
    ensures err { OnErr result (state_of core.new ≡ with_context base (filling_of filling) (state_of core.old)) }
{
    let mark = MarkKind::Sequence(filling.number);
    let made = match close_with_mark(alloc, &filling.body, mark, filling.place) {
        Ok(made) => made,
        Err(e) => {
            let context = Context::Fill(filling);
            put_back(&mut core.contexts, Frame { base, context });
            return Err(e);
        }
    };
    Ok(run_body(core, base, filling.number, filling.depth, made))
}

// The number of cells so far is known.
fn fill_from(
    alloc: Global,
    k: u64,
    here: Place,
    base: u64,
    filling: Filling,
    core: &mut Core,
) -> Result<Turn, OutOfMemory>
    requires room { vec_len core.old.contexts < vec_capacity core.old.contexts }
    requires load { core.old.load ≤ LOW }
    requires next { core.old.next ≤ LOW }
    ensures ok { IfOk result (λ turn. Moved turn (datum_under (Datum.Int (pos k)) here (filling_of filling) base (state_of core.old).contexts
        (with_context base (filling_of filling) (state_of core.old))) (state_of core.new)) }
    ensures err { OnErr result (state_of core.new ≡ with_context base (filling_of filling) (state_of core.old)) }
{
    let count = filling.count;
    if k < count {
        return add_cell(k, here, base, filling, core);
    }
    if k == count {
        return complete(alloc, base, filling, core);
    }
    Ok(Turn::Stuck)
}

fn fill_by(
    alloc: Global,
    n: i64,
    here: Place,
    base: u64,
    filling: Filling,
    core: &mut Core,
) -> Result<Turn, OutOfMemory>
    requires room { vec_len core.old.contexts < vec_capacity core.old.contexts }
    requires load { core.old.load ≤ LOW }
    requires next { core.old.next ≤ LOW }
    ensures ok { IfOk result (λ turn. Moved turn (datum_under (Datum.Int n) here (filling_of filling) base (state_of core.old).contexts
        (with_context base (filling_of filling) (state_of core.old))) (state_of core.new)) }
    ensures err { OnErr result (state_of core.new ≡ with_context base (filling_of filling) (state_of core.old)) }
{
    let k = match u64::try_from(n) {
        Ok(k) => k,
        Err(_) => return Ok(Turn::Stuck),
    };
    fill_from(alloc, k, here, base, filling, core)
}

/// A datum counts the cells of a sequence: it gets one more, or its body runs. After a refusal all is
/// as it was.
pub fn fill(
    alloc: Global,
    v: Datum,
    here: Place,
    base: u64,
    filling: Filling,
    core: &mut Core,
) -> Result<Turn, OutOfMemory>
    requires room { vec_len core.old.contexts < vec_capacity core.old.contexts }
    requires load { core.old.load ≤ LOW }
    requires next { core.old.next ≤ LOW }
    ensures ok { IfOk result (λ turn. Moved turn (datum_under v here (filling_of filling) base (state_of core.old).contexts
        (with_context base (filling_of filling) (state_of core.old))) (state_of core.new)) }
    ensures err { OnErr result (state_of core.new ≡ with_context base (filling_of filling) (state_of core.old)) }
{
    let Datum::Int(n) = v else {
        return Ok(Turn::Stuck);
    };
    fill_by(alloc, n, here, base, filling, core)
}
