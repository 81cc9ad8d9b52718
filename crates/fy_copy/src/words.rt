//! The words of the step table: what pushes, binds and takes off.

ghost use Rattle.std.specs.Prelude.{◌≡◌, ◌+◌, ◌<◌, ◌^◌, ℕ, pos, [], ◌∷◌, IfOk, OnErr, vec_len, vec_capacity};
ghost use Rattle.fy_phrase.specs.Tree.{lit, mark, skip};
ghost use Rattle.fy_phrase.specs.Reads.{reads};
ghost use Rattle.fy_phrase.specs.Copy.{CopyMove, CopyState, bound, goes, pushed, push};
ghost use Rattle.fy_copy.specs.Shown.{context_of, contexts_onto, pushed_of, state_of};
ghost use Rattle.fy_copy.specs.Moves.{Binds, Moved};

use crate::context::{Context, Core, Frame};
use crate::progress::{Body, Turn};
use crate::sizes::is_held_closed;
use fy_base::{Datum, OutOfMemory, Place};
use fy_phrase::{MarkKind, Phrase, close_with};
use std::alloc::Global;
use std::mem;

// The place of a phrase that nobody reads.
const NOWHERE: Place = Place { line: 1, col: 1 };

/// Another focus.
pub fn set_focus(core: &mut Core, focus: Phrase)
    ensures { core.new ≡ record core.old { focus = focus } }
{
    core.focus = focus;
}

/// A count as an integer of the language.
pub fn integer(count: u64) -> i64
    requires { count < 2 ^ 63 }
    ensures { result ≡ pos count }
{
    count as i64
}

/// Takes a phrase out of its place.
pub fn take(p: &mut Phrase) -> Phrase
    ensures { result ≡ p.old }
{
    mem::replace(p, Phrase::Skip(NOWHERE))
}

/// Puts a context where there is room for it: a new one, or one that was taken off.
#[tactic(auto, using(crate::proofs::Stacks::stacks))]
pub fn put_back(contexts: &mut Vec<Frame>, frame: Frame)
    requires { vec_len contexts.old < vec_capacity contexts.old }
    ensures { contexts_onto [] contexts.new.items ≡ pushed_of frame ∷ contexts_onto [] contexts.old.items }
{
    match contexts.push(frame) {
        Ok(()) => {}
        Err(_) => unreachable!(),
    }
}

/// Pushes a context where there is room for it.
pub fn push_context(core: &mut Core, context: Context)
    requires room { vec_len core.old.contexts < vec_capacity core.old.contexts }
    requires load { core.old.load + 8 < 2 ^ 64 }
    ensures does { state_of core.new ≡ push (context_of context) (state_of core.old) }
    ensures load { core.new.load ≡ core.old.load + 8 }
    ensures next { core.new.next ≡ core.old.next }
{
    let base = core.load;
    put_back(&mut core.contexts, Frame { base, context });
    core.load = base + 8;
}

/// Pushes a context where there is room for it, and goes on with a phrase.
pub fn enter(core: &mut Core, context: Context, focus: Phrase)
    requires room { vec_len core.old.contexts < vec_capacity core.old.contexts }
    requires load { core.old.load + 8 < 2 ^ 64 }
    ensures { pushed (context_of context) (reads focus) (state_of core.old) ≡ goes (state_of core.new) }
{
    push_context(core, context);
    set_focus(core, focus);
}

/// The body with the actual phrase copied in, where it is within the limit on held phrases.
pub fn close(alloc: Global, body: &Phrase, actual: &Phrase) -> Result<Body, OutOfMemory>
    ensures { IfOk result (λ made. (d : ℕ) (s : CopyState) → Binds made d (bound d (reads actual.now) (reads body.now) s) s) }
{
    if !is_held_closed(body, actual) {
        return Ok(Body::TooBig);
    }
    let made = close_with(alloc, body, actual)?;
    Ok(Body::Made(made))
}

/// The body with a datum copied in, where it is within the limit on held phrases.
pub fn close_with_datum(
    alloc: Global,
    body: &Phrase,
    v: Datum,
    at: Place,
) -> Result<Body, OutOfMemory>
    ensures { IfOk result (λ made. (d : ℕ) (s : CopyState) → Binds made d (bound d (lit v at) (reads body.now) s) s) }
{
    close(alloc, body, &Phrase::Lit(v, at))
}

/// The body with what only a run makes copied in, where it is within the limit on held phrases.
pub fn close_with_mark(
    alloc: Global,
    body: &Phrase,
    kind: MarkKind,
    at: Place,
) -> Result<Body, OutOfMemory>
    ensures { IfOk result (λ made. (d : ℕ) (s : CopyState) → Binds made d (bound d (mark kind at) (reads body.now) s) s) }
{
    close(alloc, body, &Phrase::Mark(kind, at))
}

/// A binding of depth `d`, and on with its body.
pub fn bind(core: &mut Core, d: u32, body: Body) -> Turn
    requires load { core.old.load + (8 + d) < 2 ^ 64 }
    requires next { core.old.next + 1 < 2 ^ 64 }
    ensures { (m : CopyMove) → Binds body d m (state_of core.old) → Moved result m (state_of core.new) }
{
    match body {
        Body::Undemanded => Turn::Stuck,
        Body::TooBig => Turn::TooBig,
        Body::Made(p) => {
            set_focus(core, p);
            core.load += 8 + u64::from(d);
            core.next += 1;
            Turn::Going
        }
    }
}
