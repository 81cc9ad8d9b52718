//! Procedures, fields, acceptors, merges, cells and sequences at the context that demands them.

ghost use Rattle.std.specs.Prelude.{◌≡◌, ℕ, ◌<◌, ◌+◌, ◌^◌, ◌∷◌, [], IfOk, OnErr, OnOk, if◌then◌else◌, vec_len, vec_capacity};
ghost use Rattle.fy_phrase.specs.Tree.{Tree};
ghost use Rattle.fy_phrase.specs.Reads.{reads};
ghost use Rattle.fy_phrase.specs.Copy.{CopyState, accept_meets, assigned, cell_meets, cell_under, content_of, demanded, demands, field_meets, focused, lam_meets, loaded, measured, sequence_meets, taken, value_of};
ghost use Rattle.fy_phrase.specs.Contexts.{pick_c};
ghost use Rattle.fy_copy.specs.Shown.{context_of, contexts_onto, pushed_of, state_of, which_of};
ghost use Rattle.fy_copy.specs.Moves.{Binds, Moved};

use crate::context::{Context, Core, Frame, Which};
use crate::progress::{Body, Turn};
use crate::store::{extent_of, set_value, value_of};
use crate::words::{close, close_with_datum, enter, integer, put_back, set_focus};
use fy_base::{Datum, OutOfMemory, Place};
use fy_phrase::Phrase;
use fy_types::Name;
use std::alloc::Global;

// The number of the name `len`.
const LENGTH: Name = 0;

fn call_in(
    alloc: Global,
    body: &Phrase,
    frame: Frame,
    contexts: &mut Vec<Frame>,
) -> Result<Body, OutOfMemory>
    requires { vec_len contexts.old < vec_capacity contexts.old }
    ensures ok { IfOk result (λ made. (d : ℕ) (s : CopyState) → Binds made d (lam_meets d (reads body.now) (context_of frame.context) s) s) }
    ensures same { OnOk result (contexts.new ≡ contexts.old) }
    ensures err { OnErr result (contexts_onto [] contexts.new.items ≡ pushed_of frame ∷ contexts_onto [] contexts.old.items) }
{
    let Frame { base, context } = frame;
    match context {
        Context::Arg(q) => match close(alloc, body, &q) {
            Ok(made) => Ok(made),
            Err(e) => {
                let context = Context::Arg(q);
                put_back(contexts, Frame { base, context });
                Err(e)
            }
        },
        _ => Ok(Body::Undemanded),
    }
}

/// The body of a procedure with the newest argument copied in, which is taken off. After a refusal
/// the contexts are as they were.
#[tactic(auto, using(crate::proofs::Stacks::stacks))]
pub fn call(alloc: Global, body: &Phrase, contexts: &mut Vec<Frame>) -> Result<Body, OutOfMemory>
    ensures ok { IfOk result (λ made. (d : ℕ) (s : CopyState) → Binds made d (taken (lam_meets d (reads body.now)) (contexts_onto [] contexts.old.items) s)
        (record s { contexts = contexts_onto [] contexts.new.items })) }
    ensures err { OnErr result (contexts_onto [] contexts.new.items ≡ contexts_onto [] contexts.old.items) }
{
    match contexts.pop() {
        None => Ok(Body::Undemanded),
        Some(frame) => call_in(alloc, body, frame, contexts),
    }
}

fn accept_in(
    alloc: Global,
    body: &Phrase,
    here: Place,
    frame: Frame,
    contexts: &mut Vec<Frame>,
) -> Result<Body, OutOfMemory>
    requires { vec_len contexts.old < vec_capacity contexts.old }
    ensures ok { IfOk result (λ made. (d : ℕ) (s : CopyState) → Binds made d (accept_meets d (reads body.now) here (context_of frame.context) s) s) }
    ensures same { OnOk result (contexts.new ≡ contexts.old) }
    ensures err { OnErr result (contexts_onto [] contexts.new.items ≡ pushed_of frame ∷ contexts_onto [] contexts.old.items) }
{
    let Frame { base, context } = frame;
    match context {
        Context::Store(v) => match close_with_datum(alloc, body, v, here) {
            Ok(made) => Ok(made),
            Err(e) => {
                let context = Context::Store(v);
                put_back(contexts, Frame { base, context });
                Err(e)
            }
        },
        _ => Ok(Body::Undemanded),
    }
}

/// The body of an acceptor with the newest assigned value copied in, whose context is taken off.
/// After a refusal the contexts are as they were.
#[tactic(auto, using(crate::proofs::Stacks::stacks))]
pub fn accept(
    alloc: Global,
    body: &Phrase,
    here: Place,
    contexts: &mut Vec<Frame>,
) -> Result<Body, OutOfMemory>
    ensures ok { IfOk result (λ made. (d : ℕ) (s : CopyState) → Binds made d (taken (accept_meets d (reads body.now) here) (contexts_onto [] contexts.old.items) s)
        (record s { contexts = contexts_onto [] contexts.new.items })) }
    ensures err { OnErr result (contexts_onto [] contexts.new.items ≡ contexts_onto [] contexts.old.items) }
{
    match contexts.pop() {
        None => Ok(Body::Undemanded),
        Some(frame) => accept_in(alloc, body, here, frame, contexts),
    }
}

fn select_in(i: Name, p: Phrase, context: Context, core: &mut Core) -> Turn
    ensures { Moved result (field_meets i (reads p) (context_of context) (state_of core.old)) (state_of core.new) }
{
    match context {
        Context::Pick(j) => {
            if i == j {
                set_focus(core, p);
                Turn::Going
            } else {
                Turn::Stuck
            }
        }
        _ => Turn::Stuck,
    }
}

/// A field definition meets the newest context, which is taken off.
#[tactic(auto, using(crate::proofs::Stacks::stacks))]
pub fn select(i: Name, p: Phrase, core: &mut Core) -> Turn
    ensures { Moved result (taken (field_meets i (reads p)) (state_of core.old).contexts (state_of core.old)) (state_of core.new) }
{
    match core.contexts.pop() {
        None => Turn::Stuck,
        Some(frame) => select_in(i, p, frame.context, core),
    }
}

// Whether a context demands a merge's right operand.
fn is_demanded(context: &Context, q: &Phrase) -> bool
    ensures { result ≡ demands (context_of context.now) (reads q.now) }
{
    match context {
        Context::Arg(_) => matches!(q, Phrase::Lam(..)),
        Context::Pick(j) => match q {
            Phrase::Field(i, _, _) => *i == *j,
            _ => false,
        },
        Context::Store(_) => matches!(q, Phrase::Accept(..)),
        _ => false,
    }
}

#[tactic(auto, using(crate::proofs::Stacks::stacks))]
fn is_demanded_now(contexts: &mut Vec<Frame>, q: &Phrase) -> bool
    ensures demanded { (p : Tree) → demanded p (reads q.now) (contexts_onto [] contexts.old.items) ≡ (if result then reads q.now else p) }
    ensures contexts { contexts_onto [] contexts.new.items ≡ contexts_onto [] contexts.old.items }
{
    match contexts.pop() {
        None => false,
        Some(frame) => {
            let demanded = is_demanded(&frame.context, q);
            put_back(contexts, frame);
            demanded
        }
    }
}

/// The operand of a merge that the newest context demands.
pub fn decide(p: Phrase, q: Phrase, core: &mut Core) -> Turn
    ensures { Moved result (focused (demanded (reads p) (reads q) (state_of core.old).contexts) (state_of core.old)) (state_of core.new) }
{
    let right = is_demanded_now(&mut core.contexts, &q);
    set_focus(core, if right { q } else { p });
    Turn::Going
}

fn load_cell(which: Which, n: u64, here: Place, core: &mut Core) -> Turn
    ensures { Moved result (loaded (value_of (which_of which) n (state_of core.old).store) here (state_of core.old)) (state_of core.new) }
{
    match value_of(core.store.as_slice(), which, n) {
        None => Turn::Stuck,
        Some(v) => {
            set_focus(core, Phrase::Lit(v, here));
            Turn::Going
        }
    }
}

fn assign_cell(which: Which, n: u64, v: Datum, here: Place, core: &mut Core) -> Turn
    ensures { Moved result (assigned (value_of (which_of which) n (state_of core.old).store) (which_of which) n v here (state_of core.old)) (state_of core.new) }
{
    match value_of(core.store.as_slice(), which, n) {
        None => Turn::Stuck,
        Some(_) => {
            set_value(&mut core.store, which, n, v);
            set_focus(core, Phrase::Skip(here));
            Turn::Going
        }
    }
}

/// A cell gives its value, or takes the one that is assigned, whose context is taken off.
#[tactic(auto, using(crate::proofs::Stacks::stacks))]
pub fn use_cell(which: Which, n: u64, here: Place, core: &mut Core) -> Turn
    ensures { Moved result (cell_under (which_of which) n here (state_of core.old).contexts (state_of core.old)) (state_of core.new) }
{
    match core.contexts.pop() {
        None => load_cell(which, n, here, core),
        Some(frame) => use_cell_in(which, n, here, frame, core),
    }
}

fn use_cell_in(which: Which, n: u64, here: Place, frame: Frame, core: &mut Core) -> Turn
    requires { vec_len core.old.contexts < vec_capacity core.old.contexts }
    ensures { Moved result (cell_meets (which_of which) n here (context_of frame.context) (state_of core.old).contexts
        (record (state_of core.old) { contexts = pushed_of frame ∷ (state_of core.old).contexts })) (state_of core.new) }
{
    let Frame { base, context } = frame;
    match context {
        Context::Store(v) => assign_cell(which, n, v, here, core),
        context => {
            put_back(&mut core.contexts, Frame { base, context });
            load_cell(which, n, here, core)
        }
    }
}

// The length of a sequence.
fn measure(n: u64, here: Place, core: &mut Core) -> Turn
    ensures { Moved result (measured (content_of n (state_of core.old).store) here (state_of core.old)) (state_of core.new) }
{
    match extent_of(core.store.as_slice(), n) {
        None => Turn::Stuck,
        Some(extent) => {
            let length = integer(extent.count);
            set_focus(core, Phrase::Lit(Datum::Int(length), here));
            Turn::Going
        }
    }
}

// The selection of a name from a sequence.
fn select_length(i: Name, n: u64, here: Place, core: &mut Core) -> Turn
    ensures { Moved result (sequence_meets n here (pick_c i) (state_of core.old)) (state_of core.new) }
{
    if i == LENGTH {
        return measure(n, here, core);
    }
    Turn::Stuck
}

fn use_sequence_in(n: u64, here: Place, context: Context, core: &mut Core) -> Turn
    requires room { vec_len core.old.contexts < vec_capacity core.old.contexts }
    requires load { core.old.load + 8 < 2 ^ 64 }
    ensures { Moved result (sequence_meets n here (context_of context) (state_of core.old)) (state_of core.new) }
{
    match context {
        Context::Arg(q) => {
            enter(core, Context::Element(n), q);
            Turn::Going
        }
        Context::Pick(i) => select_length(i, n, here, core),
        _ => Turn::Stuck,
    }
}

/// A sequence takes an index, or the selection of its length, whose context is taken off.
#[tactic(auto, using(crate::proofs::Stacks::stacks))]
pub fn use_sequence(n: u64, here: Place, core: &mut Core) -> Turn
    requires { core.old.load + 8 < 2 ^ 64 }
    ensures { Moved result (taken (sequence_meets n here) (state_of core.old).contexts (state_of core.old)) (state_of core.new) }
{
    match core.contexts.pop() {
        None => Turn::Stuck,
        Some(frame) => use_sequence_in(n, here, frame.context, core),
    }
}
