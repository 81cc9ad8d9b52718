//! The push-enter machine.

ghost use Rattle.std.specs.Prelude.{◌≡◌, ◌+◌, ◌<◌, ◌≤◌, ◌^◌, IfSome, None};
ghost use Rattle.std.proofs.Props.{props};
ghost use Rattle.pe_machine.specs.Names.{IsPlacedPointer, filling_prop};
ghost use Rattle.pe_machine.specs.Turns.{frames_of};
ghost use Rattle.pe_machine.specs.declared.events.Phase.{Phase};

use crate::acts::plan_step;
use crate::apply::{cost_of, cut, enter_body, make, push_context, set_focus};
use crate::contexts::{Context, Filling, Focus, Pointer};
use crate::core_state::Core;
use crate::ends::{address_in, byte_or_end, is_at_end, is_of_kind};
use crate::events::{PeEvent, Phase};
use crate::frames::Binding;
use crate::turns::{Change, Kept, Turn};
use fy_base::{Datum, OutOfMemory, Place, PutKind};
use pe_code::PeCode;
use std::alloc::Global;

/// A state of the push-enter machine: what is in focus, the contexts, the frames and the cells of sequences,
/// the load and its limit, the sequence that gets its cells now, if one does, and the number of steps that
/// were made.
#[derive(Debug, Drop)]
pub struct PeState {
    pub(crate) core: Core,
    pub(crate) filling: Option<Filling>,
    pub(crate) steps: u64,
    pub(crate) phase: Phase,
    ghost numbers: { core.next ≤ steps },
    ghost room: { phase ≡ Phase.Waiting → core.load + 8 ≤ core.limit },
    ghost few: { phase ≡ Phase.Waiting → steps < 2 ^ 48 },
    ghost still: { phase ≡ Phase.Waiting → filling ≡ None },
    ghost filling_placed: { IfSome filling (λ f. IsPlacedPointer (frames_of core) f.body) } by { filling_prop (frames_of core) filling },
    ghost filling_within: { IfSome filling (λ f. f.made + (core.load + 8) ≤ core.limit) } by { Prim.hlevel props },
}

impl PeState {
    ghost use Rattle.std.specs.Prelude.{◌≡◌, ◌+◌, ◌*◌, ◌<◌, ◌≤◌, ◌^◌, IfOk, None, Some, if◌then◌else◌, vec_capacity};
    ghost use Rattle.pe_code.specs.declared.code.PeCode.{PeCode};
    ghost use Rattle.pe_machine.specs.Run.{ended, going, pe_start, standing_of};
    ghost use Rattle.pe_machine.specs.Names.{IsPlacedChange, IsPlacedPointer};
    ghost use Rattle.pe_machine.specs.Step.{one_more};
    ghost use Rattle.pe_machine.specs.Turns.{IsFair, change_move, filled_move, frames_of, kept_of, state_of, turn_move};
    ghost use Rattle.pe_machine.specs.Seen.{StepOf, Stepped, address_of, halted, seen, still_seen, went_on_with};
    ghost use Rattle.pe_machine.specs.declared.events.Phase.{Phase};
    ghost use Rattle.pe_machine.specs.declared.turns.Turn.TheVariants.{Fill, Put, Read};

    /// The start of a code, with so many words for its load. It takes all the memory that there will be, and
    /// no other call takes any: room for a frame and for a context for every 8 words and for a cell of a sequence
    /// for every word, and for no more.
    pub fn load(alloc: Global, _code: &PeCode, stack_words: u32) -> Result<PeState, OutOfMemory>
        ensures starts { IfOk result (λ state. seen state ≡ record { state = pe_start; steps = 0; phase = Phase.Going; limit = stack_words }) }
        ensures contexts { IfOk result (λ state. 8 * vec_capacity state.core.contexts ≤ stack_words) }
        ensures frames { IfOk result (λ state. 8 * vec_capacity state.core.frames ≤ stack_words) }
        ensures cells { IfOk result (λ state. vec_capacity state.core.cells ≤ stack_words) }
    {
        let room = stack_words as usize / 8;
        let core = Core {
            focus: Focus::Code(Pointer {
                address: 0,
                frame: None,
            }),
            contexts: Vec::with_capacity(alloc, room)?,
            frames: Vec::with_capacity(alloc, room)?,
            cells: Vec::with_capacity(alloc, stack_words as usize)?,
            next: 0,
            load: 0,
            limit: u64::from(stack_words),
        };
        Ok(PeState {
            core,
            filling: None,
            steps: 0,
            phase: Phase::Going,
        })
    }

    /// The address of the instruction in focus. It is `None` exactly where a datum or a finished command
    /// meets a context.
    pub fn address(&self) -> Option<u32>
        ensures { result ≡ address_of (seen self.now).state.focus }
    {
        match self.filling {
            Some(_) => None,
            None => address_in(self.core.focus),
        }
    }

    // The step that ended the run counts.
    fn halt(&mut self)
        requires { (seen self.old).steps < 2 ^ 48 }
        ensures seen { seen self.new ≡ halted (seen self.old) }
        ensures still { still_seen self.new ≡ halted (still_seen self.old) }
        ensures filling { self.new.filling ≡ self.old.filling }
    {
        self.steps += 1;
        self.phase = Phase::Over;
    }

    // Makes a change after a cut, within the limit.
    fn go_on(&mut self, kept: Kept, change: Change) -> PeEvent
        requires phase { (seen self.old).phase ≡ Phase.Going }
        requires few { (seen self.old).steps < 2 ^ 48 }
        requires standing { standing_of (state_of self.old.core) ≡ going }
        requires still { self.old.filling ≡ None }
        requires fair { IsFair self.old.core.limit (state_of self.old.core) kept }
        requires placed { IsPlacedChange (frames_of self.old.core) change }
        ensures step { StepOf result (change_move change (kept_of kept (state_of self.old.core))) (still_seen self.old) (still_seen self.new) }
        ensures still { self.new.filling ≡ None }
    {
        if kept.load + cost_of(change) > self.core.limit {
            self.phase = Phase::Over;
            return PeEvent::Exhausted;
        }
        cut(&mut self.core, kept);
        make(&mut self.core, change);
        self.steps += 1;
        PeEvent::Going
    }

    // Goes on with a finished command after a cut, where the datum has a text of the kind.
    fn put(&mut self, kept: Kept, kind: PutKind, v: Datum) -> PeEvent
        requires phase { (seen self.old).phase ≡ Phase.Going }
        requires few { (seen self.old).steps < 2 ^ 48 }
        requires standing { standing_of (state_of self.old.core) ≡ going }
        requires still { self.old.filling ≡ None }
        requires fair { IsFair self.old.core.limit (state_of self.old.core) kept }
        ensures step { StepOf result (turn_move (Put kind v) (kept_of kept (state_of self.old.core))) (still_seen self.old) (still_seen self.new) }
        ensures still { self.new.filling ≡ None }
    {
        if !is_of_kind(kind, v) {
            self.halt();
            return PeEvent::Stuck;
        }
        cut(&mut self.core, kept);
        set_focus(&mut self.core, Focus::Completed);
        self.steps += 1;
        PeEvent::Put(kind, v)
    }

    // Waits for a byte after a cut, with the acceptor in focus, within the limit.
    fn ask(&mut self, kept: Kept, acceptor: Pointer) -> PeEvent
        requires phase { (seen self.old).phase ≡ Phase.Going }
        requires few { (seen self.old).steps < 2 ^ 48 }
        requires standing { standing_of (state_of self.old.core) ≡ going }
        requires still { self.old.filling ≡ None }
        requires fair { IsFair self.old.core.limit (state_of self.old.core) kept }
        requires placed { IsPlacedPointer (frames_of self.old.core) acceptor }
        ensures step { StepOf result (turn_move (Read acceptor) (kept_of kept (state_of self.old.core))) (still_seen self.old) (still_seen self.new) }
        ensures still { self.new.filling ≡ None }
    {
        if kept.load + 8 > self.core.limit {
            self.phase = Phase::Over;
            return PeEvent::Exhausted;
        }
        cut(&mut self.core, kept);
        set_focus(&mut self.core, Focus::Code(acceptor));
        self.phase = Phase::Waiting;
        PeEvent::WantByte
    }

    // A new sequence is to get its cells, after a cut, within the limit.
    fn begin(&mut self, kept: Kept, count: u64, depth: u32, body: Pointer, place: Place) -> PeEvent
        requires phase { (seen self.old).phase ≡ Phase.Going }
        requires few { (seen self.old).steps < 2 ^ 48 }
        requires standing { standing_of (state_of self.old.core) ≡ going }
        requires still { self.old.filling ≡ None }
        requires fair { IsFair self.old.core.limit (state_of self.old.core) kept }
        requires placed { IsPlacedPointer (frames_of self.old.core) body }
        ensures { StepOf result (turn_move (Fill count depth body place) (kept_of kept (state_of self.old.core))) (still_seen self.old) (seen self.new) }
    {
        if kept.load + 8 > self.core.limit {
            self.phase = Phase::Over;
            return PeEvent::Exhausted;
        }
        cut(&mut self.core, kept);
        self.filling = Some(Filling {
            made: 0,
            count,
            depth,
            body,
            place,
        });
        self.steps += 1;
        PeEvent::Going
    }

    // One more cell is there, within the limit.
    fn add_cell(&mut self, filling: Filling) -> PeEvent
        requires phase { (seen self.old).phase ≡ Phase.Going }
        requires few { (seen self.old).steps < 2 ^ 48 }
        requires filling { self.old.filling ≡ Some filling }
        ensures { StepOf result (one_more filling.made (seen self.old).state) (seen self.old) (seen self.new) }
    {
        if self.core.load + 8 + filling.made + 1 > self.core.limit {
            self.phase = Phase::Over;
            return PeEvent::Exhausted;
        }
        self.filling = Some(Filling {
            made: filling.made + 1,
            count: filling.count,
            depth: filling.depth,
            body: filling.body,
            place: filling.place,
        });
        self.steps += 1;
        PeEvent::Going
    }

    // All cells are there: their frame is made, and the body runs, within the limit.
    fn complete(&mut self, filling: Filling) -> PeEvent
        requires phase { (seen self.old).phase ≡ Phase.Going }
        requires few { (seen self.old).steps < 2 ^ 48 }
        requires filling { self.old.filling ≡ Some filling }
        requires all { filling.made ≡ filling.count }
        ensures { StepOf result (filled_move filling (state_of self.old.core)) (seen self.old) (seen self.new) }
    {
        let depth = filling.depth;
        if self.core.load + 8 + filling.made + 8 + u64::from(depth) > self.core.limit {
            self.phase = Phase::Over;
            return PeEvent::Exhausted;
        }
        self.filling = None;
        let number = self.core.next;
        push_context(&mut self.core, Context::Drop(number));
        let binding = Binding::ToSequence(filling.place, filling.count as u32);
        enter_body(&mut self.core, depth, binding, filling.body);
        self.steps += 1;
        PeEvent::Going
    }

    // A step of a sequence that gets its cells.
    fn fill(&mut self, filling: Filling) -> PeEvent
        requires phase { (seen self.old).phase ≡ Phase.Going }
        requires few { (seen self.old).steps < 2 ^ 48 }
        requires filling { self.old.filling ≡ Some filling }
        ensures { (code : PeCode) → Stepped result code (seen self.old) (seen self.new) }
    {
        let made = filling.made;
        let count = filling.count;
        if made < count {
            return self.add_cell(filling);
        }
        if made == count {
            return self.complete(filling);
        }
        self.halt();
        PeEvent::Stuck
    }

    /// Makes one step of the machine, without memory. The state must go on, after fewer than 2^48 steps.
    ///
    /// `Ended` comes exactly where the state is at its end, and `Exhausted` exactly where the load after the step
    /// would pass the limit; then no step is made. `Put` tells a datum that has a text of the kind. `WantByte` leaves
    /// the state waiting for `give`. After `Ended`, `Fault`, `Exhausted`, `Gone` or `Stuck` the state is over.
    pub fn step(&mut self, code: &PeCode) -> PeEvent
        requires going { (seen self.old).phase ≡ Phase.Going }
        requires few { (seen self.old).steps < 2 ^ 48 }
        ensures { Stepped result code.now (seen self.old) (seen self.new) }
    {
        if let Some(filling) = self.filling {
            return self.fill(filling);
        }
        if is_at_end(&self.core) {
            self.phase = Phase::Over;
            return PeEvent::Ended;
        }
        let plan = plan_step(code, &self.core);
        match plan.turn {
            Turn::On(change) => self.go_on(plan.kept, change),
            Turn::Fill(count, depth, body, place) => {
                self.begin(plan.kept, count, depth, body, place)
            }
            Turn::Put(kind, v) => self.put(plan.kept, kind, v),
            Turn::Read(acceptor) => self.ask(plan.kept, acceptor),
            Turn::Fault { kind, place } => {
                self.halt();
                PeEvent::Fault { kind, place }
            }
            Turn::Stuck => {
                self.halt();
                PeEvent::Stuck
            }
            Turn::Gone => {
                self.halt();
                PeEvent::Gone
            }
        }
    }

    /// Completes the step of a state that waits for a byte, without memory; `None` is the end of input, which the
    /// program sees as -1.
    pub fn give(&mut self, byte: Option<u8>)
        requires { (seen self.old).phase ≡ Phase.Waiting }
        ensures { seen self.new ≡ went_on_with byte (seen self.old) }
    {
        push_context(&mut self.core, Context::Store(byte_or_end(byte)));
        self.steps += 1;
        self.phase = Phase::Going;
    }

    // Whether the state is at its end.
    pub(crate) fn is_over(&self) -> bool
        ensures { standing_of (seen self.now).state ≡ (if result then ended else going) }
    {
        match self.filling {
            Some(_) => false,
            None => is_at_end(&self.core),
        }
    }
}
