//! The services of ECALL.

ghost use Rattle.std.specs.Prelude.{◌≡◌, ◌^◌, ◌<◌, ℕ, List, slice_get};
ghost use Rattle.rv_insn.specs.Program.{Program};
ghost use Rattle.rv_insn.specs.Step.{Core, fault_at, stopped, service, status_after};

use fy_base::{FaultKind, Place, TrapKind};
use rv_insn::{Event, Status};

// The fault of a kind at the place with a number.
fn fault(places: &[Place], kind: u64, number: u64) -> Event
    ensures stops { status_after result ≡ Status.Stopped }
    ensures fault { (core : Core) → fault_at (slice_get places.now number) kind core ≡ stopped result core }
{
    if number >= places.len() as u64 {
        return Event::Trap(TrapKind::Service);
    }
    let place = places[number as usize];
    match kind {
        1 => Event::Fault {
            kind: FaultKind::Overflow,
            place,
        },
        2 => Event::Fault {
            kind: FaultKind::Zero,
            place,
        },
        3 => Event::Fault {
            kind: FaultKind::Range,
            place,
        },
        _ => Event::Trap(TrapKind::Service),
    }
}

/// A service. Where it ends the run, it leaves the pc as it is.
#[tactic(auto, unfolding(rv_insn::specs::Step::service))]
pub fn serve(places: &[Place], regs: &[u64; 32], pc: &mut u64, status: &mut Status) -> Event
    requires { pc.old < 2 ^ 32 }
    ensures status { status.old ≡ Status.Running → status.new ≡ status_after result }
    ensures step { (program : Program) (stack : List ℕ) → program.places ≡ places.now → service program (record { regs = regs.now; pc = pc.old; stack = stack; status = status.old }) ≡ record { event = result; core = record { regs = regs.now; pc = pc.new; stack = stack; status = status.new } } }
{
    let _range = *pc;
    match regs[17] {
        0 => {
            *status = Status::Stopped;
            Event::Ended
        }
        1 => {
            *pc += 4;
            Event::Put((regs[10] % 256) as u8)
        }
        2 => {
            *pc += 4;
            *status = Status::Waiting;
            Event::WantByte
        }
        3 => {
            *status = Status::Stopped;
            fault(places, regs[10], regs[11])
        }
        4 => {
            *status = Status::Stopped;
            Event::Exhausted
        }
        _ => {
            *status = Status::Stopped;
            Event::Trap(TrapKind::Service)
        }
    }
}
