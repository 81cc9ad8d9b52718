//! Ends and addresses, and data of input and output.

ghost use Rattle.std.specs.Prelude.{◌≡◌, if◌then◌else◌, is_some};
ghost use Rattle.fy_base.specs.Arithmetic.{written_text};
ghost use Rattle.fy_phrase.specs.Copy.{byte_or_end};
ghost use Rattle.pe_machine.specs.Run.{ended, going, standing_of};
ghost use Rattle.pe_machine.specs.Seen.{address_of};
ghost use Rattle.pe_machine.specs.Shown.{focus_of};
ghost use Rattle.pe_machine.specs.Turns.{state_of};

use crate::contexts::Focus;
use crate::core_state::Core;
use fy_base::{Datum, PutKind};

/// Whether a finished command is in focus without a context.
pub fn is_at_end(core: &Core) -> bool
    ensures { standing_of (state_of core.now) ≡ (if result then ended else going) }
{
    match core.focus {
        Focus::Completed => core.contexts.is_empty(),
        _ => false,
    }
}

/// Whether a datum has a text of the kind.
pub fn is_of_kind(kind: PutKind, v: Datum) -> bool
    ensures { result ≡ is_some (written_text kind v) }
{
    match (kind, v) {
        (PutKind::Int, Datum::Int(_)) => true,
        (PutKind::Char, Datum::Char(_)) => true,
        (PutKind::Bool, Datum::Bool(_)) => true,
        _ => false,
    }
}

/// The address of the instruction in focus.
pub fn address_in(focus: Focus) -> Option<u32>
    ensures { result ≡ address_of (focus_of focus) }
{
    match focus {
        Focus::Code(p) => Some(p.address),
        _ => None,
    }
}

/// A byte as the program sees it; the end of input is -1.
pub fn byte_or_end(byte: Option<u8>) -> Datum
    ensures { result ≡ byte_or_end byte }
{
    match byte {
        Some(byte) => Datum::Int(i64::from(byte)),
        None => Datum::Int(-1),
    }
}
