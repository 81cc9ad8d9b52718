//! The data in code.

ghost use Rattle.std.specs.Prelude.{◌≡◌, ◌<◌, true, All};
ghost use Rattle.std.specs.Option.{ForSome};
ghost use Rattle.fy_base.specs.Arithmetic.{is_int};
ghost use Rattle.rv_operators.specs.Laws.{IsDatum};
ghost use Rattle.pe_code.specs.Code.{straight_of};
ghost use Rattle.rv_straight.specs.Laws.{AreInRange, IsInRange};
ghost use Rattle.rv_select.specs.Laws.{value_of};

use fy_base::Datum;
use pe_code::{PeInsn, PeItem, StraightPart};

/// Reads each datum that items answer, pass or bind, and each literal of their straight code, and does nothing else: one
/// that was read is in its type's range.
pub(crate) fn read_values(items: &[PeItem])
    ensures values { All (λ item. ForSome (value_of item.insn) IsDatum) items.now }
    ensures straight { All (λ item. ForSome (straight_of item.insn) AreInRange) items.now }
{
    for item in items {
        read_value(&item.insn);
        read_straight(&item.insn);
    }
}

// Reads the datum of an instruction, if it has one.
fn read_value(insn: &PeInsn)
    ensures { ForSome (value_of insn.now) IsDatum }
{
    match insn {
        PeInsn::Answer(datum) | PeInsn::PassData(datum, _) | PeInsn::LetData(datum, _) => {
            read_datum(*datum);
        }
        _ => {}
    }
}

// Reads the literals of the straight code of an instruction, if it has some.
fn read_straight(insn: &PeInsn)
    ensures { ForSome (straight_of insn.now) AreInRange }
{
    match insn {
        PeInsn::Eval(parts) => read_parts(parts.as_slice()),
        PeInsn::Set(_, parts) => read_parts(parts.as_slice()),
        PeInsn::EvalFor(parts, _) => read_parts(parts.as_slice()),
        _ => {}
    }
}

fn read_parts(parts: &[StraightPart])
    ensures { AreInRange parts.now }
{
    for part in parts {
        read_part(*part);
    }
}

fn read_part(part: StraightPart)
    ensures { IsInRange part }
{
    match part {
        StraightPart::Literal(datum) => read_datum(datum),
        _ => {}
    }
}

fn read_datum(datum: Datum)
    ensures { IsDatum datum }
{
    match datum {
        Datum::Int(value) => read_int(value),
        Datum::Bool(_) => {}
        Datum::Char(code) => read_char(code),
    }
}

fn read_int(value: i64)
    ensures { is_int value ≡ true }
{
    let _value = value;
}

fn read_char(code: u8)
    ensures { code < 256 }
{
    let _code = code;
}
