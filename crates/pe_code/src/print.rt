//! The text of an instruction.

ghost use Rattle.std.specs.Prelude.{◌≡◌, [], ◌∷◌, ◌++◌, codes, IfOk, OnOk};
ghost use Rattle.std.specs.List.{flat_map};
ghost use Rattle.fy_types.specs.Print.{name_text};
ghost use Rattle.pe_code.specs.Print.{unary_word, binary_word, kind_word, datum_text, then_number, then_part, line, worded, purpose_text as text_of_purpose, printed};

use crate::code::{PeInsn, Purpose, StraightPart};
use fy_base::{BinOp, Datum, OutOfMemory, PutKind, Text, UnOp};
use fy_types::{Name, Names};
use std::alloc::Global;

/// The text of the instruction: its keyword, and the operator, the name, the kind or the value and the decimal numbers
/// that it has, with one blank between two, as in `op2 add 17 18`. Of the parts of a `case` their number is written. A
/// name past the list's end gives no byte.
pub fn print_pe(alloc: Global, names: &Names, insn: &PeInsn) -> Result<Text, OutOfMemory>
    ensures { IfOk result (λ text. text ≡ printed names.now insn.now) }
{
    let mut text = Text::new(alloc);
    put_insn(&mut text, names, insn)?;
    Ok(text)
}

fn put_insn(text: &mut Text, names: &Names, insn: &PeInsn) -> Result<(), OutOfMemory>
    ensures { OnOk result (text.new ≡ text.old ++ printed names.now insn.now) }
{
    match insn {
        PeInsn::UseVar(variable, shape) => put_line(text, b"use", &[*variable, *shape]),
        PeInsn::Answer(value) => put_answer(text, *value),
        PeInsn::Op1(op, x) => put_worded(text, b"op1", unary_word(*op), &[*x]),
        PeInsn::Op2(op, x, y) => put_worded(text, b"op2", binary_word(*op), &[*x, *y]),
        PeInsn::Cond(x, y, z) => put_line(text, b"cond", &[*x, *y, *z]),
        PeInsn::Case(x, parts) => put_case(text, *x, parts.len()),
        PeInsn::Bind(body) => put_line(text, b"bind", &[*body]),
        PeInsn::Pass(node, x) => put_line(text, b"pass", &[*node, *x]),
        PeInsn::PassVar(variable, x) => put_line(text, b"passvar", &[*variable, *x]),
        PeInsn::PassData(value, x) => put_data(text, b"passdata", *value, *x),
        PeInsn::Field(name, x) => put_worded(text, b"field", text_of(names, *name), &[*x]),
        PeInsn::Pick(name, x) => put_worded(text, b"pick", text_of(names, *name), &[*x]),
        PeInsn::Let(node, body) => put_line(text, b"let", &[*node, *body]),
        PeInsn::LetVar(variable, body) => put_line(text, b"letvar", &[*variable, *body]),
        PeInsn::LetData(value, body) => put_data(text, b"letdata", *value, *body),
        PeInsn::Knot(node, body) => put_line(text, b"knot", &[*node, *body]),
        PeInsn::Done => put(text, b"done"),
        PeInsn::Seq(x, y) => put_line(text, b"seq", &[*x, *y]),
        PeInsn::Assign(x, y) => put_line(text, b"assign", &[*x, *y]),
        PeInsn::While(x, y) => put_line(text, b"while", &[*x, *y]),
        PeInsn::Loop(x) => put_line(text, b"loop", &[*x]),
        PeInsn::New(x, body) => put_line(text, b"new", &[*x, *body]),
        PeInsn::Cells(x, body) => put_line(text, b"cells", &[*x, *body]),
        PeInsn::Escape(body) => put_line(text, b"escape", &[*body]),
        PeInsn::Accept(body) => put_line(text, b"accept", &[*body]),
        PeInsn::Put(kind, x) => put_worded(text, b"put", kind_word(*kind), &[*x]),
        PeInsn::Read(x) => put_line(text, b"read", &[*x]),
        PeInsn::Eval(parts) => put_straight(text, b"eval", &[], parts.as_slice()),
        PeInsn::Set(variable, parts) => put_straight(text, b"set", &[*variable], parts.as_slice()),
        PeInsn::EvalFor(parts, purpose) => put_for(text, *purpose, parts.as_slice()),
    }
}

fn put_answer(text: &mut Text, value: Datum) -> Result<(), OutOfMemory>
    ensures { OnOk result (text.new ≡ text.old ++ (codes "answer " ++ datum_text value)) }
{
    put(text, b"answer ")?;
    put_datum(text, value)
}

// A keyword, the datum that is handed, and an address.
fn put_data(text: &mut Text, keyword: &[u8], value: Datum, address: u32) -> Result<(), OutOfMemory>
    ensures { OnOk result (text.new ≡ text.old ++ worded keyword.now (datum_text value) (address ∷ [])) }
{
    put(text, keyword)?;
    put(text, b" ")?;
    put_datum(text, value)?;
    put_numbers(text, &[address])
}

fn put_datum(text: &mut Text, value: Datum) -> Result<(), OutOfMemory>
    ensures { OnOk result (text.new ≡ text.old ++ datum_text value) }
{
    match value {
        Datum::Int(number) => put(text, itoa::Buffer::new().format(number).as_bytes()),
        Datum::Bool(true) => put(text, b"true"),
        Datum::Bool(false) => put(text, b"false"),
        Datum::Char(byte) => put(text, itoa::Buffer::new().format(byte).as_bytes()),
    }
}

fn put_case(text: &mut Text, index: u32, parts: usize) -> Result<(), OutOfMemory>
    ensures { OnOk result (text.new ≡ text.old ++ line (codes "case") (index ∷ parts ∷ [])) }
{
    put_line(text, b"case", &[index])?;
    put_number(text, parts)
}

// A keyword and the numbers behind it, and straight code.
fn put_straight(
    text: &mut Text,
    keyword: &[u8],
    numbers: &[u32],
    parts: &[StraightPart],
) -> Result<(), OutOfMemory>
    ensures { OnOk result (text.new ≡ text.old ++ (line keyword.now numbers.now ++ flat_map then_part parts.now)) }
{
    put_line(text, keyword, numbers)?;
    put_parts(text, parts)
}

// A purpose, and straight code.
fn put_for(text: &mut Text, purpose: Purpose, parts: &[StraightPart]) -> Result<(), OutOfMemory>
    ensures { OnOk result (text.new ≡ text.old ++ (text_of_purpose purpose ++ flat_map then_part parts.now)) }
{
    put_purpose(text, purpose)?;
    put_parts(text, parts)
}

fn put_purpose(text: &mut Text, purpose: Purpose) -> Result<(), OutOfMemory>
    ensures { OnOk result (text.new ≡ text.old ++ text_of_purpose purpose) }
{
    match purpose {
        Purpose::Choose(x, y) => put_line(text, b"choose", &[x, y]),
        Purpose::Repeat(x) => put_line(text, b"repeat", &[x]),
        Purpose::Store(x) => put_line(text, b"store", &[x]),
        Purpose::Write(kind) => put_worded(text, b"write", kind_word(kind), &[]),
    }
}

fn put_parts(text: &mut Text, parts: &[StraightPart]) -> Result<(), OutOfMemory>
    ensures { OnOk result (text.new ≡ text.old ++ flat_map then_part parts.now) }
{
    for part in parts {
        put_part(text, *part)?;
    }
    Ok(())
}

fn put_part(text: &mut Text, part: StraightPart) -> Result<(), OutOfMemory>
    ensures { OnOk result (text.new ≡ text.old ++ then_part part) }
{
    match part {
        StraightPart::Literal(value) => put_literal(text, value),
        StraightPart::Cell(variable) => put_line(text, b" cell", &[variable]),
        StraightPart::Unary(op, address) => put_operator(text, unary_word(op), address),
        StraightPart::Binary(op, address) => put_operator(text, binary_word(op), address),
    }
}

fn put_literal(text: &mut Text, value: Datum) -> Result<(), OutOfMemory>
    ensures { OnOk result (text.new ≡ text.old ++ (codes " lit " ++ datum_text value)) }
{
    put(text, b" lit ")?;
    put_datum(text, value)
}

fn put_operator(text: &mut Text, word: &[u8], address: u32) -> Result<(), OutOfMemory>
    ensures { OnOk result (text.new ≡ text.old ++ (codes " " ++ (word.now ++ then_number address))) }
{
    put(text, b" ")?;
    put(text, word)?;
    put_number(text, address as usize)
}

fn put_worded(
    text: &mut Text,
    keyword: &[u8],
    word: &[u8],
    numbers: &[u32],
) -> Result<(), OutOfMemory>
    ensures { OnOk result (text.new ≡ text.old ++ worded keyword.now word.now numbers.now) }
{
    put(text, keyword)?;
    put(text, b" ")?;
    put_line(text, word, numbers)
}

fn put_line(text: &mut Text, word: &[u8], numbers: &[u32]) -> Result<(), OutOfMemory>
    ensures { OnOk result (text.new ≡ text.old ++ line word.now numbers.now) }
{
    put(text, word)?;
    put_numbers(text, numbers)
}

fn put_numbers(text: &mut Text, numbers: &[u32]) -> Result<(), OutOfMemory>
    ensures { OnOk result (text.new ≡ text.old ++ flat_map then_number numbers.now) }
{
    for number in numbers {
        put_number(text, *number as usize)?;
    }
    Ok(())
}

fn put_number(text: &mut Text, number: usize) -> Result<(), OutOfMemory>
    ensures { OnOk result (text.new ≡ text.old ++ then_number number) }
{
    put(text, b" ")?;
    put(text, itoa::Buffer::new().format(number).as_bytes())
}

fn unary_word(op: UnOp) -> &'static [u8]
    ensures { result.now ≡ unary_word op }
{
    match op {
        UnOp::Neg => b"neg",
        UnOp::Not => b"not",
        UnOp::Ord => b"ord",
        UnOp::Chr => b"chr",
    }
}

fn binary_word(op: BinOp) -> &'static [u8]
    ensures { result.now ≡ binary_word op }
{
    match op {
        BinOp::Add => b"add",
        BinOp::Sub => b"sub",
        BinOp::Mul => b"mul",
        BinOp::Div => b"div",
        BinOp::Rem => b"rem",
        BinOp::Eq => b"eq",
        BinOp::Ne => b"ne",
        BinOp::Lt => b"lt",
        BinOp::Le => b"le",
        BinOp::Gt => b"gt",
        BinOp::Ge => b"ge",
        BinOp::And => b"and",
        BinOp::Or => b"or",
    }
}

fn kind_word(kind: PutKind) -> &'static [u8]
    ensures { result.now ≡ kind_word kind }
{
    match kind {
        PutKind::Int => b"int",
        PutKind::Char => b"char",
        PutKind::Bool => b"bool",
    }
}

fn text_of(names: &Names, name: Name) -> &[u8]
    ensures { result.now ≡ name_text names.now name }
{
    match names.text(name) {
        Some(text) => text,
        None => b"",
    }
}

fn put(text: &mut Text, bytes: &[u8]) -> Result<(), OutOfMemory>
    ensures { OnOk result (text.new ≡ text.old ++ bytes.now) }
{
    for byte in bytes {
        text.push(*byte)?;
    }
    Ok(())
}
