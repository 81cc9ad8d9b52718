//! Copies of the lists of a code.

ghost use Rattle.std.specs.Prelude.{◌≡◌, IfOk};
ghost use Rattle.pe_code.specs.Entries.{AreInOrder};

use fy_base::OutOfMemory;
use pe_code::{AddressList, Entry, EntryList, NodeList, PeInsn, StraightList, StraightPart};
use std::alloc::Global;

/// The list of the entries.
pub fn copied_entries(alloc: Global, entries: &[Entry]) -> Result<EntryList, OutOfMemory>
    requires { AreInOrder entries.now }
    ensures { IfOk result (λ made. made ≡ entries.now) }
{
    let mut made = EntryList::new(alloc);
    for entry in entries {
        made.push(*entry)?;
    }
    Ok(made)
}

/// The list of the nodes.
pub fn copied_nodes(alloc: Global, nodes: &[u32]) -> Result<NodeList, OutOfMemory>
    ensures { IfOk result (λ made. made ≡ nodes.now) }
{
    let mut made = NodeList::new(alloc);
    for node in nodes {
        made.push(*node)?;
    }
    Ok(made)
}

/// The instruction.
pub fn copied_insn(alloc: Global, insn: &PeInsn) -> Result<PeInsn, OutOfMemory>
    ensures { IfOk result (λ made. made ≡ insn.now) }
{
    Ok(match insn {
        PeInsn::UseVar(variable, shape) => PeInsn::UseVar(*variable, *shape),
        PeInsn::Answer(v) => PeInsn::Answer(*v),
        PeInsn::Op1(op, x) => PeInsn::Op1(*op, *x),
        PeInsn::Op2(op, x, y) => PeInsn::Op2(*op, *x, *y),
        PeInsn::Cond(x, y, z) => PeInsn::Cond(*x, *y, *z),
        PeInsn::Case(x, parts) => PeInsn::Case(*x, addresses(alloc, parts.as_slice())?),
        PeInsn::Bind(body) => PeInsn::Bind(*body),
        PeInsn::Pass(node, x) => PeInsn::Pass(*node, *x),
        PeInsn::PassVar(variable, x) => PeInsn::PassVar(*variable, *x),
        PeInsn::PassData(v, x) => PeInsn::PassData(*v, *x),
        PeInsn::Field(name, x) => PeInsn::Field(*name, *x),
        PeInsn::Pick(name, x) => PeInsn::Pick(*name, *x),
        PeInsn::Let(node, body) => PeInsn::Let(*node, *body),
        PeInsn::LetVar(variable, body) => PeInsn::LetVar(*variable, *body),
        PeInsn::LetData(v, body) => PeInsn::LetData(*v, *body),
        PeInsn::Knot(node, body) => PeInsn::Knot(*node, *body),
        PeInsn::Done => PeInsn::Done,
        PeInsn::Seq(x, y) => PeInsn::Seq(*x, *y),
        PeInsn::Assign(x, y) => PeInsn::Assign(*x, *y),
        PeInsn::While(x, y) => PeInsn::While(*x, *y),
        PeInsn::Loop(x) => PeInsn::Loop(*x),
        PeInsn::New(x, body) => PeInsn::New(*x, *body),
        PeInsn::Cells(x, body) => PeInsn::Cells(*x, *body),
        PeInsn::Escape(body) => PeInsn::Escape(*body),
        PeInsn::Accept(body) => PeInsn::Accept(*body),
        PeInsn::Put(kind, x) => PeInsn::Put(*kind, *x),
        PeInsn::Read(x) => PeInsn::Read(*x),
        PeInsn::Eval(parts) => PeInsn::Eval(copied_straight(alloc, parts.as_slice())?),
        PeInsn::Set(variable, parts) => PeInsn::Set(
            *variable,
            copied_straight(alloc, parts.as_slice())?,
        ),
        PeInsn::EvalFor(parts, purpose) => PeInsn::EvalFor(
            copied_straight(alloc, parts.as_slice())?,
            *purpose,
        ),
    })
}

/// Straight code.
pub fn copied_straight(alloc: Global, parts: &[StraightPart]) -> Result<StraightList, OutOfMemory>
    ensures { IfOk result (λ made. made ≡ parts.now) }
{
    Ok(StraightList::from_vec(Vec::from_slice(alloc, parts)?))
}

fn addresses(alloc: Global, parts: &[u32]) -> Result<AddressList, OutOfMemory>
    ensures { IfOk result (λ made. made ≡ parts.now) }
{
    Ok(AddressList::from_vec(Vec::from_slice(alloc, parts)?))
}
