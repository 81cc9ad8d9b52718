//! The demands that the right operand of a merge takes.

ghost use Rattle.std.specs.Prelude.{◌≡◌, ◌<◌, ◌≤◌, IsTrue, IfOk, length, option_map};
ghost use Rattle.fy_types.specs.Paths.{paths};
ghost use Rattle.fy_phrase.specs.Reads.{reads};
ghost use Rattle.fy_derive.specs.Clear.{has_none, AreEmpty, AreClear};
ghost use Rattle.fy_derive.specs.Kinds.{kind_of, none_begins as none_begins_of};
ghost use Rattle.fy_derive.specs.Shown.{total, shown, types_in};
ghost use Rattle.fy_derive.specs.Standing.{plain_kind};
ghost use Rattle.fy_derive.specs.Tables.{reach, is_meet_behind, node_type};

use crate::atoms::is_acceptor;
use crate::node::TypeNode;
use crate::table::TypeTable;
use fy_base::OutOfMemory;
use fy_phrase::Phrase;
use fy_types::Name;
use std::alloc::Global;

/// What the right operand of a merge takes of all demands.
#[derive(Clone, Copy, Drop)]
pub enum Demand {
    Call,
    Field(Name),
    Assignment,
}

/// What the phrase takes as the right operand of a merge, if it may stand there.
pub fn demand_of(p: &Phrase) -> Option<Demand>
    ensures { option_map plain_kind result ≡ kind_of (reads p.now) }
{
    match p {
        Phrase::Lam(..) => Some(Demand::Call),
        Phrase::Field(name, _, _) => Some(Demand::Field(*name)),
        Phrase::Accept(..) => Some(Demand::Assignment),
        _ => None,
    }
}

/// Whether no path of the type begins with the demand. It takes one pass over the types before it,
/// since parts stand before what they are parts of.
pub fn none_begins(
    alloc: Global,
    table: &TypeTable,
    demand: Demand,
    a: usize,
) -> Result<bool, OutOfMemory>
    requires { a < total table.now }
    ensures { IfOk result (λ r. r ≡ none_begins_of (plain_kind demand) (paths (shown table.now a))) }
{
    let mut empty = Vec::new(alloc);
    let mut clear = Vec::new(alloc);
    for k in 0..a {
        let node = table.node(k);
        clear.push(is_node_clear(table, demand, node, &empty, &clear))?;
        empty.push(is_node_empty(table, node, &empty))?;
    }
    let node = table.node(a);
    Ok(is_node_clear(table, demand, node, &empty, &clear))
}

fn is_node_empty(table: &TypeTable, node: TypeNode, empty: &[bool]) -> bool
    requires parts { reach node ≤ length empty.now }
    requires meet { IsTrue (is_meet_behind (types_in table.now) node) }
    requires empty { AreEmpty table.now empty.now }
    ensures { result ≡ has_none (paths (node_type (types_in table.now) node)) }
{
    let _ = table;
    match node {
        TypeNode::Ns => true,
        TypeNode::Atom(_) => false,
        TypeNode::Arrow(_, r) => empty[r],
        TypeNode::Field(_, r) => empty[r],
        TypeNode::NoTypes => true,
        TypeNode::AndType(first, rest) => empty[first] && empty[rest],
    }
}

fn is_node_clear(
    table: &TypeTable,
    demand: Demand,
    node: TypeNode,
    empty: &[bool],
    clear: &[bool],
) -> bool
    requires parts { reach node ≤ length empty.now }
    requires all { length clear.now ≡ length empty.now }
    requires meet { IsTrue (is_meet_behind (types_in table.now) node) }
    requires empty { AreEmpty table.now empty.now }
    requires clear { AreClear (plain_kind demand) table.now clear.now }
    ensures { result ≡ none_begins_of (plain_kind demand) (paths (node_type (types_in table.now) node)) }
{
    let _ = table;
    match node {
        TypeNode::Ns => true,
        TypeNode::NoTypes => true,
        TypeNode::Atom(atom) => match demand {
            Demand::Call => true,
            Demand::Field(_) => true,
            Demand::Assignment => !is_acceptor(atom),
        },
        TypeNode::Arrow(_, r) => match demand {
            Demand::Call => empty[r],
            Demand::Field(_) => true,
            Demand::Assignment => true,
        },
        TypeNode::Field(i, r) => match demand {
            Demand::Call => true,
            Demand::Field(j) => j != i || empty[r],
            Demand::Assignment => true,
        },
        TypeNode::AndType(first, rest) => clear[first] && clear[rest],
    }
}
