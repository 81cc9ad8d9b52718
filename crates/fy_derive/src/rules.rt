//! The conclusions of the typing rules.

ghost use Rattle.std.specs.Prelude.{◌≡◌, ◌<◌, IfOk, OnOk, IfSome, option_map, length};
ghost use Rattle.fy_phrase.specs.Reads.{reads};
ghost use Rattle.fy_derive.specs.Contexts.{numbers};
ghost use Rattle.fy_derive.specs.Rules.{conclusion as conclusion_type, premises};
ghost use Rattle.fy_derive.specs.Shown.{total, shown, all_shown, Extends, AreIn};

use crate::atoms::{
    acceptor_atom, binary_atom, data_atom, datum_atom, operand_atom, put_atom, unary_atom,
};
use crate::context::{Context, number_at};
use crate::fits::{
    applied, chosen, command_behind, fits_assignment, fits_operator, is_atom, picked,
    provided_atom, same_as_written, selected,
};
use crate::node::TypeNode;
use crate::table::TypeTable;
use fy_base::OutOfMemory;
use fy_phrase::Phrase;
use fy_types::Atom;
use std::alloc::Global;

/// A rule's conclusion from those of its premises, if it has one.
#[tactic(auto, using(crate::proofs::RuleLemmas::rule_rules))]
pub fn conclusion(
    alloc: Global,
    table: &mut TypeTable,
    context: &Context<'_>,
    p: &Phrase,
    done: &[usize],
) -> Result<Option<usize>, OutOfMemory>
    requires context { AreIn table.old (numbers context.now) }
    requires done { AreIn table.old done.now }
    requires all { IfSome (premises (reads p.now)) (λ Ps. length done.now ≡ length Ps) }
    ensures shown { IfOk result (λ o. option_map (shown table.new) o
        ≡ conclusion_type (all_shown table.old (numbers context.now)) (reads p.now) (all_shown table.old done.now)) }
    ensures within { IfOk result (λ o. IfSome o (λ k. k < total table.new)) }
    ensures extends { OnOk result (Extends table.old table.new) }
{
    match p {
        Phrase::Var(k, _) => Ok(number_at(context, *k)),
        Phrase::Lit(v, _) => provided_atom(table, true, datum_atom(*v)),
        Phrase::Unary(op, _, _) => {
            let fits = is_atom(table, done[0], operand_atom(*op));
            provided_atom(table, fits, unary_atom(*op))
        }
        Phrase::Binary(op, _, _, _) => {
            let fits = fits_operator(table, *op, done[0], done[1]);
            provided_atom(table, fits, binary_atom(*op))
        }
        Phrase::Cond(..) => Ok(chosen(table, done[0], done[1], done[2])),
        Phrase::Case(..) => Ok(picked(table, done)),
        Phrase::Lam(..) | Phrase::Merge(..) | Phrase::Mark(..) => Ok(None),
        Phrase::App(..) => Ok(applied(table, done[0], done[1])),
        Phrase::Field(i, _, _) => {
            let number = table.number(TypeNode::Field(*i, done[0]))?;
            Ok(Some(number))
        }
        Phrase::Sel(_, i, _) => Ok(selected(table, done[0], *i)),
        Phrase::LetIn(..) => Ok(Some(done[1])),
        Phrase::Rec(_, ty, _, _) => same_as_written(alloc, table, done[0], ty),
        Phrase::Skip(_) => provided_atom(table, true, Atom::Comm),
        Phrase::Seq(..) => Ok(command_behind(table, done[0], Atom::Comm, done[1])),
        Phrase::Assign(..) => {
            let fits = fits_assignment(table, done[0], done[1]);
            provided_atom(table, fits, Atom::Comm)
        }
        Phrase::WhileDo(..) => {
            let fits = is_atom(table, done[0], Atom::Bool) && is_atom(table, done[1], Atom::Comm);
            provided_atom(table, fits, Atom::Comm)
        }
        Phrase::Forever(..) => {
            let fits = is_atom(table, done[0], Atom::Comm);
            provided_atom(table, fits, Atom::Compl)
        }
        Phrase::New(_, ty, _, _, _) => {
            Ok(command_behind(table, done[0], data_atom(*ty), done[1]))
        }
        Phrase::Cells(..) => Ok(command_behind(table, done[0], Atom::Int, done[1])),
        Phrase::Escape(..) => {
            let fits = is_atom(table, done[0], Atom::Comm);
            provided_atom(table, fits, Atom::Comm)
        }
        Phrase::Accept(_, ty, _, _) => {
            let fits = is_atom(table, done[0], Atom::Comm);
            provided_atom(table, fits, acceptor_atom(*ty))
        }
        Phrase::Put(kind, _, _) => {
            let fits = is_atom(table, done[0], put_atom(*kind));
            provided_atom(table, fits, Atom::Comm)
        }
        Phrase::Read(..) => {
            let fits = is_atom(table, done[0], Atom::IntAcc);
            provided_atom(table, fits, Atom::Comm)
        }
    }
}
