//! Whether a derivation concludes that a phrase is a command.

ghost use Rattle.std.specs.Prelude.{◌≡◌, ◌+◌, ◌^◌, ◌<◌, ◌≤◌, [], IfOk, OnOk, length, map};
ghost use Rattle.fy_phrase.specs.Reads.{reads};
ghost use Rattle.fy_phrase.specs.Premises.{premise_shown};
ghost use Rattle.fy_types.specs.Reading.{plain_type};
ghost use Rattle.fy_derive.specs.Contexts.{numbers};
ghost use Rattle.fy_derive.specs.Derivations.{nodes, all_nodes, nesting, count, most_nodes, most_nesting};
ghost use Rattle.fy_derive.specs.Judging.{judged as judged_type, each_judged, conclusion_of, in_scope, refusal, refusal_at};
ghost use Rattle.fy_derive.specs.Reading.{plain_derivation, plain_derivations};
ghost use Rattle.fy_derive.specs.Shown.{all_shown, AreIn, Extends};
ghost use Rattle.fy_derive.specs.Standing.{IsJudgedAs, AreJudgedAs, IsVerdict};

use crate::below::is_below;
use crate::context::{Context, under};
use crate::derivation::{Derivation, DerivationList};
use crate::error::DeriveError;
use crate::fits::same_as_written;
use crate::kind::none_begins;
use crate::node::TypeNode;
use crate::parts::{alternative, operands};
use crate::reading::{number_of_meet, number_of_type, numbers_in_scope};
use crate::rules::conclusion;
use crate::table::TypeTable;
use fy_phrase::{Phrase, Premise, premises_of, repeated};
use fy_types::{Atom, Ty, TyList};
use std::alloc::Global;

/// Whether the derivation concludes `comm` for the phrase, with no variable in scope. It is to have
/// at most 262,144 nodes and to nest at most 2,048. `Wrong` names the first node, from the left, at
/// which judging stops, or node 0 where the whole concludes another type. The types are those of
/// Reynolds, "Design of the Programming Language Forsythe", CMU-CS-96-146 (1996); intersections are after
/// Coppo, Dezani-Ciancaglini and Venneri (1980, 1981).
pub fn check(alloc: Global, p: &Phrase, d: &Derivation) -> Result<(), DeriveError>
    requires few { nodes (plain_derivation d.now) ≤ most_nodes }
    requires shallow { nesting (plain_derivation d.now) ≤ most_nesting }
    ensures { IsVerdict result (refusal (conclusion_of (reads p.now) (plain_derivation d.now))) }
{
    check_as(alloc, &TyList::new(alloc), p, &Ty::Atom(Atom::Comm), d)
}

/// Whether the derivation concludes the type, as the same tree, for the phrase, where the variables in
/// scope have the types of the context, the outermost first. The derivation is to have at most 262,144
/// nodes and to nest at most 2,048. `Wrong` names the first node, from the left, at which judging
/// stops, or node 0 where the whole concludes another type.
pub fn check_as(
    alloc: Global,
    context: &TyList,
    p: &Phrase,
    ty: &Ty,
    d: &Derivation,
) -> Result<(), DeriveError>
    requires few { nodes (plain_derivation d.now) ≤ most_nodes }
    requires shallow { nesting (plain_derivation d.now) ≤ most_nesting }
    ensures { IsVerdict result (refusal_at (plain_type ty.now)
        (judged_type (plain_derivation d.now) 0 (in_scope context.now) (reads p.now))) }
{
    let mut table = TypeTable::new(alloc);
    let outside = numbers_in_scope(alloc, &mut table, context)?;
    let mut next = 0;
    let number = judge(
        alloc,
        &mut table,
        &mut next,
        d,
        &Context::Outside(&outside),
        p,
    )?;
    match same_as_written(alloc, &mut table, number, ty)? {
        Some(_) => Ok(()),
        None => Err(DeriveError::Wrong(0)),
    }
}

/// The number of what the derivation concludes for the phrase. The first node has the number `next`,
/// which then goes on behind the last one.
#[cycle(judging)]
pub fn judge(
    alloc: Global,
    table: &mut TypeTable,
    next: &mut u32,
    d: &Derivation,
    context: &Context<'_>,
    p: &Phrase,
) -> Result<usize, DeriveError>
    requires context { AreIn table.old (numbers context.now) }
    requires room { next.old + nodes (plain_derivation d.now) < 2 ^ 32 }
    ensures judged { IsJudgedAs table.new result
        (judged_type (plain_derivation d.now) next.old (all_shown table.old (numbers context.now)) (reads p.now)) }
    ensures next { OnOk result (next.new ≡ next.old + nodes (plain_derivation d.now)) }
    ensures extends { OnOk result (Extends table.old table.new) }
{
    let at = *next;
    *next += 1;
    match d {
        Derivation::Ns => {
            let number = table.number(TypeNode::Ns)?;
            Ok(number)
        }
        Derivation::Sub(ty, inner) => {
            let from = judge(alloc, table, next, inner, context, p)?;
            let to = number_of_type(alloc, table, ty)?;
            if is_below(alloc, table, from, to)? {
                Ok(to)
            } else {
                Err(DeriveError::Wrong(at))
            }
        }
        Derivation::Meet(list) => {
            let count = list.len();
            if count < 2 {
                return Err(DeriveError::Wrong(at));
            }
            let premises = repeated(alloc, &*p, count)?;
            let done = judge_each(alloc, table, next, list, &premises, context)?;
            let number = number_of_meet(table, &done)?;
            Ok(number)
        }
        Derivation::Alt(index, inner) => {
            let Some((ty, body)) = alternative(p, *index) else {
                return Err(DeriveError::Wrong(at));
            };
            let domain = number_of_type(alloc, table, ty)?;
            let inside = Context::Under(domain, &*context);
            let rest = judge(alloc, table, next, inner, &inside, body)?;
            let number = table.number(TypeNode::Arrow(domain, rest))?;
            Ok(number)
        }
        Derivation::Left(inner) => {
            let Some((left, _, demand)) = operands(p) else {
                return Err(DeriveError::Wrong(at));
            };
            let number = judge(alloc, table, next, inner, context, left)?;
            if none_begins(alloc, table, demand, number)? {
                Ok(number)
            } else {
                Err(DeriveError::Wrong(at))
            }
        }
        Derivation::Right(inner) => {
            let Some((_, right, _)) = operands(p) else {
                return Err(DeriveError::Wrong(at));
            };
            judge(alloc, table, next, inner, context, right)
        }
        Derivation::Rule(list) => {
            let Some(premises) = premises_of(alloc, &*p)? else {
                return Err(DeriveError::Wrong(at));
            };
            if list.len() != premises.len() {
                return Err(DeriveError::Wrong(at));
            }
            let done = judge_each(alloc, table, next, list, &premises, context)?;
            match conclusion(alloc, table, context, p, &done)? {
                Some(number) => Ok(number),
                None => Err(DeriveError::Wrong(at)),
            }
        }
    }
}

/// The numbers of what the derivations conclude for the premises, in order.
#[cycle(judging)]
pub fn judge_each(
    alloc: Global,
    table: &mut TypeTable,
    next: &mut u32,
    list: &DerivationList,
    premises: &[Premise<'_>],
    context: &Context<'_>,
) -> Result<Vec<usize>, DeriveError>
    requires context { AreIn table.old (numbers context.now) }
    requires all { length premises.now ≡ count (plain_derivations list.now) }
    requires room { next.old + all_nodes (plain_derivations list.now) < 2 ^ 32 }
    ensures judged { AreJudgedAs table.new result
        (each_judged (plain_derivations list.now) next.old (all_shown table.old (numbers context.now)) (map premise_shown premises.now) []) }
    ensures length { IfOk result (λ v. length v.items ≡ length premises.now) }
    ensures next { OnOk result (next.new ≡ next.old + all_nodes (plain_derivations list.now)) }
    ensures extends { OnOk result (Extends table.old table.new) }
{
    let items = list.as_slice();
    let mut done = Vec::new(alloc);
    for i in 0..items.len() {
        let premise = &premises[i];
        let inside = under(alloc, table, &*context, premise.binds, &done)?;
        let number = judge(alloc, table, next, &items[i], &inside, premise.part)?;
        done.push(number)?;
    }
    Ok(done)
}
