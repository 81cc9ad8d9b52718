//! Why judging stops.

ghost use Rattle.std.specs.Prelude.{◌≡◌, ◌+◌, ◌^◌, ◌<◌, ◌≤◌, [], IfOk, IfSome, OnOk, if◌then◌else◌, length, map, option_map};
ghost use Rattle.fy_phrase.specs.Reads.{reads};
ghost use Rattle.fy_phrase.specs.Premises.{premise_shown};
ghost use Rattle.fy_derive.specs.Contexts.{numbers};
ghost use Rattle.fy_derive.specs.Derivations.{nodes, all_nodes, nesting, count, most_nodes, most_nesting};
ghost use Rattle.fy_derive.specs.Judging.{judged as judged_type, each_judged, stops, one_stops};
ghost use Rattle.fy_derive.specs.Reading.{plain_derivation, plain_derivations};
ghost use Rattle.fy_reasons.specs.Reasons.{Forgets, no_alternative, no_alternative_of, other_form, judged_so, each_so, reason_of, stops as stops_so, one_stops as one_stops_so};
ghost use Rattle.fy_derive.specs.Shown.{all_shown, AreIn, Extends};
ghost use Rattle.fy_reasons.specs.Stopping.{OwnStop, stop_read, IsStopIn, IsWhyIn};

use fy_base::OutOfMemory;
use fy_derive::{
    Context, Derivation, DerivationList, DeriveError, TypeTable, alternative, is_atom, judge,
    judge_each, nodes_of, number_of_type, operands, under,
};
use fy_phrase::{Phrase, Premise, premises_of, repeated};
use fy_types::Atom;
use std::alloc::Global;

/// Why judging stops at a node. Types are told by their numbers in a table.
#[derive(Drop)]
pub enum Why {
    /// The phrase is of another form.
    OtherForm,
    /// The rule has another number of premises.
    OtherCount,
    /// The abstraction has no such alternative.
    NoAlternative,
    /// A meet of fewer than two.
    FewParts,
    /// The part concludes this type, which isn't below that of the subsumption.
    NotBelow(usize),
    /// The left operand concludes this type, which has what the right operand takes.
    TakenRight(usize),
    /// The premises conclude these types, from which the rule concludes nothing.
    OtherTypes(Vec<usize>),
    /// The whole concludes this type, and not that of a command.
    NoCommand(usize),
}

/// The node at which judging stops, with its number in preorder, the types of the variables in scope there, the innermost
/// first, and the phrase.
#[derive(Drop)]
pub struct Stopped<'a> {
    pub number: u32,
    pub node: &'a Derivation,
    pub types: Vec<usize>,
    pub phrase: &'a Phrase,
    pub why: Why,
}

/// Where the derivation of a program is refused, and why, or `None` where it is accepted. It is to have at most 262,144
/// nodes and to nest at most 2,048. `check` refuses the same derivations, at the same nodes.
pub fn refusal_of<'a>(
    alloc: Global,
    table: &mut TypeTable,
    p: &'a Phrase,
    d: &'a Derivation,
) -> Result<Option<Stopped<'a>>, OutOfMemory>
    requires few { nodes (plain_derivation d.now) ≤ most_nodes }
    requires shallow { nesting (plain_derivation d.now) ≤ most_nesting }
    ensures stop { IfOk result (λ o. option_map (stop_read table.new) o ≡ reason_of (plain_derivation d.now) (reads p.now)) }
    ensures within { IfOk result (λ o. IfSome o (IsStopIn table.new)) }
{
    let context = Context::Outside(&[]);
    let mut next = 0;
    match judge(alloc, table, &mut next, d, &context, p) {
        Ok(number) => {
            if is_atom(table, number, Atom::Comm) {
                return Ok(None);
            }
            let stop = stop_at_node(alloc, 0, d, &context, p, Why::NoCommand(number))?;
            Ok(Some(stop))
        }
        Err(DeriveError::Wrong(wrong)) => {
            match stop_in(alloc, table, wrong, 0, d, &context, p) {
                Ok(stop) => Ok(Some(stop)),
                Err(_) => Err(OutOfMemory),
            }
        }
        Err(DeriveError::OutOfMemory) => Err(OutOfMemory),
    }
}

// The stop of a derivation whose judging stops at the node of that number. Its first node has the number `at`.
#[cycle(stops)]
fn stop_in<'a>(
    alloc: Global,
    table: &mut TypeTable,
    wrong: u32,
    at: u32,
    d: &'a Derivation,
    context: &Context<'_>,
    p: &'a Phrase,
) -> Result<Stopped<'a>, DeriveError>
    requires context { AreIn table.old (numbers context.now) }
    requires room { at + nodes (plain_derivation d.now) < 2 ^ 32 }
    requires wrong { judged_type (plain_derivation d.now) at (all_shown table.old (numbers context.now)) (reads p.now) ≡ stops wrong }
    ensures stop { IfOk result (λ s. judged_so (plain_derivation d.now) at (all_shown table.old (numbers context.now)) (reads p.now)
        ≡ stops_so (stop_read table.new s)) }
    ensures within { IfOk result (IsStopIn table.new) }
{
    if wrong == at {
        let why = own_reason(alloc, table, at, d, context, p)?;
        let stop = stop_at_node(alloc, at, d, context, p, why)?;
        return Ok(stop);
    }
    match d {
        Derivation::Ns => Err(DeriveError::Wrong(wrong)),
        Derivation::Sub(_, inner) => stop_in(alloc, table, wrong, at + 1, inner, context, p),
        Derivation::Meet(list) => {
            let premises = repeated(alloc, p, list.len())?;
            stop_among(alloc, table, wrong, at + 1, list, &premises, context)
        }
        Derivation::Alt(index, inner) => {
            let Some((ty, body)) = alternative(p, *index) else {
                return Err(DeriveError::Wrong(wrong));
            };
            let domain = number_of_type(alloc, table, ty)?;
            let inside = Context::Under(domain, &*context);
            stop_in(alloc, table, wrong, at + 1, inner, &inside, body)
        }
        Derivation::Left(inner) => {
            let Some((left, _, _)) = operands(p) else {
                return Err(DeriveError::Wrong(wrong));
            };
            stop_in(alloc, table, wrong, at + 1, inner, context, left)
        }
        Derivation::Right(inner) => {
            let Some((_, right, _)) = operands(p) else {
                return Err(DeriveError::Wrong(wrong));
            };
            stop_in(alloc, table, wrong, at + 1, inner, context, right)
        }
        Derivation::Rule(list) => {
            let Some(premises) = premises_of(alloc, p)? else {
                return Err(DeriveError::Wrong(wrong));
            };
            if list.len() != premises.len() {
                return Err(DeriveError::Wrong(wrong));
            }
            stop_among(alloc, table, wrong, at + 1, list, &premises, context)
        }
    }
}

// The stop of the derivation that has the node, behind what those before it conclude.
#[cycle(stops)]
fn stop_among<'a>(
    alloc: Global,
    table: &mut TypeTable,
    wrong: u32,
    at: u32,
    list: &'a DerivationList,
    premises: &[Premise<'a>],
    context: &Context<'_>,
) -> Result<Stopped<'a>, DeriveError>
    requires context { AreIn table.old (numbers context.now) }
    requires all { length premises.now ≡ count (plain_derivations list.now) }
    requires room { at + all_nodes (plain_derivations list.now) < 2 ^ 32 }
    requires wrong { each_judged (plain_derivations list.now) at (all_shown table.old (numbers context.now)) (map premise_shown premises.now) [] ≡ one_stops wrong }
    ensures stop { IfOk result (λ s. each_so (plain_derivations list.now) at (all_shown table.old (numbers context.now)) (map premise_shown premises.now) []
        ≡ one_stops_so (stop_read table.new s)) }
    ensures within { IfOk result (IsStopIn table.new) }
{
    let items = list.as_slice();
    let mut done = Vec::new(alloc);
    let mut next = at;
    for i in 0..items.len() {
        let premise = &premises[i];
        let item = &items[i];
        let inside = under(alloc, table, &*context, premise.binds, &done)?;
        if wrong < next + nodes_of(item) {
            return stop_in(alloc, table, wrong, next, item, &inside, premise.part);
        }
        let number = judge(alloc, table, &mut next, item, &inside, premise.part)?;
        done.push(number)?;
    }
    Err(DeriveError::Wrong(wrong))
}

// Why judging stops at the derivation's own node.
#[tactic(auto, using(crate::proofs::WalkLemmas::own_rules))]
fn own_reason(
    alloc: Global,
    table: &mut TypeTable,
    at: u32,
    d: &Derivation,
    context: &Context<'_>,
    p: &Phrase,
) -> Result<Why, DeriveError>
    requires context { AreIn table.old (numbers context.now) }
    requires room { at + nodes (plain_derivation d.now) < 2 ^ 32 }
    requires wrong { judged_type (plain_derivation d.now) at (all_shown table.old (numbers context.now)) (reads p.now) ≡ stops at }
    ensures why { IfOk result (OwnStop table.new (plain_derivation d.now) at (all_shown table.old (numbers context.now)) (reads p.now)) }
    ensures within { IfOk result (IsWhyIn table.new) }
    ensures extends { OnOk result (Extends table.old table.new) }
{
    let mut next = at + 1;
    match d {
        Derivation::Ns => Err(DeriveError::Wrong(at)),
        Derivation::Sub(_, inner) => {
            let from = judge(alloc, table, &mut next, inner, context, p)?;
            Ok(Why::NotBelow(from))
        }
        Derivation::Meet(list) => {
            if list.len() < 2 {
                Ok(Why::FewParts)
            } else {
                Err(DeriveError::Wrong(at))
            }
        }
        Derivation::Alt(index, _) => match alternative(p, *index) {
            Some(_) => Err(DeriveError::Wrong(at)),
            None => {
                if is_abstraction(p) {
                    Ok(Why::NoAlternative)
                } else {
                    Ok(Why::OtherForm)
                }
            }
        },
        Derivation::Left(inner) => match operands(p) {
            None => Ok(Why::OtherForm),
            Some((left, _, _)) => {
                let number = judge(alloc, table, &mut next, inner, context, left)?;
                Ok(Why::TakenRight(number))
            }
        },
        Derivation::Right(_) => match operands(p) {
            Some(_) => Err(DeriveError::Wrong(at)),
            None => Ok(Why::OtherForm),
        },
        Derivation::Rule(list) => match premises_of(alloc, &*p)? {
            None => Ok(Why::OtherForm),
            Some(premises) => {
                if list.len() != premises.len() {
                    return Ok(Why::OtherCount);
                }
                let done = judge_each(alloc, table, &mut next, list, &premises, context)?;
                Ok(Why::OtherTypes(done))
            }
        },
    }
}

// Whether what has no such alternative is an abstraction.
fn is_abstraction(p: &Phrase) -> bool
    ensures { no_alternative_of (reads p.now) ≡ (if result then no_alternative else other_form) }
{
    match p {
        Phrase::Lam(..) => true,
        _ => false,
    }
}

fn stop_at_node<'a>(
    alloc: Global,
    number: u32,
    node: &'a Derivation,
    context: &Context<'_>,
    phrase: &'a Phrase,
    why: Why,
) -> Result<Stopped<'a>, OutOfMemory>
    ensures number { IfOk result (λ s. s.number ≡ number) }
    ensures node { IfOk result (λ s. plain_derivation s.node.now ≡ plain_derivation node.now) }
    ensures types { IfOk result (λ s. s.types.items ≡ numbers context.now) }
    ensures phrase { IfOk result (λ s. reads s.phrase.now ≡ reads phrase.now) }
    ensures why { IfOk result (λ s. s.why ≡ why) }
{
    let types = numbers_in(alloc, context)?;
    Ok(Stopped {
        number,
        node,
        types,
        phrase,
        why,
    })
}

// The numbers of the types in scope, the innermost first.
fn numbers_in(alloc: Global, context: &Context<'_>) -> Result<Vec<usize>, OutOfMemory>
    ensures { IfOk result (λ v. v.items ≡ numbers context.now) }
{
    let mut all = Vec::new(alloc);
    let mut rest = context;
    loop {
        match rest {
            Context::Outside(numbers) => {
                all.extend_from_slice(numbers)?;
                return Ok(all);
            }
            Context::Under(number, outer) => {
                all.push(*number)?;
                rest = outer;
            }
        }
    }
}

/// The law of the definition: without its reason it is `judged`.
pub fn reasons_are_forgotten()
    ensures { Forgets }
{}
