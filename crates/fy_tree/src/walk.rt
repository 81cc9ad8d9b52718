//! The lines of a derivation.

ghost use Rattle.std.specs.Prelude.{◌≡◌, ◌+◌, ◌-◌, ◌==◌, ◌<◌, ◌^◌, [], ◌++◌, None, true, codes, if◌then◌else◌, IfOk, IfSome, OnOk, length, map, option_map};
ghost use Rattle.fy_phrase.specs.Premises.{plain_binder, premise_shown};
ghost use Rattle.fy_phrase.specs.Reads.{reads};
ghost use Rattle.fy_derive.specs.declared.derivation.Derivation.{size-Derivation};
ghost use Rattle.fy_derive.specs.Contexts.{numbers};
ghost use Rattle.fy_derive.specs.Derivations.{all_nodes, count, nodes};
ghost use Rattle.fy_derive.specs.Judging.{judged, under as under_of};
ghost use Rattle.fy_derive.specs.Reading.{plain_derivation, plain_derivations};
ghost use Rattle.fy_derive.specs.Shown.{all_shown, shown, total, AreIn, Extends};
ghost use Rattle.fy_derive.specs.Tables.{type_at};
ghost use Rattle.fy_short.specs.Cut.{cut};
ghost use Rattle.fy_show.specs.Reading.{entry_read, known_in, scope_in};
ghost use Rattle.fy_told.specs.ReasonTexts.{is_bound, type_told, variable_text};
ghost use Rattle.fy_tree.specs.Annotated.{and_annotated, at_premise, beneath, concluded as concluded_type, each_shown, no_annotated, shown_of};
ghost use Rattle.fy_tree.specs.Lines.{above_part, above_premises, cut_off, each_lines, first_line, inside, last_line, lines, node_rule, raised_lines, sought as sought_of};
ghost use Rattle.fy_tree.specs.Reading.{below_in, look_in, raised_part, spot_in, tree_in, tree_of, IsNodeIn};

use crate::line::{closing_of, last_line_of, parting_of, put_cut_off, put_first_line, put_opening};
use crate::node::{Node, concluded, innermost};
use crate::style::{Form, Style};
use fy_base::OutOfMemory;
use fy_derive::{
    Context, Derivation, DerivationList, TypeTable, alternative, nodes_of, operands, under,
};
use fy_phrase::{Binds, Given, Phrase, Premise, premises_of, repeated};
use fy_short::{put, put_cut};
use fy_show::{EntryText, ScopeTexts, View, bound, in_scope};
use fy_told::{put_cut_type, put_variable};
use std::alloc::Global;

/// Where lines are put: the node that is looked for, if one is, what stands in front of each line, and how many levels are shown
/// below the node.
#[derive(Clone, Copy, Drop)]
pub(crate) struct Stand<'a> {
    pub seek: Option<u32>,
    pub lead: &'a [u8],
    pub more: u32,
}

/// Puts the lines of the tree below a node behind the text, or below the one that is looked for.
#[cycle(walk)]
pub(crate) fn put_node(
    text: &mut Vec<u8>,
    table: &mut TypeTable,
    style: Style,
    view: &View<'_, '_>,
    context: &Context<'_>,
    stand: &Stand<'_>,
    above: &[u8],
    node: &Node<'_>,
) -> Result<(), OutOfMemory>
    requires context { AreIn table.old (numbers context.now) }
    requires room { node.now.at + nodes (plain_derivation node.now.derivation.now) < 2 ^ 32 }
    requires node { IsNodeIn table.old context.now node.now }
    ensures text { OnOk result (text.new.items ≡ text.old.items ++ lines (look_in style view.now) stand.now.seek stand.now.lead.now stand.now.more
        above.now (tree_in table.old context.now view.now node.now)) }
    ensures extends { OnOk result (Extends table.old table.new) }
{
    let seek = sought(node.at, stand.seek);
    let here = Stand {
        seek,
        lead: stand.lead,
        more: stand.more,
    };
    match part_of(node.derivation) {
        Some(inner) => put_raised(text, table, style, view, context, &here, above, node, inner),
        None => put_own(text, table, style, view, context, &here, above, node),
    }
}

// The node that is looked for, unless it is this one.
fn sought(at: u32, seek: Option<u32>) -> Option<u32>
    ensures { result ≡ sought_of at seek }
{
    match seek {
        None => None,
        Some(number) => { if number == at { None } else { Some(number) } }
    }
}

/// The part of a subsumption.
pub(crate) fn part_of(d: &Derivation) -> Option<&Derivation>
    ensures part { option_map (λ x. plain_derivation x.now) result ≡ raised_part (plain_derivation d.now) }
    ensures smaller { IfSome result (λ x. size-Derivation x.now < size-Derivation d.now) }
{
    match d {
        Derivation::Sub(_, inner) => Some(inner),
        Derivation::Ns
        | Derivation::Meet(_)
        | Derivation::Alt(..)
        | Derivation::Left(_)
        | Derivation::Right(_)
        | Derivation::Rule(_) => None,
    }
}

// Those of a subsumption above its part.
#[cycle(walk)]
fn put_raised(
    text: &mut Vec<u8>,
    table: &mut TypeTable,
    style: Style,
    view: &View<'_, '_>,
    context: &Context<'_>,
    stand: &Stand<'_>,
    above: &[u8],
    node: &Node<'_>,
    inner: &Derivation,
) -> Result<(), OutOfMemory>
    requires context { AreIn table.old (numbers context.now) }
    requires room { node.now.at + 1 + nodes (plain_derivation inner.now) < 2 ^ 32 }
    requires within { node.now.conclusion < total table.old }
    ensures text { OnOk result (text.new.items ≡ text.old.items ++ above_part (look_in style view.now) stand.now.seek stand.now.lead.now stand.now.more
        above.now (spot_in table.old view.now node.now) (tree_of table.old context.now view.now node.now (node.now.at + 1) (plain_derivation inner.now))) }
    ensures extends { OnOk result (Extends table.old table.new) }
{
    let at = node.at + 1;
    let conclusion = concluded(view.alloc, table, at, inner, context, node.phrase)?;
    let part = Node {
        at,
        derivation: inner,
        phrase: node.phrase,
        conclusion,
        added: node.added,
    };
    match stand.seek {
        Some(_) => put_node(text, table, style, view, context, stand, b"", &part),
        None => put_seen(text, table, style, view, context, stand, above, node, &part),
    }
}

// Those of a subsumption that is seen: one to the type that its part has already is left out.
#[cycle(walk)]
fn put_seen(
    text: &mut Vec<u8>,
    table: &mut TypeTable,
    style: Style,
    view: &View<'_, '_>,
    context: &Context<'_>,
    stand: &Stand<'_>,
    above: &[u8],
    node: &Node<'_>,
    part: &Node<'_>,
) -> Result<(), OutOfMemory>
    requires context { AreIn table.old (numbers context.now) }
    requires room { part.now.at + nodes (plain_derivation part.now.derivation.now) < 2 ^ 32 }
    requires within { node.now.conclusion < total table.old }
    requires part { IsNodeIn table.old context.now part.now }
    requires seen { stand.now.seek ≡ None }
    ensures text { OnOk result (text.new.items ≡ text.old.items ++ above_part (look_in style view.now) stand.now.seek stand.now.lead.now stand.now.more
        above.now (spot_in table.old view.now node.now) (tree_in table.old context.now view.now part.now)) }
    ensures extends { OnOk result (Extends table.old table.new) }
{
    if part.conclusion == node.conclusion {
        put_node(text, table, style, view, context, stand, above, part)
    } else {
        put_other(text, table, style, view, context, stand, above, node, part)
    }
}

// Those of a subsumption to another type than its part has.
#[cycle(walk)]
fn put_other(
    text: &mut Vec<u8>,
    table: &mut TypeTable,
    style: Style,
    view: &View<'_, '_>,
    context: &Context<'_>,
    stand: &Stand<'_>,
    above: &[u8],
    node: &Node<'_>,
    part: &Node<'_>,
) -> Result<(), OutOfMemory>
    requires context { AreIn table.old (numbers context.now) }
    requires room { part.now.at + nodes (plain_derivation part.now.derivation.now) < 2 ^ 32 }
    requires within { node.now.conclusion < total table.old }
    requires part { IsNodeIn table.old context.now part.now }
    requires seen { stand.now.seek ≡ None }
    ensures text { OnOk result (text.new.items ≡ text.old.items ++ raised_lines (look_in style view.now) style.form stand.now.lead.now above.now
        (spot_in table.old view.now node.now)
        (λ inner behind. lines (look_in style view.now) None inner stand.now.more behind (tree_in table.old context.now view.now part.now))) }
    ensures extends { OnOk result (Extends table.old table.new) }
{
    match style.form {
        Form::Plain => {
            let behind = above_of(table, view, node.conclusion, above)?;
            put_node(text, table, style, view, context, stand, &behind, part)
        }
        Form::Latex => put_enclosed(text, table, style, view, context, stand, node, part),
    }
}

// Those of one that is a node of its own.
#[cycle(walk)]
fn put_enclosed(
    text: &mut Vec<u8>,
    table: &mut TypeTable,
    style: Style,
    view: &View<'_, '_>,
    context: &Context<'_>,
    stand: &Stand<'_>,
    node: &Node<'_>,
    part: &Node<'_>,
) -> Result<(), OutOfMemory>
    requires context { AreIn table.old (numbers context.now) }
    requires room { part.now.at + nodes (plain_derivation part.now.derivation.now) < 2 ^ 32 }
    requires within { node.now.conclusion < total table.old }
    requires part { IsNodeIn table.old context.now part.now }
    requires seen { stand.now.seek ≡ None }
    ensures text { OnOk result (text.new.items ≡ text.old.items ++ (first_line stand.now.lead.now (node_rule (plain_derivation node.now.derivation.now) (reads node.now.phrase.now))
        ++ lines (look_in style view.now) None (inside stand.now.lead.now) stand.now.more [] (tree_in table.old context.now view.now part.now)
        ++ last_line (known_in view.now) stand.now.lead.now (spot_in table.old view.now node.now))) }
    ensures extends { OnOk result (Extends table.old table.new) }
{
    let lead = inside_of(view.alloc, stand.lead)?;
    let behind = last_line_of(table, view, stand.lead, node)?;
    put_first_line(text, stand.lead, node)?;
    let within = Stand {
        seek: None,
        lead: &lead,
        more: stand.more,
    };
    put_node(text, table, style, view, context, &within, b"", part)?;
    put(text, &behind)
}

// The type with the number in front of those above it.
fn above_of(
    table: &TypeTable,
    view: &View<'_, '_>,
    number: usize,
    above: &[u8],
) -> Result<Vec<u8>, OutOfMemory>
    requires { number < total table.now }
    ensures { IfOk result (λ made. made.items ≡ codes " <= " ++ type_told (known_in view.now) (shown table.now number) ++ above.now) }
{
    let mut made = Vec::new(view.alloc);
    put(&mut made, b" <= ")?;
    put_cut_type(view.alloc, &mut made, view.known.names, table, number)?;
    put(&mut made, above)?;
    Ok(made)
}

// One level farther in.
fn inside_of(alloc: Global, lead: &[u8]) -> Result<Vec<u8>, OutOfMemory>
    ensures { IfOk result (λ made. made.items ≡ inside lead.now) }
{
    let mut made = Vec::new(alloc);
    put(&mut made, lead)?;
    put(&mut made, b"  ")?;
    Ok(made)
}

// Those of another node.
#[cycle(walk)]
fn put_own(
    text: &mut Vec<u8>,
    table: &mut TypeTable,
    style: Style,
    view: &View<'_, '_>,
    context: &Context<'_>,
    stand: &Stand<'_>,
    above: &[u8],
    node: &Node<'_>,
) -> Result<(), OutOfMemory>
    requires context { AreIn table.old (numbers context.now) }
    requires room { node.now.at + nodes (plain_derivation node.now.derivation.now) < 2 ^ 32 }
    requires within { node.now.conclusion < total table.old }
    requires own { raised_part (plain_derivation node.now.derivation.now) ≡ None }
    ensures text { OnOk result (text.new.items ≡ text.old.items ++ above_premises (look_in style view.now) stand.now.seek stand.now.lead.now stand.now.more
        above.now (spot_in table.old view.now node.now) (below_in table.old context.now view.now node.now)) }
    ensures extends { OnOk result (Extends table.old table.new) }
{
    match stand.seek {
        Some(_) => put_below(text, table, style, view, context, stand, node),
        None => put_shown(text, table, style, view, context, stand, above, node),
    }
}

// Those of one that is seen.
#[cycle(walk)]
fn put_shown(
    text: &mut Vec<u8>,
    table: &mut TypeTable,
    style: Style,
    view: &View<'_, '_>,
    context: &Context<'_>,
    stand: &Stand<'_>,
    above: &[u8],
    node: &Node<'_>,
) -> Result<(), OutOfMemory>
    requires context { AreIn table.old (numbers context.now) }
    requires room { node.now.at + nodes (plain_derivation node.now.derivation.now) < 2 ^ 32 }
    requires within { node.now.conclusion < total table.old }
    requires own { raised_part (plain_derivation node.now.derivation.now) ≡ None }
    requires seen { stand.now.seek ≡ None }
    ensures text { OnOk result (text.new.items ≡ text.old.items ++ above_premises (look_in style view.now) stand.now.seek stand.now.lead.now stand.now.more
        above.now (spot_in table.old view.now node.now) (below_in table.old context.now view.now node.now)) }
    ensures extends { OnOk result (Extends table.old table.new) }
{
    let lead = inside_of(view.alloc, stand.lead)?;
    let behind = closing_of(table, style, view, stand.lead, node)?;
    put_opening(text, table, style, view, stand.lead, above, node)?;
    put_inside(text, table, style, view, context, stand.more, &lead, node)?;
    put(text, &behind)
}

// Those of its premises, or what stands for them.
#[cycle(walk)]
fn put_inside(
    text: &mut Vec<u8>,
    table: &mut TypeTable,
    style: Style,
    view: &View<'_, '_>,
    context: &Context<'_>,
    more: u32,
    lead: &[u8],
    node: &Node<'_>,
) -> Result<(), OutOfMemory>
    requires context { AreIn table.old (numbers context.now) }
    requires room { node.now.at + nodes (plain_derivation node.now.derivation.now) < 2 ^ 32 }
    requires own { raised_part (plain_derivation node.now.derivation.now) ≡ None }
    ensures text { OnOk result (text.new.items ≡ text.old.items ++ (if more == 0 then cut_off style.form lead.now node.now.at (plain_derivation node.now.derivation.now)
        else each_lines (look_in style view.now) None lead.now (more - 1) [] (below_in table.old context.now view.now node.now))) }
    ensures extends { OnOk result (Extends table.old table.new) }
{
    if more == 0 {
        put_cut_off(text, style.form, lead, node)
    } else {
        let within = Stand {
            seek: None,
            lead,
            more: more - 1,
        };
        put_below(text, table, style, view, context, &within, node)
    }
}

// Those of its premises.
#[cycle(walk)]
fn put_below(
    text: &mut Vec<u8>,
    table: &mut TypeTable,
    style: Style,
    view: &View<'_, '_>,
    context: &Context<'_>,
    stand: &Stand<'_>,
    node: &Node<'_>,
) -> Result<(), OutOfMemory>
    requires context { AreIn table.old (numbers context.now) }
    requires room { node.now.at + nodes (plain_derivation node.now.derivation.now) < 2 ^ 32 }
    requires own { raised_part (plain_derivation node.now.derivation.now) ≡ None }
    ensures text { OnOk result (text.new.items ≡ text.old.items ++ each_lines (look_in style view.now) stand.now.seek stand.now.lead.now stand.now.more
        [] (below_in table.old context.now view.now node.now)) }
    ensures extends { OnOk result (Extends table.old table.new) }
{
    let p = node.phrase;
    let at = node.at + 1;
    match node.derivation {
        Derivation::Ns | Derivation::Sub(..) => Ok(()),
        Derivation::Meet(list) => {
            let premises = repeated(view.alloc, p, list.len())?;
            put_each(
                text, table, style, view, context, stand, at, list, &premises, p,
            )
        }
        Derivation::Alt(index, inner) => {
            let Some((ty, part)) = alternative(p, *index) else {
                return Ok(());
            };
            let premise = Premise {
                binds: Binds::Given(Given::Type(ty)),
                part,
            };
            put_only(
                text, table, style, view, context, stand, at, inner, &premise, p,
            )
        }
        Derivation::Left(inner) => {
            let Some((part, _, _)) = operands(p) else {
                return Ok(());
            };
            let premise = Premise::plain(part);
            put_only(
                text, table, style, view, context, stand, at, inner, &premise, p,
            )
        }
        Derivation::Right(inner) => {
            let Some((_, part, _)) = operands(p) else {
                return Ok(());
            };
            let premise = Premise::plain(part);
            put_only(
                text, table, style, view, context, stand, at, inner, &premise, p,
            )
        }
        Derivation::Rule(list) => {
            let Some(premises) = premises_of(view.alloc, p)? else {
                return Ok(());
            };
            if list.len() != premises.len() {
                return Ok(());
            }
            put_each(
                text, table, style, view, context, stand, at, list, &premises, p,
            )
        }
    }
}

// Those of the derivation for the one premise of the phrase.
#[cycle(walk)]
fn put_only(
    text: &mut Vec<u8>,
    table: &mut TypeTable,
    style: Style,
    view: &View<'_, '_>,
    context: &Context<'_>,
    stand: &Stand<'_>,
    at: u32,
    d: &Derivation,
    premise: &Premise<'_>,
    p: &Phrase,
) -> Result<(), OutOfMemory>
    requires context { AreIn table.old (numbers context.now) }
    requires room { at + nodes (plain_derivation d.now) < 2 ^ 32 }
    ensures text { OnOk result (text.new.items ≡ text.old.items ++ each_lines (look_in style view.now) stand.now.seek stand.now.lead.now stand.now.more
        [] (and_annotated (at_premise (known_in view.now) (all_shown table.old (numbers context.now)) (scope_in view.now) (reads p.now) []
        (premise_shown premise.now) (shown_of (known_in view.now) (plain_derivation d.now) at)) no_annotated)) }
    ensures extends { OnOk result (Extends table.old table.new) }
{
    put_premise(
        text,
        table,
        style,
        view,
        context,
        stand,
        at,
        d,
        premise,
        &[],
        p,
    )?;
    Ok(())
}

// Those of the derivations in the list, each for its premise of the phrase.
#[cycle(walk)]
fn put_each(
    text: &mut Vec<u8>,
    table: &mut TypeTable,
    style: Style,
    view: &View<'_, '_>,
    context: &Context<'_>,
    stand: &Stand<'_>,
    at: u32,
    list: &DerivationList,
    premises: &[Premise<'_>],
    p: &Phrase,
) -> Result<(), OutOfMemory>
    requires context { AreIn table.old (numbers context.now) }
    requires all { length premises.now ≡ count (plain_derivations list.now) }
    requires room { at + all_nodes (plain_derivations list.now) < 2 ^ 32 }
    ensures text { OnOk result (text.new.items ≡ text.old.items ++ each_lines (look_in style view.now) stand.now.seek stand.now.lead.now stand.now.more
        [] (each_shown (known_in view.now) (plain_derivations list.now) at (all_shown table.old (numbers context.now)) (scope_in view.now) (reads p.now)
        (map premise_shown premises.now) [])) }
    ensures extends { OnOk result (Extends table.old table.new) }
{
    let items = list.as_slice();
    let parting = parting_of(view.alloc, style, view, stand.seek, stand.lead)?;
    let mut before: &[u8] = b"";
    let mut done = Vec::new(view.alloc);
    let mut next = at;
    for i in 0..items.len() {
        put(text, before)?;
        let item = &items[i];
        let premise = &premises[i];
        let number = put_premise(
            text, table, style, view, context, stand, next, item, premise, &done, p,
        )?;
        done.push(number)?;
        next = next.saturating_add(nodes_of(item));
        before = &parting;
    }
    Ok(())
}

// Those of the derivation for a premise of the phrase, behind premises that conclude these types; and what it concludes.
#[cycle(walk)]
fn put_premise(
    text: &mut Vec<u8>,
    table: &mut TypeTable,
    style: Style,
    view: &View<'_, '_>,
    context: &Context<'_>,
    stand: &Stand<'_>,
    at: u32,
    d: &Derivation,
    premise: &Premise<'_>,
    done: &[usize],
    p: &Phrase,
) -> Result<usize, OutOfMemory>
    requires context { AreIn table.old (numbers context.now) }
    requires done { AreIn table.old done.now }
    requires room { at + nodes (plain_derivation d.now) < 2 ^ 32 }
    ensures text { OnOk result (text.new.items ≡ text.old.items ++ lines (look_in style view.now) stand.now.seek stand.now.lead.now stand.now.more
        [] (at_premise (known_in view.now) (all_shown table.old (numbers context.now)) (scope_in view.now) (reads p.now) (all_shown table.old done.now)
        (premise_shown premise.now) (shown_of (known_in view.now) (plain_derivation d.now) at))) }
    ensures within { IfOk result (λ k. k < total table.new) }
    ensures stands { IfOk result (λ k. shown table.new k ≡ concluded_type (judged (plain_derivation d.now) at
        (under_of (plain_binder premise.now.binds) (all_shown table.old done.now) (all_shown table.old (numbers context.now)))
        (reads premise.now.part.now))) }
    ensures extends { OnOk result (Extends table.old table.new) }
{
    let under = under(view.alloc, table, &*context, premise.binds, done)?;
    let conclusion = concluded(view.alloc, table, at, d, &under, premise.part)?;
    put_beneath(
        text, table, style, view, &under, stand, at, d, premise, conclusion, p,
    )?;
    Ok(conclusion)
}

// Those of the derivation for a premise of the phrase, where these types are in scope.
#[cycle(walk)]
fn put_beneath(
    text: &mut Vec<u8>,
    table: &mut TypeTable,
    style: Style,
    view: &View<'_, '_>,
    context: &Context<'_>,
    stand: &Stand<'_>,
    at: u32,
    d: &Derivation,
    premise: &Premise<'_>,
    conclusion: usize,
    p: &Phrase,
) -> Result<(), OutOfMemory>
    requires context { AreIn table.old (numbers context.now) }
    requires room { at + nodes (plain_derivation d.now) < 2 ^ 32 }
    requires within { conclusion < total table.old }
    requires stands { shown table.old conclusion ≡ concluded_type (judged (plain_derivation d.now) at
        (all_shown table.old (numbers context.now)) (reads premise.now.part.now)) }
    ensures text { OnOk result (text.new.items ≡ text.old.items ++ lines (look_in style view.now) stand.now.seek stand.now.lead.now stand.now.more
        [] (beneath (known_in view.now) (all_shown table.old (numbers context.now)) (scope_in view.now) (reads p.now)
        (premise_shown premise.now) (shown_of (known_in view.now) (plain_derivation d.now) at))) }
    ensures extends { OnOk result (Extends table.old table.new) }
{
    if is_binding(premise.binds) {
        put_bound(
            text, table, style, view, context, stand, at, d, premise, conclusion, p,
        )
    } else {
        let node = Node {
            at,
            derivation: d,
            phrase: premise.part,
            conclusion,
            added: b"",
        };
        put_node(text, table, style, view, context, stand, b"", &node)
    }
}

// Those of one under the phrase's binder.
#[cycle(walk)]
fn put_bound(
    text: &mut Vec<u8>,
    table: &mut TypeTable,
    style: Style,
    view: &View<'_, '_>,
    context: &Context<'_>,
    stand: &Stand<'_>,
    at: u32,
    d: &Derivation,
    premise: &Premise<'_>,
    conclusion: usize,
    p: &Phrase,
) -> Result<(), OutOfMemory>
    requires context { AreIn table.old (numbers context.now) }
    requires room { at + nodes (plain_derivation d.now) < 2 ^ 32 }
    requires within { conclusion < total table.old }
    requires stands { shown table.old conclusion ≡ concluded_type (judged (plain_derivation d.now) at
        (all_shown table.old (numbers context.now)) (reads premise.now.part.now)) }
    requires bound { is_bound (plain_binder premise.now.binds) ≡ true }
    ensures text { OnOk result (text.new.items ≡ text.old.items ++ lines (look_in style view.now) stand.now.seek stand.now.lead.now stand.now.more
        [] (beneath (known_in view.now) (all_shown table.old (numbers context.now)) (scope_in view.now) (reads p.now)
        (premise_shown premise.now) (shown_of (known_in view.now) (plain_derivation d.now) at))) }
    ensures extends { OnOk result (Extends table.old table.new) }
{
    let entry = bound(&*view, p)?;
    let added = added_of(table, view, context, &entry)?;
    let scope = ScopeTexts::Inside(&entry, view.scope);
    let inside = in_scope(&*view, &scope);
    let node = Node {
        at,
        derivation: d,
        phrase: premise.part,
        conclusion,
        added: &added,
    };
    put_node(text, table, style, &inside, context, stand, b"", &node)
}

// Whether a premise stands under a binder.
fn is_binding(binds: Binds<'_>) -> bool
    ensures { result ≡ is_bound (plain_binder binds.entry) }
{
    match binds {
        Binds::Nothing => false,
        Binds::First | Binds::Given(_) => true,
    }
}

// The variable with the innermost type in scope.
fn added_of(
    table: &mut TypeTable,
    view: &View<'_, '_>,
    context: &Context<'_>,
    entry: &EntryText,
) -> Result<Vec<u8>, OutOfMemory>
    requires { AreIn table.old (numbers context.now) }
    ensures text { IfOk result (λ made. made.items
        ≡ cut 60 (variable_text (known_in view.now) (entry_read entry.now) (type_at (all_shown table.old (numbers context.now)) 0))) }
    ensures extends { OnOk result (Extends table.old table.new) }
{
    let mut whole = Vec::new(view.alloc);
    let mut added = Vec::new(view.alloc);
    let number = innermost(table, context)?;
    put_variable(&mut whole, table, view, Some(entry), number)?;
    put_cut(&mut added, 60, &whole)?;
    Ok(added)
}
