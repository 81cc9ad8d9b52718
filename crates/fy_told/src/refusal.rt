//! The lines that tell why the derivation of a program is refused.

ghost use Rattle.std.specs.Prelude.{◌≡◌, ◌<◌, ◌≤◌, ◌+◌, ◌^◌, ◌++◌, if◌then◌else◌, IfOk, OnOk};
ghost use Rattle.fy_phrase.specs.Reads.{reads};
ghost use Rattle.fy_derive.specs.Derivations.{all_nodes, count, most_nesting, most_nodes, nesting, nodes};
ghost use Rattle.fy_derive.specs.Placed.{body_of as body_of_tree, left_of as left_of_tree, right_of as right_of_tree};
ghost use Rattle.fy_derive.specs.Reading.{plain_derivation, plain_derivations};
ghost use Rattle.fy_reasons.specs.Reasons.{reason_of};
ghost use Rattle.fy_reasons.specs.Stopping.{stop_read, IsStopIn};
ghost use Rattle.fy_show.specs.Reading.{known_in, known_read, scope_in};
ghost use Rattle.fy_told.specs.ReasonTexts.{names_at, names_in, premises_at, stop_lines, told_of, whole_premises};

use crate::premise::premise_at;
use crate::reason::put_stop;
use fy_base::{OutOfMemory, Text};
use fy_derive::{Derivation, DerivationList, TypeTable, nodes_of};
use fy_phrase::Phrase;
use fy_reasons::{Stopped, refusal_of};
use fy_short::put;
use fy_show::{KnownNames, Manner, ScopeTexts, View, bound, in_scope};
use std::alloc::Global;

/// `accepted`, or the lines that tell at which node judging of the derivation stops for the program, and why. It is to have
/// at most 262,144 nodes and to nest at most 2,048.
pub fn print_refusal(
    alloc: Global,
    known: &KnownNames<'_>,
    p: &Phrase,
    d: &Derivation,
) -> Result<Text, OutOfMemory>
    requires few { nodes (plain_derivation d.now) ≤ most_nodes }
    requires shallow { nesting (plain_derivation d.now) ≤ most_nesting }
    ensures { IfOk result (λ text. text ≡ told_of (known_read known.now) (plain_derivation d.now) (reads p.now)
        (reason_of (plain_derivation d.now) (reads p.now))) }
{
    let mut text = Vec::new(alloc);
    let mut table = TypeTable::new(alloc);
    match refusal_of(alloc, &mut table, p, d)? {
        None => put(&mut text, b"accepted\n")?,
        Some(stop) => {
            let view = View {
                alloc,
                known,
                scope: &ScopeTexts::Empty,
                manner: Manner::Whole,
            };
            put_at(&mut text, &mut table, &view, &stop, 0, d, p)?;
        }
    }
    Ok(Text::from_vec(text))
}

// The lines of the stop, whose node is in the derivation. The derivation's first node has the number `at`.
#[tactic(auto, using(crate::proofs::AtLemmas::at_rules))]
#[cycle(refusal)]
fn put_at(
    text: &mut Vec<u8>,
    table: &mut TypeTable,
    view: &View<'_, '_>,
    stop: &Stopped<'_>,
    at: u32,
    d: &Derivation,
    p: &Phrase,
) -> Result<(), OutOfMemory>
    requires stop { IsStopIn table.old stop.now }
    requires fits { stop.now.number + nodes (plain_derivation stop.now.node.now) < 2 ^ 32 }
    requires room { at + nodes (plain_derivation d.now) < 2 ^ 32 }
    ensures { OnOk result (text.new.items ≡ text.old.items ++ stop_lines (known_in view.now)
        (names_at (known_in view.now) stop.now.number (plain_derivation d.now) at (scope_in view.now) (reads p.now))
        (stop_read table.old stop.now)) }
{
    if at == stop.number {
        return put_stop(text, table, view, stop);
    }
    let next = at.saturating_add(1);
    match d {
        Derivation::Ns => put_stop(text, table, view, stop),
        Derivation::Sub(_, inner) => put_at(text, table, view, stop, next, inner, p),
        Derivation::Meet(list) => put_in(text, table, view, stop, next, list, p, true),
        Derivation::Rule(list) => put_in(text, table, view, stop, next, list, p, false),
        Derivation::Alt(_, inner) => {
            let entry = bound(view, p)?;
            let scope = ScopeTexts::Inside(&entry, view.scope);
            let inside = in_scope(&*view, &scope);
            put_at(text, table, &inside, stop, next, inner, body_of(p))
        }
        Derivation::Left(inner) => put_at(text, table, view, stop, next, inner, left_of(p)),
        Derivation::Right(inner) => put_at(text, table, view, stop, next, inner, right_of(p)),
    }
}

// The same of the derivation in the list that has the node. Each is about the whole phrase, or about its premise's part.
#[cycle(refusal)]
fn put_in(
    text: &mut Vec<u8>,
    table: &mut TypeTable,
    view: &View<'_, '_>,
    stop: &Stopped<'_>,
    at: u32,
    list: &DerivationList,
    p: &Phrase,
    is_whole: bool,
) -> Result<(), OutOfMemory>
    requires stop { IsStopIn table.old stop.now }
    requires fits { stop.now.number + nodes (plain_derivation stop.now.node.now) < 2 ^ 32 }
    requires room { at + all_nodes (plain_derivations list.now) < 2 ^ 32 }
    ensures { OnOk result (text.new.items ≡ text.old.items ++ stop_lines (known_in view.now)
        (names_in (known_in view.now) stop.now.number (plain_derivations list.now) at (scope_in view.now) (reads p.now)
        (if is_whole then whole_premises (count (plain_derivations list.now)) (reads p.now) else premises_at (reads p.now)))
        (stop_read table.old stop.now)) }
{
    let items = list.as_slice();
    let mut next = at;
    for i in 0..items.len() {
        let behind = next.saturating_add(nodes_of(&items[i]));
        if stop.number < behind {
            if is_whole {
                return put_at(text, table, view, stop, next, &items[i], p);
            }
            let Some(premise) = premise_at(p, i) else {
                return put_stop(text, table, view, stop);
            };
            if !premise.is_inside {
                return put_at(text, table, view, stop, next, &items[i], premise.part);
            }
            let entry = bound(view, p)?;
            let scope = ScopeTexts::Inside(&entry, view.scope);
            let inside = in_scope(&*view, &scope);
            return put_at(text, table, &inside, stop, next, &items[i], premise.part);
        }
        next = behind;
    }
    put_stop(text, table, view, stop)
}

fn body_of(p: &Phrase) -> &Phrase
    ensures { reads result.now ≡ body_of_tree (reads p.now) }
{
    match p {
        Phrase::Lam(_, _, body, _) => body,
        _ => p,
    }
}

fn left_of(p: &Phrase) -> &Phrase
    ensures { reads result.now ≡ left_of_tree (reads p.now) }
{
    match p {
        Phrase::Merge(left, _, _) => left,
        _ => p,
    }
}

/// The right operand of a merge.
pub(crate) fn right_of(p: &Phrase) -> &Phrase
    ensures { reads result.now ≡ right_of_tree (reads p.now) }
{
    match p {
        Phrase::Merge(_, right, _) => right,
        _ => p,
    }
}
