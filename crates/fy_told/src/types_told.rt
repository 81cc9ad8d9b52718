//! What the premises of a rule conclude, and what is asked of the first that concludes something else.

ghost use Rattle.std.specs.Prelude.{ℕ, ◌≡◌, ◌+◌, ◌<◌, ◌^◌, [], ◌++◌, None, codes, decimal, length, map, take, IfOk, OnOk};
ghost use Rattle.fy_phrase.specs.Reads.{reads};
ghost use Rattle.fy_derive.specs.Derivations.{all_nodes, nodes};
ghost use Rattle.fy_derive.specs.Reading.{derivations_from, plain_derivation};
ghost use Rattle.fy_derive.specs.Shown.{all_shown, shown, total, AreIn, Extends};
ghost use Rattle.fy_derive.specs.Tables.{type_at};
ghost use Rattle.fy_reasons.specs.Expected.{advised as advised_of, first_wrong as first_wrong_of};
ghost use Rattle.fy_reasons.specs.Reasons.{other_types, stop_at};
ghost use Rattle.fy_reasons.specs.Stopping.{asking_read, IsAskingIn};
ghost use Rattle.fy_show.specs.Reading.{known_in};
ghost use Rattle.fy_told.specs.ReasonTexts.{
  advice_text,
  asked_line,
  asked_text,
  form_text,
  number_at,
  or_text,
  other_types_lines,
  premise_lines,
  premise_numbers,
  premises_of,
  rule_text,
  told,
  type_told,
  wrong_lines,
};

use crate::form_words::{form_word, put_rule, separator};
use crate::reason::{put_not_below, put_type};
use fy_base::OutOfMemory;
use fy_derive::{Derivation, TypeNode, TypeTable, nodes_of};
use fy_phrase::Phrase;
use fy_reasons::{Asking, advised, first_wrong};
use fy_short::{put, put_name, put_number};
use fy_show::View;

const MOST_PREMISES: usize = 6;

/// Puts what the premises of the node with the number conclude, and what the first that isn't asked has to conclude.
pub(crate) fn put_other_types(
    text: &mut Vec<u8>,
    table: &mut TypeTable,
    view: &View<'_, '_>,
    number: u32,
    node: &Derivation,
    p: &Phrase,
    done: &[usize],
) -> Result<(), OutOfMemory>
    requires done { AreIn table.old done.now }
    requires room { number + nodes (plain_derivation node.now) < 2 ^ 32 }
    ensures { OnOk result (text.new.items ≡ text.old.items ++ other_types_lines (known_in view.now)
        (stop_at number (plain_derivation node.now) [] (reads p.now) (other_types [])) (all_shown table.old done.now)) }
{
    let items = premises_in(node);
    let first = number.saturating_add(1);
    put_rule_line(text, p)?;
    put_premises(text, table, view, first, items, done)?;
    put_first_wrong(text, table, view, first, items, p, done)
}

// What the first premise has to conclude that concludes something else. The first one's node has that number.
#[tactic(auto, using(crate::proofs::AdviceLemmas::advice_rules))]
fn put_first_wrong(
    text: &mut Vec<u8>,
    table: &mut TypeTable,
    view: &View<'_, '_>,
    first: u32,
    items: &[Derivation],
    p: &Phrase,
    done: &[usize],
) -> Result<(), OutOfMemory>
    requires done { AreIn table.old done.now }
    requires room { first + all_nodes (derivations_from (map plain_derivation items.now)) < 2 ^ 32 }
    ensures { OnOk result (text.new.items ≡ text.old.items ++ wrong_lines (known_in view.now)
        (premise_numbers first (derivations_from (map plain_derivation items.now))) (all_shown table.old done.now)
        (first_wrong_of (reads p.now) (all_shown table.old done.now) 0 (all_shown table.old done.now))) }
{
    match first_wrong(view.alloc, table, p, done)? {
        None => Ok(()),
        Some((index, asking)) => {
            let wrong = node_number(first, items, index);
            put_wrong(text, table, view, wrong, done, index, &asking)
        }
    }
}

fn put_rule_line(text: &mut Vec<u8>, p: &Phrase) -> Result<(), OutOfMemory>
    ensures { OnOk result (text.new.items ≡ text.old.items
        ++ told (codes "The rule of " ++ form_text (reads p.now) ++ codes ": " ++ rule_text (reads p.now) ++ codes ".")) }
{
    put(text, b"  The rule of ")?;
    put(text, form_word(p))?;
    put(text, b": ")?;
    put_rule(text, p)?;
    put(text, b".\n")
}

// The derivations of a node's premises.
fn premises_in(node: &Derivation) -> &[Derivation]
    ensures premises { derivations_from (map plain_derivation result.now) ≡ premises_of (plain_derivation node.now) }
    ensures fewer { all_nodes (derivations_from (map plain_derivation result.now)) < nodes (plain_derivation node.now) }
{
    match node {
        Derivation::Rule(list) => list.as_slice(),
        Derivation::Ns
        | Derivation::Sub(..)
        | Derivation::Meet(_)
        | Derivation::Alt(..)
        | Derivation::Left(_)
        | Derivation::Right(_) => &[],
    }
}

// Of at most six premises what they conclude. The first one's node has that number.
fn put_premises(
    text: &mut Vec<u8>,
    table: &TypeTable,
    view: &View<'_, '_>,
    first: u32,
    items: &[Derivation],
    done: &[usize],
) -> Result<(), OutOfMemory>
    requires done { AreIn table.now done.now }
    requires room { first + all_nodes (derivations_from (map plain_derivation items.now)) < 2 ^ 32 }
    ensures { OnOk result (text.new.items ≡ text.old.items ++ premise_lines (known_in view.now) 1
        (take 6 (premise_numbers first (derivations_from (map plain_derivation items.now)))) (all_shown table.now done.now)) }
{
    let mut number = first;
    for i in 0..items.len().min(done.len()).min(MOST_PREMISES) {
        put_premise(text, table, view, i, number, done[i])?;
        number = number.saturating_add(nodes_of(&items[i]));
    }
    Ok(())
}

fn put_premise(
    text: &mut Vec<u8>,
    table: &TypeTable,
    view: &View<'_, '_>,
    index: usize,
    node: u32,
    number: usize,
) -> Result<(), OutOfMemory>
    requires index { index < 6 }
    requires number { number < total table.now }
    ensures { OnOk result (text.new.items ≡ text.old.items ++ told (codes "premise " ++ decimal (index + 1) ++ codes " (node " ++ decimal node
        ++ codes ") concludes " ++ type_told (known_in view.now) (shown table.now number))) }
{
    put(text, b"  premise ")?;
    put_number(text, index + 1)?;
    put(text, b" (node ")?;
    put_number(text, node as usize)?;
    put(text, b") concludes ")?;
    put_type(text, table, view, number)?;
    put(text, b"\n")
}

// The number of the node of the premise with the index.
fn node_number(first: u32, items: &[Derivation], index: usize) -> usize
    requires { first + all_nodes (derivations_from (map plain_derivation items.now)) < 2 ^ 32 }
    ensures { result ≡ number_at (premise_numbers first (derivations_from (map plain_derivation items.now))) index }
{
    let mut number = first;
    for i in 0..items.len() {
        if i == index {
            return number as usize;
        }
        number = number.saturating_add(nodes_of(&items[i]));
    }
    0
}

// What the premise with the index has to conclude, and what makes it so. Its node has that number.
#[tactic(auto, using(crate::proofs::AdviceLemmas::advice_rules))]
fn put_wrong(
    text: &mut Vec<u8>,
    table: &mut TypeTable,
    view: &View<'_, '_>,
    node: usize,
    done: &[usize],
    index: usize,
    asking: &Asking,
) -> Result<(), OutOfMemory>
    requires done { AreIn table.old done.now }
    requires index { index < length done.now }
    requires asking { IsAskingIn table.old asking.now }
    ensures { OnOk result (text.new.items ≡ text.old.items
        ++ (asked_line (known_in view.now) (index + 1) (asking_read table.old asking.now)
        ++ advice_text (known_in view.now) node (asking_read table.old asking.now) (type_at (all_shown table.old done.now) index)
        (advised_of (asking_read table.old asking.now) (type_at (all_shown table.old done.now) index) (type_at (all_shown table.old done.now) (index + 1))))) }
{
    put_asked_line(text, table, view, index + 1, asking)?;
    let behind = type_behind(table, done, index + 1)?;
    put_advice(text, table, view, node, asking, done[index], behind)
}

fn put_asked_line(
    text: &mut Vec<u8>,
    table: &TypeTable,
    view: &View<'_, '_>,
    premise: usize,
    asking: &Asking,
) -> Result<(), OutOfMemory>
    requires { IsAskingIn table.now asking.now }
    ensures { OnOk result (text.new.items ≡ text.old.items ++ asked_line (known_in view.now) premise (asking_read table.now asking.now)) }
{
    put(text, b"  Premise ")?;
    put_number(text, premise)?;
    put(text, b" has to conclude ")?;
    put_asking(text, table, view, asking)?;
    put(text, b", to the letter.\n")
}

fn put_asking(
    text: &mut Vec<u8>,
    table: &TypeTable,
    view: &View<'_, '_>,
    asking: &Asking,
) -> Result<(), OutOfMemory>
    requires { IsAskingIn table.now asking.now }
    ensures { OnOk result (text.new.items ≡ text.old.items ++ asked_text (known_in view.now) (asking_read table.now asking.now)) }
{
    match asking {
        Asking::Anything => Ok(()),
        Asking::AnArrow => put(text, b"an arrow"),
        Asking::AField(name) => {
            put(text, b"the field ")?;
            put_name(text, view.known.names, *name)
        }
        Asking::OneOf(all) => put_one_of(text, table, view, all),
    }
}

fn put_one_of(
    text: &mut Vec<u8>,
    table: &TypeTable,
    view: &View<'_, '_>,
    all: &[usize],
) -> Result<(), OutOfMemory>
    requires { AreIn table.now all.now }
    ensures { OnOk result (text.new.items ≡ text.old.items ++ or_text (map (type_told (known_in view.now)) (all_shown table.now all.now))) }
{
    for i in 0..all.len() {
        put_type(text, table, view, all[i])?;
        put(text, separator(all.len() - i - 1))?;
    }
    Ok(())
}

// The type with the index, and `ns` past the last one.
#[tactic(auto, using(crate::proofs::AdviceLemmas::advice_rules))]
fn type_behind(table: &mut TypeTable, done: &[usize], index: usize) -> Result<usize, OutOfMemory>
    requires { AreIn table.old done.now }
    ensures within { IfOk result (λ k. k < total table.new) }
    ensures stands { IfOk result (λ k. shown table.new k ≡ type_at (all_shown table.old done.now) index) }
    ensures extends { OnOk result (Extends table.old table.new) }
{
    if index < done.len() {
        return Ok(done[index]);
    }
    let number = table.number(TypeNode::Ns)?;
    Ok(number)
}

// The subsumption that makes the premise so, or why the one type isn't above.
#[tactic(auto, using(crate::proofs::AdviceLemmas::advice_rules))]
fn put_advice(
    text: &mut Vec<u8>,
    table: &mut TypeTable,
    view: &View<'_, '_>,
    node: usize,
    asking: &Asking,
    number: usize,
    behind: usize,
) -> Result<(), OutOfMemory>
    requires asking { IsAskingIn table.old asking.now }
    requires number { number < total table.old }
    requires behind { behind < total table.old }
    ensures { OnOk result (text.new.items ≡ text.old.items ++ advice_text (known_in view.now) node (asking_read table.old asking.now)
        (shown table.old number) (advised_of (asking_read table.old asking.now) (shown table.old number) (shown table.old behind))) }
{
    match advised(view.alloc, table, asking, number, behind)? {
        Some(above) => put_advised(text, table, view, node, above),
        None => put_unadvised(text, table, view, asking, number),
    }
}

fn put_advised(
    text: &mut Vec<u8>,
    table: &TypeTable,
    view: &View<'_, '_>,
    node: usize,
    above: usize,
) -> Result<(), OutOfMemory>
    requires { above < total table.now }
    ensures { OnOk result (text.new.items ≡ text.old.items
        ++ told (codes "`sub [" ++ type_told (known_in view.now) (shown table.now above) ++ codes "]` above node " ++ decimal node ++ codes " makes it so.")) }
{
    put(text, b"  `sub [")?;
    put_type(text, table, view, above)?;
    put(text, b"]` above node ")?;
    put_number(text, node)?;
    put(text, b" makes it so.\n")
}

// Why the one type that is asked isn't above.
#[tactic(auto, using(crate::proofs::AdviceLemmas::advice_rules))]
fn put_unadvised(
    text: &mut Vec<u8>,
    table: &mut TypeTable,
    view: &View<'_, '_>,
    asking: &Asking,
    number: usize,
) -> Result<(), OutOfMemory>
    requires asking { IsAskingIn table.old asking.now }
    requires number { number < total table.old }
    ensures { (n : ℕ) → OnOk result (text.new.items ≡ text.old.items
        ++ advice_text (known_in view.now) n (asking_read table.old asking.now) (shown table.old number) None) }
{
    match asking {
        Asking::OneOf(all) => {
            let all = all.as_slice();
            if all.len() == 1 {
                put_not_below(text, table, view, number, all[0])
            } else {
                Ok(())
            }
        }
        Asking::Anything | Asking::AnArrow | Asking::AField(_) => Ok(()),
    }
}
