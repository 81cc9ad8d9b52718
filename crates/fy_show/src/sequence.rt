//! Phrases that stand for what `seq`, strings and sequences mean.

ghost use Rattle.std.specs.Prelude.{◌≡◌, ◌&&◌, option_map, IfOk};
ghost use Rattle.fy_types.specs.Reading.{plain_types};
ghost use Rattle.fy_phrase.specs.Reads.{reads, reads_parts};
ghost use Rattle.fy_phrase.specs.Sizes.{greatest_u64};
ghost use Rattle.fy_show.specs.Texts.{
  are_halves,
  is_empty_string as is_empty_string_of,
  is_halved as is_halved_of,
  is_index as is_index_of,
  is_int_alone as is_int_alone_of,
  is_length as is_length_of,
  is_minus_one as is_minus_one_of,
  is_no_letter as is_no_letter_of,
  is_sequence as is_sequence_of,
  item_count as item_count_of,
  letters as letters_of,
  parts_at_index as parts_at_index_of,
  parts_by_index as parts_by_index_of,
  sequence_length as sequence_length_of,
};

use fy_base::{Datum, OutOfMemory, UnOp};
use fy_phrase::{Parts, Phrase};
use fy_types::{Atom, Ty, TyList};
use std::alloc::Global;

/// Whether a merge of these is what `seq(..)` or a string means.
pub(crate) fn is_sequence(p: &Phrase, q: &Phrase) -> bool
    ensures { result ≡ is_sequence_of (reads p.now) (reads q.now) }
{
    match q {
        Phrase::Field(name, number, _) => *name == 0 && is_length(number, parts_by_index(p)),
        _ => false,
    }
}

fn is_length(number: &Phrase, parts: Option<&Parts>) -> bool
    ensures { result ≡ is_length_of (reads number.now) (option_map (λ l. reads_parts l.now) parts.entry) }
{
    match number {
        Phrase::Lit(Datum::Int(z), _) => match parts {
            Some(parts) => match usize::try_from(*z) {
                Ok(length) => length == sequence_length(parts),
                Err(_) => false,
            },
            None => false,
        },
        _ => false,
    }
}

// The number of parts, and 0 for the empty string.
#[tactic(auto, using(crate::proofs::SequenceLemmas::lengths))]
fn sequence_length(parts: &Parts) -> usize
    ensures { result ≡ sequence_length_of (reads_parts parts.now) }
{
    if is_empty_string(parts) {
        0
    } else {
        parts.len()
    }
}

// The parts of an abstraction that picks them by its index.
fn parts_by_index(p: &Phrase) -> Option<&Parts>
    ensures { option_map (λ l. reads_parts l.now) result ≡ parts_by_index_of (reads p.now) }
{
    match p {
        Phrase::Lam(_, types, body, _) => {
            if is_int_alone(types) {
                parts_at_index(body)
            } else {
                None
            }
        }
        _ => None,
    }
}

#[tactic(auto, using(crate::proofs::SequenceLemmas::lengths))]
fn is_int_alone(types: &TyList) -> bool
    ensures { result ≡ is_int_alone_of (plain_types types.now) }
{
    matches!(types.as_slice(), [Ty::Atom(Atom::Int)])
}

fn parts_at_index(p: &Phrase) -> Option<&Parts>
    ensures { option_map (λ l. reads_parts l.now) result ≡ parts_at_index_of (reads p.now) }
{
    match p {
        Phrase::Case(e, parts, _) => { if is_index(e) { Some(parts) } else { None } }
        _ => None,
    }
}

fn is_index(p: &Phrase) -> bool
    ensures { result ≡ is_index_of (reads p.now) }
{
    match p {
        Phrase::Var(k, _) => *k == 0,
        _ => false,
    }
}

/// Whether the parts are the one of the empty string.
#[tactic(auto, using(crate::proofs::SequenceLemmas::lengths))]
pub(crate) fn is_empty_string(parts: &Parts) -> bool
    ensures { result ≡ is_empty_string_of (reads_parts parts.now) }
{
    match parts.as_slice() {
        [only] => is_no_letter(only),
        _ => false,
    }
}

fn is_no_letter(p: &Phrase) -> bool
    ensures { result ≡ is_no_letter_of (reads p.now) }
{
    match p {
        Phrase::Unary(UnOp::Chr, p, _) => is_minus_one(p),
        _ => false,
    }
}

fn is_minus_one(p: &Phrase) -> bool
    ensures { result ≡ is_minus_one_of (reads p.now) }
{
    match p {
        Phrase::Lit(Datum::Int(z), _) => *z == -1,
        _ => false,
    }
}

/// The characters that the parts are, if all are.
pub(crate) fn letters(alloc: Global, parts: &Parts) -> Result<Option<Vec<u8>>, OutOfMemory>
    ensures { IfOk result (λ o. option_map (λ v. v.items) o ≡ letters_of (reads_parts parts.now)) }
{
    let mut bytes = Vec::new(alloc);
    for part in parts.as_slice() {
        match part {
            Phrase::Lit(Datum::Char(c), _) => bytes.push(*c)?,
            _ => return Ok(None),
        }
    }
    Ok(Some(bytes))
}

/// Whether a sequence of these is the one into whose halves its items are parted.
#[cycle(halved)]
pub fn is_halved_pair(p: &Phrase, q: &Phrase) -> bool
    ensures { result ≡ (are_halves (reads p.now) (reads q.now) && (is_halved_of (reads p.now) && is_halved_of (reads q.now))) }
{
    let first = item_count(p);
    let all = first.saturating_add(item_count(q));
    first == all / 2 && is_halved(p) && is_halved(q)
}

#[cycle(halved)]
fn is_halved(p: &Phrase) -> bool
    ensures { result ≡ is_halved_of (reads p.now) }
{
    match p {
        Phrase::Seq(p, q, _) => is_halved_pair(p, q),
        _ => true,
    }
}

// The number of items, or 18446744073709551615 where it is greater.
fn item_count(p: &Phrase) -> u64
    ensures { result ≡ greatest_u64 (item_count_of (reads p.now)) }
{
    match p {
        Phrase::Seq(p, q, _) => item_count(p).saturating_add(item_count(q)),
        _ => 1,
    }
}
