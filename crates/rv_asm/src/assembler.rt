//! From items to words.

ghost use Rattle.std.specs.Prelude.{◌≡◌, length, All, OnOk, IfOk, IfErr};
ghost use Rattle.std.specs.List.{AllZip};
ghost use Rattle.rv_insn.specs.Encoding.{IsWordOf};
ghost use Rattle.rv_asm.specs.Items.{AreItems};
ghost use Rattle.rv_asm.specs.Assembly.{IsAssembly, IsRefusal, joined};
ghost use Rattle.rv_asm.specs.Planning.{IsPlan, IsSmall, forms_of, labelled};

use crate::error::AsmError;
use crate::forms::{push_item, size};
use crate::items::{Assembled, Item, LabelAt, LabelList};
use crate::marks::{far_choices, marked_labels};
use crate::planning::{Choice, Plan, place_at, planned};
use fy_base::{OutOfMemory, WordList};
use std::alloc::Global;

// The words of items by a plan.
fn planned_words(alloc: Global, items: &[Item], plan: &Plan) -> Result<Vec<u32>, OutOfMemory>
    requires items { AreItems items.now }
    requires plan { IsPlan items.now plan.now }
    ensures small { OnOk result (All IsSmall items.now) }
    ensures words { IfOk result (λ words. AllZip IsWordOf (joined (forms_of plan.now.places.items 0 items.now plan.now.choices.items)) words.items) }
{
    let mut words = Vec::new(alloc);
    let mut here = 0;
    for (k, item) in items.iter().enumerate() {
        let Choice { near, target } = plan.choices[k];
        push_item(&mut words, item, near, here, place_at(&plan.places, target))?;
        here += size(item, near);
    }
    Ok(words)
}

// Labels with their places.
fn placed_labels(alloc: Global, labels: &[u32], places: &[u32]) -> Result<LabelList, OutOfMemory>
    requires { length places.now ≡ length labels.now }
    ensures { IfOk result (λ list. list ≡ labelled labels.now places.now) }
{
    let mut list = LabelList::new(alloc);
    for (k, label) in labels.iter().enumerate() {
        list.push(LabelAt {
            label: *label,
            word: places[k],
        })?;
    }
    Ok(list)
}

/// The words of items in order, and each marked label with the number of the word that it stands
/// before, in order of the marks. Each item does what it says however far its label is: a branch, a
/// jump or a call is one word, or goes through x31, which nothing else changes, in three words for a
/// branch and two for the others. Which of the two it is, no clause tells; `FarTo` is never near.
///
/// There are at most 4,194,304 items, plain instructions are encodable, and other registers are
/// below 32.
///
/// # Errors
///
/// `DoubleLabel` exactly where a label is marked twice, with that of the first second mark; else
/// `UnknownLabel` exactly where an item names a label that none marks, with that of the first such
/// item; and `OutOfMemory`.
pub fn assemble(alloc: Global, items: &[Item]) -> Result<Assembled, AsmError>
    requires { AreItems items.now }
    ensures ok { IfOk result (λ assembled. IsAssembly items.now assembled) }
    ensures err { IfErr result (λ e. IsRefusal items.now e) }
{
    let labels = marked_labels(alloc, items)?;
    let far = far_choices(alloc, items, &labels)?;
    let plan = planned(alloc, items, far)?;
    let words = planned_words(alloc, items, &plan)?;
    let labels = placed_labels(alloc, labels.as_slice(), &plan.places)?;
    Ok(Assembled {
        words: WordList::from_vec(words),
        labels,
    })
}
