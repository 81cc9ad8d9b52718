//! The labels that items mark and name.

ghost use Rattle.std.specs.Prelude.{◌≡◌, ◌≤◌, nat_eq, length, position, None, IfOk, OnOk, IfErr};
ghost use Rattle.rv_asm.specs.Items.{AreItems, AreDistinct, AreKnown, marks_of, named_by};
ghost use Rattle.rv_asm.specs.Assembly.{IsRefusal};
ghost use Rattle.rv_asm.specs.Planning.{AreAimed, AreFar, IsTargetOf, IsUnknownIn, targets_of};

use crate::error::AsmError;
use crate::items::Item;
use crate::planning::Choice;
use indexmap::IndexSet;
use std::alloc::Global;

/// The labels that the items mark, in order of their marks.
///
/// # Errors
///
/// `DoubleLabel` exactly where a label is marked twice, with that of the first second mark, and
/// `OutOfMemory`.
pub fn marked_labels(alloc: Global, items: &[Item]) -> Result<IndexSet<u32>, AsmError>
    ensures marks { IfOk result (λ labels. labels.keys ≡ marks_of items.now) }
    ensures distinct { OnOk result (AreDistinct items.now) }
    ensures err { IfErr result (λ e. IsRefusal items.now e) }
{
    let mut labels = IndexSet::new(alloc);
    for item in items {
        if let Item::Mark(label) = *item {
            if !labels.insert(label)? {
                return Err(AsmError::DoubleLabel(label));
            }
        }
    }
    Ok(labels)
}

// The label that an item names.
fn named(item: &Item) -> Option<u32>
    ensures { result ≡ named_by item.now }
{
    match *item {
        Item::BranchTo { label, .. }
        | Item::JumpTo { label }
        | Item::FarTo { label }
        | Item::CallTo { label, .. }
        | Item::AddressOf { label, .. } => Some(label),
        Item::Mark(_) | Item::Plain(_) | Item::Constant { .. } => None,
    }
}

// The number of the label that an item names, 0 where it names none.
fn target_of(item: &Item, labels: &IndexSet<u32>) -> Result<u32, AsmError>
    requires { length labels.now.keys ≤ 4194304 }
    ensures ok { IfOk result (λ target. IsTargetOf labels.now.keys item.now target) }
    ensures err { IfErr result (λ e. IsUnknownIn labels.now.keys item.now e) }
{
    let Some(label) = named(item) else {
        return Ok(0);
    };
    match labels.get_index_of(&label) {
        Some(number) => Ok(number as u32),
        None => Err(AsmError::UnknownLabel(label)),
    }
}

/// For each item the number of its label, with every item far.
///
/// # Errors
///
/// `UnknownLabel` exactly where an item names a label that none marks, with that of the first such
/// item, and `OutOfMemory`.
pub fn far_choices(
    alloc: Global,
    items: &[Item],
    labels: &IndexSet<u32>,
) -> Result<Vec<Choice>, AsmError>
    requires items { AreItems items.now }
    requires distinct { AreDistinct items.now }
    requires labels { labels.now.keys ≡ marks_of items.now }
    ensures aimed { IfOk result (λ choices. AreAimed items.now (targets_of choices.items)) }
    ensures far { IfOk result (λ choices. AreFar choices.items) }
    ensures known { OnOk result (AreKnown items.now) }
    ensures err { IfErr result (λ e. IsRefusal items.now e) }
{
    let mut choices = Vec::new(alloc);
    for item in items {
        let target = target_of(item, labels)?;
        choices.push(Choice {
            near: false,
            target,
        })?;
    }
    Ok(choices)
}
