//! From code to items.

ghost use Rattle.std.specs.Prelude.{◌≡◌, map, IfOk};
ghost use Rattle.pe_code.specs.Valid.{IsValid};
ghost use Rattle.rv_select.specs.Selection.{IsSelection};

use crate::emission::{Sizes, add_blocks};
use crate::entries::entry_labels;
use crate::numbers::Numbers;
use crate::table::table_of;
use fy_base::{DoubleList, OutOfMemory, PlaceList};
use pe_code::{PeCode, PeItem};
use rv_asm::ItemList;
use rv_flow::lower_entries;
use std::alloc::Global;

/// What is selected for code: a program's items, the words of its table, and the places that its
/// faults name by number.
#[derive(Debug, Drop)]
pub struct Selected {
    pub items: ItemList,
    pub table: DoubleList,
    pub places: PlaceList,
}

/// Selects the code for the word machine that valid push-enter code becomes, as items of assembly:
/// first the entries, then the blocks.
///
/// # Errors
///
/// `OutOfMemory` alone.
pub fn select(alloc: Global, code: &PeCode) -> Result<Selected, OutOfMemory>
    requires { IsValid code.now }
    ensures { IfOk result (λ selected. IsSelection code.now selected) }
{
    let numbers = Numbers::new(alloc, code)?;
    let labels = entry_labels(alloc, &numbers)?;
    let table = table_of(alloc, &numbers)?;
    let sizes = Sizes {
        entries: labels.len() as u32,
        table_words: table.len() as u32,
    };
    let mut items = Vec::new(alloc);
    lower_entries(&mut items, &labels)?;
    add_blocks(alloc, &mut items, sizes, &numbers)?;
    let places = places_of(alloc, code.items.as_slice())?;
    Ok(Selected {
        items: ItemList::from_vec(items),
        table,
        places,
    })
}

// The places of items, each under the number of its item.
fn places_of(alloc: Global, items: &[PeItem]) -> Result<PlaceList, OutOfMemory>
    ensures { IfOk result (λ places. places ≡ map (λ i. i.place) items.now) }
{
    let mut places = PlaceList::new(alloc);
    for item in items {
        places.push(item.place)?;
    }
    Ok(places)
}
