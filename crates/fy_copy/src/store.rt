//! The store.

ghost use Rattle.std.specs.Prelude.{◌≡◌, ◌<◌, ◌^◌, [], ◌∷◌, Some, OnOk, OnErr, IfSome, IfNone, None, set, slice_get};
ghost use Rattle.fy_phrase.specs.Copy.{content_of, lengthened, value_in, value_of, with_content, with_value, with_value_in, without_row};
ghost use Rattle.fy_copy.specs.Shown.{content_shown, row_of, rows_onto, which_of};
ghost use Rattle.fy_copy.specs.Store.{IsNewest, extent_in};

use crate::context::{Content, Extent, Row, Which};
use fy_base::{Datum, OutOfMemory};

// Where the newest row with a number stands.
#[tactic(auto, using(crate::proofs::StoreLemmas::none_past))]
fn find(store: &[Row], n: u64) -> Option<usize>
    ensures found { IfSome result (IsNewest n store.now) }
    ensures none { IfNone result (content_of n (rows_onto [] store.now) ≡ None) }
{
    for i in (0..store.len()).rev() {
        if store[i].number == n {
            return Some(i);
        }
    }
    None
}

fn element(values: &[Datum], i: u64) -> Option<Datum>
    ensures { result ≡ slice_get values.now i }
{
    if i >= values.len() as u64 {
        return None;
    }
    Some(values[i as usize])
}

fn value_in(content: &Content, which: Which) -> Option<Datum>
    ensures { result ≡ value_in (which_of which) (Some (content_shown content.now)) }
{
    match content {
        Content::Single(v) => match which {
            Which::Own => Some(*v),
            Which::Element(_) => None,
        },
        Content::Several(_, values) => match which {
            Which::Own => None,
            Which::Element(i) => element(values.as_slice(), i),
        },
    }
}

/// The value of a cell.
pub fn value_of(store: &[Row], which: Which, n: u64) -> Option<Datum>
    ensures { result ≡ value_of (which_of which) n (rows_onto [] store.now) }
{
    match find(store, n) {
        Some(i) => value_in(&store[i].content, which),
        None => None,
    }
}

fn extent_in(content: &Content) -> Option<Extent>
    ensures extent { result ≡ extent_in (Some (content_shown content.now)) }
    ensures small { IfSome result (λ extent. extent.count < 2 ^ 63) }
{
    match content {
        Content::Single(_) => None,
        Content::Several(place, values) => Some(Extent {
            place: *place,
            count: values.len() as u64,
        }),
    }
}

/// Where a sequence was made, and the number of its cells.
pub fn extent_of(store: &[Row], n: u64) -> Option<Extent>
    ensures extent { result ≡ extent_in (content_of n (rows_onto [] store.now)) }
    ensures small { IfSome result (λ extent. extent.count < 2 ^ 63) }
{
    match find(store, n) {
        Some(i) => extent_in(&store[i].content),
        None => None,
    }
}

fn set_element(values: &mut Vec<Datum>, i: u64, value: Datum)
    ensures { values.new.items ≡ set values.old.items i value }
{
    if i >= values.len() as u64 {
        return;
    }
    values[i as usize] = value;
}

fn write(content: &mut Content, which: Which, value: Datum)
    ensures { content_shown content.new ≡ with_value_in (which_of which) value (content_shown content.old) }
{
    match content {
        Content::Single(v) => match which {
            Which::Own => *v = value,
            Which::Element(_) => {}
        },
        Content::Several(_, values) => match which {
            Which::Own => {}
            Which::Element(i) => set_element(values, i, value),
        },
    }
}

fn write_row(row: &mut Row, which: Which, value: Datum)
    ensures { row_of row.new ≡ record (row_of row.old) { content = with_value_in (which_of which) value (content_shown row.old.content) } }
{
    write(&mut row.content, which, value);
}

/// Stores a value in a cell.
pub fn set_value(store: &mut Vec<Row>, which: Which, n: u64, value: Datum)
    ensures { rows_onto [] store.new.items ≡ with_value (which_of which) n value (rows_onto [] store.old.items) }
{
    let Some(i) = find(store.as_slice(), n) else {
        return;
    };
    write_row(&mut store[i], which, value);
}

/// Takes a row out of the store.
pub fn drop_row(store: &mut Vec<Row>, n: u64)
    ensures { rows_onto [] store.new.items ≡ without_row n (rows_onto [] store.old.items) }
{
    let Some(i) = find(store.as_slice(), n) else {
        return;
    };
    store.remove(i);
}

/// A new row. After a refusal the store is as it was.
#[tactic(auto, using(crate::proofs::Stacks::stacks))]
pub fn add_row(store: &mut Vec<Row>, number: u64, content: Content) -> Result<(), OutOfMemory>
    ensures ok { OnOk result (rows_onto [] store.new.items ≡ (record { number = number; content = content_shown content }) ∷ rows_onto [] store.old.items) }
    ensures err { OnErr result (rows_onto [] store.new.items ≡ rows_onto [] store.old.items) }
{
    store.push(Row { number, content })?;
    Ok(())
}

fn grow(content: &mut Content) -> Result<(), OutOfMemory>
    ensures ok { OnOk result (content_shown content.new ≡ lengthened (content_shown content.old)) }
    ensures err { OnErr result (content_shown content.new ≡ content_shown content.old) }
{
    match content {
        Content::Single(_) => Ok(()),
        Content::Several(_, values) => {
            values.push(Datum::Int(0))?;
            Ok(())
        }
    }
}

fn grow_row(row: &mut Row) -> Result<(), OutOfMemory>
    ensures ok { OnOk result (row_of row.new ≡ record (row_of row.old) { content = lengthened (content_shown row.old.content) }) }
    ensures err { OnErr result (row_of row.new ≡ row_of row.old) }
{
    grow(&mut row.content)
}

/// Gives a sequence one more cell, that holds 0. After a refusal the store is as it was.
pub fn lengthen(store: &mut Vec<Row>, n: u64) -> Result<(), OutOfMemory>
    ensures ok { OnOk result (rows_onto [] store.new.items ≡ with_content n lengthened (rows_onto [] store.old.items)) }
    ensures err { OnErr result (rows_onto [] store.new.items ≡ rows_onto [] store.old.items) }
{
    let Some(i) = find(store.as_slice(), n) else {
        return Ok(());
    };
    grow_row(&mut store[i])
}
