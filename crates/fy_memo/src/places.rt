//! Where what was asked for stands, by its number.

use fy_base::OutOfMemory;
use std::collections::BTreeMap;

/// Where the last of each number stands that was asked for twice, and none for one that was asked for once.
pub(crate) type Places = BTreeMap<u64, Option<usize>>;

/// The place of a number, if it has one.
pub(crate) fn place_of(places: &Places, number: u64) -> Option<usize> {
    *places.get(&number)?
}

/// Whether the number was asked for before. It is from now on.
pub(crate) fn was_asked(places: &mut Places, number: u64) -> Result<bool, OutOfMemory> {
    if places.get(&number).is_some() {
        return Ok(true);
    }
    places.insert(number, None)?;
    Ok(false)
}
