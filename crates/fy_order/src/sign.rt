//! What a path has in common with those below it and above it.

ghost use Rattle.std.specs.Prelude.{◌≡◌, ◌↔◌, IsTrue, OnOk};
ghost use Rattle.fy_order.specs.Levels.{IsBelow, IsNotedToo, PlainTagged, own_sign, places_at as places_of, plain_tagged, sign as sign_of};
ghost use Rattle.fy_order.specs.Searching.{IsWanted};

use fy_base::OutOfMemory;
use fy_forms::{mark, mixed, place};
use fy_types::{Atom, Path};
use std::alloc::Global;
use std::collections::BTreeMap;

/// A path, and the place of the call in whose domain it stands.
#[derive(Clone, Copy)]
pub(crate) struct Tagged<'a> {
    pub tag: u64,
    pub path: &'a Path,
}

/// Where paths stand, by their signs.
pub(crate) type Signs = BTreeMap<u64, Vec<usize>>;

/// What a path and those below and above it have in common: the tag, the calls and fields, and the end, but for `compl` and `comm`.
pub(crate) fn sign(tagged: Tagged<'_>, end: Atom) -> u64
    ensures { result ≡ sign_of (plain_tagged tagged.entry) end }
{
    let mut number = tagged.tag;
    for elem in tagged.path.elems.as_slice() {
        number = mixed(number, mark(elem));
    }
    mixed(number, place(end))
}

/// Adds the place last to those of the sign.
pub(crate) fn note(
    alloc: Global,
    places: &mut Signs,
    sign: u64,
    place: usize,
) -> Result<(), OutOfMemory>
    ensures { OnOk result (IsNotedToo places.old places.new sign place) }
{
    if let Some(list) = places.get_mut(&sign) {
        list.push(place)?;
        return Ok(());
    }
    let mut list = Vec::new(alloc);
    list.push(place)?;
    places.insert(sign, list)?;
    Ok(())
}

/// The places that the map has at the sign.
pub(crate) fn places_at(places: &Signs, sign: u64) -> &[usize]
    ensures { result.now ≡ places_of places.now sign }
{
    match places.get(&sign) {
        Some(list) => list.as_slice(),
        None => &[],
    }
}

/// The signs that a path can have: one, or two that differ in the end.
#[derive(Clone, Copy)]
pub(crate) struct Wanted {
    pub own: u64,
    pub other: u64,
}

impl Wanted {
    /// The signs of the paths that are below the path.
    pub(crate) fn below(path: Tagged<'_>) -> Wanted
        ensures { (t : PlainTagged) → IsBelow t (plain_tagged path.entry) → IsWanted result (own_sign t) }
    {
        let end = path.path.end;
        let other = if end == Atom::Comm { Atom::Compl } else { end };
        Wanted {
            own: sign(path, end),
            other: sign(path, other),
        }
    }

    /// The signs of the paths that are above the path.
    pub(crate) fn above(path: Tagged<'_>) -> Wanted
        ensures { (u : PlainTagged) → IsBelow (plain_tagged path.entry) u → IsWanted result (own_sign u) }
    {
        let end = path.path.end;
        let other = if end == Atom::Compl { Atom::Comm } else { end };
        Wanted {
            own: sign(path, end),
            other: sign(path, other),
        }
    }

    pub(crate) fn takes(&self, sign: u64) -> bool
        ensures { IsTrue result ↔ IsWanted self.now sign }
    {
        sign == self.own || sign == self.other
    }
}
