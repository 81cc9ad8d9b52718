//! Subtyping of path forms, whose paths are looked up by their keys.

ghost use Rattle.std.specs.Prelude.{◌≡◌, ◌↔◌, false, IsTrue, IfOk};
ghost use Rattle.fy_forms.specs.Keys.{lent, IsIndex};
ghost use Rattle.fy_order.specs.Indexed.{indexed, IsWhole};
ghost use Rattle.fy_order.specs.Levels.{AreIndexed, HaveBelow, MayBeLevels, all_tagged, indexed_nodes};
ghost use Rattle.fy_types.specs.Paths.{type_of_paths};
ghost use Rattle.fy_types.specs.Subtyping.{IsSubtype};
ghost use Rattle.fy_types.specs.PathOrder.{IsPathBelow, ArePathsBelow, HasBelow};
ghost use Rattle.fy_types.specs.Reading.{IsElemBelow, paths_in, plain_elem, plain_path, plain_paths, type_of_form};

use crate::index::{Indexed, indexed_levels};
use crate::levels::{levels_of, tagged};
use crate::relation::{all_below, covers_of, one_below};
use fy_base::OutOfMemory;
use fy_forms::{Groups, are_same_paths, candidates, groups_of, key_of};
use fy_types::{Path, PathElem, Paths, is_end_below};
use std::alloc::Global;

// Lists of fewer paths are compared as they stand, and so are lists of less weight, since an index of them costs more.
const FEW: usize = 4;

const LIGHT: usize = 128;

/// A path form with its paths by their keys, which can be compared with many forms.
#[derive(Drop)]
pub struct PathIndex<'a> {
    form: &'a Paths,
    groups: Groups<'a>,
    // None, where no path has many of its key.
    levels: Vec<Indexed<'a>>,
}

impl<'a> PathIndex<'a> {
    /// The index of a path form.
    pub fn of(alloc: Global, form: &'a Paths) -> Result<PathIndex<'a>, OutOfMemory>
        ensures whole { IfOk result (λ index. IsWhole index) }
        ensures form { IfOk result (λ index. indexed index ≡ plain_paths form.now) }
    {
        let groups = groups_of(alloc, form.as_slice())?;
        let levels = levels_where(alloc, &groups, form)?;
        Ok(PathIndex {
            form,
            groups,
            levels,
        })
    }

    /// Whether the type that the form stands for is a subtype of the other's.
    pub fn is_below(&self, alloc: Global, other: &Paths) -> Result<bool, OutOfMemory>
        requires { IsWhole self.now }
        ensures { IfOk result
            (λ r. IsTrue r ↔ IsSubtype (type_of_paths (indexed self.now)) (type_of_form other.now)) }
    {
        are_indexed_below(
            alloc,
            self.form,
            &self.groups,
            self.levels.as_slice(),
            other,
        )
    }
}

/// Whether the type that the first path form stands for is a subtype of the second's, which
/// `is_subtype` answers without memory. Here a path of the second form is compared only with those
/// of the first that have its calls and fields in its order.
pub fn is_form_below(alloc: Global, a: &Paths, b: &Paths) -> Result<bool, OutOfMemory>
    ensures { IfOk result (λ r. IsTrue r ↔ IsSubtype (type_of_form a.now) (type_of_form b.now)) }
{
    if are_same_paths(a, b) {
        return Ok(true);
    }
    are_paths_below(alloc, a, b)
}

#[cycle(keyed)]
fn are_paths_below(alloc: Global, a: &Paths, b: &Paths) -> Result<bool, OutOfMemory>
    ensures { IfOk result (λ r. IsTrue r ↔ ArePathsBelow (plain_paths a.now) (plain_paths b.now)) }
{
    if a.len() < FEW || is_light(a) || is_light(b) {
        return are_few_below(alloc, a, b);
    }
    let groups = groups_of(alloc, a.as_slice())?;
    let levels = levels_where(alloc, &groups, a)?;
    are_indexed_below(alloc, a, &groups, levels.as_slice(), b)
}

#[cycle(keyed)]
fn are_indexed_below(
    alloc: Global,
    a: &Paths,
    groups: &Groups<'_>,
    levels: &[Indexed<'_>],
    b: &Paths,
) -> Result<bool, OutOfMemory>
    requires groups { IsIndex groups.now (paths_in a.now) }
    requires levels { MayBeLevels levels.now (plain_paths a.now) }
    ensures { IfOk result (λ r. IsTrue r ↔ ArePathsBelow (plain_paths a.now) (plain_paths b.now)) }
{
    if levels.len() == 0 {
        are_keyed_below(alloc, a, groups, b)
    } else {
        are_found_below(alloc, a, levels, b)
    }
}

// Each path is compared with those of its key.
#[cycle(keyed)]
fn are_keyed_below(
    alloc: Global,
    a: &Paths,
    groups: &Groups<'_>,
    b: &Paths,
) -> Result<bool, OutOfMemory>
    requires { IsIndex groups.now (paths_in a.now) }
    ensures { IfOk result (λ r. IsTrue r ↔ ArePathsBelow (plain_paths a.now) (plain_paths b.now)) }
{
    for path in b.as_slice() {
        let list = candidates(&*groups, key_of(path));
        if !is_some_below(alloc, list, path)? {
            return Ok(false);
        }
    }
    Ok(true)
}

// Each path is compared with those that can be below it.
#[cycle(keyed)]
fn are_found_below(
    alloc: Global,
    a: &Paths,
    levels: &[Indexed<'_>],
    b: &Paths,
) -> Result<bool, OutOfMemory>
    requires nodes { indexed_nodes levels.now ≡ all_tagged 0 (plain_paths a.now) }
    requires levels { AreIndexed false levels.now }
    ensures { IfOk result (λ r. IsTrue r ↔ ArePathsBelow (plain_paths a.now) (plain_paths b.now)) }
{
    let others = levels_of(alloc, tagged(alloc, b.as_slice())?)?;
    let covers = covers_of(alloc, levels, others.as_slice())?;
    for (place, path) in b.as_slice().iter().enumerate() {
        let one = one_below(alloc, levels, others.as_slice(), covers.as_slice(), place)?;
        if !is_at_below(alloc, a, one, path)? {
            let all = all_below(alloc, levels, others.as_slice(), covers.as_slice(), place)?;
            if !is_found_below(alloc, a, all.as_slice(), path)? {
                return Ok(false);
            }
        }
    }
    Ok(true)
}

// Whether the path at the place is below the other one.
#[cycle(keyed)]
fn is_at_below(
    alloc: Global,
    paths: &Paths,
    place: Option<usize>,
    above: &Path,
) -> Result<bool, OutOfMemory>
    ensures { IfOk result (λ r. IsTrue r → HasBelow (plain_paths paths.now) (plain_path above.now)) }
{
    let members = paths.as_slice();
    match place {
        Some(place) if place < members.len() => is_path_below(alloc, &members[place], above),
        _ => Ok(false),
    }
}

/// How many paths stand in the path's domains, itself counted.
pub fn weight(path: &Path) -> usize {
    let mut sum: usize = 1;
    for elem in path.elems.as_slice() {
        if let PathElem::Call(domain) = elem {
            sum = sum.saturating_add(domain.len());
        }
    }
    sum
}

// Whether the form has few paths, with those in their domains.
fn is_light(form: &Paths) -> bool {
    let mut left = LIGHT;
    for path in form.as_slice() {
        let weight = weight(path);
        if weight >= left {
            return false;
        }
        left -= weight;
    }
    true
}

// Whether many paths have one slot, with those in their domains.
fn has_many(groups: &Groups<'_>) -> bool {
    for list in &groups.lists {
        if are_many(list.as_slice()) {
            return true;
        }
    }
    false
}

fn are_many(list: &[&Path]) -> bool {
    if list.len() < FEW {
        return false;
    }
    let mut left = LIGHT;
    for path in list {
        let weight = weight(path);
        if weight >= left {
            return true;
        }
        left -= weight;
    }
    false
}

// The levels of the form's paths, or none where no path has many of its key.
fn levels_where<'a>(
    alloc: Global,
    groups: &Groups<'_>,
    form: &'a Paths,
) -> Result<Vec<Indexed<'a>>, OutOfMemory>
    ensures { IfOk result (λ levels. MayBeLevels levels.items (plain_paths form.now)) }
{
    if has_many(groups) {
        indexed_levels(alloc, tagged(alloc, form.as_slice())?, false)
    } else {
        Ok(Vec::new(alloc))
    }
}

// Whether one of the paths at the places is below the path.
#[cycle(keyed)]
fn is_found_below(
    alloc: Global,
    paths: &Paths,
    places: &[usize],
    above: &Path,
) -> Result<bool, OutOfMemory>
    requires { HaveBelow (all_tagged 0 (plain_paths paths.now)) (record { tag = 0; path = plain_path above.now }) places.now }
    ensures { IfOk result (λ r. IsTrue r ↔ HasBelow (plain_paths paths.now) (plain_path above.now)) }
{
    let members = paths.as_slice();
    for place in places {
        if *place < members.len() && is_path_below(alloc, &members[*place], above)? {
            return Ok(true);
        }
    }
    Ok(false)
}

/// Whether one of the paths is below the path.
#[cycle(keyed)]
pub(crate) fn is_some_below(
    alloc: Global,
    list: &[&Path],
    above: &Path,
) -> Result<bool, OutOfMemory>
    ensures { IfOk result (λ r. IsTrue r ↔ HasBelow (lent list.now) (plain_path above.now)) }
{
    for path in list {
        if is_path_below(alloc, path, above)? {
            return Ok(true);
        }
    }
    Ok(false)
}

#[cycle(keyed)]
fn are_few_below(alloc: Global, a: &Paths, b: &Paths) -> Result<bool, OutOfMemory>
    ensures { IfOk result (λ r. IsTrue r ↔ ArePathsBelow (plain_paths a.now) (plain_paths b.now)) }
{
    for path in b.as_slice() {
        if !has_below(alloc, a, path)? {
            return Ok(false);
        }
    }
    Ok(true)
}

#[cycle(keyed)]
fn has_below(alloc: Global, list: &Paths, above: &Path) -> Result<bool, OutOfMemory>
    ensures { IfOk result (λ r. IsTrue r ↔ HasBelow (plain_paths list.now) (plain_path above.now)) }
{
    for path in list.as_slice() {
        if is_path_below(alloc, path, above)? {
            return Ok(true);
        }
    }
    Ok(false)
}

#[cycle(keyed)]
fn is_path_below(alloc: Global, p: &Path, q: &Path) -> Result<bool, OutOfMemory>
    ensures { IfOk result (λ r. IsTrue r ↔ IsPathBelow (plain_path p.now) (plain_path q.now)) }
{
    let xs = p.elems.as_slice();
    let ys = q.elems.as_slice();
    if xs.len() != ys.len() || !is_end_below(p.end, q.end) {
        return Ok(false);
    }
    for i in 0..xs.len() {
        if !is_elem_below(alloc, &xs[i], &ys[i])? {
            return Ok(false);
        }
    }
    Ok(true)
}

#[cycle(keyed)]
fn is_elem_below(alloc: Global, x: &PathElem, y: &PathElem) -> Result<bool, OutOfMemory>
    ensures { IfOk result (λ r. IsTrue r ↔ IsElemBelow (plain_elem x.now) (plain_elem y.now)) }
{
    match x {
        PathElem::Call(d) => match y {
            PathElem::Call(e) => are_paths_below(alloc, e, d),
            PathElem::Field(_) => Ok(false),
        },
        PathElem::Field(i) => match y {
            PathElem::Call(_) => Ok(false),
            PathElem::Field(j) => Ok(*i == *j),
        },
    }
}
