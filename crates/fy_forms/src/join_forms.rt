//! The join of two path forms.

ghost use Rattle.std.specs.Prelude.{◌≡◌, IsTrue, IfOk, OnOk, IsErrOf};
ghost use Rattle.fy_types.specs.Paths.{PlainPath, no_paths, and_path};
ghost use Rattle.fy_types.specs.Reading.{plain_elem, plain_path, plain_paths, type_of_form};
ghost use Rattle.fy_types.specs.Limits.{IsWithinLimits, IsTooLarge};
ghost use Rattle.fy_forms.specs.Sized.{IsSized};
ghost use Rattle.fy_types.specs.Bounds.{common_end as end_of_both, common, commons_with, join_of, IsLeastUpperBound};
ghost use Rattle.fy_types.specs.Keeping.{all_added, is_some, are_alike};
ghost use Rattle.fy_forms.specs.Keys.{group_at, lent, IsSeen};
ghost use Rattle.fy_forms.specs.Numbers.{key_of as key_of_path};
ghost use Rattle.fy_forms.specs.Rows.{AreKnown};
ghost use Rattle.fy_forms.specs.Merging.{merged, elem_domain, IsMerged};

use crate::error::TypeError;
use crate::fresh::{KnownKeys, fresh_for};
use crate::index::{Groups, candidates, groups_of, key_of};
use crate::kept::{Places, keep};
use crate::meet_forms::meet_form;
use crate::sized::{MOST_NODES, Sized};
use fy_base::OutOfMemory;
use fy_types::{Atom, ElemList, Path, PathElem, Paths, is_end_below};
use std::alloc::Global;
use std::collections::BTreeMap;
use std::rc::Rc;

// Of fewer paths each is taken, since rows of them cost more.
const FEW: usize = 8;

/// The common paths of each path of the first form and each path of the second, in order, each
/// once, at its first place. This stands for a least upper bound of the two types.
///
/// Two paths have a common path where they have the same calls and fields in the same order and
/// their ends are equal, or are `comm` and `compl`, which gives `comm`. Its domains are the meets
/// of the two domains.
///
/// # Errors
///
/// `TypeTooLarge` comes exactly where these paths have over 4,096 nodes or nest more than 480.
pub fn join(alloc: Global, a: &Paths, b: &Paths) -> Result<Paths, TypeError>
    ensures ok { IfOk result
        (λ made. plain_paths made ≡ join_of (plain_paths a.now) (plain_paths b.now)) }
    ensures bound { IfOk result
        (λ made. IsLeastUpperBound (type_of_form made) (type_of_form a.now) (type_of_form b.now)) }
    ensures within { OnOk result (IsWithinLimits (join_of (plain_paths a.now) (plain_paths b.now))) }
    ensures large { IsErrOf result TypeError.TypeTooLarge →
        IsTooLarge (join_of (plain_paths a.now) (plain_paths b.now)) }
{
    let sized = join_form(alloc, a, b)?;
    let Sized { paths, .. } = sized;
    Ok(paths)
}

fn join_form(alloc: Global, a: &Paths, b: &Paths) -> Result<Sized, TypeError>
    ensures ok { IfOk result (λ s. IsSized s (join_of (plain_paths a.now) (plain_paths b.now))) }
    ensures large { IsErrOf result TypeError.TypeTooLarge →
        IsTooLarge (join_of (plain_paths a.now) (plain_paths b.now)) }
{
    let groups = groups_of(alloc, b.as_slice())?;
    let mut places = Places::new(alloc, a.len().saturating_add(b.len()))?;
    let mut known = BTreeMap::new(alloc);
    let mut form = Sized::none(alloc);
    for path in a.as_slice() {
        form = keep_fresh(alloc, form, &mut places, &groups, &mut known, path)?;
    }
    Ok(form)
}

// The common paths of the path with those that have its key.
fn keep_fresh<'a>(
    alloc: Global,
    kept: Sized,
    places: &mut Places,
    groups: &Groups<'a>,
    known: &mut KnownKeys<'a>,
    path: &Path,
) -> Result<Sized, TypeError>
    requires sized { IsSized kept (plain_paths kept.paths) }
    requires seen { IsSeen places.old (plain_paths kept.paths) }
    requires known { AreKnown known.old groups.now }
    ensures ok { IfOk result
        (λ s. IsSized s (all_added (plain_paths kept.paths)
        (commons_with (plain_path path.now)
        (lent (group_at groups.now (key_of_path (plain_path path.now))))))) }
    ensures seen { IfOk result (λ s. IsSeen places.new (plain_paths s.paths)) }
    ensures known { OnOk result (AreKnown known.new groups.now) }
    ensures large { IsErrOf result TypeError.TypeTooLarge →
        IsTooLarge (all_added (plain_paths kept.paths)
        (commons_with (plain_path path.now)
        (lent (group_at groups.now (key_of_path (plain_path path.now)))))) }
{
    let key = key_of(path);
    let list = candidates(groups, key);
    if list.len() < FEW {
        return keep_commons(alloc, kept, places, path, list);
    }
    let fresh = fresh_for(alloc, groups, known, key, path, list)?;
    keep_commons(alloc, kept, places, path, &fresh)
}

fn keep_commons(
    alloc: Global,
    kept: Sized,
    places: &mut Places,
    path: &Path,
    list: &[&Path],
) -> Result<Sized, TypeError>
    requires sized { IsSized kept (plain_paths kept.paths) }
    requires seen { IsSeen places.old (plain_paths kept.paths) }
    ensures ok { IfOk result
        (λ s. IsSized s (all_added (plain_paths kept.paths)
        (commons_with (plain_path path.now) (lent list.now)))) }
    ensures seen { IfOk result (λ s. IsSeen places.new (plain_paths s.paths)) }
    ensures large { IsErrOf result TypeError.TypeTooLarge →
        IsTooLarge (all_added (plain_paths kept.paths)
        (commons_with (plain_path path.now) (lent list.now))) }
{
    let mut form = kept;
    for other in list {
        form = keep_common(alloc, form, places, path, other)?;
    }
    Ok(form)
}

fn keep_common(
    alloc: Global,
    kept: Sized,
    places: &mut Places,
    p: &Path,
    q: &Path,
) -> Result<Sized, TypeError>
    requires sized { IsSized kept (plain_paths kept.paths) }
    requires seen { IsSeen places.old (plain_paths kept.paths) }
    ensures ok { IfOk result
        (λ s. IsSized s (all_added (plain_paths kept.paths)
        (common (plain_path p.now) (plain_path q.now)))) }
    ensures seen { IfOk result (λ s. IsSeen places.new (plain_paths s.paths)) }
    ensures large { IsErrOf result TypeError.TypeTooLarge →
        IsTooLarge (all_added (plain_paths kept.paths)
        (common (plain_path p.now) (plain_path q.now))) }
{
    if !has_common(p, q) {
        return Ok(kept);
    }
    let path = common_path(alloc, p, q)?;
    keep(kept, places, path)
}

/// Whether the paths have a common path.
pub(crate) fn has_common(p: &Path, q: &Path) -> bool
    ensures { result ≡ is_some (common (plain_path p.now) (plain_path q.now)) }
{
    let xs = p.elems.as_slice();
    let ys = q.elems.as_slice();
    if xs.len() != ys.len() {
        return false;
    }
    for i in 0..xs.len() {
        if !is_alike(&xs[i], &ys[i]) {
            return false;
        }
    }
    is_end_below(p.end, q.end) || is_end_below(q.end, p.end)
}

fn is_alike(x: &PathElem, y: &PathElem) -> bool
    ensures { result ≡ are_alike (plain_elem x.now) (plain_elem y.now) }
{
    match x {
        PathElem::Call(_) => match y {
            PathElem::Call(_) => true,
            PathElem::Field(_) => false,
        },
        PathElem::Field(i) => match y {
            PathElem::Call(_) => false,
            PathElem::Field(j) => *i == *j,
        },
    }
}

// The domains are met only once it is known that there is a common path.
fn common_path(alloc: Global, p: &Path, q: &Path) -> Result<Path, TypeError>
    requires { IsTrue (is_some (common (plain_path p.now) (plain_path q.now))) }
    ensures ok { IfOk result
        (λ path. and_path (plain_path path) no_paths ≡ common (plain_path p.now) (plain_path q.now)) }
    ensures large { IsErrOf result TypeError.TypeTooLarge →
        IsTooLarge (common (plain_path p.now) (plain_path q.now)) }
{
    let xs = p.elems.as_slice();
    let ys = q.elems.as_slice();
    let mut elems = ElemList::with_capacity(alloc, xs.len())?;
    let mut nodes = 0;
    for i in 0..xs.len() {
        let merged = merged_elem(alloc, &xs[i], &ys[i])?;
        nodes += merged.nodes;
        if nodes > MOST_NODES {
            return Err(TypeError::TypeTooLarge);
        }
        elems.push(merged.elem)?;
    }
    Ok(Path {
        elems,
        end: common_end(p.end, q.end),
    })
}

// The end that both ends are below.
fn common_end(a: Atom, b: Atom) -> Atom
    requires { IsTrue (is_some (end_of_both a b)) }
    ensures { end_of_both a b ≡ and_path (PlainPath.end result) no_paths }
{
    if is_end_below(a, b) { b } else { a }
}

/// An element with the nodes that it adds to a path.
#[derive(Drop)]
struct Merged {
    elem: PathElem,
    nodes: u64,
}

// The call with the meet of both domains, or the same field.
fn merged_elem(alloc: Global, x: &PathElem, y: &PathElem) -> Result<Merged, TypeError>
    requires { IsTrue (are_alike (plain_elem x.now) (plain_elem y.now)) }
    ensures ok { IfOk result (λ m. IsMerged m (merged (plain_elem x.now) (plain_elem y.now))) }
    ensures large { IsErrOf result TypeError.TypeTooLarge →
        IsTooLarge (elem_domain (merged (plain_elem x.now) (plain_elem y.now))) }
{
    match x {
        PathElem::Call(d) => match y {
            PathElem::Call(e) => {
                let domain = meet_form(alloc, d, e)?;
                Ok(Merged {
                    nodes: domain.nodes + 1,
                    elem: PathElem::Call(shared(alloc, domain.paths)?),
                })
            }
            PathElem::Field(_) => unreachable!(),
        },
        PathElem::Field(i) => Ok(Merged {
            elem: PathElem::Field(*i),
            nodes: 1,
        }),
    }
}

// The form, which copies of a path share.
fn shared(alloc: Global, paths: Paths) -> Result<Rc<Paths>, OutOfMemory>
    ensures { IfOk result (λ rc. rc.value ≡ paths) }
{
    let rc = Rc::new(alloc, paths)?;
    Ok(rc)
}
