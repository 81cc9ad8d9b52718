//! Equality of paths.

ghost use Rattle.std.specs.Prelude.{◌≡◌, ◌↔◌, IsTrue};
ghost use Rattle.fy_types.specs.Reading.{plain_elem, plain_path, plain_paths};
ghost use Rattle.fy_types.specs.Once.{contains};

use fy_types::{Path, PathElem, Paths};

/// Whether the path is in the list.
pub(crate) fn has_path(list: &Paths, path: &Path) -> bool
    ensures { result ≡ contains (plain_paths list.now) (plain_path path.now) }
{
    for member in list.as_slice() {
        if is_same_path(member, path) {
            return true;
        }
    }
    false
}

/// Whether the lists have the same paths in the same order.
#[cycle(same)]
pub fn are_same_paths(a: &Paths, b: &Paths) -> bool
    ensures { IsTrue result ↔ (plain_paths a.now ≡ plain_paths b.now) }
{
    let ps = a.as_slice();
    let qs = b.as_slice();
    if ps.len() != qs.len() {
        return false;
    }
    for i in 0..ps.len() {
        if !is_same_path(&ps[i], &qs[i]) {
            return false;
        }
    }
    true
}

/// Whether the paths are the same.
#[cycle(same)]
pub fn is_same_path(p: &Path, q: &Path) -> bool
    ensures { IsTrue result ↔ (plain_path p.now ≡ plain_path q.now) }
{
    let xs = p.elems.as_slice();
    let ys = q.elems.as_slice();
    if xs.len() != ys.len() {
        return false;
    }
    for i in 0..xs.len() {
        if !is_same_elem(&xs[i], &ys[i]) {
            return false;
        }
    }
    p.end == q.end
}

#[cycle(same)]
fn is_same_elem(x: &PathElem, y: &PathElem) -> bool
    ensures { IsTrue result ↔ (plain_elem x.now ≡ plain_elem y.now) }
{
    match x {
        PathElem::Call(d) => match y {
            PathElem::Call(e) => are_same_paths(d, e),
            PathElem::Field(_) => false,
        },
        PathElem::Field(i) => match y {
            PathElem::Call(_) => false,
            PathElem::Field(j) => *i == *j,
        },
    }
}
