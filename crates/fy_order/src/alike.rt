//! Paths that are below one another.

ghost use Rattle.std.specs.Prelude.{IsTrue};
ghost use Rattle.fy_types.specs.PathOrder.{IsPathBelow};
ghost use Rattle.fy_types.specs.Reading.{IsElemBelow, plain_elem, plain_path};

use fy_forms::{is_same_path, mixed, place};
use fy_types::{Path, PathElem, is_subtype};

/// A number of a path, and how many paths stand in it, itself counted.
#[derive(Clone, Copy)]
pub(crate) struct Measure {
    pub number: u64,
    pub weight: u64,
}

/// The measure of a path. Paths whose domains differ in the order of their paths alone have the same, and few others.
pub(crate) fn weigh(path: &Path) -> Measure {
    let mut number = place(path.end);
    let mut weight: u64 = 1;
    for elem in path.elems.as_slice() {
        match elem {
            PathElem::Call(domain) => {
                let mut sum: u64 = 0;
                for member in domain.as_slice() {
                    let one = weigh(member);
                    sum = sum.wrapping_add(scattered(one.number));
                    weight = weight.saturating_add(one.weight);
                }
                number = scattered(mixed(number, sum));
            }
            PathElem::Field(name) => number = scattered(mixed(number, u64::from(*name) + 1)),
        }
    }
    Measure { number, weight }
}

// Another number, so that sums of such numbers are seldom the same.
fn scattered(number: u64) -> u64 {
    let half = (number ^ (number >> 32)).wrapping_mul(0x9e37_79b9_7f4a_7c15);
    half ^ (half >> 29)
}

// Of heavier paths it isn't found out whether they are below one another, since that takes too long.
const LIGHT: u64 = 32;

/// Whether the paths are the same, or found to be below one another.
pub(crate) fn are_alike(p: &Path, q: &Path) -> bool
    ensures low { IsTrue result → IsPathBelow (plain_path p.now) (plain_path q.now) }
    ensures high { IsTrue result → IsPathBelow (plain_path q.now) (plain_path p.now) }
{
    is_same_path(p, q) || (weigh(p).weight <= LIGHT && have_alike(p, q))
}

// Whether the ends are the same, and the elements are alike.
fn have_alike(p: &Path, q: &Path) -> bool
    ensures low { IsTrue result → IsPathBelow (plain_path p.now) (plain_path q.now) }
    ensures high { IsTrue result → IsPathBelow (plain_path q.now) (plain_path p.now) }
{
    let xs = p.elems.as_slice();
    let ys = q.elems.as_slice();
    if xs.len() != ys.len() || p.end != q.end {
        return false;
    }
    for i in 0..xs.len() {
        if !is_alike(&xs[i], &ys[i]) {
            return false;
        }
    }
    true
}

fn is_alike(x: &PathElem, y: &PathElem) -> bool
    ensures low { IsTrue result → IsElemBelow (plain_elem x.now) (plain_elem y.now) }
    ensures high { IsTrue result → IsElemBelow (plain_elem y.now) (plain_elem x.now) }
{
    match x {
        PathElem::Call(d) => match y {
            PathElem::Call(e) => is_subtype(d, e) && is_subtype(e, d),
            PathElem::Field(_) => false,
        },
        PathElem::Field(i) => match y {
            PathElem::Call(_) => false,
            PathElem::Field(j) => *i == *j,
        },
    }
}
