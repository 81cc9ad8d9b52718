//! Numbers of paths, by which they are looked up.

ghost use Rattle.std.specs.Prelude.{◌≡◌};
ghost use Rattle.fy_forms.specs.Numbers.{elem_number, mixed as mixed_of, number_of as number_of_path, path_number, paths_number, spread as spread_of};
ghost use Rattle.fy_types.specs.Once.{place as place_of};
ghost use Rattle.fy_types.specs.Reading.{plain_elem, plain_path, plain_paths};

use fy_types::{Atom, Path, PathElem, Paths};

/// The number of a path. Few paths have one number, if they aren't equal.
pub fn number_of(path: &Path) -> u64
    ensures { result ≡ number_of_path (plain_path path.now) }
{
    path_after(0, path)
}

/// The number of a path form. Few forms have one number, if they aren't equal.
pub fn number_of_form(paths: &Paths) -> u64
    ensures { result ≡ paths_number 0 (plain_paths paths.now) }
{
    paths_after(0, paths)
}

/// The number that a mark makes of the number before it.
pub fn mixed(number: u64, mark: u64) -> u64
    ensures { result ≡ mixed_of number mark }
{
    spread(
        number
            .wrapping_mul(6_364_136_223_846_793_005)
            .wrapping_add(mark),
    )
}

// The number and the square of its high half.
fn spread(number: u64) -> u64
    ensures { result ≡ spread_of number }
{
    let high = number >> 32;
    number.wrapping_add(high.wrapping_mul(high))
}

#[cycle(number)]
fn path_after(start: u64, path: &Path) -> u64
    ensures { result ≡ path_number start (plain_path path.now) }
{
    let mut number = start;
    for elem in path.elems.as_slice() {
        number = elem_after(number, elem);
    }
    mixed(number, place(path.end))
}

#[cycle(number)]
fn elem_after(start: u64, elem: &PathElem) -> u64
    ensures { result ≡ elem_number start (plain_elem elem.now) }
{
    match elem {
        PathElem::Call(domain) => mixed(paths_after(mixed(start, 8), domain), 9),
        PathElem::Field(name) => mixed(start, u64::from(*name) + 10),
    }
}

#[cycle(number)]
fn paths_after(start: u64, paths: &Paths) -> u64
    ensures { result ≡ paths_number start (plain_paths paths.now) }
{
    let mut number = start;
    for path in paths.as_slice() {
        number = path_after(number, path);
    }
    number
}

/// The place of an atom among the atoms.
pub fn place(atom: Atom) -> u64
    ensures { result ≡ place_of atom }
{
    match atom {
        Atom::Int => 0,
        Atom::Bool => 1,
        Atom::Char => 2,
        Atom::Comm => 3,
        Atom::Compl => 4,
        Atom::IntAcc => 5,
        Atom::BoolAcc => 6,
        Atom::CharAcc => 7,
    }
}
