//! Where a path of an argument differs from one that is wanted.

ghost use Rattle.std.specs.Prelude.{◌≡◌, ◌++◌, OnOk, option_map};
ghost use Rattle.fy_types.specs.Reading.{plain_elem, plain_path, plain_paths};
ghost use Rattle.fy_show.specs.Reading.{known_in};
ghost use Rattle.fy_why.specs.Types.{
  Mismatch,
  first_alike as first_alike_path,
  is_alike as is_alike_path,
  mismatch,
  mismatch_of,
  mismatch_text,
};
ghost use Rattle.fy_why.specs.Readings.{are_one_kind as are_one_kind_of, both_domains as both_domains_of, both_read, mismatch_told};

use crate::types::{put_path, put_paths};
use fy_base::OutOfMemory;
use fy_causes::first_missed;
use fy_short::{put, put_number};
use fy_show::View;
use fy_types::{Path, PathElem, Paths, is_end_below};
use std::rc::Rc;

/// Puts what the argument of the first call would be that differs, where a path of the argument has the calls, fields and end of
/// the wanted one, behind the text.
pub(crate) fn put_mismatch(
    text: &mut Vec<u8>,
    view: &View<'_, '_>,
    argument: &Paths,
    wanted: &Path,
) -> Result<(), OutOfMemory>
    ensures { OnOk result (text.new.items ≡ text.old.items ++ mismatch_text (known_in view.now).names
        (mismatch_of (first_alike_path (plain_paths argument.now) (plain_path wanted.now)) (plain_path wanted.now))) }
{
    match first_alike(argument, wanted) {
        Some(path) => put_first_mismatch(text, view, path, wanted),
        None => Ok(()),
    }
}

// The same of a path of the argument.
fn put_first_mismatch(
    text: &mut Vec<u8>,
    view: &View<'_, '_>,
    path: &Path,
    wanted: &Path,
) -> Result<(), OutOfMemory>
    ensures { OnOk result (text.new.items ≡ text.old.items
        ++ mismatch_text (known_in view.now).names (mismatch 1 (plain_path path.now) (plain_path wanted.now))) }
{
    let xs = path.elems.as_slice();
    let ys = wanted.elems.as_slice();
    let mut number: usize = 0;
    for i in 0..xs.len().min(ys.len()) {
        if let Some((domain, given)) = both_domains(&xs[i], &ys[i]) {
            number = number.saturating_add(1);
            if let Some(lacks) = first_missed(view.alloc, given, domain)? {
                return put_difference(text, view, number, given, &lacks);
            }
        }
    }
    Ok(())
}

// The domains of two calls.
fn both_domains<'a, 'b>(x: &'a PathElem, y: &'b PathElem) -> Option<(&'a Rc<Paths>, &'b Rc<Paths>)>
    ensures { option_map both_read result ≡ both_domains_of (plain_elem x.now) (plain_elem y.now) }
{
    match (x, y) {
        (PathElem::Call(domain), PathElem::Call(given)) => Some((domain, given)),
        _ => None,
    }
}

// What the argument of the call with the number would be, and what that lacks.
fn put_difference(
    text: &mut Vec<u8>,
    view: &View<'_, '_>,
    number: usize,
    given: &Paths,
    lacks: &Path,
) -> Result<(), OutOfMemory>
    ensures { OnOk result (text.new.items ≡ text.old.items
        ++ mismatch_told (known_in view.now).names number (plain_paths given.now) (plain_path lacks.now)) }
{
    put(text, b": its argument ")?;
    put_number(text, number)?;
    put(text, b" would be ")?;
    put_paths(text, view, given)?;
    put(text, b", with no ")?;
    put_path(text, view, lacks)
}

// The first path with the calls and fields of the wanted one, and an end that is as low.
fn first_alike<'a>(paths: &'a Paths, wanted: &Path) -> Option<&'a Path>
    ensures { option_map (λ x. plain_path x.now) result ≡ first_alike_path (plain_paths paths.now) (plain_path wanted.now) }
{
    for path in paths.as_slice() {
        if is_alike(path, wanted) {
            return Some(path);
        }
    }
    None
}

fn is_alike(p: &Path, q: &Path) -> bool
    ensures { result ≡ is_alike_path (plain_path p.now) (plain_path q.now) }
{
    let xs = p.elems.as_slice();
    let ys = q.elems.as_slice();
    if xs.len() != ys.len() {
        return false;
    }
    for i in 0..xs.len() {
        if !are_one_kind(&xs[i], &ys[i]) {
            return false;
        }
    }
    is_end_below(p.end, q.end)
}

// Whether both are calls, or one field.
fn are_one_kind(x: &PathElem, y: &PathElem) -> bool
    ensures { result ≡ are_one_kind_of (plain_elem x.now) (plain_elem y.now) }
{
    match x {
        PathElem::Call(_) => matches!(y, PathElem::Call(_)),
        PathElem::Field(i) => match y {
            PathElem::Call(_) => false,
            PathElem::Field(j) => *i == *j,
        },
    }
}
