//! Lists of paths told as types.

ghost use Rattle.std.specs.Prelude.{◌≡◌, ◌++◌, IfOk, OnOk, map};
ghost use Rattle.fy_types.specs.Reading.{paths_from, plain_elem, plain_path, plain_paths, plain_type, plain_types};
ghost use Rattle.fy_why.specs.Types.{
  more_text,
  path_text,
  paths_text,
  type_along as type_along_path,
  type_with as type_with_paths,
  types_with as types_with_paths,
};
ghost use Rattle.fy_show.specs.Reading.{known_in};
ghost use Rattle.fy_why.specs.Readings.{type_behind as type_behind_elem};

use fy_base::OutOfMemory;
use fy_short::{print_short_type, put, put_cut, put_number};
use fy_show::View;
use fy_types::{Path, PathElem, Paths, Ty, TyList};
use std::alloc::Global;
use std::rc::Rc;

// So many paths are told.
const MOST_PATHS: usize = 4;

const TYPE_PART: usize = 60;

/// Puts the type with the paths behind the text, the first four of them, and how many more there are.
pub(crate) fn put_paths(
    text: &mut Vec<u8>,
    view: &View<'_, '_>,
    paths: &Paths,
) -> Result<(), OutOfMemory>
    ensures { OnOk result (text.new.items ≡ text.old.items ++ paths_text (known_in view.now).names (plain_paths paths.now)) }
{
    let all = paths.as_slice();
    if all.len() == 0 {
        return put(text, b"only ns");
    }
    let told = &all[..all.len().min(MOST_PATHS)];
    let ty = type_with(view.alloc, told)?;
    let written = print_short_type(view.alloc, view.known.names, &ty)?;
    put_cut(text, TYPE_PART, written.as_slice())?;
    put_more(text, all.len())
}

// How many paths there are beside the first four.
fn put_more(text: &mut Vec<u8>, count: usize) -> Result<(), OutOfMemory>
    ensures { OnOk result (text.new.items ≡ text.old.items ++ more_text count) }
{
    if count <= MOST_PATHS {
        return Ok(());
    }
    put(text, b" & ")?;
    put_number(text, count - MOST_PATHS)?;
    put(text, b" more")
}

/// Puts the type of the path behind the text.
pub(crate) fn put_path(
    text: &mut Vec<u8>,
    view: &View<'_, '_>,
    path: &Path,
) -> Result<(), OutOfMemory>
    ensures { OnOk result (text.new.items ≡ text.old.items ++ path_text (known_in view.now).names (plain_path path.now)) }
{
    let ty = type_along(view.alloc, path)?;
    let written = print_short_type(view.alloc, view.known.names, &ty)?;
    put(text, written.as_slice())
}

// The type with the paths, which is a meet only of two or more.
#[cycle(with)]
fn type_with(alloc: Global, list: &[Path]) -> Result<Ty, OutOfMemory>
    ensures { IfOk result (λ ty. plain_type ty ≡ type_with_paths (paths_from (map plain_path list.now))) }
{
    match list {
        [] => Ok(Ty::Ns),
        [only] => type_along(alloc, only),
        _ => Ok(Ty::Meet(types_with(alloc, list)?)),
    }
}

#[cycle(with)]
fn types_with(alloc: Global, list: &[Path]) -> Result<TyList, OutOfMemory>
    ensures { IfOk result (λ all. plain_types all ≡ types_with_paths (paths_from (map plain_path list.now))) }
{
    let mut all = TyList::with_capacity(alloc, list.len())?;
    for path in list {
        all.push(type_along(alloc, path)?)?;
    }
    Ok(all)
}

#[cycle(with)]
fn type_along(alloc: Global, path: &Path) -> Result<Ty, OutOfMemory>
    ensures { IfOk result (λ ty. plain_type ty ≡ type_along_path (plain_path path.now)) }
{
    let elems = path.elems.as_slice();
    let mut ty = Ty::Atom(path.end);
    for i in (0..elems.len()).rev() {
        ty = type_behind(alloc, &elems[i], ty)?;
    }
    Ok(ty)
}

// The type with one demand in front.
#[cycle(with)]
fn type_behind(alloc: Global, elem: &PathElem, rest: Ty) -> Result<Ty, OutOfMemory>
    ensures { IfOk result (λ ty. plain_type ty ≡ type_behind_elem (plain_elem elem.now) (plain_type rest)) }
{
    match elem {
        PathElem::Call(domain) => {
            let from = type_with(alloc, domain.as_slice())?;
            Ok(Ty::Arrow(Rc::new(alloc, from)?, Rc::new(alloc, rest)?))
        }
        PathElem::Field(name) => Ok(Ty::Field(*name, Rc::new(alloc, rest)?)),
    }
}
