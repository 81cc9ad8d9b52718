//! Types with the paths of forms, which share the types of their domains and ends.

ghost use Rattle.std.specs.Prelude.{◌≡◌, ◌+◌, ◌*◌, ◌≤◌, ◌++◌, max, true, IfOk, IfSome, IsTrue, length, map};
ghost use Rattle.fy_memo.specs.Types.{full_prop};
ghost use Rattle.fy_types.specs.Fields.{
  AreSome,
  HasFullMeets,
  HaveFullMeets,
  fields_in,
  fields_in_all,
  fields_in_elem,
  fields_in_form,
  fields_in_path,
};
ghost use Rattle.fy_types.specs.Keeping.{elem_nesting};
ghost use Rattle.fy_types.specs.Limits.{all_nesting, nesting as nesting_of};
ghost use Rattle.fy_types.specs.Nested.{IsTypeOf, type_nesting, types_nesting};
ghost use Rattle.fy_types.specs.Once.{are_same};
ghost use Rattle.fy_types.specs.Paths.{no_paths, and_path, paths, all_paths};
ghost use Rattle.fy_types.specs.Reading.{all_front, paths_from, plain_elem, plain_path, plain_paths, plain_type, plain_types};
ghost use Rattle.fy_types.specs.Types.{atom as atom_type};

use crate::places::{Places, place_of};
use fy_base::OutOfMemory;
use fy_forms::{are_same_paths, number_of_form};
use fy_types::{Atom, Path, PathElem, Paths, Ty, TyList, ty_of};
use std::alloc::Global;
use std::collections::BTreeMap;
use std::rc::Rc;

/// A domain, and a type that has its paths.
#[derive(Drop)]
struct Typed {
    domain: Rc<Paths>,
    ty: Rc<Ty>,
    ghost made: { are_same (paths (plain_type ty.value)) (plain_paths domain.value) ≡ true },
    ghost shallow: { type_nesting (plain_type ty.value) ≤ 2 * all_nesting (plain_paths domain.value) + 1 },
    ghost full: { HasFullMeets (plain_type ty.value) } by { full_prop (plain_type ty.value) },
    ghost named: { fields_in (plain_type ty.value) ≡ fields_in_form (plain_paths domain.value) },
}

/// The types of domains and of ends.
#[derive(Drop)]
pub(crate) struct Types {
    all: Vec<Typed>,
    places: Places,
    ends: Vec<Rc<Ty>>,
}

impl Types {
    /// No types. It takes no memory.
    pub(crate) fn new(alloc: Global) -> Types {
        Types {
            all: Vec::new(alloc),
            places: BTreeMap::new(alloc),
            ends: Vec::new(alloc),
        }
    }

    /// A type that has the paths of the form.
    pub(crate) fn ty_of(&mut self, alloc: Global, form: &Paths) -> Result<Ty, OutOfMemory>
        ensures { IfOk result (λ ty. IsTypeOf (plain_paths form.now) (plain_type ty)) }
    {
        let list = form.as_slice();
        match list {
            [] => Ok(Ty::Ns),
            [only] => self.ty_of_path(alloc, only),
            _ => Ok(Ty::Meet(self.types_of(alloc, list)?)),
        }
    }

    fn types_of(&mut self, alloc: Global, list: &[Path]) -> Result<TyList, OutOfMemory>
        ensures nesting { IfOk result
            (λ all. types_nesting (plain_types all) ≤ 2 * all_nesting (paths_from (map plain_path list.now))) }
        ensures made { IfOk result
            (λ all. all_paths (plain_types all) ≡ paths_from (map plain_path list.now)) }
        ensures full { IfOk result (λ all. HaveFullMeets (plain_types all)) }
        ensures some { IfOk result (λ all. 2 ≤ length list.now → AreSome (plain_types all)) }
        ensures fields { IfOk result
            (λ all. fields_in_all (plain_types all) ≡ fields_in_form (paths_from (map plain_path list.now))) }
    {
        let mut all = TyList::with_capacity(alloc, list.len())?;
        for path in list {
            all.push(self.ty_of_path(alloc, path)?)?;
        }
        Ok(all)
    }

    fn ty_of_path(&mut self, alloc: Global, path: &Path) -> Result<Ty, OutOfMemory>
        ensures nesting { IfOk result (λ ty. type_nesting (plain_type ty) ≤ 2 * nesting_of (plain_path path.now)) }
        ensures made { IfOk result (λ ty. paths (plain_type ty) ≡ and_path (plain_path path.now) no_paths) }
        ensures full { IfOk result (λ ty. HasFullMeets (plain_type ty)) }
        ensures fields { IfOk result (λ ty. fields_in (plain_type ty) ≡ fields_in_path (plain_path path.now)) }
    {
        let elems = path.elems.as_slice();
        let mut ty = Ty::Atom(path.end);
        for i in (0..elems.len()).rev() {
            let rest = self.shared(alloc, ty)?;
            ty = self.ty_behind(alloc, &elems[i], rest)?;
        }
        Ok(ty)
    }

    fn ty_behind(&mut self, alloc: Global, elem: &PathElem, rest: Rc<Ty>) -> Result<Ty, OutOfMemory>
        ensures nesting { IfOk result
            (λ ty. type_nesting (plain_type ty) ≤ max (2 * elem_nesting (plain_elem elem.now) + 1) (type_nesting (plain_type rest.value)) + 1) }
        ensures made { IfOk result
            (λ ty. paths (plain_type ty) ≡ all_front (plain_elem elem.now) (paths (plain_type rest.value))) }
        ensures full { IfOk result (λ ty. HasFullMeets (plain_type rest.value) → HasFullMeets (plain_type ty)) }
        ensures fields { IfOk result
            (λ ty. fields_in (plain_type ty) ≡ fields_in_elem (plain_elem elem.now) ++ fields_in (plain_type rest.value)) }
    {
        match elem {
            PathElem::Call(domain) => Ok(Ty::Arrow(self.domain_type(alloc, domain)?, rest)),
            PathElem::Field(name) => Ok(Ty::Field(*name, rest)),
        }
    }

    // The type to be shared, of which there is one for each atom.
    fn shared(&mut self, alloc: Global, ty: Ty) -> Result<Rc<Ty>, OutOfMemory>
        ensures { IfOk result (λ rc. plain_type rc.value ≡ plain_type ty) }
    {
        match ty {
            Ty::Atom(atom) => self.end_type(alloc, atom),
            other => Ok(Rc::new(alloc, other)?),
        }
    }

    fn end_type(&mut self, alloc: Global, end: Atom) -> Result<Rc<Ty>, OutOfMemory>
        ensures { IfOk result (λ rc. plain_type rc.value ≡ atom_type end) }
    {
        for ty in &self.ends {
            if is_atom(ty, end) {
                return Ok(ty.clone()?);
            }
        }
        let made = Rc::new(alloc, Ty::Atom(end))?;
        self.ends.push(made.clone()?)?;
        Ok(made)
    }

    // A type that has the paths of the domain, mostly one for domains that are the same.
    fn domain_type(&mut self, alloc: Global, domain: &Rc<Paths>) -> Result<Rc<Ty>, OutOfMemory>
        ensures { IfOk result (λ rc. IsTypeOf (plain_paths domain.now.value) (plain_type rc.value)) }
    {
        let number = number_of_form(domain);
        if let Some(ty) = self.find(number, domain) {
            return Ok(ty.clone()?);
        }
        let ty = Rc::new(alloc, ty_of(alloc, domain)?)?;
        self.keep(number, domain, &ty)?;
        Ok(ty)
    }

    fn find(&self, number: u64, domain: &Paths) -> Option<&Rc<Ty>>
        ensures { IfSome result (λ rc. IsTypeOf (plain_paths domain.now) (plain_type rc.now.value)) }
    {
        let place = place_of(&self.places, number)?;
        if place >= self.all.len() {
            return None;
        }
        let typed = &self.all[place];
        if are_same_paths(&typed.domain, domain) {
            Some(&typed.ty)
        } else {
            None
        }
    }

    fn keep(&mut self, number: u64, domain: &Rc<Paths>, ty: &Rc<Ty>) -> Result<(), OutOfMemory>
        requires { IsTypeOf (plain_paths domain.now.value) (plain_type ty.now.value) }
    {
        let typed = Typed {
            domain: domain.clone()?,
            ty: ty.clone()?,
        };
        self.places.insert(number, Some(self.all.len()))?;
        self.all.push(typed)?;
        Ok(())
    }
}

// Whether the type is the atom.
fn is_atom(ty: &Ty, atom: Atom) -> bool
    ensures { IsTrue result → plain_type ty.now ≡ atom_type atom }
{
    match ty {
        Ty::Atom(end) => *end == atom,
        _ => false,
    }
}
