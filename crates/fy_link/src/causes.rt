//! Why units can't be linked.

ghost use Rattle.std.specs.Prelude.{◌≡◌, ◌<◌, ◌^◌, ◌⊎◌, Some, None, IfErr, OnOk, length, map};
ghost use Rattle.std.specs.Option.{option_map};
ghost use Rattle.fy_types.specs.Reading.{plain_type};
ghost use Rattle.fy_types.specs.declared.types.Atom.TheVariants.{Comm};
ghost use Rattle.fy_derive.specs.Rules.{is_atom};
ghost use Rattle.fy_link.specs.Composed.{type_named};
ghost use Rattle.fy_link.specs.Links.{import_fault, link_fault, main_fault, own_fault};
ghost use Rattle.fy_link.specs.Read.{owns_before, source_in};
ghost use Rattle.fy_link.specs.declared.error.LinkError.TheVariants.{OutOfMemory as NoMemory};

use crate::error::LinkError;
use crate::source::Named;
use crate::unit::Unit;
use fy_derive::judging_is_typing;
use fy_types::{Atom, Name, Ty, is_below};
use std::alloc::Global;

/// The type of the latest of these units that has the name.
pub(crate) fn type_named<'a>(units: &'a [Unit], name: Name) -> Option<&'a Ty>
    ensures { option_map (λ ty. plain_type ty.now) result ≡ type_named name (owns_before units.now) }
{
    let mut i = units.len();
    while i > 0 {
        i -= 1;
        if units[i].said.own.name == name {
            return Some(&units[i].said.own.ty);
        }
    }
    None
}

// Why an import of unit j isn't linked to the units before it.
fn judge_import(alloc: Global, j: u32, before: &[Unit], import: &Named) -> Result<(), LinkError>
    ensures ok { OnOk result (import_fault j (type_named import.now.name (owns_before before.now)) (plain_type import.now.ty) ≡ None) }
    ensures err { IfErr result (λ e. (e ≡ NoMemory) ⊎
        (import_fault j (type_named import.now.name (owns_before before.now)) (plain_type import.now.ty) ≡ Some e)) }
{
    judging_is_typing();
    let Some(ty) = type_named(before, import.name) else {
        return Err(LinkError::Missing(j));
    };
    if is_below(alloc, ty, &import.ty)? {
        Ok(())
    } else {
        Err(LinkError::Interface(j))
    }
}

// Why unit j isn't linked to the units before it: by its name, or by an import.
fn judge_unit(alloc: Global, j: u32, before: &[Unit], unit: &Unit) -> Result<(), LinkError>
    ensures ok { OnOk result (own_fault j (owns_before before.now) (source_in unit.now) ≡ None) }
    ensures err { IfErr result (λ e. (e ≡ NoMemory) ⊎ (own_fault j (owns_before before.now) (source_in unit.now) ≡ Some e)) }
{
    if type_named(before, unit.said.own.name).is_some() {
        return Err(LinkError::Double(j));
    }
    for import in unit.said.imports.as_slice() {
        judge_import(alloc, j, before, import)?;
    }
    Ok(())
}

/// Why the units themselves can't be linked.
pub(crate) fn judge_units(alloc: Global, units: &[Unit]) -> Result<(), LinkError>
    requires { length units.now < 2 ^ 32 }
    ensures ok { OnOk result (link_fault (map source_in units.now) ≡ None) }
    ensures err { IfErr result (λ e. (e ≡ NoMemory) ⊎ (link_fault (map source_in units.now) ≡ Some e)) }
{
    for j in 0..units.len() {
        judge_unit(alloc, j as u32, &units[..j], &units[j])?;
    }
    judge_main(units)
}

// Whether the last unit is a command.
fn judge_main(units: &[Unit]) -> Result<(), LinkError>
    ensures ok { OnOk result (main_fault (map source_in units.now) ≡ None) }
    ensures err { IfErr result (λ e. main_fault (map source_in units.now) ≡ Some e) }
{
    if units.len() == 0 {
        return Err(LinkError::NotMain);
    }
    if is_command(&units[units.len() - 1].said.own.ty) {
        Ok(())
    } else {
        Err(LinkError::NotMain)
    }
}

fn is_command(ty: &Ty) -> bool
    ensures { result ≡ is_atom Comm (plain_type ty.now) }
{
    match ty {
        Ty::Atom(Atom::Comm) => true,
        _ => false,
    }
}
