//! The fields of a declared type.

ghost use Rattle.std.specs.Prelude.{◌≡◌, ◌++◌, IfOk, OnOk};
ghost use Rattle.fy_types.specs.Reading.{plain_type, plain_types};
ghost use Rattle.fy_show.specs.Fresh.{field_alone, fields_of, fields_of_all};
ghost use Rattle.fy_show.specs.Reading.{declared_read};

use fy_base::OutOfMemory;
use fy_types::{Name, Ty, TyList};
use std::alloc::Global;

/// A field of a declared type.
#[derive(Clone, Copy, Drop)]
pub struct DeclaredField<'a> {
    pub field: Name,
    pub ty: &'a Ty,
}

/// The fields of the type, in order.
pub fn declared_fields<'a>(alloc: Global, ty: &'a Ty) -> Result<Vec<DeclaredField<'a>>, OutOfMemory>
    ensures { IfOk result (λ v. declared_read v.items ≡ fields_of (plain_type ty.now)) }
{
    let mut fields = Vec::new(alloc);
    match ty {
        Ty::Meet(all) => add_fields(&mut fields, all)?,
        Ty::Ns | Ty::Atom(_) | Ty::Arrow(..) | Ty::Field(..) => add_field(&mut fields, ty)?,
    }
    Ok(fields)
}

fn add_fields<'a>(fields: &mut Vec<DeclaredField<'a>>, all: &'a TyList) -> Result<(), OutOfMemory>
    ensures { OnOk result (declared_read fields.new.items
        ≡ declared_read fields.old.items ++ fields_of_all (plain_types all.now)) }
{
    for member in all.as_slice() {
        add_field(fields, member)?;
    }
    Ok(())
}

// The type, if it is a field.
fn add_field<'a>(fields: &mut Vec<DeclaredField<'a>>, ty: &'a Ty) -> Result<(), OutOfMemory>
    ensures { OnOk result (declared_read fields.new.items
        ≡ declared_read fields.old.items ++ field_alone (plain_type ty.now)) }
{
    match ty {
        Ty::Field(name, part) => {
            fields.push(DeclaredField {
                field: *name,
                ty: part,
            })?;
            Ok(())
        }
        Ty::Ns | Ty::Atom(_) | Ty::Arrow(..) | Ty::Meet(_) => Ok(()),
    }
}
