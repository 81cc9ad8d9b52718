//! What a `letrec` declares, and what its definition has.

ghost use Rattle.std.specs.Prelude.{◌≡◌, ◌++◌, OnOk, map, option_map};
ghost use Rattle.fy_types.specs.Paths.{paths as paths_in_type};
ghost use Rattle.fy_types.specs.Reading.{plain_path, plain_type};
ghost use Rattle.fy_phrase.specs.Reads.{reads};
ghost use Rattle.fy_short.specs.ShortTypes.{short_type};
ghost use Rattle.fy_causes.specs.Occurrences.{parts_of};
ghost use Rattle.fy_causes.specs.Readings.{around_read, part_at};
ghost use Rattle.fy_show.specs.Fresh.{fields_of};
ghost use Rattle.fy_show.specs.Reading.{known_in};
ghost use Rattle.fy_why.specs.Sentences.{
  declared_text,
  defined_in as defined_in_tree,
  definition_type,
  first_field as first_field_of,
  type_of_field,
};
ghost use Rattle.fy_why.specs.Types.{paths_text};

use crate::types::put_paths;
use fy_base::OutOfMemory;
use fy_causes::{Around, Explained, least_at};
use fy_phrase::Phrase;
use fy_short::{put, put_name, put_type};
use fy_show::{View, declared_fields};
use fy_types::{Name, Path, PathElem, Ty};
use std::rc::Rc;

/// Puts the declared type of the field that the path begins with, and what its definition has, behind the text.
pub(crate) fn put_declaration(
    text: &mut Vec<u8>,
    view: &View<'_, '_>,
    e: &Explained<'_>,
    path: &Path,
) -> Result<(), OutOfMemory>
    requires { map part_at e.now.parts.items ≡ parts_of (around_read e.now.at.around.value) (reads e.now.at.phrase.now) }
    ensures { OnOk result (text.new.items ≡ text.old.items ++ declared_text (known_in view.now)
        (around_read e.now.at.around.value) (reads e.now.at.phrase.now) (first_field_of (plain_path path.now))) }
{
    match e.at.phrase {
        Phrase::Rec(_, ty, body, _) => {
            let name = first_field(path);
            put(text, b"`letrec` declares `")?;
            put_name(text, view.known.names, name)?;
            put(text, b": ")?;
            put_field_type(text, view, ty, name)?;
            put(text, b"`, and its definition has ")?;
            put_definition_type(text, view, body, name, &e.parts[0].at.around)?;
            put(text, b".")
        }
        _ => Ok(()),
    }
}

// The name of the field that the path begins with.
fn first_field(path: &Path) -> Name
    ensures { result ≡ first_field_of (plain_path path.now) }
{
    let elems = path.elems.as_slice();
    if elems.len() == 0 {
        return 0;
    }
    match &elems[0] {
        PathElem::Call(_) => 0,
        PathElem::Field(name) => *name,
    }
}

// The type of the field that is declared so.
fn put_field_type(
    text: &mut Vec<u8>,
    view: &View<'_, '_>,
    ty: &Ty,
    name: Name,
) -> Result<(), OutOfMemory>
    ensures { OnOk result (text.new.items ≡ text.old.items
        ++ short_type (known_in view.now).names (type_of_field (fields_of (plain_type ty.now)) name)) }
{
    let declared = declared_fields(view.alloc, ty)?;
    for field in &declared {
        if name == field.field {
            return put_type(text, view.known.names, field.ty);
        }
    }
    put(text, b"ns")
}

// What the field's own definition has.
fn put_definition_type<'a>(
    text: &mut Vec<u8>,
    view: &View<'_, '_>,
    body: &'a Phrase,
    name: Name,
    around: &Rc<Around<'a>>,
) -> Result<(), OutOfMemory>
    ensures { OnOk result (text.new.items ≡ text.old.items ++ paths_text (known_in view.now).names
        (definition_type (around_read around.now.value) (defined_in_tree (reads body.now) name))) }
{
    match defined_in(body, name) {
        Some(p) => {
            let paths = least_at(view.alloc, p, around)?;
            put_paths(text, view, &paths)
        }
        None => put(text, b"only ns"),
    }
}

// The field's own definition, the last of its name.
fn defined_in(p: &Phrase, name: Name) -> Option<&Phrase>
    ensures { option_map (λ q. reads q.now) result ≡ defined_in_tree (reads p.now) name }
{
    match p {
        Phrase::Merge(left, right, _) => match defined_in(right, name) {
            Some(q) => Some(q),
            None => defined_in(left, name),
        },
        Phrase::Field(field, q, _) => { if name == *field { Some(q) } else { None } }
        _ => None,
    }
}
