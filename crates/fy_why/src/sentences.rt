//! The sentences that tell a cause.

ghost use Rattle.std.specs.Prelude.{◌≡◌, [], ◌∷◌, ◌++◌, OnOk, codes, length, map, take};
ghost use Rattle.fy_types.specs.Print.{atom_text, name_text};
ghost use Rattle.fy_types.specs.Reading.{plain_path, plain_paths};
ghost use Rattle.fy_phrase.specs.Reads.{reads};
ghost use Rattle.fy_causes.specs.Occurrences.{parts_of};
ghost use Rattle.fy_causes.specs.Readings.{around_read, cause_read, explained_read, missed_read, part_at};
ghost use Rattle.fy_short.specs.DataTexts.{data_word as data_word_of};
ghost use Rattle.fy_show.specs.Reading.{known_in, scope_in};
ghost use Rattle.fy_why.specs.Sentences.{
  declared_text,
  fields_text,
  first_field,
  has_text,
  listed,
  missed_text,
  operator_of,
  or_text,
  others_text,
  part_of,
  part_text,
  phrase_told,
  place_in,
  quoted,
  role,
  scope_of,
  selected,
  sentences,
  type_at,
  type_text,
};
ghost use Rattle.fy_why.specs.Types.{first_alike, mismatch_of, mismatch_text, paths_text};
ghost use Rattle.fy_why.specs.Texts.{lines};

use crate::declared::put_declaration;
use crate::mismatch::put_mismatch;
use crate::parts::{put_having, put_part_phrase, put_part_place, put_part_type, put_phrase};
use crate::types::{put_path, put_paths};
use crate::words::{operator_in, put_quoted, put_role, put_selected, separator};
use fy_base::OutOfMemory;
use fy_causes::{Cause, Explained, Missed};
use fy_phrase::DataTy;
use fy_short::{data_word, put, put_name, put_number, word_of};
use fy_show::View;
use fy_types::{Atom, Name, Path, Paths};

// So many domains are told.
const MOST_DOMAINS: usize = 4;

/// Puts the sentences of the cause behind the text, each in a line behind the lead.
pub(crate) fn put_sentences(
    text: &mut Vec<u8>,
    view: &View<'_, '_>,
    lead: &[u8],
    e: &Explained<'_>,
) -> Result<(), OutOfMemory>
    requires parts { map part_at e.now.parts.items ≡ parts_of (around_read e.now.at.around.value) (reads e.now.at.phrase.now) }
    requires scope { scope_in view.now ≡ scope_of (known_in view.now) (around_read e.now.at.around.value) }
    ensures { OnOk result (text.new.items ≡ text.old.items
        ++ lines lead.now (sentences (known_in view.now) (explained_read e.now) (cause_read e.now.cause))) }
{
    match &e.cause {
        Cause::NotCommand => put_not_command(text, view, lead, e),
        Cause::Useless => put_useless(text, view, lead, e),
        Cause::Wants(index, atoms) => put_wants(text, view, lead, e, *index, atoms),
        Cause::Differ => put_differ(text, view, lead, e),
        Cause::Branches => put_branches(text, view, lead, e),
        Cause::Parts(index, joined) => put_apart(text, view, lead, e, *index, joined),
        Cause::NoProcedure => put_no_procedure(text, view, lead, e),
        Cause::NoDomain(all) => put_no_domain(text, view, lead, e, all),
        Cause::NoField(names) => put_no_field(text, view, lead, e, names),
        Cause::Declared(path) => put_declared(text, view, lead, e, path),
        Cause::NoAcceptor => put_no_acceptor(text, view, lead, e),
        Cause::Assigned(taken, _) => put_assigned(text, view, lead, e, taken),
    }
}

fn put_not_command(
    text: &mut Vec<u8>,
    view: &View<'_, '_>,
    lead: &[u8],
    e: &Explained<'_>,
) -> Result<(), OutOfMemory>
    ensures { OnOk result (text.new.items ≡ text.old.items ++ lines lead.now (
        (codes "A program is a comm, and this has " ++ paths_text (known_in view.now).names (plain_paths e.now.paths) ++ codes ".") ∷ [])) }
{
    put(text, lead)?;
    put(text, b"A program is a comm, and this has ")?;
    put_paths(text, view, &e.paths)?;
    put(text, b".\n")
}

fn put_useless(
    text: &mut Vec<u8>,
    view: &View<'_, '_>,
    lead: &[u8],
    e: &Explained<'_>,
) -> Result<(), OutOfMemory>
    ensures { OnOk result (text.new.items ≡ text.old.items ++ lines lead.now (
        (phrase_told (known_in view.now) (scope_in view.now) (reads e.now.at.phrase.now)
        ++ codes " has only ns, and nothing can be done with it.") ∷ [])) }
{
    put(text, lead)?;
    put_phrase(text, view, e.at.phrase)?;
    put(text, b" has only ns, and nothing can be done with it.\n")
}

fn put_wants(
    text: &mut Vec<u8>,
    view: &View<'_, '_>,
    lead: &[u8],
    e: &Explained<'_>,
    index: usize,
    atoms: &[Atom],
) -> Result<(), OutOfMemory>
    ensures { OnOk result (text.new.items ≡ text.old.items ++ lines lead.now (
        (codes "The " ++ role (reads e.now.at.phrase.now) index ++ codes " at " ++ place_in (part_of (explained_read e.now) index)
        ++ codes " has " ++ type_text (known_in view.now) (explained_read e.now) index ++ codes ".")
        ∷ (codes "It has to have " ++ or_text (map atom_text atoms.now) ++ codes ".") ∷ [])) }
{
    put(text, lead)?;
    put(text, b"The ")?;
    put_role(text, e.at.phrase, index)?;
    put(text, b" at ")?;
    put_part_place(text, e, index)?;
    put(text, b" has ")?;
    put_part_type(text, view, e, index)?;
    put(text, b".\n")?;
    put(text, lead)?;
    put(text, b"It has to have ")?;
    put_atoms(text, atoms)?;
    put(text, b".\n")
}

fn put_differ(
    text: &mut Vec<u8>,
    view: &View<'_, '_>,
    lead: &[u8],
    e: &Explained<'_>,
) -> Result<(), OutOfMemory>
    requires parts { map part_at e.now.parts.items ≡ parts_of (around_read e.now.at.around.value) (reads e.now.at.phrase.now) }
    requires scope { scope_in view.now ≡ scope_of (known_in view.now) (around_read e.now.at.around.value) }
    ensures { OnOk result (text.new.items ≡ text.old.items ++ lines lead.now (
        (quoted (operator_of (reads e.now.at.phrase.now)) ++ codes " wants two values of one type.")
        ∷ (has_text (known_in view.now) (explained_read e.now) 0 ++ codes ", and " ++ has_text (known_in view.now) (explained_read e.now) 1 ++ codes ".") ∷ [])) }
{
    put(text, lead)?;
    put_quoted(text, operator_in(e.at.phrase))?;
    put(text, b" wants two values of one type.\n")?;
    put(text, lead)?;
    put_having(text, view, e, 0)?;
    put(text, b", and ")?;
    put_having(text, view, e, 1)?;
    put(text, b".\n")
}

fn put_branches(
    text: &mut Vec<u8>,
    view: &View<'_, '_>,
    lead: &[u8],
    e: &Explained<'_>,
) -> Result<(), OutOfMemory>
    requires parts { map part_at e.now.parts.items ≡ parts_of (around_read e.now.at.around.value) (reads e.now.at.phrase.now) }
    requires scope { scope_in view.now ≡ scope_of (known_in view.now) (around_read e.now.at.around.value) }
    ensures { OnOk result (text.new.items ≡ text.old.items ++ lines lead.now (
        (has_text (known_in view.now) (explained_read e.now) 1 ++ codes ".")
        ∷ (has_text (known_in view.now) (explained_read e.now) 2 ++ codes ".") ∷ codes "They have no type in common." ∷ [])) }
{
    put(text, lead)?;
    put_having(text, view, e, 1)?;
    put(text, b".\n")?;
    put(text, lead)?;
    put_having(text, view, e, 2)?;
    put(text, b".\n")?;
    put(text, lead)?;
    put(text, b"They have no type in common.\n")
}

fn put_apart(
    text: &mut Vec<u8>,
    view: &View<'_, '_>,
    lead: &[u8],
    e: &Explained<'_>,
    index: usize,
    joined: &Paths,
) -> Result<(), OutOfMemory>
    requires parts { map part_at e.now.parts.items ≡ parts_of (around_read e.now.at.around.value) (reads e.now.at.phrase.now) }
    requires scope { scope_in view.now ≡ scope_of (known_in view.now) (around_read e.now.at.around.value) }
    ensures { OnOk result (text.new.items ≡ text.old.items ++ lines lead.now (
        (codes "The parts of `seq` before it have " ++ paths_text (known_in view.now).names (plain_paths joined.now) ++ codes " in common.")
        ∷ (has_text (known_in view.now) (explained_read e.now) index ++ codes ": nothing of that.") ∷ [])) }
{
    put(text, lead)?;
    put(text, b"The parts of `seq` before it have ")?;
    put_paths(text, view, joined)?;
    put(text, b" in common.\n")?;
    put(text, lead)?;
    put_having(text, view, e, index)?;
    put(text, b": nothing of that.\n")
}

fn put_no_procedure(
    text: &mut Vec<u8>,
    view: &View<'_, '_>,
    lead: &[u8],
    e: &Explained<'_>,
) -> Result<(), OutOfMemory>
    requires parts { map part_at e.now.parts.items ≡ parts_of (around_read e.now.at.around.value) (reads e.now.at.phrase.now) }
    requires scope { scope_in view.now ≡ scope_of (known_in view.now) (around_read e.now.at.around.value) }
    ensures { OnOk result (text.new.items ≡ text.old.items ++ lines lead.now (
        (part_text (known_in view.now) (explained_read e.now) 0 ++ codes " is called, but is no procedure: it has "
        ++ type_text (known_in view.now) (explained_read e.now) 0 ++ codes ".") ∷ [])) }
{
    put(text, lead)?;
    put_part_phrase(text, view, e, 0)?;
    put(text, b" is called, but is no procedure: it has ")?;
    put_part_type(text, view, e, 0)?;
    put(text, b".\n")
}

fn put_no_domain(
    text: &mut Vec<u8>,
    view: &View<'_, '_>,
    lead: &[u8],
    e: &Explained<'_>,
    all: &[Missed],
) -> Result<(), OutOfMemory>
    requires parts { map part_at e.now.parts.items ≡ parts_of (around_read e.now.at.around.value) (reads e.now.at.phrase.now) }
    requires scope { scope_in view.now ≡ scope_of (known_in view.now) (around_read e.now.at.around.value) }
    ensures { OnOk result (text.new.items ≡ text.old.items ++ lines lead.now (
        (codes "The argument " ++ has_text (known_in view.now) (explained_read e.now) 1 ++ codes ".")
        ∷ map (missed_text (known_in view.now) (explained_read e.now)) (take 4 (map missed_read all.now)) ++ others_text (length all.now))) }
{
    put(text, lead)?;
    put(text, b"The argument ")?;
    put_having(text, view, e, 1)?;
    put(text, b".\n")?;
    let told = &all[..all.len().min(MOST_DOMAINS)];
    put_all_missed(text, view, lead, e, told)?;
    put_others(text, lead, all.len())
}

// Each domain with what the argument hasn't.
fn put_all_missed(
    text: &mut Vec<u8>,
    view: &View<'_, '_>,
    lead: &[u8],
    e: &Explained<'_>,
    all: &[Missed],
) -> Result<(), OutOfMemory>
    requires parts { map part_at e.now.parts.items ≡ parts_of (around_read e.now.at.around.value) (reads e.now.at.phrase.now) }
    requires scope { scope_in view.now ≡ scope_of (known_in view.now) (around_read e.now.at.around.value) }
    ensures { OnOk result (text.new.items ≡ text.old.items
        ++ lines lead.now (map (missed_text (known_in view.now) (explained_read e.now)) (map missed_read all.now))) }
{
    for missed in all {
        put(text, lead)?;
        put_missed(text, view, e, missed)?;
        put(text, b"\n")?;
    }
    Ok(())
}

// `P` takes D: the argument has no Y
fn put_missed(
    text: &mut Vec<u8>,
    view: &View<'_, '_>,
    e: &Explained<'_>,
    missed: &Missed,
) -> Result<(), OutOfMemory>
    requires parts { map part_at e.now.parts.items ≡ parts_of (around_read e.now.at.around.value) (reads e.now.at.phrase.now) }
    requires scope { scope_in view.now ≡ scope_of (known_in view.now) (around_read e.now.at.around.value) }
    ensures { OnOk result (text.new.items ≡ text.old.items
        ++ missed_text (known_in view.now) (explained_read e.now) (missed_read missed.now)) }
{
    put_part_phrase(text, view, e, 0)?;
    put(text, b" takes ")?;
    put_paths(text, view, &missed.domain)?;
    put(text, b": the argument has no ")?;
    put_path(text, view, &missed.path)?;
    put_argument(text, view, e, &missed.path)?;
    put(text, b".")
}

// Where the argument differs from the path.
fn put_argument(
    text: &mut Vec<u8>,
    view: &View<'_, '_>,
    e: &Explained<'_>,
    path: &Path,
) -> Result<(), OutOfMemory>
    ensures { OnOk result (text.new.items ≡ text.old.items ++ mismatch_text (known_in view.now).names
        (mismatch_of (first_alike (type_at (explained_read e.now) 1) (plain_path path.now)) (plain_path path.now))) }
{
    if e.parts.len() > 1 {
        put_mismatch(text, view, &e.parts[1].paths, path)
    } else {
        Ok(())
    }
}

// How many domains there are beside the first four.
fn put_others(text: &mut Vec<u8>, lead: &[u8], count: usize) -> Result<(), OutOfMemory>
    ensures { OnOk result (text.new.items ≡ text.old.items ++ lines lead.now (others_text count)) }
{
    if count <= MOST_DOMAINS {
        return Ok(());
    }
    put(text, lead)?;
    put(text, b"It takes ")?;
    put_number(text, count - MOST_DOMAINS)?;
    put(text, b" more.\n")
}

fn put_no_field(
    text: &mut Vec<u8>,
    view: &View<'_, '_>,
    lead: &[u8],
    e: &Explained<'_>,
    fields: &[Name],
) -> Result<(), OutOfMemory>
    requires parts { map part_at e.now.parts.items ≡ parts_of (around_read e.now.at.around.value) (reads e.now.at.phrase.now) }
    requires scope { scope_in view.now ≡ scope_of (known_in view.now) (around_read e.now.at.around.value) }
    ensures { OnOk result (text.new.items ≡ text.old.items ++ lines lead.now (
        (part_text (known_in view.now) (explained_read e.now) 0 ++ codes " has no field "
        ++ selected (known_in view.now).names (reads e.now.at.phrase.now) ++ codes ".") ∷ fields_text (known_in view.now) (explained_read e.now) fields.now ∷ [])) }
{
    put(text, lead)?;
    put_part_phrase(text, view, e, 0)?;
    put(text, b" has no field ")?;
    put_selected(text, view.known.names, e.at.phrase)?;
    put(text, b".\n")?;
    put(text, lead)?;
    put_fields(text, view, e, fields)?;
    put(text, b"\n")
}

// The fields of a record, or its type where it has none.
fn put_fields(
    text: &mut Vec<u8>,
    view: &View<'_, '_>,
    e: &Explained<'_>,
    fields: &[Name],
) -> Result<(), OutOfMemory>
    ensures { OnOk result (text.new.items ≡ text.old.items ++ fields_text (known_in view.now) (explained_read e.now) fields.now) }
{
    if fields.len() == 0 {
        put(text, b"It has ")?;
        put_part_type(text, view, e, 0)?;
        return put(text, b", and no field at all.");
    }
    put(text, b"Its fields are ")?;
    put_names(text, view, fields)?;
    put(text, b".")
}

fn put_names(text: &mut Vec<u8>, view: &View<'_, '_>, fields: &[Name]) -> Result<(), OutOfMemory>
    ensures { OnOk result (text.new.items ≡ text.old.items ++ listed [] (map (name_text (known_in view.now).names) fields.now)) }
{
    let mut lead: &[u8] = b"";
    for name in fields {
        put(text, lead)?;
        put_name(text, view.known.names, *name)?;
        lead = b", ";
    }
    Ok(())
}

fn put_declared(
    text: &mut Vec<u8>,
    view: &View<'_, '_>,
    lead: &[u8],
    e: &Explained<'_>,
    path: &Path,
) -> Result<(), OutOfMemory>
    requires parts { map part_at e.now.parts.items ≡ parts_of (around_read e.now.at.around.value) (reads e.now.at.phrase.now) }
    ensures { OnOk result (text.new.items ≡ text.old.items ++ lines lead.now (
        declared_text (known_in view.now) (around_read e.now.at.around.value) (reads e.now.at.phrase.now)
        (first_field (plain_path path.now)) ∷ [])) }
{
    put(text, lead)?;
    put_declaration(text, view, e, path)?;
    put(text, b"\n")
}

fn put_no_acceptor(
    text: &mut Vec<u8>,
    view: &View<'_, '_>,
    lead: &[u8],
    e: &Explained<'_>,
) -> Result<(), OutOfMemory>
    requires parts { map part_at e.now.parts.items ≡ parts_of (around_read e.now.at.around.value) (reads e.now.at.phrase.now) }
    requires scope { scope_in view.now ≡ scope_of (known_in view.now) (around_read e.now.at.around.value) }
    ensures { OnOk result (text.new.items ≡ text.old.items ++ lines lead.now (
        (part_text (known_in view.now) (explained_read e.now) 0 ++ codes " can't be assigned to: it has "
        ++ type_text (known_in view.now) (explained_read e.now) 0 ++ codes ".") ∷ [])) }
{
    put(text, lead)?;
    put_part_phrase(text, view, e, 0)?;
    put(text, b" can't be assigned to: it has ")?;
    put_part_type(text, view, e, 0)?;
    put(text, b".\n")
}

fn put_assigned(
    text: &mut Vec<u8>,
    view: &View<'_, '_>,
    lead: &[u8],
    e: &Explained<'_>,
    taken: &[DataTy],
) -> Result<(), OutOfMemory>
    requires parts { map part_at e.now.parts.items ≡ parts_of (around_read e.now.at.around.value) (reads e.now.at.phrase.now) }
    requires scope { scope_in view.now ≡ scope_of (known_in view.now) (around_read e.now.at.around.value) }
    ensures { OnOk result (text.new.items ≡ text.old.items ++ lines lead.now (
        (part_text (known_in view.now) (explained_read e.now) 0 ++ codes " takes " ++ or_text (map data_word_of taken.now)
        ++ codes ", and " ++ has_text (known_in view.now) (explained_read e.now) 1 ++ codes ".") ∷ [])) }
{
    put(text, lead)?;
    put_part_phrase(text, view, e, 0)?;
    put(text, b" takes ")?;
    put_data(text, taken)?;
    put(text, b", and ")?;
    put_having(text, view, e, 1)?;
    put(text, b".\n")
}

// The atoms, with ` or ` before the last and `, ` before others.
fn put_atoms(text: &mut Vec<u8>, atoms: &[Atom]) -> Result<(), OutOfMemory>
    ensures { OnOk result (text.new.items ≡ text.old.items ++ or_text (map atom_text atoms.now)) }
{
    for i in 0..atoms.len() {
        put(text, word_of(atoms[i]))?;
        put(text, separator(atoms.len() - i - 1))?;
    }
    Ok(())
}

// The same of types of data.
fn put_data(text: &mut Vec<u8>, types: &[DataTy]) -> Result<(), OutOfMemory>
    ensures { OnOk result (text.new.items ≡ text.old.items ++ or_text (map data_word_of types.now)) }
{
    for i in 0..types.len() {
        put(text, data_word(types[i]))?;
        put(text, separator(types.len() - i - 1))?;
    }
    Ok(())
}
