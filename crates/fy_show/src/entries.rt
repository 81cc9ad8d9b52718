//! What variables are shown as.

ghost use Rattle.std.specs.Prelude.{◌≡◌};
ghost use Rattle.fy_show.specs.Entries.{entry_at as entry_of, has_name as has_name_of, is_field_name};
ghost use Rattle.fy_show.specs.Reading.{entry_or, fields_read, scope_read};

use crate::binders::Binder;
use fy_short::is_same;
use fy_types::{Name, Names};

/// A field of a `letrec`, with the name that it is shown with.
#[derive(Debug, Drop)]
pub struct FieldText {
    pub field: Name,
    pub text: Vec<u8>,
}

/// What a variable is shown as.
#[derive(Debug, Drop)]
pub enum EntryText {
    /// A variable that no text names.
    Unnamed,
    /// A variable of that name.
    One(Vec<u8>),
    /// The variable of a `letrec`, which stands for all of its fields.
    All(Vec<FieldText>),
}

/// The variables in scope, from the inside out.
#[derive(Clone, Copy, Drop)]
pub enum ScopeTexts<'a> {
    Empty,
    /// A variable that no text names, and those around.
    Unnamed(&'a ScopeTexts<'a>),
    /// A variable, and those around.
    Inside(&'a EntryText, &'a ScopeTexts<'a>),
}

/// The list of names, and the binders of a source with their names.
#[derive(Clone, Copy, Drop)]
pub struct KnownNames<'a> {
    pub names: &'a Names,
    pub binders: &'a [Binder],
}

/// What the variable is shown as. A variable past the scope's end is one that no text names.
pub fn entry_at<'a>(scope: &ScopeTexts<'a>, variable: u32) -> Option<&'a EntryText>
    ensures { entry_or result ≡ entry_of (scope_read scope.now) variable }
{
    match scope {
        ScopeTexts::Empty => None,
        ScopeTexts::Unnamed(outer) => {
            if variable == 0 {
                None
            } else {
                entry_at(outer, variable - 1)
            }
        }
        ScopeTexts::Inside(entry, outer) => {
            if variable == 0 {
                Some(entry)
            } else {
                entry_at(outer, variable - 1)
            }
        }
    }
}

/// Whether the variable is shown with the name.
pub fn has_name(text: &[u8], entry: Option<&EntryText>) -> bool
    ensures { result ≡ has_name_of text.now (entry_or entry.entry) }
{
    match entry {
        None => false,
        Some(EntryText::Unnamed) => false,
        Some(EntryText::One(name)) => is_same(text, name),
        Some(EntryText::All(fields)) => is_field_text(text, fields),
    }
}

/// Whether a field is shown with the name.
pub(crate) fn is_field_text(text: &[u8], fields: &[FieldText]) -> bool
    ensures { result ≡ is_field_name text.now (fields_read fields.now) }
{
    for field in fields {
        if is_same(text, &field.text) {
            return true;
        }
    }
    false
}
