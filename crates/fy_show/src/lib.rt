//! Texts of phrases, with the names of their source, for people who read them.
#![tactic(auto)]

mod binders;
mod entries;
mod fields;
mod free;
mod laws;
mod manner;
mod part;
mod print;
mod sequence;
mod uses;
mod view;

pub use binders::{Binder, BinderForm, program_binders};
pub use entries::{EntryText, FieldText, KnownNames, ScopeTexts, entry_at, has_name};
pub use fields::{DeclaredField, declared_fields};
pub use free::bound;
pub use laws::{fresh_names_are_free, no_use_is_captured, short_texts_are_short, uses_are_names};
pub use manner::Manner;
pub use print::{print_short, print_shown, put_item, put_letrec, put_one, put_part, put_sequence};
pub use sequence::is_halved_pair;
pub use uses::{field_text, is_used};
pub use view::{View, in_manner, in_scope};
