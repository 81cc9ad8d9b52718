//! What a state holds, to be looked at.

ghost use Rattle.std.specs.Prelude.{◌≡◌, []};
ghost use Rattle.fy_phrase.specs.Reads.{reads};
ghost use Rattle.fy_copy.specs.Seen.{seen};
ghost use Rattle.fy_copy.specs.Shown.{contexts_onto, rows_onto};

use crate::context::{Frame, Row};
use crate::state::CopyState;
use fy_phrase::Phrase;

/// The phrase in focus.
pub fn focus_of(state: &CopyState) -> &Phrase
    ensures { reads result.now ≡ (seen state.now).state.focus }
{
    &state.core.focus
}

/// What waits for it, the newest last.
pub fn contexts_of(state: &CopyState) -> &[Frame]
    ensures { contexts_onto [] result.now ≡ (seen state.now).state.contexts }
{
    &state.core.contexts
}

/// The store, the newest row last.
pub fn store_of(state: &CopyState) -> &[Row]
    ensures { rows_onto [] result.now ≡ (seen state.now).state.store }
{
    &state.core.store
}
