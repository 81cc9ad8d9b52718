//! Phrases in their scopes, whose variables are named from the outside in.

ghost use Rattle.std.specs.Prelude.{◌≡◌, ◌≤◌, ◌++◌, IfOk, OnOk, length, map, take};
ghost use Rattle.fy_phrase.specs.Reads.{reads};
ghost use Rattle.fy_causes.specs.Readings.{around_read};
ghost use Rattle.fy_show.specs.Reading.{known_in, scope_in};
ghost use Rattle.fy_why.specs.Readings.{binders_of as binders_of_scope, named};
ghost use Rattle.fy_why.specs.Sentences.{phrase_told};

use crate::parts::put_phrase;
use fy_base::OutOfMemory;
use fy_causes::Around;
use fy_phrase::Phrase;
use fy_show::{ScopeTexts, View, bound, in_scope};
use std::alloc::Global;

/// The phrases that bind the variables of the scope, the innermost first.
pub(crate) fn binders_of<'a>(
    alloc: Global,
    around: &Around<'a>,
) -> Result<Vec<&'a Phrase>, OutOfMemory>
    ensures { IfOk result (λ v. map (λ p. reads p.now) v.items ≡ binders_of_scope (around_read around.now)) }
{
    let mut all = Vec::new(alloc);
    let mut rest = around;
    loop {
        match rest {
            Around::Nothing => return Ok(all),
            Around::Under(variable, outer) => {
                all.push(variable.binder)?;
                rest = outer;
            }
        }
    }
}

/// Puts the phrase between back quotes behind the text, where the view's scope has as many variables more as the first of these
/// phrases bind. The last of them binds the outermost.
pub(crate) fn put_phrase_in(
    text: &mut Vec<u8>,
    view: &View<'_, '_>,
    binders: &[&Phrase],
    count: usize,
    p: &Phrase,
) -> Result<(), OutOfMemory>
    requires { count ≤ length binders.now }
    ensures { OnOk result (text.new.items ≡ text.old.items ++ phrase_told (known_in view.now)
        (named (known_in view.now) (take count (map (λ p. reads p.now) binders.now)) (scope_in view.now)) (reads p.now)) }
{
    if count == 0 {
        return put_phrase(text, view, p);
    }
    let entry = bound(view, binders[count - 1])?;
    let scope = ScopeTexts::Inside(&entry, view.scope);
    put_phrase_in(text, &in_scope(&*view, &scope), binders, count - 1, p)
}
