//! The text that tells why a program has no type.

ghost use Rattle.std.specs.Prelude.{◌≡◌, ◌≤◌, [], ◌++◌, Some, IfOk, OnOk, length, map, option_map, take};
ghost use Rattle.fy_phrase.specs.Reads.{reads};
ghost use Rattle.fy_causes.specs.Hollow.{why_of as why_of_program};
ghost use Rattle.fy_causes.specs.Occurrences.{parts_of};
ghost use Rattle.fy_causes.specs.Readings.{around_read, cause_read, explained_read, part_at, second_read, told_read};
ghost use Rattle.fy_show.specs.Reading.{known_in, known_read, scope_in};
ghost use Rattle.fy_why.specs.Readings.{IsSecondSeen, named};
ghost use Rattle.fy_why.specs.Sentences.{scope_of};
ghost use Rattle.fy_why.specs.Texts.{block, body_in, hidden_names as hidden_names_of, inside, lines, phrase_lines, second_text, why_text};

use crate::carets::{put_carets, shown_text};
use crate::origins::{PRELUDE_NAMES, put_beside_all};
use crate::scopes::{binders_of, put_phrase_in};
use crate::sentences::put_sentences;
use crate::words::put_place;
use fy_base::{OutOfMemory, Text};
use fy_causes::{Around, Cause, Explained, Second, Told, why_of};
use fy_phrase::Phrase;
use fy_short::{put, put_cut};
use fy_show::{KnownNames, Manner, ScopeTexts, View, bound, in_scope};
use std::alloc::Global;

/// Why the program isn't a command, with phrases cut to so many bytes, or `accepted`.
pub fn print_why(
    alloc: Global,
    known: &KnownNames<'_>,
    width: usize,
    p: &Phrase,
) -> Result<Text, OutOfMemory>
    ensures { IfOk result (λ text. text ≡ why_text width (known_read known.now) (why_of_program (reads p.now))) }
{
    let mut text = Vec::new(alloc);
    match why_of(alloc, p)? {
        None => put(&mut text, b"accepted\n")?,
        Some(told) => {
            let view = View {
                alloc,
                known,
                scope: &ScopeTexts::Empty,
                manner: Manner::Whole,
            };
            put_told(&mut text, &view, width, &told)?;
        }
    }
    Ok(Text::from_vec(text))
}

// What is blamed, and what is wrong in a definition behind it.
fn put_told(
    text: &mut Vec<u8>,
    view: &View<'_, '_>,
    width: usize,
    told: &Told<'_>,
) -> Result<(), OutOfMemory>
    requires first { map part_at told.now.first.parts.items ≡ parts_of (around_read told.now.first.at.around.value) (reads told.now.first.at.phrase.now) }
    requires second { IsSecondSeen told.now.second }
    requires outside { scope_in view.now ≡ [] }
    ensures { OnOk result (text.new.items ≡ text.old.items ++ why_text width (known_in view.now) (Some (told_read told.now))) }
{
    put_blame(text, view, width, b"  ", told.second.is_none(), &told.first)?;
    match &told.second {
        None => Ok(()),
        Some(second) => put_second(text, view, width, second),
    }
}

fn put_second(
    text: &mut Vec<u8>,
    view: &View<'_, '_>,
    width: usize,
    second: &Second<'_>,
) -> Result<(), OutOfMemory>
    requires parts { map part_at second.now.blame.parts.items ≡ parts_of (around_read second.now.blame.at.around.value) (reads second.now.blame.at.phrase.now) }
    requires outside { scope_in view.now ≡ [] }
    ensures { OnOk result (text.new.items ≡ text.old.items ++ second_text width (known_in view.now) (Some (second_read second.now))) }
{
    let at = &second.inside;
    let binders = binders_of(view.alloc, &at.around)?;
    put(text, b"  ")?;
    put_phrase_in(text, view, &binders, binders.len(), at.phrase)?;
    put(text, b" has only ns, by this, at ")?;
    put_place(text, second.blame.at.phrase.place())?;
    put(text, b":\n")?;
    put_blame(text, view, width, b"    ", false, &second.blame)
}

// A phrase that is blamed, and what is told of it, where no variable is in the view's scope.
fn put_blame(
    text: &mut Vec<u8>,
    view: &View<'_, '_>,
    width: usize,
    lead: &[u8],
    names: bool,
    e: &Explained<'_>,
) -> Result<(), OutOfMemory>
    requires parts { map part_at e.now.parts.items ≡ parts_of (around_read e.now.at.around.value) (reads e.now.at.phrase.now) }
    requires outside { scope_in view.now ≡ [] }
    ensures { OnOk result (text.new.items ≡ text.old.items ++ block width (known_in view.now) names lead.now (explained_read e.now)) }
{
    let binders = binders_of(view.alloc, &e.at.around)?;
    put_blame_in(text, view, &binders, binders.len(), width, lead, names, e)
}

// The same, where the view's scope has as many variables more as the first of these phrases bind.
fn put_blame_in(
    text: &mut Vec<u8>,
    view: &View<'_, '_>,
    binders: &[&Phrase],
    count: usize,
    width: usize,
    lead: &[u8],
    names: bool,
    e: &Explained<'_>,
) -> Result<(), OutOfMemory>
    requires parts { map part_at e.now.parts.items ≡ parts_of (around_read e.now.at.around.value) (reads e.now.at.phrase.now) }
    requires few { count ≤ length binders.now }
    requires scope { named (known_in view.now) (take count (map (λ p. reads p.now) binders.now)) (scope_in view.now)
        ≡ scope_of (known_in view.now) (around_read e.now.at.around.value) }
    ensures { OnOk result (text.new.items ≡ text.old.items ++ block width (known_in view.now) names lead.now (explained_read e.now)) }
{
    if count == 0 {
        return put_block(text, view, width, lead, names, e);
    }
    let entry = bound(view, binders[count - 1])?;
    let scope = ScopeTexts::Inside(&entry, view.scope);
    let inner = in_scope(&*view, &scope);
    put_blame_in(text, &inner, binders, count - 1, width, lead, names, e)
}

fn put_block(
    text: &mut Vec<u8>,
    view: &View<'_, '_>,
    width: usize,
    lead: &[u8],
    names: bool,
    e: &Explained<'_>,
) -> Result<(), OutOfMemory>
    requires parts { map part_at e.now.parts.items ≡ parts_of (around_read e.now.at.around.value) (reads e.now.at.phrase.now) }
    requires scope { scope_in view.now ≡ scope_of (known_in view.now) (around_read e.now.at.around.value) }
    ensures { OnOk result (text.new.items ≡ text.old.items ++ block width (known_in view.now) names lead.now (explained_read e.now)) }
{
    let hidden = hidden_names(&e.at.around);
    put_inside(text, view, hidden, width, lead, e.at.phrase, &e.cause)?;
    put_sentences(text, view, lead, e)?;
    put_beside_all(text, view, lead, names, e)
}

// The whole is shown inside the prelude.
fn hidden_names(around: &Around<'_>) -> u32
    ensures { result ≡ hidden_names_of (around_read around.now) }
{
    match around {
        Around::Nothing => PRELUDE_NAMES,
        Around::Under(..) => 0,
    }
}

// The phrase inside at most so many definitions, and carets under the part that fails.
fn put_inside(
    text: &mut Vec<u8>,
    view: &View<'_, '_>,
    count: u32,
    width: usize,
    lead: &[u8],
    p: &Phrase,
    cause: &Cause,
) -> Result<(), OutOfMemory>
    ensures { OnOk result (text.new.items ≡ text.old.items ++ lines lead.now (phrase_lines width (known_in view.now) (cause_read cause.now)
        (inside (known_in view.now) count (scope_in view.now) (reads p.now)))) }
{
    if count == 0 {
        return put_phrase_lines(text, view, width, lead, p, cause);
    }
    match body_of(p) {
        None => put_phrase_lines(text, view, width, lead, p, cause),
        Some(body) => {
            let entry = bound(view, p)?;
            let scope = ScopeTexts::Inside(&entry, view.scope);
            let inner = in_scope(&*view, &scope);
            put_inside(text, &inner, count - 1, width, lead, body, cause)
        }
    }
}

// The phrase for which a definition is, if the phrase is one.
fn body_of(p: &Phrase) -> Option<&Phrase>
    ensures { option_map (λ b. reads b.now) result ≡ body_in (reads p.now) }
{
    match p {
        Phrase::LetIn(_, _, body, _) => Some(body),
        _ => None,
    }
}

fn put_phrase_lines(
    text: &mut Vec<u8>,
    view: &View<'_, '_>,
    width: usize,
    lead: &[u8],
    p: &Phrase,
    cause: &Cause,
) -> Result<(), OutOfMemory>
    ensures { OnOk result (text.new.items ≡ text.old.items
        ++ lines lead.now (phrase_lines width (known_in view.now) (cause_read cause.now) (scope_in view.now, reads p.now))) }
{
    let shown = shown_text(view, p)?;
    let mut line = Vec::new(view.alloc);
    put_cut(&mut line, width, &shown)?;
    put(text, lead)?;
    put(text, &line)?;
    put(text, b"\n")?;
    put_carets(text, view, lead, &line, p, cause)
}
