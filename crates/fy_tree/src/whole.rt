//! The whole text of a derivation.

ghost use Rattle.std.specs.Prelude.{◌≡◌, ◌+◌, ◌-◌, ◌<◌, ◌≤◌, ◌^◌, [], ◌∷◌, ◌++◌, None, codes, IfOk, OnOk};
ghost use Rattle.fy_phrase.specs.Reads.{reads};
ghost use Rattle.fy_derive.specs.Contexts.{numbers};
ghost use Rattle.fy_derive.specs.Derivations.{most_nesting, most_nodes, nesting, nodes};
ghost use Rattle.fy_derive.specs.Reading.{plain_derivation};
ghost use Rattle.fy_derive.specs.Shown.{all_shown, shown, total, AreIn};
ghost use Rattle.fy_show.specs.Fresh.{bound as bound_of};
ghost use Rattle.fy_show.specs.Reading.{entry_read, known_in, known_read, scope_in};
ghost use Rattle.fy_told.specs.ReasonTexts.{variable_text};
ghost use Rattle.fy_tree.specs.Annotated.{shown_of};
ghost use Rattle.fy_tree.specs.Lines.{lines};
ghost use Rattle.fy_tree.specs.Reading.{look_in, look_read, raised_part};
ghost use Rattle.fy_tree.specs.Whole.{below_lets, if_plain, tree_text};

use crate::lets::{has_lets, let_parts, two_below};
use crate::node::{Node, concluded};
use crate::style::{Form, Style};
use crate::walk::{Stand, part_of, put_node};
use fy_base::{OutOfMemory, Text};
use fy_derive::{Context, Derivation, TypeTable, nodes_of};
use fy_phrase::Phrase;
use fy_short::put;
use fy_show::{EntryText, KnownNames, Manner, ScopeTexts, View, bound, in_scope};
use fy_told::put_variable;
use std::alloc::Global;

// The names that every program has.
const PRELUDE_COUNT: u32 = 5;

// Where the lines of the program begin: its first node, and what stands in front of its first name.
#[derive(Clone, Copy, Drop)]
struct Place<'a> {
    at: u32,
    count: u32,
    before: &'a [u8],
    more: u32,
}

// The types of the names of so many `let`s, and then the lines of what stands below them.
#[cycle(lets)]
fn put_below_lets(
    text: &mut Vec<u8>,
    table: &mut TypeTable,
    style: Style,
    view: &View<'_, '_>,
    context: &Context<'_>,
    place: &Place<'_>,
    d: &Derivation,
    p: &Phrase,
) -> Result<(), OutOfMemory>
    requires context { AreIn table.old (numbers context.now) }
    requires room { place.now.at + nodes (plain_derivation d.now) < 2 ^ 32 }
    ensures { OnOk result (text.new.items ≡ text.old.items ++ below_lets (look_in style view.now) place.now.more place.now.count place.now.before.now
        (plain_derivation d.now) place.now.at (all_shown table.old (numbers context.now)) (scope_in view.now) (reads p.now)) }
{
    if place.count == 0 {
        return put_behind(text, table, style, view, context, place, d, p);
    }
    match part_of(d) {
        Some(inner) => {
            let next = Place {
                at: place.at + 1,
                count: place.count,
                before: place.before,
                more: place.more,
            };
            put_below_lets(text, table, style, view, context, &next, inner, p)
        }
        None => put_let(text, table, style, view, context, place, d, p),
    }
}

// The lines behind the names.
fn put_behind(
    text: &mut Vec<u8>,
    table: &mut TypeTable,
    style: Style,
    view: &View<'_, '_>,
    context: &Context<'_>,
    place: &Place<'_>,
    d: &Derivation,
    p: &Phrase,
) -> Result<(), OutOfMemory>
    requires context { AreIn table.old (numbers context.now) }
    requires room { place.now.at + nodes (plain_derivation d.now) < 2 ^ 32 }
    ensures { OnOk result (text.new.items ≡ text.old.items ++ below_lets (look_in style view.now) place.now.more 0 place.now.before.now
        (plain_derivation d.now) place.now.at (all_shown table.old (numbers context.now)) (scope_in view.now) (reads p.now)) }
{
    put_if_plain(text, style.form, b"\n")?;
    put_root(
        text, table, style, view, context, None, place.more, place.at, d, p,
    )
}

// The name of the `let` at the root, if one is there, and what follows.
#[cycle(lets)]
fn put_let(
    text: &mut Vec<u8>,
    table: &mut TypeTable,
    style: Style,
    view: &View<'_, '_>,
    context: &Context<'_>,
    place: &Place<'_>,
    d: &Derivation,
    p: &Phrase,
) -> Result<(), OutOfMemory>
    requires context { AreIn table.old (numbers context.now) }
    requires room { place.now.at + nodes (plain_derivation d.now) < 2 ^ 32 }
    requires some { 0 < place.now.count }
    requires own { raised_part (plain_derivation d.now) ≡ None }
    ensures { OnOk result (text.new.items ≡ text.old.items ++ below_lets (look_in style view.now) place.now.more place.now.count place.now.before.now
        (plain_derivation d.now) place.now.at (all_shown table.old (numbers context.now)) (scope_in view.now) (reads p.now)) }
{
    let Some((first, below)) = two_below(d) else {
        return Ok(());
    };
    let Some((defined, body)) = let_parts(p) else {
        return Ok(());
    };
    let number = concluded(view.alloc, table, place.at + 1, first, context, defined)?;
    let next = Place {
        at: (place.at + 1).saturating_add(nodes_of(first)),
        count: place.count - 1,
        before: place.before,
        more: place.more,
    };
    put_named(
        text, table, style, view, context, &next, number, below, p, body,
    )
}

// The name of a `let` with that type, and what stands below it.
#[cycle(lets)]
fn put_named(
    text: &mut Vec<u8>,
    table: &mut TypeTable,
    style: Style,
    view: &View<'_, '_>,
    context: &Context<'_>,
    place: &Place<'_>,
    number: usize,
    d: &Derivation,
    p: &Phrase,
    body: &Phrase,
) -> Result<(), OutOfMemory>
    requires context { AreIn table.old (numbers context.now) }
    requires within { number < total table.old }
    requires room { place.now.at + nodes (plain_derivation d.now) < 2 ^ 32 }
    ensures { OnOk result (text.new.items ≡ text.old.items
        ++ (if_plain style.form (place.now.before.now ++ variable_text (known_in view.now) (bound_of (known_in view.now) (scope_in view.now) (reads p.now)) (shown table.old number))
        ++ below_lets (look_in style view.now) place.now.more place.now.count (codes ", ") (plain_derivation d.now) place.now.at
        (shown table.old number ∷ all_shown table.old (numbers context.now))
        (bound_of (known_in view.now) (scope_in view.now) (reads p.now) ∷ scope_in view.now) (reads body.now))) }
{
    let entry = bound(&*view, p)?;
    put_name(text, table, style.form, view, place.before, &entry, number)?;
    let scope = ScopeTexts::Inside(&entry, view.scope);
    let inside = in_scope(&*view, &scope);
    let under = Context::Under(number, &*context);
    let next = Place {
        at: place.at,
        count: place.count,
        before: b", ",
        more: place.more,
    };
    put_below_lets(text, table, style, &inside, &under, &next, d, body)
}

fn put_if_plain(text: &mut Vec<u8>, form: Form, bytes: &[u8]) -> Result<(), OutOfMemory>
    ensures { OnOk result (text.new.items ≡ text.old.items ++ if_plain form bytes.now) }
{
    match form {
        Form::Plain => put(text, bytes),
        Form::Latex => Ok(()),
    }
}

// The name of a `let` with its type.
fn put_name(
    text: &mut Vec<u8>,
    table: &TypeTable,
    form: Form,
    view: &View<'_, '_>,
    before: &[u8],
    entry: &EntryText,
    number: usize,
) -> Result<(), OutOfMemory>
    requires { number < total table.now }
    ensures { OnOk result (text.new.items ≡ text.old.items
        ++ if_plain form (before.now ++ variable_text (known_in view.now) (entry_read entry.now) (shown table.now number))) }
{
    match form {
        Form::Plain => {
            put(text, before)?;
            put_variable(text, table, view, Some(entry), number)
        }
        Form::Latex => Ok(()),
    }
}

// The lines below a derivation's root.
fn put_root(
    text: &mut Vec<u8>,
    table: &mut TypeTable,
    style: Style,
    view: &View<'_, '_>,
    context: &Context<'_>,
    seek: Option<u32>,
    more: u32,
    at: u32,
    d: &Derivation,
    p: &Phrase,
) -> Result<(), OutOfMemory>
    requires context { AreIn table.old (numbers context.now) }
    requires room { at + nodes (plain_derivation d.now) < 2 ^ 32 }
    ensures { OnOk result (text.new.items ≡ text.old.items ++ lines (look_in style view.now) seek [] more []
        (shown_of (known_in view.now) (plain_derivation d.now) at (all_shown table.old (numbers context.now)) (scope_in view.now) [] (reads p.now))) }
{
    let conclusion = concluded(view.alloc, table, at, d, context, p)?;
    let node = Node {
        at,
        derivation: d,
        phrase: p,
        conclusion,
        added: b"",
    };
    let stand = Stand {
        seek,
        lead: b"",
        more,
    };
    put_node(text, table, style, view, context, &stand, b"", &node)
}

// The lines below the program inside the prelude, if that stands at the root.
fn put_program(
    text: &mut Vec<u8>,
    table: &mut TypeTable,
    style: Style,
    view: &View<'_, '_>,
    more: u32,
    d: &Derivation,
    p: &Phrase,
) -> Result<(), OutOfMemory>
    requires few { nodes (plain_derivation d.now) ≤ most_nodes }
    requires outside { scope_in view.now ≡ [] }
    ensures { OnOk result (text.new.items ≡ text.old.items ++ tree_text (look_in style view.now) None more (plain_derivation d.now) (reads p.now)) }
{
    let context = Context::Outside(&[]);
    if has_lets(PRELUDE_COUNT, d, p) {
        let place = Place {
            at: 0,
            count: PRELUDE_COUNT,
            before: b"",
            more,
        };
        put_below_lets(text, table, style, view, &context, &place, d, p)
    } else {
        put_root(text, table, style, view, &context, None, more, 0, d, p)
    }
}

// The lines below the node, or else below the program.
fn put_tree(
    text: &mut Vec<u8>,
    table: &mut TypeTable,
    style: Style,
    view: &View<'_, '_>,
    node: Option<u32>,
    more: u32,
    d: &Derivation,
    p: &Phrase,
) -> Result<(), OutOfMemory>
    requires few { nodes (plain_derivation d.now) ≤ most_nodes }
    requires outside { scope_in view.now ≡ [] }
    ensures { OnOk result (text.new.items ≡ text.old.items ++ tree_text (look_in style view.now) node more (plain_derivation d.now) (reads p.now)) }
{
    match node {
        Some(_) => {
            let context = Context::Outside(&[]);
            put_root(text, table, style, view, &context, node, more, 0, d, p)
        }
        None => put_program(text, table, style, view, more, d, p),
    }
}

/// The lines of the derivation of a program, down to so many levels: those below the node, or else below the program inside the
/// prelude, behind the types of the prelude's names. The derivation is to have at most 262,144 nodes and to nest at most 2,048.
pub fn print_tree(
    alloc: Global,
    known: &KnownNames<'_>,
    style: Style,
    node: Option<u32>,
    more: u32,
    p: &Phrase,
    d: &Derivation,
) -> Result<Text, OutOfMemory>
    requires few { nodes (plain_derivation d.now) ≤ most_nodes }
    requires shallow { nesting (plain_derivation d.now) ≤ most_nesting }
    ensures { IfOk result (λ text. text ≡ tree_text (look_read style known.now) node more (plain_derivation d.now) (reads p.now)) }
{
    let mut text = Vec::new(alloc);
    let mut table = TypeTable::new(alloc);
    let view = View {
        alloc,
        known,
        scope: &ScopeTexts::Empty,
        manner: Manner::Whole,
    };
    put_tree(&mut text, &mut table, style, &view, node, more, d, p)?;
    Ok(Text::from_vec(text))
}
