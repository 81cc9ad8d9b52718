//! The lines of one node.

ghost use Rattle.std.specs.Prelude.{◌≡◌, ◌<◌, ◌++◌, decimal, IfOk, OnOk};
ghost use Rattle.fy_phrase.specs.Reads.{reads};
ghost use Rattle.fy_derive.specs.Reading.{plain_derivation};
ghost use Rattle.fy_derive.specs.Shown.{shown, total};
ghost use Rattle.fy_show.specs.Reading.{known_in};
ghost use Rattle.fy_tree.specs.Lines.{
  closing,
  column,
  cut_off,
  first_line,
  fitted,
  head_of,
  in_front,
  last_line,
  line,
  node_rule,
  opening,
  parted,
  parting,
  tail_of,
};
ghost use Rattle.fy_tree.specs.Reading.{look_in, spot_in};

use crate::escape::{put_added_fy, put_fy};
use crate::node::Node;
use crate::rule_words::{has_premises, put_rule};
use crate::style::{Form, Style};
use fy_base::OutOfMemory;
use fy_derive::TypeTable;
use fy_short::{put, put_cut, put_number};
use fy_show::{Manner, View, in_manner, print_shown};
use fy_told::put_cut_type;
use std::alloc::Global;

const LINE_PART: usize = 60;

const LEAST_PHRASE: usize = 12;

// The number in six columns.
fn put_column(text: &mut Vec<u8>, number: u32) -> Result<(), OutOfMemory>
    ensures { OnOk result (text.new.items ≡ text.old.items ++ column (decimal number)) }
{
    let mut buffer = itoa::Buffer::new();
    let digits = buffer.format(number).as_bytes();
    put(text, &b"      "[digits.len().min(6)..])?;
    put(text, digits)
}

fn put_in_front(text: &mut Vec<u8>, added: &[u8], mark: &[u8]) -> Result<(), OutOfMemory>
    ensures { OnOk result (text.new.items ≡ text.old.items ++ in_front added.now mark.now) }
{
    if added.is_empty() {
        return Ok(());
    }
    put(text, added)?;
    put(text, mark)
}

// What stands in front of the phrase.
fn put_head(text: &mut Vec<u8>, lead: &[u8], node: &Node<'_>) -> Result<(), OutOfMemory>
    ensures { OnOk result (text.new.items ≡ text.old.items
        ++ head_of lead.now node.now.at (node_rule (plain_derivation node.now.derivation.now) (reads node.now.phrase.now)) node.now.added.now) }
{
    put_column(text, node.at)?;
    put(text, b" ")?;
    put(text, lead)?;
    put_rule(text, node.derivation, node.phrase)?;
    put(text, b"  ")?;
    put_in_front(text, node.added, b" |- ")
}

// What stands behind it.
fn put_tail(
    text: &mut Vec<u8>,
    table: &TypeTable,
    view: &View<'_, '_>,
    above: &[u8],
    number: usize,
) -> Result<(), OutOfMemory>
    requires { number < total table.now }
    ensures { OnOk result (text.new.items ≡ text.old.items ++ tail_of (known_in view.now) above.now (shown table.now number)) }
{
    put(text, b" : ")?;
    put_cut_type(view.alloc, text, view.known.names, table, number)?;
    put(text, above)
}

fn put_fitted(
    text: &mut Vec<u8>,
    width: usize,
    head: &[u8],
    tail: &[u8],
    phrase: &[u8],
) -> Result<(), OutOfMemory>
    ensures { OnOk result (text.new.items ≡ text.old.items ++ fitted width head.now tail.now phrase.now) }
{
    let around = head.len().saturating_add(tail.len());
    put(text, head)?;
    put_cut(text, width.saturating_sub(around).max(LEAST_PHRASE), phrase)?;
    put(text, tail)?;
    put(text, b"\n")
}

fn put_line(
    text: &mut Vec<u8>,
    table: &TypeTable,
    style: Style,
    view: &View<'_, '_>,
    lead: &[u8],
    above: &[u8],
    node: &Node<'_>,
) -> Result<(), OutOfMemory>
    requires { node.now.conclusion < total table.now }
    ensures { OnOk result (text.new.items ≡ text.old.items
        ++ line (look_in style view.now) lead.now above.now (spot_in table.now view.now node.now)) }
{
    let mut head = Vec::new(view.alloc);
    let mut tail = Vec::new(view.alloc);
    put_head(&mut head, lead, node)?;
    put_tail(&mut tail, table, view, above, node.conclusion)?;
    let phrase = print_shown(&in_manner(view, Manner::Whole), node.phrase)?;
    put_fitted(text, style.width, &head, &tail, phrase.as_slice())
}

/// Puts the first line of a node in LaTeX behind the text.
pub(crate) fn put_first_line(
    text: &mut Vec<u8>,
    lead: &[u8],
    node: &Node<'_>,
) -> Result<(), OutOfMemory>
    ensures { OnOk result (text.new.items ≡ text.old.items
        ++ first_line lead.now (node_rule (plain_derivation node.now.derivation.now) (reads node.now.phrase.now))) }
{
    put(text, lead)?;
    put(text, b"\\inferrule*[right=")?;
    put_rule(text, node.derivation, node.phrase)?;
    put(text, b"]{\n")
}

// Puts its last line behind the text.
fn put_last_line(
    text: &mut Vec<u8>,
    table: &TypeTable,
    view: &View<'_, '_>,
    lead: &[u8],
    node: &Node<'_>,
) -> Result<(), OutOfMemory>
    requires { node.now.conclusion < total table.now }
    ensures { OnOk result (text.new.items ≡ text.old.items
        ++ last_line (known_in view.now) lead.now (spot_in table.now view.now node.now)) }
{
    let mut phrase = Vec::new(view.alloc);
    let mut conclusion = Vec::new(view.alloc);
    let whole = print_shown(&in_manner(view, Manner::Whole), node.phrase)?;
    put_cut(&mut phrase, LINE_PART, whole.as_slice())?;
    put_cut_type(
        view.alloc,
        &mut conclusion,
        view.known.names,
        table,
        node.conclusion,
    )?;
    put(text, lead)?;
    put(text, b"}{")?;
    put_added_fy(text, node.added)?;
    put_fy(text, &phrase)?;
    put(text, b":")?;
    put_fy(text, &conclusion)?;
    put(text, b"}\n")
}

/// The last line of a node in LaTeX.
pub(crate) fn last_line_of(
    table: &TypeTable,
    view: &View<'_, '_>,
    lead: &[u8],
    node: &Node<'_>,
) -> Result<Vec<u8>, OutOfMemory>
    requires { node.now.conclusion < total table.now }
    ensures { IfOk result (λ made. made.items ≡ last_line (known_in view.now) lead.now (spot_in table.now view.now node.now)) }
{
    let mut made = Vec::new(view.alloc);
    put_last_line(&mut made, table, view, lead, node)?;
    Ok(made)
}

/// Puts what stands in front of the premises of a node behind the text.
pub(crate) fn put_opening(
    text: &mut Vec<u8>,
    table: &TypeTable,
    style: Style,
    view: &View<'_, '_>,
    lead: &[u8],
    above: &[u8],
    node: &Node<'_>,
) -> Result<(), OutOfMemory>
    requires { node.now.conclusion < total table.now }
    ensures { OnOk result (text.new.items ≡ text.old.items
        ++ opening (look_in style view.now) style.form lead.now above.now (spot_in table.now view.now node.now)) }
{
    match style.form {
        Form::Plain => put_line(text, table, style, view, lead, above, node),
        Form::Latex => put_first_line(text, lead, node),
    }
}

/// What stands behind them.
pub(crate) fn closing_of(
    table: &TypeTable,
    style: Style,
    view: &View<'_, '_>,
    lead: &[u8],
    node: &Node<'_>,
) -> Result<Vec<u8>, OutOfMemory>
    requires { node.now.conclusion < total table.now }
    ensures { IfOk result (λ made. made.items ≡ closing (look_in style view.now) style.form lead.now (spot_in table.now view.now node.now)) }
{
    match style.form {
        Form::Plain => Ok(Vec::new(view.alloc)),
        Form::Latex => last_line_of(table, view, lead, node),
    }
}

// Puts what parts premises behind the text.
fn put_parting(text: &mut Vec<u8>, form: Form, lead: &[u8]) -> Result<(), OutOfMemory>
    ensures { OnOk result (text.new.items ≡ text.old.items ++ parting form lead.now) }
{
    match form {
        Form::Plain => Ok(()),
        Form::Latex => {
            put(text, lead)?;
            put(text, b"\\\\\n")
        }
    }
}

/// What stands in front of a premise behind others, where no node is looked for.
pub(crate) fn parting_of(
    alloc: Global,
    style: Style,
    view: &View<'_, '_>,
    seek: Option<u32>,
    lead: &[u8],
) -> Result<Vec<u8>, OutOfMemory>
    ensures { IfOk result (λ made. made.items ≡ parted (look_in style view.now) seek lead.now) }
{
    let mut text = Vec::new(alloc);
    if seek.is_none() {
        put_parting(&mut text, style.form, lead)?;
    }
    Ok(text)
}

/// Puts what stands for premises that aren't shown behind the text, if there are some.
pub(crate) fn put_cut_off(
    text: &mut Vec<u8>,
    form: Form,
    lead: &[u8],
    node: &Node<'_>,
) -> Result<(), OutOfMemory>
    ensures { OnOk result (text.new.items ≡ text.old.items
        ++ cut_off form lead.now node.now.at (plain_derivation node.now.derivation.now)) }
{
    if !has_premises(node.derivation) {
        return Ok(());
    }
    match form {
        Form::Plain => {
            put(text, b"       ")?;
            put(text, lead)?;
            put(text, b"..\n")
        }
        Form::Latex => {
            put(text, lead)?;
            put(text, b"\\fycut{")?;
            put_number(text, node.at as usize)?;
            put(text, b"}\n")
        }
    }
}
