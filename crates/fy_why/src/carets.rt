//! The part of a phrase that carets stand under.

ghost use Rattle.std.specs.Prelude.{◌≡◌, ◌+◌, ◌&&◌, [], ◌∷◌, ◌++◌, Some, IfOk, OnOk, codes, option_map, replicate, slice_get};
ghost use Rattle.fy_types.specs.Reading.{plain_type};
ghost use Rattle.fy_syntax.specs.Print.{operator_text};
ghost use Rattle.fy_phrase.specs.Reads.{reads, reads_parts};
ghost use Rattle.fy_short.specs.DataTexts.{data_word as data_word_of, left_level as left_level_of, operator_level as operator_level_of, put_word as put_word_of};
ghost use Rattle.fy_causes.specs.Readings.{cause_read};
ghost use Rattle.fy_show.specs.Fresh.{bound as bound_of};
ghost use Rattle.fy_show.specs.Reading.{entry_read, known_in, part_in, scope_in, shown_in};
ghost use Rattle.fy_show.specs.Texts.{are_halves, definitions, entry_name, fields_in, form, is_halved, item, letrec_text, part, parts_text, sequence_text};
ghost use Rattle.fy_why.specs.Carets.{at_most_40, carets as carets_under, carets_of, each, failing as failing_of, one, shown, spans, three, two};
ghost use Rattle.fy_why.specs.Readings.{span_read};
ghost use Rattle.fy_why.specs.Texts.{lines};

use fy_base::{BinOp, OutOfMemory, PutKind};
use fy_causes::Cause;
use fy_phrase::{DataTy, Parts, Phrase};
use fy_short::{data_word, left_level, operator_level, put, put_word};
use fy_show::{
    EntryText, Manner, ScopeTexts, View, bound, in_manner, in_scope, is_halved_pair, print_shown,
    put_item, put_letrec, put_one, put_part, put_sequence,
};
use fy_syntax::{operator_word, prefix_word};
use fy_types::Ty;

// Of the parts of a phrase.
const PART: usize = 40;

/// A part of a phrase, with what stands in front of it.
#[derive(Drop)]
pub(crate) struct Span {
    front: Vec<u8>,
    part: Vec<u8>,
}

/// The text of the phrase with its parts cut; of a `letrec` without what stands behind `in`.
pub(crate) fn shown_text(view: &View<'_, '_>, p: &Phrase) -> Result<Vec<u8>, OutOfMemory>
    ensures { IfOk result (λ v. v.items ≡ shown (known_in view.now) (scope_in view.now) (reads p.now)) }
{
    match p {
        Phrase::Rec(_, ty, body, _) => shown_definitions(view, p, ty, body),
        Phrase::Var(..)
        | Phrase::Lit(..)
        | Phrase::Unary(..)
        | Phrase::Binary(..)
        | Phrase::Cond(..)
        | Phrase::Case(..)
        | Phrase::Lam(..)
        | Phrase::App(..)
        | Phrase::Field(..)
        | Phrase::Sel(..)
        | Phrase::Merge(..)
        | Phrase::LetIn(..)
        | Phrase::Skip(_)
        | Phrase::Seq(..)
        | Phrase::Assign(..)
        | Phrase::WhileDo(..)
        | Phrase::Forever(..)
        | Phrase::New(..)
        | Phrase::Cells(..)
        | Phrase::Escape(..)
        | Phrase::Accept(..)
        | Phrase::Put(..)
        | Phrase::Read(..)
        | Phrase::Mark(..) => shown_form(view, p),
    }
}

fn shown_definitions(
    view: &View<'_, '_>,
    p: &Phrase,
    ty: &Ty,
    body: &Phrase,
) -> Result<Vec<u8>, OutOfMemory>
    ensures { IfOk result (λ v. v.items ≡ letrec_text (known_in view.now) (bound_of (known_in view.now) (scope_in view.now) (reads p.now)) (plain_type ty.now)
        (definitions (known_in view.now) (bound_of (known_in view.now) (scope_in view.now) (reads p.now) ∷ scope_in view.now)
        (fields_in (bound_of (known_in view.now) (scope_in view.now) (reads p.now))) at_most_40 (reads body.now))) }
{
    let mut text = Vec::new(view.alloc);
    let entry = bound(view, p)?;
    let cut = in_manner(view, Manner::Cut(PART));
    put_letrec(&mut text, &cut, &entry, ty, body)?;
    Ok(text)
}

fn shown_form(view: &View<'_, '_>, p: &Phrase) -> Result<Vec<u8>, OutOfMemory>
    ensures { IfOk result (λ v. v.items ≡ (form (known_in view.now) (scope_in view.now) (reads p.now)).1 at_most_40) }
{
    let mut text = Vec::new(view.alloc);
    let cut = in_manner(view, Manner::Cut(PART));
    let shown = print_shown(&cut, p)?;
    put(&mut text, shown.as_slice())?;
    Ok(text)
}

/// Puts a line with carets under the part that fails behind the text, if the part stands in the line above, which has so many bytes.
pub(crate) fn put_carets(
    text: &mut Vec<u8>,
    view: &View<'_, '_>,
    lead: &[u8],
    line: &[u8],
    p: &Phrase,
    cause: &Cause,
) -> Result<(), OutOfMemory>
    ensures { OnOk result (text.new.items ≡ text.old.items ++ lines lead.now
        (carets_of line.now (spans (known_in view.now) (scope_in view.now) (reads p.now)) (failing_of (cause_read cause.now)))) }
{
    let Some(index) = failing(cause) else {
        return Ok(());
    };
    match span_in(&in_manner(view, Manner::Cut(PART)), p, index)? {
        Some(span) => put_under(text, lead, line, &span),
        None => Ok(()),
    }
}

fn put_under(text: &mut Vec<u8>, lead: &[u8], line: &[u8], span: &Span) -> Result<(), OutOfMemory>
    ensures { OnOk result (text.new.items ≡ text.old.items ++ lines lead.now (carets_under line.now (Some (span_read span.now)))) }
{
    let front = span.front.len();
    let part = span.part.len();
    if front > line.len() || part > line.len() - front {
        return Ok(());
    }
    put(text, lead)?;
    put_times(text, 32, front)?;
    put_times(text, 94, part)?;
    put(text, b"\n")
}

// The byte so many times.
fn put_times(text: &mut Vec<u8>, byte: u8, times: usize) -> Result<(), OutOfMemory>
    ensures { OnOk result (text.new.items ≡ text.old.items ++ replicate times byte) }
{
    for _ in 0..times {
        text.push(byte)?;
    }
    Ok(())
}

// The part that fails.
fn failing(cause: &Cause) -> Option<usize>
    ensures { result ≡ failing_of (cause_read cause.now) }
{
    match cause {
        Cause::NotCommand | Cause::Useless | Cause::Declared(_) => None,
        Cause::Wants(index, _) | Cause::Parts(index, _) => Some(*index),
        Cause::NoProcedure | Cause::NoField(_) | Cause::NoAcceptor => Some(0),
        Cause::Differ | Cause::NoDomain(_) | Cause::Assigned(..) => Some(1),
        Cause::Branches => Some(2),
    }
}

// The direct part with the index, with what stands in front of it.
fn span_in(view: &View<'_, '_>, p: &Phrase, index: usize) -> Result<Option<Span>, OutOfMemory>
    requires { view.now.manner ≡ at_most_40 }
    ensures { IfOk result (λ o. option_map span_read o ≡ slice_get (spans (known_in view.now) (scope_in view.now) (reads p.now)) index) }
{
    match p {
        Phrase::Unary(op, q, _) => one_span(view, index, prefix_word(*op), 9, q),
        Phrase::Binary(op, q, r, _) => binary_span(view, index, *op, q, r),
        Phrase::Cond(test, q, r, _) => cond_span(view, index, test, q, r),
        Phrase::Case(e, parts, _) => case_span(view, index, e, parts),
        Phrase::App(q, r, _) => two_spans(view, index, b"", 10, q, b" ", 11, r),
        Phrase::Sel(q, _, _) => one_span(view, index, b"", 11, q),
        Phrase::Seq(q, r, _) => seq_span(view, index, q, r),
        Phrase::Assign(q, r, _) => two_spans(view, index, b"", 4, q, b" := ", 3, r),
        Phrase::WhileDo(q, r, _) => two_spans(view, index, b"while ", 3, q, b" do ", 3, r),
        Phrase::Forever(q, _) => one_span(view, index, b"loop ", 3, q),
        Phrase::New(_, ty, first, body, _) => new_span(view, index, p, *ty, first, body),
        Phrase::Cells(_, count, body, _) => cells_span(view, index, p, count, body),
        Phrase::Escape(_, body, _) => escape_span(view, index, p, body),
        Phrase::Accept(_, ty, body, _) => accept_span(view, index, p, *ty, body),
        Phrase::Put(kind, q, _) => put_span(view, index, *kind, q),
        Phrase::Read(q, _) => one_span(view, index, b"read ", 11, q),
        Phrase::Var(..)
        | Phrase::Lit(..)
        | Phrase::Lam(..)
        | Phrase::Field(..)
        | Phrase::Merge(..)
        | Phrase::LetIn(..)
        | Phrase::Rec(..)
        | Phrase::Skip(_)
        | Phrase::Mark(..) => Ok(None),
    }
}

// The one part behind what stands in front of it.
fn one_span(
    view: &View<'_, '_>,
    index: usize,
    front: &[u8],
    level: u8,
    p: &Phrase,
) -> Result<Option<Span>, OutOfMemory>
    ensures { IfOk result (λ o. option_map span_read o ≡ slice_get (one front.now (part_in view.now level (reads p.now))) index) }
{
    if index != 0 {
        return Ok(None);
    }
    let mut part = Vec::new(view.alloc);
    put_part(&mut part, view, level, p)?;
    let front = front.to_vec(view.alloc)?;
    Ok(Some(Span { front, part }))
}

// One of two parts, with a word between them.
fn two_spans(
    view: &View<'_, '_>,
    index: usize,
    front: &[u8],
    left: u8,
    p: &Phrase,
    word: &[u8],
    right: u8,
    q: &Phrase,
) -> Result<Option<Span>, OutOfMemory>
    ensures { IfOk result (λ o. option_map span_read o
        ≡ slice_get (two front.now (part_in view.now left (reads p.now)) word.now (part_in view.now right (reads q.now))) index) }
{
    if index == 0 {
        return one_span(view, 0, front, left, p);
    }
    let mut behind = front.to_vec(view.alloc)?;
    put_part(&mut behind, view, left, p)?;
    put(&mut behind, word)?;
    one_span(view, index - 1, &behind, right, q)
}

fn binary_span(
    view: &View<'_, '_>,
    index: usize,
    op: BinOp,
    p: &Phrase,
    q: &Phrase,
) -> Result<Option<Span>, OutOfMemory>
    ensures { IfOk result (λ o. option_map span_read o ≡ slice_get (two [] (part_in view.now (left_level_of op) (reads p.now))
        (codes " " ++ operator_text op) (part_in view.now (operator_level_of op + 1) (reads q.now))) index) }
{
    let mut word = b" ".to_vec(view.alloc)?;
    put(&mut word, operator_word(op))?;
    two_spans(
        view,
        index,
        b"",
        left_level(op),
        p,
        &word,
        operator_level(op) + 1,
        q,
    )
}

fn cond_span(
    view: &View<'_, '_>,
    index: usize,
    test: &Phrase,
    p: &Phrase,
    q: &Phrase,
) -> Result<Option<Span>, OutOfMemory>
    ensures { IfOk result (λ o. option_map span_read o ≡ slice_get (three (codes "if ") (part_in view.now 3 (reads test.now))
        (codes " then ") (part_in view.now 3 (reads p.now)) (codes " else ") (part_in view.now 3 (reads q.now))) index) }
{
    if index == 0 {
        return one_span(view, 0, b"if ", 3, test);
    }
    let mut front = b"if ".to_vec(view.alloc)?;
    put_part(&mut front, view, 3, test)?;
    put(&mut front, b" then ")?;
    two_spans(view, index - 1, &front, 3, p, b" else ", 3, q)
}

fn case_span(
    view: &View<'_, '_>,
    index: usize,
    e: &Phrase,
    parts: &Parts,
) -> Result<Option<Span>, OutOfMemory>
    requires { view.now.manner ≡ at_most_40 }
    ensures { IfOk result (λ o. option_map span_read o ≡ slice_get
        ((
          sequence_text (reads_parts parts.now) (parts_text (known_in view.now) (scope_in view.now) at_most_40 [] (reads_parts parts.now)) ++ codes " ",
          part_in view.now 11 (reads e.now),
        ) ∷ each (known_in view.now) (scope_in view.now) (codes "seq(") (reads_parts parts.now)) index) }
{
    let mut front = Vec::new(view.alloc);
    if index == 0 {
        put_sequence(&mut front, view, parts)?;
        put(&mut front, b" ")?;
        return one_span(view, 0, &front, 11, e);
    }
    put(&mut front, b"seq(")?;
    each_span(view, index - 1, front, parts)
}

// One of the parts of a `seq`.
fn each_span(
    view: &View<'_, '_>,
    index: usize,
    front: Vec<u8>,
    parts: &Parts,
) -> Result<Option<Span>, OutOfMemory>
    requires { view.now.manner ≡ at_most_40 }
    ensures { IfOk result (λ o. option_map span_read o ≡ slice_get
        (each (known_in view.now) (scope_in view.now) front.items (reads_parts parts.now)) index) }
{
    let mut front = front;
    let parts = parts.as_slice();
    for i in 0..parts.len() {
        if i == index {
            return one_span(view, 0, &front, 3, &parts[i]);
        }
        put_part(&mut front, view, 3, &parts[i])?;
        put(&mut front, b", ")?;
    }
    Ok(None)
}

fn seq_span(
    view: &View<'_, '_>,
    index: usize,
    p: &Phrase,
    q: &Phrase,
) -> Result<Option<Span>, OutOfMemory>
    ensures { IfOk result (λ o. option_map span_read o ≡ slice_get (two []
        (item (are_halves (reads p.now) (reads q.now) && (is_halved (reads p.now) && is_halved (reads q.now))) view.now.manner (shown_in view.now (reads p.now)))
        (codes "; ")
        (item (are_halves (reads p.now) (reads q.now) && (is_halved (reads p.now) && is_halved (reads q.now))) view.now.manner (shown_in view.now (reads q.now))))
        index) }
{
    let halves = is_halved_pair(p, q);
    let mut front = Vec::new(view.alloc);
    let mut part = Vec::new(view.alloc);
    match index {
        0 => put_item(&mut part, view, halves, p)?,
        1 => {
            put_item(&mut front, view, halves, p)?;
            put(&mut front, b"; ")?;
            put_item(&mut part, view, halves, q)?;
        }
        _ => return Ok(None),
    }
    Ok(Some(Span { front, part }))
}

// The part or the body of a form that binds, whose binder is shown so.
fn span_under<'x>(
    view: &View<'_, 'x>,
    entry: &'x EntryText,
    index: usize,
    front: &[u8],
    body: &Phrase,
) -> Result<Option<Span>, OutOfMemory>
    ensures { IfOk result (λ o. option_map span_read o ≡ slice_get (one front.now
        (part view.now.manner 3 (form (known_in view.now) (entry_read entry.now ∷ scope_in view.now) (reads body.now)))) index) }
{
    let scope = ScopeTexts::Inside(entry, view.scope);
    one_span(&in_scope(&*view, &scope), index, front, 3, body)
}

fn new_span(
    view: &View<'_, '_>,
    index: usize,
    p: &Phrase,
    ty: DataTy,
    first: &Phrase,
    body: &Phrase,
) -> Result<Option<Span>, OutOfMemory>
    ensures { IfOk result (λ o. option_map span_read o ≡ slice_get (two (codes "new " ++ entry_name (bound_of (known_in view.now) (scope_in view.now) (reads p.now))
        ++ codes ": " ++ data_word_of ty ++ codes " := ") (part_in view.now 3 (reads first.now)) (codes " in ")
        (part view.now.manner 3 (form (known_in view.now) (bound_of (known_in view.now) (scope_in view.now) (reads p.now) ∷ scope_in view.now) (reads body.now)))) index) }
{
    let entry = bound(view, p)?;
    let mut front = b"new ".to_vec(view.alloc)?;
    put_one(&mut front, &entry)?;
    put(&mut front, b": ")?;
    put(&mut front, data_word(ty))?;
    put(&mut front, b" := ")?;
    if index == 0 {
        return one_span(view, 0, &front, 3, first);
    }
    put_part(&mut front, view, 3, first)?;
    put(&mut front, b" in ")?;
    span_under(&*view, &entry, index - 1, &front, body)
}

fn cells_span(
    view: &View<'_, '_>,
    index: usize,
    p: &Phrase,
    count: &Phrase,
    body: &Phrase,
) -> Result<Option<Span>, OutOfMemory>
    ensures { IfOk result (λ o. option_map span_read o ≡ slice_get (two (codes "newintseq ") (part_in view.now 11 (reads count.now))
        (codes " (\\" ++ entry_name (bound_of (known_in view.now) (scope_in view.now) (reads p.now)) ++ codes ": intvarseq. ")
        (part view.now.manner 3 (form (known_in view.now) (bound_of (known_in view.now) (scope_in view.now) (reads p.now) ∷ scope_in view.now) (reads body.now)))) index) }
{
    if index == 0 {
        return one_span(view, 0, b"newintseq ", 11, count);
    }
    let entry = bound(view, p)?;
    let mut front = b"newintseq ".to_vec(view.alloc)?;
    put_part(&mut front, view, 11, count)?;
    put(&mut front, b" (\\")?;
    put_one(&mut front, &entry)?;
    put(&mut front, b": intvarseq. ")?;
    span_under(&*view, &entry, index - 1, &front, body)
}

fn escape_span(
    view: &View<'_, '_>,
    index: usize,
    p: &Phrase,
    body: &Phrase,
) -> Result<Option<Span>, OutOfMemory>
    ensures { IfOk result (λ o. option_map span_read o ≡ slice_get (one (codes "escape " ++ entry_name (bound_of (known_in view.now) (scope_in view.now) (reads p.now)) ++ codes " in ")
        (part view.now.manner 3 (form (known_in view.now) (bound_of (known_in view.now) (scope_in view.now) (reads p.now) ∷ scope_in view.now) (reads body.now)))) index) }
{
    let entry = bound(view, p)?;
    let mut front = b"escape ".to_vec(view.alloc)?;
    put_one(&mut front, &entry)?;
    put(&mut front, b" in ")?;
    span_under(&*view, &entry, index, &front, body)
}

fn accept_span(
    view: &View<'_, '_>,
    index: usize,
    p: &Phrase,
    ty: DataTy,
    body: &Phrase,
) -> Result<Option<Span>, OutOfMemory>
    ensures { IfOk result (λ o. option_map span_read o ≡ slice_get (one (codes "accept " ++ entry_name (bound_of (known_in view.now) (scope_in view.now) (reads p.now))
        ++ codes ": " ++ data_word_of ty ++ codes " in ")
        (part view.now.manner 3 (form (known_in view.now) (bound_of (known_in view.now) (scope_in view.now) (reads p.now) ∷ scope_in view.now) (reads body.now)))) index) }
{
    let entry = bound(view, p)?;
    let mut front = b"accept ".to_vec(view.alloc)?;
    put_one(&mut front, &entry)?;
    put(&mut front, b": ")?;
    put(&mut front, data_word(ty))?;
    put(&mut front, b" in ")?;
    span_under(&*view, &entry, index, &front, body)
}

fn put_span(
    view: &View<'_, '_>,
    index: usize,
    kind: PutKind,
    p: &Phrase,
) -> Result<Option<Span>, OutOfMemory>
    ensures { IfOk result (λ o. option_map span_read o
        ≡ slice_get (one (put_word_of kind ++ codes " ") (part_in view.now 11 (reads p.now))) index) }
{
    let mut front = put_word(kind).to_vec(view.alloc)?;
    put(&mut front, b" ")?;
    one_span(view, index, &front, 11, p)
}
