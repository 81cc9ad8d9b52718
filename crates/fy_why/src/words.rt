//! Words for operators, parts and binders.

ghost use Rattle.std.specs.Prelude.{◌≡◌, ◌++◌, ◌==◌, OnOk, if◌then◌else◌};
ghost use Rattle.fy_phrase.specs.Reads.{reads};
ghost use Rattle.fy_why.specs.Origins.{binder_word as binder_word_of, defined_word as defined_word_of};
ghost use Rattle.fy_why.specs.Sentences.{
  operator_of,
  operator_sign as operator_sign_of,
  place_text,
  prefix_sign as prefix_sign_of,
  quoted,
  role,
  selected,
  separator_text,
};

use fy_base::{BinOp, OutOfMemory, Place, UnOp};
use fy_phrase::Phrase;
use fy_short::{put, put_name, put_number};
use fy_types::Names;

/// Puts the text between back quotes behind the other.
pub(crate) fn put_quoted(text: &mut Vec<u8>, word: &[u8]) -> Result<(), OutOfMemory>
    ensures { OnOk result (text.new.items ≡ text.old.items ++ quoted word.now) }
{
    put(text, b"`")?;
    put(text, word)?;
    put(text, b"`")
}

/// Puts the place behind the text.
pub(crate) fn put_place(text: &mut Vec<u8>, at: Place) -> Result<(), OutOfMemory>
    ensures { OnOk result (text.new.items ≡ text.old.items ++ place_text at) }
{
    put_number(text, at.line as usize)?;
    put(text, b":")?;
    put_number(text, at.col as usize)
}

/// What stands behind a member that so many follow.
pub(crate) fn separator(left: usize) -> &'static [u8]
    ensures { result.now ≡ separator_text left }
{
    match left {
        0 => b"",
        1 => b" or ",
        _ => b", ",
    }
}

/// Puts what the part of the phrase with the index is behind the text.
pub(crate) fn put_role(text: &mut Vec<u8>, p: &Phrase, index: usize) -> Result<(), OutOfMemory>
    ensures { OnOk result (text.new.items ≡ text.old.items ++ role (reads p.now) index) }
{
    match p {
        Phrase::Unary(op, _, _) => {
            put(text, b"operand of ")?;
            put_quoted(text, prefix_sign(*op))
        }
        Phrase::Binary(op, _, _, _) => {
            put(text, first_or(index, b"left", b"right"))?;
            put(text, b" operand of ")?;
            put_quoted(text, operator_sign(*op))
        }
        Phrase::Cond(..) => put(text, b"condition"),
        Phrase::Case(..) => put(text, b"index"),
        Phrase::Seq(..) => {
            let word = first_or(index, b"command before `;`", b"command after `;`");
            put(text, word)
        }
        Phrase::Assign(..) => put(text, b"value"),
        Phrase::WhileDo(..) => put(text, first_or(index, b"condition", b"body")),
        Phrase::New(..) => put(text, first_or(index, b"value", b"body")),
        Phrase::Cells(..) => put(text, first_or(index, b"length", b"body")),
        Phrase::Forever(..) | Phrase::Escape(..) | Phrase::Accept(..) => put(text, b"body"),
        Phrase::Put(..) | Phrase::Read(..) => put(text, b"argument"),
        Phrase::Var(..)
        | Phrase::Lit(..)
        | Phrase::Lam(..)
        | Phrase::App(..)
        | Phrase::Field(..)
        | Phrase::Sel(..)
        | Phrase::Merge(..)
        | Phrase::LetIn(..)
        | Phrase::Rec(..)
        | Phrase::Skip(_)
        | Phrase::Mark(..) => put(text, b"part"),
    }
}

fn first_or(index: usize, first: &'static [u8], other: &'static [u8]) -> &'static [u8]
    ensures { result.now ≡ (if index == 0 then first.now else other.now) }
{
    if index == 0 { first } else { other }
}

fn prefix_sign(op: UnOp) -> &'static [u8]
    ensures { result.now ≡ prefix_sign_of op }
{
    match op {
        UnOp::Neg => b"-",
        UnOp::Not => b"not",
        UnOp::Ord => b"ord",
        UnOp::Chr => b"chr",
    }
}

fn operator_sign(op: BinOp) -> &'static [u8]
    ensures { result.now ≡ operator_sign_of op }
{
    match op {
        BinOp::Or => b"or",
        BinOp::And => b"and",
        BinOp::Eq => b"=",
        BinOp::Ne => b"<>",
        BinOp::Lt => b"<",
        BinOp::Le => b"<=",
        BinOp::Gt => b">",
        BinOp::Ge => b">=",
        BinOp::Add => b"+",
        BinOp::Sub => b"-",
        BinOp::Mul => b"*",
        BinOp::Div => b"div",
        BinOp::Rem => b"rem",
    }
}

/// The operator of a phrase, if it has one between two others.
pub(crate) fn operator_in(p: &Phrase) -> &'static [u8]
    ensures { result.now ≡ operator_of (reads p.now) }
{
    match p {
        Phrase::Binary(op, _, _, _) => operator_sign(*op),
        _ => b"",
    }
}

/// Puts the name of the field that a phrase selects behind the text.
pub(crate) fn put_selected(text: &mut Vec<u8>, names: &Names, p: &Phrase) -> Result<(), OutOfMemory>
    ensures { OnOk result (text.new.items ≡ text.old.items ++ selected names.now (reads p.now)) }
{
    match p {
        Phrase::Sel(_, name, _) => put_name(text, names, *name),
        _ => Ok(()),
    }
}

/// What binds a name.
pub(crate) fn binder_word(binder: &Phrase) -> &'static [u8]
    ensures { result.now ≡ binder_word_of (reads binder.now) }
{
    match binder {
        Phrase::Lam(..) => b"a parameter",
        Phrase::LetIn(_, defined, _, _) => defined_word(defined),
        Phrase::Rec(..) => b"a name that `letrec` declares",
        Phrase::New(..) | Phrase::Cells(..) => b"a variable",
        Phrase::Escape(..) => b"the way out of an `escape`",
        Phrase::Accept(..) => b"the value that is accepted",
        Phrase::Var(..)
        | Phrase::Lit(..)
        | Phrase::Unary(..)
        | Phrase::Binary(..)
        | Phrase::Cond(..)
        | Phrase::Case(..)
        | Phrase::App(..)
        | Phrase::Field(..)
        | Phrase::Sel(..)
        | Phrase::Merge(..)
        | Phrase::Skip(_)
        | Phrase::Seq(..)
        | Phrase::Assign(..)
        | Phrase::WhileDo(..)
        | Phrase::Forever(..)
        | Phrase::Put(..)
        | Phrase::Read(..)
        | Phrase::Mark(..) => b"",
    }
}

// Of a `let` that a `letrec` means, and of any other.
fn defined_word(defined: &Phrase) -> &'static [u8]
    ensures { result.now ≡ defined_word_of (reads defined.now) }
{
    match defined {
        Phrase::Rec(..) => b"a name that `letrec` declares",
        _ => b"a name that `let` defines",
    }
}
