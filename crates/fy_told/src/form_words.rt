//! What phrases are called, and what their rules say.

ghost use Rattle.std.specs.Prelude.{◌≡◌, ◌-◌, ◌++◌, OnOk, codes, decimal, length};
ghost use Rattle.fy_reasons.specs.Expected.{taken_by};
ghost use Rattle.fy_phrase.specs.Reads.{reads};
ghost use Rattle.fy_told.specs.ReasonTexts.{alternative_wanted, form_text, names_of, operands_text, premise_count, rule_text, rule_wanted, separator_text, wants_text};

use fy_base::{BinOp, OutOfMemory};
use fy_derive::{
    acceptor_atom, binary_atom, data_atom, datum_atom, operand_atom, put_atom, unary_atom,
};
use fy_phrase::Phrase;
use fy_short::{put, put_number, word_of};
use fy_types::Ty;

/// What the phrase is.
pub(crate) fn form_word(p: &Phrase) -> &'static [u8]
    ensures { result.now ≡ form_text (reads p.now) }
{
    match p {
        Phrase::Var(..) => b"a name",
        Phrase::Lit(..) => b"a literal",
        Phrase::Unary(..) => b"a prefix",
        Phrase::Binary(..) => b"an operator",
        Phrase::Cond(..) => b"a conditional",
        Phrase::Case(..) => b"a part of a sequence",
        Phrase::Lam(..) => b"an abstraction",
        Phrase::App(..) => b"a call",
        Phrase::Field(..) => b"a field",
        Phrase::Sel(..) => b"a selection",
        Phrase::Merge(..) => b"a merge",
        Phrase::LetIn(..) => b"a `let`",
        Phrase::Rec(..) => b"a `letrec`",
        Phrase::Skip(_) => b"`skip`",
        Phrase::Seq(..) => b"a sequence",
        Phrase::Assign(..) => b"an assignment",
        Phrase::WhileDo(..) => b"a `while`",
        Phrase::Forever(..) => b"a `loop`",
        Phrase::New(..) => b"a `new`",
        Phrase::Cells(..) => b"a new sequence",
        Phrase::Escape(..) => b"an `escape`",
        Phrase::Accept(..) => b"an `accept`",
        Phrase::Put(..) => b"an output",
        Phrase::Read(..) => b"an input",
        Phrase::Mark(..) => b"a mark",
    }
}

/// Puts from what the phrase's rule concludes what behind the text.
pub(crate) fn put_rule(text: &mut Vec<u8>, p: &Phrase) -> Result<(), OutOfMemory>
    ensures { OnOk result (text.new.items ≡ text.old.items ++ rule_text (reads p.now)) }
{
    match p {
        Phrase::Var(..) => put(text, b"from nothing follows the type of the name"),
        Phrase::Lit(v, _) => put_from(text, b"nothing", b" follows ", word_of(datum_atom(*v))),
        Phrase::Unary(op, _, _) => {
            let operand = word_of(operand_atom(*op));
            put_from(text, operand, b" follows ", word_of(unary_atom(*op)))
        }
        Phrase::Binary(op, _, _, _) => {
            put_from(
                text,
                operands_word(*op),
                b" follows ",
                word_of(binary_atom(*op)),
            )
        }
        Phrase::Cond(..) => put(text, b"from bool, A and A follows A"),
        Phrase::Case(..) => put(text, b"from int and A for each part follows A"),
        Phrase::App(..) => put(text, b"from A -> C and A follows C"),
        Phrase::Field(..) => put(text, b"from A follows i: A"),
        Phrase::Sel(..) => put(text, b"from i: A follows A"),
        Phrase::LetIn(..) => put(text, b"from A and C follows C, where the name has A"),
        Phrase::Rec(..) => put(text, b"from the declared type follows that type"),
        Phrase::Skip(_) => put(text, b"from nothing follows comm"),
        Phrase::Seq(..) => put(text, b"from comm and C follows C, which is comm or compl"),
        Phrase::Assign(..) => put(text, ASSIGNMENT),
        Phrase::WhileDo(..) => put(text, b"from bool and comm follows comm"),
        Phrase::Forever(..) => put(text, b"from comm follows compl"),
        Phrase::New(_, ty, _, _, _) => put_from(
            text,
            word_of(data_atom(*ty)),
            b" and C follows C, which is comm or compl",
            b"",
        ),
        Phrase::Cells(..) => { put(text, b"from int and C follows C, which is comm or compl") }
        Phrase::Escape(..) => put(text, b"from comm follows comm"),
        Phrase::Accept(_, ty, _, _) => {
            put_from(text, b"comm", b" follows ", word_of(acceptor_atom(*ty)))
        }
        Phrase::Put(kind, _, _) => {
            put_from(text, word_of(put_atom(*kind)), b" follows comm", b"")
        }
        Phrase::Read(..) => put(text, b"from intacc follows comm"),
        Phrase::Lam(..) | Phrase::Merge(..) | Phrase::Mark(..) => Ok(()),
    }
}

const ASSIGNMENT: &[u8] = b"from intacc, boolacc or characc and int, bool or char follows comm";

fn put_from(text: &mut Vec<u8>, premise: &[u8], word: &[u8], end: &[u8]) -> Result<(), OutOfMemory>
    ensures { OnOk result (text.new.items ≡ text.old.items ++ codes "from " ++ premise.now ++ word.now ++ end.now) }
{
    put(text, b"from ")?;
    put(text, premise)?;
    put(text, word)?;
    put(text, end)
}

// What an operator takes.
fn operands_word(op: BinOp) -> &'static [u8]
    ensures { result.now ≡ operands_text (names_of (taken_by op)) }
{
    match op {
        BinOp::Add | BinOp::Sub | BinOp::Mul | BinOp::Div | BinOp::Rem => b"int and int",
        BinOp::And | BinOp::Or => b"bool and bool",
        BinOp::Eq | BinOp::Ne => b"A and A, which is int, bool or char,",
        BinOp::Lt | BinOp::Le | BinOp::Gt | BinOp::Ge => b"A and A, which is int or char,",
    }
}

/// What stands before so many further members of a list.
pub(crate) fn separator(left: usize) -> &'static [u8]
    ensures { result.now ≡ separator_text left }
{
    match left {
        0 => b"",
        1 => b" or ",
        _ => b", ",
    }
}

/// Puts the node that the phrase wants behind the text.
pub(crate) fn put_wanted(text: &mut Vec<u8>, p: &Phrase) -> Result<(), OutOfMemory>
    ensures { OnOk result (text.new.items ≡ text.old.items ++ wants_text (reads p.now)) }
{
    put_wanted_alternative(text, p)?;
    put_wanted_rule(text, wanted_premises(p))
}

fn put_wanted_alternative(text: &mut Vec<u8>, p: &Phrase) -> Result<(), OutOfMemory>
    ensures { OnOk result (text.new.items ≡ text.old.items ++ alternative_wanted (reads p.now)) }
{
    match p {
        Phrase::Lam(_, types, _, _) => put_last(text, types.as_slice()),
        Phrase::Merge(..) => put(text, b"`left` or `right`"),
        _ => Ok(()),
    }
}

fn put_last(text: &mut Vec<u8>, types: &[Ty]) -> Result<(), OutOfMemory>
    ensures { OnOk result (text.new.items ≡ text.old.items ++ codes "`alt I`, I from 0 to " ++ decimal (length types.now - 1)) }
{
    put(text, b"`alt I`, I from 0 to ")?;
    put_number(text, types.len().saturating_sub(1))
}

// How many premises the phrase's rule has; abstractions, merges and marks have none.
fn wanted_premises(p: &Phrase) -> Option<u128>
    ensures { result ≡ premise_count (reads p.now) }
{
    match p {
        Phrase::Lam(..) | Phrase::Merge(..) | Phrase::Mark(..) => None,
        Phrase::Var(..) | Phrase::Lit(..) | Phrase::Skip(_) => Some(0),
        Phrase::Unary(..)
        | Phrase::Field(..)
        | Phrase::Sel(..)
        | Phrase::Rec(..)
        | Phrase::Forever(..)
        | Phrase::Escape(..)
        | Phrase::Accept(..)
        | Phrase::Put(..)
        | Phrase::Read(..) => Some(1),
        Phrase::Binary(..)
        | Phrase::App(..)
        | Phrase::LetIn(..)
        | Phrase::Seq(..)
        | Phrase::Assign(..)
        | Phrase::WhileDo(..)
        | Phrase::New(..)
        | Phrase::Cells(..) => Some(2),
        Phrase::Cond(..) => Some(3),
        Phrase::Case(_, parts, _) => Some(parts.as_slice().len() as u128 + 1),
    }
}

fn put_wanted_rule(text: &mut Vec<u8>, premises: Option<u128>) -> Result<(), OutOfMemory>
    ensures { OnOk result (text.new.items ≡ text.old.items ++ rule_wanted premises) }
{
    let Some(count) = premises else {
        return Ok(());
    };
    put(text, b"`rule ")?;
    put(text, itoa::Buffer::new().format(count).as_bytes())?;
    put(text, b"`")
}
