//! The names of rules.

ghost use Rattle.std.specs.Prelude.{◌≡◌, ◌++◌, OnOk};
ghost use Rattle.fy_phrase.specs.Reads.{reads};
ghost use Rattle.fy_derive.specs.Reading.{plain_derivation, plain_derivations};
ghost use Rattle.fy_tree.specs.Lines.{form_rule, has_derivations, has_premises as has_premises_of, node_rule};

use fy_base::OutOfMemory;
use fy_derive::{Derivation, DerivationList};
use fy_phrase::Phrase;
use fy_short::{put, put_number};

fn form_word(p: &Phrase) -> &'static [u8]
    ensures { result.now ≡ form_rule (reads p.now) }
{
    match p {
        Phrase::Var(..) => b"name",
        Phrase::Lit(..) => b"literal",
        Phrase::Unary(..) => b"prefix",
        Phrase::Binary(..) => b"operator",
        Phrase::Cond(..) => b"if",
        Phrase::Case(..) => b"part",
        Phrase::Lam(..) => b"abs",
        Phrase::App(..) => b"call",
        Phrase::Field(..) => b"field",
        Phrase::Sel(..) => b"select",
        Phrase::Merge(..) => b"merge",
        Phrase::LetIn(..) => b"let",
        Phrase::Rec(..) => b"letrec",
        Phrase::Skip(_) => b"skip",
        Phrase::Seq(..) => b";",
        Phrase::Assign(..) => b":=",
        Phrase::WhileDo(..) => b"while",
        Phrase::Forever(..) => b"loop",
        Phrase::New(..) => b"new",
        Phrase::Cells(..) => b"newintseq",
        Phrase::Escape(..) => b"escape",
        Phrase::Accept(..) => b"accept",
        Phrase::Put(..) => b"put",
        Phrase::Read(..) => b"read",
        Phrase::Mark(..) => b"mark",
    }
}

/// Puts the name of the node's rule behind the text.
pub(crate) fn put_rule(text: &mut Vec<u8>, d: &Derivation, p: &Phrase) -> Result<(), OutOfMemory>
    ensures { OnOk result (text.new.items ≡ text.old.items ++ node_rule (plain_derivation d.now) (reads p.now)) }
{
    match d {
        Derivation::Ns => put(text, b"ns"),
        Derivation::Sub(..) => put(text, b"sub"),
        Derivation::Meet(_) => put(text, b"meet"),
        Derivation::Alt(index, _) => {
            put(text, b"abs ")?;
            put_number(text, *index as usize)
        }
        Derivation::Left(_) => put(text, b"merge left"),
        Derivation::Right(_) => put(text, b"merge right"),
        Derivation::Rule(_) => put(text, form_word(p)),
    }
}

/// Whether the node has premises.
pub(crate) fn has_premises(d: &Derivation) -> bool
    ensures { result ≡ has_premises_of (plain_derivation d.now) }
{
    match d {
        Derivation::Ns => false,
        Derivation::Sub(..) | Derivation::Alt(..) | Derivation::Left(_) | Derivation::Right(_) =>
            true,
        Derivation::Meet(list) => has_some(list),
        Derivation::Rule(list) => has_some(list),
    }
}

fn has_some(list: &DerivationList) -> bool
    ensures { result ≡ has_derivations (plain_derivations list.now) }
{
    list.len() > 0
}
