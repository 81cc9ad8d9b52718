//! The bytes and the words of a derivation's text.

ghost use Rattle.std.specs.Prelude.{◌≡◌, map};
ghost use Rattle.std.specs.List.{list_any};
ghost use Rattle.std.specs.Str.{bytes_eq};
ghost use Rattle.fy_types.specs.Reading.{plain_type};
ghost use Rattle.fy_types.specs.Words.{is_letter, is_digit, is_name_byte, is_word};
ghost use Rattle.fy_read.specs.Spelling.{is_blank};
ghost use Rattle.fy_read.specs.Steps.{node_word, begins_node_word, type_word, part_type};

use fy_types::{Atom, Ty};

/// A blank: line feed or space.
pub fn is_blank(byte: u8) -> bool
    ensures { result ≡ is_blank byte }
{
    matches!(byte, b'\n' | b' ')
}

/// A letter, A to Z or a to z.
pub fn is_letter(byte: u8) -> bool
    ensures { result ≡ is_letter byte }
{
    matches!(byte, b'A'..=b'Z' | b'a'..=b'z')
}

/// A digit, 0 to 9.
pub fn is_digit(byte: u8) -> bool
    ensures { result ≡ is_digit byte }
{
    matches!(byte, b'0'..=b'9')
}

/// A byte that goes on with a word: a letter, a digit or `_`.
pub fn is_name_byte(byte: u8) -> bool
    ensures { result ≡ is_name_byte byte }
{
    is_letter(byte) || is_digit(byte) || byte == b'_'
}

/// The word that begins a node.
#[derive(Clone, Copy, PartialEq, Eq, Debug)]
pub enum NodeWord {
    Ns,
    Sub,
    Meet,
    Alt,
    Left,
    Right,
    Rule,
}

/// The node that the letters are the word of.
#[tactic(auto, using(crate::proofs::WordReads::node_reads), unfolding(crate::specs::Steps::node_words))]
pub fn node_word(letters: &[u8]) -> Option<NodeWord>
    ensures { result ≡ node_word letters.now }
{
    match letters {
        b"ns" => Some(NodeWord::Ns),
        b"sub" => Some(NodeWord::Sub),
        b"meet" => Some(NodeWord::Meet),
        b"alt" => Some(NodeWord::Alt),
        b"left" => Some(NodeWord::Left),
        b"right" => Some(NodeWord::Right),
        b"rule" => Some(NodeWord::Rule),
        _ => None,
    }
}

/// Whether the word of a node begins with the letters.
#[tactic(auto, using(crate::proofs::WordReads::node_beginnings), unfolding(crate::specs::Steps::node_words))]
pub fn begins_node_word(letters: &[u8]) -> bool
    ensures { result ≡ begins_node_word letters.now }
{
    matches!(
        letters,
        b"" | b"n"
            | b"ns"
            | b"s"
            | b"su"
            | b"sub"
            | b"m"
            | b"me"
            | b"mee"
            | b"meet"
            | b"a"
            | b"al"
            | b"alt"
            | b"l"
            | b"le"
            | b"lef"
            | b"left"
            | b"r"
            | b"ri"
            | b"rig"
            | b"righ"
            | b"right"
            | b"ru"
            | b"rul"
            | b"rule"
    )
}

/// A word that is a type.
#[derive(Clone, Copy, PartialEq, Eq, Debug)]
pub enum TypeWord {
    Ns,
    Atom(Atom),
}

/// The type that the letters are the word of.
#[tactic(auto, using(crate::proofs::WordReads::type_reads), unfolding(crate::specs::Steps::type_words))]
pub fn type_word(letters: &[u8]) -> Option<TypeWord>
    ensures { result ≡ type_word letters.now }
{
    match letters {
        b"ns" => Some(TypeWord::Ns),
        b"int" => Some(TypeWord::Atom(Atom::Int)),
        b"bool" => Some(TypeWord::Atom(Atom::Bool)),
        b"char" => Some(TypeWord::Atom(Atom::Char)),
        b"comm" => Some(TypeWord::Atom(Atom::Comm)),
        b"compl" => Some(TypeWord::Atom(Atom::Compl)),
        b"intacc" => Some(TypeWord::Atom(Atom::IntAcc)),
        b"boolacc" => Some(TypeWord::Atom(Atom::BoolAcc)),
        b"characc" => Some(TypeWord::Atom(Atom::CharAcc)),
        _ => None,
    }
}

impl TypeWord {
    /// The type.
    pub fn to_type(self) -> Ty
        ensures { plain_type result ≡ part_type self }
    {
        match self {
            TypeWord::Ns => Ty::Ns,
            TypeWord::Atom(atom) => Ty::Atom(atom),
        }
    }
}

const WORDS: [&[u8]; 34] = [
    b"let", b"letrec", b"lettype", b"where", b"in", b"new", b"escape", b"accept", b"if", b"then",
    b"else", b"while", b"do", b"loop", b"seq", b"skip", b"true", b"false", b"and", b"or", b"not",
    b"ord", b"chr", b"div", b"rem", b"ns", b"int", b"bool", b"char", b"comm", b"compl", b"intacc",
    b"boolacc", b"characc",
];

/// Whether the letters are one of the language's words, and so no identifier.
pub fn is_word(letters: &[u8]) -> bool
    ensures { result ≡ is_word letters.now }
{
    any_is(&WORDS, letters)
}

// Whether a text is one of these.
fn any_is(texts: &[&[u8]], text: &[u8]) -> bool
    ensures { result ≡ list_any (bytes_eq text.now) (map (λ t. t.now) texts.now) }
{
    for other in texts {
        if text == *other {
            return true;
        }
    }
    false
}
