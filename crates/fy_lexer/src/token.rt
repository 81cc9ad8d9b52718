//! Tokens, and the spellings of words and symbols.

use fy_base::{Place, Text};
use fy_types::Name;

/// A word of the language.
#[derive(Clone, Copy, PartialEq, Eq, Debug)]
pub enum Keyword {
    Let,
    Letrec,
    Lettype,
    Where,
    In,
    New,
    Escape,
    Accept,
    If,
    Then,
    Else,
    While,
    Do,
    Loop,
    Seq,
    Skip,
    True,
    False,
    And,
    Or,
    Not,
    Ord,
    Chr,
    Div,
    Rem,
    Ns,
    Int,
    Bool,
    Char,
    Comm,
    Compl,
    IntAcc,
    BoolAcc,
    CharAcc,
}

/// A symbol of the language.
#[derive(Clone, Copy, PartialEq, Eq, Debug)]
pub enum Symbol {
    /// `(`
    OpenParen,
    /// `)`
    CloseParen,
    /// `,`
    Comma,
    /// `;`
    Semicolon,
    /// `:`
    Colon,
    /// `:=`
    ColonEquals,
    /// `==`
    EqualsEquals,
    /// `=`
    Equals,
    /// `<>`
    LessGreater,
    /// `<`
    Less,
    /// `<=`
    LessEquals,
    /// `>`
    Greater,
    /// `>=`
    GreaterEquals,
    /// `+`
    Plus,
    /// `-`
    Minus,
    /// `*`
    Star,
    /// `.`
    Dot,
    /// `->`
    Arrow,
    /// `&`
    Ampersand,
    /// `|`
    Bar,
    /// `\`
    Backslash,
}

/// What a token is.
#[derive(Debug, Drop)]
pub enum TokenKind {
    /// An identifier: a letter, then letters, digits and `_`, and no word.
    Ident(Name),
    /// An integer, from 0 to 9223372036854775807.
    Number(i64),
    /// A character, as its byte.
    Letter(u8),
    /// A string, as the bytes that its elements stand for.
    Str(Text),
    Word(Keyword),
    Sym(Symbol),
    /// The end of the text.
    End,
}

/// A token and the place of its first byte.
#[derive(Debug, Drop)]
pub struct Token {
    pub kind: TokenKind,
    pub place: Place,
}

// The words and their spellings.
pub(crate) const KEYWORDS: [(&[u8], Keyword); 34] = [
    (b"let", Keyword::Let),
    (b"letrec", Keyword::Letrec),
    (b"lettype", Keyword::Lettype),
    (b"where", Keyword::Where),
    (b"in", Keyword::In),
    (b"new", Keyword::New),
    (b"escape", Keyword::Escape),
    (b"accept", Keyword::Accept),
    (b"if", Keyword::If),
    (b"then", Keyword::Then),
    (b"else", Keyword::Else),
    (b"while", Keyword::While),
    (b"do", Keyword::Do),
    (b"loop", Keyword::Loop),
    (b"seq", Keyword::Seq),
    (b"skip", Keyword::Skip),
    (b"true", Keyword::True),
    (b"false", Keyword::False),
    (b"and", Keyword::And),
    (b"or", Keyword::Or),
    (b"not", Keyword::Not),
    (b"ord", Keyword::Ord),
    (b"chr", Keyword::Chr),
    (b"div", Keyword::Div),
    (b"rem", Keyword::Rem),
    (b"ns", Keyword::Ns),
    (b"int", Keyword::Int),
    (b"bool", Keyword::Bool),
    (b"char", Keyword::Char),
    (b"comm", Keyword::Comm),
    (b"compl", Keyword::Compl),
    (b"intacc", Keyword::IntAcc),
    (b"boolacc", Keyword::BoolAcc),
    (b"characc", Keyword::CharAcc),
];

// The symbols and their spellings.
pub(crate) const SYMBOLS: [(&[u8], Symbol); 21] = [
    (b"(", Symbol::OpenParen),
    (b")", Symbol::CloseParen),
    (b",", Symbol::Comma),
    (b";", Symbol::Semicolon),
    (b":", Symbol::Colon),
    (b":=", Symbol::ColonEquals),
    (b"==", Symbol::EqualsEquals),
    (b"=", Symbol::Equals),
    (b"<>", Symbol::LessGreater),
    (b"<", Symbol::Less),
    (b"<=", Symbol::LessEquals),
    (b">", Symbol::Greater),
    (b">=", Symbol::GreaterEquals),
    (b"+", Symbol::Plus),
    (b"-", Symbol::Minus),
    (b"*", Symbol::Star),
    (b".", Symbol::Dot),
    (b"->", Symbol::Arrow),
    (b"&", Symbol::Ampersand),
    (b"|", Symbol::Bar),
    (b"\\", Symbol::Backslash),
];
