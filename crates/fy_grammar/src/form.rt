//! The forms of terms that a word, a backslash or a defined name begins.

ghost use Rattle.std.specs.Prelude.{◌≡◌};
ghost use Rattle.fy_grammar.specs.Forms.{field_name_at as field_name_of, forcing as forcing_of, form_at as form_of};

use crate::cursor::{behind, is_symbol, kind_at};
use fy_lexer::{Keyword, Symbol, Token, TokenKind};
use fy_types::Name;

#[derive(Clone, Copy, Debug)]
pub(crate) enum Form {
    Lam,
    Let,
    Letrec,
    Lettype,
    New,
    Escape,
    Accept,
    Cond,
    While,
    Loop,
    /// `i == p`
    Field(Name),
}

// The form that begins here, if one does.
pub(crate) fn form_at(tokens: &[Token]) -> Option<Form>
    ensures { result ≡ form_of tokens.now }
{
    let Some(kind) = kind_at(tokens) else {
        return None;
    };
    match kind {
        TokenKind::Sym(symbol) => match symbol {
            Symbol::Backslash => Some(Form::Lam),
            _ => None,
        },
        TokenKind::Word(word) => match word {
            Keyword::Let => Some(Form::Let),
            Keyword::Letrec => Some(Form::Letrec),
            Keyword::Lettype => Some(Form::Lettype),
            Keyword::New => Some(Form::New),
            Keyword::Escape => Some(Form::Escape),
            Keyword::Accept => Some(Form::Accept),
            Keyword::If => Some(Form::Cond),
            Keyword::While => Some(Form::While),
            Keyword::Loop => Some(Form::Loop),
            _ => None,
        },
        TokenKind::Ident(name) => {
            if is_symbol(Symbol::EqualsEquals, behind(tokens)) {
                Some(Form::Field(*name))
            } else {
                None
            }
        }
        _ => None,
    }
}

// The tokens from the one that shows the form.
pub(crate) fn forcing(form: Form, tokens: &[Token]) -> &[Token]
    ensures { result.now ≡ forcing_of form tokens.now }
{
    match form {
        Form::Field(_) => behind(tokens),
        _ => tokens,
    }
}

// The name that stands before a colon here.
pub(crate) fn field_name_at(tokens: &[Token]) -> Option<Name>
    ensures { result ≡ field_name_of tokens.now }
{
    let Some(kind) = kind_at(tokens) else {
        return None;
    };
    match kind {
        TokenKind::Ident(name) => {
            if is_symbol(Symbol::Colon, behind(tokens)) {
                Some(*name)
            } else {
                None
            }
        }
        _ => None,
    }
}
