//! Operators, and what begins an operand.

ghost use Rattle.std.specs.Prelude.{◌≡◌};
ghost use Rattle.fy_syntax.specs.Reader.{
  kind_at as kind_of,
  operator_at as operator_of,
  operator_kind,
  prefix_kind,
  starts as starts_of,
};
ghost use Rattle.fy_grammar.specs.Levels.{level_of};

use crate::cursor::kind_at;
use crate::level::Level;
use fy_base::{BinOp, UnOp};
use fy_lexer::{Keyword, Symbol, Token, TokenKind};

// The operator that stands in front of an operand here.
pub(crate) fn prefix_at(tokens: &[Token]) -> Option<UnOp>
    ensures { result ≡ prefix_kind (kind_of tokens.now) }
{
    let Some(kind) = kind_at(tokens) else {
        return None;
    };
    match kind {
        TokenKind::Sym(symbol) => match symbol {
            Symbol::Minus => Some(UnOp::Neg),
            _ => None,
        },
        TokenKind::Word(word) => match word {
            Keyword::Not => Some(UnOp::Not),
            Keyword::Ord => Some(UnOp::Ord),
            Keyword::Chr => Some(UnOp::Chr),
            _ => None,
        },
        _ => None,
    }
}

// The operator that stands between two operands here.
fn any_operator_at(tokens: &[Token]) -> Option<BinOp>
    ensures { result ≡ operator_kind (kind_of tokens.now) }
{
    let Some(kind) = kind_at(tokens) else {
        return None;
    };
    match kind {
        TokenKind::Word(word) => match word {
            Keyword::Or => Some(BinOp::Or),
            Keyword::And => Some(BinOp::And),
            Keyword::Div => Some(BinOp::Div),
            Keyword::Rem => Some(BinOp::Rem),
            _ => None,
        },
        TokenKind::Sym(symbol) => match symbol {
            Symbol::Equals => Some(BinOp::Eq),
            Symbol::LessGreater => Some(BinOp::Ne),
            Symbol::Less => Some(BinOp::Lt),
            Symbol::LessEquals => Some(BinOp::Le),
            Symbol::Greater => Some(BinOp::Gt),
            Symbol::GreaterEquals => Some(BinOp::Ge),
            Symbol::Plus => Some(BinOp::Add),
            Symbol::Minus => Some(BinOp::Sub),
            Symbol::Star => Some(BinOp::Mul),
            _ => None,
        },
        _ => None,
    }
}

// The operator of this level that stands here.
pub(crate) fn operator_at(level: Level, tokens: &[Token]) -> Option<BinOp>
    ensures { result ≡ operator_of (level_of level) tokens.now }
{
    let op = any_operator_at(tokens)?;
    if Level::of_operator(op).number() == level.number() {
        Some(op)
    } else {
        None
    }
}

// Whether a primary begins here.
pub(crate) fn starts(tokens: &[Token]) -> bool
    ensures { result ≡ starts_of tokens.now }
{
    let Some(kind) = kind_at(tokens) else {
        return false;
    };
    match kind {
        TokenKind::Ident(_) | TokenKind::Number(_) | TokenKind::Letter(_) | TokenKind::Str(_) => {
            true
        }
        TokenKind::Word(word) => match word {
            Keyword::True | Keyword::False | Keyword::Skip | Keyword::Seq => true,
            _ => false,
        },
        TokenKind::Sym(symbol) => match symbol {
            Symbol::OpenParen => true,
            _ => false,
        },
        TokenKind::End => false,
    }
}
