//! Programs, read.

ghost use Rattle.std.specs.Prelude.{◌≡◌, IfOk, IfErr};
ghost use Rattle.fy_syntax.specs.Reading.{tree_of};
ghost use Rattle.fy_grammar.specs.Program.{IsEnded, IsRefusal, IsTheProgram, is_over as is_over_of};

use crate::cursor::front;
use crate::error::ParseError;
use crate::stop::Stop;
use crate::terms::phrase;
use fy_lexer::{Token, TokenKind};
use fy_syntax::Surface;
use std::alloc::Global;

// The nesting that is left below a term of the outermost level, where 256 nodes may stand on one path.
const LEFT: u32 = 255;

/// The tree of nesting at most 256 that the tokens before the end spell as a program, by the grammar of Forsythe
/// (Reynolds, "Design of the Programming Language Forsythe", CMU-CS-96-146, 1996). It is the only tree that they
/// spell. The list ends with `End` and has no other.
///
/// It is refused exactly where no tree of nesting at most 256 is spelled, at the place of the first token such that no
/// program of nesting at most 256 begins with the tokens up to it: `TooDeep` where some deeper program begins with them,
/// else `Syntax`.
#[tactic(auto, using(crate::proofs::Programs::program_left))]
pub fn parse(alloc: Global, tokens: &[Token]) -> Result<Surface, ParseError>
    requires { IsEnded tokens.now }
    ensures ok { IfOk result (λ tree. IsTheProgram tokens.now (tree_of tree)) }
    ensures err { IfErr result (IsRefusal tokens.now) }
{
    match phrase(alloc, LEFT, tokens) {
        Ok((tree, rest)) => {
            if is_over(rest) {
                Ok(tree)
            } else {
                Err(ParseError::Syntax(front(rest)))
            }
        }
        Err(Stop::Wrong(rest)) => Err(ParseError::Syntax(front(rest))),
        Err(Stop::Deep(rest)) => Err(ParseError::TooDeep(front(rest))),
        Err(Stop::OutOfMemory) => Err(ParseError::OutOfMemory),
    }
}

// Whether the end alone is left.
fn is_over(tokens: &[Token]) -> bool
    ensures { result ≡ is_over_of tokens.now }
{
    match tokens {
        [last] => matches!(last.kind, TokenKind::End),
        _ => false,
    }
}
