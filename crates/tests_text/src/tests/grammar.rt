use fy_grammar::parse;
use fy_lexer::lex;
use fy_syntax::{Surface, nesting};
use fy_types::Names;
use std::alloc::Global;
use std::test::Fail;

// The tree of a text.
#[tactic(auto, using(crate::proofs::Ended::lexed_ended))]
fn tree_of(alloc: Global, text: &[u8]) -> Result<Surface, Fail> {
    if text.len() > 1048576 {
        return Err(Fail::from("past the limits"));
    }
    let mut names = Names::new(alloc)?;
    let tokens = lex(alloc, &mut names, text)?;
    Ok(parse(alloc, tokens.as_slice())?)
}

#[test]
fn reads_a_program(rt: HostRuntime) -> Result<(), Fail> {
    let tree = tree_of(rt.alloc(), b"putint(1+2)")?;
    let Surface::Apply(procedure, arguments, _) = &tree else {
        return Err(Fail::from("an application"));
    };
    assert!(rt; matches!(&**procedure, Surface::Ident(1, _)));
    assert!(rt; matches!(arguments.as_slice(), [Surface::Group(..)]));
    assert_eq!(rt; nesting(&tree), 2);
    Ok(())
}
