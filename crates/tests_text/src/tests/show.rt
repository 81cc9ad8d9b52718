use fy_base::Text;
use fy_expand::expand;
use fy_grammar::parse;
use fy_lexer::lex;
use fy_show::{KnownNames, Manner, ScopeTexts, View, print_short, print_shown, program_binders};
use fy_types::Names;
use std::alloc::Global;
use std::test::Fail;

const ROWS: &[(&[u8], &[u8])] = &[
    (b"putint(1+2*3)", b" in putint (1 + 2 * 3)"),
    (
        b"let a==1 in let a==10,b==a+1 in putint(a+b)",
        b" in let a == 1 in let a_1 == 10 in let b == a + 1 in putint (a_1 + b)",
    ),
    (
        b"letrec f:int->int where f==\\n:int.f(n-1) in new v:int:=f 2 in (v:=3;v:=4;skip)",
        b" in letrec f: int -> int where f == \\n: int. f (n - 1) in new v: int := f 2 in (v := 3; v := 4; skip)",
    ),
    (
        b"let s==seq(1,2),t==\"a\\n\" in if s 0=1 then putchar(t 1) else skip",
        b" in let s == seq(1, 2) in let t == \"a\\n\" in if s 0 = 1 then putchar (t 1) else skip",
    ),
    (
        b"newintseq 2(\\a:intvarseq.a 0:=a.len)",
        b" in newintseq 2 (\\a: (int -> intvar) & (len: int). a 0 := a.len)",
    ),
];

// The text of a program with its prelude, whole, or short of so many bytes.
#[tactic(auto, using(crate::proofs::Ended::lexed_ended))]
fn shown(alloc: Global, text: &[u8], limit: Option<usize>) -> Result<Text, Fail> {
    if text.len() > 1048576 {
        return Err(Fail::from("past the limits"));
    }
    let mut names = Names::new(alloc)?;
    let tokens = lex(alloc, &mut names, text)?;
    let tree = parse(alloc, tokens.as_slice())?;
    let phrase = expand(alloc, &tree)?;
    let binders = program_binders(alloc, phrase.place(), &tree)?;
    let known = KnownNames {
        names: &names,
        binders: &binders,
    };
    let view = View {
        alloc,
        known: &known,
        scope: &ScopeTexts::Empty,
        manner: Manner::Whole,
    };
    match limit {
        Some(limit) => Ok(print_short(&view, limit, &phrase)?),
        None => Ok(print_shown(&view, &phrase)?),
    }
}

#[test]
fn shows_phrases_with_their_names(rt: HostRuntime) -> Result<(), Fail> {
    for (text, due) in ROWS {
        let shown = shown(rt.alloc(), text, None)?;
        assert!(rt; shown.as_slice().ends_with(due));
    }
    Ok(())
}

#[test]
fn cuts_what_is_too_long(rt: HostRuntime) -> Result<(), Fail> {
    let bare = shown(rt.alloc(), b"skip", Some(40))?;
    assert_eq!(rt; bare.as_slice(), b"let putint == .. in ..".as_slice());
    let dots = shown(rt.alloc(), b"skip", Some(10))?;
    assert_eq!(rt; dots.as_slice(), b"..".as_slice());
    Ok(())
}
