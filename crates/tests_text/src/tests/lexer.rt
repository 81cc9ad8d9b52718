use fy_lexer::{TokenKind, lex};
use fy_types::Names;
use std::alloc::Global;
use std::string::String;
use std::test::Fail;

// The kinds of a text's tokens but for the end, with one blank between, or the refusal.
fn told(alloc: Global, text: &[u8]) -> Result<String, Fail> {
    if text.len() > 1048576 {
        return Ok(String::from_str(alloc, "too long")?);
    }
    let mut names = Names::new(alloc)?;
    let tokens = match lex(alloc, &mut names, text) {
        Ok(tokens) => tokens,
        Err(error) => return Ok(format!(in alloc; "{error:?}")?),
    };
    let mut out = String::new(alloc);
    for token in &tokens {
        let kind = &token.kind;
        if !matches!(kind, TokenKind::End) {
            let blank = if out.is_empty() { "" } else { " " };
            out.push_str(format!(in alloc; "{blank}{kind:?}")?.as_str())?;
        }
    }
    Ok(out)
}

// Texts, and the kinds of their tokens.
const KINDS: [(&[u8], &str); 9] = [
    (
        b"let letrec lettype where in new escape accept if then else while do loop seq skip true false and or not ord chr div rem ns int bool char comm compl intacc boolacc characc",
        "Word(Let) Word(Letrec) Word(Lettype) Word(Where) Word(In) Word(New) Word(Escape) Word(Accept) Word(If) Word(Then) Word(Else) Word(While) Word(Do) Word(Loop) Word(Seq) Word(Skip) Word(True) Word(False) Word(And) Word(Or) Word(Not) Word(Ord) Word(Chr) Word(Div) Word(Rem) Word(Ns) Word(Int) Word(Bool) Word(Char) Word(Comm) Word(Compl) Word(IntAcc) Word(BoolAcc) Word(CharAcc)",
    ),
    (
        b"( ) , ; : := == = <> < <= > >= + - * . -> & | \\",
        "Sym(OpenParen) Sym(CloseParen) Sym(Comma) Sym(Semicolon) Sym(Colon) Sym(ColonEquals) Sym(EqualsEquals) Sym(Equals) Sym(LessGreater) Sym(Less) Sym(LessEquals) Sym(Greater) Sym(GreaterEquals) Sym(Plus) Sym(Minus) Sym(Star) Sym(Dot) Sym(Arrow) Sym(Ampersand) Sym(Bar) Sym(Backslash)",
    ),
    (
        b"<==<>=:===->>--",
        "Sym(LessEquals) Sym(Equals) Sym(LessGreater) Sym(Equals) Sym(ColonEquals) Sym(EqualsEquals) Sym(Arrow) Sym(Greater) Sym(Minus) Sym(Minus)",
    ),
    (
        b"len x lets x9_ x",
        "Ident(0) Ident(13) Ident(14) Ident(15) Ident(13)",
    ),
    (
        b"007 9223372036854775807 1a",
        "Number(7) Number(9223372036854775807) Number(1) Ident(13)",
    ),
    (
        br"'a' '\n' '\t' '\\' '\'' '\x4a' '\x4A' '\xfF'",
        "Letter(97) Letter(10) Letter(9) Letter(92) Letter(39) Letter(74) Letter(74) Letter(255)",
    ),
    (
        b"'\"' '\\\"' '\x80' '\xff' ' ' '~'",
        "Letter(34) Letter(34) Letter(128) Letter(255) Letter(32) Letter(126)",
    ),
    (
        b"\"\" \"a'\\\"\xc3\\x0a\"",
        "Str(ListOf { items: [] }) Str(ListOf { items: [97, 39, 34, 195, 10] })",
    ),
    (b"\t1\r\n{ { ' \" \xff }2{}", "Number(1) Number(2)"),
];

#[test]
fn reads_each_kind_of_token(rt: HostRuntime) -> Result<(), Fail> {
    for (text, wanted) in KINDS {
        let found = told(rt.alloc(), text)?;
        assert_eq!(rt; found.as_str(), wanted);
    }
    Ok(())
}

#[test]
fn tells_places(rt: HostRuntime) -> Result<(), Fail> {
    let mut names = Names::new(rt.alloc())?;
    let tokens = lex(rt.alloc(), &mut names, b"x\n \"\xc3\xa9\" {\n\n}<=y ")?;
    let wanted = [(1, 1), (2, 2), (4, 2), (4, 4), (4, 6)];
    assert_eq!(rt; tokens.len(), wanted.len());
    for (token, (line, col)) in tokens.iter().zip(wanted) {
        assert_eq!(rt; (token.place.line, token.place.col), (line, col));
    }
    assert_eq!(rt; names.text(14), Some(b"y".as_slice()));
    Ok(())
}
