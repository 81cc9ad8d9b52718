//! Tokens, one after another.

ghost use Rattle.std.specs.Prelude.{◌≡◌, ◌+◌, ◌<◌, ◌≤◌, List, Some, IfOk, IfErr, OnOk, IsSomeAnd, IsTrue, length, slice_get};
ghost use Rattle.std.specs.Map.{lookup};
ghost use Rattle.std.specs.Str.{bytes_eq};
ghost use Rattle.fy_base.specs.Outside.{Bytes};
ghost use Rattle.fy_types.specs.Words.{is_letter};
ghost use Rattle.fy_lexer.specs.Reading.{PieceFault, TakesGap, TakesLongest, TakesNamed, begins_no_gap, begins_other, reading_of, table_of};
ghost use Rattle.fy_lexer.specs.Spellings.{keyword_of, symbol_of};
ghost use Rattle.fy_lexer.specs.Tokens.{AreWithin, FaultAt, HasAdded, IsFaultOf, IsFit, IsTokensOf, IsWithin, Step};

use crate::error::LexError;
use crate::reader::{Class, Reader, is_blank, is_digit, is_letter};
use crate::token::{KEYWORDS, Keyword, SYMBOLS, Symbol, Token, TokenKind};
use fy_types::Names;
use std::alloc::Global;

const MAX_TOKENS: usize = 262144;

/// The tokens of a text, with the end as the last, and its identifiers numbered by the list of names.
///
/// The text is read from left to right, and the longest token is taken. It is refused at its first
/// fault: `BadByte` at the first byte that begins or continues no token, `Unclosed` at the first byte
/// of a comment, string or character that isn't closed, `NumberTooLarge` at the first byte of a literal
/// past 9223372036854775807, and `TooManyTokens` exactly where 262,144 tokens were read and a byte
/// follows that begins neither a blank nor a comment. After a refusal the names may have gained entries
/// at their end, and the rest of them stays.
pub fn lex(alloc: Global, names: &mut Names, text: &[u8]) -> Result<Vec<Token>, LexError>
    requires text { length text.now ≤ 1048576 }
    requires names { length names.old ≤ 3000000000 }
    ensures ok { IfOk result (λ tokens. IsTokensOf names.old text.now tokens.items names.new) }
    ensures within { IfOk result (λ tokens. AreWithin tokens.items) }
    ensures err { IfErr result (IsFaultOf names.old text.now) }
    ensures names { HasAdded names.old names.new }
    ensures few { length names.new ≤ length names.old + length text.now }
{
    let mut reader = Reader::new(text);
    let mut tokens = Vec::new(alloc);
    while let Some(byte) = reader.peek() {
        step(alloc, &mut reader, names, &mut tokens, byte)?;
    }
    let place = reader.place();
    tokens.push(Token {
        kind: TokenKind::End,
        place,
    })?;
    Ok(tokens)
}

// Reads the next blank, comment or token, which begins with this byte.
fn step(
    alloc: Global,
    reader: &mut Reader,
    names: &mut Names,
    tokens: &mut Vec<Token>,
    byte: u8,
) -> Result<(), LexError>
    requires next { slice_get reader.old.rest 0 ≡ Some byte }
    requires within { IsWithin tokens.old.items }
    requires names { length names.old < 4294967295 }
    ensures ok { let old = reading_of reader.old names.old tokens.old.items in
        let new = reading_of reader.new names.new tokens.new.items in
        OnOk result (Step old new) }
    ensures within { OnOk result (IsWithin tokens.new.items) }
    ensures err { IfErr result (FaultAt (reading_of reader.old names.old tokens.old.items)) }
    ensures names { HasAdded names.old names.new }
    ensures few { length names.new ≤ length names.old + 1 }
    ensures shorter { OnOk result (length reader.new.rest < length reader.old.rest) }
{
    if is_blank(byte) {
        reader.next();
        return Ok(());
    }
    if byte == b'{' {
        return reader.comment();
    }
    if tokens.len() == MAX_TOKENS {
        return Err(LexError::TooManyTokens);
    }
    let place = reader.place();
    let kind = reader.token(alloc, names, byte)?;
    tokens.push(Token { kind, place })?;
    Ok(())
}

impl<'a> Reader<'a> {
    // Takes a comment, whose first byte is next.
    fn comment(&mut self) -> Result<(), LexError>
        requires { slice_get self.old.rest 0 ≡ Some 123 }
        ensures ok { OnOk result (TakesGap self.old self.new) }
        ensures err { IfErr result (PieceFault self.old) }
    {
        let start = self.place();
        self.next();
        self.run(Class::Inside);
        match self.next() {
            Some(_) => Ok(()),
            None => Err(LexError::Unclosed(start)),
        }
    }

    // Takes the longest token that begins with this byte, which begins no blank and no comment.
    fn token(&mut self, alloc: Global, names: &mut Names, byte: u8) -> Result<TokenKind, LexError>
        requires next { slice_get self.old.rest 0 ≡ Some byte }
        requires visible { IsTrue (begins_no_gap byte) }
        requires names { length names.old < 4294967295 }
        ensures ok { IfOk result (λ kind. TakesNamed names.old self.old kind self.new names.new) }
        ensures fit { IfOk result IsFit }
        ensures err { IfErr result (PieceFault self.old) }
        ensures names { HasAdded names.old names.new }
        ensures few { length names.new ≤ length names.old + 1 }
    {
        if is_letter(byte) {
            return self.name(names);
        }
        if is_digit(byte) {
            return Ok(TokenKind::Number(self.number()?));
        }
        match byte {
            b'\'' => Ok(TokenKind::Letter(self.character()?)),
            b'"' => Ok(TokenKind::Str(self.string(alloc)?)),
            _ => Ok(TokenKind::Sym(self.symbol()?)),
        }
    }

    // Takes an identifier or a word.
    fn name(&mut self, names: &mut Names) -> Result<TokenKind, LexError>
        requires next { IsSomeAnd (slice_get self.old.rest 0) (λ b. IsTrue (is_letter b)) }
        requires names { length names.old < 4294967295 }
        ensures ok { IfOk result (λ kind. TakesNamed names.old self.old kind self.new names.new) }
        ensures fit { IfOk result IsFit }
        ensures err { IfErr result (PieceFault self.old) }
        ensures names { HasAdded names.old names.new }
        ensures few { length names.new ≤ length names.old + 1 }
    {
        let text = self.run(Class::Name);
        match keyword_of(text) {
            Some(keyword) => Ok(TokenKind::Word(keyword)),
            None => Ok(TokenKind::Ident(names.number(text)?)),
        }
    }

    // Takes a symbol.
    fn symbol(&mut self) -> Result<Symbol, LexError>
        requires { IsSomeAnd (slice_get self.old.rest 0) (λ b. IsTrue (begins_other b)) }
        ensures ok { IfOk result (λ symbol.
            (names : List Bytes) → TakesLongest names self.old (TokenKind.Sym symbol) self.new) }
        ensures err { IfErr result (PieceFault self.old) }
    {
        let place = self.place();
        let Some(first) = self.next() else {
            return Err(LexError::BadByte(place));
        };
        if let Some(second) = self.peek() {
            if let Some(symbol) = symbol_of(&[first, second]) {
                self.next();
                return Ok(symbol);
            }
        }
        symbol_of(&[first]).ok_or(LexError::BadByte(place))
    }
}

fn keyword_of(text: &[u8]) -> Option<Keyword>
    ensures { result ≡ keyword_of text.now }
{
    found(&KEYWORDS, text)
}

fn symbol_of(text: &[u8]) -> Option<Symbol>
    ensures { result ≡ symbol_of text.now }
{
    found(&SYMBOLS, text)
}

// What a table has for a text.
fn found<T: Copy + Drop>(table: &[(&[u8], T)], text: &[u8]) -> Option<T>
    ensures { result ≡ lookup (bytes_eq text.now) (table_of table.now) }
{
    for (spelling, value) in table {
        if text == *spelling {
            return Some(*value);
        }
    }
    None
}
