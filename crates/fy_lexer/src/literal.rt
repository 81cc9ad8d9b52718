//! Characters, strings and numbers.

ghost use Rattle.std.specs.Prelude.{◌≡◌, ℕ, List, ◌≤◌, ◌<◌, ◌^◌, pos, Some, IfOk, IfErr, IsSomeAnd, MatchOption, slice_get, IsTrue};
ghost use Rattle.std.specs.List.{list_all};
ghost use Rattle.fy_base.specs.Outside.{Bytes};
ghost use Rattle.fy_types.specs.Words.{is_digit};
ghost use Rattle.fy_lexer.specs.Reading.{DigitFault, ElementFault, ElementsFault, EscapeFault, IsSmall, PieceFault, TakesDigit, TakesElement, TakesElements, TakesEscape, TakesLongest};
ghost use Rattle.fy_lexer.specs.Spellings.{decimal, escaped, hex_value, is_plain};

use crate::error::LexError;
use crate::reader::{Class, Reader};
use crate::token::TokenKind;
use fy_base::{Place, Text};
use std::alloc::Global;

const LARGEST: u64 = 9223372036854775807;

// Whether a byte stands for itself between these quotes.
fn is_plain(quote: u8, byte: u8) -> bool
    ensures { result ≡ is_plain quote byte }
{
    matches!(byte, 32..=126 | 128..=255) && byte != quote && byte != b'\\'
}

// The byte that an escape of one letter or sign stands for.
fn escaped(byte: u8) -> Option<u8>
    ensures { result ≡ escaped byte }
{
    match byte {
        b'n' => Some(b'\n'),
        b't' => Some(b'\t'),
        b'\\' | b'\'' | b'"' => Some(byte),
        _ => None,
    }
}

// The value of a hexadecimal digit.
fn hex_value(byte: u8) -> Option<u8>
    ensures { result ≡ hex_value byte }
{
    match byte {
        b'0'..=b'9' => Some(byte - b'0'),
        b'A'..=b'F' => Some(byte - b'A' + 10),
        b'a'..=b'f' => Some(byte - b'a' + 10),
        _ => None,
    }
}

// The value of digits, where it is within the limit.
fn value_of(digits: &[u8]) -> Option<i64>
    requires { IsTrue (list_all is_digit digits.now) }
    ensures { let value = decimal digits.now in
        MatchOption result (2 ^ 63 ≤ value) (λ n. (n ≡ pos value) × (value < 2 ^ 63)) }
{
    let mut value: u64 = 0;
    for digit in digits {
        let digit = (*digit - b'0') as u64;
        if value > (LARGEST - digit) / 10 {
            return None;
        }
        value = 10 * value + digit;
    }
    Some(value as i64)
}

impl<'a> Reader<'a> {
    // Takes one element of a literal that begins at `start`.
    fn element(&mut self, quote: u8, start: Place) -> Result<u8, LexError>
        ensures ok { IfOk result (λ value. TakesElement quote self.old value self.new) }
        ensures err { IfErr result (λ e. ElementFault quote self.old start e) }
    {
        let place = self.place();
        let Some(byte) = self.next() else {
            return Err(LexError::Unclosed(start));
        };
        if byte == b'\\' {
            return self.escape(start);
        }
        if is_plain(quote, byte) {
            Ok(byte)
        } else {
            Err(LexError::BadByte(place))
        }
    }

    // Takes what follows the byte `\` in an element.
    fn escape(&mut self, start: Place) -> Result<u8, LexError>
        ensures ok { IfOk result (λ value. (quote : ℕ) → TakesEscape quote self.old value self.new) }
        ensures err { IfErr result (λ e. (quote : ℕ) → EscapeFault quote self.old start e) }
    {
        let place = self.place();
        let Some(byte) = self.next() else {
            return Err(LexError::Unclosed(start));
        };
        if byte == b'x' {
            let high = self.digit(start)?;
            let low = self.digit(start)?;
            return Ok(16 * high + low);
        }
        escaped(byte).ok_or(LexError::BadByte(place))
    }

    // Takes a hexadecimal digit, as its value.
    fn digit(&mut self, start: Place) -> Result<u8, LexError>
        ensures ok { IfOk result (λ value. TakesDigit self.old value self.new) }
        ensures small { IfOk result (λ value. value < 16) }
        ensures err { IfErr result (λ e. DigitFault self.old start e) }
    {
        let place = self.place();
        let Some(byte) = self.next() else {
            return Err(LexError::Unclosed(start));
        };
        hex_value(byte).ok_or(LexError::BadByte(place))
    }

    // Takes elements up to the closing quote, which stays.
    fn elements(&mut self, alloc: Global, start: Place) -> Result<Text, LexError>
        ensures ok { IfOk result (λ values.
            TakesElements 34 self.old values self.new × (slice_get self.new.rest 0 ≡ Some 34)) }
        ensures err { IfErr result (λ e. ElementsFault 34 self.old start e) }
    {
        let mut values = Text::new(alloc);
        while self.peek() != Some(b'"') {
            values.push(self.element(b'"', start)?)?;
        }
        Ok(values)
    }

    /// Takes a string, whose opening quote is next.
    pub fn string(&mut self, alloc: Global) -> Result<Text, LexError>
        requires { slice_get self.old.rest 0 ≡ Some 34 }
        ensures ok { IfOk result (λ values.
            (names : List Bytes) → TakesLongest names self.old (TokenKind.Str values) self.new) }
        ensures err { IfErr result (λ e. PieceFault self.old e) }
    {
        let start = self.place();
        self.next();
        let values = self.elements(alloc, start)?;
        self.next();
        Ok(values)
    }

    /// Takes a character, whose opening quote is next, as the byte that it stands for.
    pub fn character(&mut self) -> Result<u8, LexError>
        requires { slice_get self.old.rest 0 ≡ Some 39 }
        ensures ok { IfOk result (λ value.
            (names : List Bytes) → TakesLongest names self.old (TokenKind.Letter value) self.new) }
        ensures err { IfErr result (λ e. PieceFault self.old e) }
    {
        let start = self.place();
        self.next();
        let value = self.element(b'\'', start)?;
        let place = self.place();
        match self.next() {
            Some(b'\'') => Ok(value),
            Some(_) => Err(LexError::BadByte(place)),
            None => Err(LexError::Unclosed(start)),
        }
    }

    /// Takes a number, whose first digit is next.
    pub fn number(&mut self) -> Result<i64, LexError>
        requires { IsSomeAnd (slice_get self.old.rest 0) (λ b. IsTrue (is_digit b)) }
        ensures ok { IfOk result (λ n.
            (names : List Bytes) → TakesLongest names self.old (TokenKind.Number n) self.new) }
        ensures small { IfOk result IsSmall }
        ensures err { IfErr result (λ e. PieceFault self.old e) }
    {
        let start = self.place();
        let digits = self.run(Class::Digit);
        value_of(digits).ok_or(LexError::NumberTooLarge(start))
    }
}
