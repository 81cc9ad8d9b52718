//! The bytes of units.

ghost use Rattle.std.specs.Prelude.{◌≡◌, ◌≢◌, ◌+◌, ◌++◌, ◌<◌, ◌≤◌, ◌^◌, ◌⊎◌, IfOk, IfErr, IfNone, IfSome, MatchOption, length};
ghost use Rattle.fy_base.specs.Outside.{Bytes};
ghost use Rattle.fy_derive.specs.Print.{derivation_text};
ghost use Rattle.fy_derive.specs.Reading.{plain_derivation};
ghost use Rattle.fy_lexer.specs.Tokens.{HasAdded};
ghost use Rattle.fy_link.specs.Answers.{of_source, of_text};
ghost use Rattle.fy_link.specs.UnitBytes.{HoldsUnit, IsBadUnit, IsUnitRead, magic, unit_bytes, word};
ghost use Rattle.fy_link.specs.Units.{IsUnit};
ghost use Rattle.fy_link.specs.declared.error.UnitReadError.TheVariants.{OutOfMemory as NoMemory};

use crate::error::UnitReadError;
use crate::source::{context_of, said_in};
use crate::unit::{Unit, copied};
use fy_base::OutOfMemory;
use fy_derive::{DeriveError, check_as, print_derivation};
use fy_front::FrontError;
use fy_read::{ReadError, read_derivation};
use fy_types::Names;
use std::alloc::Global;

// "FORSYU64" and the number 1
const HEAD: [u8; 12] = *b"FORSYU64\x01\0\0\0";

// The most bytes of a source, and of the text of a derivation.
const MOST_SOURCE: usize = 1_048_576;

const MOST_TEXT: usize = 16_777_216;

/// The bytes of a unit of these names: the magic `FORSYU64`, the number 1 and the length of the source, each in four bytes with
/// the lowest first, the source, and the text that `print_derivation` gives.
pub fn write_unit(alloc: Global, names: &Names, unit: &Unit) -> Result<Vec<u8>, OutOfMemory>
    requires { IsUnit names.now unit.now }
    ensures { IfOk result (λ bytes. bytes.items ≡ unit_bytes unit.now.source (derivation_text names.now (plain_derivation unit.now.derivation))) }
{
    let text = print_derivation(alloc, names, &unit.derivation)?;
    let mut bytes = Vec::new(alloc);
    bytes.extend_from_slice(&HEAD)?;
    bytes.extend_from_slice(&(unit.source.len() as u32).to_le_bytes())?;
    bytes.extend_from_slice(unit.source.as_slice())?;
    bytes.extend_from_slice(text.as_slice())?;
    Ok(bytes)
}

// The bytes behind the magic and the number 1, if these are in front.
fn behind_head(bytes: &[u8]) -> Option<&[u8]>
    ensures { MatchOption result ((rest : Bytes) → bytes.now ≢ (magic ++ word 1) ++ rest) (λ rest. bytes.now ≡ (magic ++ word 1) ++ rest.now) }
{
    bytes.strip_prefix(&HEAD)
}

// A number of four bytes, and the bytes behind it.
fn number_in(bytes: &[u8]) -> Option<(usize, &[u8])>
    ensures { MatchOption result (length bytes.now < 4) (λ p. (p.0 < 2 ^ 32) × (bytes.now ≡ word p.0 ++ p.1.now)) }
{
    if bytes.len() < 4 {
        return None;
    }
    let (front, rest) = bytes.split_at(4);
    match front {
        [a, b, c, d] => Some((u32::from_le_bytes([*a, *b, *c, *d]) as usize, rest)),
        _ => unreachable!(),
    }
}

// The source and the text of the derivation in the bytes of a unit.
fn split(bytes: &[u8]) -> Option<(&[u8], &[u8])>
    ensures some { IfSome result (λ parts. HoldsUnit bytes.now parts.0.now parts.1.now) }
    ensures none { IfNone result ((source text : Bytes) → ¬ HoldsUnit bytes.now source text) }
{
    let Some(rest) = behind_head(bytes) else {
        return None;
    };
    let Some((size, rest)) = number_in(rest) else {
        return None;
    };
    if size > MOST_SOURCE {
        return None;
    }
    if rest.len() < size {
        return None;
    }
    if rest.len() - size > MOST_TEXT {
        return None;
    }
    Some(rest.split_at(size))
}

// What a refusal of the source is as one of the bytes.
fn source_refused(error: FrontError) -> UnitReadError
    ensures { result ≡ of_source error }
{
    match error {
        FrontError::Refused(_) => UnitReadError::BadUnit,
        FrontError::OutOfMemory => UnitReadError::OutOfMemory,
    }
}

// What a refusal of the derivation's text is as one of the bytes.
fn text_refused(error: ReadError) -> UnitReadError
    ensures { result ≡ of_text error }
{
    match error {
        ReadError::OutOfMemory => UnitReadError::OutOfMemory,
        _ => UnitReadError::BadUnit,
    }
}

/// The unit that the bytes are, with names numbered by the list, which gets those of its source, and then those of its derivation,
/// that are new.
///
/// # Errors
///
/// `BadUnit` exactly where the bytes aren't a unit's, where the source has over 1,048,576 bytes or the text of the derivation over
/// 16,777,216, where the source is refused before typing, where the text is no derivation's within the limits on derivations, or
/// where that derivation doesn't conclude the unit's type for its phrase in its context. And `OutOfMemory`.
pub fn read_unit(alloc: Global, names: &mut Names, bytes: &[u8]) -> Result<Unit, UnitReadError>
    requires { length names.old ≤ 3000000000 }
    ensures read { IfOk result (IsUnitRead names.old bytes.now names.new) }
    ensures unit { IfOk result (λ unit. IsUnit names.new unit) }
    ensures err { IfErr result (λ e. (e ≡ NoMemory) ⊎ IsBadUnit names.old bytes.now) }
    ensures names { HasAdded names.old names.new }
    ensures few { length names.new ≤ length names.old + length bytes.now }
{
    let Some((source, text)) = split(bytes) else {
        return Err(UnitReadError::BadUnit);
    };
    let said = match said_in(alloc, names, source) {
        Ok(said) => said,
        Err(error) => return Err(source_refused(error)),
    };
    let derivation = match read_derivation(alloc, names, text) {
        Ok(derivation) => derivation,
        Err(error) => return Err(text_refused(error)),
    };
    let context = context_of(alloc, &said.imports)?;
    match check_as(alloc, &context, said.phrase(), &said.own.ty, &derivation) {
        Ok(()) => {}
        Err(DeriveError::Wrong(_)) => return Err(UnitReadError::BadUnit),
        Err(DeriveError::OutOfMemory) => return Err(UnitReadError::OutOfMemory),
    }
    let source = copied(alloc, source)?;
    Ok(Unit {
        source,
        derivation,
        said,
    })
}
