//! Units.

ghost use Rattle.std.specs.Prelude.{◌≡◌, IfOk};

use crate::source::Said;
use fy_base::{ListOf, OutOfMemory, Text};
use fy_derive::Derivation;
use std::alloc::Global;

/// A part of a program that is typed apart: a source, whose header has the types of its imports and its own name and type,
/// and a derivation that its phrase has that type.
#[derive(Debug, Drop)]
pub struct Unit {
    pub source: Text,
    pub derivation: Derivation,
    /// What the source says.
    pub(crate) said: Said,
}

/// Units, in the order in which they are linked.
pub type UnitList = ListOf<Unit>;

/// The bytes again, as a text.
pub(crate) fn copied(alloc: Global, bytes: &[u8]) -> Result<Text, OutOfMemory>
    ensures { IfOk result (λ text. text ≡ bytes.now) }
{
    Ok(Text::from_vec(bytes.to_vec(alloc)?))
}
