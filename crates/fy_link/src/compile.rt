//! Units typed apart.

ghost use Rattle.std.specs.Prelude.{◌≡◌, ◌+◌, ◌≤◌, IfOk, IfErr, length};
ghost use Rattle.fy_derive.specs.Printable.{IsPrintable};
ghost use Rattle.fy_derive.specs.Reading.{plain_derivation};
ghost use Rattle.fy_expand.specs.Judged.{most_text};
ghost use Rattle.fy_front.specs.Checked.{IfRefused};
ghost use Rattle.fy_lexer.specs.Identifiers.{AreIdentifiers};
ghost use Rattle.fy_lexer.specs.Tokens.{HasAdded};
ghost use Rattle.fy_link.specs.Read.{source_in};
ghost use Rattle.fy_link.specs.Sources.{IsSource};
ghost use Rattle.fy_link.specs.UnitBytes.{IsReadBack};
ghost use Rattle.fy_link.specs.Units.{IsUnit, IsUnitFault, KeepsTypeLimits};
ghost use Rattle.fy_types.specs.Names.{AreNames};

use crate::source::{context_of, said_in};
use crate::unit::{Unit, copied};
use fy_front::FrontError;
use fy_least::find_as;
use fy_types::Names;
use std::alloc::Global;

/// The unit of a source: `{ ident ":" type "," } ident ":" type "==" phrase`, its imports with their types, and then the unit's own
/// name, its type and its phrase. The names get those of its names that are new. In its phrase the prelude's names and the imports
/// stand for phrases of their types, and the derivation concludes the unit's type. Where the names that were there are identifiers,
/// as those are that `Names::new` gives, it can be written as a text, and what `write_unit` writes of the unit is read as that unit by
/// `read_unit` with the names that were there, unless the text of the derivation has over 16,777,216 bytes.
///
/// # Errors
///
/// The first stage that refuses decides. First the source's tokens. Then `Header`, at the first token: no `==` stands in it, or the
/// tokens before it aren't pieces between commas, each an identifier, `:` and tokens without `.` and `|`, or a piece's name is
/// repeated or is one of the prelude's. Then syntax and expansion: the type of a piece, the first such, is refused in
/// `\ name : type . skip`; then what stands behind the `==` is no program; then it is refused in parentheses inside an abstraction for
/// each import. Then typing: the phrase doesn't have the unit's type, or a type is too large. And `OutOfMemory`.
pub fn compile_unit(alloc: Global, names: &mut Names, source: &[u8]) -> Result<Unit, FrontError>
    requires text { length source.now ≤ most_text }
    requires names { length names.old ≤ 3000000000 }
    ensures source { IfOk result (λ unit. unit.source ≡ source.now) }
    ensures said { IfOk result (λ unit. IsSource names.old source.now names.new (source_in unit)) }
    ensures unit { IfOk result (λ unit. IsUnit names.new unit) }
    ensures within { IfOk result (λ unit. KeepsTypeLimits (source_in unit)) }
    ensures printable { IfOk result (λ unit. AreNames names.old → AreIdentifiers names.old → IsPrintable names.new (plain_derivation unit.derivation)) }
    ensures read_back { IfOk result (λ unit. AreNames names.old → AreIdentifiers names.old → IsReadBack names.old names.new unit) }
    ensures refused { IfErr result (IfRefused (IsUnitFault names.old source.now)) }
    ensures names { HasAdded names.old names.new }
    ensures few { length names.new ≤ length names.old + length source.now }
{
    let said = said_in(alloc, names, source)?;
    let context = context_of(alloc, &said.imports)?;
    let derivation = find_as(alloc, &context, said.phrase(), &said.own.ty)?;
    let source = copied(alloc, source)?;
    Ok(Unit {
        source,
        derivation,
        said,
    })
}
