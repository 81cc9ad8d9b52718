//! Images of phrases.

ghost use Rattle.std.specs.Prelude.{◌≡◌, ◌⊎◌, ◌≤◌, Err, IfOk, IfErr, OnOk, length};
ghost use Rattle.fy_derive.specs.Derivations.{PlainDerivation, nodes, nesting, most_nodes, most_nesting};
ghost use Rattle.fy_derive.specs.Reading.{plain_derivation};
ghost use Rattle.fy_derive.specs.ShapeTables.{HasJustPairs};
ghost use Rattle.fy_derive.specs.Shapes.{shape_table};
ghost use Rattle.fy_image.specs.Ranges.{IsImage};
ghost use Rattle.fy_phrase.specs.Reads.{reads};
ghost use Rattle.pe_gen.specs.Sizes.{HasSizesOf};
ghost use Rattle.pe_right.specs.Typed.{IsTableOf};
ghost use Rattle.pe_shapes.specs.Shaping.{KeepsLimits};
ghost use Rattle.rv_asm.specs.Assembly.{IsAssembly};
ghost use Rattle.rv_asm.specs.Items.{AreItems, AreDistinct, AreKnown};
ghost use Rattle.rv_guard.specs.Guarded.{IsGuarded};
ghost use Rattle.rv_select.specs.Images.{IsSelectionImage};
ghost use Rattle.rv_select.specs.Laws.{IsSelectable};
ghost use Rattle.fy_build.specs.Headline.{RunsAsCopyRule};
ghost use Rattle.fy_build.specs.Selected.{IsRightCode, IsSelectedBy, IsSelectedFrom, IsStraightCode};
ghost use Rattle.fy_build.specs.Building.{IsProgramPhrase, IsStackSize, HasTableWords, IsAccepted, IsRefused};
ghost use Rattle.fy_build.specs.declared.error.BuildError.{BuildError};

use crate::data::read_values;
use crate::error::BuildError;
use crate::laws::{code_runs_as_copy_rule, selections_become_images, selections_can_be_assembled};
use fy_base::OutOfMemory;
use fy_derive::{Derivation, check};
use fy_image::Image;
use fy_phrase::{Phrase, ShapeTable};
use pe_code::PeCode;
use pe_gen::{direct, generate, straighten};
use pe_shapes::shapes_of;
use rv_asm::{AsmError, Assembled, Item, assemble};
use rv_flow::{code_is_short, images_are_guarded};
use rv_select::{select, selection_is_counted, selection_is_short};
use std::alloc::Global;

/// The image of a program's phrase, by a derivation that it is a command: it puts what the copy rule puts
/// and ends as it ends, whatever its input of bytes is. It has that many words of stack, is guarded, and
/// its table has the words that the shapes of the derivation need. Its code has at most 60 words for each
/// pair of a node and a shape of the derivation, and 4,096 beside; it hands no constant as a thunk.
///
/// The derivation has at most 262,144 nodes and nests at most 2,048, and the stack has 1,024 to
/// 67,108,864 words.
///
/// # Errors
///
/// `Wrong` exactly where judging of the derivation stops; else `TooManyShapes`, `TooManyEntries` and
/// `TablesTooLarge` exactly where its shapes pass a limit, in this order; and `OutOfMemory`.
pub fn build(
    alloc: Global,
    p: &Phrase,
    d: &Derivation,
    stack_words: u32,
) -> Result<Image, BuildError>
    requires phrase { IsProgramPhrase (reads p.now) }
    requires few { nodes (plain_derivation d.now) ≤ most_nodes }
    requires shallow { nesting (plain_derivation d.now) ≤ most_nesting }
    requires stack { IsStackSize stack_words }
    ensures runs { IfOk result (λ image. RunsAsCopyRule (reads p.now) image) }
    ensures stack { IfOk result (λ image. image.stack_words ≡ stack_words) }
    ensures table { IfOk result (λ image. HasTableWords (reads p.now) (plain_derivation d.now) (length image.table)) }
    ensures selected { IfOk result (λ image. IsSelectedFrom (reads p.now) (plain_derivation d.now) image) }
    ensures ranges { IfOk result (λ image. IsImage image) }
    ensures guarded { IfOk result (λ image. IsGuarded image) }
    ensures accepted { OnOk result (IsAccepted (reads p.now) (plain_derivation d.now)) }
    ensures err { IfErr result (λ why. (why ≡ BuildError.OutOfMemory) ⊎ IsRefused (reads p.now) (plain_derivation d.now) why) }
    ensures exact { (why : BuildError) → IsRefused (reads p.now) (plain_derivation d.now) why
        → (result ≡ Err why) ⊎ (result ≡ Err BuildError.OutOfMemory) }
{
    check(alloc, p, d)?;
    let table = shapes_of(alloc, p, d)?;
    let image = image_of(alloc, p, &table, stack_words)?;
    Ok(image)
}

/// The push-enter code of a program's phrase by the table of demand shapes of a derivation that is
/// accepted: it is right, hands no constant as a thunk, and does what the copy rule does.
///
/// # Errors
///
/// `OutOfMemory` alone.
pub fn code_of(alloc: Global, p: &Phrase, table: &ShapeTable) -> Result<PeCode, OutOfMemory>
    requires phrase { IsProgramPhrase (reads p.now) }
    requires table { IsTableOf (reads p.now) table.now }
    requires limits { KeepsLimits (reads p.now) table.now }
    ensures right { IfOk result (λ code. IsRightCode (reads p.now) table.now code) }
    ensures sizes { IfOk result (λ code. HasSizesOf (reads p.now) code) }
    ensures few { IfOk result (λ code. length code.items ≤ length table.now.pairs) }
{
    let generated = generate(alloc, p, table)?;
    let code = direct(alloc, p, &generated)?;
    Ok(code)
}

/// The code that images are selected from: that of `code_of`, in which expressions of literals, operators
/// and variables that are cells, and assignments of such to such variables, are evaluated in one step.
///
/// # Errors
///
/// `OutOfMemory` alone.
pub fn straight_code_of(
    alloc: Global,
    p: &Phrase,
    table: &ShapeTable,
) -> Result<PeCode, OutOfMemory>
    requires phrase { IsProgramPhrase (reads p.now) }
    requires table { IsTableOf (reads p.now) table.now }
    requires limits { KeepsLimits (reads p.now) table.now }
    ensures right { IfOk result (λ code. IsStraightCode (reads p.now) table.now code) }
    ensures sizes { IfOk result (λ code. HasSizesOf (reads p.now) code) }
    ensures few { IfOk result (λ code. length code.items ≤ length table.now.pairs) }
{
    let direct = code_of(alloc, p, table)?;
    let code = straighten(alloc, p, direct)?;
    Ok(code)
}

/// The image of a program's phrase by the table of demand shapes of a derivation that is accepted, for
/// who has judged the derivation and made the table already: [`build`] is this behind both.
///
/// # Errors
///
/// `OutOfMemory` alone.
pub fn image_of(
    alloc: Global,
    p: &Phrase,
    table: &ShapeTable,
    stack_words: u32,
) -> Result<Image, OutOfMemory>
    requires phrase { IsProgramPhrase (reads p.now) }
    requires table { IsTableOf (reads p.now) table.now }
    requires limits { KeepsLimits (reads p.now) table.now }
    requires stack { IsStackSize stack_words }
    ensures runs { IfOk result (λ image. RunsAsCopyRule (reads p.now) image) }
    ensures stack { IfOk result (λ image. image.stack_words ≡ stack_words) }
    ensures table { IfOk result (λ image. (d : PlainDerivation) → HasJustPairs table.now (shape_table (reads p.now) d)
        → HasTableWords (reads p.now) d (length image.table)) }
    ensures selected { IfOk result (λ image. IsSelectedBy (reads p.now) table.now image) }
    ensures ranges { IfOk result (λ image. IsImage image) }
    ensures guarded { IfOk result (λ image. IsGuarded image) }
{
    let code = straight_code_of(alloc, p, table)?;
    read_values(code.items.as_slice());
    let image = image_of_code(alloc, &code, stack_words)?;
    code_runs_as_copy_rule();
    selection_is_counted();
    selection_is_short();
    code_is_short();
    images_are_guarded();
    Ok(image)
}

// The image of code.
fn image_of_code(alloc: Global, code: &PeCode, stack_words: u32) -> Result<Image, OutOfMemory>
    requires selectable { IsSelectable code.now }
    requires stack { IsStackSize stack_words }
    ensures selection { IfOk result (λ image. IsSelectionImage code.now image) }
    ensures stack { IfOk result (λ image. image.stack_words ≡ stack_words) }
{
    selections_can_be_assembled();
    selections_become_images();
    let selected = select(alloc, code)?;
    let assembled = words_of(alloc, selected.items.as_slice())?;
    Ok(Image {
        stack_words,
        code: assembled.words,
        table: selected.table,
        places: selected.places,
    })
}

// The words of items whose labels are marked once each.
fn words_of(alloc: Global, items: &[Item]) -> Result<Assembled, OutOfMemory>
    requires items { AreItems items.now }
    requires distinct { AreDistinct items.now }
    requires known { AreKnown items.now }
    ensures { IfOk result (λ assembled. IsAssembly items.now assembled) }
{
    match assemble(alloc, items) {
        Ok(assembled) => Ok(assembled),
        Err(AsmError::OutOfMemory) => Err(OutOfMemory),
        Err(AsmError::DoubleLabel(_)) => unreachable!(),
        Err(AsmError::UnknownLabel(_)) => unreachable!(),
    }
}

#[cfg(test)]
mod tests {
    use crate::building::build;
    use fy_base::{Datum, Place, PutKind};
    use fy_derive::{Derivation, DerivationList};
    use fy_phrase::Phrase;
    use std::test::Fail;

    #[test]
    fn an_image_of_output_is_built(rt: HostRuntime) -> Result<(), Fail> {
        let alloc = rt.alloc();
        let place = Place::first();
        let number = Box::new(alloc, Phrase::Lit(Datum::Int(7), place))?;
        let program = Phrase::Put(PutKind::Int, number, place);
        let mut premises = DerivationList::new(alloc);
        premises.push(Derivation::Rule(DerivationList::new(alloc)))?;
        let derivation = Derivation::Rule(premises);
        let image = build(alloc, &program, &derivation, 2048)?;
        assert_eq!(rt; image.stack_words, 2048);
        assert_eq!(rt; image.table.len(), 8);
        assert_eq!(rt; image.places.len(), 2);
        Ok(())
    }
}
