//! Derivations of programs.

ghost use Rattle.std.specs.Prelude.{◌≤◌, ℕ, List, [], All, IfOk, IsErrOf, map, reverse};
ghost use Rattle.fy_base.specs.Outside.{Bytes};
ghost use Rattle.fy_types.specs.Fields.{AllFields, HasFullMeets, IsNamed};
ghost use Rattle.fy_types.specs.Nested.{type_nesting};
ghost use Rattle.fy_types.specs.Reading.{plain_type};
ghost use Rattle.fy_phrase.specs.CoreLimits.{KeepsCoreLimits};
ghost use Rattle.fy_phrase.specs.PhraseNames.{AllNames, HasFullTypes};
ghost use Rattle.fy_phrase.specs.Reads.{reads};
ghost use Rattle.fy_derive.specs.Judging.{in_scope};
ghost use Rattle.fy_derive.specs.Least.{forms_of, visits};
ghost use Rattle.fy_derive.specs.Limits.{KeepsLimits, most_type_nesting};
ghost use Rattle.fy_derive.specs.Printable.{IsPrintable};
ghost use Rattle.fy_derive.specs.Reading.{plain_derivation};
ghost use Rattle.fy_least.specs.Counts.{PassLimits};
ghost use Rattle.fy_least.specs.Finding.{IsFinding, IsFindingOf};
ghost use Rattle.fy_least.specs.Layers.{subsumed, IsLayered};
ghost use Rattle.fy_least.specs.Pairs.{HasAllPairs};
ghost use Rattle.fy_least.specs.Visited.{IsFound};

use crate::context::Context;
use crate::error::{FindError, LeastError};
use crate::found::{Found, to_type};
use crate::least::found_in;
use crate::scope::Scope;
use fy_derive::Derivation;
use fy_memo::{Memo, Table};
use fy_phrase::Phrase;
use fy_types::{Atom, Ty, TyList, copy_ty, is_below, ty_of};
use std::alloc::Global;

/// A derivation that the phrase is a command, with no variable in scope.
///
/// Where the phrase keeps the limits on core phrases (it nests at most 512, has at most 65,536 nodes,
/// those of its types counted, and at most 65,536 visits, an abstraction's body visited once for each
/// alternative, and the types of its recursions nest at most 258), the derivation has at most 262,144
/// nodes, nests at most 2,048, and each type in it nests at most 1,024. If besides the names in the
/// phrase are those of identifiers, and the meets in its types have two members or more, the
/// derivation can be written as a text: the same holds of the names and the meets in its types, its
/// own meets have two members or more, its numbers are below 2^32, and no meet and no rule in it has
/// over 65,536 premises. Above each rule stands at most one meet, and above that at most one
/// subsumption. Whatever demand shape some derivation of the phrase has at a node, it has too.
///
/// # Errors
///
/// `TypeTooLarge` comes exactly where one least type or written type has a path form of over 4,096
/// nodes or nested more than 480, or all least types together have over 4,194,304 nodes. Else
/// `NoType` comes exactly where the phrase doesn't have the type `comm`. Its place is found by
/// descending: from a phrase to its first direct part that has only types as good as `ns`, under the
/// first alternative at an abstraction; where there is no such part, the place is this phrase's.
pub fn find(alloc: Global, p: &Phrase) -> Result<Derivation, FindError>
    ensures found { IsFinding (reads p.now) result }
    ensures limits { IfOk result
        (λ d. KeepsCoreLimits (reads p.now) → KeepsLimits (plain_derivation d)) }
    ensures printable { IfOk result
        (λ d. KeepsCoreLimits (reads p.now) → HasFullTypes (reads p.now) → (names : List Bytes) →
        AllNames (IsNamed names) (reads p.now) → IsPrintable names (plain_derivation d)) }
    ensures layered { IfOk result (λ d. IsLayered subsumed (plain_derivation d)) }
    ensures pairs { IfOk result (λ d. HasAllPairs [] (reads p.now) (plain_derivation d)) }
{
    find_as(alloc, &TyList::new(alloc), p, &Ty::Atom(Atom::Comm))
}

/// A derivation that the phrase has the type, where the variables in scope have the types of the
/// context, the outermost first. What it concludes is the same tree as the type.
///
/// Where the phrase keeps the limits on core phrases, as each part of a phrase that keeps them does, and
/// the type nests at most 1,024, the derivation keeps its limits. If besides the names in the phrase, in
/// the context and in the type are those of identifiers, and the meets in the phrase's types and in the
/// type have two members or more, the derivation can be written as a text. Both are as with [`find`], and
/// so are what stands above each rule and the demand shapes.
///
/// # Errors
///
/// Those of [`find`], where the least types are those in the context, and the written types are those in
/// the phrase. So a type of the context that passes a limit is refused where a variable of it is used.
pub fn find_as(
    alloc: Global,
    context: &TyList,
    p: &Phrase,
    ty: &Ty,
) -> Result<Derivation, FindError>
    ensures found { IsFindingOf (in_scope context.now) (reads p.now) (plain_type ty.now) result }
    ensures limits { IfOk result
        (λ d. KeepsCoreLimits (reads p.now) → type_nesting (plain_type ty.now) ≤ most_type_nesting →
        KeepsLimits (plain_derivation d)) }
    ensures printable { IfOk result
        (λ d. KeepsCoreLimits (reads p.now) → HasFullTypes (reads p.now) → HasFullMeets (plain_type ty.now) →
        (names : List Bytes) → AllNames (IsNamed names) (reads p.now) → All (AllFields (IsNamed names)) (in_scope context.now) →
        AllFields (IsNamed names) (plain_type ty.now) → IsPrintable names (plain_derivation d)) }
    ensures layered { IfOk result (λ d. IsLayered subsumed (plain_derivation d)) }
    ensures pairs { IfOk result (λ d. HasAllPairs (in_scope context.now) (reads p.now) (plain_derivation d)) }
{
    let found = found_around(alloc, context.as_slice(), p)?;
    let least = ty_of(alloc, &found.paths)?;
    let fits = is_below(alloc, &least, ty)?;
    if fits {
        let wanted = copy_ty(alloc, ty)?;
        let whole = to_type(alloc, wanted, found.derivation)?;
        Ok(whole)
    } else {
        Err(FindError::NoType(found.blame))
    }
}

// What is found of the phrase, where the variables around it have the types, the outermost first.
fn found_around<'a>(alloc: Global, types: &'a [Ty], p: &'a Phrase) -> Result<Found, LeastError>
    ensures ok { IfOk result (IsFound (forms_of (reverse (map plain_type types.now))) (reads p.now)) }
    ensures large { IsErrOf result LeastError.TypeTooLarge →
        (m : ℕ) → PassLimits (visits m (forms_of (reverse (map plain_type types.now))) (reads p.now)) }
{
    let table = Table::of(alloc, p)?;
    let mut memo = Memo::new(alloc);
    let context = Context::of(alloc, types)?;
    found_in(alloc, p, &Scope::Around(&context, &table), &mut memo)
}
