//! The derivation of units put together.

ghost use Rattle.std.specs.Prelude.{◌≡◌, [], IfOk, map, replicate, reverse};
ghost use Rattle.fy_phrase.specs.Premises.{plain_binder, premise_shown};
ghost use Rattle.fy_phrase.specs.Reads.{reads};
ghost use Rattle.fy_derive.specs.Placed.{all_placed, behind, behind_binder, body_of, left_of, placed, raised_use, right_of, those_of};
ghost use Rattle.fy_derive.specs.Derivations.{and_derivation, count, no_derivations, rule};
ghost use Rattle.fy_derive.specs.Rules.{nothing, premises};
ghost use Rattle.fy_derive.specs.Reading.{plain_derivation, plain_derivations};
ghost use Rattle.fy_link.specs.Composed.{behind_maker, behind_provided, composed_derivation, maker_derivation, placed_unit, provided_derivation, units_derivation};
ghost use Rattle.fy_link.specs.Read.{owns_before, plain_named};
ghost use Rattle.fy_link.specs.Placing.{plain_optional, plain_wanted, wanted_for};
ghost use Rattle.fy_link.specs.Units.{plain_unit};

use crate::causes::type_named;
use crate::source::Named;
use crate::unit::Unit;
use fy_base::OutOfMemory;
use fy_derive::{Derivation, DerivationList};
use fy_phrase::{Binds, Phrase, Premise, premises_of};
use fy_types::{Ty, copy_ty, same_ty};
use std::alloc::Global;

/// To which types the uses of variables are subsumed.
#[derive(Clone, Copy, Drop)]
enum Wanted<'a> {
    /// The imports' types, the innermost first, each where the exporting type is another tree.
    Imports(&'a [Option<&'a Ty>]),
    /// Behind one more binder, whose variable is used as it is.
    Behind(&'a Wanted<'a>),
}

// The type to which the uses of the variable are subsumed, if they are.
fn wanted_at<'a>(wanted: &Wanted<'a>, variable: u32) -> Option<&'a Ty>
    ensures { plain_optional result ≡ plain_wanted wanted.now variable }
{
    let mut rest = wanted;
    let mut left = variable;
    loop {
        match rest {
            Wanted::Imports(types) => {
                let place = left as usize;
                if place < types.len() {
                    return types[place];
                }
                return None;
            }
            Wanted::Behind(outer) => {
                if left == 0 {
                    return None;
                }
                left -= 1;
                rest = outer;
            }
        }
    }
}

// What is wanted below one more binder.
fn behind<'a>(wanted: &'a Wanted<'a>) -> Wanted<'a>
    ensures { plain_wanted result ≡ behind (plain_wanted wanted.now) }
{
    Wanted::Behind(wanted)
}

// What is wanted inside a premise's part.
fn inside<'a>(wanted: &'a Wanted<'a>, binds: Binds<'_>) -> Wanted<'a>
    ensures { plain_wanted result ≡ behind_binder (plain_binder binds.entry) (plain_wanted wanted.now) }
{
    match binds {
        Binds::Nothing => *wanted,
        Binds::First | Binds::Given(_) => behind(wanted),
    }
}

// The premises of the phrase's rule; none where it has no rule of its own.
fn premises_in<'a>(alloc: Global, p: &'a Phrase) -> Result<Vec<Premise<'a>>, OutOfMemory>
    ensures { IfOk result (λ all. map premise_shown all.items ≡ those_of (premises (reads p.now))) }
{
    match premises_of(alloc, p)? {
        Some(all) => Ok(all),
        None => Ok(Vec::new(alloc)),
    }
}

// The body of an abstraction, the left operand of a merge and the right one; other phrases stand for themselves.
fn body_of(p: &Phrase) -> &Phrase
    ensures { reads result.now ≡ body_of (reads p.now) }
{
    match p {
        Phrase::Lam(_, _, body, _) => body,
        _ => p,
    }
}

fn left_of(p: &Phrase) -> &Phrase
    ensures { reads result.now ≡ left_of (reads p.now) }
{
    match p {
        Phrase::Merge(left, _, _) => left,
        _ => p,
    }
}

fn right_of(p: &Phrase) -> &Phrase
    ensures { reads result.now ≡ right_of (reads p.now) }
{
    match p {
        Phrase::Merge(_, right, _) => right,
        _ => p,
    }
}

// The derivation of the phrase with a subsumption above each use of a variable that is wanted at a type.
#[cycle(placing)]
fn placed(
    alloc: Global,
    d: &Derivation,
    wanted: &Wanted<'_>,
    p: &Phrase,
) -> Result<Derivation, OutOfMemory>
    ensures { IfOk result (λ made. plain_derivation made ≡ placed (plain_wanted wanted.now) (reads p.now) (plain_derivation d.now)) }
{
    match d {
        Derivation::Ns => Ok(Derivation::Ns),
        Derivation::Sub(ty, inner) => {
            let inner = Box::new(alloc, placed(alloc, inner, wanted, p)?)?;
            let ty = copy_ty(alloc, ty)?;
            Ok(Derivation::Sub(ty, inner))
        }
        Derivation::Meet(list) => {
            let list = repeated(alloc, list, wanted, p)?;
            Ok(Derivation::Meet(list))
        }
        Derivation::Alt(index, inner) => {
            let within = behind(&*wanted);
            let inner = Box::new(alloc, placed(alloc, inner, &within, body_of(&*p))?)?;
            Ok(Derivation::Alt(*index, inner))
        }
        Derivation::Left(inner) => {
            let inner = Box::new(alloc, placed(alloc, inner, wanted, left_of(&*p))?)?;
            Ok(Derivation::Left(inner))
        }
        Derivation::Right(inner) => {
            let inner = Box::new(alloc, placed(alloc, inner, wanted, right_of(&*p))?)?;
            Ok(Derivation::Right(inner))
        }
        Derivation::Rule(list) => {
            let list = premises_placed(alloc, list, wanted, p)?;
            used(alloc, wanted, p, Derivation::Rule(list))
        }
    }
}

// The members of a meet, each placed with the phrase.
#[cycle(placing)]
fn repeated(
    alloc: Global,
    list: &DerivationList,
    wanted: &Wanted<'_>,
    p: &Phrase,
) -> Result<DerivationList, OutOfMemory>
    ensures { IfOk result (λ made. plain_derivations made
        ≡ all_placed (plain_wanted wanted.now) (replicate (count (plain_derivations list.now)) (nothing, reads p.now)) (plain_derivations list.now)) }
{
    let mut made = DerivationList::new(alloc);
    for d in list.as_slice() {
        made.push(placed(alloc, d, wanted, p)?)?;
    }
    Ok(made)
}

// The premises of the phrase's rule, each placed with its part. Those past the rule's stay as they are.
#[cycle(placing)]
fn premises_placed(
    alloc: Global,
    list: &DerivationList,
    wanted: &Wanted<'_>,
    p: &Phrase,
) -> Result<DerivationList, OutOfMemory>
    ensures { IfOk result (λ made. plain_derivations made
        ≡ all_placed (plain_wanted wanted.now) (those_of (premises (reads p.now))) (plain_derivations list.now)) }
{
    let all = premises_in(alloc, &*p)?;
    let premises = all.as_slice();
    let items = list.as_slice();
    let mut made = DerivationList::new(alloc);
    for i in 0..items.len() {
        let d = if i < premises.len() {
            let premise = &premises[i];
            let within = inside(&*wanted, premise.binds);
            placed(alloc, &items[i], &within, premise.part)?
        } else {
            copied(alloc, &items[i])?
        };
        made.push(d)?;
    }
    Ok(made)
}

// The derivation again.
#[cycle(copying)]
fn copied(alloc: Global, d: &Derivation) -> Result<Derivation, OutOfMemory>
    ensures { IfOk result (λ made. plain_derivation made ≡ plain_derivation d.now) }
{
    match d {
        Derivation::Ns => Ok(Derivation::Ns),
        Derivation::Sub(ty, inner) => {
            let inner = Box::new(alloc, copied(alloc, inner)?)?;
            let ty = copy_ty(alloc, ty)?;
            Ok(Derivation::Sub(ty, inner))
        }
        Derivation::Meet(list) => {
            let list = all_copied(alloc, list)?;
            Ok(Derivation::Meet(list))
        }
        Derivation::Alt(index, inner) => {
            let inner = Box::new(alloc, copied(alloc, inner)?)?;
            Ok(Derivation::Alt(*index, inner))
        }
        Derivation::Left(inner) => {
            let inner = Box::new(alloc, copied(alloc, inner)?)?;
            Ok(Derivation::Left(inner))
        }
        Derivation::Right(inner) => {
            let inner = Box::new(alloc, copied(alloc, inner)?)?;
            Ok(Derivation::Right(inner))
        }
        Derivation::Rule(list) => {
            let list = all_copied(alloc, list)?;
            Ok(Derivation::Rule(list))
        }
    }
}

#[cycle(copying)]
fn all_copied(alloc: Global, list: &DerivationList) -> Result<DerivationList, OutOfMemory>
    ensures { IfOk result (λ made. plain_derivations made ≡ plain_derivations list.now) }
{
    let mut made = DerivationList::new(alloc);
    for d in list.as_slice() {
        made.push(copied(alloc, d)?)?;
    }
    Ok(made)
}

// The derivation of a rule, below a subsumption where the phrase is a variable that is wanted at a type.
fn used(
    alloc: Global,
    wanted: &Wanted<'_>,
    p: &Phrase,
    d: Derivation,
) -> Result<Derivation, OutOfMemory>
    ensures { IfOk result (λ made. plain_derivation made ≡ raised_use (plain_wanted wanted.now) (reads p.now) (plain_derivation d)) }
{
    let Phrase::Var(variable, _) = p else {
        return Ok(d);
    };
    match wanted_at(wanted, *variable) {
        Some(ty) => {
            let d = Box::new(alloc, d)?;
            let ty = copy_ty(alloc, ty)?;
            Ok(Derivation::Sub(ty, d))
        }
        None => Ok(d),
    }
}

// The type to which the uses of an import are subsumed, where these units stand before it.
fn wanted_type<'a>(before: &[Unit], import: &'a Named) -> Option<&'a Ty>
    ensures { plain_optional result ≡ wanted_for (owns_before before.now) (plain_named import.now) }
{
    let Some(ty) = type_named(before, import.name) else {
        return None;
    };
    if same_ty(ty, &import.ty) {
        None
    } else {
        Some(&import.ty)
    }
}

// The same of all imports, the innermost first.
fn wanted_types<'a>(
    alloc: Global,
    before: &[Unit],
    imports: &'a [Named],
) -> Result<Vec<Option<&'a Ty>>, OutOfMemory>
    ensures { IfOk result (λ types. map plain_optional types.items
        ≡ map (wanted_for (owns_before before.now)) (reverse (map plain_named imports.now))) }
{
    let mut types = Vec::new(alloc);
    let mut i = imports.len();
    while i > 0 {
        i -= 1;
        types.push(wanted_type(before, &imports[i]))?;
    }
    Ok(types)
}

// A unit's own derivation behind the units before it.
fn placed_unit(alloc: Global, before: &[Unit], unit: &Unit) -> Result<Derivation, OutOfMemory>
    ensures { IfOk result (λ made. plain_derivation made ≡ placed_unit (owns_before before.now) (plain_unit unit.now)) }
{
    let imports = unit.said.imports.as_slice();
    let types = wanted_types(alloc, before, imports)?;
    let within = Wanted::Imports(types.as_slice());
    placed(alloc, &unit.derivation, &within, unit.said.phrase())
}

fn rule(alloc: Global, first: Derivation, second: Derivation) -> Result<Derivation, OutOfMemory>
    ensures { IfOk result (λ made. plain_derivation made
        ≡ rule (and_derivation (plain_derivation first) (and_derivation (plain_derivation second) no_derivations))) }
{
    let mut premises = DerivationList::new(alloc);
    premises.push(first)?;
    premises.push(second)?;
    Ok(Derivation::Rule(premises))
}

// The derivation of a definition of `putint`, `putchar`, `putbool` or `read`.
fn provided(alloc: Global) -> Result<Derivation, OutOfMemory>
    ensures { IfOk result (λ made. plain_derivation made ≡ provided_derivation) }
{
    let mut premises = DerivationList::new(alloc);
    premises.push(Derivation::Rule(DerivationList::new(alloc)))?;
    let command = Box::new(alloc, Derivation::Rule(premises))?;
    Ok(Derivation::Alt(0, command))
}

// A derivation inside such a definition.
fn behind_provided(alloc: Global, d: Derivation) -> Result<Derivation, OutOfMemory>
    ensures { IfOk result (λ made. plain_derivation made ≡ behind_provided (plain_derivation d)) }
{
    let definition = provided(alloc)?;
    rule(alloc, definition, d)
}

// A variable's derivation.
fn variable(alloc: Global) -> Derivation
    ensures { plain_derivation result ≡ rule no_derivations }
{
    Derivation::Rule(DerivationList::new(alloc))
}

// The derivation of the definition of `newintseq`.
fn maker(alloc: Global) -> Result<Derivation, OutOfMemory>
    ensures { IfOk result (λ made. plain_derivation made ≡ maker_derivation) }
{
    let applied = rule(alloc, variable(alloc), variable(alloc))?;
    let cells = Box::new(alloc, rule(alloc, variable(alloc), applied)?)?;
    let taken = Box::new(alloc, Derivation::Alt(0, cells))?;
    Ok(Derivation::Alt(0, taken))
}

// A derivation inside the definition of `newintseq`.
fn behind_maker(alloc: Global, d: Derivation) -> Result<Derivation, OutOfMemory>
    ensures { IfOk result (λ made. plain_derivation made ≡ behind_maker (plain_derivation d)) }
{
    let definition = maker(alloc)?;
    rule(alloc, definition, d)
}

// The derivation of the units put together.
fn units_derivation(alloc: Global, units: &[Unit]) -> Result<Derivation, OutOfMemory>
    ensures { IfOk result (λ made. plain_derivation made ≡ units_derivation [] (map plain_unit units.now)) }
{
    let mut made = Derivation::Ns;
    let mut i = units.len();
    while i > 0 {
        i -= 1;
        let own = placed_unit(alloc, &units[..i], &units[i])?;
        made = if i + 1 == units.len() {
            own
        } else {
            rule(alloc, own, made)?
        };
    }
    Ok(made)
}

/// The derivation of the units put together, inside the prelude.
pub(crate) fn composed(alloc: Global, units: &[Unit]) -> Result<Derivation, OutOfMemory>
    ensures { IfOk result (λ made. plain_derivation made ≡ composed_derivation (map plain_unit units.now)) }
{
    let made = units_derivation(alloc, units)?;
    let made = behind_maker(alloc, made)?;
    let made = behind_provided(alloc, made)?;
    let made = behind_provided(alloc, made)?;
    let made = behind_provided(alloc, made)?;
    behind_provided(alloc, made)
}
