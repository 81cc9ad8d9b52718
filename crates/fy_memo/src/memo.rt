//! Rests of calls and joins, kept for calls and pairs that are much the same.

ghost use Rattle.std.specs.Prelude.{◌≡◌, ◌≤◌, true, IfOk, IfSome, IsErrOf, OnOk};
ghost use Rattle.fy_types.specs.Bounds.{join_of};
ghost use Rattle.fy_types.specs.Limits.{IsTooLarge, IsWithinLimits, all_nesting, all_nodes, most_nesting, most_nodes};
ghost use Rattle.fy_types.specs.Once.{are_same, once as once_of};
ghost use Rattle.fy_types.specs.Nested.{IsTypeOf};
ghost use Rattle.fy_types.specs.Reading.{plain_paths, plain_type};
ghost use Rattle.fy_derive.specs.Least.{rests_of_call as rests_of_call_of};
ghost use Rattle.fy_order.specs.Demands.{takes};
ghost use Rattle.fy_types.specs.Paths.{PlainPaths};

use crate::known::Known;
use crate::places::{Places, place_of, was_asked};
use crate::types::Types;
use fy_base::OutOfMemory;
use fy_forms::{TypeError, are_same_paths, join, meet, mixed, number_of, number_of_form};
use fy_order::{rests_of_takers, takers, weight};
use fy_types::{Path, Paths, Ty, copy_paths};
use std::alloc::Global;
use std::collections::BTreeMap;

// So many paths beside the heaviest one, towards the middle, tell one order of an argument's paths from others. At its ends paths are
// added and taken away.
const BESIDE: usize = 3;

/// The join of two forms.
#[derive(Drop)]
struct Join {
    first: Paths,
    second: Paths,
    joined: Paths,
    ghost right: { are_same (plain_paths joined) (join_of (plain_paths first) (plain_paths second)) ≡ true },
    ghost few: { all_nodes (plain_paths joined) ≤ most_nodes },
    ghost shallow: { all_nesting (plain_paths joined) ≤ most_nesting },
}

/// What was answered: calls and joins from the second time on that the number of a call, or a pair, is asked for, types of domains and
/// of atoms from the first.
#[derive(Drop)]
pub struct Memo {
    knowns: Vec<Known>,
    joins: Vec<Join>,
    call_places: Places,
    join_places: Places,
    types: Types,
}

impl Memo {
    /// No answers. It takes no memory.
    pub fn new(alloc: Global) -> Memo {
        Memo {
            knowns: Vec::new(alloc),
            joins: Vec::new(alloc),
            call_places: BTreeMap::new(alloc),
            join_places: BTreeMap::new(alloc),
            types: Types::new(alloc),
        }
    }

    /// The rests of the procedure's paths that begin with a call that takes such an argument, each once.
    ///
    /// # Errors
    ///
    /// `TypeTooLarge` comes exactly where they have over 4,096 nodes or nest more than 480.
    pub fn rests_of_call(
        &mut self,
        alloc: Global,
        argument: &Paths,
        procedure: &Paths,
    ) -> Result<Paths, TypeError>
        ensures ok { IfOk result
            (λ made. plain_paths made ≡ once_of (rests_of_call_of (plain_paths argument.now) (plain_paths procedure.now))) }
        ensures within { OnOk result (IsWithinLimits (once_of (rests_of_call_of (plain_paths argument.now) (plain_paths procedure.now)))) }
        ensures large { IsErrOf result TypeError.TypeTooLarge →
            IsTooLarge (once_of (rests_of_call_of (plain_paths argument.now) (plain_paths procedure.now))) }
    {
        let number = number_of_call(argument, procedure);
        if let Some(rests) = self.find_rests(alloc, number, argument, procedure)? {
            let copied = copy_paths(alloc, rests)?;
            return Ok(copied);
        }
        let taken = takers(alloc, argument, procedure)?;
        let rests = rests_once(alloc, taken.as_slice(), procedure)?;
        if was_asked(&mut self.call_places, number)? {
            self.keep_rests(alloc, number, (argument, procedure), taken, &rests)?;
        }
        Ok(rests)
    }

    /// A type that has the paths of the form.
    pub fn ty_of(&mut self, alloc: Global, form: &Paths) -> Result<Ty, OutOfMemory>
        ensures { IfOk result (λ ty. IsTypeOf (plain_paths form.now) (plain_type ty)) }
    {
        self.types.ty_of(alloc, form)
    }

    // How many bases were known at the number.
    fn bases_before(&self, number: u64) -> usize {
        match self.known_at(number) {
            Some(known) => known.before.saturating_add(1),
            None => 0,
        }
    }

    fn known_at(&self, number: u64) -> Option<&Known> {
        let place = place_of(&self.call_places, number)?;
        if place < self.knowns.len() {
            Some(&self.knowns[place])
        } else {
            None
        }
    }

    fn find_rests(
        &self,
        alloc: Global,
        number: u64,
        argument: &Paths,
        procedure: &Paths,
    ) -> Result<Option<&Paths>, OutOfMemory>
        ensures rests { IfOk result (λ found. IfSome found
            (λ rests. plain_paths rests.now ≡ once_of (rests_of_call_of (plain_paths argument.now) (plain_paths procedure.now)))) }
        ensures within { IfOk result (λ found. IfSome found
            (λ rests. IsWithinLimits (once_of (rests_of_call_of (plain_paths argument.now) (plain_paths procedure.now))))) }
    {
        match self.known_at(number) {
            Some(known) => known.rests_for(alloc, argument, procedure),
            None => Ok(None),
        }
    }

    // Keeps what is known of the call, in place of what was known at the number.
    fn keep_rests(
        &mut self,
        alloc: Global,
        number: u64,
        pair: (&Paths, &Paths),
        taken: Vec<bool>,
        rests: &Paths,
    ) -> Result<(), OutOfMemory>
        requires taken { taken.items ≡ takes (plain_paths pair.0.now) (plain_paths pair.1.now) }
        requires rests { plain_paths rests.now ≡ once_of (rests_of_call_of (plain_paths pair.0.now) (plain_paths pair.1.now)) }
        requires within { IsWithinLimits (once_of (rests_of_call_of (plain_paths pair.0.now) (plain_paths pair.1.now))) }
    {
        let base = self.base_for(alloc, number, pair, taken.as_slice())?;
        let procedure = copy_paths(alloc, pair.1)?;
        let rests = copy_paths(alloc, rests)?;
        let known = Known::new(procedure, base, taken, rests, self.bases_before(number));
        match place_of(&self.call_places, number) {
            Some(place) if place < self.knowns.len() => self.knowns[place] = known,
            _ => {
                self.call_places.insert(number, Some(self.knowns.len()))?;
                self.knowns.push(known)?;
            }
        }
        Ok(())
    }

    // What the argument has in common with the base that is known at the number, if the procedure takes it by the same paths. Else the
    // argument.
    fn base_for(
        &self,
        alloc: Global,
        number: u64,
        pair: (&Paths, &Paths),
        taken: &[bool],
    ) -> Result<Paths, OutOfMemory>
        requires { taken.now ≡ takes (plain_paths pair.0.now) (plain_paths pair.1.now) }
        ensures { IfOk result (λ base. taken.now ≡ takes (plain_paths base) (plain_paths pair.entry.1.now)) }
    {
        if let Some(known) = self.known_at(number) {
            if let Some(base) = known.base_with(alloc, pair.0, pair.1, taken)? {
                return Ok(base);
            }
        }
        copy_paths(alloc, pair.0)
    }

    /// The join of the two forms.
    ///
    /// # Errors
    ///
    /// `TypeTooLarge` comes exactly where it has over 4,096 nodes or nests more than 480.
    pub fn join(&mut self, alloc: Global, a: &Paths, b: &Paths) -> Result<Paths, TypeError>
        ensures ok { IfOk result (λ made. plain_paths made ≡ join_of (plain_paths a.now) (plain_paths b.now)) }
        ensures within { OnOk result (IsWithinLimits (join_of (plain_paths a.now) (plain_paths b.now))) }
        ensures large { IsErrOf result TypeError.TypeTooLarge →
            IsTooLarge (join_of (plain_paths a.now) (plain_paths b.now)) }
    {
        let number = number_of_pair(a, b);
        if let Some(joined) = self.find_join(number, a, b) {
            let copied = copy_paths(alloc, joined)?;
            return Ok(copied);
        }
        let joined = join(alloc, a, b)?;
        if was_asked(&mut self.join_places, number)? {
            self.keep_join(alloc, number, (a, b), &joined)?;
        }
        Ok(joined)
    }

    fn find_join(&self, number: u64, a: &Paths, b: &Paths) -> Option<&Paths>
        ensures joined { IfSome result (λ joined. plain_paths joined.now ≡ join_of (plain_paths a.now) (plain_paths b.now)) }
        ensures within { IfSome result (λ joined. IsWithinLimits (join_of (plain_paths a.now) (plain_paths b.now))) }
    {
        let place = place_of(&self.join_places, number)?;
        if place >= self.joins.len() {
            return None;
        }
        let entry = &self.joins[place];
        if are_same_paths(&entry.first, a) && are_same_paths(&entry.second, b) {
            Some(&entry.joined)
        } else {
            None
        }
    }

    fn keep_join(
        &mut self,
        alloc: Global,
        number: u64,
        pair: (&Paths, &Paths),
        joined: &Paths,
    ) -> Result<(), OutOfMemory>
        requires joined { plain_paths joined.now ≡ join_of (plain_paths pair.0.now) (plain_paths pair.1.now) }
        requires within { IsWithinLimits (join_of (plain_paths pair.0.now) (plain_paths pair.1.now)) }
    {
        let first = copy_paths(alloc, pair.0)?;
        let second = copy_paths(alloc, pair.1)?;
        let joined = copy_paths(alloc, joined)?;
        self.join_places.insert(number, Some(self.joins.len()))?;
        self.joins.push(Join {
            first,
            second,
            joined,
        })?;
        Ok(())
    }
}

// The rests of the paths whose flags are set, each once.
fn rests_once(alloc: Global, taken: &[bool], procedure: &Paths) -> Result<Paths, TypeError>
    ensures ok { IfOk result (λ made. (Q : PlainPaths) → taken.now ≡ takes Q (plain_paths procedure.now)
        → plain_paths made ≡ once_of (rests_of_call_of Q (plain_paths procedure.now))) }
    ensures within { OnOk result ((Q : PlainPaths) → taken.now ≡ takes Q (plain_paths procedure.now)
        → IsWithinLimits (once_of (rests_of_call_of Q (plain_paths procedure.now)))) }
    ensures large { IsErrOf result TypeError.TypeTooLarge → (Q : PlainPaths) → taken.now ≡ takes Q (plain_paths procedure.now)
        → IsTooLarge (once_of (rests_of_call_of Q (plain_paths procedure.now))) }
{
    let rests = rests_of_takers(alloc, taken, procedure)?;
    meet(alloc, &Paths::new(alloc), &rests)
}

// Few calls have one number, if their procedures aren't the same, or the heaviest paths of their arguments, or heavy ones beside them.
fn number_of_call(argument: &Paths, procedure: &Paths) -> u64 {
    let members = argument.as_slice();
    let heaviest = heaviest(members);
    let mut number = mixed(number_of_form(procedure), heaviest.number);
    let from = if heaviest.place < members.len() / 2 {
        heaviest.place.saturating_add(1)
    } else {
        heaviest.place.saturating_sub(BESIDE)
    };
    for place in from..from.saturating_add(BESIDE) {
        if let Some(path) = members.get(place) {
            if weight(path) > heaviest.weight / 2 {
                number = mixed(number, number_of(path));
            }
        }
    }
    number
}

/// Where a path stands, its weight, and its number.
#[derive(Clone, Copy)]
struct Weighed {
    place: usize,
    weight: usize,
    number: u64,
}

// The heaviest path, and of those that are as heavy the one with the greatest number.
fn heaviest(members: &[Path]) -> Weighed {
    let mut best = Weighed {
        place: 0,
        weight: 0,
        number: 0,
    };
    for (place, path) in members.iter().enumerate() {
        let weight = weight(path);
        if weight >= best.weight {
            let number = number_of(path);
            if weight > best.weight || number > best.number {
                best = Weighed {
                    place,
                    weight,
                    number,
                };
            }
        }
    }
    best
}

// Few pairs have one number, if they are not the same.
fn number_of_pair(a: &Paths, b: &Paths) -> u64 {
    mixed(number_of_form(a), number_of_form(b))
}
