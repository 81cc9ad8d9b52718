//! How a procedure takes arguments that have most of their paths in common.

ghost use Rattle.std.specs.Prelude.{◌≡◌, ◌≤◌, false, true, IfOk, IfSome, IsTrue, OnOk, get_or, length};
ghost use Rattle.fy_derive.specs.Least.{rests_of_call};
ghost use Rattle.fy_derive.specs.Subsumption.{path_below};
ghost use Rattle.fy_forms.specs.Keys.{lent};
ghost use Rattle.fy_memo.specs.Bases.{IsFound, IsIn, IsMadeOf, IsParted, IsRest, IsSkipped, Sees, are_takers};
ghost use Rattle.fy_order.specs.Demands.{takes, takes_argument};
ghost use Rattle.fy_types.specs.Limits.{IsWithinLimits, all_nesting, all_nodes, most_nesting, most_nodes};
ghost use Rattle.fy_types.specs.Once.{are_same, once};
ghost use Rattle.fy_types.specs.Paths.{PlainPath, PlainPaths};
ghost use Rattle.fy_types.specs.Reading.{plain_path, plain_paths};

use fy_base::OutOfMemory;
use fy_forms::{are_same_paths, is_same_path, key_of, number_of};
use fy_order::{is_one_below, takers};
use fy_types::{Path, PathElem, Paths, copy_path};
use std::alloc::Global;
use std::collections::BTreeMap;

// After so many bases none is looked for any more.
const MOST_BASES: usize = 8;

// More pairs of a path in the others of an argument and one in a procedure's domains aren't compared.
const MANY: u64 = 32768;

// Among so many of the next paths a path is looked for.
const NEAR: usize = 16;

// More paths far from their order aren't looked for one by one.
const MOST_MOVED: usize = 64;

/// How a procedure takes arguments that have the paths of a base.
#[derive(Drop)]
pub(crate) struct Known {
    procedure: Paths,
    base: Paths,
    // Whether each path of the procedure takes the base.
    taken: Vec<bool>,
    // The rests of those that do, each once.
    rests: Paths,
    // How many paths stand in those of the procedure that don't take it.
    untaken: u64,
    /// How many bases of the procedure were known before.
    pub before: usize,
    ghost flagged: { are_takers taken.items (plain_paths base) (plain_paths procedure) ≡ true },
    ghost right: { are_same (plain_paths rests) (once (rests_of_call (plain_paths base) (plain_paths procedure))) ≡ true },
    ghost few: { all_nodes (plain_paths rests) ≤ most_nodes },
    ghost shallow: { all_nesting (plain_paths rests) ≤ most_nesting },
}

impl Known {
    /// What is known of a procedure and a base: which of its paths take the base, and the rests of these, each once; and how many
    /// bases were known before.
    pub(crate) fn new(
        procedure: Paths,
        base: Paths,
        taken: Vec<bool>,
        rests: Paths,
        before: usize,
    ) -> Known
        requires taken { taken.items ≡ takes (plain_paths base) (plain_paths procedure) }
        requires rests { plain_paths rests ≡ once (rests_of_call (plain_paths base) (plain_paths procedure)) }
        requires within { IsWithinLimits (plain_paths rests) }
    {
        let untaken = weight_of_untaken(&procedure, taken.as_slice());
        Known {
            procedure,
            base,
            taken,
            rests,
            untaken,
            before,
        }
    }

    /// The rests, each once, of the procedure's paths that take the argument. None, if it isn't seen at once that these are those that
    /// take the base.
    pub(crate) fn rests_for(
        &self,
        alloc: Global,
        argument: &Paths,
        procedure: &Paths,
    ) -> Result<Option<&Paths>, OutOfMemory>
        ensures rests { IfOk result (λ found. IfSome found
            (λ rests. plain_paths rests.now ≡ once (rests_of_call (plain_paths argument.now) (plain_paths procedure.now)))) }
        ensures within { IfOk result (λ found. IfSome found
            (λ rests. IsWithinLimits (once (rests_of_call (plain_paths argument.now) (plain_paths procedure.now))))) }
    {
        if !are_same_paths(&self.procedure, procedure) {
            return Ok(None);
        }
        let Some(others) = others_in(alloc, &self.base, argument)? else {
            return Ok(None);
        };
        if self.is_much(others.as_slice()) {
            return Ok(None);
        }
        if self.may_take(alloc, others.as_slice())? {
            return Ok(None);
        }
        Ok(Some(&self.rests))
    }

    // Whether to compare the others with the domains of the paths that don't take the base takes too long.
    fn is_much(&self, others: &[&Path]) -> bool {
        self.untaken.saturating_mul(weight_of_all(others)) > MANY
    }

    // Whether the paths, beside those of the base, may make a path of the procedure take an argument that doesn't take the base.
    fn may_take(&self, alloc: Global, others: &[&Path]) -> Result<bool, OutOfMemory>
        ensures { IfOk result (λ r. r ≡ false → (P : PlainPaths) → IsMadeOf P (plain_paths self.now.base) (lent others.now)
            → takes P (plain_paths self.now.procedure) ≡ takes (plain_paths self.now.base) (plain_paths self.now.procedure)) }
    {
        for (place, path) in self.procedure.as_slice().iter().enumerate() {
            if !is_set(self.taken.as_slice(), place) && may_be_taken(alloc, path, others)? {
                return Ok(true);
            }
        }
        Ok(false)
    }

    /// The paths that the base and the argument have in common, as their numbers tell, if the procedure takes them by just the paths by
    /// which it takes the argument.
    pub(crate) fn base_with(
        &self,
        alloc: Global,
        argument: &Paths,
        procedure: &Paths,
        taken: &[bool],
    ) -> Result<Option<Paths>, OutOfMemory>
        ensures { IfOk result (λ found. IfSome found
            (λ base. taken.now ≡ takes (plain_paths base) (plain_paths procedure.now))) }
    {
        if !are_same_paths(&self.procedure, procedure) {
            return Ok(None);
        }
        if self.before >= MOST_BASES {
            return Ok(None);
        }
        let keys = keys_in(alloc, procedure)?;
        let numbers = numbers_in(alloc, argument)?;
        let common = common_of(alloc, &self.base, &keys, &numbers)?;
        if common.len() == 0 || common.len() == argument.len() {
            return Ok(None);
        }
        let own = takers(alloc, &common, procedure)?;
        if own.as_slice() == taken {
            Ok(Some(common))
        } else {
            Ok(None)
        }
    }
}

// How many paths stand in those of the procedure whose flag isn't set.
fn weight_of_untaken(procedure: &Paths, taken: &[bool]) -> u64 {
    let mut sum: u64 = 0;
    for (place, path) in procedure.as_slice().iter().enumerate() {
        if !is_set(taken, place) {
            sum = sum.saturating_add(weight_of(path));
        }
    }
    sum
}

// How many paths stand in the paths, themselves counted.
fn weight_of_all(paths: &[&Path]) -> u64 {
    let mut sum: u64 = 0;
    for path in paths {
        sum = sum.saturating_add(weight_of(path));
    }
    sum
}

// How many paths stand in the path, itself counted.
fn weight_of(path: &Path) -> u64 {
    let mut sum: u64 = 1;
    for elem in path.elems.as_slice() {
        if let PathElem::Call(domain) = elem {
            for member in domain.as_slice() {
                sum = sum.saturating_add(weight_of(member));
            }
        }
    }
    sum
}

fn is_set(flags: &[bool], place: usize) -> bool
    ensures { IsTrue result → get_or flags.now place false ≡ true }
{
    place < flags.len() && flags[place]
}

// Whether one of the paths is below one in the domain of the path's first call.
fn may_be_taken(alloc: Global, path: &Path, others: &[&Path]) -> Result<bool, OutOfMemory>
    ensures { IfOk result (λ r. r ≡ false → (P B : PlainPaths) → IsMadeOf P B (lent others.now)
        → takes_argument P (plain_path path.now) ≡ takes_argument B (plain_path path.now)) }
{
    let elems = path.elems.as_slice();
    if elems.len() == 0 {
        return Ok(false);
    }
    match &elems[0] {
        PathElem::Call(domain) => is_one_below(alloc, others, domain),
        PathElem::Field(_) => Ok(false),
    }
}

// The paths of the form besides those of the base. None, if one of the base's isn't found there, or too many are far from their order.
fn others_in<'a>(
    alloc: Global,
    base: &'a Paths,
    form: &'a Paths,
) -> Result<Option<Vec<&'a Path>>, OutOfMemory>
    ensures { IfOk result (λ found. IfSome found
        (λ others. IsMadeOf (plain_paths form.now) (plain_paths base.now) (lent others.items))) }
{
    let parts = parted(alloc, base, form)?;
    let others = parts.others.as_slice();
    let missing = parts.missing.as_slice();
    if !are_among(missing, others) {
        return Ok(None);
    }
    let rest = rest_of(alloc, others, missing)?;
    Ok(Some(rest))
}

// The paths of the form and of the base that didn't meet their like.
#[derive(Drop)]
struct Parts<'a> {
    others: Vec<&'a Path>,
    missing: Vec<&'a Path>,
}

// Goes along both at once, past paths of the base to one that is near and the form's next. A path that is far from its order in the base is
// then missing, and one of the others too.
fn parted<'a>(alloc: Global, base: &'a Paths, form: &'a Paths) -> Result<Parts<'a>, OutOfMemory>
    ensures { IfOk result
        (λ parts. IsParted (plain_paths form.now) (plain_paths base.now) (lent parts.others.items) (lent parts.missing.items)) }
{
    let wanted = base.as_slice();
    let mut next: usize = 0;
    let mut others = Vec::new(alloc);
    let mut missing = Vec::new(alloc);
    for path in form.as_slice() {
        if let Some(place) = place_near(wanted, next, path) {
            skip(wanted, next, place, &mut missing)?;
            next = place + 1;
        } else {
            others.push(path)?;
        }
    }
    skip(wanted, next, wanted.len(), &mut missing)?;
    Ok(Parts { others, missing })
}

// The paths from the one place up to the other are missing.
fn skip<'a>(
    wanted: &'a [Path],
    from: usize,
    to: usize,
    missing: &mut Vec<&'a Path>,
) -> Result<(), OutOfMemory>
    requires from { from ≤ to }
    requires to { to ≤ length wanted.now }
    ensures { OnOk result (IsSkipped wanted.now from to (lent missing.old.items) (lent missing.new.items)) }
{
    for place in from..to {
        missing.push(&wanted[place])?;
    }
    Ok(())
}

// Whether each of the missing paths, which are few, is one of the others.
fn are_among(missing: &[&Path], others: &[&Path]) -> bool
    ensures { IsTrue result → IsIn (lent missing.now) (lent others.now) }
{
    if missing.len() > MOST_MOVED {
        return false;
    }
    for path in missing {
        if !is_among(path, others) {
            return false;
        }
    }
    true
}

fn is_among(path: &Path, others: &[&Path]) -> bool
    ensures { IsTrue result → (q : PlainPath) → path_below (plain_path path.now) q ≡ true → Sees (lent others.now) q }
{
    for other in others {
        if is_same_path(path, other) {
            return true;
        }
    }
    false
}

// The others that aren't among the missing ones.
fn rest_of<'a>(
    alloc: Global,
    others: &[&'a Path],
    missing: &[&Path],
) -> Result<Vec<&'a Path>, OutOfMemory>
    ensures { IfOk result (λ rest. IsRest (lent others.now) (lent rest.items) (lent missing.now)) }
{
    let mut rest = Vec::new(alloc);
    for path in others {
        if !is_among(path, missing) {
            rest.push(*path)?;
        }
    }
    Ok(rest)
}

// The paths of the form that have one of the keys and one of the numbers.
fn common_of(
    alloc: Global,
    form: &Paths,
    keys: &BTreeMap<u64, ()>,
    numbers: &BTreeMap<u64, ()>,
) -> Result<Paths, OutOfMemory> {
    let mut common = Paths::new(alloc);
    for path in form.as_slice() {
        if keys.get(&key_of(path)).is_some() && numbers.get(&number_of(path)).is_some() {
            common.push(copy_path(alloc, path)?)?;
        }
    }
    Ok(common)
}

// The numbers of the form's paths.
fn numbers_in(alloc: Global, form: &Paths) -> Result<BTreeMap<u64, ()>, OutOfMemory> {
    let mut numbers = BTreeMap::new(alloc);
    for path in form.as_slice() {
        numbers.insert(number_of(path), ())?;
    }
    Ok(numbers)
}

// The keys of the paths in the domains of the first calls. No other path is below one of them.
fn keys_in(alloc: Global, procedure: &Paths) -> Result<BTreeMap<u64, ()>, OutOfMemory> {
    let mut keys = BTreeMap::new(alloc);
    for path in procedure.as_slice() {
        if let Some(PathElem::Call(domain)) = path.elems.as_slice().first() {
            for member in domain.as_slice() {
                keys.insert(key_of(member), ())?;
            }
        }
    }
    Ok(keys)
}

// Where the path stands among the next ones.
fn place_near(members: &[Path], from: usize, path: &Path) -> Option<usize>
    ensures { IfSome result (IsFound members.now from (plain_path path.now)) }
{
    let past = members.len().min(from.saturating_add(NEAR));
    for place in from..past {
        if is_same_path(&members[place], path) {
            return Some(place);
        }
    }
    None
}
