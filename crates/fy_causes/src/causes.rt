//! Why a phrase has no type of use.

ghost use Rattle.std.specs.Prelude.{◌≡◌, [], ◌∷◌, Some, IfOk, OnOk, if◌then◌else◌, map, option_map};
ghost use Rattle.fy_types.specs.Once.{once as once_of};
ghost use Rattle.fy_types.specs.Paths.{append, paths as paths_in_type};
ghost use Rattle.fy_types.specs.Reading.{plain_path, plain_paths, plain_type};
ghost use Rattle.fy_phrase.specs.Reads.{reads};
ghost use Rattle.fy_derive.specs.Clear.{has_none};
ghost use Rattle.fy_derive.specs.Subsumption.{some_below};
ghost use Rattle.fy_causes.specs.Causes.{
  all_missed as all_missed_of,
  assignment_cause as assignment_cause_of,
  at_both,
  at_first as at_first_of,
  call_cause as call_cause_of,
  case_cause as case_cause_of,
  commands,
  data_had as data_had_of,
  data_taken as data_taken_of,
  declared_cause as declared_cause_of,
  domains_of as domains_of_paths,
  fields_of as fields_of_paths,
  first_missed as first_missed_of,
  first_wanting as first_wanting_of,
  has_some as has_some_of,
  head_of,
  heads_of as heads_of_paths,
  not_command,
  operands_of as operands_of_operator,
  other_cause as other_cause_of,
  taken_at as taken_at_part,
  type_at as type_at_of,
  wants_or,
};
ghost use Rattle.fy_causes.specs.Readings.{
  cause_read,
  data_flagged,
  domain_read,
  first_domain as first_domain_of,
  first_field as first_field_of,
  missed_read,
  part_type,
  wants_read,
};

use crate::error::CauseError;
use crate::found::{is_hollow, no_path};
use crate::parts::Part;
use fy_base::{BinOp, OutOfMemory};
use fy_derive::{data_atom, operand_atom, put_atom};
use fy_forms::{meet, paths_of};
use fy_memo::Memo;
use fy_order::{are_paths_below, has};
use fy_phrase::{DataTy, Phrase};
use fy_types::{Atom, ElemList, Name, Path, PathElem, Paths, Ty, copy_path, copy_paths};
use std::alloc::Global;
use std::rc::Rc;

/// A domain of a procedure, and a path of it that the argument hasn't.
#[derive(Drop)]
pub struct Missed {
    pub domain: Rc<Paths>,
    pub path: Path,
}

/// Why a phrase has no type of use.
#[derive(Drop)]
pub enum Cause {
    /// It isn't a command.
    NotCommand,
    /// It is a name that has only `ns`.
    Useless,
    /// The part with the index has none of the atoms that the rule takes there.
    Wants(usize, Vec<Atom>),
    /// Both operands have data that the operator takes, but no one type of them.
    Differ,
    /// The branches have no type in common.
    Branches,
    /// The part of a case with the index has nothing in common with what those before it have.
    Parts(usize, Paths),
    /// What is called is no procedure.
    NoProcedure,
    /// The procedure takes these domains, each with the first path that the argument hasn't.
    NoDomain(Vec<Missed>),
    /// The record has just these fields.
    NoField(Vec<Name>),
    /// The first path of the declared type that the definition hasn't.
    Declared(Path),
    /// What is assigned to takes no data.
    NoAcceptor,
    /// What is assigned to takes just the first data, and the value has just the second.
    Assigned(Vec<DataTy>, Vec<DataTy>),
}

/// Why the phrase has no type of use, where it has the paths and its parts are these.
pub(crate) fn cause_of(
    alloc: Global,
    p: &Phrase,
    own: &Paths,
    parts: &[Part<'_>],
    memo: &mut Memo,
) -> Result<Cause, CauseError>
    ensures { IfOk result (λ c. cause_read c ≡ (if has_none (plain_paths own.now)
        then wants_or (first_wanting_of (reads p.now) 0 (map part_type parts.now)) (other_cause_of (reads p.now) (map part_type parts.now))
        else not_command)) }
{
    if !is_hollow(own) {
        return Ok(Cause::NotCommand);
    }
    match first_wanting(alloc, p, parts)? {
        Some((index, atoms)) => Ok(Cause::Wants(index, atoms)),
        None => other_cause(alloc, p, parts, memo),
    }
}

// The first of the parts that has none of the atoms that the rule takes there.
fn first_wanting(
    alloc: Global,
    p: &Phrase,
    parts: &[Part<'_>],
) -> Result<Option<(usize, Vec<Atom>)>, OutOfMemory>
    ensures { IfOk result (λ o. option_map wants_read o ≡ first_wanting_of (reads p.now) 0 (map part_type parts.now)) }
{
    for i in 0..parts.len() {
        let part = &parts[i];
        if let Some(atoms) = taken_at(alloc, p, i)? {
            if !has_some(&part.paths, atoms.as_slice()) {
                return Ok(Some((i, atoms)));
            }
        }
    }
    Ok(None)
}

// Whether the paths have one of the atoms.
fn has_some(paths: &Paths, atoms: &[Atom]) -> bool
    ensures { result ≡ has_some_of (plain_paths paths.now) atoms.now }
{
    for atom in atoms {
        if has(paths, *atom) {
            return true;
        }
    }
    false
}

// The atoms that the rule takes at the part with the index, if it takes atoms there.
fn taken_at(alloc: Global, p: &Phrase, index: usize) -> Result<Option<Vec<Atom>>, OutOfMemory>
    ensures { IfOk result (λ o. option_map (λ v. v.items) o ≡ taken_at_part (reads p.now) index) }
{
    match p {
        Phrase::Unary(op, _, _) => at_first(alloc, operand_atom(*op), index),
        Phrase::Binary(op, _, _, _) => {
            if index < 2 {
                Ok(Some(operands_of(alloc, *op)?))
            } else {
                Ok(None)
            }
        }
        Phrase::Cond(..) => at_first(alloc, Atom::Bool, index),
        Phrase::Case(..) => at_first(alloc, Atom::Int, index),
        Phrase::Seq(..) => before_command(alloc, Atom::Comm, index),
        Phrase::New(_, ty, _, _, _) => before_command(alloc, data_atom(*ty), index),
        Phrase::Cells(..) => before_command(alloc, Atom::Int, index),
        Phrase::WhileDo(..) => match index {
            0 => just(alloc, Atom::Bool),
            1 => just(alloc, Atom::Comm),
            _ => Ok(None),
        },
        Phrase::Forever(..) | Phrase::Escape(..) | Phrase::Accept(..) => {
            at_first(alloc, Atom::Comm, index)
        }
        Phrase::Put(kind, _, _) => at_first(alloc, put_atom(*kind), index),
        Phrase::Read(..) => at_first(alloc, Atom::IntAcc, index),
        Phrase::Var(..)
        | Phrase::Lit(..)
        | Phrase::Lam(..)
        | Phrase::App(..)
        | Phrase::Field(..)
        | Phrase::Sel(..)
        | Phrase::Merge(..)
        | Phrase::LetIn(..)
        | Phrase::Rec(..)
        | Phrase::Skip(_)
        | Phrase::Assign(..)
        | Phrase::Mark(..) => Ok(None),
    }
}

fn just(alloc: Global, atom: Atom) -> Result<Option<Vec<Atom>>, OutOfMemory>
    ensures { IfOk result (λ o. option_map (λ v. v.items) o ≡ Some (atom ∷ [])) }
{
    let atoms = Vec::from_array(alloc, [atom])?;
    Ok(Some(atoms))
}

// The atom for the first part alone.
fn at_first(alloc: Global, atom: Atom, index: usize) -> Result<Option<Vec<Atom>>, OutOfMemory>
    ensures { IfOk result (λ o. option_map (λ v. v.items) o ≡ at_first_of (atom ∷ []) index) }
{
    match index {
        0 => just(alloc, atom),
        _ => Ok(None),
    }
}

// The atom for the first part, and a command for the second.
fn before_command(alloc: Global, atom: Atom, index: usize) -> Result<Option<Vec<Atom>>, OutOfMemory>
    ensures { IfOk result (λ o. option_map (λ v. v.items) o ≡ at_both (atom ∷ []) commands index) }
{
    match index {
        0 => just(alloc, atom),
        1 => {
            let atoms = Vec::from_array(alloc, [Atom::Comm, Atom::Compl])?;
            Ok(Some(atoms))
        }
        _ => Ok(None),
    }
}

// The data that the operator takes.
fn operands_of(alloc: Global, op: BinOp) -> Result<Vec<Atom>, OutOfMemory>
    ensures { IfOk result (λ v. v.items ≡ operands_of_operator op) }
{
    match op {
        BinOp::Add | BinOp::Sub | BinOp::Mul | BinOp::Div | BinOp::Rem => {
            Ok(Vec::from_array(alloc, [Atom::Int])?)
        }
        BinOp::And | BinOp::Or => Ok(Vec::from_array(alloc, [Atom::Bool])?),
        BinOp::Eq | BinOp::Ne => Ok(Vec::from_array(alloc, [Atom::Int, Atom::Bool, Atom::Char])?),
        BinOp::Lt | BinOp::Le | BinOp::Gt | BinOp::Ge => {
            Ok(Vec::from_array(alloc, [Atom::Int, Atom::Char])?)
        }
    }
}

// The cause where each part has one of the atoms that the rule takes there.
fn other_cause(
    alloc: Global,
    p: &Phrase,
    parts: &[Part<'_>],
    memo: &mut Memo,
) -> Result<Cause, CauseError>
    ensures { IfOk result (λ c. cause_read c ≡ other_cause_of (reads p.now) (map part_type parts.now)) }
{
    match p {
        Phrase::Var(..) => Ok(Cause::Useless),
        Phrase::Binary(..) => Ok(Cause::Differ),
        Phrase::Cond(..) => Ok(Cause::Branches),
        Phrase::Case(..) => case_cause(alloc, parts, memo),
        Phrase::App(..) => call_cause(alloc, parts),
        Phrase::Sel(..) => {
            let record = type_at(alloc, parts, 0)?;
            let fields = fields_of(alloc, &record)?;
            Ok(Cause::NoField(fields))
        }
        Phrase::Rec(_, ty, _, _) => declared_cause(alloc, ty, parts),
        Phrase::Assign(..) => assignment_cause(alloc, parts),
        _ => Ok(Cause::NotCommand),
    }
}

// The least type of the part with the index, and no paths where there is none.
fn type_at(alloc: Global, parts: &[Part<'_>], index: usize) -> Result<Paths, OutOfMemory>
    ensures { IfOk result (λ made. plain_paths made ≡ type_at_of (map part_type parts.now) index) }
{
    if index < parts.len() {
        copy_paths(alloc, &parts[index].paths)
    } else {
        Ok(no_path(alloc))
    }
}

// The first part of a case that has nothing in common with what those before it have. The first of all is the index.
fn case_cause(alloc: Global, parts: &[Part<'_>], memo: &mut Memo) -> Result<Cause, CauseError>
    ensures { IfOk result (λ c. cause_read c ≡ case_cause_of (map part_type parts.now)) }
{
    if parts.len() < 2 {
        return Ok(Cause::NotCommand);
    }
    let mut before = copy_paths(alloc, &parts[1].paths)?;
    for i in 2..parts.len() {
        let joined = memo.join(alloc, &before, &parts[i].paths)?;
        if is_hollow(&joined) {
            return Ok(Cause::Parts(i, before));
        }
        before = joined;
    }
    Ok(Cause::NotCommand)
}

fn call_cause(alloc: Global, parts: &[Part<'_>]) -> Result<Cause, CauseError>
    ensures { IfOk result (λ c. cause_read c
        ≡ call_cause_of (domains_of_paths (type_at_of (map part_type parts.now) 0)) (type_at_of (map part_type parts.now) 1)) }
{
    let procedure = type_at(alloc, parts, 0)?;
    let argument = type_at(alloc, parts, 1)?;
    let domains = domains_of(alloc, &procedure)?;
    if domains.len() == 0 {
        return Ok(Cause::NoProcedure);
    }
    let all = all_missed(alloc, &argument, domains.as_slice())?;
    Ok(Cause::NoDomain(all))
}

// Each domain that the argument hasn't, with the first path that it hasn't.
fn all_missed(
    alloc: Global,
    argument: &Paths,
    domains: &[Rc<Paths>],
) -> Result<Vec<Missed>, OutOfMemory>
    ensures { IfOk result (λ v. map missed_read v.items ≡ all_missed_of (plain_paths argument.now) (map domain_read domains.now)) }
{
    let mut all = Vec::new(alloc);
    for domain in domains {
        if let Some(path) = first_missed(alloc, argument, domain)? {
            let domain = domain.clone()?;
            all.push(Missed { domain, path })?;
        }
    }
    Ok(all)
}

/// The first of the other paths that none of the argument's is below.
pub fn first_missed(
    alloc: Global,
    argument: &Paths,
    others: &Paths,
) -> Result<Option<Path>, OutOfMemory>
    ensures { IfOk result (λ o. option_map plain_path o ≡ first_missed_of (plain_paths argument.now) (plain_paths others.now)) }
{
    for path in others.as_slice() {
        if !is_some_below(alloc, argument, path)? {
            let missed = copy_path(alloc, path)?;
            return Ok(Some(missed));
        }
    }
    Ok(None)
}

// Whether one of the paths is below the path.
fn is_some_below(alloc: Global, paths: &Paths, above: &Path) -> Result<bool, OutOfMemory>
    ensures { IfOk result (λ r. r ≡ some_below (plain_paths paths.now) (plain_path above.now)) }
{
    let mut one = Paths::new(alloc);
    one.push(copy_path(alloc, above)?)?;
    are_paths_below(alloc, paths, &one)
}

// The domains of the calls with which the paths begin, each once.
fn domains_of(alloc: Global, paths: &Paths) -> Result<Vec<Rc<Paths>>, CauseError>
    ensures { IfOk result (λ v. map domain_read v.items ≡ domains_of_paths (plain_paths paths.now)) }
{
    let heads = heads_of(alloc, paths)?;
    let mut all = Vec::new(alloc);
    for head in heads.as_slice() {
        if let Some(domain) = first_domain(head) {
            all.push(domain.clone()?)?;
        }
    }
    Ok(all)
}

fn first_domain(path: &Path) -> Option<&Rc<Paths>>
    ensures { option_map (λ d. domain_read d.now) result ≡ first_domain_of (plain_path path.now) }
{
    let elems = path.elems.as_slice();
    if elems.len() == 0 {
        return None;
    }
    match &elems[0] {
        PathElem::Call(domain) => Some(domain),
        PathElem::Field(_) => None,
    }
}

// The names of the fields with which the paths begin, each once.
fn fields_of(alloc: Global, paths: &Paths) -> Result<Vec<Name>, CauseError>
    ensures { IfOk result (λ v. v.items ≡ fields_of_paths (plain_paths paths.now)) }
{
    let heads = heads_of(alloc, paths)?;
    let mut all = Vec::new(alloc);
    for head in heads.as_slice() {
        if let Some(name) = first_field(head) {
            all.push(name)?;
        }
    }
    Ok(all)
}

fn first_field(path: &Path) -> Option<Name>
    ensures { result ≡ first_field_of (plain_path path.now) }
{
    let elems = path.elems.as_slice();
    if elems.len() == 0 {
        return None;
    }
    match &elems[0] {
        PathElem::Call(_) => None,
        PathElem::Field(name) => Some(*name),
    }
}

// The first demand of each path, each once, in front of `comm`.
fn heads_of(alloc: Global, paths: &Paths) -> Result<Paths, CauseError>
    ensures { IfOk result (λ made. plain_paths made ≡ once_of (heads_of_paths (plain_paths paths.now))) }
{
    let mut heads = Paths::new(alloc);
    for path in paths.as_slice() {
        add_head(alloc, &mut heads, path)?;
    }
    let made = meet(alloc, &no_path(alloc), &heads)?;
    Ok(made)
}

// Adds the first demand of the path last, if it has one.
fn add_head(alloc: Global, heads: &mut Paths, path: &Path) -> Result<(), OutOfMemory>
    ensures { OnOk result (plain_paths heads.new ≡ append (plain_paths heads.old) (head_of (plain_path path.now))) }
{
    let elems = path.elems.as_slice();
    if elems.len() == 0 {
        return Ok(());
    }
    let elem = match &elems[0] {
        PathElem::Call(domain) => PathElem::Call(domain.clone()?),
        PathElem::Field(name) => PathElem::Field(*name),
    };
    let rest = Path {
        elems: ElemList::new(alloc),
        end: Atom::Comm,
    };
    heads.push(rest.after(elem)?)?;
    Ok(())
}

fn declared_cause(alloc: Global, ty: &Ty, parts: &[Part<'_>]) -> Result<Cause, CauseError>
    ensures { IfOk result (λ c. cause_read c
        ≡ declared_cause_of (first_missed_of (type_at_of (map part_type parts.now) 0) (paths_in_type (plain_type ty.now)))) }
{
    let body = type_at(alloc, parts, 0)?;
    let declared = paths_of(alloc, ty)?;
    match first_missed(alloc, &body, &declared)? {
        Some(path) => Ok(Cause::Declared(path)),
        None => Ok(Cause::NotCommand),
    }
}

fn assignment_cause(alloc: Global, parts: &[Part<'_>]) -> Result<Cause, CauseError>
    ensures { IfOk result (λ c. cause_read c
        ≡ assignment_cause_of (data_taken_of (type_at_of (map part_type parts.now) 0)) (data_had_of (type_at_of (map part_type parts.now) 1))) }
{
    let acceptor = type_at(alloc, parts, 0)?;
    let value = type_at(alloc, parts, 1)?;
    let taken = data_taken(alloc, &acceptor)?;
    let had = data_had(alloc, &value)?;
    if taken.len() == 0 {
        return Ok(Cause::NoAcceptor);
    }
    if had.len() == 0 {
        let all = Vec::from_array(alloc, [Atom::Int, Atom::Bool, Atom::Char])?;
        return Ok(Cause::Wants(1, all));
    }
    Ok(Cause::Assigned(taken, had))
}

// The data that the paths take.
fn data_taken(alloc: Global, paths: &Paths) -> Result<Vec<DataTy>, OutOfMemory>
    ensures { IfOk result (λ v. v.items ≡ data_taken_of (plain_paths paths.now)) }
{
    let flags = (
        has(paths, Atom::IntAcc),
        has(paths, Atom::BoolAcc),
        has(paths, Atom::CharAcc),
    );
    data_where(alloc, flags)
}

// The data that the paths have.
fn data_had(alloc: Global, paths: &Paths) -> Result<Vec<DataTy>, OutOfMemory>
    ensures { IfOk result (λ v. v.items ≡ data_had_of (plain_paths paths.now)) }
{
    let flags = (
        has(paths, Atom::Int),
        has(paths, Atom::Bool),
        has(paths, Atom::Char),
    );
    data_where(alloc, flags)
}

// The types of data whose flags are set.
fn data_where(alloc: Global, flags: (bool, bool, bool)) -> Result<Vec<DataTy>, OutOfMemory>
    ensures { IfOk result (λ v. v.items ≡ data_flagged flags.0 flags.1 flags.2) }
{
    let mut all = Vec::new(alloc);
    if flags.0 {
        all.push(DataTy::Int)?;
    }
    if flags.1 {
        all.push(DataTy::Bool)?;
    }
    if flags.2 {
        all.push(DataTy::Char)?;
    }
    Ok(all)
}
