//! The members of the domains of paths, as numbers that stand for them.

ghost use Rattle.std.specs.Prelude.{◌≡◌, ◌++◌, map, All, IfOk, IfSome};
ghost use Rattle.fy_types.specs.Reading.{plain_elem, plain_path, plain_paths};
ghost use Rattle.fy_forms.specs.Merging.{elem_domain};
ghost use Rattle.fy_forms.specs.Rows.{plain_member, tagged, members, stands_for, IsListed, IsRow, AreRows, IsFlagged};

use crate::number::{mixed, number_of};
use crate::same::is_same_path;
use fy_base::OutOfMemory;
use fy_types::{Path, PathElem, Paths};
use std::alloc::Global;
use std::collections::BTreeMap;

/// A member of the domain of a call, with the number of elements before the call.
#[derive(Clone, Copy)]
pub(crate) struct Member<'a> {
    place: usize,
    path: &'a Path,
    number: u64,
}

/// A path with its members.
#[derive(Drop)]
struct Listed<'a> {
    path: &'a Path,
    members: Vec<Member<'a>>,
}

/// Members, of which each stands for itself by its index, and indexes by the members' numbers.
#[derive(Drop)]
pub(crate) struct Table<'a> {
    members: Vec<Member<'a>>,
    indexes: BTreeMap<u64, usize>,
}

/// A path with the indexes of its members, which are whole where the table has each of them.
#[derive(Drop)]
pub(crate) struct Row<'a> {
    pub path: &'a Path,
    pub indexes: Vec<usize>,
    pub is_whole: bool,
}

/// Paths with their rows.
#[derive(Drop)]
pub(crate) struct Rows<'a> {
    pub table: Table<'a>,
    pub rows: Vec<Row<'a>>,
}

impl<'a> Table<'a> {
    // The index that stands for the member. It may lack a member whose number another has.
    fn find(&self, member: &Member<'_>) -> Option<usize>
        ensures { IfSome result (λ i. stands_for self.now i ≡ plain_member member.now) }
    {
        let index = *self.indexes.get(&member.number)?;
        if index >= self.members.len() {
            return None;
        }
        let known = &self.members[index];
        if known.place == member.place && is_same_path(known.path, member.path) {
            Some(index)
        } else {
            None
        }
    }

    fn note(&mut self, member: Member<'a>) -> Result<(), OutOfMemory> {
        if self.find(&member).is_none() {
            self.indexes.insert(member.number, self.members.len())?;
            self.members.push(member)?;
        }
        Ok(())
    }
}

/// The members of a path's domains, in order.
fn members_of<'a>(alloc: Global, path: &'a Path) -> Result<Vec<Member<'a>>, OutOfMemory>
    ensures { IfOk result
        (λ made. map plain_member made.items ≡ members 0 (plain_path path.now)) }
{
    let elems = path.elems.as_slice();
    let mut list = Vec::new(alloc);
    for place in 0..elems.len() {
        list = with_members(list, place, &elems[place])?;
    }
    Ok(list)
}

fn with_members<'a>(
    list: Vec<Member<'a>>,
    place: usize,
    elem: &'a PathElem,
) -> Result<Vec<Member<'a>>, OutOfMemory>
    ensures { IfOk result
        (λ made. map plain_member made.items
        ≡ map plain_member list.entry.items ++ tagged place (elem_domain (plain_elem elem.now))) }
{
    match elem {
        PathElem::Call(domain) => with_domain(list, place, domain),
        PathElem::Field(_) => Ok(list),
    }
}

fn with_domain<'a>(
    list: Vec<Member<'a>>,
    place: usize,
    domain: &'a Paths,
) -> Result<Vec<Member<'a>>, OutOfMemory>
    ensures { IfOk result
        (λ made. map plain_member made.items
        ≡ map plain_member list.entry.items ++ tagged place (plain_paths domain.now)) }
{
    let mut made = list;
    for path in domain.as_slice() {
        let number = mixed(number_of(path), place as u64);
        made.push(Member {
            place,
            path,
            number,
        })?;
    }
    Ok(made)
}

// The paths with their members.
fn members_of_all<'a>(alloc: Global, list: &[&'a Path]) -> Result<Vec<Listed<'a>>, OutOfMemory>
    ensures each { IfOk result (λ all. All IsListed all.items) }
    ensures paths { IfOk result (λ all. map (λ x. x.path) all.items ≡ list.now) }
{
    let mut all = Vec::new(alloc);
    for path in list {
        let members = members_of(alloc, path)?;
        all.push(Listed { path, members })?;
    }
    Ok(all)
}

fn table_of<'a>(alloc: Global, all: &[Listed<'a>]) -> Result<Table<'a>, OutOfMemory> {
    let mut table = Table {
        members: Vec::new(alloc),
        indexes: BTreeMap::new(alloc),
    };
    for listed in all {
        for member in &listed.members {
            table.note(*member)?;
        }
    }
    Ok(table)
}

fn row_of<'a>(alloc: Global, table: &Table<'_>, listed: &Listed<'a>) -> Result<Row<'a>, OutOfMemory>
    requires { IsListed listed.now }
    ensures row { IfOk result (λ row. IsRow table.now row) }
    ensures path { IfOk result (λ row. row.path ≡ listed.now.path) }
{
    let mut indexes = Vec::new(alloc);
    let mut is_whole = true;
    for member in &listed.members {
        match table.find(member) {
            Some(index) => indexes.push(index)?,
            None => is_whole = false,
        }
    }
    Ok(Row {
        path: listed.path,
        indexes,
        is_whole,
    })
}

/// The rows of the paths.
pub(crate) fn rows_of<'a>(alloc: Global, list: &[&'a Path]) -> Result<Rows<'a>, OutOfMemory>
    ensures { IfOk result (λ rows. AreRows rows list.now) }
{
    let all = members_of_all(alloc, list)?;
    let table = table_of(alloc, &all)?;
    let mut rows = Vec::new(alloc);
    for listed in &all {
        rows.push(row_of(alloc, &table, listed)?)?;
    }
    Ok(Rows { table, rows })
}

/// Whether the path has the member, by its index.
pub(crate) fn flags_of(
    alloc: Global,
    table: &Table<'_>,
    path: &Path,
) -> Result<Vec<bool>, OutOfMemory>
    ensures { IfOk result (λ flags. IsFlagged table.now flags.items (plain_path path.now)) }
{
    let members = members_of(alloc, path)?;
    let mut flags = vec![in alloc; false; table.members.len()]?;
    for member in &members {
        if let Some(index) = table.find(member) {
            if index < flags.len() {
                flags[index] = true;
            }
        }
    }
    Ok(flags)
}
