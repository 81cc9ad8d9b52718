//! The paths of a list whose common paths with a path are new.

ghost use Rattle.std.specs.Prelude.{◌≡◌, List, All, Contains, filter, map, IfOk, IfSome, OnOk, IsTrue};
ghost use Rattle.std.specs.Borrow.{Bor};
ghost use Rattle.fy_types.specs.declared.paths.Path.{Path};
ghost use Rattle.fy_types.specs.Reading.{plain_path};
ghost use Rattle.fy_forms.specs.Keys.{group_at, lent};
ghost use Rattle.fy_forms.specs.Rows.{flag_at, lacks_flag, AreKnown, IsAgain, IsEnough, IsEnoughFor, IsKnown, IsMet, IsRow};

use crate::index::Groups;
use crate::join_forms::has_common;
use crate::number::{mixed, place};
use crate::rows::{Row, Rows, flags_of, rows_of};
use fy_base::OutOfMemory;
use fy_types::Path;
use std::alloc::Global;
use std::collections::BTreeMap;

/// Paths that are enough for paths with the flags.
#[derive(Drop)]
struct Enough<'a> {
    flags: Vec<bool>,
    fresh: Vec<&'a Path>,
}

/// What is known at a key: the rows of the paths that have it, which of them are enough for the flags that were
/// met, and where those of each number stand.
#[derive(Drop)]
pub(crate) struct Known<'a> {
    rows: Rows<'a>,
    met: Vec<Enough<'a>>,
    places: BTreeMap<u64, usize>,
}

/// What is known at each key.
pub(crate) type KnownKeys<'a> = BTreeMap<u64, Known<'a>>;

/// A path that was found, and its members without a flag.
#[derive(Drop)]
struct Found<'a> {
    path: &'a Path,
    news: Vec<usize>,
    is_whole: bool,
}

/// Paths of the list, which stands at the path's key, that are enough for the common paths of the
/// path and the list.
pub(crate) fn fresh_for<'a>(
    alloc: Global,
    groups: &Groups<'a>,
    known: &mut KnownKeys<'a>,
    key: u64,
    path: &Path,
    list: &[&'a Path],
) -> Result<Vec<&'a Path>, OutOfMemory>
    requires list { list.now ≡ group_at groups.now key }
    requires known { AreKnown known.old groups.now }
    ensures known { OnOk result (AreKnown known.new groups.now) }
    ensures enough { IfOk result (λ fresh. IsEnoughFor (plain_path path.now) (lent fresh.items) (lent list.now)) }
{
    let mut now = match known.remove(&key) {
        Some(met) => met,
        None => known_of(alloc, list)?,
    };
    let fresh = fresh_in(alloc, &mut now, path)?;
    known.insert(key, now)?;
    Ok(fresh)
}

fn known_of<'a>(alloc: Global, list: &[&'a Path]) -> Result<Known<'a>, OutOfMemory>
    ensures { IfOk result (λ known. IsKnown known list.now) }
{
    Ok(Known {
        rows: rows_of(alloc, list)?,
        met: Vec::new(alloc),
        places: BTreeMap::new(alloc),
    })
}

// Paths that are enough for the path.
fn fresh_in<'a>(
    alloc: Global,
    known: &mut Known<'a>,
    path: &Path,
) -> Result<Vec<&'a Path>, OutOfMemory>
    requires { All (IsRow known.old.rows.table) known.old.rows.rows.items }
    ensures known { OnOk result ((list : List (Bor Path)) → IsKnown known.old list → IsKnown known.new list) }
    ensures enough { IfOk result (λ fresh. (list : List (Bor Path)) → IsKnown known.old list
        → IsEnoughFor (plain_path path.now) (lent fresh.items) (lent list)) }
{
    let flags = flags_of(alloc, &known.rows.table, path)?;
    let number = number_of_flags(flags.as_slice());
    if let Some(met) = met_with(&known.met, known.places.get(&number), flags.as_slice()) {
        let fresh = Vec::from_slice(alloc, met.fresh.as_slice())?;
        return Ok(fresh);
    }
    let fresh = fresh_of(alloc, &known.rows, &flags)?;
    let copied = Vec::from_slice(alloc, fresh.as_slice())?;
    known.places.insert(number, known.met.len())?;
    known.met.push(Enough { flags, fresh })?;
    Ok(copied)
}

// Few lists of flags have one number, if they aren't the same.
fn number_of_flags(flags: &[bool]) -> u64 {
    let mut number = 0;
    for flag in flags {
        number = mixed(number, u64::from(*flag));
    }
    number
}

// What was met at the place, if it has the flags.
fn met_with<'k, 'a>(
    met: &'k [Enough<'a>],
    at: Option<&usize>,
    flags: &[bool],
) -> Option<&'k Enough<'a>>
    ensures { IfSome result (λ one. Contains met.now one.now × (one.now.flags.items ≡ flags.now)) }
{
    let place = *at?;
    if place >= met.len() {
        return None;
    }
    let one = &met[place];
    if one.flags.as_slice() == flags {
        Some(one)
    } else {
        None
    }
}

fn fresh_of<'a>(alloc: Global, all: &Rows<'a>, flags: &[bool]) -> Result<Vec<&'a Path>, OutOfMemory>
    requires { All (IsRow all.now.table) all.now.rows.items }
    ensures { IfOk result
        (λ fresh. IsEnough all.now.table flags.now (lent fresh.items)
        (lent (map (λ row. row.path) all.now.rows.items))) }
{
    let mut found = Vec::new(alloc);
    let mut places = BTreeMap::new(alloc);
    let mut news = Vec::new(alloc);
    for row in &all.rows {
        news = unflagged(news, &row.indexes, flags)?;
        let number = number_of_news(row.path, &news);
        if !is_met(&found, places.get(&number), row, &news) {
            places.insert(number, found.len())?;
            found.push(found_at(alloc, row, &news)?)?;
        }
    }
    paths_of(alloc, &found)
}

fn found_at<'a>(alloc: Global, row: &Row<'a>, news: &[usize]) -> Result<Found<'a>, OutOfMemory>
    ensures path { IfOk result (λ found. found.path ≡ row.now.path) }
    ensures news { IfOk result (λ found. found.news.items ≡ news.now) }
    ensures whole { IfOk result (λ found. found.is_whole ≡ row.now.is_whole) }
{
    Ok(Found {
        path: row.path,
        news: Vec::from_slice(alloc, news)?,
        is_whole: row.is_whole,
    })
}

// The indexes without a flag, in the memory of the list.
fn unflagged(list: Vec<usize>, indexes: &[usize], flags: &[bool]) -> Result<Vec<usize>, OutOfMemory>
    ensures { IfOk result (λ news. news.items ≡ filter (lacks_flag flags.now) indexes.now) }
{
    let mut news = list;
    news.clear();
    for index in indexes {
        if !has_flag(flags, *index) {
            news.push(*index)?;
        }
    }
    Ok(news)
}

fn has_flag(flags: &[bool], index: usize) -> bool
    ensures { result ≡ flag_at flags.now index }
{
    index < flags.len() && flags[index]
}

// Few rows have one number, if they aren't alike.
fn number_of_news(path: &Path, news: &[usize]) -> u64 {
    let mut number = place(path.end);
    for index in news {
        number = mixed(number, *index as u64);
    }
    number
}

fn is_met(found: &[Found<'_>], at: Option<&usize>, row: &Row<'_>, news: &[usize]) -> bool
    ensures { IsTrue result → IsMet found.now row.now news.now }
{
    match at {
        None => false,
        Some(place) => *place < found.len() && is_again(&found[*place], row, news),
    }
}

fn is_again(found: &Found<'_>, row: &Row<'_>, news: &[usize]) -> bool
    ensures { IsTrue result → IsAgain found.now row.now news.now }
{
    found.is_whole
        && row.is_whole
        && row.path.end == found.path.end
        && found.news.as_slice() == news
        && has_common(row.path, found.path)
}

fn paths_of<'a>(alloc: Global, found: &[Found<'a>]) -> Result<Vec<&'a Path>, OutOfMemory>
    ensures { IfOk result (λ list. list.items ≡ map (λ f. f.path) found.now) }
{
    let mut list = Vec::new(alloc);
    for one in found {
        list.push(one.path)?;
    }
    Ok(list)
}
