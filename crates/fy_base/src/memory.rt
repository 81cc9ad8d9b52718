//! Sources, sinks and files in memory.

ghost use Rattle.std.specs.Prelude.{◌≡◌, ℕ, ◌<◌, ◌≤◌, ◌+◌, ◌↔◌, IsTrue, IsErr, min, List, [], ◌++◌, length, take, drop, Some, false, OnOk, OnErr, IfOk, IsErrOf, vec_capacity, vec_len};
ghost use Rattle.std.specs.Option.{option_copied, option_map};
ghost use Rattle.fy_base.specs.Outside.{Bytes, Gave, IsAtEnd, Gained, GainedPart, HasCause, Tells, IsLong, Kept, OthersStay, Rose, NoneFalls, NoneMoves, UnlessFetchFails, UnlessKeepFails, next_count, once_fetched, once_kept};
ghost use Rattle.fy_base.specs.Memory.{folder_of, pair_of, is_to_fail, faults_of, misses_of, CountsCall, OneMoreFault, FetchesAsTold, KeepsAsTold};
ghost use Rattle.std.specs.FinMap.{get, insert};

use crate::error::OutOfMemory;
use crate::outside::{Failed, FetchError, Files, KeepError, Sink, Source};
use std::alloc::Global;

// The calls of a value, of which those of some numbers, from 0, are to fail.
#[derive(Debug, Drop)]
struct Calls {
    failing: Vec<u64>,
    made: u64,
}

impl Calls {
    fn new(failing: Vec<u64>) -> Calls
        ensures failing { result.failing.items ≡ failing.items }
        ensures made { result.made ≡ 0 }
    {
        Calls { failing, made: 0 }
    }

    // Whether the next call is to fail. It counts as made.
    fn next_fails(&mut self) -> bool
        ensures fails { result ≡ is_to_fail self.old.failing.items self.old.made }
        ensures counted { CountsCall self.old self.new }
    {
        let call = self.made;
        self.made = call.saturating_add(1);
        self.failing.contains(&call)
    }
}

#[tactic(auto, using(crate::proofs::Parts::joined))]
// Fills a beginning of the room with the first bytes left.
fn fill(left: &[u8], room: &mut [u8]) -> usize
    ensures count { result ≡ min (length left.now) (length room.new) }
    ensures filled { left.now ≡ take result room.new ++ drop result left.now }
{
    let count = left.len().min(room.len());
    room[..count].copy_from_slice(&left[..count]);
    count
}

/// A source that never fails.
#[derive(Debug, Drop)]
pub struct SteadySource {
    bytes: Vec<u8>,
    at: usize,
    ghost within: { at ≤ vec_len bytes },
}

impl SteadySource {
    /// A source of these bytes.
    pub fn new(bytes: Vec<u8>) -> SteadySource
        ensures { ⟦<SteadySource as Source>⟧.left result ≡ Some bytes.items }
    {
        SteadySource { bytes, at: 0 }
    }
}

impl Source for SteadySource {
    ghost left = { λ s. Some (drop s.at s.bytes.items) };

    ghost faults = { λ _. 0 };

    fn take(&mut self, room: &mut [u8]) -> Result<usize, Failed> {
        let count = fill(&self.bytes.as_slice()[self.at..], room);
        self.at += count;
        Ok(count)
    }
}

/// A source whose calls of some numbers, from 0, fail.
#[derive(Debug, Drop)]
pub struct MemorySource {
    steady: SteadySource,
    calls: Calls,
    faults: u64,
}

impl MemorySource {
    /// A source of these bytes, whose calls of these numbers fail.
    pub fn new(bytes: Vec<u8>, failing: Vec<u64>) -> MemorySource
        ensures left { ⟦<MemorySource as Source>⟧.left result ≡ Some bytes.items }
        ensures failing { (result.calls.failing.items ≡ failing.items) × (result.calls.made ≡ 0) }
    {
        MemorySource {
            steady: SteadySource::new(bytes),
            calls: Calls::new(failing),
            faults: 0,
        }
    }
}

impl Source for MemorySource {
    ghost left = { λ s. ⟦<SteadySource as Source>⟧.left s.steady };

    ghost faults = { λ s. s.faults };

    fn take(&mut self, room: &mut [u8]) -> Result<usize, Failed>
        ensures bound { IfOk result (λ n. n ≤ length room.new) }
        ensures taken { IfOk result (λ n. Gave (⟦<SteadySource as Source>⟧.left self.old.steady) (⟦<SteadySource as Source>⟧.left self.new.steady) (take n room.new)) }
        ensures end { IfOk result (λ n. n ≡ 0 → 0 < length room.new → IsAtEnd (⟦<SteadySource as Source>⟧.left self.old.steady)) }
        ensures none { OnErr result (⟦<SteadySource as Source>⟧.left self.new.steady ≡ ⟦<SteadySource as Source>⟧.left self.old.steady) }
        ensures cause { HasCause self.old.faults self.new.faults result }
        ensures exactly { IsErr result ↔ IsTrue (is_to_fail self.old.calls.failing.items self.old.calls.made) }
        ensures counted { CountsCall self.old.calls self.new.calls }
        ensures fault { OnErr result (self.new.faults ≡ next_count self.old.faults) }
    {
        if self.calls.next_fails() {
            self.faults = self.faults.saturating_add(1);
            return Err(Failed);
        }
        let count = fill(&self.steady.bytes.as_slice()[self.steady.at..], room);
        self.steady.at += count;
        Ok(count)
    }
}

/// A sink that fails exactly where its room would be passed.
#[derive(Debug, Drop)]
pub struct SteadySink {
    bytes: Vec<u8>,
    room: usize,
    faults: u64,
    ghost within: { vec_len bytes ≤ room },
    ghost reserved: { room ≤ vec_capacity bytes },
}

impl SteadySink {
    /// A sink with room for so many bytes. It takes all memory that there will be.
    pub fn new(alloc: Global, room: usize) -> Result<SteadySink, OutOfMemory>
        ensures held { IfOk result (λ s. ⟦<SteadySink as Sink>⟧.held s ≡ Some []) }
        ensures room { IfOk result (λ s. s.room ≡ room) }
    {
        let bytes = Vec::with_capacity(alloc, room)?;
        Ok(SteadySink {
            bytes,
            room,
            faults: 0,
        })
    }

    /// The bytes held.
    pub fn bytes(&self) -> &[u8]
        ensures { Some result.now ≡ ⟦<SteadySink as Sink>⟧.held self.now }
    {
        self.bytes.as_slice()
    }
}

impl Sink for SteadySink {
    ghost held = { λ s. Some s.bytes.items };

    ghost faults = { λ s. s.faults };

    fn put(&mut self, piece: &[u8]) -> Result<(), Failed>
        ensures gained { OnOk result (Gained (Some self.old.bytes.items) (Some self.new.bytes.items) piece.now) }
        ensures part { OnErr result (GainedPart (Some self.old.bytes.items) (Some self.new.bytes.items) piece.now) }
        ensures nothing { OnErr result (self.new.bytes.items ≡ self.old.bytes.items) }
        ensures cause { HasCause self.old.faults self.new.faults result }
        ensures exactly { IsErr result ↔ (self.old.room < vec_len self.old.bytes + length piece.now) }
        ensures room { self.new.room ≡ self.old.room }
        ensures fault { OnErr result (self.new.faults ≡ next_count self.old.faults) }
    {
        if piece.len() <= self.room - self.bytes.len()
            && self.bytes.extend_from_slice(piece).is_ok()
        {
            return Ok(());
        }
        self.faults = self.faults.saturating_add(1);
        Err(Failed)
    }
}

/// A sink whose calls of some numbers, from 0, fail, and those that would pass its room.
#[derive(Debug, Drop)]
pub struct MemorySink {
    steady: SteadySink,
    calls: Calls,
    faults: u64,
}

impl MemorySink {
    /// A sink with room for so many bytes, whose calls of these numbers fail. It takes all memory
    /// that there will be.
    pub fn new(alloc: Global, room: usize, failing: Vec<u64>) -> Result<MemorySink, OutOfMemory>
        ensures held { IfOk result (λ s. ⟦<MemorySink as Sink>⟧.held s ≡ Some []) }
        ensures room { IfOk result (λ s. s.steady.room ≡ room) }
        ensures failing { IfOk result (λ s. (s.calls.failing.items ≡ failing.items) × (s.calls.made ≡ 0)) }
    {
        let steady = SteadySink::new(alloc, room)?;
        Ok(MemorySink {
            steady,
            calls: Calls::new(failing),
            faults: 0,
        })
    }

    /// The bytes held.
    pub fn bytes(&self) -> &[u8]
        ensures { Some result.now ≡ ⟦<MemorySink as Sink>⟧.held self.now }
    {
        self.steady.bytes()
    }
}

impl Sink for MemorySink {
    ghost held = { λ s. ⟦<SteadySink as Sink>⟧.held s.steady };

    ghost faults = { λ s. s.faults };

    fn put(&mut self, piece: &[u8]) -> Result<(), Failed>
        ensures gained { OnOk result (Gained (Some self.old.steady.bytes.items) (Some self.new.steady.bytes.items) piece.now) }
        ensures part { OnErr result (GainedPart (Some self.old.steady.bytes.items) (Some self.new.steady.bytes.items) piece.now) }
        ensures nothing { OnErr result (self.new.steady.bytes.items ≡ self.old.steady.bytes.items) }
        ensures cause { HasCause self.old.faults self.new.faults result }
        ensures as_told { IsTrue (is_to_fail self.old.calls.failing.items self.old.calls.made) → IsErr result }
        ensures otherwise { IsErr result → is_to_fail self.old.calls.failing.items self.old.calls.made ≡ false → self.old.steady.room < vec_len self.old.steady.bytes + length piece.now }
        ensures full { self.old.steady.room < vec_len self.old.steady.bytes + length piece.now → IsErr result }
        ensures counted { CountsCall self.old.calls self.new.calls }
        ensures room { self.new.steady.room ≡ self.old.steady.room }
        ensures fault { OnErr result (self.new.faults ≡ next_count self.old.faults) }
    {
        if !self.calls.next_fails() && self.steady.put(piece).is_ok() {
            return Ok(());
        }
        self.faults = self.faults.saturating_add(1);
        Err(Failed)
    }
}

/// A sink that tears the piece of one call, counted from 0: it appends so many of the piece's first
/// bytes, or all where it is shorter, and then fails. Like the other sinks in memory, it fails and
/// appends nothing where its room would be passed.
#[derive(Debug, Drop)]
pub struct TornSink {
    steady: SteadySink,
    call: u64,
    count: usize,
    made: u64,
    faults: u64,
}

impl TornSink {
    /// A sink with room for so many bytes, which tears the piece of the call of this number after so
    /// many bytes. It takes all memory that there will be.
    pub fn new(alloc: Global, room: usize, call: u64, count: usize) -> Result<TornSink, OutOfMemory>
        ensures held { IfOk result (λ s. ⟦<TornSink as Sink>⟧.held s ≡ Some []) }
        ensures room { IfOk result (λ s. s.steady.room ≡ room) }
        ensures tears { IfOk result (λ s. (s.call ≡ call) × (s.count ≡ count) × (s.made ≡ 0)) }
    {
        let steady = SteadySink::new(alloc, room)?;
        Ok(TornSink {
            steady,
            call,
            count,
            made: 0,
            faults: 0,
        })
    }

    /// The bytes held.
    pub fn bytes(&self) -> &[u8]
        ensures { Some result.now ≡ ⟦<TornSink as Sink>⟧.held self.now }
    {
        self.steady.bytes()
    }
}

impl Sink for TornSink {
    ghost held = { λ s. ⟦<SteadySink as Sink>⟧.held s.steady };

    ghost faults = { λ s. s.faults };

    fn put(&mut self, piece: &[u8]) -> Result<(), Failed>
        ensures gained { OnOk result (Gained (Some self.old.steady.bytes.items) (Some self.new.steady.bytes.items) piece.now) }
        ensures part { OnErr result (GainedPart (Some self.old.steady.bytes.items) (Some self.new.steady.bytes.items) piece.now) }
        ensures cause { HasCause self.old.faults self.new.faults result }
        ensures as_told { self.old.made ≡ self.old.call → IsErr result }
        ensures torn { self.old.made ≡ self.old.call → vec_len self.old.steady.bytes + min self.old.count (length piece.now) ≤ self.old.steady.room → self.new.steady.bytes.items ≡ self.old.steady.bytes.items ++ take self.old.count piece.now }
        ensures otherwise { (self.old.made ≡ self.old.call → ⊥) → (IsErr result ↔ (self.old.steady.room < vec_len self.old.steady.bytes + length piece.now)) }
        ensures nothing { IsErr result → (self.old.made ≡ self.old.call → self.old.steady.room < vec_len self.old.steady.bytes + min self.old.count (length piece.now)) → self.new.steady.bytes.items ≡ self.old.steady.bytes.items }
        ensures counted { self.new.made ≡ next_count self.old.made }
        ensures rest { (self.new.steady.room ≡ self.old.steady.room) × (self.new.call ≡ self.old.call) × (self.new.count ≡ self.old.count) }
        ensures fault { OnErr result (self.new.faults ≡ next_count self.old.faults) }
    {
        let tears = self.made == self.call;
        self.made = self.made.saturating_add(1);
        let part = if tears {
            &piece[..self.count.min(piece.len())]
        } else {
            piece
        };
        if self.steady.put(part).is_ok() && !tears {
            return Ok(());
        }
        self.faults = self.faults.saturating_add(1);
        Err(Failed)
    }
}

// A name and the file's bytes.
#[derive(Debug, Drop)]
struct Entry {
    name: String,
    bytes: Vec<u8>,
}

// A failed call on a name.
#[derive(Debug, Drop)]
struct Fault {
    name: String,
}

fn entry_of(alloc: Global, name: &str, bytes: &[u8]) -> Result<Entry, OutOfMemory>
    ensures { IfOk result (λ e. pair_of e ≡ (name.now, bytes.now)) }
{
    let name = String::from_str(alloc, name)?;
    let bytes = bytes.to_vec(alloc)?;
    Ok(Entry { name, bytes })
}

// The bytes of the first entry of the name.
fn find<'a>(entries: &'a [Entry], name: &str) -> Option<&'a [u8]>
    ensures { get (folder_of entries.now) name.now ≡ option_copied result }
{
    for entry in entries {
        if entry.name.as_str() == name {
            return Some(entry.bytes.as_slice());
        }
    }
    None
}

// The bytes of the first entry of the name among the newer ones, and else among the older ones.
fn find_in_both<'a>(newer: &'a [Entry], older: &'a [Entry], name: &str) -> Option<&'a [u8]>
    ensures { get (folder_of (newer.now ++ older.now)) name.now ≡ option_copied result }
{
    match find(newer, name) {
        Some(content) => Some(content),
        None => find(older, name),
    }
}

// Makes the files hold one more.
fn add_entry(
    alloc: Global,
    entries: &mut Vec<Entry>,
    name: &str,
    bytes: &[u8],
) -> Result<(), OutOfMemory>
    ensures ok { OnOk result (folder_of entries.new.items ≡ insert (folder_of entries.old.items) name.now bytes.now) }
    ensures err { OnErr result (entries.new.items ≡ entries.old.items) }
{
    let entry = entry_of(alloc, name, bytes)?;
    entries.insert(0, entry)?;
    Ok(())
}

// Counts one more fault of a name.
fn count_fault(alloc: Global, faults: &mut Vec<Fault>, name: &str) -> Result<(), OutOfMemory>
    ensures risen { OnOk result (faults_of faults.new.items name.now ≡ faults_of faults.old.items name.now + 1) }
    ensures others { (other : Bytes) → faults_of faults.old.items other ≤ faults_of faults.new.items other }
    ensures exactly { OnOk result (OneMoreFault (faults_of faults.old.items) (faults_of faults.new.items) name.now) }
    ensures err { OnErr result (faults.new.items ≡ faults.old.items) }
{
    let name = String::from_str(alloc, name)?;
    faults.insert(0, Fault { name })?;
    Ok(())
}

fn fetched(alloc: Global, content: &[u8], limit: usize) -> Result<Vec<u8>, FetchError>
    ensures { FetchesAsTold false (Some content.now) limit result }
{
    if content.len() > limit {
        return Err(FetchError::TooLong);
    }
    match content.to_vec(alloc) {
        Ok(bytes) => Ok(bytes),
        Err(_) => Err(FetchError::OutOfMemory),
    }
}

/// Files in memory, of which calls of some numbers, from 0, fail: a failing `fetch` or `keep` leaves
/// all files as they are. To count a fault of a name takes memory.
#[derive(Debug, Drop)]
pub struct MemoryFiles {
    // The newest first.
    entries: Vec<Entry>,
    calls: Calls,
    fetch_faults: Vec<Fault>,
    keep_faults: Vec<Fault>,
    fetches: u64,
    keeps: u64,
}

impl MemoryFiles {
    /// No files, and calls of these numbers fail.
    pub fn new(alloc: Global, failing: Vec<u64>) -> MemoryFiles
        ensures held { ⟦<MemoryFiles as Files>⟧.held result ≡ Some (folder_of []) }
        ensures failing { (result.calls.failing.items ≡ failing.items) × (result.calls.made ≡ 0) }
        ensures uncalled { ⟦<MemoryFiles as Files>⟧.calls result ≡ record { fetches = 0; keeps = 0 } }
    {
        MemoryFiles {
            entries: Vec::new(alloc),
            calls: Calls::new(failing),
            fetch_faults: Vec::new(alloc),
            keep_faults: Vec::new(alloc),
            fetches: 0,
            keeps: 0,
        }
    }

    /// Holds a file from now on; no call is counted.
    pub fn hold(&mut self, alloc: Global, name: &str, bytes: &[u8]) -> Result<(), OutOfMemory>
        ensures ok { OnOk result (Kept (⟦<MemoryFiles as Files>⟧.held self.old) (⟦<MemoryFiles as Files>⟧.held self.new) name.now bytes.now) }
        ensures err { OnErr result (⟦<MemoryFiles as Files>⟧.held self.new ≡ ⟦<MemoryFiles as Files>⟧.held self.old) }
        ensures rest { self.new ≡ record self.old { entries = self.new.entries } }
    {
        add_entry(alloc, &mut self.entries, name, bytes)
    }

    /// The content of a file that is held.
    pub fn content(&self, name: &str) -> Option<&[u8]>
        ensures { Some (option_copied result) ≡ option_map (λ folder. get folder name.now) (⟦<MemoryFiles as Files>⟧.held self.now) }
    {
        find(self.entries.as_slice(), name)
    }
}

impl Files for MemoryFiles {
    ghost held = { λ s. Some (folder_of s.entries.items) };

    ghost fetch_faults = { λ s name. faults_of s.fetch_faults.items name };

    ghost keep_faults = { λ s name. faults_of s.keep_faults.items name };

    ghost calls = { λ s. record { fetches = s.fetches; keeps = s.keeps } };

    fn fetch(&mut self, alloc: Global, name: &str, limit: usize) -> Result<Vec<u8>, FetchError>
        ensures content { IfOk result (λ bytes. Tells (⟦<MemoryFiles as Files>⟧.held self.old) name.now (Some bytes.items)) }
        ensures within { IfOk result (λ bytes. length bytes.items ≤ limit) }
        ensures long { IsErrOf result FetchError.TooLong → IsLong (⟦<MemoryFiles as Files>⟧.held self.old) name.now limit }
        ensures missing { IsErrOf result FetchError.Missing → Rose (⟦<MemoryFiles as Files>⟧.fetch_faults self.old name.now) (⟦<MemoryFiles as Files>⟧.fetch_faults self.new name.now) }
        ensures failed { IsErrOf result FetchError.Failed → Rose (⟦<MemoryFiles as Files>⟧.fetch_faults self.old name.now) (⟦<MemoryFiles as Files>⟧.fetch_faults self.new name.now) }
        ensures fetches { NoneFalls (⟦<MemoryFiles as Files>⟧.fetch_faults self.old) (⟦<MemoryFiles as Files>⟧.fetch_faults self.new) }
        ensures keeps { NoneFalls (⟦<MemoryFiles as Files>⟧.keep_faults self.old) (⟦<MemoryFiles as Files>⟧.keep_faults self.new) }
        ensures fetches_quiet { UnlessFetchFails result (NoneMoves (⟦<MemoryFiles as Files>⟧.fetch_faults self.old) (⟦<MemoryFiles as Files>⟧.fetch_faults self.new)) }
        ensures keeps_quiet { UnlessFetchFails result (NoneMoves (⟦<MemoryFiles as Files>⟧.keep_faults self.old) (⟦<MemoryFiles as Files>⟧.keep_faults self.new)) }
        ensures files { ⟦<MemoryFiles as Files>⟧.held self.new ≡ ⟦<MemoryFiles as Files>⟧.held self.old }
        ensures called { ⟦<MemoryFiles as Files>⟧.calls self.new ≡ once_fetched (⟦<MemoryFiles as Files>⟧.calls self.old) }
        ensures as_told { FetchesAsTold (is_to_fail self.old.calls.failing.items self.old.calls.made) (get (folder_of self.old.entries.items) name.now) limit result }
        ensures counted { CountsCall self.old.calls self.new.calls }
        ensures missing_counted { IsErrOf result FetchError.Missing → OneMoreFault (⟦<MemoryFiles as Files>⟧.fetch_faults self.old) (⟦<MemoryFiles as Files>⟧.fetch_faults self.new) name.now }
        ensures failed_counted { IsErrOf result FetchError.Failed → OneMoreFault (⟦<MemoryFiles as Files>⟧.fetch_faults self.old) (⟦<MemoryFiles as Files>⟧.fetch_faults self.new) name.now }
        ensures rest { self.new ≡ record self.old { calls = self.new.calls; fetch_faults = self.new.fetch_faults; fetches = self.new.fetches } }
    {
        self.fetches = self.fetches.saturating_add(1);
        let fails = self.calls.next_fails();
        let fault = match find(self.entries.as_slice(), name) {
            _ if fails => FetchError::Failed,
            None => FetchError::Missing,
            Some(content) => return fetched(alloc, content, limit),
        };
        match count_fault(alloc, &mut self.fetch_faults, name) {
            Ok(()) => Err(fault),
            Err(_) => Err(FetchError::OutOfMemory),
        }
    }

    fn keep(&mut self, alloc: Global, name: &str, bytes: &[u8]) -> Result<(), KeepError>
        ensures kept { OnOk result (Kept (⟦<MemoryFiles as Files>⟧.held self.old) (⟦<MemoryFiles as Files>⟧.held self.new) name.now bytes.now) }
        ensures unknown { IsErrOf result KeepError.Failed → OthersStay (⟦<MemoryFiles as Files>⟧.held self.old) (⟦<MemoryFiles as Files>⟧.held self.new) name.now }
        ensures failed { IsErrOf result KeepError.Failed → Rose (⟦<MemoryFiles as Files>⟧.keep_faults self.old name.now) (⟦<MemoryFiles as Files>⟧.keep_faults self.new name.now) }
        ensures memory { IsErrOf result KeepError.OutOfMemory → ⟦<MemoryFiles as Files>⟧.held self.new ≡ ⟦<MemoryFiles as Files>⟧.held self.old }
        ensures fetches { NoneFalls (⟦<MemoryFiles as Files>⟧.fetch_faults self.old) (⟦<MemoryFiles as Files>⟧.fetch_faults self.new) }
        ensures keeps { NoneFalls (⟦<MemoryFiles as Files>⟧.keep_faults self.old) (⟦<MemoryFiles as Files>⟧.keep_faults self.new) }
        ensures fetches_quiet { UnlessKeepFails result (NoneMoves (⟦<MemoryFiles as Files>⟧.fetch_faults self.old) (⟦<MemoryFiles as Files>⟧.fetch_faults self.new)) }
        ensures keeps_quiet { UnlessKeepFails result (NoneMoves (⟦<MemoryFiles as Files>⟧.keep_faults self.old) (⟦<MemoryFiles as Files>⟧.keep_faults self.new)) }
        ensures as_told { KeepsAsTold (is_to_fail self.old.calls.failing.items self.old.calls.made) result }
        ensures stays { OnErr result (⟦<MemoryFiles as Files>⟧.held self.new ≡ ⟦<MemoryFiles as Files>⟧.held self.old) }
        ensures counted { CountsCall self.old.calls self.new.calls }
        ensures failed_counted { IsErrOf result KeepError.Failed → OneMoreFault (⟦<MemoryFiles as Files>⟧.keep_faults self.old) (⟦<MemoryFiles as Files>⟧.keep_faults self.new) name.now }
        ensures called { ⟦<MemoryFiles as Files>⟧.calls self.new ≡ once_kept (⟦<MemoryFiles as Files>⟧.calls self.old) }
        ensures rest { self.new ≡ record self.old { entries = self.new.entries; calls = self.new.calls; keep_faults = self.new.keep_faults; keeps = self.new.keeps } }
    {
        self.keeps = self.keeps.saturating_add(1);
        if self.calls.next_fails() {
            return match count_fault(alloc, &mut self.keep_faults, name) {
                Ok(()) => Err(KeepError::Failed),
                Err(_) => Err(KeepError::OutOfMemory),
            };
        }
        match add_entry(alloc, &mut self.entries, name, bytes) {
            Ok(()) => Ok(()),
            Err(_) => Err(KeepError::OutOfMemory),
        }
    }
}

/// Files in memory that have no fault but a missing file. The count of a name that they were made
/// with is always 0.
#[derive(Debug, Drop)]
pub struct SteadyFiles {
    // Those kept, and those that it was made with, the newest first.
    kept: Vec<Entry>,
    made_with: Vec<Entry>,
    misses: u64,
    fetches: u64,
    keeps: u64,
}

impl SteadyFiles {
    /// No files.
    pub fn new(alloc: Global) -> SteadyFiles
        ensures held { ⟦<SteadyFiles as Files>⟧.held result ≡ Some (folder_of []) }
        ensures none_kept { result.kept.items ≡ [] }
        ensures uncalled { ⟦<SteadyFiles as Files>⟧.calls result ≡ record { fetches = 0; keeps = 0 } }
    {
        SteadyFiles {
            kept: Vec::new(alloc),
            made_with: Vec::new(alloc),
            misses: 0,
            fetches: 0,
            keeps: 0,
        }
    }

    /// Makes the files with one more, before any is kept.
    pub fn hold(&mut self, alloc: Global, name: &str, bytes: &[u8]) -> Result<(), OutOfMemory>
        requires { self.old.kept.items ≡ [] }
        ensures ok { OnOk result (Kept (⟦<SteadyFiles as Files>⟧.held self.old) (⟦<SteadyFiles as Files>⟧.held self.new) name.now bytes.now) }
        ensures err { OnErr result (⟦<SteadyFiles as Files>⟧.held self.new ≡ ⟦<SteadyFiles as Files>⟧.held self.old) }
        ensures rest { self.new ≡ record self.old { made_with = self.new.made_with } }
    {
        add_entry(alloc, &mut self.made_with, name, bytes)
    }

    /// The content of a file that is held.
    pub fn content(&self, name: &str) -> Option<&[u8]>
        ensures { Some (option_copied result) ≡ option_map (λ folder. get folder name.now) (⟦<SteadyFiles as Files>⟧.held self.now) }
    {
        find_in_both(self.kept.as_slice(), self.made_with.as_slice(), name)
    }
}

impl Files for SteadyFiles {
    ghost held = { λ s. Some (folder_of (s.kept.items ++ s.made_with.items)) };

    ghost fetch_faults = { λ s name. misses_of (folder_of s.made_with.items) s.misses name };

    ghost keep_faults = { λ _ _. 0 };

    ghost calls = { λ s. record { fetches = s.fetches; keeps = s.keeps } };

    fn fetch(&mut self, alloc: Global, name: &str, limit: usize) -> Result<Vec<u8>, FetchError>
        ensures content { IfOk result (λ bytes. Tells (⟦<SteadyFiles as Files>⟧.held self.old) name.now (Some bytes.items)) }
        ensures within { IfOk result (λ bytes. length bytes.items ≤ limit) }
        ensures long { IsErrOf result FetchError.TooLong → IsLong (⟦<SteadyFiles as Files>⟧.held self.old) name.now limit }
        ensures missing { IsErrOf result FetchError.Missing → Rose (⟦<SteadyFiles as Files>⟧.fetch_faults self.old name.now) (⟦<SteadyFiles as Files>⟧.fetch_faults self.new name.now) }
        ensures failed { IsErrOf result FetchError.Failed → Rose (⟦<SteadyFiles as Files>⟧.fetch_faults self.old name.now) (⟦<SteadyFiles as Files>⟧.fetch_faults self.new name.now) }
        ensures fetches { NoneFalls (⟦<SteadyFiles as Files>⟧.fetch_faults self.old) (⟦<SteadyFiles as Files>⟧.fetch_faults self.new) }
        ensures keeps { NoneFalls (⟦<SteadyFiles as Files>⟧.keep_faults self.old) (⟦<SteadyFiles as Files>⟧.keep_faults self.new) }
        ensures fetches_quiet { UnlessFetchFails result (NoneMoves (⟦<SteadyFiles as Files>⟧.fetch_faults self.old) (⟦<SteadyFiles as Files>⟧.fetch_faults self.new)) }
        ensures keeps_quiet { UnlessFetchFails result (NoneMoves (⟦<SteadyFiles as Files>⟧.keep_faults self.old) (⟦<SteadyFiles as Files>⟧.keep_faults self.new)) }
        ensures files { ⟦<SteadyFiles as Files>⟧.held self.new ≡ ⟦<SteadyFiles as Files>⟧.held self.old }
        ensures called { ⟦<SteadyFiles as Files>⟧.calls self.new ≡ once_fetched (⟦<SteadyFiles as Files>⟧.calls self.old) }
        ensures as_told { FetchesAsTold false (get (folder_of (self.old.kept.items ++ self.old.made_with.items)) name.now) limit result }
        ensures miss { IsErrOf result FetchError.Missing → self.new.misses ≡ next_count self.old.misses }
        ensures hit { UnlessFetchFails result (self.new.misses ≡ self.old.misses) }
        ensures rest { self.new ≡ record self.old { misses = self.new.misses; fetches = self.new.fetches } }
    {
        self.fetches = self.fetches.saturating_add(1);
        match find_in_both(self.kept.as_slice(), self.made_with.as_slice(), name) {
            Some(content) => fetched(alloc, content, limit),
            None => {
                self.misses = self.misses.saturating_add(1);
                Err(FetchError::Missing)
            }
        }
    }

    fn keep(&mut self, alloc: Global, name: &str, bytes: &[u8]) -> Result<(), KeepError>
        ensures kept { OnOk result (Kept (⟦<SteadyFiles as Files>⟧.held self.old) (⟦<SteadyFiles as Files>⟧.held self.new) name.now bytes.now) }
        ensures unknown { IsErrOf result KeepError.Failed → OthersStay (⟦<SteadyFiles as Files>⟧.held self.old) (⟦<SteadyFiles as Files>⟧.held self.new) name.now }
        ensures failed { IsErrOf result KeepError.Failed → Rose (⟦<SteadyFiles as Files>⟧.keep_faults self.old name.now) (⟦<SteadyFiles as Files>⟧.keep_faults self.new name.now) }
        ensures memory { IsErrOf result KeepError.OutOfMemory → ⟦<SteadyFiles as Files>⟧.held self.new ≡ ⟦<SteadyFiles as Files>⟧.held self.old }
        ensures fetches { NoneFalls (⟦<SteadyFiles as Files>⟧.fetch_faults self.old) (⟦<SteadyFiles as Files>⟧.fetch_faults self.new) }
        ensures keeps { NoneFalls (⟦<SteadyFiles as Files>⟧.keep_faults self.old) (⟦<SteadyFiles as Files>⟧.keep_faults self.new) }
        ensures fetches_quiet { UnlessKeepFails result (NoneMoves (⟦<SteadyFiles as Files>⟧.fetch_faults self.old) (⟦<SteadyFiles as Files>⟧.fetch_faults self.new)) }
        ensures keeps_quiet { UnlessKeepFails result (NoneMoves (⟦<SteadyFiles as Files>⟧.keep_faults self.old) (⟦<SteadyFiles as Files>⟧.keep_faults self.new)) }
        ensures as_told { KeepsAsTold false result }
        ensures called { ⟦<SteadyFiles as Files>⟧.calls self.new ≡ once_kept (⟦<SteadyFiles as Files>⟧.calls self.old) }
        ensures rest { self.new ≡ record self.old { kept = self.new.kept; keeps = self.new.keeps } }
    {
        self.keeps = self.keeps.saturating_add(1);
        let Ok(entry) = entry_of(alloc, name, bytes) else {
            return Err(KeepError::OutOfMemory);
        };
        match self.kept.insert(0, entry) {
            Ok(()) => Ok(()),
            Err(_) => Err(KeepError::OutOfMemory),
        }
    }
}
