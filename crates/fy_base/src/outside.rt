//! What a call may ask of the outside: a source of bytes, a sink, and files by name.

ghost use Rattle.std.specs.Prelude.{◌≡◌, ℕ, ◌<◌, ◌≤◌, IsTrue, length, take, is_none, IfOk, OnOk, OnErr, IsErrOf, Some};
ghost use Rattle.std.specs.Option.{option_to_list};
ghost use Rattle.std.specs.declared.option.Option.{Option};
ghost use Rattle.fy_base.specs.Outside.{Bytes, Folder, Rose, HasCause, Gave, IsAtEnd, Drew, Gained, GainedPart, Tells, IsLong, Kept, OthersStay, NoneFalls, NoneMoves, UnlessFetchFails, UnlessKeepFails, FileCalls, once_fetched, once_kept};

use std::alloc::Global;
use thiserror::Error;

/// A source or a sink failed.
#[derive(Clone, Copy, PartialEq, Eq, Debug, Error)]
#[error("the source or the sink failed")]
pub struct Failed;

/// Why a file wasn't fetched.
#[derive(Clone, Copy, PartialEq, Eq, Debug, Error)]
pub enum FetchError {
    /// There is no such file. The name's count of `fetch` rose.
    #[error("there is no such file")]
    Missing,
    /// The file could not be read. The name's count of `fetch` rose.
    #[error("the file could not be read")]
    Failed,
    /// The content is longer than the limit.
    #[error("the file is too long")]
    TooLong,
    /// Memory was wanting.
    #[error("out of memory")]
    OutOfMemory,
}

/// Why a file wasn't kept.
#[derive(Clone, Copy, PartialEq, Eq, Debug, Error)]
pub enum KeepError {
    /// The file could not be written, and what it holds is unknown. The name's count of `keep` rose.
    #[error("the file could not be written")]
    Failed,
    /// Memory was wanting. All files are as before.
    #[error("out of memory")]
    OutOfMemory,
}

/// A source of bytes.
pub trait Source {
    /// The bytes left, where the source tells them.
    ghost left: { Self → Option Bytes };

    /// How often it failed; the count stands still at 2^64 - 1.
    ghost faults: { Self → ℕ };

    /// Fills a beginning of the room with the first bytes left and answers their number. For a
    /// room that isn't empty 0 is the end of input.
    ///
    /// # Errors
    ///
    /// `Failed` comes only where the count of faults rose. Then no byte was taken. A call that
    /// succeeds leaves the count.
    fn take(&mut self, room: &mut [u8]) -> Result<usize, Failed>
        ensures bound { IfOk result (λ n. n ≤ length room.new) }
        ensures taken { IfOk result (λ n. Gave (left self.old) (left self.new) (take n room.new)) }
        ensures end { IfOk result (λ n. n ≡ 0 → 0 < length room.new → IsAtEnd (left self.old)) }
        ensures none { OnErr result (left self.new ≡ left self.old) }
        ensures cause { HasCause (faults self.old) (faults self.new) result };
}

/// The next byte of a source, or `None` at its end. `over` says whether the source was at its end
/// once; such a source is over, and isn't asked again.
///
/// # Errors
///
/// `Failed` comes only where the source's count of faults rose. Then no byte was taken. A call that
/// succeeds leaves the count.
pub fn next_byte<I: Source>(input: &mut I, over: &mut bool) -> Result<Option<u8>, Failed>
    requires { IsTrue over.old → IsAtEnd (I.left input.old) }
    ensures drew { IfOk result (λ byte. Drew (I.left input.old) (I.left input.new) over.old over.new (option_to_list byte)) }
    ensures over { IfOk result (λ byte. over.new ≡ is_none byte) }
    ensures none { OnErr result (I.left input.new ≡ I.left input.old) }
    ensures stays { OnErr result (over.new ≡ over.old) }
    ensures cause { HasCause (I.faults input.old) (I.faults input.new) result }
{
    if *over {
        return Ok(None);
    }
    let mut room = [0];
    match input.take(&mut room)? {
        0 => {
            *over = true;
            Ok(None)
        }
        _ => Ok(Some(room[0])),
    }
}

/// A sink of bytes.
pub trait Sink {
    /// The bytes held, where the sink tells them.
    ghost held: { Self → Option Bytes };

    /// How often it failed; the count stands still at 2^64 - 1.
    ghost faults: { Self → ℕ };

    /// Appends the piece.
    ///
    /// # Errors
    ///
    /// `Failed` comes only where the count of faults rose. Then a prefix of the piece was appended.
    /// A call that succeeds leaves the count.
    fn put(&mut self, piece: &[u8]) -> Result<(), Failed>
        ensures gained { OnOk result (Gained (held self.old) (held self.new) piece.now) }
        ensures part { OnErr result (GainedPart (held self.old) (held self.new) piece.now) }
        ensures cause { HasCause (faults self.old) (faults self.new) result };
}

/// Files by name. Each name has a count of faults of `fetch` and one of `keep`, and all names
/// together have a count of calls of either.
pub trait Files {
    /// The files, where they are told.
    ghost held: { Self → Option Folder };

    ghost fetch_faults: { Self → Bytes → ℕ };

    ghost keep_faults: { Self → Bytes → ℕ };

    /// How often either was called; a count stands still at 2^64 - 1.
    ghost calls: { Self → FileCalls };

    /// The content of the named file. Whatever it answers, all files stay, and the call is counted.
    ///
    /// # Errors
    ///
    /// `Missing` and `Failed` come only where the `fetch` count of this name rose. `TooLong` comes
    /// exactly where neither of them comes and the content is longer than `limit`. Unless `Missing`
    /// or `Failed` comes, all counts of all names stand still.
    fn fetch(&mut self, alloc: Global, name: &str, limit: usize) -> Result<Vec<u8>, FetchError>
        ensures content { IfOk result (λ bytes. Tells (held self.old) name.now (Some bytes.items)) }
        ensures within { IfOk result (λ bytes. length bytes.items ≤ limit) }
        ensures long { IsErrOf result FetchError.TooLong → IsLong (held self.old) name.now limit }
        ensures missing { IsErrOf result FetchError.Missing → Rose (fetch_faults self.old name.now) (fetch_faults self.new name.now) }
        ensures failed { IsErrOf result FetchError.Failed → Rose (fetch_faults self.old name.now) (fetch_faults self.new name.now) }
        ensures fetches { NoneFalls (fetch_faults self.old) (fetch_faults self.new) }
        ensures keeps { NoneFalls (keep_faults self.old) (keep_faults self.new) }
        ensures fetches_quiet { UnlessFetchFails result (NoneMoves (fetch_faults self.old) (fetch_faults self.new)) }
        ensures keeps_quiet { UnlessFetchFails result (NoneMoves (keep_faults self.old) (keep_faults self.new)) }
        ensures files { held self.new ≡ held self.old }
        ensures called { calls self.new ≡ once_fetched (calls self.old) };

    /// Makes the named file hold the bytes; all others stay. Whatever it answers, the call is counted.
    ///
    /// # Errors
    ///
    /// `Failed` comes only where the `keep` count of this name rose; then the named file is unknown
    /// and all others stay. After `OutOfMemory` all files stay. Unless `Failed` comes, all counts of
    /// all names stand still.
    fn keep(&mut self, alloc: Global, name: &str, bytes: &[u8]) -> Result<(), KeepError>
        ensures kept { OnOk result (Kept (held self.old) (held self.new) name.now bytes.now) }
        ensures unknown { IsErrOf result KeepError.Failed → OthersStay (held self.old) (held self.new) name.now }
        ensures failed { IsErrOf result KeepError.Failed → Rose (keep_faults self.old name.now) (keep_faults self.new name.now) }
        ensures memory { IsErrOf result KeepError.OutOfMemory → held self.new ≡ held self.old }
        ensures fetches { NoneFalls (fetch_faults self.old) (fetch_faults self.new) }
        ensures keeps { NoneFalls (keep_faults self.old) (keep_faults self.new) }
        ensures fetches_quiet { UnlessKeepFails result (NoneMoves (fetch_faults self.old) (fetch_faults self.new)) }
        ensures keeps_quiet { UnlessKeepFails result (NoneMoves (keep_faults self.old) (keep_faults self.new)) }
        ensures called { calls self.new ≡ once_kept (calls self.old) };
}
