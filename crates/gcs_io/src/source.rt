//! Where bytes come from.
ghost use Rattle.std.specs.Prelude.{◌≡◌, ◌≤◌, ◌<◌, ◌+◌, ◌-◌, ℕ, List, Option, Bool, true, false, Some, None, IfOk, is_err, length, min, take, drop, []};
ghost use Rattle.std.specs.Prelude.{slice_range};
ghost use Rattle.std.specs.Io.{ReadsAtMost};
ghost use Rattle.gcs_io.specs.Causes.{HasCause};
ghost use Rattle.gcs_io.specs.Failing.{counted, fails_at};
ghost use Rattle.gcs_io.specs.Pieces.{joined, left, passed, next_bytes, IsInside};
ghost use Rattle.gcs_io.specs.Told.{Gives, Takes, is_end, IsOver};

use crate::Failed;
use crate::failing::Failing;
use std::io::Read;

/// A stream of bytes that come from outside.
pub trait Source: Drop {
    /// The bytes that are left, where they are told.
    ghost rest: { Self → Option (List ℕ) };

    /// The bytes that were read, where they are told.
    ghost taken: { Self → Option (List ℕ) };

    /// The last read was an `Ok` of 0 into a buffer with room. Every other read makes it false.
    ghost ended: { Self → Bool };

    /// How often a read has failed.
    ghost faults: { Self → ℕ };

    /// Reads the next bytes to the front of the buffer, and answers how many. 0 into a buffer with
    /// room is the end of the input. `Failed`: nothing was taken, and the failure is counted.
    fn read(&mut self, into: &mut [u8]) -> Result<usize, Failed>
        ensures bound { ReadsAtMost result into.new }
        ensures rest { Gives (rest self.old) (rest self.new) result into.new }
        ensures taken { Takes (taken self.old) (taken self.new) result into.new }
        ensures ended { ended self.new ≡ is_end result into.new }
        ensures over { ended self.new ≡ true → IsOver (rest self.new) }
        ensures cause { HasCause (faults self.old) (faults self.new) result };
}

/// A source over pieces in memory. A read gives at most the rest of one piece, and passes empty
/// pieces over. The calls whose numbers, from 1, are in `failing` fail and take nothing.
///
/// pieces ab, c; failing 2
/// read 1 byte     a
/// read 9 bytes    failed
/// read 9 bytes    b
/// read 9 bytes    c
/// read 9 bytes    the end
#[derive(Drop)]
pub struct MemSource {
    pieces: Vec<Vec<u8>>,
    index: usize,
    at: usize,
    failing: Failing,
    ended: bool,
    faults: u64,
}

impl MemSource {
    ghost use Rattle.gcs_io.specs.MemorySource.{source_failing, source_calls};

    pub fn new(pieces: Vec<Vec<u8>>, failing: Vec<u32>) -> MemSource
        ensures rest { ⟦<MemSource as Source>⟧.rest result ≡ Some (joined pieces.items) }
        ensures taken { ⟦<MemSource as Source>⟧.taken result ≡ Some [] }
        ensures ended { ⟦<MemSource as Source>⟧.ended result ≡ false }
        ensures faults { ⟦<MemSource as Source>⟧.faults result ≡ 0 }
        ensures failing { source_failing result ≡ failing.items }
        ensures calls { source_calls result ≡ 0 }
    {
        MemSource {
            pieces,
            index: 0,
            at: 0,
            failing: Failing::new(failing),
            ended: false,
            faults: 0,
        }
    }
}

// The first piece from `index` on that has bytes past `at`, and where in it. Behind the last piece
// there is none.
fn next_piece(pieces: &[Vec<u8>], mut index: usize, mut at: usize) -> (usize, usize)
    ensures left { left pieces.now result.0 result.1 ≡ left pieces.now index at }
    ensures passed { passed pieces.now result.0 result.1 ≡ passed pieces.now index at }
    ensures next { next_bytes (drop result.0 pieces.now) result.1 ≡ next_bytes (drop index pieces.now) at }
    ensures over { length pieces.now ≤ result.0 → left pieces.now result.0 result.1 ≡ [] }
    ensures found { result.0 < length pieces.now → IsInside pieces.now result.0 result.1 }
{
    while index < pieces.len() {
        let piece = &pieces[index];
        if at < piece.len() {
            break;
        }
        index += 1;
        at = 0;
    }
    (index, at)
}

// Copies as many bytes of a piece from `at` on as there are and fit.
fn copy_front(piece: &[u8], at: usize, into: &mut [u8]) -> usize
    requires { at ≤ length piece.now }
    ensures there { at + result ≤ length piece.now }
    ensures much { result ≡ min (length into.new) (length piece.now - at) }
    ensures copied { take result into.new ≡ slice_range piece.now at (at + result) }
{
    let count = (piece.len() - at).min(into.len());
    into[..count].copy_from_slice(&piece[at..at + count]);
    count
}

impl Source for MemSource {
    ghost use Rattle.gcs_io.specs.MemorySource.{source_rest, source_taken, source_next, source_failing, source_calls};

    ghost rest = { λ s. Some (source_rest s) };

    ghost taken = { λ s. Some (source_taken s) };

    ghost ended = { λ s. s.ended };

    ghost faults = { λ s. s.faults };

    fn read(&mut self, into: &mut [u8]) -> Result<usize, Failed>
        ensures bound { ReadsAtMost result into.new }
        ensures rest { Gives (Some (source_rest self.old)) (Some (source_rest self.new)) result into.new }
        ensures taken { Takes (Some (source_taken self.old)) (Some (source_taken self.new)) result into.new }
        ensures ended { self.new.ended ≡ is_end result into.new }
        ensures over { self.new.ended ≡ true → IsOver (Some (source_rest self.new)) }
        ensures cause { HasCause self.old.faults self.new.faults result }

        // Beyond the trait: which calls fail, and how much the others give.
        ensures calls { source_calls self.new ≡ counted (source_calls self.old) }
        ensures failing { source_failing self.new ≡ source_failing self.old }
        ensures fails { is_err result ≡ fails_at (source_failing self.old) (source_calls self.new) }
        ensures much { IfOk result (λ count. count ≡ min (length into.new) (length (source_next self.old))) }
    {
        self.ended = false;
        if self.failing.next_fails() {
            self.faults = self.faults.saturating_add(1);
            return Err(Failed);
        }
        let (index, at) = next_piece(&self.pieces, self.index, self.at);
        self.index = index;
        self.at = at;
        if index >= self.pieces.len() {
            self.ended = into.len() > 0;
            return Ok(0);
        }
        let count = copy_front(&self.pieces[index], at, into);
        self.at = at + count;
        Ok(count)
    }
}

/// A source over any reader. It tells nothing of the bytes: what a reader gives is trusted.
#[derive(Drop)]
pub struct StdSource<R: Read + Drop> {
    reader: R,
    ended: bool,
    faults: u64,
}

impl<R: Read + Drop> StdSource<R> {
    pub fn new(reader: R) -> StdSource<R>
        ensures ended { ⟦<StdSource<R> as Source>⟧.ended result ≡ false }
        ensures faults { ⟦<StdSource<R> as Source>⟧.faults result ≡ 0 }
    {
        StdSource {
            reader,
            ended: false,
            faults: 0,
        }
    }
}

impl<R: Read + Drop> Source for StdSource<R> {
    ghost rest = { λ s. None };

    ghost taken = { λ s. None };

    ghost ended = { λ s. s.ended };

    ghost faults = { λ s. s.faults };

    fn read(&mut self, into: &mut [u8]) -> Result<usize, Failed> {
        match self.reader.read(into) {
            Ok(count) => {
                self.ended = count == 0 && into.len() > 0;
                Ok(count)
            }
            Err(_) => {
                self.ended = false;
                self.faults = self.faults.saturating_add(1);
                Err(Failed)
            }
        }
    }
}
