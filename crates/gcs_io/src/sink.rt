//! Where bytes go.
ghost use Rattle.std.specs.Prelude.{◌≡◌, ◌≤◌, ◌<◌, ℕ, List, Option, Some, None, IfOk, is_err, length, min, [], ◌||◌};
ghost use Rattle.std.specs.Prelude.{vec_len, vec_capacity};
ghost use Rattle.gcs_io.specs.Causes.{HasCause};
ghost use Rattle.gcs_io.specs.Failing.{counted, fails_at};
ghost use Rattle.gcs_io.specs.Told.{Takes};

use crate::Failed;
use crate::failing::Failing;
use std::alloc::{AllocError, Global};
use std::io::Write;

/// A stream of bytes that go outside.
pub trait Sink: Drop {
    /// The bytes that were written, where they are told.
    ghost written: { Self → Option (List ℕ) };

    /// How often a write has failed.
    ghost faults: { Self → ℕ };

    /// Writes bytes from the front of the piece, and answers how many: at least one, where there is
    /// one. `Failed`: nothing was written, and the failure is counted.
    fn write(&mut self, from: &[u8]) -> Result<usize, Failed>
        ensures bound { IfOk result (λ count. count ≤ length from.now) }
        ensures some { IfOk result (λ count. 0 < length from.now → 0 < count) }
        ensures written { Takes (written self.old) (written self.new) result from.now }
        ensures cause { HasCause (faults self.old) (faults self.new) result };
}

/// A sink in memory that takes `room` bytes. Once they are used it fails, but for empty pieces. The
/// calls whose numbers, from 1, are in `failing` fail and take nothing.
#[derive(Drop)]
pub struct MemSink {
    room: usize,
    held: Vec<u8>,
    failing: Failing,
    faults: u64,
    ghost roomy: { room ≤ vec_capacity held },
    ghost within: { vec_len held ≤ room },
}

impl MemSink {
    ghost use Rattle.gcs_io.specs.MemorySink.{sink_room, sink_failing, sink_calls};

    /// Takes the memory for all its room. `Err`: there is none.
    pub fn new(alloc: Global, room: usize, failing: Vec<u32>) -> Result<MemSink, AllocError>
        ensures written { IfOk result (λ s. ⟦<MemSink as Sink>⟧.written s ≡ Some []) }
        ensures faults { IfOk result (λ s. ⟦<MemSink as Sink>⟧.faults s ≡ 0) }
        ensures room { IfOk result (λ s. sink_room s ≡ room) }
        ensures failing { IfOk result (λ s. sink_failing s ≡ failing.items) }
        ensures calls { IfOk result (λ s. sink_calls s ≡ 0) }
    {
        let held = Vec::with_capacity(alloc, room)?;
        Ok(MemSink {
            room,
            held,
            failing: Failing::new(failing),
            faults: 0,
        })
    }

    /// All bytes that were written.
    pub fn written(&self) -> &[u8]
        ensures { ⟦<MemSink as Sink>⟧.written self.now ≡ Some result.now }
    {
        &self.held
    }
}

impl Sink for MemSink {
    ghost use Rattle.gcs_io.specs.MemorySink.{sink_written, sink_room, sink_left, is_crowded_out, sink_failing, sink_calls};

    ghost written = { λ s. Some (sink_written s) };

    ghost faults = { λ s. s.faults };

    fn write(&mut self, from: &[u8]) -> Result<usize, Failed>
        ensures bound { IfOk result (λ count. count ≤ length from.now) }
        ensures some { IfOk result (λ count. 0 < length from.now → 0 < count) }
        ensures written { Takes (Some (sink_written self.old)) (Some (sink_written self.new)) result from.now }
        ensures cause { HasCause self.old.faults self.new.faults result }

        // Beyond the trait: which calls fail, and how much the others take.
        ensures room { sink_room self.new ≡ sink_room self.old }
        ensures calls { sink_calls self.new ≡ counted (sink_calls self.old) }
        ensures failing { sink_failing self.new ≡ sink_failing self.old }
        ensures fails { is_err result ≡ (fails_at (sink_failing self.old) (sink_calls self.new)
            || is_crowded_out (length from.now) (sink_left self.old)) }
        ensures much { IfOk result (λ count. count ≡ min (length from.now) (sink_left self.old)) }
    {
        let fails = self.failing.next_fails();
        let count = (self.room - self.held.len()).min(from.len());
        if fails || (count == 0 && from.len() > 0) {
            self.faults = self.faults.saturating_add(1);
            return Err(Failed);
        }
        match self.held.extend_from_slice(&from[..count]) {
            Ok(()) => Ok(count),
            Err(_) => unreachable!(),
        }
    }
}

/// A sink over any writer. It tells nothing of the bytes: what a writer does with them is trusted.
#[derive(Drop)]
pub struct StdSink<W: Write + Drop> {
    writer: W,
    faults: u64,
}

impl<W: Write + Drop> StdSink<W> {
    pub fn new(writer: W) -> StdSink<W>
        ensures faults { ⟦<StdSink<W> as Sink>⟧.faults result ≡ 0 }
    {
        StdSink { writer, faults: 0 }
    }
}

impl<W: Write + Drop> Sink for StdSink<W> {
    ghost written = { λ s. None };

    ghost faults = { λ s. s.faults };

    fn write(&mut self, from: &[u8]) -> Result<usize, Failed> {
        match self.writer.write(from) {
            Ok(count) if count > 0 || from.is_empty() => Ok(count),
            // A writer that takes nothing of a piece with bytes would be asked again for ever.
            _ => {
                self.faults = self.faults.saturating_add(1);
                Err(Failed)
            }
        }
    }
}
