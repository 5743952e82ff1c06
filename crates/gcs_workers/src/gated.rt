//! A source whose reads pass a gate.
ghost use Rattle.std.specs.Prelude.{◌≡◌};

use gcs_io::{Failed, Gate, Place, Source};

/// A source that passes a gate, as a worker, before each read. Its reads are numbered from 1.
#[derive(Drop)]
pub struct Gated<'g, S, G> {
    source: S,
    gate: &'g G,
    worker: u32,
    reads: u64,
}

impl<'g, S, G> Gated<'g, S, G> {
    pub fn new(source: S, gate: &'g G, worker: u32) -> Gated<'g, S, G>
        ensures { result.source ≡ source }
    {
        Gated {
            source,
            gate,
            worker,
            reads: 0,
        }
    }

    pub fn into_source(self) -> S
        ensures { result ≡ self.entry.source }
    {
        let Gated {
            source,
            gate: _,
            worker: _,
            reads: _,
        } = self;
        source
    }
}

impl<'g, S: Source, G: Gate> Source for Gated<'g, S, G> {
    ghost rest = { λ s. S.rest s.source };

    ghost taken = { λ s. S.taken s.source };

    ghost ended = { λ s. S.ended s.source };

    ghost faults = { λ s. S.faults s.source };

    fn read(&mut self, into: &mut [u8]) -> Result<usize, Failed> {
        self.reads = self.reads.saturating_add(1);
        self.gate.at(self.worker, Place::Read(self.reads));
        self.source.read(into)
    }
}
