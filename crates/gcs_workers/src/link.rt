//! A connection, and the right to serve it.
ghost use Rattle.std.specs.Prelude.{◌≡◌};
ghost use Rattle.gcs_io.specs.Causes.{Rose};
ghost use Rattle.gcs_http_in.specs.Usual.{IsAllowed};
ghost use Rattle.gcs_session.specs.Connection.{IsServed};
ghost use Rattle.gcs_store.specs.Store.{mine_in, seen_in};
ghost use Rattle.gcs_workers.specs.Told.{outside_of, told};

use crate::gated::Gated;
use gcs_chunks::Chunks;
use gcs_http_in::Limits;
use gcs_io::{Clock, Gate, Sink, Source};
use gcs_session::{SessionEnd, serve_connection};
use gcs_store::SharedDesk;
use std::alloc::Global;
use std::marker::Model;
use std::sync::Wait;

/// A connection: where its bytes come from, where the replies go, and the clock that its messages are read at.
#[derive(Drop)]
pub struct Pair<S, K, C> {
    pub source: S,
    pub sink: K,
    pub clock: C,
}

/// A connection that is to be served: contracts see it as its pair. It can't be dropped, and `serve` alone spends it, so
/// that a worker who has taken it serves it.
pub struct Link<S, K, C> {
    pair: Pair<S, K, C>,
}

impl<S, K, C> Model for Link<S, K, C> {
    ghost use Rattle.gcs_workers.specs.declared.link.Pair.{Pair};

    ghost Value = { Pair S K C };

    ghost view = { λ link. link.pair };
}

impl<S, K, C> Link<S, K, C> {
    pub fn new(pair: Pair<S, K, C>) -> Link<S, K, C>
        ensures { result ≡ pair }
    {
        Link { pair }
    }
}

impl<S: Source, K: Sink, C: Clock> Link<S, K, C> {
    /// Serves the connection to its end at a worker's desk, passes the gate as that worker before each read, and gives the
    /// pair back. The chunks are those of the desk's store. It may wait, for bytes and for its turns.
    pub fn serve<R: Wait, G: Gate>(
        self,
        alloc: Global,
        desk: &mut SharedDesk<'_, '_, R, G>,
        chunks: &Chunks,
        gate: &G,
        worker: u32,
        limits: &Limits,
    ) -> (SessionEnd, Pair<S, K, C>)
        requires allowed { IsAllowed limits.now }
        requires chunks { desk.old.home.chunks ≡ chunks.now }

        // The headline.
        ensures served { IsServed limits.now desk.old.caller
            (outside_of (told (S.rest self.source) (S.taken self.source) (K.written self.sink) (C.given self.clock)) (seen_in desk.old.rows) (mine_in desk.old.rows))
            (outside_of (told (S.rest result.1.source) (S.taken result.1.source) (K.written result.1.sink) (C.given result.1.clock)) (seen_in desk.new.rows) (mine_in desk.new.rows))
            (S.ended result.1.source) result.0 }
        ensures caller { desk.new.caller ≡ desk.old.caller }
        ensures home { desk.new.home ≡ desk.old.home }

        // Want of memory is answered before anything is done.
        ensures memory { result.0 ≡ SessionEnd.NoMemory → (desk.new ≡ desk.old) × (result.1 ≡ self) }

        // A fault is answered only where one was counted.
        ensures read_fault { result.0 ≡ SessionEnd.ReadFault → Rose (S.faults self.source) (S.faults result.1.source) }
        ensures write_fault { result.0 ≡ SessionEnd.WriteFault → Rose (K.faults self.sink) (K.faults result.1.sink) }
    {
        let Link { pair } = self;
        let Pair {
            source,
            mut sink,
            mut clock,
        } = pair;
        let mut source = Gated::new(source, gate, worker);
        let end = serve_connection(
            alloc,
            desk,
            chunks,
            &mut source,
            &mut sink,
            &mut clock,
            limits,
        );
        let source = source.into_source();
        (
            end,
            Pair {
                source,
                sink,
                clock,
            },
        )
    }
}
