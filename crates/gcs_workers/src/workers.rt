//! Workers who take connections from one listener and serve them over one store.
ghost use Rattle.std.specs.Prelude.{◌≡◌, List};
ghost use Rattle.gcs_http_in.specs.Usual.{IsAllowed};
ghost use Rattle.gcs_session.specs.Running.{Grows};
ghost use Rattle.gcs_store.specs.Passes.{IsPassesOf};
ghost use Rattle.gcs_store.specs.Store.{mine_in, seen_in};
ghost use Rattle.gcs_workers.specs.Serving.{AreServed, Served};
ghost use Rattle.gcs_workers.specs.Working.{HasWorked};

use crate::link::Link;
use crate::listener::Listen;
use gcs_chunks::Chunks;
use gcs_http_in::Limits;
use gcs_io::{Failed, Gate};
use gcs_store::{Passes, SharedDesk, SharedStore};
use std::alloc::Global;
use std::mem;
use std::sync::atomic::{AtomicU32, Ordering};
use std::sync::{Mutex, Wait};

/// What all workers of a run share: the store with its chunks, the listener behind a lock, the gate and the limits.
#[derive(Drop)]
pub struct Workers<'a, 'c, R: Wait, L: Listen, G: Gate> {
    pub rt: &'a R,
    pub alloc: Global,
    pub store: &'a SharedStore<'c>,
    pub chunks: &'a Chunks,
    pub door: &'a Mutex<L>,
    pub gate: &'a G,
    pub limits: &'a Limits,
    /// How many workers have begun.
    pub started: AtomicU32,
}

impl<'a, 'c, R: Wait, L: Listen, G: Gate> Workers<'a, 'c, R, L, G> {
    /// One worker's work by the passes of a caller: it takes one connection after another and serves each to its end, until
    /// none comes or the listener fails. How a connection ends is no reason to stop.
    pub fn work(&self, passes: &mut Passes<'c>)
        requires allowed { IsAllowed self.now.limits.now }
        requires chunks { self.now.store.now.chunks ≡ self.now.chunks.now }
        requires own { IsPassesOf self.now.store.now passes.old }
        ensures { HasWorked self.now.limits.now self.now.store.now passes.old passes.new }
    {
        let worker = self.started.fetch_add(1, Ordering::SeqCst);
        let own = mem::replace(passes, Passes::none(self.alloc));
        let mut desk = self.store.desk(self.rt, self.gate, worker, own);
        self.serve(&mut desk, worker);
        *passes = desk.leave();
    }

    fn serve(&self, desk: &mut SharedDesk<'_, '_, R, G>, worker: u32)
        requires allowed { IsAllowed self.now.limits.now }
        requires chunks { desk.old.home.chunks ≡ self.now.chunks.now }
        ensures home { desk.new.home ≡ desk.old.home }
        ensures caller { desk.new.caller ≡ desk.old.caller }
        ensures seen { Grows (seen_in desk.old.rows) (seen_in desk.new.rows) }
        ensures served { (connections : List Served) × AreServed self.now.limits.now desk.old.caller connections
            (seen_in desk.old.rows) (mine_in desk.old.rows) (seen_in desk.new.rows) (mine_in desk.new.rows) }
    {
        for _ in self.rt.forever() {
            match self.next() {
                Ok(Some(link)) => {
                    let (_, pair) = link.serve(
                        self.alloc,
                        desk,
                        self.chunks,
                        self.gate,
                        worker,
                        self.limits,
                    );
                    drop(pair);
                }
                Ok(None) | Err(_) => return,
            }
        }
        unreachable!()
    }

    // The next connection. The others wait for it while the listener waits.
    fn next(&self) -> Result<Option<Link<L::Reader, L::Writer, L::Time>>, Failed> {
        self.door.lock(self.rt).next()
    }
}
