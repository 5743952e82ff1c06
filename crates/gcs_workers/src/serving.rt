//! Workers beside each other, one for the passes of each caller.
ghost use Rattle.std.specs.Prelude.{◌≡◌, ◌≤◌, ℕ, length, true, vec_capacity};
ghost use Rattle.std.specs.Thread.{IsSend, IsSync};
ghost use mathlib.Core.Option.{some};
ghost use lib.ListN.{get_elem?};
ghost use Rattle.gcs_io.specs.Causes.{Rose};
ghost use Rattle.gcs_http_in.specs.Usual.{IsAllowed};
ghost use Rattle.gcs_store.specs.Passes.{AreAllPassesOf, IsPassesOf};
ghost use Rattle.gcs_workers.specs.Working.{HasWorked, HaveWorked};

use crate::listener::Listen;
use crate::workers::Workers;
use gcs_chunks::Chunks;
use gcs_http_in::Limits;
use gcs_io::Gate;
use gcs_store::{Passes, SharedStore};
use std::alloc::Global;
use std::sync::atomic::AtomicU32;
use std::sync::{Mutex, Wait};
use std::thread::{Threads, join_mut};

/// Why no further connection is served.
#[derive(Clone, Copy, Debug, PartialEq, Eq)]
pub enum ServeEnd {
    /// No further connection comes.
    Ended,
    /// The listener failed.
    ListenFault,
}

/// Serves the connections of a listener over a store, by a worker for the passes of each caller, all beside each other: each
/// takes the next connection under a lock of the listener, serves it to its end, and stops where none comes or the listener
/// fails. The passes and the listener are given back. The chunks are those of the store.
///
/// Where the workers stopped and no count of the listener rose in this call, they begin again. It may wait for a connection,
/// or for bytes of one, without an end.
pub fn serve_all<'c, R: Threads + Wait + Sync, L: Listen + Send, G: Gate>(
    rt: &R,
    alloc: Global,
    store: &SharedStore<'c>,
    chunks: &Chunks,
    listen: L,
    gate: &G,
    passes: Vec<Passes<'c>>,
    limits: &Limits,
) -> (ServeEnd, Vec<Passes<'c>>, L)
    requires allowed { IsAllowed limits.now }
    requires chunks { store.now.chunks ≡ chunks.now }
    requires some { 1 ≤ length passes.items }
    requires own { (i : ℕ) (p : Passes) → get_elem? passes.items i ≡ some p → IsPassesOf store.now p }

    // Each worker's connections were served in order, each over what its caller had seen at the end of the one before.
    ensures worked { HaveWorked limits.now store.now passes.entry.items result.1.items }
    ensures all { AreAllPassesOf store.now passes.entry.items → AreAllPassesOf store.now result.1.items }

    // The listener's counts say why it stopped.
    ensures ended { result.0 ≡ ServeEnd.Ended → Rose (L.end_count listen) (L.end_count result.2) }
    ensures fault { result.0 ≡ ServeEnd.ListenFault → Rose (L.fault_count listen) (L.fault_count result.2) }
{
    let (faults, ends) = (listen.faults(), listen.ends());
    let (mut listen, mut passes) = (listen, passes);
    for _ in rt.forever() {
        let door = Mutex::new(listen);
        let workers = Workers {
            rt,
            alloc,
            store,
            chunks,
            door: &door,
            gate,
            limits,
            started: AtomicU32::new(0),
        };
        serve_beside(&workers, &mut passes);
        drop(workers);
        listen = door.into_inner();
        if rose(faults, listen.faults()) {
            return (ServeEnd::ListenFault, passes, listen);
        }
        if rose(ends, listen.ends()) {
            return (ServeEnd::Ended, passes, listen);
        }
    }
    unreachable!()
}

// A worker for each of the passes, all beside each other.
#[cycle(workers)]
fn serve_beside<'c, R: Threads + Wait + Sync, L: Listen + Send, G: Gate>(
    workers: &Workers<'_, 'c, R, L, G>,
    passes: &mut Vec<Passes<'c>>,
)
    requires allowed { IsAllowed workers.now.limits.now }
    requires chunks { workers.now.store.now.chunks ≡ workers.now.chunks.now }
    requires own { (i : ℕ) (p : Passes) → get_elem? passes.old.items i ≡ some p → IsPassesOf workers.now.store.now p }
    ensures worked { HaveWorked workers.now.limits.now workers.now.store.now passes.old.items passes.new.items }
    ensures room { vec_capacity passes.new ≡ vec_capacity passes.old }
{
    let Some(mut last) = passes.pop() else {
        return;
    };
    serve_both(workers, &mut last, passes);
    passes.push_reserved(last);
}

// One worker, and beside it one for each of the others.
#[cycle(workers)]
fn serve_both<'c, R: Threads + Wait + Sync, L: Listen + Send, G: Gate>(
    workers: &Workers<'_, 'c, R, L, G>,
    one: &mut Passes<'c>,
    others: &mut Vec<Passes<'c>>,
)
    requires allowed { IsAllowed workers.now.limits.now }
    requires chunks { workers.now.store.now.chunks ≡ workers.now.chunks.now }
    requires own { IsPassesOf workers.now.store.now one.old }
    requires others { (i : ℕ) (p : Passes) → get_elem? others.old.items i ≡ some p → IsPassesOf workers.now.store.now p }
    ensures one { HasWorked workers.now.limits.now workers.now.store.now one.old one.new }
    ensures worked { HaveWorked workers.now.limits.now workers.now.store.now others.old.items others.new.items }
    ensures room { vec_capacity others.new ≡ vec_capacity others.old }
{
    join_mut(
        workers.rt,
        &mut ||
            requires threads { IsSync R.row × IsSend L.row × IsSync G.row }
            requires allowed { IsAllowed workers.now.limits.now }
            requires chunks { workers.now.store.now.chunks ≡ workers.now.chunks.now }
            requires own { (i : ℕ) (p : Passes) → get_elem? others.now.items i ≡ some p → IsPassesOf workers.now.store.now p }
            ensures worked { HaveWorked workers.entry.now.limits.now workers.entry.now.store.now others.entry.now.items others.exit.now.items }
            ensures room { vec_capacity others.exit.now ≡ vec_capacity others.entry.now }
        { serve_beside(workers, others) },
        &mut ||
            requires allowed { IsAllowed workers.now.limits.now }
            requires chunks { workers.now.store.now.chunks ≡ workers.now.chunks.now }
            requires own { IsPassesOf workers.now.store.now one.now }
            ensures { HasWorked workers.entry.now.limits.now workers.entry.now.store.now one.entry.now one.exit.now }
        { workers.work(one) },
    );
}

// Whether a count rose, or stands at its last value.
fn rose(before: u64, now: u64) -> bool
    ensures { result ≡ true → Rose before now }
{
    now > before || now == u64::MAX
}
