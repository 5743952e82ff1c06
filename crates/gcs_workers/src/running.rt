//! The mode that serves the connections of a listener by workers over one store.
ghost use Rattle.std.specs.Prelude.{◌≡◌, ◌⊎◌, ◌≤◌, ℕ, List, Option};
ghost use Rattle.gcs_io.specs.Causes.{Rose};
ghost use Rattle.gcs_workers.specs.declared.words.Work.TheVariants.{Serve};
ghost use Rattle.gcs_workers.specs.Refusal.{AreTurnedAway};
ghost use Rattle.gcs_workers.specs.Words.{IsWork};

use crate::listener::Listen;
use crate::refusal::refuse_words;
use crate::serving::serve_all;
use crate::status::{Status, status_of_end};
use crate::words::{Word, WordsFault, Work, read_words};
use gcs_chunks::Chunks;
use gcs_http_in::Limits;
use gcs_io::{Gate, Sink};
use gcs_store::SharedStore;
use std::alloc::Global;
use std::sync::Wait;
use std::thread::Threads;

/// Does the words `serve ADDRESS WORKERS` and `serve ADDRESS WORKERS CONNECTIONS`: serves the connections of the listener by
/// so many workers, over one store that is empty at first and lives as long as the call. Which connections come is the
/// listener's matter: it was made for the address and the number of connections. It is given back. All other words are
/// status 2, with one line on the error sink. Nothing is written to the output.
///
/// Statuses: 0 no further connection comes; 2 words refused; 4 the write of that line failed; 5 no memory at the opening,
/// before a connection was taken; 7 the listener failed.
pub fn run_shared<R: Threads + Wait + Sync, L: Listen + Send, G: Gate, O: Sink, E: Sink>(
    rt: &R,
    alloc: Global,
    words: &[Word],
    listen: L,
    gate: &G,
    output: &mut O,
    errors: &mut E,
) -> (u8, L)
    ensures refused { ((address : List ℕ) (workers : ℕ) (connections : Option ℕ) → IsWork words.now (Serve address workers connections) → ⊥)
        → AreTurnedAway (E.written errors.old) (E.written errors.new) result.0 × (result.1 ≡ listen) }
    ensures statuses { (address : List ℕ) (workers : ℕ) (connections : Option ℕ) → IsWork words.now (Serve address workers connections)
        → (result.0 ≡ 0) ⊎ ((result.0 ≡ 5) ⊎ (result.0 ≡ 7)) }
    ensures quiet { (address : List ℕ) (workers : ℕ) (connections : Option ℕ) → IsWork words.now (Serve address workers connections) → errors.new ≡ errors.old }
    ensures ended { result.0 ≡ 0 → Rose (L.end_count listen) (L.end_count result.1) }
    ensures listen_fault { result.0 ≡ 7 → Rose (L.fault_count listen) (L.fault_count result.1) }
    ensures memory { result.0 ≡ 5 → result.1 ≡ listen }
    ensures write_fault { result.0 ≡ 4 → Rose (E.faults errors.old) (E.faults errors.new) }
    ensures output { output.new ≡ output.old }
{
    let _ = &output;
    match read_words(alloc, words) {
        Ok(
            Work::Serve {
                address: _,
                workers,
                connections: _,
            },
        ) => {
            let (status, listen) = serve_workers(rt, alloc, workers, listen, gate);
            (status.number(), listen)
        }
        Ok(Work::Stdio { .. }) | Err(WordsFault::Bad) => (refuse_words(errors).number(), listen),
        Err(WordsFault::NoMemory) => (Status::NoMemory.number(), listen),
    }
}

fn serve_workers<R: Threads + Wait + Sync, L: Listen + Send, G: Gate>(
    rt: &R,
    alloc: Global,
    workers: u32,
    listen: L,
    gate: &G,
) -> (Status, L)
    requires { (1 ≤ workers) × (workers ≤ 64) }
    ensures statuses { (result.0 ≡ Status.Done) ⊎ ((result.0 ≡ Status.NoMemory) ⊎ (result.0 ≡ Status.ListenFault)) }
    ensures ended { result.0 ≡ Status.Done → Rose (L.end_count listen) (L.end_count result.1) }
    ensures fault { result.0 ≡ Status.ListenFault → Rose (L.fault_count listen) (L.fault_count result.1) }
    ensures memory { result.0 ≡ Status.NoMemory → result.1 ≡ listen }
{
    let Ok(chunks) = Chunks::new(alloc) else {
        return (Status::NoMemory, listen);
    };
    let Ok((store, passes)) = SharedStore::new(alloc, &chunks, workers) else {
        return (Status::NoMemory, listen);
    };
    let limits = Limits::usual();
    let (end, passes, listen) = serve_all(
        rt, alloc, &store, &chunks, listen, gate, passes, &limits,
    );
    drop(passes);
    drop(store);
    (status_of_end(end), listen)
}
