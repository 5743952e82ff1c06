//! The mode that serves one connection over an input and an output.
ghost use Rattle.std.specs.Prelude.{◌≡◌, ◌⊎◌, ℕ, List, [], OnOk, Option};
ghost use Rattle.gcs_io.specs.Causes.{Rose};
ghost use Rattle.gcs_io.specs.Told.{Gains};
ghost use Rattle.gcs_store.specs.Desk.{history_at};
ghost use Rattle.gcs_http_in.specs.Usual.{usual};
ghost use Rattle.gcs_workers.specs.declared.words.Work.TheVariants.{Stdio};
ghost use Rattle.gcs_workers.specs.Alone.{IsAlone, IsOpened, IsRefused};
ghost use Rattle.gcs_workers.specs.Status.{status_number};
ghost use Rattle.gcs_workers.specs.Told.{told};
ghost use Rattle.gcs_workers.specs.Words.{IsWork};

use crate::refusal::refuse_words;
use crate::status::{Status, status_of_session};
use crate::words::{Word, WordsFault, Work, read_words};
use gcs_chunks::Chunks;
use gcs_http_in::Limits;
use gcs_io::{Clock, Sink, Source};
use gcs_meaning::{BucketName, Command, Desk, shard_of};
use gcs_rewrite::usual_settings;
use gcs_session::serve_connection;
use gcs_store::PlainDesk;
use std::alloc::{AllocError, Global};

/// Does the words `stdio` and `stdio BUCKET`: makes the bucket where one is named, at one reading of the clock, serves
/// one connection over the input and the output, and answers the status. All other words are status 2, with one line on
/// the error sink.
///
/// Statuses: 0 the connection ended or was closed; 2 words refused; 3 a read failed; 4 a write failed; 5 no memory at the
/// opening; 6 the input ended in a message.
pub fn run_alone<I: Source, O: Sink, E: Sink, C: Clock>(
    alloc: Global,
    words: &[Word],
    input: &mut I,
    output: &mut O,
    errors: &mut E,
    clock: &mut C,
) -> u8
    ensures served { (name : Option (List ℕ)) → IsWork words.now (Stdio name) → IsAlone usual name
        (told (I.rest input.old) (I.taken input.old) (O.written output.old) (C.given clock.old))
        (told (I.rest input.new) (I.taken input.new) (O.written output.new) (C.given clock.new))
        (I.ended input.new) result }
    ensures refused { ((name : Option (List ℕ)) → IsWork words.now (Stdio name) → ⊥) → IsRefused
        (told (I.rest input.old) (I.taken input.old) (O.written output.old) (C.given clock.old))
        (told (I.rest input.new) (I.taken input.new) (O.written output.new) (C.given clock.new))
        (E.written errors.old) (E.written errors.new) result }
    ensures quiet { (name : Option (List ℕ)) → IsWork words.now (Stdio name) → errors.new ≡ errors.old }
    ensures read_fault { result ≡ 3 → Rose (I.faults input.old) (I.faults input.new) }
    ensures write_fault { result ≡ 4 → Rose (O.faults output.old) (O.faults output.new) ⊎ Rose (E.faults errors.old) (E.faults errors.new) }
{
    match read_words(alloc, words) {
        Ok(Work::Stdio { bucket }) => serve_alone(alloc, bucket, input, output, clock),
        Ok(Work::Serve { .. }) | Err(WordsFault::Bad) => refuse_words(errors).number(),
        Err(WordsFault::NoMemory) => Status::NoMemory.number(),
    }
}

fn serve_alone<I: Source, O: Sink, C: Clock>(
    alloc: Global,
    bucket: Option<BucketName>,
    input: &mut I,
    output: &mut O,
    clock: &mut C,
) -> u8
    ensures served { IsAlone usual bucket
        (told (I.rest input.old) (I.taken input.old) (O.written output.old) (C.given clock.old))
        (told (I.rest input.new) (I.taken input.new) (O.written output.new) (C.given clock.new))
        (I.ended input.new) result }
    ensures read_fault { result ≡ 3 → Rose (I.faults input.old) (I.faults input.new) }
    ensures write_fault { result ≡ 4 → Rose (O.faults output.old) (O.faults output.new) }
{
    let Ok(chunks) = Chunks::new(alloc) else {
        return Status::NoMemory.number();
    };
    let Ok(mut desk) = PlainDesk::new(alloc, &chunks) else {
        return Status::NoMemory.number();
    };
    let Ok(()) = open_bucket(alloc, &mut desk, clock, bucket) else {
        return Status::NoMemory.number();
    };
    let limits = Limits::usual();
    let end = serve_connection(alloc, &mut desk, &chunks, input, output, clock, &limits);
    status_of_session(end).number()
}

// Makes the named bucket, at one reading of the clock.
fn open_bucket<C: Clock>(
    alloc: Global,
    desk: &mut PlainDesk<'_>,
    clock: &mut C,
    bucket: Option<BucketName>,
) -> Result<(), AllocError>
    requires { (s : ℕ) → history_at desk.old s ≡ [] }
    ensures opened { OnOk result ((opening : List ℕ) × Gains (C.given clock.old) (C.given clock.new) opening
        × IsOpened bucket opening (history_at desk.new)) }
    ensures chunks { desk.new.chunks ≡ desk.old.chunks }
{
    let Some(bucket) = bucket else {
        return Ok(());
    };
    let moment = clock.now();
    let shard = shard_of(bucket.as_bytes());
    let settings = usual_settings(alloc)?;
    match desk.call(shard, moment, Command::BucketInsert { bucket, settings }) {
        Ok(answer) => {
            drop(answer);
            Ok(())
        }
        Err(unheld) => {
            drop(unheld);
            Err(AllocError)
        }
    }
}
