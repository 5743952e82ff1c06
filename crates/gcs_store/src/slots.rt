//! The slots of a shard, in a plain vector that rises by name. A search halves it.
ghost use Rattle.std.specs.Prelude.{◌≡◌, ◌≤◌, ◌<◌, IfOk, IfErr, OnErr, insert, length, vec_capacity, vec_len};
ghost use Rattle.std.specs.Option.{option_copied};
ghost use Rattle.gcs_meaning.specs.Contents.{CommandLiesIn, SlotsLieIn};
ghost use Rattle.gcs_meaning.specs.History.{first_step, shard_step, slot_of};
ghost use Rattle.gcs_meaning.specs.Slot.{fresh_slot};
ghost use Rattle.gcs_meaning.specs.Step.{step, IsInRange, IsOnSlot};
ghost use Rattle.gcs_store.specs.Shard.{AreSmall, IsGapAt, IsSlotAt, IsSteppedAt, NamesRise};

use crate::bucket_lists::answer_unnamed;
use gcs_bucket::{Bucket, Steps};
use gcs_chunks::Chunks;
use gcs_meaning::{Answer, BucketName, Command, Copied, Reason};
use std::alloc::{AllocError, Global};
use std::sync::ledger::{Blank, Ledger};

/// The slot of a name.
pub fn find_slot<'a>(slots: &'a [(BucketName, Bucket)], name: &BucketName) -> Option<&'a Bucket>
    requires { NamesRise slots.now }
    ensures { option_copied result ≡ slot_of name.now slots.now }
{
    match place_of(slots, name) {
        Ok(place) => Some(&slots[place].1),
        Err(_) => None,
    }
}

/// One command on the slots, whose steps are counted on a new ledger. `Err`: no memory, and the
/// slots stay as they were.
#[tactic(auto, unfolding(gcs_meaning::specs::History::shard_step))]
pub fn step_slots<L: Ledger>(
    blank: Blank,
    slots: &mut Vec<(BucketName, Bucket)>,
    moment: u64,
    command: &Command,
    chunks: &Chunks,
) -> Result<Answer, AllocError>
    requires name { blank.name ≡ L.name }
    requires parts { blank.parts ≡ L.parts }
    requires some { 0 < blank.parts }
    requires rise { NamesRise slots.old.items }
    requires small { AreSmall slots.old.items }
    requires in_range { IsInRange command.now }
    requires lies { SlotsLieIn chunks.now slots.old.items }
    requires contents { CommandLiesIn chunks.now command.now }
    ensures done { IfOk result (λ answer. shard_step slots.old.items moment command.now ≡ (answer, slots.new.items)) }
    ensures err { OnErr result (slots.new.items ≡ slots.old.items) }
{
    let Some(name) = command.bucket() else {
        return answer_unnamed(*slots.allocator(), slots, command);
    };
    let mut steps = Steps::<L>::new(blank);
    match place_of(slots, name) {
        Ok(place) => step_at(slots, place, moment, command, chunks, &mut steps),
        Err(place) => first_at(slots, place, name, moment, command, chunks, &mut steps),
    }
}

// Where the slot of a name is or, as the `Err`, where it belongs.
fn place_of(slots: &[(BucketName, Bucket)], name: &BucketName) -> Result<usize, usize>
    requires { NamesRise slots.now }
    ensures found { IfOk result (IsSlotAt name.now slots.now) }
    ensures gap { IfErr result (IsGapAt name.now slots.now) }
{
    slots.binary_search_by(|slot| slot.0.as_bytes().cmp(name.as_bytes()))
}

fn step_at<L: Ledger>(
    slots: &mut Vec<(BucketName, Bucket)>,
    place: usize,
    moment: u64,
    command: &Command,
    chunks: &Chunks,
    steps: &mut Steps<L>,
) -> Result<Answer, AllocError>
    requires place { place < length slots.old.items }
    requires small { AreSmall slots.old.items }
    requires in_range { IsOnSlot command.now }
    requires lies { SlotsLieIn chunks.now slots.old.items }
    requires contents { CommandLiesIn chunks.now command.now }
    ensures done { IfOk result (λ answer. IsSteppedAt place moment command.now slots.old.items answer slots.new.items) }
    ensures err { OnErr result (slots.new.items ≡ slots.old.items) }
{
    let entry = &mut slots[place];
    entry.1.apply(moment, command, chunks, steps)
}

// The first command on a name, whose place is given. Only an insert makes a slot.
fn first_at<L: Ledger>(
    slots: &mut Vec<(BucketName, Bucket)>,
    place: usize,
    name: &BucketName,
    moment: u64,
    command: &Command,
    chunks: &Chunks,
    steps: &mut Steps<L>,
) -> Result<Answer, AllocError>
    requires gap { IsGapAt name.now slots.old.items place }
    requires in_range { IsOnSlot command.now }
    requires contents { CommandLiesIn chunks.now command.now }
    ensures done { IfOk result (λ answer. first_step name.now slots.old.items moment command.now ≡ (answer, slots.new.items)) }
    ensures err { OnErr result (slots.new.items ≡ slots.old.items) }
{
    match command {
        Command::BucketInsert { .. } => {
            slots.reserve(1)?;
            let (answer, slot) = make_slot(
                *slots.allocator(),
                name,
                moment,
                command,
                chunks,
                steps,
            )?;
            insert_slot(slots, place, slot);
            Ok(answer)
        }
        Command::BucketRestore { .. } => Ok(Answer::Refused(Reason::NoGrave)),
        _ => Ok(Answer::Refused(Reason::NoBucket)),
    }
}

// A name with its slot after a first command.
#[tactic(auto, using(crate::proofs::Contents::fresh_lies))]
fn make_slot<L: Ledger>(
    alloc: Global,
    name: &BucketName,
    moment: u64,
    command: &Command,
    chunks: &Chunks,
    steps: &mut Steps<L>,
) -> Result<(Answer, (BucketName, Bucket)), AllocError>
    requires in_range { IsOnSlot command.now }
    requires contents { CommandLiesIn chunks.now command.now }
    ensures name { IfOk result (λ made. made.1.0 ≡ name.now) }
    ensures done { IfOk result (λ made. step fresh_slot moment command.now ≡ (made.0, made.1.1)) }
{
    let name = name.copy()?;
    let mut bucket = Bucket::new(alloc);
    let answer = bucket.apply(moment, command, chunks, steps)?;
    Ok((answer, (name, bucket)))
}

fn insert_slot(slots: &mut Vec<(BucketName, Bucket)>, place: usize, slot: (BucketName, Bucket))
    requires place { place ≤ length slots.old.items }
    requires room { vec_len slots.old < vec_capacity slots.old }
    ensures { slots.new.items ≡ insert slots.old.items place slot }
{
    let _ = slots.insert(place, slot);
}
