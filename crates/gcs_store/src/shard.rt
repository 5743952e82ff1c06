//! A shard: its slots, and the history that they come from.
ghost use Rattle.std.specs.Prelude.{◌≡◌, ◌<◌, ◌+◌, ◌^◌, [], ◌∷◌, ◌++◌, IfOk, IfErr, OnErr, OnOk, length, vec_capacity, vec_len};
ghost use Rattle.std.specs.Option.{option_copied};
ghost use Rattle.gcs_meaning.specs.Contents.{AnswerLiesIn, CommandLiesIn};
ghost use Rattle.gcs_meaning.specs.History.{answer_of, replay, slot_of};
ghost use Rattle.gcs_meaning.specs.Step.{IsInRange};

use crate::slots::{find_slot, step_slots};
use gcs_bucket::Bucket;
use gcs_chunks::Chunks;
use gcs_meaning::{Answer, BucketName, Command, Entry};
use std::alloc::Global;
use std::marker::{Brand, Model};
use std::sync::ledger::Blank;

// A history stays below 2^59 entries, so that no number of a slot wraps.
const MOST_ENTRIES: usize = 0x07FF_FFFF_FFFF_FFFF;

/// The slots of a shard and its history, seen as the history and the chunks in which its contents lie: the slots are
/// always the replay of it.
#[derive(Drop)]
pub struct Shard<'c> {
    chunks: &'c Chunks,
    slots: Vec<(BucketName, Bucket)>,
    history: Vec<Entry>,
}

impl<'c> Model for Shard<'c> {
    ghost use Rattle.gcs_store.specs.Shard.{IsShard, ShardValue};

    ghost Value = { ShardValue };

    ghost view = { λ s. record { chunks = s.chunks.now; history = s.history.items } };

    ghost invariant = { λ s. IsShard s.chunks.now s.slots.items s.history.items };
}

impl<'c> Shard<'c> {
    /// A shard without an entry, whose contents are of these chunks.
    pub fn new(alloc: Global, chunks: &'c Chunks) -> Shard<'c>
        ensures { result ≡ record { chunks = chunks.now; history = [] } }
    {
        Shard {
            chunks,
            slots: Vec::new(alloc),
            history: Vec::new(alloc),
        }
    }

    /// The slot of a name, where it had an insert.
    pub fn slot(&self, name: &BucketName) -> Option<&Bucket>
        ensures { option_copied result ≡ slot_of name.now (replay self.now.history) }
    {
        find_slot(&self.slots, name)
    }

    /// The entries, the first one first.
    pub fn history(&self) -> &[Entry]
        ensures { result.now ≡ self.now.history }
    {
        &self.history
    }

    /// Adds one entry, the caller's of this number, at a reading of the clock (microseconds since
    /// 1970), and gives its answer.
    ///
    /// `Err`: no memory, or no room for an entry: the command comes back, and nothing is changed.
    pub fn apply(
        &mut self,
        caller: u32,
        number: u64,
        moment: u64,
        command: Command,
    ) -> Result<Answer, Command>
        requires in_range { IsInRange command }
        requires contents { CommandLiesIn self.old.chunks command }
        ensures entry { OnOk result (self.new.history ≡ self.old.history ++ record { caller = caller; number = number; moment = moment; command = command } ∷ []) }
        ensures few { OnOk result (length self.new.history < 2 ^ 59) }
        ensures answer { IfOk result (λ answer. answer ≡ answer_of self.old.history moment command) }
        ensures lies { IfOk result (λ answer. AnswerLiesIn self.old.chunks answer) }
        ensures chunks { self.new.chunks ≡ self.old.chunks }
        ensures back { IfErr result (λ back. back ≡ command) }
        ensures unchanged { OnErr result (self.new ≡ self.old) }
    {
        // Room is taken before the step: once the step is made, the entry cannot fail.
        if self.history.len() >= MOST_ENTRIES || self.history.reserve(1).is_err() {
            return Err(command);
        }
        let blank = Blank::new(1);
        match step_slots::<Brand>(blank, &mut self.slots, moment, &command, self.chunks) {
            Ok(answer) => {
                push_entry(
                    &mut self.history,
                    Entry {
                        caller,
                        number,
                        moment,
                        command,
                    },
                );
                Ok(answer)
            }
            Err(_) => Err(command),
        }
    }
}

fn push_entry(history: &mut Vec<Entry>, entry: Entry)
    requires { vec_len history.old < vec_capacity history.old }
    ensures { history.new.items ≡ history.old.items ++ entry ∷ [] }
{
    let _ = history.push(entry);
}
