//! A shard as an object on which callers take turns.
use crate::shard::Shard;
use gcs_chunks::Chunks;
use gcs_meaning::{Answer, Command};
use gcs_turn::Object;

impl<'c> Object for Shard<'c> {
    type Command = Command;

    type Answer = Answer;

    /// No call changes the chunks in which the contents of a shard lie.
    type Home = Chunks;

    ghost use Rattle.std.specs.Prelude.{◌≡◌, map};
    ghost use Rattle.gcs_meaning.specs.Contents.{AnswerLiesIn, CommandLiesIn};
    ghost use Rattle.gcs_meaning.specs.History.{answer_of};
    ghost use Rattle.gcs_meaning.specs.Step.{IsInRange};
    ghost use Rattle.gcs_store.specs.Entries.{meant, turned};

    ghost history = { λ shard. map turned shard.history };

    ghost home = { λ shard. shard.chunks };

    ghost answer = { λ before e a. a ≡ answer_of (map meant before) e.moment e.command };

    ghost fits = { λ chunks command. IsInRange command × CommandLiesIn chunks command };

    ghost suits = { λ chunks a. AnswerLiesIn chunks a };

    fn apply(
        &mut self,
        caller: u32,
        number: u64,
        moment: u64,
        command: Command,
    ) -> Result<Answer, Command> {
        match Shard::apply(self, caller, number, moment, command) {
            Ok(answer) => return Ok(answer),
            Err(command) => return Err(command),
        }
    }
}
