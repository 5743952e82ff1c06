//! A caller's place at the store.
ghost use Rattle.std.specs.Prelude.{◌≡◌, ◌<◌, ◌≤◌, length, IfOk};
ghost use Rattle.std.specs.Arc.{arc_value};
ghost use Rattle.gcs_chunks.specs.Content.{bytes_of_piece, PieceLiesIn};
ghost use Rattle.gcs_meaning.specs.Contents.{AnswerLiesIn, CommandLiesIn};
ghost use Rattle.gcs_meaning.specs.Desk.{Histories, Standing, AreUnmoved, IsOf, Moves};
ghost use Rattle.gcs_meaning.specs.Step.{IsInRange};

use crate::command::{Answer, Command};
use crate::list::List;
use gcs_chunks::Piece;
use std::alloc::AllocError;
use std::sync::Arc;

/// A command that was not done, for want of memory.
#[derive(Drop)]
pub struct Unheld {
    pub command: Command,
}

/// One caller's place at the store: it makes entries in the histories of the shards, and sees them grow.
///
/// put a, by caller 0      seen: put a (0,0)                           mine: put a (0,0)
/// get a, after caller 1   seen: put a (0,0), put b (1,0), get a (0,1)   mine: put a (0,0), get a (0,1)
pub trait Desk {
    /// The type of the desk's home: what else no call changes. Nothing of it has to be there when the program runs.
    type Home;

    /// What no call changes: the caller's number, the chunks in which contents lie, and the desk's home.
    ghost stands: { Self → Standing Self.Home };

    /// In each shard, what the caller has seen of the history.
    ghost seen: { Self → Histories };

    /// In each shard, the caller's own entries.
    ghost mine: { Self → Histories };

    /// Makes one entry in a shard, at a reading of the clock (microseconds since 1970), and gives its answer there.
    /// `Err`: no memory; no entry is made, and the command comes back.
    fn call(&mut self, shard: u8, moment: u64, command: Command) -> Result<Answer, Unheld>
        requires shard { shard < 16 }
        requires belongs { IsOf shard command }
        requires in_range { IsInRange command }
        requires contents { CommandLiesIn (stands self.old).chunks command }
        ensures stands { stands self.new ≡ stands self.old }
        ensures lists { Moves (stands self.old).caller (seen self.old) (mine self.old) (seen self.new) (mine self.new) shard moment command result }
        ensures contents { IfOk result (λ answer. AnswerLiesIn (stands self.old).chunks answer) };

    /// Keeps 1 to 1,048,576 bytes of content, which contents can share from then on. `Err`: no memory; the bytes are
    /// given up.
    fn publish(&mut self, bytes: List<u8>) -> Result<Arc<Piece>, AllocError>
        requires least { 1 ≤ length bytes }
        requires most { length bytes ≤ 1048576 }
        ensures stands { stands self.new ≡ stands self.old }
        ensures lists { AreUnmoved (seen self.old) (mine self.old) (seen self.new) (mine self.new) }
        ensures piece { IfOk result (λ piece. bytes_of_piece (arc_value piece) ≡ bytes) }
        ensures lies { IfOk result (λ piece. PieceLiesIn (stands self.old).chunks (arc_value piece)) };
}
