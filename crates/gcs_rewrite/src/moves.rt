//! What a request does next.
ghost use Rattle.std.specs.Prelude.{◌≡◌};
ghost use Rattle.gcs_meaning.specs.Moment.{shard_number};
ghost use Rattle.gcs_rewrite.specs.Commands.{ask_in};

use crate::replies::Reply;
use gcs_meaning::{BucketName, Command, shard_of};

/// What a request does next: a step in a shard, or its reply.
#[derive(Drop)]
pub enum Move {
    Ask { shard: u8, command: Command },
    Say(Reply),
}

/// A step in the shard of that bucket.
pub fn ask(bucket: &BucketName, command: Command) -> Move
    ensures { result ≡ ask_in bucket.now command }
{
    Move::Ask {
        shard: shard_of(bucket.as_bytes()),
        command,
    }
}
