//! What the lines of a row show: steps of one shard, and calls that need none.
ghost use Rattle.check_store.specs.Commands.{IsAskable};

use crate::answers::answer_text;
use crate::calls::call_text;
use crate::commands::command_of;
use check_rows::Show;
use gcs_chunks::Chunks;
use gcs_meaning::Command;
use gcs_store::Shard;
use std::alloc::{AllocError, Global};

/// A shard, and what its steps show.
#[derive(Drop)]
pub struct Store<'a> {
    alloc: Global,
    chunks: &'a Chunks,
    shard: Shard<'a>,
}

impl<'a> Store<'a> {
    /// A shard without steps.
    pub fn new(alloc: Global, chunks: &'a Chunks) -> Store<'a> {
        Store {
            alloc,
            chunks,
            shard: Shard::new(alloc, chunks),
        }
    }

    fn step(&mut self, line: usize, moment: u64, command: Command) -> Result<String, AllocError>
        requires { IsAskable command }
    {
        match self.shard.apply(0, line as u64, moment, command) {
            Ok(answer) => {
                let text = answer_text(self.alloc, &answer);
                drop(answer);
                text
            }
            Err(command) => {
                drop(command);
                Err(AllocError)
            }
        }
    }
}

// A line that begins with a moment is a step.
impl<'a> Show for Store<'a> {
    fn show(&mut self, line: usize, asked: &str) -> Result<String, AllocError> {
        let (first, rest) = asked.split_once(" ").unwrap_or((asked, ""));
        let Ok(moment) = first.parse::<u64>() else {
            return call_text(self.alloc, first, rest);
        };
        match command_of(self.alloc, self.chunks, rest)? {
            Some(command) => self.step(line, moment, command),
            None => String::from_str(self.alloc, "no such command"),
        }
    }
}
