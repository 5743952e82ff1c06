//! The positional words of a command line, by clap.
ghost use Rattle.std.specs.Prelude.{◌≡◌, ◌≤◌, ℕ, List, map, length, IfOk, IfErr};
ghost use Rattle.clap.specs.Words.{found_of, kind_of};
ghost use Rattle.gcs_workers.specs.Positionals.{behind_dashes, HasWords};

use crate::words::Word;
use clap::error::ErrorKind;
use clap::{Arg, ArgMatches, Command, Error};
use std::alloc::{AllocError, Global};

/// The words, behind the program's name and `--`, so that each of them is positional.
pub fn command_line<'a>(alloc: Global, words: &'a [Word]) -> Result<Vec<&'a str>, AllocError>
    ensures { IfOk result (λ line. map (λ s. s.now) line.items ≡ behind_dashes words.entry.now) }
{
    let mut line = Vec::new(alloc);
    line.push("gcs_server")?;
    line.push("--")?;
    for word in words {
        line.push(word.as_str())?;
    }
    Ok(line)
}

/// What clap makes of one to four words behind `--`. It can't refuse them, so that `Err` is want of memory.
pub fn parse_positionals<'a>(alloc: Global, line: &'a [&'a str]) -> Result<ArgMatches<'a>, Error>
    requires { (texts : List (List ℕ)) × (map (λ s. s.now) line.now ≡ behind_dashes texts) × (1 ≤ length texts) × (length texts ≤ 4) }
    ensures ok { IfOk result (λ m. (texts : List (List ℕ)) → map (λ s. s.now) line.entry.now ≡ behind_dashes texts → 1 ≤ length texts → length texts ≤ 4
        → HasWords (found_of m) texts) }
    ensures err { IfErr result (λ e. kind_of e ≡ ErrorKind.OutOfMemory) }
{
    let first = Arg::new(alloc, "first").required(true);
    let second = Arg::new(alloc, "second");
    let third = Arg::new(alloc, "third");
    let fourth = Arg::new(alloc, "fourth");
    let command = Command::new(alloc, "gcs_server")
        .arg(first)?
        .arg(second)?
        .arg(third)?
        .arg(fourth)?;
    command.try_get_matches_from(line)
}
