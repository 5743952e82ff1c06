//! The words of the command line, and what they ask for.
ghost use Rattle.std.specs.Prelude.{◌≡◌, ◌≢◌, ℕ, List, option_map, Err, IfOk};
ghost use Rattle.std.specs.List.{list_any};
ghost use Rattle.gcs_names.specs.Name.{IsBucketName};
ghost use Rattle.gcs_workers.specs.Words.{is_dashed_word, IsNumberIn, IsParts, IsWork};

use crate::positionals::{command_line, parse_positionals};
use gcs_meaning::{BucketName, Text};
use gcs_names::{BadName, bucket_name};
use itoa::Buffer;
use std::alloc::Global;

/// A word of the command line.
pub type Word = Text;

/// What accepted words ask for.
#[derive(Drop)]
pub enum Work {
    /// One connection over standard input and output, over a store that has this bucket where one is named.
    Stdio {
        bucket: Option<BucketName>,
    },
    /// The connections to an address, by so many workers, until so many were served where a number is given.
    Serve {
        address: Text,
        workers: u32,
        connections: Option<u32>,
    },
}

/// Why words are refused.
#[derive(Clone, Copy, Debug, PartialEq, Eq)]
pub enum WordsFault {
    /// They ask for nothing that the program does.
    Bad,
    NoMemory,
}

const MOST_WORDS: usize = 4;

const MOST_WORKERS: u32 = 64;

const MOST_CONNECTIONS: u32 = 1_000_000_000;

/// Reads `stdio`, `stdio BUCKET`, `serve ADDRESS WORKERS` and `serve ADDRESS WORKERS CONNECTIONS`. WORKERS is 1 to 64,
/// CONNECTIONS 1 to 1,000,000,000, in decimal digits without a leading zero. No word may begin with `-`.
pub fn read_words(alloc: Global, words: &[Word]) -> Result<Work, WordsFault>
    ensures read { IfOk result (λ work. IsWork words.now work) }
    ensures bad { result ≡ Err WordsFault.Bad → (work : Work) → IsWork words.now work → ⊥ }
{
    if words.is_empty() || words.len() > MOST_WORDS || has_dashed(words) {
        return Err(WordsFault::Bad);
    }
    let Ok(line) = command_line(alloc, words) else {
        return Err(WordsFault::NoMemory);
    };
    // Nothing but want of memory can go wrong here.
    let Ok(found) = parse_positionals(alloc, &line) else {
        return Err(WordsFault::NoMemory);
    };
    work_of(
        alloc,
        found.get_str("first"),
        found.get_str("second"),
        found.get_str("third"),
        found.get_str("fourth"),
    )
}

fn has_dashed(words: &[Word]) -> bool
    ensures { result ≡ list_any is_dashed_word words.now }
{
    words.iter().any(|word| is_dashed(word.as_bytes()))
}

fn is_dashed(bytes: &[u8]) -> bool
    ensures { result ≡ is_dashed_word bytes.now }
{
    match bytes {
        [first, ..] => *first == b'-',
        [] => false,
    }
}

// What up to four words ask for.
fn work_of(
    alloc: Global,
    first: Option<&str>,
    second: Option<&str>,
    third: Option<&str>,
    fourth: Option<&str>,
) -> Result<Work, WordsFault>
    ensures read { IfOk result (λ work. IsParts (option_map (λ s. s.now) first.entry) (option_map (λ s. s.now) second.entry)
        (option_map (λ s. s.now) third.entry) (option_map (λ s. s.now) fourth.entry) work) }
    ensures bad { result ≡ Err WordsFault.Bad → (work : Work) → IsParts (option_map (λ s. s.now) first.entry) (option_map (λ s. s.now) second.entry)
        (option_map (λ s. s.now) third.entry) (option_map (λ s. s.now) fourth.entry) work → ⊥ }
{
    match (first, second, third, fourth) {
        (Some("stdio"), None, None, None) => Ok(Work::Stdio { bucket: None }),
        (Some("stdio"), Some(name), None, None) => Ok(Work::Stdio {
            bucket: Some(bucket(alloc, name)?),
        }),
        (Some("serve"), Some(address), Some(workers), None) => Ok(Work::Serve {
            workers: number(workers, MOST_WORKERS)?,
            connections: None,
            address: text(alloc, address)?,
        }),
        (Some("serve"), Some(address), Some(workers), Some(connections)) => Ok(Work::Serve {
            workers: number(workers, MOST_WORKERS)?,
            connections: Some(number(connections, MOST_CONNECTIONS)?),
            address: text(alloc, address)?,
        }),
        _ => Err(WordsFault::Bad),
    }
}

fn bucket(alloc: Global, name: &str) -> Result<BucketName, WordsFault>
    ensures named { IfOk result (λ bucket. (bucket ≡ name.now) × IsBucketName name.now) }
    ensures bad { result ≡ Err WordsFault.Bad → IsBucketName name.now → ⊥ }
{
    match bucket_name(alloc, name.as_bytes()) {
        Ok(bucket) => Ok(bucket),
        Err(BadName::Form) => Err(WordsFault::Bad),
        Err(BadName::NoMemory) => Err(WordsFault::NoMemory),
    }
}

fn text(alloc: Global, word: &str) -> Result<Text, WordsFault>
    ensures same { IfOk result (λ text. text ≡ word.now) }
    ensures memory { result ≢ Err WordsFault.Bad }
{
    match Text::from_str(alloc, word) {
        Ok(text) => Ok(text),
        Err(_) => Err(WordsFault::NoMemory),
    }
}

// The number from 1 to `most` that a word writes, without a leading zero.
fn number(word: &str, most: u32) -> Result<u32, WordsFault>
    ensures written { IfOk result (λ n. IsNumberIn 1 most word.now n) }
    ensures bad { result ≡ Err WordsFault.Bad → (n : ℕ) → IsNumberIn 1 most word.now n → ⊥ }
    ensures memory { result ≢ Err WordsFault.NoMemory }
{
    match word.parse::<u32>() {
        Ok(n) if 1 <= n && n <= most && Buffer::new().format(n) == word => Ok(n),
        _ => Err(WordsFault::Bad),
    }
}
