//! The words that are accepted, and some that are refused.
use crate::report::tell;
use gcs_meaning::Text;
use gcs_workers::{Word, WordsFault, Work, read_words};
use std::alloc::{AllocError, Global};
use std::io;

/// Each is read as the work that it spells.
const ACCEPTED: [&str; 9] = [
    "stdio",
    "stdio tub",
    "stdio abcdefghijklmnopqrstuvwxyz0123456789-_abcdefghijklmnopqrstuvwxy",
    "serve 127.0.0.1:80 1",
    "serve localhost:0 64",
    "serve anything 2",
    "serve [::1]:4443 1 1",
    "serve 127.0.0.1:80 64 1000000000",
    "serve  10",
];

/// Each differs from accepted ones by little.
const REFUSED: [&str; 24] = [
    "",
    "help",
    "Stdio",
    "stdio ",
    "stdio TUB",
    "stdio ab",
    "stdio abcdefghijklmnopqrstuvwxyz0123456789-_abcdefghijklmnopqrstuvwxyz",
    "stdio -tub",
    "stdio tub tub",
    "serve",
    "serve 127.0.0.1:80",
    "serve 127.0.0.1:80 0",
    "serve 127.0.0.1:80 65",
    "serve 127.0.0.1:80 01",
    "serve 127.0.0.1:80 +1",
    "serve 127.0.0.1:80 one",
    "serve -a 1",
    "serve 127.0.0.1:80 1 0",
    "serve 127.0.0.1:80 1 1000000001",
    "serve 127.0.0.1:80 1 4294967297",
    "serve 127.0.0.1:80 1 -1",
    "serve 127.0.0.1:80 1 1 1",
    "load 1 4 1000",
    "-- stdio",
];

/// Reads each list of words.
pub fn try_words(rt: &(impl Print + AllocGlobal)) -> io::Result<bool> {
    let alloc = rt.alloc();
    let mut all_ok = true;
    for words in ACCEPTED {
        let came = spelling(alloc, &read_words(alloc, &words_of(alloc, words)?))?;
        all_ok &= tell(rt, words, came.as_str(), words)?;
    }
    for words in REFUSED {
        let came = spelling(alloc, &read_words(alloc, &words_of(alloc, words)?))?;
        let case = format!(in alloc; "no words: {words}")?;
        all_ok &= tell(rt, case.as_str(), came.as_str(), "refused")?;
    }
    Ok(all_ok)
}

/// The words of a line, which blanks part.
pub fn words_of(alloc: Global, line: &str) -> Result<Vec<Word>, AllocError> {
    let mut words = Vec::new(alloc);
    if !line.is_empty() {
        for word in line.split(' ') {
            words.push(Text::from_str(alloc, word)?)?;
        }
    }
    Ok(words)
}

// The words that ask for the work.
fn spelling(alloc: Global, work: &Result<Work, WordsFault>) -> Result<String, AllocError> {
    match work {
        Ok(Work::Stdio { bucket: None }) => format!(in alloc; "stdio"),
        Ok(Work::Stdio { bucket: Some(name) }) => format!(in alloc; "stdio {}", name.as_str()),
        Ok(
            Work::Serve {
                address,
                workers,
                connections: None,
            },
        ) => format!(in alloc; "serve {} {workers}", address.as_str()),
        Ok(
            Work::Serve {
                address,
                workers,
                connections: Some(most),
            },
        ) => format!(in alloc; "serve {} {workers} {most}", address.as_str()),
        Err(WordsFault::Bad) => format!(in alloc; "refused"),
        Err(WordsFault::NoMemory) => format!(in alloc; "no memory"),
    }
}
