//! Contents over pieces: what is read, joined, cut, compared and copied.
ghost use Rattle.std.specs.Prelude.{IfOk};
ghost use Rattle.gcs_chunks.specs.Content.{ChunksValue, ContentLiesIn};

use crate::report::{Failure, expect, report};
use gcs_chunks::{Chunks, Content, Piece};
use std::alloc::Global;
use std::io;

// Reads of the eight letters: from where, into how much room, and what the first bytes of the buffer are then.
const READS: [(u64, usize, &[u8]); 6] = [
    (2, 4, b"cdef"),
    (0, 10, b"abcdefgh"),
    (7, 10, b"h"),
    (8, 10, b""),
    (u64::MAX, 10, b""),
    (3, 0, b""),
];

// The bytes that lie together from a place on.
const SLICES: [(u64, &[u8]); 4] = [(1, b"bc"), (3, b"de"), (5, b"fgh"), (8, b"")];

// Contents made of `abcd`, of a further piece and of the eight letters from a place on, if there is one, and whether they are
// the eight letters again.
const OTHERS: [(&[u8], Option<u64>, bool); 6] = [
    (b"", Some(4), true),
    (b"efgh", None, true),
    (b"efgh", Some(8), true),
    (b"efgh", Some(7), false),
    (b"efgx", None, false),
    (b"efg", None, false),
];

pub fn report_cases(rt: &(impl Print + AllocGlobal)) -> io::Result<bool> {
    let alloc = rt.alloc();
    let reads = report(rt, "spans_are_read_as_one_text", try_reads(alloc))?;
    let others = report(
        rt,
        "joined_and_copied_contents_compare_by_their_bytes",
        try_others(alloc),
    )?;
    Ok(reads && others)
}

// Adds a part of a short text, which becomes a piece of its own.
fn add(
    content: &mut Content,
    alloc: Global,
    text: &[u8],
    from: usize,
    to: usize,
) -> Result<(), Failure>
    ensures { (chunks : ChunksValue) → ContentLiesIn chunks content.old → ContentLiesIn chunks content.new }
{
    if text.is_empty() || text.len() > 100 || content.len() > 100 {
        return Ok(());
    }
    let mut bytes = Vec::new(alloc);
    bytes.extend_from_slice(text)?;
    let piece = Piece::own(alloc, bytes)?;
    if from <= to && to <= piece.len() {
        content.append(&piece, from, to)?;
    }
    Ok(())
}

// Adds the rest of a short content.
fn add_rest(content: &mut Content, other: &Content, from: u64) -> Result<(), Failure>
    ensures { (chunks : ChunksValue) → ContentLiesIn chunks content.old → ContentLiesIn chunks other.now → ContentLiesIn chunks content.new }
{
    if content.len() <= 100 && other.len() <= 100 && from <= other.len() {
        content.join(other, from)?;
    }
    Ok(())
}

// The eight bytes "abcdefgh" in three spans.
fn eight_letters(alloc: Global) -> Result<Content, Failure>
    ensures { IfOk result (λ made. (chunks : ChunksValue) → ContentLiesIn chunks made) }
{
    let mut content = Content::empty(alloc);
    add(&mut content, alloc, b"xabcx", 1, 4)?;
    add(&mut content, alloc, b"x", 1, 1)?;
    add(&mut content, alloc, b"de", 0, 2)?;
    add(&mut content, alloc, b"fgh", 0, 3)?;
    Ok(content)
}

// The content `abcd`, behind it a further piece, and then the rest of another content from a place on, if there is one.
fn other_of(
    alloc: Global,
    piece: &[u8],
    content: &Content,
    from: Option<u64>,
) -> Result<Content, Failure>
    ensures { IfOk result (λ made. (chunks : ChunksValue) → ContentLiesIn chunks content.now → ContentLiesIn chunks made) }
{
    let mut other = Content::empty(alloc);
    add(&mut other, alloc, b"abcd", 0, 4)?;
    add(&mut other, alloc, piece, 0, piece.len())?;
    if let Some(from) = from {
        add_rest(&mut other, content, from)?;
    }
    Ok(other)
}

fn try_reads(alloc: Global) -> Result<(), Failure> {
    let chunks = Chunks::new(alloc)?;
    let content = eight_letters(alloc)?;
    for (row, (at, room, wanted)) in READS.iter().enumerate() {
        let mut bytes = [0u8; 10];
        let room = (*room).min(bytes.len());
        let count = content.read(&chunks, *at, &mut bytes[..room]);
        expect(row, bytes.starts_with(wanted))?;
        expect(row, count == wanted.len())?;
    }
    for (row, (at, wanted)) in SLICES.iter().enumerate() {
        expect(row, content.slice_at(&chunks, *at) == *wanted)?;
    }
    Ok(())
}

fn try_others(alloc: Global) -> Result<(), Failure> {
    let chunks = Chunks::new(alloc)?;
    let content = eight_letters(alloc)?;
    expect(0, content.same_spans(&content.copy()?, &chunks))?;
    for (row, (piece, from, wanted)) in OTHERS.iter().enumerate() {
        let other = other_of(alloc, piece, &content, *from)?;
        expect(row, content.same_spans(&other, &chunks) == *wanted)?;
    }
    Ok(())
}
