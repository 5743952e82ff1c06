//! Where a piece of a resumable upload lies: what the field `Content-Range` tells.
ghost use Rattle.std.specs.Prelude.{◌≡◌, ◌+◌, ◌==◌, Some, None};
ghost use Rattle.std.specs.Option.{option_copied};
ghost use Rattle.gcs_request.specs.PieceRanges.{ArePieceTexts, bytes_by, is_inside, length_of, piece_by, piece_in, piece_of, read_piece_range};

use crate::ranges::{around, number_of};

/// What a message tells of its piece.
#[derive(Clone, Copy, Debug, PartialEq, Eq)]
pub enum PieceRange {
    /// It is the whole content.
    Whole,
    /// It is the content from its first byte to its last, whose places count from 0. `total`: the length of the whole
    /// content, where it is told.
    Bytes {
        first: u64,
        last: u64,
        total: Option<u64>,
    },
    /// It has no bytes, and asks how many are kept.
    Status {
        total: Option<u64>,
    },
}

/// What a `Content-Range` field tells of a piece: `bytes a-b/n`, `bytes a-b/*`, `bytes */n` or `bytes */*`, each number of
/// 1 to 18 digits, b not below a and below n. `None`: any other value. Without the field a piece is the whole content.
///
/// Source: RFC 9110, 14.4; Cloud Storage, "Resumable uploads".
pub fn read_piece_range(value: Option<&[u8]>) -> Option<PieceRange>
    ensures { result ≡ read_piece_range (option_copied value.entry) }
{
    match value {
        Some(value) => piece_in(value),
        None => Some(PieceRange::Whole),
    }
}

/// The values that tell of a piece are those of the grammar (RFC 9110, 14.4), and each tells one thing.
pub fn law_piece_ranges()
    ensures { ArePieceTexts }
{}

#[tactic(auto, unfolding(crate::specs::PieceRanges::piece_in))]
fn piece_in(value: &[u8]) -> Option<PieceRange>
    ensures { result ≡ piece_in value.now }
{
    let text = value.strip_prefix(b"bytes ")?;
    let (places, total) = around(b'/', text)?;
    piece_by(places, length_of(total)?)
}

// The length of the whole content, where it is told.
fn length_of(text: &[u8]) -> Option<Option<u64>>
    ensures { result ≡ length_of text.now }
{
    if text == b"*".as_slice() {
        return Some(None);
    }
    Some(Some(number_of(text)?))
}

fn piece_by(places: &[u8], total: Option<u64>) -> Option<PieceRange>
    ensures { result ≡ piece_by places.now (Some total) }
{
    if places == b"*".as_slice() {
        return Some(PieceRange::Status { total });
    }
    let (first, last) = around(b'-', places)?;
    bytes_by(number_of(first)?, number_of(last)?, total)
}

fn bytes_by(first: u64, last: u64, total: Option<u64>) -> Option<PieceRange>
    ensures { result ≡ bytes_by (Some first) (Some last) total }
{
    if first <= last && is_inside(last, total) {
        Some(PieceRange::Bytes { first, last, total })
    } else {
        None
    }
}

fn is_inside(last: u64, total: Option<u64>) -> bool
    ensures { result ≡ is_inside last total }
{
    match total {
        Some(total) => last < total,
        None => true,
    }
}

/// The place of the first byte of a piece of this size, where it has one, and the length of the whole content, where it is
/// told. `None`: the head tells another size.
pub fn piece_of(range: PieceRange, size: u64) -> Option<(Option<u64>, Option<u64>)>
    ensures { result ≡ piece_of range size }
{
    match range {
        PieceRange::Whole => Some((Some(0), Some(size))),
        PieceRange::Bytes { first, last, total } if ends_at(first, size, last) => {
            Some((Some(first), total))
        }
        PieceRange::Status { total } if size == 0 => Some((None, total)),
        PieceRange::Bytes { .. } | PieceRange::Status { .. } => None,
    }
}

// Whether so many bytes from the first place on end with the last one.
fn ends_at(first: u64, size: u64, last: u64) -> bool
    ensures { result ≡ (last + 1 == first + size) }
{
    u128::from(last) + 1 == u128::from(first) + u128::from(size)
}
