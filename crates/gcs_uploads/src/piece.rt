//! The tests of a piece, in their order.
ghost use Rattle.std.specs.Prelude.{◌≡◌, ◌<◌, ◌^◌};
ghost use Rattle.gcs_meaning.specs.Tests.{size_refusal};
ghost use Rattle.gcs_meaning.specs.Uploads.{kept_of};
ghost use Rattle.gcs_meaning.specs.Append.{end_refusal, given_refusal, piece_refusal, place_refusal, step_refusal, total_refusal};

use gcs_chunks::Content;
use gcs_meaning::{LARGEST_OBJECT, Reason, Upload};

/// Each piece that doesn't end its upload is a multiple of so many bytes long: 256 KiB.
const PIECE_STEP: u64 = 262_144;

/// Why a running upload doesn't take a piece: the first test that fails.
///
/// `offset` is where the piece begins in the object; without it the piece counts as empty.
#[tactic(auto, unfolding(gcs_meaning::specs::Append::piece_refusal))]
pub fn refusal(
    upload: &Upload,
    offset: Option<u64>,
    given: Option<u64>,
    piece: &Content,
) -> Option<Reason>
    ensures { result ≡ piece_refusal upload.now offset given piece.now }
{
    let kept = upload.content.len();
    other_total(upload.total, given, kept)
        .or_else(|| large_total(given))
        .or_else(|| misplaced(upload.total.or(given), offset, piece, kept))
}

// A given total is the one that was given first, and at least what is kept.
fn other_total(known: Option<u64>, given: Option<u64>, kept: u64) -> Option<Reason>
    ensures { result ≡ total_refusal known given kept }
{
    let given = given?;
    if given == known.unwrap_or(given) && kept <= given {
        return None;
    }
    Some(Reason::TotalDiffers {
        given,
        known: known.unwrap_or(kept),
    })
}

fn large_total(given: Option<u64>) -> Option<Reason>
    ensures { result ≡ given_refusal given }
{
    too_large(given?)
}

fn too_large(size: u64) -> Option<Reason>
    ensures { result ≡ size_refusal size }
{
    if size <= LARGEST_OBJECT {
        None
    } else {
        Some(Reason::TooLarge { size })
    }
}

// The tests of where a piece begins and ends.
#[tactic(auto, unfolding(gcs_meaning::specs::Append::place_refusal))]
fn misplaced(total: Option<u64>, offset: Option<u64>, piece: &Content, kept: u64) -> Option<Reason>
    requires { kept < 2 ^ 63 }
    ensures { result ≡ place_refusal total offset piece.now kept }
{
    let (start, size) = match offset {
        Some(offset) => (offset, piece.len()),
        None => (kept, 0),
    };
    if start > kept {
        return Some(Reason::Beyond {
            offset: start,
            kept,
        });
    }
    let end = start + size;
    too_large(end)
        .or_else(|| past_total(total, end))
        .or_else(|| uneven(total, end, size))
}

// A piece ends at most at the total, where one is known.
fn past_total(total: Option<u64>, end: u64) -> Option<Reason>
    ensures { result ≡ end_refusal total end }
{
    let known = total?;
    if end <= known {
        return None;
    }
    Some(Reason::TotalDiffers { given: end, known })
}

// A piece that doesn't end at the total is whole steps long.
fn uneven(total: Option<u64>, end: u64, size: u64) -> Option<Reason>
    ensures { result ≡ step_refusal total end size }
{
    if total == Some(end) || size % PIECE_STEP == 0 {
        None
    } else {
        Some(Reason::BadStep { length: size })
    }
}
