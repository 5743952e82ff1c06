//! Ranges of bytes: what a `Range` field tells.
ghost use Rattle.std.specs.Prelude.{◌≡◌, ◌==◌, ◌<◌, IfSome, MatchOption, None, Some, length, position};
ghost use Rattle.gcs_request.specs.Ranges.{AreRangeTexts, around, number_of, range_between, range_by, read_range};

use gcs_decimal::read_decimal;
use gcs_rewrite::Range;

/// The one range of bytes that the value of a `Range` field tells: `bytes=a-b`, `bytes=a-` or `bytes=-n`, each number
/// of 1 to 18 digits, and b not below a. Any other value tells none, and the field counts as absent (RFC 9110, 14.2).
#[tactic(auto, unfolding(crate::specs::Ranges::read_range))]
pub fn read_range(value: &[u8]) -> Option<Range>
    ensures { result ≡ read_range value.now }
{
    let text = value.strip_prefix(b"bytes=")?;
    let (first, last) = around(b'-', text)?;
    range_by(first, last)
}

/// The values that tell a range are those of the grammar (RFC 9110, 14.1.1 and 14.1.2), and each tells one.
pub fn law_ranges()
    ensures { AreRangeTexts }
{}

/// The texts before and after the first byte that is this mark.
pub fn around(mark: u8, text: &[u8]) -> Option<(&[u8], &[u8])>
    ensures { MatchOption result (around mark text.now ≡ None) (λ texts. around mark text.now ≡ Some (texts.0.now, texts.1.now)) }
{
    let at = place_of(mark, text)?;
    Some((&text[..at], &text[at + 1..]))
}

fn place_of(mark: u8, text: &[u8]) -> Option<usize>
    ensures value { result ≡ position (λ byte. byte == mark) text.now }
    ensures within { IfSome result (λ at. at < length text.now) }
{
    text.iter().position(|byte| *byte == mark)
}

fn range_by(first: &[u8], last: &[u8]) -> Option<Range>
    ensures { result ≡ range_by first.now last.now }
{
    match (first, last) {
        ([], _) => Some(Range::Last(number_of(last)?)),
        (_, []) => Some(Range::From(number_of(first)?)),
        _ => range_between(number_of(first)?, number_of(last)?),
    }
}

fn range_between(first: u64, last: u64) -> Option<Range>
    ensures { result ≡ range_between (Some first) (Some last) }
{
    if first <= last {
        Some(Range::Between(first, last))
    } else {
        None
    }
}

/// The number that these digits write, of which there are at most 18.
pub fn number_of(text: &[u8]) -> Option<u64>
    ensures { result ≡ number_of text.now }
{
    read_decimal(text, 18)
}
