//! Which versions a listing keeps, how their units lie, and where a delimiter folds their names.
ghost use Rattle.std.specs.Prelude.{◌≡◌, ◌≤◌, ◌+◌, ℕ, true, false, length, Some, None};
ghost use Rattle.std.specs.Option.{option_copied};
ghost use Rattle.gcs_meaning.specs.Listing.{is_after, is_from, is_under, keeps, number_of};
ghost use Rattle.gcs_meaning.specs.Order.{comes_before, is_below, unit_at};
ghost use Rattle.gcs_meaning.specs.Texts.{begins, folded};

use gcs_meaning::{PageQuery, Row, Text, Unit, View};
use std::cmp::Ordering;

/// Whether one text comes before another in byte order.
pub fn is_below(text: &[u8], other: &[u8]) -> bool
    ensures { result ≡ is_below text.now other.now }
{
    match text.cmp(other) {
        Ordering::Less => true,
        Ordering::Equal => false,
        Ordering::Greater => false,
    }
}

// Whether one unit comes before another.
fn is_before(text: &[u8], number: u64, other: &[u8], other_number: u64) -> bool
    ensures { result ≡ comes_before (unit_at text.now number) (unit_at other.now other_number) }
{
    match text.cmp(other) {
        Ordering::Less => true,
        Ordering::Equal => number < other_number,
        Ordering::Greater => false,
    }
}

// Whether a unit comes after the one before, if there is one.
pub(crate) fn is_later(last: &Option<Unit>, text: &[u8], number: u64) -> bool
    ensures { result ≡ is_after last.now (unit_at text.now number) }
{
    match last {
        Some(unit) => is_before(unit.text.as_bytes(), unit.number, text, number),
        None => true,
    }
}

// Whether the version's name begins with the prefix and lies between the offsets.
pub(crate) fn is_kept(query: &PageQuery, row: &Row) -> bool
    ensures { result ≡ keeps query.now row.now }
{
    let name = row.name.as_bytes();
    has_prefix(query.prefix.as_bytes(), name)
        && (is_started(&query.start, name) && is_not_ended(&query.end, name))
}

fn has_prefix(prefix: &[u8], name: &[u8]) -> bool
    ensures { result ≡ begins prefix.now name.now }
{
    name.starts_with(prefix)
}

fn is_started(start: &Option<Text>, name: &[u8]) -> bool
    ensures { result ≡ is_from start.now name.now }
{
    match start {
        Some(start) => !is_below(name, start.as_bytes()),
        None => true,
    }
}

fn is_not_ended(end: &Option<Text>, name: &[u8]) -> bool
    ensures { result ≡ is_under end.now name.now }
{
    match end {
        Some(end) => is_below(name, end.as_bytes()),
        None => true,
    }
}

// The number of a version's item.
pub(crate) fn item_number(view: View, row: &Row) -> u64
    ensures { result ≡ number_of view row.now }
{
    match view {
        View::Live => 1,
        View::Versions | View::Soft => row.generation,
    }
}

// The common prefix that stands for the name, where the name is folded.
pub(crate) fn fold<'a>(prefix: &str, delimiter: &str, name: &'a str) -> Option<&'a str>
    requires kept { begins prefix.now name.now ≡ true }
    ensures { option_copied result ≡ folded prefix.now delimiter.now name.now }
{
    if delimiter.is_empty() {
        return None;
    }
    let rest = &name[prefix.len()..];
    match rest.find(delimiter) {
        Some(at) => Some(&name[..prefix.len() + at + delimiter.len()]),
        None => None,
    }
}
