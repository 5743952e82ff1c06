//! The next unit of a listing, by two searches among the versions at most.
ghost use Rattle.std.specs.Prelude.{◌≡◌, [], ◌∷◌, true, false, length, IfOk, Some, None};
ghost use Rattle.std.specs.List.{find};
ghost use Rattle.gcs_meaning.specs.Listing.{is_after, is_prefix, keeps, units_of};
ghost use Rattle.gcs_meaning.specs.Order.{unit_at, AreVersions};
ghost use Rattle.gcs_listing.specs.Looking.{passed_by, passed_in, IsLooked, IsLookedAt, IsMadeOf, IsNext, IsPastFold};
ghost use Rattle.gcs_listing.specs.Seeking.{listed_rows, passed_count, AreOfSearches, IsBoundAmong};

use crate::bounds::{Bound, bound_after, past_text};
use crate::folding::{fold, is_kept, is_later, item_number};
use crate::seeking::first_listed;
use gcs_meaning::{Copied, PageQuery, Row, Text, Unit, View};
use gcs_versions::{Steps, Versions};
use std::alloc::{AllocError, Global};
use std::sync::ledger::Ledger;

/// A unit, the version that it shows where it is an item, and where to seek what comes after it.
#[derive(Drop)]
pub struct Found {
    pub unit: Unit,
    pub item: Option<Row>,
    pub bound: Bound,
}

/// What one look gives.
#[derive(Drop)]
pub enum Look {
    /// Nothing is left.
    End,
    Next(Found),
    /// The first version gives nothing more; the next unit is sought past those that are folded as it is.
    Past(Bound),
}

fn unit(alloc: Global, text: &str, number: u64) -> Result<Unit, AllocError>
    ensures { IfOk result (λ made. made ≡ unit_at text.now number) }
{
    Ok(Unit {
        text: Text::from_str(alloc, text)?,
        number,
    })
}

// The unit, if it comes after the one before.
fn later(
    alloc: Global,
    last: &Option<Unit>,
    text: &str,
    number: u64,
) -> Result<Option<Unit>, AllocError>
    ensures { IfOk result (λ found. found ≡ find (is_after last.now) (unit_at text.now number ∷ [])) }
{
    if is_later(last, text.as_bytes(), number) {
        Ok(Some(unit(alloc, text, number)?))
    } else {
        Ok(None)
    }
}

// The first unit of a version that comes after the one before.
fn news(
    alloc: Global,
    query: &PageQuery,
    last: &Option<Unit>,
    row: &Row,
) -> Result<Option<Unit>, AllocError>
    requires kept { keeps query.now row.now ≡ true }
    ensures { IfOk result (λ found. found ≡ find (is_after last.now) (units_of query.now row.now)) }
{
    let name = row.name.as_str();
    let number = item_number(query.view, row);
    match fold(query.prefix.as_str(), query.delimiter.as_str(), name) {
        None => later(alloc, last, name, number),
        Some(prefix) => {
            if is_later(last, prefix.as_bytes(), 0) {
                Ok(Some(unit(alloc, prefix, 0)?))
            } else if query.trailing && name.as_bytes() == prefix.as_bytes() {
                later(alloc, last, name, number)
            } else {
                Ok(None)
            }
        }
    }
}

// What is found with a unit of this version. After a prefix the same version may give its item as well.
fn found_at(alloc: Global, query: &PageQuery, unit: Unit, row: &Row) -> Result<Found, AllocError>
    ensures { IfOk result (λ found. IsMadeOf query.now unit row.now found) }
{
    if unit.number == 0 {
        let bound = Bound::new(alloc, row.name.as_bytes(), row.generation)?;
        Ok(Found {
            unit,
            item: None,
            bound,
        })
    } else {
        item_found(alloc, query, unit, row)
    }
}

fn item_found(alloc: Global, query: &PageQuery, unit: Unit, row: &Row) -> Result<Found, AllocError>
    requires item { is_prefix unit ≡ false }
    ensures { IfOk result (λ found. IsMadeOf query.now unit row.now found) }
{
    let bound = bound_after(alloc, query, &unit)?;
    Ok(Found {
        unit,
        item: Some(row.copy()?),
        bound,
    })
}

// What a look gives at a version that the listing keeps.
fn look_at(
    alloc: Global,
    query: &PageQuery,
    last: &Option<Unit>,
    row: &Row,
) -> Result<Look, AllocError>
    requires kept { keeps query.now row.now ≡ true }
    ensures { IfOk result (λ look. IsLookedAt query.now last.now row.now look) }
{
    match news(alloc, query, last, row)? {
        Some(unit) => Ok(Look::Next(found_at(alloc, query, unit, row)?)),
        None => past_fold(alloc, query, row),
    }
}

// Past the versions that are folded as this one is.
fn past_fold(alloc: Global, query: &PageQuery, row: &Row) -> Result<Look, AllocError>
    requires kept { keeps query.now row.now ≡ true }
    ensures { IfOk result (λ look. IsPastFold query.now row.now look) }
{
    match fold(
        query.prefix.as_str(),
        query.delimiter.as_str(),
        row.name.as_str(),
    ) {
        Some(prefix) => Ok(Look::Past(past_text(alloc, prefix)?)),
        None => Ok(Look::End),
    }
}

fn look_from<L: Ledger>(
    alloc: Global,
    versions: &Versions,
    query: &PageQuery,
    moment: u64,
    last: &Option<Unit>,
    from: Bound,
    steps: &mut Steps<L>,
) -> Result<Look, AllocError>
    requires known { AreVersions versions.now.rows }
    requires from { IsBoundAmong query.now (listed_rows query.now.view moment versions.now.rows) last.now from }
    ensures looked { IfOk result
        (λ look. IsLooked query.now (listed_rows query.now.view moment versions.now.rows) last.now from look) }
    ensures looks { IfOk result (λ look. AreOfSearches 1
        (record {
          rows = length versions.now.rows;
          before = steps.old;
          after = steps.new;
          gone_at_start = passed_count query.now.view moment versions.now.rows from;
          gone_at_end = passed_in query.now.view moment versions.now.rows look;
        })) }
{
    match first_listed(alloc, versions, query.view, moment, from, steps)? {
        Some(row) => {
            if is_kept(query, row) {
                look_at(alloc, query, last, row)
            } else {
                Ok(Look::End)
            }
        }
        None => Ok(Look::End),
    }
}

/// The least unit after `last`, sought from `from` on by two searches at most. `Err`: no memory.
pub(crate) fn next_unit<L: Ledger>(
    alloc: Global,
    versions: &Versions,
    query: &PageQuery,
    moment: u64,
    last: &Option<Unit>,
    from: Bound,
    steps: &mut Steps<L>,
) -> Result<Option<Found>, AllocError>
    requires known { AreVersions versions.now.rows }
    requires from { IsBoundAmong query.now (listed_rows query.now.view moment versions.now.rows) last.now from }
    ensures next { IfOk result
        (λ found. IsNext query.now (listed_rows query.now.view moment versions.now.rows) last.now found) }
    ensures looks { IfOk result (λ found. AreOfSearches 2
        (record {
          rows = length versions.now.rows;
          before = steps.old;
          after = steps.new;
          gone_at_start = passed_count query.now.view moment versions.now.rows from;
          gone_at_end = passed_by query.now.view moment versions.now.rows found;
        })) }
{
    match look_from(alloc, versions, query, moment, last, from, steps)? {
        Look::End => Ok(None),
        Look::Next(found) => Ok(Some(found)),
        Look::Past(past) => match look_from(alloc, versions, query, moment, last, past, steps)? {
            Look::End => Ok(None),
            Look::Next(found) => Ok(Some(found)),
            // A version past a common prefix that is done gives a unit.
            Look::Past(_) => unreachable!(),
        },
    }
}
