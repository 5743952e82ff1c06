//! A page of a listing: its units in order, taken one after the other.
ghost use Rattle.std.specs.Prelude.{◌≡◌, ◌+◌, ◌*◌, ◌++◌, ◌&&◌, [], ◌∷◌, if◌then◌else◌, nat_lt, length, None, IfOk, OnOk};
ghost use Rattle.gcs_index.specs.Looks.{AreLooks};
ghost use Rattle.gcs_meaning.specs.Aging.{aged_rows};
ghost use Rattle.gcs_meaning.specs.Listing.{page_of};
ghost use Rattle.gcs_meaning.specs.Order.{AreVersions};
ghost use Rattle.gcs_listing.specs.Looking.{IsNext};
ghost use Rattle.gcs_listing.specs.Paging.{IsPaged, IsMore, option_list, texts_of};
ghost use Rattle.gcs_listing.specs.Seeking.{gone_count, listed_rows, passed_count, AreOfSearches, IsBoundAmong};

use crate::bounds::{Bound, first_bound};
use crate::looking::{Found, next_unit};
use gcs_meaning::{Copied, List, Page, PageQuery, Row, Settings, Text, Unit};
use gcs_versions::{Steps, Versions};
use std::alloc::{AllocError, Global};
use std::sync::ledger::Ledger;

/// What a page has so far.
#[derive(Drop)]
pub struct Taken {
    pub items: List<Row>,
    pub prefixes: List<Text>,
}

impl Taken {
    /// Adds what a unit shows: the version of an item, or the text of a common prefix. `Err`: no memory.
    fn add(&mut self, unit: &Unit, item: Option<Row>) -> Result<(), AllocError>
        ensures items { OnOk result (self.new.items ≡ self.old.items ++ option_list item) }
        ensures prefixes { OnOk result (self.new.prefixes ≡ self.old.prefixes ++ texts_of unit.now item) }
    {
        match item {
            Some(row) => self.items.push(row),
            None => self.prefixes.push(unit.text.copy()?),
        }
    }
}

/// One page of a bucket's listing: at most `query.most` units after `query.after`, in the byte order of their texts, with a
/// copy of the settings.
///
/// Versions that `moment` (microseconds since 1970) has aged away are not shown, though they may still be kept.
/// `Err`: no memory. `steps` counts the looks at the versions: those of two searches a unit at most, and of three more. In the
/// listing of soft-deleted versions there is one search more for each that is gone at the moment.
/// Source: Cloud Storage JSON API, "Objects: list".
pub fn page<L: Ledger>(
    alloc: Global,
    versions: &Versions,
    settings: &Settings,
    query: &PageQuery,
    moment: u64,
    steps: &mut Steps<L>,
) -> Result<Page, AllocError>
    ensures page { IfOk result (λ page. page ≡ page_of settings.now query.now (aged_rows moment versions.now.rows)) }
    ensures looks { IfOk result
        (λ page. AreLooks (2 * (length page.items + length page.prefixes) + 3 + gone_count query.now.view moment versions.now.rows)
        (length versions.now.rows)
        steps.old
        steps.new) }
{
    versions.known();
    let mut taken = Taken {
        items: List::new(alloc),
        prefixes: List::new(alloc),
    };
    let next = take_units(alloc, versions, query, moment, &mut taken, steps)?;
    whole_page(taken, next, settings)
}

fn whole_page(taken: Taken, next: Option<Unit>, settings: &Settings) -> Result<Page, AllocError>
    ensures { IfOk result
        (λ page. page ≡ record { items = taken.items; prefixes = taken.prefixes; next = next; settings = settings.now }) }
{
    let settings = settings.copy()?;
    let Taken { items, prefixes } = taken;
    Ok(Page {
        items,
        prefixes,
        next,
        settings,
    })
}

// Takes the units of a page, and gives the one after which the next page begins. `Err`: no memory, and some may be taken.
fn take_units<L: Ledger>(
    alloc: Global,
    versions: &Versions,
    query: &PageQuery,
    moment: u64,
    taken: &mut Taken,
    steps: &mut Steps<L>,
) -> Result<Option<Unit>, AllocError>
    requires known { AreVersions versions.now.rows }
    requires items { taken.old.items ≡ [] }
    requires prefixes { taken.old.prefixes ≡ [] }
    ensures paged { IfOk result
        (λ next. IsPaged query.now (listed_rows query.now.view moment versions.now.rows) taken.new next) }
    ensures looks { IfOk result
        (λ _. AreLooks (2 * (length taken.new.items + length taken.new.prefixes) + 3 + gone_count query.now.view moment versions.now.rows)
        (length versions.now.rows)
        steps.old
        steps.new) }
{
    let mut last = query.after.copy()?;
    let mut from = first_bound(alloc, query)?;
    for _ in 0..query.most {
        match next_unit(alloc, versions, query, moment, &last, from, steps)? {
            Some(found) => {
                let Found { unit, item, bound } = found;
                taken.add(&unit, item)?;
                last = Some(unit);
                from = bound;
            }
            None => return Ok(None),
        }
    }
    let more = has_more(alloc, versions, query, moment, &last, from, steps)?;
    Ok(token(query.most, more, last))
}

// The last unit of a page that isn't empty, where more are left.
fn token(most: u32, more: bool, last: Option<Unit>) -> Option<Unit>
    ensures { result ≡ (if more && nat_lt 0 most then last else None) }
{
    if more && most > 0 { last } else { None }
}

// Whether a unit is left after the last one.
fn has_more<L: Ledger>(
    alloc: Global,
    versions: &Versions,
    query: &PageQuery,
    moment: u64,
    last: &Option<Unit>,
    from: Bound,
    steps: &mut Steps<L>,
) -> Result<bool, AllocError>
    requires known { AreVersions versions.now.rows }
    requires from { IsBoundAmong query.now (listed_rows query.now.view moment versions.now.rows) last.now from }
    ensures more { IfOk result
        (λ more. IsMore query.now (listed_rows query.now.view moment versions.now.rows) last.now more) }
    ensures looks { IfOk result (λ _. AreOfSearches 2
        (record {
          rows = length versions.now.rows;
          before = steps.old;
          after = steps.new;
          gone_at_start = passed_count query.now.view moment versions.now.rows from;
          gone_at_end = gone_count query.now.view moment versions.now.rows;
        })) }
{
    let found = next_unit(alloc, versions, query, moment, last, from, steps)?;
    let more = found.is_some();
    drop(found);
    Ok(more)
}
