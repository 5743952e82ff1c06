//! The pages of a listing, compared one after the other.
use crate::listing::Listing;
use crate::plain::{PlainPage, PlainUnit, page_of};
use crate::plan::MOMENT;
use crate::store::Bucket;
use gcs_listing::page;
use gcs_meaning::{Page, Unit};
use gcs_versions::Steps;
use std::alloc::{AllocError, Global};
use std::sync::ledger::Ledger;

/// How many pages are compared where a page has one unit.
const FIRST_PAGES: u32 = 60;

/// What a comparison gives. Pages are counted from 1.
#[derive(Clone, Copy, Debug)]
pub enum Compared {
    /// So many pages are the same.
    Same(u32),
    /// The page of that number is the first that differs.
    DiffersAt(u32),
}

/// Compares the pages of `most` units from the first to the last, or the first 60 pages of one unit, with those cut from the
/// plain units of the listing. `Err`: no memory.
pub fn compare_pages<L: Ledger>(
    alloc: Global,
    bucket: &Bucket,
    listing: &Listing<'_>,
    units: &[PlainUnit<'_>],
    most: u32,
    steps: &mut Steps<L>,
) -> Result<Compared, AllocError> {
    let count = if most == 1 { FIRST_PAGES } else { u32::MAX };
    let mut token = None;
    for number in 1..=count {
        let query = listing.query(alloc, most, token)?;
        let wanted = page_of(units, token, most as usize);
        let found = page(
            alloc,
            &bucket.versions,
            &bucket.settings,
            &query,
            MOMENT,
            steps,
        )?;
        if !is_same(&found, &wanted) {
            return Ok(Compared::DiffersAt(number));
        }
        if wanted.next.is_none() {
            return Ok(Compared::Same(number));
        }
        token = wanted.next;
    }
    Ok(Compared::Same(count))
}

fn is_same(found: &Page, wanted: &PlainPage<'_, '_>) -> bool {
    let mut items = found.items.as_slice().iter();
    let mut prefixes = found.prefixes.as_slice().iter();
    for unit in wanted.units {
        let is_next = match unit.generation {
            Some(generation) => items.next().is_some_and(|row| row.name.as_str() == unit.text
                && row.generation == generation),
            None => prefixes
                .next()
                .is_some_and(|prefix| prefix.as_str() == unit.text),
        };
        if !is_next {
            return false;
        }
    }
    items.next().is_none() && prefixes.next().is_none() && is_same_next(&found.next, wanted.next)
}

fn is_same_next(found: &Option<Unit>, wanted: Option<PlainUnit<'_>>) -> bool {
    match (found, wanted) {
        (Some(found), Some(wanted)) => {
            found.text.as_str() == wanted.text && found.number == wanted.number
        }
        (None, None) => true,
        _ => false,
    }
}
