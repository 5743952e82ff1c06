//! Listings in pages: all units of all versions, sorted, and cut.
use crate::kept::{Bucket, Page, Stop, Wanted};
use gcs_meaning::{Kind, PageQuery, Text, Unit, View};
use std::alloc::AllocError;

// A unit by its text and its number, and where the version stands that it shows. A common prefix shows none.
type PlainUnit<'a> = (&'a str, u64, Option<usize>);

impl Bucket {
    /// One page of the listing that is asked for.
    pub fn list(&self, query: &PageQuery) -> Result<Wanted, Stop> {
        let mut units = Vec::new(*self.versions.allocator());
        for (place, version) in self.versions.iter().enumerate() {
            let number = match query.view {
                View::Live => 1,
                View::Versions | View::Soft => version.generation,
            };
            let item = (version.body.name.as_str(), number, Some(place));
            if is_shown(query.view, version.kind) && is_asked(query, item.0) {
                add_units(&mut units, query, item)?;
            }
        }
        if let Some(after) = &query.after {
            let after = (after.text.as_str(), after.number);
            units.retain(|unit| (unit.0, unit.1) > after);
        }
        units.sort()?;
        units.dedup();
        Ok(Wanted::Page(self.page(&units, query.most as usize)?))
    }

    // The first so many units.
    fn page(&self, units: &[PlainUnit<'_>], most: usize) -> Result<Page, AllocError> {
        let alloc = *self.versions.allocator();
        let shown = units.get(..most).unwrap_or(units);
        let mut page = Page {
            items: Vec::new(alloc),
            prefixes: Vec::new(alloc),
            next: None,
        };
        for (text, number, place) in shown {
            match place {
                Some(place) => if let Some(version) = self.versions.get(*place) {
                    page.items.push(version.copy()?)?;
                }
                None => page.prefixes.push(Text::from_str(alloc, *text)?)?,
            }
            page.next = Some(Unit {
                text: Text::from_str(alloc, *text)?,
                number: *number,
            });
        }
        if shown.len() == units.len() {
            page.next = None;
        }
        Ok(page)
    }
}

fn is_shown(view: View, kind: Kind) -> bool {
    match kind {
        Kind::Live => view != View::Soft,
        Kind::Noncurrent { .. } => view == View::Versions,
        Kind::Soft { .. } => view == View::Soft,
    }
}

fn is_asked(query: &PageQuery, name: &str) -> bool {
    let is_from_start = match &query.start {
        Some(start) => start.as_str() <= name,
        None => true,
    };
    let is_below_end = match &query.end {
        Some(end) => name < end.as_str(),
        None => true,
    };
    name.starts_with(query.prefix.as_str()) && is_from_start && is_below_end
}

// The item, or the common prefix that its name has, or both.
fn add_units<'a>(
    units: &mut Vec<PlainUnit<'a>>,
    query: &PageQuery,
    item: PlainUnit<'a>,
) -> Result<(), AllocError> {
    match common_prefix(query, item.0) {
        Some(prefix) => {
            units.push((prefix, 0, None))?;
            if query.trailing && prefix == item.0 {
                units.push(item)?;
            }
        }
        None => units.push(item)?,
    }
    Ok(())
}

// The name up to and with the first delimiter behind the prefix that is asked for.
fn common_prefix<'a>(query: &PageQuery, name: &'a str) -> Option<&'a str> {
    let delimiter = query.delimiter.as_str();
    if delimiter.is_empty() {
        return None;
    }
    let rest = name.strip_prefix(query.prefix.as_str())?;
    let (_, behind) = rest.split_once(delimiter)?;
    name.strip_suffix(behind)
}
