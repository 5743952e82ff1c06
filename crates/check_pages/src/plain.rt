//! The pages of a listing as they are defined: of all versions those that are listed are taken, their names folded, and the
//! units of all of them made, sorted, freed of repeats and cut into pages.
use crate::listing::Listing;
use crate::plan::Planned;
use gcs_meaning::{Kind, View};
use std::alloc::{AllocError, Global};

/// A unit: an item, with the generation of the version that it shows, or a common prefix, whose number is 0.
#[derive(Clone, Copy, Debug, PartialEq, Eq, PartialOrd, Ord)]
pub struct PlainUnit<'a> {
    pub text: &'a str,
    pub number: u64,
    pub generation: Option<u64>,
}

/// The units of a page, and the last of them where more are left.
#[derive(Clone, Copy, Debug)]
pub struct PlainPage<'u, 'a> {
    pub units: &'u [PlainUnit<'a>],
    pub next: Option<PlainUnit<'a>>,
}

/// All units of a listing at the moment (microseconds since 1970), in order and each once. `Err`: no memory.
pub fn units_of<'a>(
    alloc: Global,
    versions: &'a [Planned],
    listing: &Listing<'_>,
    moment: u64,
) -> Result<Vec<PlainUnit<'a>>, AllocError> {
    let mut units = Vec::new(alloc);
    for version in versions {
        if is_shown(listing.view, version.kind, moment) && is_kept(listing, version.name.as_str()) {
            add_units(&mut units, listing, version)?;
        }
    }
    units.sort()?;
    units.dedup();
    Ok(units)
}

/// The first `most` units behind the one of the token.
pub fn page_of<'u, 'a>(
    units: &'u [PlainUnit<'a>],
    token: Option<PlainUnit<'a>>,
    most: usize,
) -> PlainPage<'u, 'a> {
    let passed = match token {
        Some(token) => units.iter().filter(|unit| **unit <= token).count(),
        None => 0,
    };
    let left = &units[passed.min(units.len())..];
    let shown = &left[..most.min(left.len())];
    PlainPage {
        units: shown,
        next: if most < left.len() {
            shown.last().copied()
        } else {
            None
        },
    }
}

// The view shows a version of this kind, which isn't gone at the moment.
fn is_shown(view: View, kind: Kind, moment: u64) -> bool {
    match kind {
        Kind::Live => view != View::Soft,
        Kind::Noncurrent { .. } => view == View::Versions,
        Kind::Soft { hard, .. } => view == View::Soft && moment < hard,
    }
}

// The listing asks for this name.
fn is_kept(listing: &Listing<'_>, name: &str) -> bool {
    let span = listing.span;
    let is_from_start = match span.start {
        Some(start) => start <= name,
        None => true,
    };
    let is_below_end = match span.end {
        Some(end) => name < end,
        None => true,
    };
    name.starts_with(span.prefix) && is_from_start && is_below_end
}

fn add_units<'a>(
    units: &mut Vec<PlainUnit<'a>>,
    listing: &Listing<'_>,
    version: &'a Planned,
) -> Result<(), AllocError> {
    let name = version.name.as_str();
    let Some(prefix) = common_prefix(listing, name) else {
        return add_item(units, listing.view, version);
    };
    units.push(PlainUnit {
        text: prefix,
        number: 0,
        generation: None,
    })?;
    if listing.trailing && prefix == name {
        add_item(units, listing.view, version)?;
    }
    Ok(())
}

fn add_item<'a>(
    units: &mut Vec<PlainUnit<'a>>,
    view: View,
    version: &'a Planned,
) -> Result<(), AllocError> {
    let number = match view {
        View::Live => 1,
        View::Versions | View::Soft => version.generation,
    };
    units.push(PlainUnit {
        text: version.name.as_str(),
        number,
        generation: Some(version.generation),
    })?;
    Ok(())
}

// The name up to and with the first delimiter behind the listing's prefix.
fn common_prefix<'a>(listing: &Listing<'_>, name: &'a str) -> Option<&'a str> {
    let delimiter = listing.delimiter;
    if delimiter.is_empty() {
        return None;
    }
    let rest = name.strip_prefix(listing.span.prefix)?;
    let (_, behind) = rest.split_once(delimiter)?;
    name.strip_suffix(behind)
}
