//! The versions that are listed, by a fixed rule.
use gcs_meaning::Kind;
use std::alloc::{AllocError, Global};

/// A version, and the state that it is put into.
#[derive(Drop)]
pub struct Planned {
    pub name: String,
    pub generation: u64,
    pub kind: Kind,
}

/// The moment of the listings, in microseconds since 1970.
pub const MOMENT: u64 = 1_000;

const NONCURRENT: Kind = Kind::Noncurrent { at: 20 };

/// Soft-deleted, and not gone at the moment.
const SOFT: Kind = Kind::Soft {
    at: 20,
    hard: MOMENT + 1,
};

/// Soft-deleted, and gone at the moment.
const GONE: Kind = Kind::Soft {
    at: 20,
    hard: MOMENT,
};

/// How many names are made by the rule, with those of `EDGES`.
const NAMES: u32 = 1_997;

/// Names that equal common prefixes of others, and names right before and behind these.
const EDGES: [&str; 18] = [
    "a", "a-", "a.", "a/", "a/-", "a/.", "a/0", "a/00", "a/b", "a/b-", "a/b/", "a/b0", "a0", "b",
    "b-", "b.", "c1/", "d-1-",
];

/// Versions of the greatest generation that there is.
const GREATEST: [(&str, Kind); 3] = [("z", NONCURRENT), ("z/", SOFT), ("z/0", Kind::Live)];

/// The versions of 2,000 names, in an order in which they can be put one after the other: those of a name stand by rising
/// generation, and only the last one may be live. `Err`: no memory.
pub fn planned_versions(alloc: Global) -> Result<Vec<Planned>, AllocError> {
    let mut versions = Vec::new(alloc);
    let mut generation: u64 = 0;
    for number in 0..NAMES {
        let name = name_of(alloc, number)?;
        for kind in kinds_of(number) {
            generation = generation.saturating_add(1);
            versions.push(Planned {
                name: name.clone()?,
                generation,
                kind: *kind,
            })?;
        }
    }
    for (name, kind) in GREATEST {
        versions.push(Planned {
            name: String::from_str(alloc, name)?,
            generation: u64::MAX,
            kind,
        })?;
    }
    Ok(versions)
}

fn name_of(alloc: Global, number: u32) -> Result<String, AllocError> {
    if let Some(edge) = EDGES.get(number as usize) {
        return String::from_str(alloc, edge);
    }
    let ten = number / 10;
    let hundred = number / 100;
    match number % 10 {
        0 => format!(in alloc; "a/{number:04}"),
        1 => format!(in alloc; "a/b/{number:04}"),
        2 => format!(in alloc; "b-{number:04}"),
        3 => format!(in alloc; "c{hundred}/{number:04}"),
        4 => format!(in alloc; "d-{hundred}-{number:04}"),
        5 => format!(in alloc; "é/{number:04}-ß"),
        6 => format!(in alloc; "{ten:04}"),
        7 => format!(in alloc; "{ten:04}-"),
        8 => format!(in alloc; "{ten:04}/"),
        _ => format!(in alloc; "{ten:04}/x-y"),
    }
}

// The states of the versions of a name, by rising generation.
fn kinds_of(number: u32) -> &'static [Kind] {
    match number % 7 {
        0 => &[Kind::Live],
        1 => &[NONCURRENT, Kind::Live],
        2 => &[SOFT, NONCURRENT, Kind::Live],
        3 => &[GONE, NONCURRENT, SOFT, GONE],
        4 => &[NONCURRENT],
        5 => &[GONE, SOFT],
        _ => &[GONE],
    }
}
