//! Calls on many versions: what they find, and how many looks they take at most, which the clauses here say of them.
ghost use Rattle.std.specs.Prelude.{◌≡◌, ◌≤◌, ◌+◌, length, IfOk};
ghost use Rattle.gcs_meaning.specs.declared.listing.View.TheVariants.{Live};

use crate::listing::{Listing, Span};
use crate::plan::{MOMENT, Planned};
use crate::store::Bucket;
use gcs_chunks::Chunks;
use gcs_listing::page;
use gcs_meaning::{Kind, Name, Page, PageQuery, Row, Settings, Text, View};
use gcs_versions::{Steps, Versions};
use std::alloc::{AllocError, Global};
use std::io;
use std::sync::ledger::Ledger;

const ALL: Span<'static> = Span {
    prefix: "",
    start: None,
    end: None,
};

/// Prints the line of each case, and answers whether all are as they must be.
pub fn try_looks<L: Ledger>(
    rt: &(impl Print + AllocGlobal),
    chunks: &Chunks,
    steps: &mut Steps<L>,
) -> io::Result<bool> {
    let folded = is_folded(rt.alloc(), chunks, steps)?;
    let aged = is_aged(rt.alloc(), chunks, steps)?;
    let mut all_ok = tell(rt, "2,000 names in one prefix", folded)?;
    all_ok &= tell(rt, "1,000 soft-deleted versions gone at one moment", aged)?;
    Ok(all_ok)
}

fn tell(rt: &impl Print, name: &str, is_so: bool) -> io::Result<bool> {
    let word = if is_so { "ok" } else { "FAILED" };
    println!(rt; "{word} {name}")?;
    Ok(is_so)
}

// 2,000 live versions `a/0000` to `a/1999`: folded at `/` they are the one prefix `a/`, and one of them is found by its name.
fn is_folded<L: Ledger>(
    alloc: Global,
    chunks: &Chunks,
    steps: &mut Steps<L>,
) -> Result<bool, AllocError> {
    let bucket = bucket_of(alloc, chunks, 2_000, Kind::Live, steps)?;
    let is_one = is_one_prefix(alloc, &bucket, steps)?;
    let has_one = has_version(alloc, &bucket.versions, steps)?;
    Ok(is_one && has_one)
}

fn is_one_prefix<L: Ledger>(
    alloc: Global,
    bucket: &Bucket,
    steps: &mut Steps<L>,
) -> Result<bool, AllocError> {
    let listing = Listing {
        view: View::Live,
        delimiter: "/",
        trailing: false,
        span: ALL,
    };
    let query = listing.query(alloc, 1_000, None)?;
    let page = live_page(alloc, &bucket.versions, &bucket.settings, &query, steps)?;
    let prefixes = page.prefixes.as_slice();
    Ok(
        page.items.is_empty()
            && page.next.is_none()
            && prefixes.len() == 1
            && prefixes[0].as_str() == "a/",
    )
}

fn has_version<L: Ledger>(
    alloc: Global,
    versions: &Versions,
    steps: &mut Steps<L>,
) -> Result<bool, AllocError> {
    let name = Name::new(Text::from_str(alloc, "a/1234")?);
    let row = find(versions, &name, 1_235, steps);
    Ok(row.is_some_and(|row| row.name.as_str() == "a/1234"))
}

// 1,000 soft-deleted versions whose hard time comes at one moment: until then all stay, and then none does.
fn is_aged<L: Ledger>(
    alloc: Global,
    chunks: &Chunks,
    steps: &mut Steps<L>,
) -> Result<bool, AllocError> {
    let soft = Kind::Soft {
        at: 20,
        hard: MOMENT,
    };
    let mut bucket = bucket_of(alloc, chunks, 1_000, soft, steps)?;
    let versions = &mut bucket.versions;
    versions.age(MOMENT - 1);
    let stayed = versions.latest_hard() == MOMENT && has_soft(versions, steps);
    versions.age(MOMENT);
    Ok(stayed && versions.latest_hard() == 0 && !has_soft(versions, steps))
}

fn has_soft<L: Ledger>(versions: &Versions, steps: &mut Steps<L>) -> bool {
    versions.seek(View::Soft, b"", 0, steps).is_some()
}

// A bucket of so many versions of this kind, whose names rise, of generations from 1 on.
fn bucket_of<L: Ledger>(
    alloc: Global,
    chunks: &Chunks,
    count: u64,
    kind: Kind,
    steps: &mut Steps<L>,
) -> Result<Bucket, AllocError> {
    let mut planned = Vec::new(alloc);
    for number in 0..count {
        planned.push(Planned {
            name: format!(in alloc; "a/{number:04}")?,
            generation: number.saturating_add(1),
            kind,
        })?;
    }
    Bucket::of(alloc, chunks, &planned, steps)
}

// The version of a name and generation. Among 2,000 it takes 16 looks at most, since 64 * 2,000 + 64 is below 2 ^ 17.
fn find<'a, L: Ledger>(
    versions: &'a Versions,
    name: &Name,
    generation: u64,
    steps: &mut Steps<L>,
) -> Option<&'a Row>
    ensures some { steps.old + 1 ≤ steps.new }
    ensures few { length versions.now.rows ≤ 2000 → steps.new ≤ steps.old + 16 }
{
    versions.get(name, generation, steps)
}

// A page of live versions. Where it shows one unit, it takes five searches at most: 80 looks among 2,000 versions.
fn live_page<L: Ledger>(
    alloc: Global,
    versions: &Versions,
    settings: &Settings,
    query: &PageQuery,
    steps: &mut Steps<L>,
) -> Result<Page, AllocError>
    requires { query.now.view ≡ Live }
    ensures { IfOk result (λ page.
        length versions.now.rows ≤ 2000 → length page.items + length page.prefixes ≤ 1 → steps.new ≤ steps.old + 80) }
{
    page(alloc, versions, settings, query, MOMENT, steps)
}
