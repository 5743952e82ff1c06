//! The pages of listings, compared with those of a plain body of their definition, and calls on many versions: a line a case
//! that tells whether what came is what must come.
#![tactic(auto)]

ghost use Rattle.std.specs.Prelude.{◌≡◌, ◌<◌};

mod comparing;
mod listing;
mod looks;
mod plain;
mod plan;
mod store;

use check_rows::status;
use comparing::{Compared, compare_pages};
use gcs_chunks::Chunks;
use gcs_meaning::View;
use gcs_versions::Steps;
use listing::{Listing, Span};
use looks::try_looks;
use plain::units_of;
use plan::{MOMENT, Planned, planned_versions};
use std::io;
use std::marker::Brand;
use std::process::ExitCode;
use std::sync::ledger::{Blank, Ledger};
use store::Bucket;

const VIEWS: [View; 3] = [View::Live, View::Versions, View::Soft];

const DELIMITERS: [&str; 4] = ["", "/", "-", "/0"];

const SIZES: [u32; 4] = [1, 7, 250, 1_000];

const SPANS: [Span<'static>; 4] = [
    Span {
        prefix: "",
        start: None,
        end: None,
    },
    Span {
        prefix: "a/",
        start: None,
        end: None,
    },
    Span {
        prefix: "",
        start: Some("a/b/"),
        end: Some("d-2"),
    },
    Span {
        prefix: "c",
        start: Some("c1"),
        end: Some("c3/"),
    },
];

fn main(rt: HostRuntime) -> io::Result<ExitCode> {
    let all_ok = try_all::<Brand>(&rt, Blank::new(1))?;
    Ok(status(all_ok))
}

// Prints a line for each case, and answers whether all are as they must be.
fn try_all<L: Ledger>(rt: &(impl Print + AllocGlobal), blank: Blank) -> io::Result<bool>
    requires name { blank.name ≡ L.name }
    requires parts { blank.parts ≡ L.parts }
    requires some { 0 < blank.parts }
{
    let mut steps = Steps::<L>::new(blank);
    let chunks = Chunks::new(rt.alloc())?;
    let mut all_ok = try_looks(rt, &chunks, &mut steps)?;
    let planned = planned_versions(rt.alloc())?;
    let bucket = Bucket::of(rt.alloc(), &chunks, &planned, &mut steps)?;
    for view in VIEWS {
        for span in SPANS {
            all_ok &= compare_view(rt, &planned, &bucket, view, span, &mut steps)?;
        }
    }
    Ok(all_ok)
}

fn compare_view<L: Ledger>(
    rt: &(impl Print + AllocGlobal),
    planned: &[Planned],
    bucket: &Bucket,
    view: View,
    span: Span<'_>,
    steps: &mut Steps<L>,
) -> io::Result<bool> {
    let mut all_same = true;
    for delimiter in DELIMITERS {
        for trailing in [false, true] {
            let listing = Listing {
                view,
                delimiter,
                trailing,
                span,
            };
            all_same &= compare_listing(rt, planned, bucket, &listing, steps)?;
        }
    }
    Ok(all_same)
}

fn compare_listing<L: Ledger>(
    rt: &(impl Print + AllocGlobal),
    planned: &[Planned],
    bucket: &Bucket,
    listing: &Listing<'_>,
    steps: &mut Steps<L>,
) -> io::Result<bool> {
    let units = units_of(rt.alloc(), planned, listing, MOMENT)?;
    let mut all_same = true;
    for most in SIZES {
        match compare_pages(rt.alloc(), bucket, listing, &units, most, steps)? {
            Compared::Same(pages) => println!(rt; "ok {listing} by {most}: {pages} pages")?,
            Compared::DiffersAt(page) => {
                all_same = false;
                println!(rt; "FAILED {listing} by {most}: page {page} differs")?;
            }
        }
    }
    Ok(all_same)
}
