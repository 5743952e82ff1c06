//! The row of the table that a request is, with its names and its parameters.
ghost use Rattle.std.specs.Prelude.{◌≡◌, ◌&&◌, not, [], bytes_eq, map, IfOk, IfErr};
ghost use Rattle.gcs_query.specs.Query.{pairs_of};
ghost use Rattle.gcs_route.specs.Calls.{IsCall, IsFault, IsCallOf, IsFaultOfRow, blank};
ghost use Rattle.gcs_route.specs.Kinds.{is_upload};
ghost use Rattle.gcs_route.specs.OfTable.{IsOfTable};
ghost use Rattle.gcs_route.specs.Params.{text_at};
ghost use Rattle.gcs_route.specs.Pieces.{row_by};
ghost use Rattle.gcs_route.specs.Table.{route_of};

use crate::call::{Call, MaskPart};
use crate::fault::RouteFault;
use crate::kind::RequestKind;
use crate::masks::read_fields;
use crate::naming::read_names;
use crate::pairs::read_pairs;
use crate::params::read_params;
use crate::paths::{find_route, has_path, path_of, query_of, segments};
use crate::table::{Param, Route, all_routes};
use gcs_meaning::{BucketName, Key, List, Name, Pre, Reason, Text, key_text};
use gcs_query::Query;
use std::alloc::Global;

/// The call that a request is: its row, names, parameters and mask. `target` is a path and, behind its first `?`, a query.
///
/// `Refused` has the reason of the first test that fails, in this order: a row has the path (`NoPath`), with this method
/// (`NoMethod`); the names of the path (`Invalid`); the query is text once decoded (`Invalid`); the parameters of the row,
/// in its order (`Required`, `Invalid`); the mask `fields` (`BadMask`), which deletions and downloads do not read, and
/// which lists and rewrites keep in the call where it is none. A call has the names and parameters that its row needs
/// (`fits`).
/// Source: Cloud Storage JSON API, the HTTP requests and parameters of "Buckets" and "Objects".
pub fn route(alloc: Global, method: &[u8], target: &[u8]) -> Result<Call, RouteFault>
    ensures call { IfOk result (IsCall method.now target.now) }
    ensures fits { IfOk result IsOfTable }
    ensures fault { IfErr result (IsFault method.now target.now) }
{
    let segments = segments(alloc, path_of(target))?;
    let Some(route) = find_route(all_routes(), method, &segments) else {
        let reason = if has_path(all_routes(), &segments) {
            Reason::NoMethod
        } else {
            Reason::NoPath
        };
        return Err(RouteFault::Refused(reason));
    };
    read_call(alloc, route, &segments, query_of(target))
}

// The call of a request of that row.
fn read_call(
    alloc: Global,
    route: &Route,
    segments: &[&[u8]],
    query: &[u8],
) -> Result<Call, RouteFault>
    ensures call { IfOk result (IsCallOf (row_by (pairs_of query.now) (route_of route.now)) (map (λ s. s.now) segments.now) query.now) }
    ensures fault { IfErr result (IsFaultOfRow (row_by (pairs_of query.now) (route_of route.now)) (map (λ s. s.now) segments.now) query.now) }
{
    let mut buckets = List::new(alloc);
    let mut objects = List::new(alloc);
    read_names(alloc, route.path, segments, &mut buckets, &mut objects)?;
    let query = read_pairs(alloc, query)?;
    let route = route_by(route, &query);
    let mut call = blank(alloc, route.kind.row(), buckets, objects);
    read_params(alloc, &query, &mut call, route.params)?;
    call.mask = read_fields(alloc, &query, route.masking)?;
    Ok(call)
}

// The row that a request is of by its query.
fn route_by(route: &Route, query: &Query) -> Route
    ensures { route_of result ≡ row_by query.now (route_of route.now) }
{
    if !is_piece(route.kind, query) {
        return *route;
    }
    Route {
        kind: RequestKind::UploadPiece,
        params: &[Param::UploadId],
        ..*route
    }
}

// Whether the request goes on with an upload that has begun.
fn is_piece(kind: RequestKind, query: &Query) -> bool
    ensures { result ≡ (is_upload kind && not (bytes_eq (text_at query.now Key.UploadId) [])) }
{
    kind.is_upload() && query.text(key_text(Key::UploadId)).is_some()
}

// A call of that row with its names, and without parameters.
fn blank(alloc: Global, row: u32, buckets: List<BucketName>, objects: List<Name>) -> Call
    ensures { result ≡ blank row buckets objects }
{
    Call {
        row,
        buckets,
        objects,
        generation: None,
        pre: no_pre(),
        source_generation: None,
        source_pre: no_pre(),
        soft: false,
        media: false,
        versions: false,
        trailing: false,
        prefix: Text::new(alloc),
        delimiter: Text::new(alloc),
        start: None,
        end: None,
        most: 0,
        page_token: None,
        rewrite_token: None,
        per_call: None,
        upload: None,
        upload_id: None,
        name: None,
        encoding: None,
        mask: MaskPart::Absent,
    }
}

fn no_pre() -> Pre
    ensures { result ≡ record { generation_is = None; generation_not = None; metageneration_is = None; metageneration_not = None } }
{
    Pre {
        generation_is: None,
        generation_not: None,
        metageneration_is: None,
        metageneration_not: None,
    }
}
