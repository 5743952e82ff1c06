//! Targets: the path, cut at each `/`, against the rows of the table, and the query.
ghost use Rattle.std.specs.Prelude.{◌≡◌, map, length, take, drop, ◌+◌, ◌<◌, IfOk};
ghost use Rattle.std.specs.Option.{option_copied, option_map};
ghost use Rattle.gcs_route.specs.Finding.{is_hole, fits, find_row, has_path};
ghost use Rattle.gcs_route.specs.Paths.{segments, front, path_of, query_of};
ghost use Rattle.gcs_route.specs.Table.{route_of};

use crate::table::Route;
use std::alloc::{AllocError, Global};

/// The texts between the `/` signs of a path.
pub(crate) fn segments<'a>(alloc: Global, path: &'a [u8]) -> Result<Vec<&'a [u8]>, AllocError>
    ensures { IfOk result (λ parts. map (λ s. s.now) parts.items ≡ segments path.now) }
{
    let mut parts = Vec::new(alloc);
    let mut rest = path;
    let mut at = front(rest);
    while at < rest.len() {
        let (segment, others) = around(rest, at);
        parts.push(segment)?;
        rest = others;
        at = front(rest);
    }
    parts.push(rest)?;
    Ok(parts)
}

// What stands in front of that place and behind it.
fn around(path: &[u8], at: usize) -> (&[u8], &[u8])
    requires { at < length path.now }
    ensures { (result.0.now ≡ take at path.now) × (result.1.now ≡ drop (at + 1) path.now) }
{
    (&path[..at], &path[at + 1..])
}

// How many bytes stand in front of the first `/`.
fn front(path: &[u8]) -> usize
    ensures { result ≡ length (front path.now) }
{
    path.iter().take_while(|byte| **byte != b'/').count()
}

fn is_hole(piece: &str) -> bool
    ensures { result ≡ is_hole piece.now }
{
    piece == "{bucket}" || piece == "{object}"
}

/// Whether the segments are those of the row's path, with anything for a name.
pub(crate) fn fits(path: &[&str], segments: &[&[u8]]) -> bool
    ensures { result ≡ fits (map (λ s. s.now) path.now) (map (λ s. s.now) segments.now) }
{
    let Some((piece, pieces)) = path.split_first() else {
        return segments.is_empty();
    };
    let Some((segment, others)) = segments.split_first() else {
        return false;
    };
    (is_hole(piece) || piece.as_bytes() == *segment) && fits(pieces, others)
}

/// The first of these rows that a request is of.
pub(crate) fn find_route(
    routes: &'static [Route],
    method: &[u8],
    segments: &[&[u8]],
) -> Option<&'static Route>
    ensures { option_map route_of (option_copied result) ≡ find_row (map route_of routes.now) method.now (map (λ s. s.now) segments.now) }
{
    let (route, others) = routes.split_first()?;
    if fits(route.path, segments) && route.method.as_bytes() == method {
        return Some(route);
    }
    find_route(others, method, segments)
}

/// Whether one of these rows has this path.
pub(crate) fn has_path(routes: &[Route], segments: &[&[u8]]) -> bool
    ensures { result ≡ has_path (map route_of routes.now) (map (λ s. s.now) segments.now) }
{
    let Some((route, others)) = routes.split_first() else {
        return false;
    };
    fits(route.path, segments) || has_path(others, segments)
}

// How many bytes stand in front of the first `?`.
fn path_len(target: &[u8]) -> usize
    ensures { result ≡ length (path_of target.now) }
{
    target.iter().take_while(|byte| **byte != b'?').count()
}

/// The path of a target.
pub(crate) fn path_of(target: &[u8]) -> &[u8]
    ensures { result.now ≡ path_of target.now }
{
    &target[..path_len(target)]
}

/// The query of a target; empty where there is none.
pub(crate) fn query_of(target: &[u8]) -> &[u8]
    ensures { result.now ≡ query_of target.now }
{
    let at = path_len(target);
    if at < target.len() {
        &target[at + 1..]
    } else {
        &[]
    }
}
