//! Media replies: the bytes of a version, or a part of them, behind a head that tells what they are.
ghost use Rattle.std.specs.Prelude.{◌≡◌, ◌≤◌, ◌++◌, ℕ, List, IfOk, OnOk, Some, codes, length, option_map, slice_range, string_bytes};
ghost use Rattle.gcs_chunks.specs.Content.{ChunksValue};
ghost use Rattle.gcs_http_out.specs.Head.{IsStatus, head_text};
ghost use Rattle.gcs_meaning.specs.Content.{bytes_in};
ghost use Rattle.gcs_meaning.specs.Contents.{RowLiesIn};
ghost use Rattle.gcs_reply.specs.Replies.{content_lines, hash_text, head_and_body, line_text, lines_behind, media_lines, media_status, meta_lines, part_bytes, part_text, standing, version_lines};
ghost use Rattle.gcs_reply.specs.Outgoing.{outgoing_bytes, OutgoingLiesIn};

use crate::excerpt::Excerpt;
use crate::form::Form;
use crate::head_lines::{push_number, push_text_if};
use crate::outgoing::Outgoing;
use gcs_crc::{crc_text, md5_text};
use gcs_http_out::{Ending, push_end, push_field, push_status};
use gcs_meaning::{Copied, Hashed, Meta, Row};
use std::alloc::{AllocError, Global};

// Room for the head of a usual version.
const HEAD_ROOM: usize = 512;

/// The bytes of a version, or the part of them from the first of these places up to and with the last. `Err`: no memory.
///
/// Source: RFC 9110, 14.4 and 15.3.7; Cloud Storage JSON API, "Objects: get".
pub fn media_reply(
    alloc: Global,
    form: Form,
    row: &Row,
    part: Option<(u64, u64)>,
) -> Result<Outgoing, AllocError>
    ensures text { IfOk result (λ outgoing. outgoing_bytes outgoing
        ≡ head_and_body form (media_status part) (standing (media_lines row.now part)) (part_bytes part (bytes_in row.now.hashed))) }
    ensures lies { IfOk result (λ outgoing. (chunks : ChunksValue) → RowLiesIn chunks row.now → OutgoingLiesIn chunks outgoing) }
{
    let content = row.hashed.content();
    let (from, to) = bounds_of(content.len(), part);
    let head = media_head(alloc, row, part, to - from, form.ending)?;
    if form.head_only {
        return Ok(Outgoing::Text(head));
    }
    let content = content.copy()?;
    Ok(Outgoing::Media {
        head,
        body: Excerpt::new(content, from, to),
    })
}

fn media_head(
    alloc: Global,
    row: &Row,
    part: Option<(u64, u64)>,
    size: u64,
    ending: Ending,
) -> Result<Vec<u8>, AllocError>
    ensures { IfOk result (λ head. head.items ≡ head_text (media_status part) (standing (media_lines row.now part)) (Some size) ending) }
{
    let mut head = Vec::with_capacity(alloc, HEAD_ROOM)?;
    push_status(&mut head, media_status(part))?;
    push_media_lines(alloc, &mut head, row, part)?;
    push_end(&mut head, Some(size), ending)?;
    Ok(head)
}

fn media_status(part: Option<(u64, u64)>) -> u16
    ensures status { result ≡ media_status part }
    ensures known { IsStatus result }
{
    match part {
        None => 200,
        Some(_) => 206,
    }
}

// Where a part of a content of that size begins and ends.
fn bounds_of(size: u64, part: Option<(u64, u64)>) -> (u64, u64)
    ensures order { result.0 ≤ result.1 }
    ensures within { result.1 ≤ size }
    ensures bytes { (bytes : List ℕ) → length bytes ≡ size → slice_range bytes result.0 result.1 ≡ part_bytes part bytes }
{
    match part {
        None => (0, size),
        Some((first, last)) => {
            let end = last.saturating_add(1).min(size);
            (first.min(end), end)
        }
    }
}

#[tactic(auto, unfolding(crate::specs::Replies::media_lines))]
fn push_media_lines(
    alloc: Global,
    head: &mut Vec<u8>,
    row: &Row,
    part: Option<(u64, u64)>,
) -> Result<(), AllocError>
    ensures { OnOk result (head.new.items ≡ lines_behind (media_lines row.now part) head.old.items) }
{
    push_content(alloc, head, row, part)?;
    push_meta(head, &row.meta)?;
    push_version(alloc, head, row)?;
    Ok(())
}

fn push_content(
    alloc: Global,
    head: &mut Vec<u8>,
    row: &Row,
    part: Option<(u64, u64)>,
) -> Result<(), AllocError>
    ensures { OnOk result (head.new.items ≡ lines_behind (content_lines row.now part) head.old.items) }
{
    push_field(head, "Content-Type", row.meta.content_type.as_str())?;
    push_part(alloc, head, &row.hashed, part)?;
    Ok(())
}

fn push_part(
    alloc: Global,
    head: &mut Vec<u8>,
    hashed: &Hashed,
    part: Option<(u64, u64)>,
) -> Result<(), AllocError>
    ensures { OnOk result (head.new.items
        ≡ head.old.items ++ line_text (codes "Content-Range") (option_map (part_text (length (bytes_in hashed.now))) part)) }
{
    if let Some((first, last)) = part {
        let text = part_text(alloc, first, last, hashed.content().len())?;
        push_field(head, "Content-Range", text.as_str())?;
    }
    Ok(())
}

fn part_text(alloc: Global, first: u64, last: u64, size: u64) -> Result<String, AllocError>
    ensures { IfOk result (λ text. string_bytes text ≡ part_text size (first, last)) }
{
    Ok(format!(in alloc; "bytes {first}-{last}/{size}")?)
}

fn push_meta(head: &mut Vec<u8>, meta: &Meta) -> Result<(), AllocError>
    ensures { OnOk result (head.new.items ≡ lines_behind (meta_lines meta.now) head.old.items) }
{
    push_text_if(head, "Cache-Control", &meta.cache_control)?;
    push_text_if(head, "Content-Disposition", &meta.content_disposition)?;
    push_text_if(head, "Content-Encoding", &meta.content_encoding)?;
    push_text_if(head, "Content-Language", &meta.content_language)?;
    Ok(())
}

fn push_version(alloc: Global, head: &mut Vec<u8>, row: &Row) -> Result<(), AllocError>
    ensures { OnOk result (head.new.items ≡ lines_behind (version_lines row.now) head.old.items) }
{
    push_number(head, "x-goog-generation", row.generation)?;
    push_number(head, "x-goog-metageneration", row.metageneration)?;
    let hashes = hash_text(alloc, &row.hashed)?;
    push_field(head, "x-goog-hash", hashes.as_str())?;
    Ok(())
}

fn hash_text(alloc: Global, hashed: &Hashed) -> Result<String, AllocError>
    ensures { IfOk result (λ text. string_bytes text ≡ hash_text hashed.now) }
{
    let crc = crc_text(alloc, hashed.crc())?;
    match hashed.md5() {
        None => Ok(format!(in alloc; "crc32c={crc}")?),
        Some(digest) => {
            let md5 = md5_text(alloc, &digest)?;
            Ok(format!(in alloc; "crc32c={crc},md5={md5}")?)
        }
    }
}
