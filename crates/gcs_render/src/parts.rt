//! The fields whose texts are made of parts: digests, the entity tag and the id. Each text is made in `room`.
ghost use Rattle.std.specs.Prelude.{◌≡◌, OnOk, option_map, string_bytes, codes};
ghost use Rattle.gcs_meaning.specs.Content.{bytes_in, md5_if};
ghost use Rattle.gcs_crc.specs.Text.{crc_text_of, md5_text_of};
ghost use Rattle.gcs_render.specs.Fields.{text, text_if};
ghost use Rattle.gcs_render.specs.Resources.{etag, object_id};
ghost use Rattle.gcs_render.specs.Shown.{show_where};

use crate::sink::FieldSink;
use base64::engine::general_purpose::STANDARD;
use gcs_meaning::{BucketName, Hashed, Row};
use std::alloc::AllocError;

pub(crate) fn put_crc<S: FieldSink>(
    fields: &mut S,
    room: &mut String,
    crc: u32,
) -> Result<(), AllocError>
    ensures { OnOk result (S.shown fields.new ≡ show_where (codes "crc32c") (text (crc_text_of crc)) (S.shown fields.old)) }
{
    fill_crc(room, crc)?;
    fields.text("crc32c", room.as_str())?;
    Ok(())
}

fn fill_crc(room: &mut String, crc: u32) -> Result<(), AllocError>
    ensures { OnOk result (string_bytes room.new ≡ crc_text_of crc) }
{
    room.clear();
    STANDARD.encode_string(&crc.to_be_bytes(), room)?;
    Ok(())
}

pub(crate) fn put_etag<S: FieldSink>(
    fields: &mut S,
    room: &mut String,
    generation: u64,
    metageneration: u64,
) -> Result<(), AllocError>
    ensures { OnOk result (S.shown fields.new ≡ show_where (codes "etag") (text (etag generation metageneration)) (S.shown fields.old)) }
{
    fill_etag(room, generation, metageneration)?;
    fields.text("etag", room.as_str())?;
    Ok(())
}

fn fill_etag(room: &mut String, generation: u64, metageneration: u64) -> Result<(), AllocError>
    ensures { OnOk result (string_bytes room.new ≡ etag generation metageneration) }
{
    room.clear();
    room.push_str(itoa::Buffer::new().format(generation))?;
    room.push_str("/")?;
    room.push_str(itoa::Buffer::new().format(metageneration))?;
    Ok(())
}

pub(crate) fn put_id<S: FieldSink>(
    fields: &mut S,
    room: &mut String,
    bucket: &BucketName,
    row: &Row,
) -> Result<(), AllocError>
    ensures { OnOk result (S.shown fields.new ≡ show_where (codes "id") (text (object_id bucket.now row.now.name row.now.generation)) (S.shown fields.old)) }
{
    fill_id(room, bucket, row)?;
    fields.text("id", room.as_str())?;
    Ok(())
}

fn fill_id(room: &mut String, bucket: &BucketName, row: &Row) -> Result<(), AllocError>
    ensures { OnOk result (string_bytes room.new ≡ object_id bucket.now row.now.name row.now.generation) }
{
    room.clear();
    room.push_str(bucket.as_str())?;
    room.push_str("/")?;
    room.push_str(row.name.as_str())?;
    room.push_str("/")?;
    room.push_str(itoa::Buffer::new().format(row.generation))?;
    Ok(())
}

#[tactic(auto, unfolding(crate::specs::Shown::show_where))]
pub(crate) fn put_md5<S: FieldSink>(
    fields: &mut S,
    room: &mut String,
    hashed: &Hashed,
) -> Result<(), AllocError>
    ensures { OnOk result
        (let digest = md5_if hashed.now.with_md5 (bytes_in hashed.now) in
        S.shown fields.new ≡ show_where (codes "md5Hash") (text_if (option_map md5_text_of digest)) (S.shown fields.old)) }
{
    if let Some(digest) = hashed.md5() {
        fill_md5(room, &digest)?;
        fields.text("md5Hash", room.as_str())?;
    }
    Ok(())
}

fn fill_md5(room: &mut String, digest: &[u8; 16]) -> Result<(), AllocError>
    ensures { OnOk result (string_bytes room.new ≡ md5_text_of digest.now) }
{
    room.clear();
    STANDARD.encode_string(digest, room)?;
    Ok(())
}
