//! Values of the store and their copies.
ghost use Rattle.std.specs.Prelude.{◌≡◌, ◌<◌, [], IfOk, true};
ghost use Rattle.gcs_chunks.specs.Content.{bytes_of, ChunksValue, ContentLiesIn};
ghost use Rattle.gcs_meaning.specs.Choosing.{is_live};

use crate::answers::refusal_text;
use crate::commands::{command_of, tub};
use crate::version_commands::plain_meta;
use gcs_chunks::{Chunks, Content, Piece};
use gcs_meaning::{
    BucketName, BucketRow, Copied, DEFAULT_CLASS, DEFAULT_SOFT_SECONDS, Expect, Hashed, Kind, List,
    Name, Pairs, Pre, Reason, Row, Settings, Text, Unit, Upload, UploadState,
};
use gcs_store::Shard;
use gcs_versions::{Steps, Versions};
use std::alloc::{AllocError, Global};
use std::marker::Brand;
use std::sync::ledger::{Blank, Ledger};

const GENERATION: u64 = 1_700_000_000_000_000;

/// What has a copy that isn't equal to it, or a text that isn't its own. `Err`: no memory.
pub fn first_bad_copy(alloc: Global) -> Result<Option<&'static str>, AllocError> {
    let chunks = Chunks::new(alloc)?;
    let hashed = Hashed::of(digits(alloc, no_bytes(alloc))?, &chunks);
    let name = Name::new(Text::from_str(alloc, "a")?);
    Ok(if !is_of_digits(&hashed) || !is_of_digits(&hashed.copy()?) {
        Some("a content")
    } else if !is_upload_copied(alloc, row(alloc, name.copy()?, hashed.copy()?)?)? {
        Some("an upload")
    } else if !are_versions_copied::<Brand>(alloc, row(alloc, name, hashed)?, Blank::new(1))? {
        Some("versions")
    } else if !is_bucket_copied(alloc)? {
        Some("what is shown of a bucket")
    } else if !is_slot_copied(alloc, &chunks)? {
        Some("a bucket")
    } else if !are_units_copied(alloc)? {
        Some("a list")
    } else if !are_refusals_told(alloc)? {
        Some("a refusal that no step gives")
    } else {
        None
    })
}

#[tactic(auto, unfolding(gcs_chunks::specs::Content::bytes_of, gcs_chunks::specs::Content::no_content))]
fn no_bytes(alloc: Global) -> Content
    ensures bytes { bytes_of result ≡ [] }
    ensures lies { (chunks : ChunksValue) → ContentLiesIn chunks result }
{
    Content::empty(alloc)
}

fn digits(alloc: Global, mut content: Content) -> Result<Content, AllocError>
    requires bytes { bytes_of content ≡ [] }
    requires lies { (chunks : ChunksValue) → ContentLiesIn chunks content }
    ensures { IfOk result (λ made. (chunks : ChunksValue) → ContentLiesIn chunks made) }
{
    let bytes = Vec::from_slice(alloc, b"123456789")?;
    let piece = Piece::own(alloc, bytes)?;
    content.append(&piece, 0, 9)?;
    Ok(content)
}

// The CRC is the check value of CRC-32/ISCSI, and the MD5 what `md5sum` prints.
fn is_of_digits(hashed: &Hashed) -> bool {
    let md5 = [
        0x25, 0xF9, 0xE7, 0x94, 0x32, 0x3B, 0x45, 0x38, 0x85, 0xF5, 0x18, 0x1F, 0x1B, 0x62, 0x4D,
        0x0B,
    ];
    hashed.content().len() == 9 && hashed.crc() == 0xE306_9283 && hashed.md5() == Some(md5)
}

fn row(alloc: Global, name: Name, hashed: Hashed) -> Result<Row, AllocError>
    ensures live { IfOk result (λ row. is_live row.kind ≡ true) }
{
    Ok(Row {
        name,
        generation: GENERATION,
        metageneration: 1,
        hashed,
        components: None,
        meta: plain_meta(alloc)?,
        created: GENERATION,
        updated: GENERATION,
        retention_start: GENERATION,
        kind: Kind::Live,
    })
}

// An upload that is done, with the version that it made.
fn is_upload_copied(alloc: Global, row: Row) -> Result<bool, AllocError> {
    let upload = Upload {
        name: row.name.copy()?,
        pre: Pre {
            generation_is: Some(0),
            generation_not: None,
            metageneration_is: None,
            metageneration_not: None,
        },
        meta: plain_meta(alloc)?,
        expect: Expect {
            crc: None,
            md5: None,
        },
        total: None,
        content: Content::empty(alloc),
        start: GENERATION,
        state: UploadState::Done(row),
    };
    let copy = upload.copy()?;
    Ok(match &copy.state {
        UploadState::Done(row) => row.generation == GENERATION && is_of_digits(&row.hashed),
        _ => false,
    })
}

fn are_versions_copied<L: Ledger>(alloc: Global, row: Row, blank: Blank) -> Result<bool, AllocError>
    requires live { is_live row.kind ≡ true }
    requires name { blank.name ≡ L.name }
    requires parts { blank.parts ≡ L.parts }
    requires some { 0 < blank.parts }
{
    let mut steps = Steps::<L>::new(blank);
    let mut versions = Versions::new(alloc);
    let name = row.name.copy()?;
    versions.prepare(&name)?;
    let is_there = versions
        .get(&row.name, row.generation, &mut steps)
        .is_some();
    let has_live = versions.live(&row.name, &mut steps).is_some();
    if is_there || has_live || row.generation == 0 {
        return Ok(false);
    }
    versions.put(row);
    versions.known();
    let copy = versions.copy()?;
    let found = copy.live(&name, &mut steps);
    Ok(found.is_some_and(|row| row.generation == GENERATION))
}

fn is_bucket_copied(alloc: Global) -> Result<bool, AllocError> {
    let bucket = BucketRow {
        name: BucketName::new(Text::from_str(alloc, "tub")?),
        generation: GENERATION,
        metageneration: 1,
        created: GENERATION,
        updated: GENERATION,
        settings: Settings {
            location: Text::from_str(alloc, "US")?,
            storage_class: Text::from_str(alloc, DEFAULT_CLASS)?,
            labels: Pairs::new(alloc),
            lifecycle: None,
            versioned: true,
            default_event_hold: false,
            retention: None,
            soft_seconds: DEFAULT_SOFT_SECONDS,
            soft_since: GENERATION,
        },
    };
    let copy = bucket.copy()?;
    Ok(
        copy.name.as_str() == "tub"
            && copy.settings.versioned
            && copy.settings.soft_seconds == DEFAULT_SOFT_SECONDS,
    )
}

// The bucket of a shard that was asked for one insert.
fn is_slot_copied(alloc: Global, chunks: &Chunks) -> Result<bool, AllocError> {
    let mut shard = Shard::new(alloc, chunks);
    let Some(insert) = command_of(alloc, chunks, "insert")? else {
        return Ok(false);
    };
    if let Err(command) = shard.apply(0, 0, GENERATION, insert) {
        drop(command);
        return Err(AllocError);
    }
    let Some(bucket) = shard.slot(&tub(alloc)?) else {
        return Ok(false);
    };
    bucket.copy()?;
    Ok(true)
}

fn are_units_copied(alloc: Global) -> Result<bool, AllocError> {
    let mut units = List::new(alloc);
    for (text, number) in [("a", 1), ("b/", 0)] {
        units.push(Unit {
            text: Text::from_str(alloc, text)?,
            number,
        })?;
    }
    let copy = units.copy()?;
    let mut wanted = ["a", "b/"].iter();
    for unit in copy.as_slice() {
        if !wanted
            .next()
            .is_some_and(|text| *text == unit.text.as_str())
        {
            return Ok(false);
        }
    }
    Ok(wanted.next().is_none())
}

// The texts are those of docs/PROTOCOL.md, "Refusals".
fn are_refusals_told(alloc: Global) -> Result<bool, AllocError> {
    let large = Reason::TooLarge {
        size: 5_497_558_138_881,
    };
    let cases = [
        (Reason::Gone { expired: true }, "410 gone: upload expired"),
        (
            Reason::Held { event: false },
            "403 objectUnderActiveHold: temporaryHold",
        ),
        (
            large,
            "413 uploadTooLarge: size 5497558138881 over 5497558138880",
        ),
    ];
    for (reason, wanted) in cases {
        if refusal_text(alloc, &reason)?.as_str() != wanted {
            return Ok(false);
        }
    }
    Ok(true)
}
