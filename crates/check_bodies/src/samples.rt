//! Versions, buckets, pages and settings to be shown.
use gcs_chunks::{Chunks, Content};
use gcs_meaning::{
    BucketName, BucketRow, Hashed, Kind, List, Meta, Name, Page, Pairs, Retention, Row, Settings,
    Text, Unit,
};
use std::alloc::{AllocError, Global};

/// 2023-11-14T22:13:20Z
pub const MOMENT: u64 = 1_700_000_000_000_000;

/// The bucket of all samples.
pub fn tub(alloc: Global) -> Result<BucketName, AllocError> {
    Ok(BucketName::new(Text::from_str(alloc, "tub")?))
}

/// A version of this kind with all that an owner may say of it, under an event-based hold or not.
pub fn full_version(alloc: Global, held: bool, kind: Kind) -> Result<Row, AllocError> {
    let chunks = Chunks::new(alloc)?;
    Ok(Row {
        name: Name::new(Text::from_str(alloc, "a")?),
        generation: MOMENT,
        metageneration: 2,
        hashed: Hashed::of(Content::empty(alloc), &chunks),
        components: Some(3),
        meta: full_meta(alloc, held)?,
        created: MOMENT,
        updated: MOMENT,
        retention_start: MOMENT,
        kind,
    })
}

/// A live version of this name with what every object has.
pub fn plain_version(alloc: Global, name: &str) -> Result<Row, AllocError> {
    let chunks = Chunks::new(alloc)?;
    Ok(Row {
        name: Name::new(Text::from_str(alloc, name)?),
        generation: MOMENT,
        metageneration: 1,
        hashed: Hashed::of(Content::empty(alloc), &chunks),
        components: None,
        meta: plain_meta(alloc)?,
        created: MOMENT,
        updated: MOMENT,
        retention_start: MOMENT,
        kind: Kind::Live,
    })
}

/// The bucket with these settings.
pub fn bucket_with(alloc: Global, settings: Settings) -> Result<BucketRow, AllocError> {
    Ok(BucketRow {
        name: tub(alloc)?,
        generation: MOMENT,
        metageneration: 2,
        created: MOMENT,
        updated: MOMENT,
        settings,
    })
}

/// All settings, with this lifecycle.
pub fn full_settings(alloc: Global, lifecycle: &str) -> Result<Settings, AllocError> {
    Ok(Settings {
        location: Text::from_str(alloc, "US")?,
        storage_class: Text::from_str(alloc, "STANDARD")?,
        labels: pair(alloc, "team", "a")?,
        lifecycle: Some(Text::from_str(alloc, lifecycle)?),
        versioned: true,
        default_event_hold: true,
        retention: Some(Retention {
            period: 10,
            since: MOMENT,
            locked: true,
        }),
        soft_seconds: 604_800,
        soft_since: MOMENT,
    })
}

/// The settings that every bucket has.
pub fn plain_settings(alloc: Global) -> Result<Settings, AllocError> {
    Ok(Settings {
        location: Text::from_str(alloc, "US")?,
        storage_class: Text::from_str(alloc, "STANDARD")?,
        labels: Pairs::new(alloc),
        lifecycle: None,
        versioned: false,
        default_event_hold: false,
        retention: None,
        soft_seconds: 604_800,
        soft_since: MOMENT,
    })
}

/// A page of two objects and a prefix, with a token.
pub fn some_page(alloc: Global) -> Result<Page, AllocError> {
    Ok(Page {
        items: List::from_vec(two_versions(alloc)?),
        prefixes: List::from_vec(one_prefix(alloc)?),
        next: Some(last_unit(alloc)?),
        settings: plain_settings(alloc)?,
    })
}

/// A page of nothing.
pub fn no_page(alloc: Global) -> Result<Page, AllocError> {
    Ok(Page {
        items: List::new(alloc),
        prefixes: List::new(alloc),
        next: None,
        settings: plain_settings(alloc)?,
    })
}

/// Twice the plain bucket.
pub fn two_buckets(alloc: Global) -> Result<List<BucketRow>, AllocError> {
    let mut rows = Vec::new(alloc);
    for _ in 0..2u8 {
        rows.push(bucket_with(alloc, plain_settings(alloc)?)?)?;
    }
    Ok(List::from_vec(rows))
}

fn two_versions(alloc: Global) -> Result<Vec<Row>, AllocError> {
    let mut rows = Vec::new(alloc);
    for name in ["a", "b"] {
        rows.push(plain_version(alloc, name)?)?;
    }
    Ok(rows)
}

fn one_prefix(alloc: Global) -> Result<Vec<Text>, AllocError> {
    let mut prefixes = Vec::new(alloc);
    prefixes.push(Text::from_str(alloc, "c/")?)?;
    Ok(prefixes)
}

fn last_unit(alloc: Global) -> Result<Unit, AllocError> {
    let text = Text::from_str(alloc, "c/")?;
    Ok(Unit { text, number: 0 })
}

fn pair(alloc: Global, key: &str, value: &str) -> Result<Pairs, AllocError> {
    let mut pairs = Pairs::new(alloc);
    let value = Some(Text::from_str(alloc, value)?);
    pairs.set(&Text::from_str(alloc, key)?, &value)?;
    Ok(pairs)
}

fn full_meta(alloc: Global, held: bool) -> Result<Meta, AllocError> {
    Ok(Meta {
        content_type: Text::from_str(alloc, "text/plain")?,
        cache_control: Some(Text::from_str(alloc, "no-store")?),
        content_disposition: Some(Text::from_str(alloc, "inline")?),
        content_encoding: Some(Text::from_str(alloc, "gzip")?),
        content_language: Some(Text::from_str(alloc, "en")?),
        storage_class: Some(Text::from_str(alloc, "NEARLINE")?),
        custom_time: Some(MOMENT),
        temporary_hold: true,
        event_hold: Some(held),
        custom: pair(alloc, "k", "v")?,
    })
}

fn plain_meta(alloc: Global) -> Result<Meta, AllocError> {
    Ok(Meta {
        content_type: Text::from_str(alloc, "text/plain")?,
        cache_control: None,
        content_disposition: None,
        content_encoding: None,
        content_language: None,
        storage_class: None,
        custom_time: None,
        temporary_hold: false,
        event_hold: None,
        custom: Pairs::new(alloc),
    })
}
