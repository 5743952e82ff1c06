//! Limits and defaults of the store, each in one place.

/// The number of shards, which hold the buckets by their names.
pub const SHARDS: u8 = 16;

/// How many microseconds a second has.
pub const MICROSECONDS_PER_SECOND: u64 = 1_000_000;

/// The storage class of a bucket that names none.
pub const DEFAULT_CLASS: &str = "STANDARD";

/// The content type of an object that names none.
pub const DEFAULT_CONTENT_TYPE: &str = "application/octet-stream";

/// The soft-delete duration of a bucket that names none, in seconds: 7 days.
pub const DEFAULT_SOFT_SECONDS: u64 = 604_800;

/// The largest object, in bytes. Source: Cloud Storage, "Quotas and limits": 5 TiB.
pub const LARGEST_OBJECT: u64 = 5_497_558_138_880;

/// The most bytes of custom metadata. Source: Cloud Storage, "Quotas and limits": 8 KiB.
pub const LARGEST_CUSTOM: u64 = 8192;
