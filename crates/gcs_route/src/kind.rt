//! The requests of the interface, by their names.
ghost use Rattle.std.specs.Prelude.{◌≡◌};
ghost use Rattle.gcs_route.specs.Kinds.{row_of, kind_of, is_upload};

use RequestKind::*;

/// A request of the interface, one a row of the table: a method of Google's API, or a part of one.
///
/// Source: Cloud Storage JSON API, the methods of "Buckets" and "Objects".
#[derive(Clone, Copy, Debug, PartialEq, Eq)]
pub enum RequestKind {
    BucketInsert,
    BucketList,
    BucketGet,
    BucketPatch,
    BucketUpdate,
    BucketDelete,
    /// `lockRetentionPolicy`
    BucketLock,
    BucketRestore,
    ObjectList,
    /// The object's resource or, with `alt=media`, its content.
    ObjectGet,
    ObjectPatch,
    ObjectUpdate,
    ObjectDelete,
    ObjectCompose,
    ObjectRewrite,
    ObjectCopy,
    ObjectRestore,
    /// `insert` of an object: its whole content, or the begin of an upload in pieces.
    Upload,
    UploadPiece,
    UploadCancel,
    /// The object's content, by the path of downloads.
    Download,
}

impl RequestKind {
    /// The number of the request's row in the table.
    pub fn row(self) -> u32
        ensures { result ≡ row_of self }
    {
        match self {
            BucketInsert => 1,
            BucketList => 2,
            BucketGet => 3,
            BucketPatch => 4,
            BucketUpdate => 5,
            BucketDelete => 6,
            BucketLock => 7,
            BucketRestore => 8,
            ObjectList => 9,
            ObjectGet => 10,
            ObjectPatch => 11,
            ObjectUpdate => 12,
            ObjectDelete => 13,
            ObjectCompose => 14,
            ObjectRewrite => 15,
            ObjectCopy => 16,
            ObjectRestore => 17,
            Upload => 18,
            UploadPiece => 19,
            UploadCancel => 20,
            Download => 21,
        }
    }

    /// Whether the request uploads a whole object, or begins an upload.
    pub fn is_upload(self) -> bool
        ensures { result ≡ is_upload self }
    {
        matches!(self, Upload)
    }
}

/// The request of that row. Of a number that no row has it is `Download`.
#[tactic(auto, unfolding(crate::specs::Kinds::kind_of))]
pub(crate) fn kind_of(row: u32) -> RequestKind
    ensures { result ≡ kind_of row }
{
    match row {
        1 => BucketInsert,
        2 => BucketList,
        3 => BucketGet,
        4 => BucketPatch,
        5 => BucketUpdate,
        6 => BucketDelete,
        7 => BucketLock,
        8 => BucketRestore,
        9 => ObjectList,
        10 => ObjectGet,
        11 => ObjectPatch,
        12 => ObjectUpdate,
        13 => ObjectDelete,
        14 => ObjectCompose,
        15 => ObjectRewrite,
        16 => ObjectCopy,
        17 => ObjectRestore,
        18 => Upload,
        19 => UploadPiece,
        20 => UploadCancel,
        _ => Download,
    }
}
