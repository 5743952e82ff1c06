//! What has come of a body, once it is whole.
use gcs_chunks::Content;
use gcs_meaning::{Hashed, Text};

/// What has come of a body, once it is whole.
#[derive(Drop)]
pub enum Come {
    /// Its bytes were passed over.
    PassedOver,
    /// A content, with both digests.
    Content(Hashed),
    /// A piece of a content, without digests.
    Piece(Content),
    /// The bytes of a text.
    Text(Vec<u8>),
    /// A text, or the first part of a body with parts, has more bytes than it may have.
    TooLong,
    /// Two parts: the bytes of a text, and a content with the type that its part gives.
    Two {
        text: Vec<u8>,
        kind: Option<Text>,
        hashed: Hashed,
    },
    /// Parts that are not two, or no parts.
    OtherParts,
}
