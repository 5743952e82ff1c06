//! A request: its call, and what its message gives beside it.
ghost use Rattle.std.specs.Prelude.{◌≡◌};
ghost use Rattle.gcs_rewrite.specs.Answered.{range_given};

use crate::range::Range;
use gcs_chunks::Content;
use gcs_json::{BucketBody, ComposeBody, ObjectBody};
use gcs_meaning::{Hashed, Text};
use gcs_route::Call;

/// A call of the table of paths, with what its message gives.
#[derive(Drop)]
pub struct Request {
    pub call: Call,
    pub given: Given,
}

/// What a message gives beside its call.
#[derive(Drop)]
pub enum Given {
    Nothing,
    /// A read of bytes can have a range.
    Read {
        range: Option<Range>,
    },
    /// The content of an upload, with what the JSON beside it says of the object, and the content type that the head or
    /// the content's part gives.
    Whole {
        body: ObjectBody,
        kind: Option<Text>,
        hashed: Hashed,
    },
    /// A resumable upload begins: what its JSON says of the object, the content type and the length of the whole content
    /// that its head tells, and the host that the message is sent to.
    Begin {
        body: ObjectBody,
        kind: Option<Text>,
        total: Option<u64>,
        host: Option<Text>,
    },
    /// A piece of a resumable upload: the place of its first byte, which a question for what is kept doesn't tell, the
    /// length of the whole content, where it is told, and its bytes.
    Piece {
        offset: Option<u64>,
        total: Option<u64>,
        content: Content,
    },
    /// What the JSON body of a bucket says.
    Bucket(BucketBody),
    /// What the JSON body of an object says.
    Object(ObjectBody),
    /// What the JSON body of a compose says.
    Compose(ComposeBody),
}

impl Given {
    /// The range that is given, if one is.
    pub fn range(&self) -> Option<Range>
        ensures { result ≡ range_given self.now }
    {
        match self {
            Given::Read { range } => *range,
            _ => None,
        }
    }
}
