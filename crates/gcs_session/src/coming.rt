//! A message whose head has come.
ghost use Rattle.std.specs.Prelude.{◌≡◌, []};
ghost use Rattle.gcs_chunks.specs.Content.{ChunksValue};
ghost use Rattle.gcs_http_in.specs.declared.limits.Limits.{Limits};
ghost use Rattle.gcs_http_in.specs.Head.{Head};
ghost use Rattle.gcs_request.specs.Heads.{IsReadOf};
ghost use Rattle.gcs_session.specs.Coming.{IsComing};
ghost use Rattle.gcs_session.specs.Contents.{ComingLiesIn};

use crate::body::Body;
use gcs_reply::Form;
use gcs_request::{HeadFields, Heading, read_head};
use std::alloc::Global;

/// A message whose head has come: what it asks for, where memory held that; its body so far; and the form that its reply
/// will have.
#[derive(Drop)]
pub struct Coming {
    pub heading: Option<Heading>,
    pub body: Body,
    pub form: Form,
}

impl Coming {
    /// A message with this head, whose body comes. The connection stays after it or is closed, as `keeps` says; `minor`
    /// is the version's second number, `most` is how many bytes JSON may have, and `expected` how many bytes are to come.
    pub fn new(
        alloc: Global,
        fields: &HeadFields<'_>,
        minor: u8,
        keeps: bool,
        most: u64,
        expected: u64,
    ) -> Coming
        ensures coming { (limits : Limits) (head : Head) → limits.json ≡ most → IsReadOf head fields.now → head.minor ≡ minor
            → IsComing limits head [] keeps result }
        ensures lies { (chunks : ChunksValue) → ComingLiesIn chunks result }
    {
        let heading = read_head(alloc, fields).ok();
        let body = Body::new(alloc, &heading, most, expected);
        Coming {
            heading,
            body,
            form: Form::new(fields.method, minor, keeps),
        }
    }
}
