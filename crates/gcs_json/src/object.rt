//! The body of an object.
ghost use Rattle.std.specs.Prelude.{◌≡◌, ◌≢◌, IfOk, IfErr, Ok, Err, Some, None, if◌then◌else◌};
ghost use Rattle.serde_json.specs.View.{view};
ghost use Rattle.gcs_json.specs.declared.fault.BodyFault.TheVariants.{NoMemory};
ghost use Rattle.gcs_meaning.specs.ObjectChange.{largest_custom};
ghost use Rattle.gcs_json.specs.Object.{object_in, object_of, way_of};

use crate::fault::BodyFault;
use crate::fields::{Fields, field, given_if, read_body};
use crate::kind::Flag;
use crate::pairs::Pairs;
use crate::texts::{AnyText, CrcText, Md5Text, TimeText};
use crate::words::{CLASS, LINE};
use gcs_meaning::{Copied, Expect, Key, LARGEST_CUSTOM, MetaChange, Text};
use std::alloc::{AllocError, Global};

// The row of an object's PATCH.
const PATCH: u32 = 11;

/// The row of a compose.
pub const COMPOSE: u32 = 14;

// The row of an upload.
const UPLOAD: u32 = 18;

/// What the body of an object says.
#[derive(Drop)]
pub struct ObjectBody {
    pub name: Option<Text>,
    pub storage_class: Option<Text>,
    pub change: MetaChange,
    pub expect: Expect,
}

impl Copied for ObjectBody {
    fn copy(&self) -> Result<ObjectBody, AllocError> {
        Ok(ObjectBody {
            name: self.name.copy()?,
            storage_class: self.storage_class.copy()?,
            change: self.change.copy()?,
            expect: self.expect,
        })
    }
}

/// What a request reads of an object's body: `uploads` its name and digests, `makes` its storage class. `most` is how many
/// bytes its custom metadata may have.
#[derive(Clone, Copy)]
pub struct Way {
    pub uploads: bool,
    pub makes: bool,
    pub most: Option<usize>,
}

/// Reads the body of an object on a row of the table of paths: 11 patches an object, 12 replaces its metadata; 14, 15, 16
/// and 18 (compose, rewrite, copy and upload) make a version. `custom_time` is in microseconds since 1970.
///
/// Source: Cloud Storage JSON API, "Objects".
#[tactic(auto, unfolding(crate::specs::Object::object_of))]
pub fn read_object_body(alloc: Global, row: u32, body: &[u8]) -> Result<ObjectBody, BodyFault>
    ensures body { IfOk result (λ read. object_of row body.now ≡ Ok read) }
    ensures fault { IfErr result (λ fault. fault ≢ NoMemory → object_of row body.now ≡ Err fault) }
{
    let body = read_body(alloc, body)?;
    object(
        way_of(row),
        &Fields {
            alloc,
            removes: row == PATCH,
            body: &body,
        },
    )
}

/// The fields in byte order of their names.
#[tactic(auto, unfolding(crate::specs::Object::object_in))]
pub fn object(way: Way, fields: &Fields<'_>) -> Result<ObjectBody, BodyFault>
    ensures body { IfOk result (λ read. object_in way fields.now.removes (view fields.now.body.now) ≡ Ok read) }
    ensures fault { IfErr result (λ fault. fault ≢ NoMemory → object_in way fields.now.removes (view fields.now.body.now) ≡ Err fault) }
{
    let Way {
        uploads,
        makes,
        most,
    } = way;
    let metadata = Pairs {
        removes: fields.removes,
        most,
    };
    let cache_control = field(fields, Key::CacheControl, &LINE)?;
    let content_disposition = field(fields, Key::ContentDisposition, &LINE)?;
    let content_encoding = field(fields, Key::ContentEncoding, &LINE)?;
    let content_language = field(fields, Key::ContentLanguage, &LINE)?;
    let content_type = field(fields, Key::ContentType, &LINE)?;
    let crc = given_if(uploads, fields, Key::Crc32c, &CrcText)?;
    let custom_time = field(fields, Key::CustomTime, &TimeText)?;
    let event_hold = field(fields, Key::EventBasedHold, &Flag)?;
    let md5 = given_if(uploads, fields, Key::Md5Hash, &Md5Text)?;
    let custom = field(fields, Key::Metadata, &metadata)?;
    let name = given_if(uploads, fields, Key::Name, &AnyText)?;
    let storage_class = given_if(makes, fields, Key::StorageClass, &CLASS)?;
    let temporary_hold = field(fields, Key::TemporaryHold, &Flag)?;
    Ok(ObjectBody {
        name,
        storage_class,
        change: MetaChange {
            content_type,
            cache_control,
            content_disposition,
            content_encoding,
            content_language,
            custom_time,
            temporary_hold,
            event_hold,
            custom,
        },
        expect: Expect { crc, md5 },
    })
}

/// What a request on the row reads. Custom metadata of a change are tested with what the change leaves, and not here.
#[tactic(auto, unfolding(crate::specs::Object::way_of))]
pub fn way_of(row: u32) -> Way
    ensures { result ≡ way_of row }
{
    let makes = matches!(row, COMPOSE | 15 | 16 | UPLOAD);
    Way {
        uploads: row == UPLOAD,
        makes,
        most: longest(makes),
    }
}

fn longest(makes: bool) -> Option<usize>
    ensures { result ≡ if makes then Some largest_custom else None }
{
    if makes {
        Some(LARGEST_CUSTOM as usize)
    } else {
        None
    }
}
