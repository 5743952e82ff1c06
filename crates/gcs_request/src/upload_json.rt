//! What the JSON of an upload says of its object.
ghost use Rattle.std.specs.Prelude.{◌≡◌, IfOk, IfErr, OnOk};
ghost use Rattle.gcs_names.specs.Name.{IsObjectName};
ghost use Rattle.gcs_request.specs.UploadJson.{IsJsonFault, IsNamed, IsNameFault, IsSaidOf};

use crate::json_bodies::{GivenFault, fault_of, invalid};
use gcs_json::{ObjectBody, read_object_body};
use gcs_meaning::{Key, Reason, Text};
use gcs_names::{BadName, object_name};
use gcs_route::Call;
use std::alloc::Global;

/// What the JSON of an upload says of its object. It is refused for what it says, and then for the name, where the
/// query gives none.
pub fn read_upload(alloc: Global, call: &Call, text: &[u8]) -> Result<ObjectBody, GivenFault>
    ensures said { IfOk result (λ read. IsSaidOf call.now text.now read) }
    ensures refused { IfErr result (λ fault. (reason : Reason) → fault ≡ GivenFault.Refused reason → IsJsonFault call.now text.now reason) }
{
    match read_object_body(alloc, call.kind().row(), text) {
        Ok(body) => with_name(alloc, call, body),
        Err(fault) => Err(fault_of(fault)),
    }
}

// What was read, if the upload has a name.
fn with_name(alloc: Global, call: &Call, body: ObjectBody) -> Result<ObjectBody, GivenFault>
    ensures said { IfOk result (λ read. (read ≡ body) × IsNamed call.now.name read.name) }
    ensures refused { IfErr result (λ fault. (reason : Reason) → fault ≡ GivenFault.Refused reason → IsNameFault call.now.name body.name reason) }
{
    match check_name(alloc, &call.name, &body.name) {
        Ok(()) => Ok(body),
        Err(fault) => {
            drop(body);
            Err(fault)
        }
    }
}

// An upload has the name of the query, which was tested with it, else that of the JSON.
fn check_name(alloc: Global, query: &Option<Text>, json: &Option<Text>) -> Result<(), GivenFault>
    ensures named { OnOk result (IsNamed query.now json.now) }
    ensures refused { IfErr result (λ fault. (reason : Reason) → fault ≡ GivenFault.Refused reason → IsNameFault query.now json.now reason) }
{
    match (query, json) {
        (Some(_), _) => Ok(()),
        (None, Some(name)) => check_object_name(alloc, name),
        (None, None) => Err(GivenFault::Refused(Reason::Required { key: Key::Name })),
    }
}

fn check_object_name(alloc: Global, name: &Text) -> Result<(), GivenFault>
    ensures named { OnOk result (IsObjectName name.now) }
    ensures refused { IfErr result (λ fault. (reason : Reason) → fault ≡ GivenFault.Refused reason → (¬ IsObjectName name.now) × (reason ≡ Reason.Invalid Key.Name)) }
{
    match object_name(alloc, name.as_bytes()) {
        Ok(name) => {
            drop(name);
            Ok(())
        }
        Err(BadName::Form) => Err(invalid(Key::Name)),
        Err(BadName::NoMemory) => Err(GivenFault::NoMemory),
    }
}
