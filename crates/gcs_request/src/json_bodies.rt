//! What JSON bodies give.
ghost use Rattle.std.specs.Prelude.{◌≡◌, ◌≤◌, ℕ, length, IfOk, IfErr, Ok, Some, None, true};
ghost use Rattle.gcs_json.specs.Bucket.{bucket_of};
ghost use Rattle.gcs_json.specs.Compose.{compose_of};
ghost use Rattle.gcs_json.specs.Object.{object_of};
ghost use Rattle.gcs_request.specs.JsonBodies.{body_refusal, brings_json, fault_in, json_kind, json_refusal, refusal_as, said_fault, says_nothing, IsSaidAs, IsSaidBy};
ghost use Rattle.gcs_rewrite.specs.Fits.{IsGivenInLimits, IsGivenOn};
ghost use Rattle.gcs_route.specs.declared.call.Call.{Call};

use gcs_json::{BodyFault, ObjectBody, read_bucket_body, read_compose_body, read_object_body};
use gcs_meaning::{Expect, Key, MetaChange, Reason, Set};
use gcs_rewrite::Given;
use gcs_route::RequestKind;
use std::alloc::Global;

/// Why a message gives nothing.
#[derive(Clone, Copy, Debug, PartialEq, Eq)]
pub enum GivenFault {
    Refused(Reason),
    NoMemory,
}

/// What a JSON body is.
#[derive(Clone, Copy, Debug, PartialEq, Eq)]
enum JsonKind {
    Bucket,
    Object,
    Compose,
}

/// What the JSON body of such a request gives, which has no more bytes than it may: it is tested first whether it is
/// encoded, and then what it says.
pub fn read_given(
    alloc: Global,
    kind: RequestKind,
    encoded: bool,
    text: &[u8],
) -> Result<Given, GivenFault>
    ensures given { IfOk result (λ given. (most : ℕ) → length text.now ≤ most
        → (json_refusal most encoded kind text.now ≡ None) × IsSaidBy kind text.now given) }
    ensures refused { IfErr result (λ fault. (reason : Reason) → fault ≡ GivenFault.Refused reason
        → (most : ℕ) → length text.now ≤ most → json_refusal most encoded kind text.now ≡ Some reason) }
    ensures fits { IfOk result (λ given. (call : Call) → brings_json kind ≡ true → IsGivenOn kind call given) }
    ensures limits { IfOk result (λ given. IsGivenInLimits given) }
{
    if encoded {
        Err(invalid(Key::HeadContentEncoding))
    } else {
        read_json(alloc, kind, text)
    }
}

pub fn invalid(key: Key) -> GivenFault
    ensures { result ≡ GivenFault.Refused (Reason.Invalid key) }
{
    GivenFault::Refused(Reason::Invalid { key })
}

// What a body says.
fn read_json(alloc: Global, kind: RequestKind, text: &[u8]) -> Result<Given, GivenFault>
    ensures given { IfOk result (λ given. (body_refusal kind text.now ≡ None) × IsSaidBy kind text.now given) }
    ensures refused { IfErr result (λ fault. (reason : Reason) → fault ≡ GivenFault.Refused reason → body_refusal kind text.now ≡ Some reason) }
    ensures fits { IfOk result (λ given. (call : Call) → brings_json kind ≡ true → IsGivenOn kind call given) }
    ensures limits { IfOk result (λ given. IsGivenInLimits given) }
{
    match json_kind(kind) {
        JsonKind::Bucket => read_bucket(alloc, kind, text),
        JsonKind::Object => read_object(alloc, kind, text),
        JsonKind::Compose => read_compose(alloc, kind, text),
    }
}

fn json_kind(kind: RequestKind) -> JsonKind
    ensures { result ≡ json_kind kind }
{
    match kind {
        RequestKind::ObjectPatch
        | RequestKind::ObjectUpdate
        | RequestKind::ObjectRewrite
        | RequestKind::ObjectCopy => JsonKind::Object,
        RequestKind::ObjectCompose => JsonKind::Compose,
        _ => JsonKind::Bucket,
    }
}

fn read_bucket(alloc: Global, kind: RequestKind, text: &[u8]) -> Result<Given, GivenFault>
    requires { json_kind kind ≡ JsonKind.Bucket }
    ensures given { IfOk result (λ given. (body_refusal kind text.now ≡ None) × IsSaidBy kind text.now given) }
    ensures refused { IfErr result (λ fault. (reason : Reason) → fault ≡ GivenFault.Refused reason → body_refusal kind text.now ≡ Some reason) }
    ensures fits { IfOk result (λ given. (call : Call) → brings_json kind ≡ true → IsGivenOn kind call given) }
    ensures limits { IfOk result (λ given. IsGivenInLimits given) }
{
    match read_bucket_body(alloc, kind.row(), text) {
        Ok(body) => Ok(Given::Bucket(body)),
        Err(fault) => Err(fault_of(fault)),
    }
}

fn read_object(alloc: Global, kind: RequestKind, text: &[u8]) -> Result<Given, GivenFault>
    requires { json_kind kind ≡ JsonKind.Object }
    ensures given { IfOk result (λ given. (body_refusal kind text.now ≡ None) × IsSaidBy kind text.now given) }
    ensures refused { IfErr result (λ fault. (reason : Reason) → fault ≡ GivenFault.Refused reason → body_refusal kind text.now ≡ Some reason) }
    ensures fits { IfOk result (λ given. (call : Call) → brings_json kind ≡ true → IsGivenOn kind call given) }
    ensures limits { IfOk result (λ given. IsGivenInLimits given) }
{
    match read_object_body(alloc, kind.row(), text) {
        Ok(body) => Ok(Given::Object(body)),
        Err(fault) => Err(fault_of(fault)),
    }
}

fn read_compose(alloc: Global, kind: RequestKind, text: &[u8]) -> Result<Given, GivenFault>
    requires { json_kind kind ≡ JsonKind.Compose }
    ensures given { IfOk result (λ given. (body_refusal kind text.now ≡ None) × IsSaidBy kind text.now given) }
    ensures refused { IfErr result (λ fault. (reason : Reason) → fault ≡ GivenFault.Refused reason → body_refusal kind text.now ≡ Some reason) }
    ensures fits { IfOk result (λ given. (call : Call) → brings_json kind ≡ true → IsGivenOn kind call given) }
    ensures limits { IfOk result (λ given. IsGivenInLimits given) }
{
    match read_compose_body(alloc, text) {
        Ok(body) => Ok(Given::Compose(body)),
        Err(fault) => Err(fault_of(fault)),
    }
}

/// The refusal of a body for its fault.
pub fn fault_of(fault: BodyFault) -> GivenFault
    ensures { (reason : Reason) → result ≡ GivenFault.Refused reason → said_fault fault ≡ Some reason }
{
    match fault {
        BodyFault::NotJson => invalid(Key::Body),
        BodyFault::BadField { name } => invalid(name),
        BodyFault::Missing { name } => GivenFault::Refused(Reason::Required { key: name }),
        BodyFault::NoMemory => GivenFault::NoMemory,
    }
}

/// The body of an object that names no field.
pub fn says_nothing() -> ObjectBody
    ensures { result ≡ says_nothing }
{
    ObjectBody {
        name: None,
        storage_class: None,
        change: MetaChange {
            content_type: Set::Keep,
            cache_control: Set::Keep,
            content_disposition: Set::Keep,
            content_encoding: Set::Keep,
            content_language: Set::Keep,
            custom_time: Set::Keep,
            temporary_hold: Set::Keep,
            event_hold: Set::Keep,
            custom: Set::Keep,
        },
        expect: Expect {
            crc: None,
            md5: None,
        },
    }
}
