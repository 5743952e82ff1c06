//! The name and the metadata of the version that an upload makes.
ghost use Rattle.std.specs.Prelude.{◌≡◌, [], true, IfOk, IsSome, OnOk, unwrap_or};
ghost use Rattle.std.specs.Option.{option_copied, option_or};
ghost use Rattle.gcs_meaning.specs.Changes.{changed_pairs};
ghost use Rattle.gcs_meaning.specs.ObjectChange.{default_content_type};
ghost use Rattle.gcs_meaning.specs.Pairs.{set_pairs};
ghost use Rattle.gcs_rewrite.specs.Commands.{made_name, upload_name};
ghost use Rattle.gcs_rewrite.specs.Made.{made_meta, set_to};

use gcs_json::ObjectBody;
use gcs_meaning::{Copied, DEFAULT_CONTENT_TYPE, List, Meta, Name, Pairs, Set, Text};
use gcs_route::Call;
use std::alloc::{AllocError, Global};

/// The name of the object that an upload makes: that of the query, else that of the body. `Err`: no memory.
pub fn made_name(call: &Call, body: &ObjectBody) -> Result<Name, AllocError>
    requires { IsSome (upload_name call.now body.now) }
    ensures { IfOk result (λ name. name ≡ made_name call.now body.now) }
{
    match upload_name(call, body) {
        Some(name) => Ok(Name::new(name.copy()?)),
        None => unreachable!(),
    }
}

fn upload_name<'a>(call: &'a Call, body: &'a ObjectBody) -> Option<&'a Text>
    ensures { option_copied result ≡ upload_name call.now body.now }
{
    match (&call.name, &body.name) {
        (Some(name), _) | (None, Some(name)) => Some(name),
        (None, None) => None,
    }
}

/// The metadata that the body of an upload gives, with the content type and the content encoding that came beside it.
/// `Err`: no memory.
///
/// Source: Cloud Storage JSON API, "Objects: insert".
#[tactic(auto, unfolding(crate::specs::Made::made_meta))]
pub fn made_meta(
    alloc: Global,
    body: &ObjectBody,
    kind: &Option<Text>,
    encoding: &Option<Text>,
) -> Result<Meta, AllocError>
    ensures { IfOk result (λ meta. meta ≡ made_meta body.now kind.now encoding.now) }
{
    let change = &body.change;
    Ok(Meta {
        content_type: type_of(alloc, &change.content_type, kind)?,
        cache_control: set_to(&change.cache_control)?,
        content_disposition: set_to(&change.content_disposition)?,
        content_encoding: encoding_of(encoding, &change.content_encoding)?,
        content_language: set_to(&change.content_language)?,
        storage_class: body.storage_class.copy()?,
        custom_time: set_to(&change.custom_time)?,
        temporary_hold: matches!(change.temporary_hold, Set::To(true)),
        event_hold: set_to(&change.event_hold)?,
        custom: pairs_of(alloc, &change.custom)?,
    })
}

// The value that a field is set to.
fn set_to<T: Copied>(set: &Set<T>) -> Result<Option<T>, AllocError>
    ensures { IfOk result (λ value. value ≡ set_to set.now) }
{
    match set {
        Set::Keep | Set::Clear => Ok(None),
        Set::To(value) => Ok(Some(value.copy()?)),
    }
}

// The content type: that of the body, else the one beside it, else the default.
fn type_of(alloc: Global, given: &Set<Text>, beside: &Option<Text>) -> Result<Text, AllocError>
    ensures { IfOk result (λ kind. kind ≡ unwrap_or (option_or (set_to given.now) beside.now) default_content_type) }
{
    match (given, beside) {
        (Set::To(kind), _) => kind.copy(),
        (_, Some(kind)) => kind.copy(),
        (_, None) => Text::from_str(alloc, DEFAULT_CONTENT_TYPE),
    }
}

// The content encoding: the one beside the body, else that of the body.
fn encoding_of(beside: &Option<Text>, given: &Set<Text>) -> Result<Option<Text>, AllocError>
    ensures { IfOk result (λ encoding. encoding ≡ option_or beside.now (set_to given.now)) }
{
    match beside {
        Some(encoding) => Ok(Some(encoding.copy()?)),
        None => set_to(given),
    }
}

// Custom metadata, of pairs with one key the last.
fn pairs_of(alloc: Global, given: &Set<List<(Text, Option<Text>)>>) -> Result<Pairs, AllocError>
    ensures { IfOk result (λ pairs. pairs ≡ changed_pairs true [] given.now) }
{
    let mut pairs = Pairs::new(alloc);
    if let Set::To(given) = given {
        set_each(&mut pairs, given.as_slice())?;
    }
    Ok(pairs)
}

// Sets each of these pairs. `Err`: no memory, and some may be set.
fn set_each(pairs: &mut Pairs, given: &[(Text, Option<Text>)]) -> Result<(), AllocError>
    ensures { OnOk result (pairs.new ≡ set_pairs pairs.old given.now) }
{
    for (key, value) in given {
        pairs.set(key, value)?;
    }
    Ok(())
}
