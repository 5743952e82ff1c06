//! The values of a query's keys, each refused by its key where it is wrong.
ghost use Rattle.std.specs.Prelude.{◌≡◌, ◌≢◌, [], IfOk, IfErr, IsTrue, ◌↔◌};
ghost use Rattle.gcs_query.specs.Values.{IsTrueText, value_of};
ghost use Rattle.gcs_route.specs.Filling.{number_of, given, flag_of};
ghost use Rattle.gcs_route.specs.Params.{text_at, IsNoNumber, IsNoCount, IsNoFlag, IsNeededFault, IsWrongAt};

use crate::fault::RouteFault;
use gcs_meaning::{Key, Reason, Text, key_text};
use gcs_query::Query;
use std::alloc::{AllocError, Global};

pub(crate) fn invalid(key: Key) -> RouteFault
    ensures { result ≡ RouteFault.Refused (Reason.Invalid key) }
{
    RouteFault::Refused(Reason::Invalid { key })
}

pub(crate) fn required(key: Key) -> RouteFault
    ensures { result ≡ RouteFault.Refused (Reason.Required key) }
{
    RouteFault::Refused(Reason::Required { key })
}

/// The number of a key.
pub(crate) fn number(query: &Query, key: Key) -> Result<Option<u64>, RouteFault>
    ensures value { IfOk result (λ n. n ≡ number_of (text_at query.now key)) }
    ensures right { IfOk result (λ _. ¬ IsNoNumber (text_at query.now key)) }
    ensures wrong { IfErr result (IsWrongAt IsNoNumber query.now key) }
{
    query.number(key_text(key)).map_err(|_| invalid(key))
}

/// The number of a key, which is above 0.
pub(crate) fn count(query: &Query, key: Key) -> Result<Option<u64>, RouteFault>
    ensures value { IfOk result (λ n. n ≡ number_of (text_at query.now key)) }
    ensures right { IfOk result (λ _. ¬ IsNoCount (text_at query.now key)) }
    ensures wrong { IfErr result (IsWrongAt IsNoCount query.now key) }
{
    match number(query, key)? {
        Some(0) => Err(invalid(key)),
        number => Ok(number),
    }
}

/// The number of a key, which is required.
pub(crate) fn needed(query: &Query, key: Key) -> Result<Option<u64>, RouteFault>
    ensures value { IfOk result (λ n. n ≡ number_of (text_at query.now key)) }
    ensures right { IfOk result (λ _. (text_at query.now key ≢ []) × ¬ IsNoNumber (text_at query.now key)) }
    ensures wrong { IfErr result (IsNeededFault IsNoNumber query.now key) }
{
    match number(query, key)? {
        Some(number) => Ok(Some(number)),
        None => Err(required(key)),
    }
}

/// The flag of a key.
pub(crate) fn flag(query: &Query, key: Key) -> Result<bool, RouteFault>
    ensures value { IfOk result (λ flag. flag ≡ flag_of (text_at query.now key)) }
    ensures right { IfOk result (λ _. ¬ IsNoFlag (text_at query.now key)) }
    ensures wrong { IfErr result (IsWrongAt IsNoFlag query.now key) }
{
    query.flag(key_text(key)).map_err(|_| invalid(key))
}

/// Whether the flag of a key is true.
pub(crate) fn is_set(query: &Query, key: Key) -> bool
    ensures { IsTrue result ↔ IsTrueText (text_at query.now key) }
{
    matches!(query.flag(key_text(key)), Ok(true))
}

/// The text of a key, where it is given. `Err`: no memory.
pub(crate) fn text(alloc: Global, query: &Query, key: &str) -> Result<Option<Text>, AllocError>
    ensures { IfOk result (λ text. text ≡ given (value_of key.now query.now)) }
{
    match query.text(key) {
        Some(text) => Ok(Some(Text::from_str(alloc, text)?)),
        None => Ok(None),
    }
}

/// The text of a key, empty where it is not given. `Err`: no memory.
pub(crate) fn text_or_empty(alloc: Global, query: &Query, key: &str) -> Result<Text, AllocError>
    ensures { IfOk result (λ text. text ≡ value_of key.now query.now) }
{
    match query.text(key) {
        Some(text) => Text::from_str(alloc, text),
        None => Ok(Text::new(alloc)),
    }
}
