//! The pairs of a query, decoded.
ghost use Rattle.std.specs.Prelude.{◌≡◌, ℕ, [], ◌∷◌, ◌++◌, map, All, Err, IfOk, OnOk, IsUtf8, string_bytes};
ghost use Rattle.form_urlencoded.specs.Form.{plus_to_space, raw_pairs};
ghost use Rattle.form_urlencoded.specs.Form as form;
ghost use Rattle.gcs_query.specs.Query.{decoded_pair, pair_bytes, pairs_of, IsTextPair, IsFirstBad};

use form_urlencoded::raw_pairs;
use percent_encoding::percent_decode;
use std::alloc::{AllocError, Global};
use std::marker::Model;

/// A query. Contracts see the list of its pairs, each a key and a value in decoded bytes, in their order.
#[derive(Debug, Drop)]
pub struct Query {
    pub(crate) pairs: Vec<(String, String)>,
}

impl Model for Query {
    ghost use Rattle.std.specs.Prelude.{List, map};
    ghost use Rattle.gcs_query.specs.Query.{Pair, pair_bytes};

    ghost Value = { List Pair };

    ghost view = { λ query. map pair_bytes query.pairs.items };
}

impl Query {
    /// The same pairs in the same order. `Err`: no memory.
    pub fn copy(&self) -> Result<Query, AllocError>
        ensures { IfOk result (λ made. made ≡ self.now) }
    {
        let pairs = copy_pairs(*self.pairs.allocator(), &self.pairs)?;
        Ok(Query { pairs })
    }
}

fn copy_pairs(
    alloc: Global,
    pairs: &[(String, String)],
) -> Result<Vec<(String, String)>, AllocError>
    ensures { IfOk result (λ made. map pair_bytes made.items ≡ map pair_bytes pairs.now) }
{
    let mut made = Vec::new(alloc);
    for (key, value) in pairs {
        made.push((key.clone()?, value.clone()?))?;
    }
    Ok(made)
}

/// Why a text is no query.
#[derive(Debug, Drop)]
pub enum QueryFault {
    /// The key or the value of that pair, counted from 0 without empty pieces, is not UTF-8 once decoded. All
    /// pairs before it are.
    NotText { pair: usize },
    NoMemory,
}

impl From<AllocError> for QueryFault {
    ghost use Rattle.gcs_query.specs.declared.reading.QueryFault.{QueryFault};
    ghost use Rattle.gcs_query.specs.declared.reading.QueryFault.TheVariants.{NoMemory};

    ghost from_gives = { λ _ fault. fault ≡ NoMemory };

    fn from(_error: AllocError) -> QueryFault {
        QueryFault::NoMemory
    }
}

#[derive(Drop)]
enum TextFault {
    NotText,
    NoMemory,
}

impl From<AllocError> for TextFault {
    ghost use Rattle.gcs_query.specs.declared.reading.TextFault.{TextFault};
    ghost use Rattle.gcs_query.specs.declared.reading.TextFault.TheVariants.{NoMemory};

    ghost from_gives = { λ _ fault. fault ≡ NoMemory };

    fn from(_error: AllocError) -> TextFault {
        TextFault::NoMemory
    }
}

/// The pairs of a query's text, which are what stands between its `&` signs; empty pieces are none. A pair is
/// cut at its first `=`. In a key and a value `+` is a space, and `%` with two hexadecimal digits is a byte.
///
/// Source: URL Standard, section 5.1 (application/x-www-form-urlencoded parsing).
pub fn read_query(alloc: Global, text: &[u8]) -> Result<Query, QueryFault>
    ensures pairs { IfOk result (λ query. query ≡ pairs_of text.now) }
    ensures texts { IfOk result (λ _. All IsTextPair (raw_pairs text.now)) }
    ensures not_text { (n : ℕ) → result ≡ Err (QueryFault.NotText n) → IsFirstBad text.now n }
{
    match read_pairs(alloc, text) {
        Ok(pairs) => Ok(Query { pairs }),
        Err(fault) => Err(fault),
    }
}

fn read_pairs(alloc: Global, text: &[u8]) -> Result<Vec<(String, String)>, QueryFault>
    ensures pairs { IfOk result (λ pairs. map pair_bytes pairs.items ≡ pairs_of text.now) }
    ensures texts { IfOk result (λ _. All IsTextPair (raw_pairs text.now)) }
    ensures not_text { (n : ℕ) → result ≡ Err (QueryFault.NotText n) → IsFirstBad text.now n }
{
    let mut pairs = Vec::new(alloc);
    for (key, value) in raw_pairs(text) {
        let pair = match decoded_texts(alloc, key, value) {
            Ok(pair) => pair,
            Err(TextFault::NotText) => return Err(QueryFault::NotText { pair: pairs.len() }),
            Err(TextFault::NoMemory) => return Err(QueryFault::NoMemory),
        };
        push_pair(&mut pairs, pair)?;
    }
    Ok(pairs)
}

fn push_pair(pairs: &mut Vec<(String, String)>, pair: (String, String)) -> Result<(), AllocError>
    ensures { OnOk result (pairs.new.items ≡ pairs.old.items ++ pair ∷ []) }
{
    pairs.push(pair)?;
    Ok(())
}

// The texts that a key and its value stand for.
fn decoded_texts(alloc: Global, key: &[u8], value: &[u8]) -> Result<(String, String), TextFault>
    ensures pair { IfOk result (λ pair. pair_bytes pair ≡ decoded_pair (key.now, value.now)) }
    ensures text { IfOk result (λ _. IsTextPair (key.now, value.now)) }
    ensures not_text { result ≡ Err TextFault.NotText → ¬ IsTextPair (key.now, value.now) }
{
    let key = decoded_text(alloc, key)?;
    let value = decoded_text(alloc, value)?;
    Ok((key, value))
}

// The text that a key or a value stands for.
fn decoded_text(alloc: Global, text: &[u8]) -> Result<String, TextFault>
    ensures value { IfOk result (λ made. string_bytes made ≡ form.decode text.now) }
    ensures text { IfOk result (λ _. IsUtf8 (form.decode text.now)) }
    ensures not_text { result ≡ Err TextFault.NotText → ¬ IsUtf8 (form.decode text.now) }
{
    let bytes = decoded(alloc, text)?;
    match String::from_utf8(bytes) {
        Ok(text) => Ok(text),
        Err(_) => Err(TextFault::NotText),
    }
}

/// The bytes that a key or a value of a raw pair stands for, whether they are text or not: `+` is a space, and `%`
/// with two hexadecimal digits is a byte. `Err`: no memory.
///
/// Source: URL Standard, section 5.1.
pub fn decoded(alloc: Global, text: &[u8]) -> Result<Vec<u8>, AllocError>
    ensures { IfOk result (λ bytes. bytes.items ≡ form.decode text.now) }
{
    let spaced = with_spaces(alloc, text)?;
    let mut bytes = Vec::new(alloc);
    percent_decode(&spaced).append_to(&mut bytes)?;
    Ok(bytes)
}

// The text with a space in the place of each `+`.
fn with_spaces(alloc: Global, text: &[u8]) -> Result<Vec<u8>, AllocError>
    ensures { IfOk result (λ bytes. bytes.items ≡ map plus_to_space text.now) }
{
    text.iter()
        .map(|byte| if *byte == b'+' { b' ' } else { *byte })
        .collect(alloc)
}
