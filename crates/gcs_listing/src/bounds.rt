//! Where the next unit of a listing is sought.
ghost use Rattle.std.specs.Prelude.{◌≡◌, ◌≤◌, ◌++◌, [], ◌∷◌, ℕ, List, false, length, IfOk, Some, None};
ghost use Rattle.gcs_meaning.specs.declared.listing.View.TheVariants.{Live, Versions};
ghost use Rattle.gcs_meaning.specs.Order.{is_below, unit_at};
ghost use Rattle.gcs_listing.specs.Seeking.{past, IsAfterBound, IsBound, IsLow};

use crate::folding::is_below;
use gcs_meaning::{PageQuery, Unit, View};
use std::alloc::{AllocError, Global};
use std::marker::Model;

/// A place to seek from, seen as a unit. Its bytes need not be text.
#[derive(Drop)]
pub struct Bound {
    text: Vec<u8>,
    number: u64,
}

impl Model for Bound {
    ghost use Rattle.gcs_meaning.specs.declared.listing.Unit as unit;
    ghost use Rattle.gcs_meaning.specs.Order.{unit_at};

    ghost Value = { unit.Unit };

    ghost view = { λ b. unit_at b.text.items b.number };
}

impl Bound {
    /// The place of this text and number. `Err`: no memory.
    pub fn new(alloc: Global, text: &[u8], number: u64) -> Result<Bound, AllocError>
        ensures { IfOk result (λ b. b ≡ unit_at text.now number) }
    {
        Ok(Bound {
            text: Vec::from_slice(alloc, text)?,
            number,
        })
    }

    pub fn text(&self) -> &[u8]
        ensures { result.now ≡ self.now.text }
    {
        self.text.as_slice()
    }

    pub fn number(&self) -> u64
        ensures { result ≡ self.now.number }
    {
        self.number
    }
}

// Before all that has the least text above this one.
fn next_text(alloc: Global, text: &[u8]) -> Result<Bound, AllocError>
    ensures { IfOk result (λ b. b ≡ unit_at (text.now ++ 0 ∷ []) 0) }
{
    let mut bytes = Vec::from_slice(alloc, text)?;
    bytes.push(0)?;
    Ok(Bound {
        text: bytes,
        number: 0,
    })
}

/// Before all that has the least text above all that begin with this one. `Err`: no memory.
pub(crate) fn past_text(alloc: Global, text: &str) -> Result<Bound, AllocError>
    requires some { 1 ≤ length text.now }
    ensures { IfOk result (λ b. b ≡ unit_at (past text.now) 0) }
{
    let mut bytes = Vec::from_slice(alloc, text.as_bytes())?;
    let at = bytes.len() - 1;
    bytes[at] += 1;
    Ok(Bound {
        text: bytes,
        number: 0,
    })
}

// The least name that the prefix and the start allow.
fn lowest(query: &PageQuery) -> &[u8]
    ensures { IsLow query.now result.now }
{
    let prefix = query.prefix.as_bytes();
    match &query.start {
        Some(start) => higher(prefix, start.as_bytes()),
        None => prefix,
    }
}

fn higher<'a>(text: &'a [u8], other: &'a [u8]) -> &'a [u8]
    ensures low { is_below result.now text.now ≡ false }
    ensures other { is_below result.now other.now ≡ false }
    ensures least { (x : List ℕ) → is_below x text.now ≡ false → is_below x other.now ≡ false → is_below x result.now ≡ false }
{
    if is_below(text, other) { other } else { text }
}

// Where the versions begin whose items come after a unit.
fn after_unit(alloc: Global, view: View, last: &Unit) -> Result<Bound, AllocError>
    ensures { IfOk result (λ b. IsAfterBound view last.now b) }
{
    match view {
        View::Live => after_live(alloc, last),
        View::Versions => after_version(alloc, last.text.as_bytes(), last.number),
        View::Soft => after_version(alloc, last.text.as_bytes(), last.number),
    }
}

fn after_live(alloc: Global, last: &Unit) -> Result<Bound, AllocError>
    ensures { IfOk result (λ b. IsAfterBound Live last.now b) }
{
    if last.number == 0 {
        Bound::new(alloc, last.text.as_bytes(), 0)
    } else {
        next_text(alloc, last.text.as_bytes())
    }
}

/// Where the versions begin that come after this name and generation. `Err`: no memory.
pub(crate) fn after_version(
    alloc: Global,
    name: &[u8],
    generation: u64,
) -> Result<Bound, AllocError>
    ensures { IfOk result (λ b. IsAfterBound Versions (unit_at name.now generation) b) }
{
    if generation < u64::MAX {
        Bound::new(alloc, name, generation + 1)
    } else {
        next_text(alloc, name)
    }
}

/// Where to seek the units after this one. `Err`: no memory.
pub(crate) fn bound_after(
    alloc: Global,
    query: &PageQuery,
    last: &Unit,
) -> Result<Bound, AllocError>
    ensures { IfOk result (λ b. IsBound query.now (Some last.now) b) }
{
    let low = lowest(query);
    if is_below(last.text.as_bytes(), low) {
        Bound::new(alloc, low, 0)
    } else {
        after_unit(alloc, query.view, last)
    }
}

/// Where to seek the units after the token's or, without a token, the first unit of a listing. `Err`: no memory.
pub(crate) fn first_bound(alloc: Global, query: &PageQuery) -> Result<Bound, AllocError>
    ensures { IfOk result (λ b. IsBound query.now query.now.after b) }
{
    match &query.after {
        Some(unit) => bound_after(alloc, query, unit),
        None => Bound::new(alloc, lowest(query), 0),
    }
}
