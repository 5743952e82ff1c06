//! Pairs of texts: the custom metadata of an object and the labels of a bucket.
ghost use Rattle.std.specs.Prelude.{◌≡◌, ◌↔◌, [], IfErr, IfOk, IsTrue, OnErr, OnOk, min};
ghost use Rattle.gcs_meaning.specs.Pairs.{AreRising, most_shown, pairs_size, set_pair, with_pair, without_key};
ghost use Rattle.gcs_meaning.specs.Places.{IsKeyAt, IsGapAt};

use crate::copying::Copied;
use crate::list::List;
use crate::text::Text;
use std::alloc::{AllocError, Global};
use std::cmp::Ordering;
use std::marker::Model;

/// Pairs of a key and a value, rising strictly by key in byte order, seen as their list.
#[derive(Drop)]
pub struct Pairs {
    entries: List<(Text, Text)>,
}

impl Model for Pairs {
    ghost use Rattle.std.specs.Prelude.{List, ℕ};
    ghost use Rattle.gcs_meaning.specs.Pairs.{AreRising};

    ghost Value = { List (List ℕ × List ℕ) };

    ghost view = { λ p. p.entries };

    ghost invariant = { λ p. AreRising p.entries };
}

impl Pairs {
    /// No pairs.
    pub fn new(alloc: Global) -> Pairs
        ensures { result ≡ [] }
    {
        Pairs {
            entries: List::new(alloc),
        }
    }

    pub fn is_empty(&self) -> bool
        ensures { IsTrue result ↔ (self.now ≡ []) }
    {
        self.entries.is_empty()
    }

    /// The pairs, whose keys rise strictly in byte order.
    pub fn as_slice(&self) -> &[(Text, Text)]
        ensures pairs { result.now ≡ self.now }
        ensures rising { AreRising result.now }
    {
        self.entries.as_slice()
    }

    /// How many bytes the keys and the values have; one that is greater than the largest `u64` shows
    /// as that.
    pub fn size(&self) -> u64
        ensures { result ≡ min (pairs_size self.now) most_shown }
    {
        size_of(self.entries.as_slice())
    }

    /// No pairs, in the memory that these are in.
    pub fn emptied(&self) -> Pairs
        ensures { result ≡ [] }
    {
        Pairs {
            entries: self.entries.emptied(),
        }
    }

    /// Gives the key this value, or with `None` takes the key away. `Err`: no memory, and the pairs stay.
    pub fn set(&mut self, key: &Text, value: &Option<Text>) -> Result<(), AllocError>
        ensures ok { OnOk result (self.new ≡ set_pair key.now value.now self.old) }
        ensures err { OnErr result (self.new ≡ self.old) }
    {
        match value {
            Some(value) => set_entry(&mut self.entries, key, value),
            None => {
                remove_entry(&mut self.entries, key);
                Ok(())
            }
        }
    }
}

impl Copied for Pairs {
    fn copy(&self) -> Result<Pairs, AllocError> {
        Ok(Pairs {
            entries: self.entries.copy()?,
        })
    }
}

fn size_of(entries: &[(Text, Text)]) -> u64
    ensures { result ≡ min (pairs_size entries.now) most_shown }
{
    let mut size = 0u64;
    for (key, value) in entries {
        size = size
            .saturating_add(key.as_bytes().len() as u64)
            .saturating_add(value.as_bytes().len() as u64);
    }
    size
}

// The new entry comes in before one of the same key goes out: a call that fails for memory changes nothing.
fn set_entry(entries: &mut List<(Text, Text)>, key: &Text, value: &Text) -> Result<(), AllocError>
    requires { AreRising entries.old }
    ensures ok { OnOk result (entries.new ≡ with_pair key.now value.now entries.old) }
    ensures err { OnErr result (entries.new ≡ entries.old) }
{
    let place = place_of(entries.as_slice(), key);
    let entry = copy_entry(key, value)?;
    match place {
        Ok(place) => {
            entries.insert(place, entry)?;
            entries.remove(place + 1);
            Ok(())
        }
        Err(place) => entries.insert(place, entry),
    }
}

fn copy_entry(key: &Text, value: &Text) -> Result<(Text, Text), AllocError>
    ensures { IfOk result (λ entry. entry ≡ (key.now, value.now)) }
{
    let key = key.copy()?;
    let value = value.copy()?;
    Ok((key, value))
}

fn remove_entry(entries: &mut List<(Text, Text)>, key: &Text)
    requires { AreRising entries.old }
    ensures { entries.new ≡ without_key key.now entries.old }
{
    if let Ok(place) = place_of(entries.as_slice(), key) {
        entries.remove(place);
    }
}

// Where the key is or, as the `Err`, where it belongs.
fn place_of(entries: &[(Text, Text)], key: &Text) -> Result<usize, usize>
    requires { AreRising entries.now }
    ensures found { IfOk result (IsKeyAt key.now entries.now) }
    ensures gap { IfErr result (IsGapAt key.now entries.now) }
{
    for (place, (other, _)) in entries.iter().enumerate() {
        match key.as_bytes().cmp(other.as_bytes()) {
            Ordering::Less => return Err(place),
            Ordering::Equal => return Ok(place),
            Ordering::Greater => {}
        }
    }
    Err(entries.len())
}
