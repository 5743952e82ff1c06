//! What a mask leaves of a JSON value.
ghost use Rattle.std.specs.Prelude.{◌≡◌, false, List, IfOk, OnOk, option_map};
ghost use Rattle.serde_json.specs.View.{view, items_view, members_view};
ghost use Rattle.serde_json.specs.Written.{has_float};
ghost use Rattle.gcs_fields.specs.Select.{meets, together, select, select_items, select_members, selected};
ghost use Rattle.gcs_fields.specs.Views.{name_of, mask_of};
ghost use Rattle.gcs_fields.specs.Rests.{rests_of, IsFollowed, members_by};

use crate::mask::{Item, Mask, Name};
use serde_json::{Map, Value};
use std::alloc::{AllocError, Global};

// What is left of an item behind some of its names.
#[derive(Clone, Copy)]
struct Rest<'a> {
    path: &'a [Name],
    inner: &'a [Item],
}

// What a mask says of a member: nothing, that it stays whole, or by which rests it is taken.
#[derive(Drop)]
enum Followed<'a> {
    Missed,
    Whole,
    By(Vec<Rest<'a>>),
}

/// What the mask leaves of the value, and null where that is nothing. `Err`: no memory.
///
/// Of an object a member stays whose key is the first name of an item, or whose item begins with
/// `*`: whole where such an item ends there, else as far as the rests of all these items together
/// leave it. Of a list each element is taken so. A text, a number, a truth value and null have no
/// members, so nothing of them stays under a rest.
pub fn apply(alloc: Global, mask: &Mask, value: Value) -> Result<Value, AllocError>
    ensures value { IfOk result (λ v. view v ≡ selected (mask_of mask.now) (view value)) }
    ensures whole { has_float (view value) ≡ false → IfOk result (λ v. has_float (view v) ≡ false) }
{
    let mut rests = Vec::new(alloc);
    push_items(&mut rests, mask.items())?;
    let kept = select(alloc, &rests, &value)?;
    Ok(kept.unwrap_or(Value::Null))
}

// Whether a name of a path is that of a member with this key.
fn meets(name: &Name, key: &[u8]) -> bool
    ensures { result ≡ meets key.now (name_of name.now) }
{
    match name {
        Name::Any => true,
        Name::Key(bytes) => bytes.as_slice() == key,
    }
}

// Adds the rests that whole items are.
fn push_items<'a>(rests: &mut Vec<Rest<'a>>, items: &'a [Item]) -> Result<(), AllocError>
    ensures { OnOk result (rests_of rests.new.items
        ≡ together (rests_of rests.old.items) (mask_of items.entry.now)) }
{
    for item in items {
        rests.push(Rest {
            path: &item.path,
            inner: &item.inner,
        })?;
    }
    Ok(())
}

// What the mask says of the member with this key.
fn follow<'a>(alloc: Global, mask: &[Rest<'a>], key: &[u8]) -> Result<Followed<'a>, AllocError>
    ensures { IfOk result (λ f. IsFollowed key.now (rests_of mask.now) f) }
{
    let mut rests = Vec::new(alloc);
    let mut found = false;
    for rest in mask {
        let Some((name, path)) = rest.path.split_first() else {
            continue;
        };
        if !meets(name, key) {
            continue;
        }
        found = true;
        if !path.is_empty() {
            rests.push(Rest {
                path,
                inner: rest.inner,
            })?;
            continue;
        }
        if rest.inner.is_empty() {
            return Ok(Followed::Whole);
        }
        push_items(&mut rests, rest.inner)?;
    }
    if found {
        Ok(Followed::By(rests))
    } else {
        Ok(Followed::Missed)
    }
}

// What the mask leaves of a value; `None` where that is nothing.
#[cycle(select)]
fn select(alloc: Global, mask: &[Rest<'_>], value: &Value) -> Result<Option<Value>, AllocError>
    ensures { IfOk result (λ v. option_map view v ≡ select (rests_of mask.now) (view value.now)) }
{
    match value {
        Value::Array(items) => Ok(Some(Value::Array(select_items(alloc, mask, items)?))),
        Value::Object(members) => Ok(Some(Value::Object(select_members(alloc, mask, members)?))),
        _ => Ok(None),
    }
}

// What the mask leaves of the elements of a list.
#[cycle(select)]
fn select_items(
    alloc: Global,
    mask: &[Rest<'_>],
    items: &Vec<Value>,
) -> Result<Vec<Value>, AllocError>
    ensures { IfOk result (λ v. items_view v.items
        ≡ select_items (rests_of mask.now) (items_view items.now.items)) }
{
    let mut kept = Vec::new(alloc);
    for item in items {
        if let Some(value) = select(alloc, mask, item)? {
            kept.push(value)?;
        }
    }
    Ok(kept)
}

// What the mask leaves of the member with this key.
#[cycle(select)]
fn select_member(
    alloc: Global,
    mask: &[Rest<'_>],
    key: &[u8],
    member: &Value,
) -> Result<Option<Value>, AllocError>
    ensures { IfOk result (λ v. option_map view v
        ≡ members_by key.now (rests_of mask.now) (view member.now)) }
{
    match follow(alloc, mask, key)? {
        Followed::Missed => Ok(None),
        Followed::Whole => Ok(Some(member.clone()?)),
        Followed::By(rests) => select(alloc, &rests, member),
    }
}

// What the mask leaves of the members of an object.
#[cycle(select)]
fn select_members(
    alloc: Global,
    mask: &[Rest<'_>],
    members: &Map<String, Value>,
) -> Result<Map<String, Value>, AllocError>
    ensures { IfOk result (λ m. members_view m.entries
        ≡ select_members (rests_of mask.now) (members_view members.now.entries)) }
{
    let mut kept = Map::new(alloc);
    for (key, member) in members.iter() {
        if let Some(value) = select_member(alloc, mask, key.as_bytes(), member)? {
            drop(kept.insert(key.clone()?, value)?);
        }
    }
    Ok(kept)
}
