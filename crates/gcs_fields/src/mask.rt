//! A mask as a tree: items, each a path of names and the items in its brackets.
ghost use Rattle.std.specs.Prelude.{◌≡◌, IfOk, map};
ghost use Rattle.gcs_fields.specs.Views.{name_of, path_of, before, mask_of};

use std::alloc::{AllocError, Global};
use std::marker::Model;

/// A name of a path: `*`, which is any key, or a key's bytes.
#[derive(Debug, Drop)]
pub enum Name {
    Any,
    Key(Vec<u8>),
}

/// An item: its path, and the items in its brackets, which are empty where it has no brackets.
#[derive(Debug, Drop)]
pub struct Item {
    pub(crate) path: Vec<Name>,
    pub(crate) inner: Vec<Item>,
}

/// A mask. Contracts see the list of its items, and by `mask_of` its tree.
#[derive(Debug, Drop)]
pub struct Mask {
    items: Vec<Item>,
}

impl Model for Mask {
    ghost use Rattle.std.specs.Prelude.{List};
    ghost use Rattle.std.specs.Coded.{codes};
    ghost use Rattle.gcs_fields.specs.declared.mask.Item.{Item};
    ghost use Rattle.gcs_fields.specs.contracts.mask.Item as e;

    ghost Value = { List Item };

    ghost coded = { Prim.hlevel (codes, e.the_row.coded) };

    ghost view = { λ m. m.items.items };
}

impl Mask {
    /// A mask with the same tree. `Err`: no memory.
    pub fn copy(&self) -> Result<Mask, AllocError>
        ensures { IfOk result (λ made. mask_of made ≡ mask_of self.now) }
    {
        let items = copy_items(*self.items.allocator(), &self.items)?;
        Ok(Mask { items })
    }

    pub(crate) fn new(items: Vec<Item>) -> Mask
        ensures { result ≡ items.items }
    {
        Mask { items }
    }

    pub(crate) fn items(&self) -> &[Item]
        ensures { result.now ≡ self.now }
    {
        &self.items
    }
}

#[cycle(copy_items)]
fn copy_items(alloc: Global, items: &[Item]) -> Result<Vec<Item>, AllocError>
    ensures { IfOk result (λ made. map before made.items ≡ map before items.now) }
{
    let mut made = Vec::new(alloc);
    for item in items {
        let copied = copy_item(alloc, item)?;
        made.push(copied)?;
    }
    Ok(made)
}

#[cycle(copy_items)]
fn copy_item(alloc: Global, item: &Item) -> Result<Item, AllocError>
    ensures { IfOk result (λ made. before made ≡ before item.now) }
{
    let path = copy_path(alloc, &item.path)?;
    let inner = copy_items(alloc, &item.inner)?;
    Ok(Item { path, inner })
}

fn copy_path(alloc: Global, path: &[Name]) -> Result<Vec<Name>, AllocError>
    ensures { IfOk result (λ made. path_of made.items ≡ path_of path.now) }
{
    let mut made = Vec::new(alloc);
    for name in path {
        let copied = copy_name(name)?;
        made.push(copied)?;
    }
    Ok(made)
}

fn copy_name(name: &Name) -> Result<Name, AllocError>
    ensures { IfOk result (λ made. name_of made ≡ name_of name.now) }
{
    match name {
        Name::Any => Ok(Name::Any),
        Name::Key(bytes) => Ok(Name::Key(bytes.clone()?)),
    }
}
