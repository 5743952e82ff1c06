//! The commands on the bucket's object `a`, by their words. All contents are empty.
ghost use Rattle.std.specs.Prelude.{IfOk};
ghost use Rattle.std.specs.Option.{IfSome};
ghost use Rattle.check_store.specs.Commands.{IsAskable};

use crate::commands::{ANY, tub};
use gcs_chunks::{Chunks, Content};
use gcs_meaning::{
    Command, Copied, Expect, Hashed, List, Meta, MetaChange, Name, PageQuery, Pairs, Part, Pre,
    Set, Text, View,
};
use std::alloc::{AllocError, Global};

pub const ANY_DIGEST: Expect = Expect {
    crc: None,
    md5: None,
};

/// The command of this word on the object, if it is one. The wrong CRC is that of `123456789`. `Err`: no memory.
pub fn version_command(
    alloc: Global,
    chunks: &Chunks,
    word: &str,
    number: Option<u64>,
) -> Result<Option<Command>, AllocError>
    ensures { IfOk result (λ command. IfSome command IsAskable) }
{
    let wrong_crc = Expect {
        crc: Some(0xE306_9283),
        md5: Some([0; 16]),
    };
    let wrong_md5 = Expect {
        crc: Some(0),
        ..wrong_crc
    };
    Ok(Some(match word {
        "put" => put(alloc, chunks, number, ANY_DIGEST)?,
        "put-wrong-crc" => put(alloc, chunks, number, wrong_crc)?,
        "put-wrong-md5" => put(alloc, chunks, number, wrong_md5)?,
        "set-time" => change(alloc, number, Set::Keep)?,
        "hold" => change(alloc, None, Set::To(true))?,
        "release" => change(alloc, None, Set::To(false))?,
        _ => return plain_command(alloc, word, number),
    }))
}

fn plain_command(
    alloc: Global,
    word: &str,
    generation: Option<u64>,
) -> Result<Option<Command>, AllocError>
    ensures { IfOk result (λ command. IfSome command IsAskable) }
{
    let bucket = tub(alloc)?;
    let name = object(alloc)?;
    Ok(Some(match word {
        "get" => Command::Get {
            bucket,
            name,
            generation,
            soft: false,
            pre: ANY,
        },
        "get-soft" => Command::Get {
            bucket,
            name,
            generation,
            soft: true,
            pre: ANY,
        },
        "delete" => Command::Delete {
            bucket,
            name,
            generation,
            pre: ANY,
        },
        "restore" => Command::Restore {
            bucket,
            name,
            generation: generation.unwrap_or(0),
            pre: ANY,
        },
        "compose" => compose(alloc, name, generation)?,
        "list" => Command::List {
            bucket,
            query: whole_list(alloc),
        },
        _ => return Ok(None),
    }))
}

fn whole_list(alloc: Global) -> PageQuery {
    PageQuery {
        view: View::Versions,
        prefix: Text::new(alloc),
        delimiter: Text::new(alloc),
        start: None,
        end: None,
        trailing: false,
        most: 10,
        after: None,
    }
}

// Of the object itself, twice, where the generation of the second source must be this.
fn compose(alloc: Global, name: Name, generation_is: Option<u64>) -> Result<Command, AllocError>
    ensures { IfOk result IsAskable }
{
    let mut parts = List::new(alloc);
    parts.push(source(name.copy()?, None))?;
    parts.push(source(name.copy()?, generation_is))?;
    Ok(Command::Compose {
        bucket: tub(alloc)?,
        name,
        pre: ANY,
        meta: plain_meta(alloc)?,
        parts,
    })
}

fn source(name: Name, generation_is: Option<u64>) -> Part {
    Part {
        name,
        generation: None,
        generation_is,
    }
}

/// Metadata of a version in which nothing is but the content type. `Err`: no memory.
pub fn plain_meta(alloc: Global) -> Result<Meta, AllocError> {
    Ok(Meta {
        content_type: Text::from_str(alloc, "text/plain")?,
        cache_control: None,
        content_disposition: None,
        content_encoding: None,
        content_language: None,
        storage_class: None,
        custom_time: None,
        temporary_hold: false,
        event_hold: None,
        custom: Pairs::new(alloc),
    })
}

// If the generation is this, and 0 stands for no version.
fn put(
    alloc: Global,
    chunks: &Chunks,
    generation_is: Option<u64>,
    expect: Expect,
) -> Result<Command, AllocError>
    ensures { IfOk result IsAskable }
{
    Ok(Command::Put {
        bucket: tub(alloc)?,
        name: object(alloc)?,
        pre: Pre {
            generation_is,
            ..ANY
        },
        meta: plain_meta(alloc)?,
        hashed: Hashed::of(Content::empty(alloc), chunks),
        components: None,
        expect,
    })
}

// Sets the custom time, where there is one, and the event-based hold.
fn change(
    alloc: Global,
    custom_time: Option<u64>,
    event_hold: Set<bool>,
) -> Result<Command, AllocError>
    ensures { IfOk result IsAskable }
{
    let change = MetaChange {
        content_type: Set::Keep,
        cache_control: Set::Keep,
        content_disposition: Set::Keep,
        content_encoding: Set::Keep,
        content_language: Set::Keep,
        custom_time: match custom_time {
            Some(moment) => Set::To(moment),
            None => Set::Keep,
        },
        temporary_hold: Set::Keep,
        event_hold,
        custom: Set::Keep,
    };
    Ok(Command::Change {
        bucket: tub(alloc)?,
        name: object(alloc)?,
        generation: None,
        pre: ANY,
        change,
        whole: false,
    })
}

pub fn object(alloc: Global) -> Result<Name, AllocError> {
    Ok(Name::new(Text::from_str(alloc, "a")?))
}
