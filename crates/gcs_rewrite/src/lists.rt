//! Lists of objects and of buckets: what is asked for a page, and what is said of the buckets that sixteen shards list.
ghost use Rattle.std.specs.Prelude.{◌≡◌, ◌≤◌, IfOk, OnOk, length, take, insert};
ghost use Rattle.gcs_route.specs.OfTable.{IsPageSize};
ghost use Rattle.gcs_rewrite.specs.Lists.{buckets_script, list_of_shard, listed_in, name_asked, query_of, rows_in, token_after, unit_asked, view_asked, with_all_listed, with_listed, AreListed, RiseByName};

use crate::moves::Move;
use crate::replies::Reply;
use gcs_listing::{TokenFault, is_below, read_bucket_token, read_token, write_bucket_token};
use gcs_meaning::{Answer, BucketRow, Command, Copied, List, PageQuery, SHARDS, Text, Unit, View};
use gcs_route::Call;
use std::alloc::{AllocError, Global};

/// What a list of objects asks for. `Err`: no memory.
pub fn query_of(alloc: Global, call: &Call) -> Result<PageQuery, AllocError>
    ensures { IfOk result (λ query. query ≡ query_of call.now) }
{
    Ok(PageQuery {
        view: view_asked(call.soft, call.versions),
        prefix: call.prefix.copy()?,
        delimiter: call.delimiter.copy()?,
        start: call.start.copy()?,
        end: call.end.copy()?,
        trailing: call.trailing,
        most: call.most,
        after: unit_asked(alloc, &call.page_token)?,
    })
}

fn view_asked(soft: bool, versions: bool) -> View
    ensures { result ≡ view_asked soft versions }
{
    if soft {
        View::Soft
    } else if versions {
        View::Versions
    } else {
        View::Live
    }
}

fn unit_asked(alloc: Global, token: &Option<Text>) -> Result<Option<Unit>, AllocError>
    ensures { IfOk result (λ unit. unit ≡ unit_asked token.now) }
{
    let Some(token) = token else {
        return Ok(None);
    };
    match read_token(alloc, token.as_bytes()) {
        Ok(unit) => Ok(Some(unit)),
        Err(TokenFault::Bad) => Ok(None),
        Err(TokenFault::NoMemory) => Err(AllocError),
    }
}

/// The next move of a list of buckets: it asks each shard in turn, and then says the page. `Err`: no memory.
pub fn list_buckets(alloc: Global, call: &Call, answers: &[Answer]) -> Result<Move, AllocError>
    requires { IsPageSize call.now.most }
    ensures { IfOk result (λ next. next ≡ buckets_script call.now answers.now) }
{
    if answers.len() < usize::from(SHARDS) {
        return ask_shard(alloc, call, answers.len() as u8);
    }
    let rows = listed_in(alloc, call.most as usize + 1, answers)?;
    let reply = say_buckets(alloc, call.most, rows)?;
    Ok(Move::Say(reply))
}

fn ask_shard(alloc: Global, call: &Call, shard: u8) -> Result<Move, AllocError>
    requires { IsPageSize call.now.most }
    ensures { IfOk result (λ next. next ≡ Move.Ask shard (list_of_shard call.now shard)) }
{
    let prefix = call.prefix.copy()?;
    let after = name_asked(alloc, &call.page_token)?;
    let command = Command::BucketList {
        shard,
        prefix,
        after,
        most: call.most + 1,
    };
    Ok(Move::Ask { shard, command })
}

fn name_asked(alloc: Global, token: &Option<Text>) -> Result<Text, AllocError>
    ensures { IfOk result (λ name. name ≡ name_asked token.now) }
{
    let Some(token) = token else {
        return Ok(Text::new(alloc));
    };
    match read_bucket_token(alloc, token.as_bytes()) {
        Ok(name) => {
            let text = Text::from_str(alloc, name.as_str());
            drop(name);
            text
        }
        Err(TokenFault::Bad) => Ok(Text::new(alloc)),
        Err(TokenFault::NoMemory) => Err(AllocError),
    }
}

// The first `most` of the buckets that the answers list, by name.
fn listed_in(alloc: Global, most: usize, answers: &[Answer]) -> Result<Vec<BucketRow>, AllocError>
    ensures { IfOk result (λ rows. rows.items ≡ take most (listed_in answers.now)) }
{
    let mut listed = Vec::new(alloc);
    for answer in answers {
        add_all(&mut listed, most, rows_in(answer))?;
    }
    Ok(listed)
}

fn rows_in(answer: &Answer) -> &[BucketRow]
    ensures { result.now ≡ rows_in answer.now }
{
    match answer {
        Answer::Buckets(rows) => rows.as_slice(),
        _ => &[],
    }
}

// Adds copies of those of these buckets that are then among the first `most`, each at its place.
fn add_all(listed: &mut Vec<BucketRow>, most: usize, rows: &[BucketRow]) -> Result<(), AllocError>
    requires { AreListed most listed.old.items }
    ensures first { OnOk result (AreListed most listed.new.items) }
    ensures added { OnOk result (listed.new.items ≡ take most (with_all_listed rows.now listed.old.items)) }
{
    for row in rows {
        add(listed, most, row)?;
    }
    Ok(())
}

// Adds a copy of a bucket before the first whose name comes after its own, where that place is one of the first `most`.
fn add(listed: &mut Vec<BucketRow>, most: usize, row: &BucketRow) -> Result<(), AllocError>
    requires { AreListed most listed.old.items }
    ensures first { OnOk result (AreListed most listed.new.items) }
    ensures added { OnOk result (listed.new.items ≡ take most (with_listed row.now listed.old.items)) }
{
    let place = place_of(listed, row);
    if place >= most {
        return Ok(());
    }
    let row = row.copy()?;
    listed.truncate(most - 1);
    listed.insert(place, row)?;
    Ok(())
}

fn place_of(listed: &[BucketRow], row: &BucketRow) -> usize
    requires { RiseByName listed.now }
    ensures within { result ≤ length listed.now }
    ensures place { with_listed row.now listed.now ≡ insert listed.now result row.now }
{
    listed.partition_point(|other| !is_below(row.name.as_bytes(), other.name.as_bytes()))
}

// A page of these buckets, with the token of its last one where more are left.
fn say_buckets(alloc: Global, most: u32, mut rows: Vec<BucketRow>) -> Result<Reply, AllocError>
    ensures { IfOk result (λ reply. reply ≡ Reply.Buckets (take most rows.items) (token_after most rows.items)) }
{
    let token = token_after(alloc, most as usize, &rows)?;
    rows.truncate(most as usize);
    Ok(Reply::Buckets(List::from_vec(rows), token))
}

fn token_after(alloc: Global, most: usize, rows: &[BucketRow]) -> Result<Option<Text>, AllocError>
    ensures { IfOk result (λ token. token ≡ token_after most rows.now) }
{
    if rows.len() <= most {
        return Ok(None);
    }
    match rows.get(most.saturating_sub(1)) {
        Some(last) => Ok(Some(write_bucket_token(alloc, &last.name)?)),
        None => Ok(None),
    }
}
