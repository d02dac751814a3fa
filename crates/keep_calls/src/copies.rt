// Copies of queries. NoMemory is the only error.
ghost use Rattle.std.specs.Prelude.{◌≡◌, IfOk};

use keep_event::{DeviceQuery, Query, SaveRequest, TableQuery};
use keep_spec::{Bytes, NoMemory};
use std::alloc::Global;

/// Copies a query.
pub fn copy_query(alloc: Global, query: &Query) -> Result<Query, NoMemory>
    ensures { IfOk result (λ copy. copy ≡ query.now) }
{
    match query {
        Query::Device(device, query) => Ok(Query::Device(*device, copy_of_device(alloc, query)?)),
        Query::Table(query) => Ok(Query::Table(copy_of_table(alloc, query)?)),
    }
}

fn copy_of_device(alloc: Global, query: &DeviceQuery) -> Result<DeviceQuery, NoMemory>
    ensures { IfOk result (λ copy. copy ≡ query.now) }
{
    match query {
        DeviceQuery::CompareTouch { block, token } => Ok(DeviceQuery::CompareTouch {
            block: block.duplicate(alloc)?,
            token: *token,
        }),
        DeviceQuery::Write { block, token } => Ok(DeviceQuery::Write {
            block: block.duplicate(alloc)?,
            token: *token,
        }),
        DeviceQuery::Fetch { digest } => Ok(DeviceQuery::Fetch { digest: *digest }),
        DeviceQuery::Touch { digest, token } => Ok(DeviceQuery::Touch {
            digest: *digest,
            token: *token,
        }),
        DeviceQuery::Clear { round } => Ok(DeviceQuery::Clear { round: *round }),
        DeviceQuery::Accept { round, lists } => Ok(DeviceQuery::Accept {
            round: *round,
            lists: lists.duplicate(alloc)?,
        }),
        DeviceQuery::Page { round, prefix } => Ok(DeviceQuery::Page {
            round: *round,
            prefix: prefix.duplicate(alloc)?,
        }),
        DeviceQuery::TrashNext => Ok(DeviceQuery::TrashNext),
        DeviceQuery::PullNext => Ok(DeviceQuery::PullNext),
        DeviceQuery::Untrash { digest } => Ok(DeviceQuery::Untrash { digest: *digest }),
        DeviceQuery::EmptyNext => Ok(DeviceQuery::EmptyNext),
        DeviceQuery::Restart => Ok(DeviceQuery::Restart),
    }
}

fn copy_of_table(alloc: Global, query: &TableQuery) -> Result<TableQuery, NoMemory>
    ensures { IfOk result (λ copy. copy ≡ query.now) }
{
    match query {
        TableQuery::BeginRound => Ok(TableQuery::BeginRound),
        TableQuery::Save { request } => Ok(TableQuery::Save {
            request: copy_of_request(alloc, request)?,
        }),
        TableQuery::Update {
            collection,
            preserve,
            request,
        } => copy_of_update(alloc, *collection, *preserve, request),
        TableQuery::Read {
            token,
            collection,
            version,
        } => copy_of_read(alloc, token, *collection, *version),
        TableQuery::SetTrash {
            token,
            collection,
            trash_at,
            delete_at,
        } => copy_of_trash(alloc, token, *collection, *trash_at, *delete_at),
        TableQuery::Restore { token, collection } => Ok(TableQuery::Restore {
            token: token.duplicate(alloc)?,
            collection: *collection,
        }),
        TableQuery::Sweep => Ok(TableQuery::Sweep),
        TableQuery::Scan {
            round,
            after,
            limit,
        } => Ok(scan(*round, *after, *limit)),
    }
}

fn scan(round: u64, after: u64, limit: u32) -> TableQuery
    ensures { result ≡ TableQuery.Scan round after limit }
{
    TableQuery::Scan {
        round,
        after,
        limit,
    }
}

fn copy_of_update(
    alloc: Global,
    collection: u64,
    preserve: bool,
    request: &SaveRequest,
) -> Result<TableQuery, NoMemory>
    ensures { IfOk result (λ copy. copy ≡ TableQuery.Update collection preserve request.now) }
{
    Ok(TableQuery::Update {
        collection,
        preserve,
        request: copy_of_request(alloc, request)?,
    })
}

fn copy_of_read(
    alloc: Global,
    token: &Bytes,
    collection: u64,
    version: Option<u64>,
) -> Result<TableQuery, NoMemory>
    ensures { IfOk result (λ copy. copy ≡ TableQuery.Read token.now collection version) }
{
    Ok(TableQuery::Read {
        token: token.duplicate(alloc)?,
        collection,
        version,
    })
}

fn copy_of_trash(
    alloc: Global,
    token: &Bytes,
    collection: u64,
    trash_at: u64,
    delete_at: u64,
) -> Result<TableQuery, NoMemory>
    ensures { IfOk result (λ copy. copy ≡ TableQuery.SetTrash token.now collection trash_at delete_at) }
{
    Ok(TableQuery::SetTrash {
        token: token.duplicate(alloc)?,
        collection,
        trash_at,
        delete_at,
    })
}

fn copy_of_request(alloc: Global, request: &SaveRequest) -> Result<SaveRequest, NoMemory>
    ensures { IfOk result (λ copy. copy ≡ request.now) }
{
    Ok(SaveRequest {
        token: request.token.duplicate(alloc)?,
        text: request.text.duplicate(alloc)?,
        want: request.want,
        portable: copy_of_text(alloc, &request.portable)?,
    })
}

fn copy_of_text(alloc: Global, text: &Option<Bytes>) -> Result<Option<Bytes>, NoMemory>
    ensures { IfOk result (λ copy. copy ≡ text.now) }
{
    match text {
        Some(text) => Ok(Some(text.duplicate(alloc)?)),
        None => Ok(None),
    }
}
