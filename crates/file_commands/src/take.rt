//! Files are taken in their turn, each with a limit: one byte more is asked for, so that a longer file shows.

ghost use Rattle.std.specs.Prelude.{◌≡◌, ◌+◌, ◌<◌, ◌≤◌, ◌^◌, length, map, option_map, is_some, string_bytes, IfErr, IfOk, IfSome};
ghost use Rattle.kx_laws.specs.inner.Cuts.{IsCutAt};
ghost use Rattle.file_commands.specs.Files.{all_files, optional_file, whole_file};
ghost use Rattle.file_commands.specs.inner.Calls.{IsOfRole, Takes, bytes_of, file_of};
ghost use Rattle.file_commands.specs.inner.Taking.{file_at};

use crate::goods::File;
use crate::stop::TakeFault;
use command_table::Role;
use kx_edge::{Shelf, ShelfFault};
use std::alloc::Global;

/// A file in two parts: its first bytes and those that follow, each in a buffer of its own.
#[derive(Drop)]
pub struct FileParts {
    pub name: String,
    pub front: Vec<u8>,
    pub rest: Vec<u8>,
}

/// Takes a file of at most `limit` bytes, its first `at` bytes apart from the others: where a head of so many bytes is
/// followed by bytes that are kept, these need not be moved.
#[tactic(auto, unfolding(crate::specs::Taking::and_then, crate::specs::Taking::Took, crate::specs::Taking::FailedAt, crate::specs::Taking::WantedAt, crate::specs::inner::Calls::TakesNot))]
pub fn take_apart<S: Shelf, R>(
    alloc: Global,
    role: Role,
    name: String,
    at: usize,
    limit: usize,
    shelf: &mut S,
) -> Result<FileParts, TakeFault<R>>
    requires { limit < 2 ^ 63 }
    ensures takes { Takes S.Shelf (whole_file limit (string_bytes name)) bytes_of shelf.old
        result shelf.new }
    ensures role { IfErr result (IsOfRole role) }
    ensures named { IfOk result (λ f. f.name ≡ name) }
    ensures apart { IfOk result (λ f. IsCutAt at f.front.items f.rest.items) }
    ensures within { IfOk result (λ f. length f.front.items + length f.rest.items ≤ limit) }
{
    match shelf.take_apart(alloc, &name, at, limit + 1) {
        Ok((front, rest)) if front.len() + rest.len() <= limit => {
            Ok(FileParts { name, front, rest })
        }
        Ok(_) => Err(TakeFault::TooLong {
            role,
            name,
            limit: limit as u64,
        }),
        Err(ShelfFault::Memory) => Err(TakeFault::Memory),
        Err(ShelfFault::Failed) => Err(TakeFault::Unread { role, name }),
    }
}

// Takes a file of at most `limit` bytes, with its name.
fn take_named<S: Shelf, R>(
    alloc: Global,
    role: Role,
    name: String,
    limit: usize,
    shelf: &mut S,
) -> Result<File, TakeFault<R>>
    requires { limit < 2 ^ 63 }
    ensures takes { Takes S.Shelf (whole_file limit (string_bytes name)) (λ f. f.bytes.items)
        shelf.old result shelf.new }
    ensures role { IfErr result (IsOfRole role) }
    ensures named { IfOk result (λ f. f.name ≡ name) }
    ensures within { IfOk result (λ f. length f.bytes.items ≤ limit) }
{
    let FileParts { name, rest, .. } = take_apart(alloc, role, name, 0, limit, shelf)?;
    Ok(File {
        role,
        name,
        bytes: rest,
    })
}

/// Takes a file of at most `limit` bytes.
pub fn take_file<S: Shelf, R>(
    alloc: Global,
    role: Role,
    name: String,
    limit: usize,
    shelf: &mut S,
) -> Result<Vec<u8>, TakeFault<R>>
    requires { limit < 2 ^ 63 }
    ensures takes { Takes S.Shelf (whole_file limit (string_bytes name)) (λ bytes. bytes.items)
        shelf.old result shelf.new }
    ensures role { IfErr result (IsOfRole role) }
    ensures whole { IfOk result
        (λ bytes. IfSome (S.files shelf.old)
        (λ held. bytes.items ≡ file_at held (string_bytes name))) }
    ensures within { IfOk result (λ bytes. length bytes.items ≤ limit) }
{
    let file = take_named(alloc, role, name, limit, shelf)?;
    Ok(file.bytes)
}

/// Takes a file of at most `limit` bytes, where one is named.
#[tactic(auto, unfolding(crate::specs::Taking::and_then, crate::specs::Taking::Took, crate::specs::Taking::FailedAt, crate::specs::Taking::WantedAt, crate::specs::inner::Calls::TakesNot))]
pub fn take_optional<S: Shelf, R>(
    alloc: Global,
    role: Role,
    name: Option<String>,
    limit: usize,
    shelf: &mut S,
) -> Result<Option<Vec<u8>>, TakeFault<R>>
    requires { limit < 2 ^ 63 }
    ensures takes { Takes S.Shelf (optional_file (whole_file limit) (option_map string_bytes name))
        (option_map (λ bytes. bytes.items)) shelf.old result shelf.new }
    ensures role { IfErr result (IsOfRole role) }
    ensures named { IfOk result (λ r. is_some r ≡ is_some name) }
{
    match name {
        Some(name) => Ok(Some(take_file(alloc, role, name, limit, shelf)?)),
        None => Ok(None),
    }
}

/// Takes files that have at most so many bytes together.
pub fn take_all<S: Shelf, R>(
    alloc: Global,
    role: Role,
    names: Vec<String>,
    budget: usize,
    shelf: &mut S,
) -> Result<Vec<File>, TakeFault<R>>
    requires { budget < 2 ^ 63 }
    ensures takes { Takes S.Shelf (all_files budget (map string_bytes names.items))
        (λ files. map file_of files.items) shelf.old result shelf.new }
    ensures role { IfErr result (IsOfRole role) }
{
    let mut left = budget;
    let mut files = Vec::new(alloc);
    for name in names {
        let file = take_named(alloc, role, name, left, shelf)?;
        left -= file.bytes.len();
        files.push(file)?;
    }
    Ok(files)
}
