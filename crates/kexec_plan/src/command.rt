//! The command of a kernel, and what it tells a crash kernel.

ghost use Rattle.std.specs.Prelude.{◌≡◌, string_bytes, IfOk};
ghost use Rattle.kexec_plan.specs.Command.{with_space, headers_word, told_command};

use std::alloc::{AllocError, Global};

// The word that tells a crash kernel where its headers lie.
fn headers_word(alloc: Global, at: u64) -> Result<String, AllocError>
    ensures { IfOk result (λ s. string_bytes s ≡ headers_word at) }
{
    format!(in alloc; "elfcorehdr={}K", at / 1024)
}

// The command, and behind it a space where it is not empty.
fn with_space(alloc: Global, command: &[u8]) -> Result<Vec<u8>, AllocError>
    ensures { IfOk result (λ v. v.items ≡ with_space command.now) }
{
    let mut separated = Vec::from_slice(alloc, command)?;
    if !command.is_empty() {
        separated.push(b' ')?;
    }
    Ok(separated)
}

/// The command, which tells where the crash headers lie.
pub(crate) fn told_command(alloc: Global, command: &[u8], at: u64) -> Result<Vec<u8>, AllocError>
    ensures { IfOk result (λ v. v.items ≡ told_command command.now at) }
{
    let word = headers_word(alloc, at)?;
    let mut told = with_space(alloc, command)?;
    told.extend_from_slice(word.as_bytes())?;
    Ok(told)
}
