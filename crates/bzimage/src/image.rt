//! What a bzImage says of itself.

ghost use Rattle.std.specs.Prelude.{length, IfOk};
ghost use Rattle.kx_laws.specs.inner.Results.{Gives};
ghost use Rattle.bzimage.specs.declared.fault.BzFault.TheVariants.{Memory};
ghost use Rattle.bzimage.specs.Kernel.{kernel_reading};
ghost use Rattle.bzimage.specs.inner.Kernel.{IsSound};

use crate::fault::BzFault;
use crate::setup_header::SetupHeader;
use std::alloc::Global;
use std::marker::Model;

/// What a bzImage says of itself (Linux/x86 boot protocol, "The Real-Mode Kernel Header").
#[derive(Drop)]
pub struct BzImage {
    /// The header's bytes, from 0x1f1 of the file (`setup_sects`) to the header's end.
    pub header: Vec<u8>,
    /// Where the protected-mode part starts in the file, by `setup_sects`.
    pub start: usize,
    /// What the kernel's address is to be a multiple of (`kernel_alignment`).
    pub align: u64,
    /// How many bytes of memory the kernel needs from its address on, until it has looked at the memory map
    /// (`init_size`).
    pub init_size: u64,
    /// The address that the kernel prefers (`pref_address`).
    pub pref: u64,
    /// Kernel, boot parameters, command and initrd may lie above 4 GiB (bit 1 of `xloadflags`).
    pub above4g: bool,
    /// How many bytes the command can have, without its NUL (`cmdline_size`).
    pub command_most: u64,
    /// The greatest address that the initrd's last byte can have (`initrd_addr_max`).
    pub initrd_max: u64,
}

impl Model for BzImage {
    ghost use Rattle.bzimage.specs.Kernel.{Kernel};

    ghost Value = { Kernel };

    ghost view = { λ k. record {
      header = k.header.items;
      start = k.start;
      align = k.align;
      init_size = k.init_size;
      pref = k.pref;
      above4g = k.above4g;
      command_most = k.command_most;
      initrd_max = k.initrd_max;
    } };
}

/// What a bzImage says, or the first fault of the file.
///
/// It is NotKernel where the file is shorter than 0x264 bytes, or its `boot_flag` or magic differs; then OldVersion,
/// No64Entry, NotRelocatable, NotHigh, HeaderLength, BadAlignment and Truncated, in this order. Memory comes only where
/// memory ran out.
pub fn read(alloc: Global, bytes: &[u8]) -> Result<BzImage, BzFault>
    // What it is, or the first fault.
    ensures exact { Gives Memory (λ k. k) result (kernel_reading bytes.now) }
    // The header, the alignment and the numbers keep to their limits, and the protected-mode part starts in the file.
    ensures sound { IfOk result (IsSound (length bytes.now)) }
{
    let setup = match SetupHeader::tested_header(bytes) {
        Ok(setup) => setup,
        Err(fault) => return Err(fault),
    };
    let header = Vec::from_slice(alloc, &bytes[0x1f1..setup.end()])?;
    Ok(setup.kernel(header))
}
