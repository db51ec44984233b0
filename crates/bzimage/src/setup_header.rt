//! The setup header of a bzImage.

ghost use Rattle.std.specs.Prelude.{◌≡◌, length, IfOk};
ghost use Rattle.kx_fields.specs.Formats.{read};
ghost use Rattle.bzimage.specs.SetupHeader.{setup_header};
ghost use Rattle.kx_laws.specs.Results.{unless};
ghost use Rattle.bzimage.specs.Kernel.{header_end, kernel_start, read_header, header_fault, tested_header, kernel_of};
ghost use Rattle.bzimage.specs.inner.Kernel.{HasSmallNumbers, IsTested};

use crate::fault::BzFault;
use crate::image::BzImage;
use crate::signature::is_bzimage;
use kx_fields::Block;

/// The oldest protocol whose header has `xloadflags`: 2.12.
const OLDEST_VERSION: u16 = 0x20c;

/// Bit 0 of `loadflags`: the protected-mode part is for 0x100000 and above.
const LOADED_HIGH: u8 = 1;

/// Bit 0 of `xloadflags`: the kernel has the 64-bit entry.
const XLF_KERNEL_64: u16 = 1;

/// Bit 1 of `xloadflags`: kernel, boot parameters, command and initrd may lie above 4 GiB.
const XLF_CAN_BE_LOADED_ABOVE_4G: u16 = 2;

/// The numbers of the setup header that a loader reads, with the protocol's names. `jump` is the offset in the jump
/// instruction at 0x200, which tells where the header ends.
#[derive(Clone, Copy)]
pub(crate) struct SetupHeader {
    pub(crate) setup_sects: u8,
    pub(crate) jump: u8,
    pub(crate) version: u16,
    pub(crate) loadflags: u8,
    pub(crate) initrd_addr_max: u32,
    pub(crate) kernel_alignment: u32,
    pub(crate) relocatable_kernel: u8,
    pub(crate) xloadflags: u16,
    pub(crate) cmdline_size: u32,
    pub(crate) pref_address: u64,
    pub(crate) init_size: u32,
}

// The places in the file.
macro_rules! setup_header {
    ($($use:tt)*) => {
        kx_fields::fields!($($use)* {
            setup_sects: u8 @ 0x1f1,
            jump: u8 @ 0x201,
            version: u16 @ 0x206,
            loadflags: u8 @ 0x211,
            initrd_addr_max: u32 @ 0x22c,
            kernel_alignment: u32 @ 0x230,
            relocatable_kernel: u8 @ 0x234,
            xloadflags: u16 @ 0x236,
            cmdline_size: u32 @ 0x238,
            pref_address: u64 @ 0x258,
            init_size: u32 @ 0x260,
        })
    };
}

impl SetupHeader {
    // The numbers in the first bytes of a file.
    fn numbers(block: &Block<0x264>) -> SetupHeader
        ensures { result ≡ read setup_header block.now }
    {
        setup_header!(get block, SetupHeader)
    }

    // The setup header that a file has.
    #[tactic(auto, unfolding(crate::specs::Kernel::read_header))]
    fn read(file: &[u8]) -> Result<SetupHeader, BzFault>
        ensures { result ≡ read_header file.now }
    {
        if !is_bzimage(file) {
            return Err(BzFault::NotKernel);
        }
        match Block::<0x264>::cut(file, 0) {
            Some(block) => Ok(SetupHeader::numbers(&block)),
            None => Err(BzFault::NotKernel),
        }
    }

    /// Where the header ends.
    pub(crate) fn end(&self) -> usize
        ensures { result ≡ header_end self.now }
    {
        0x202 + usize::from(self.jump)
    }

    // Where the protected-mode part starts.
    fn start(&self) -> usize
        ensures { result ≡ kernel_start self.now }
    {
        let sectors = match self.setup_sects {
            0 => 4,
            n => usize::from(n),
        };
        (sectors + 1) * 512
    }

    // Tests the numbers of a file of `total` bytes, in the order of the faults.
    #[tactic(auto, unfolding(crate::specs::Kernel::header_fault))]
    fn test(&self, total: usize) -> Result<(), BzFault>
        ensures { result ≡ unless (header_fault total self.now) }
    {
        if self.version < OLDEST_VERSION {
            return Err(BzFault::OldVersion {
                found: u64::from(self.version),
            });
        }
        if self.xloadflags & XLF_KERNEL_64 == 0 {
            return Err(BzFault::No64Entry);
        }
        if self.relocatable_kernel == 0 {
            return Err(BzFault::NotRelocatable);
        }
        if self.loadflags & LOADED_HIGH == 0 {
            return Err(BzFault::NotHigh);
        }
        let end = self.end();
        if end < 0x264 || end > 0x290 {
            return Err(BzFault::HeaderLength { end: end as u64 });
        }
        let align = self.kernel_alignment;
        if !align.is_power_of_two() || align < 4096 || align > 1 << 30 {
            return Err(BzFault::BadAlignment {
                found: u64::from(align),
            });
        }
        if total < end || total <= self.start() {
            return Err(BzFault::Truncated { at: total as u64 });
        }
        Ok(())
    }

    /// The setup header that a file has, tested.
    #[tactic(auto, unfolding(crate::specs::Kernel::tested_header))]
    pub(crate) fn tested_header(file: &[u8]) -> Result<SetupHeader, BzFault>
        ensures value { result ≡ tested_header file.now }
        ensures tested { IfOk result (IsTested (length file.now)) }
    {
        match SetupHeader::read(file) {
            Ok(setup) => match setup.test(file.len()) {
                Ok(()) => Ok(setup),
                Err(fault) => Err(fault),
            },
            Err(fault) => Err(fault),
        }
    }

    /// The kernel that a file with this setup header is, whose header has these bytes.
    pub(crate) fn kernel(&self, header: Vec<u8>) -> BzImage
        ensures value { result ≡ kernel_of self.now header.items }
        ensures numbers { HasSmallNumbers result }
    {
        BzImage {
            header,
            start: self.start(),
            align: u64::from(self.kernel_alignment),
            init_size: u64::from(self.init_size),
            pref: self.pref_address,
            above4g: self.xloadflags & XLF_CAN_BE_LOADED_ABOVE_4G != 0,
            command_most: u64::from(self.cmdline_size),
            initrd_max: u64::from(self.initrd_addr_max),
        }
    }
}
