//! The signature that tells a bzImage.

ghost use Rattle.std.specs.Prelude.{◌≡◌};
ghost use Rattle.kx_fields.specs.Formats.{read};
ghost use Rattle.bzimage.specs.Signature.{signature, is_right, is_bzimage};

use kx_fields::Block;

/// The mark of a boot sector (`boot_flag`).
const BOOT_FLAG: u16 = 0xaa55;

/// `HdrS` (`header`).
const MAGIC: u32 = 0x5372_6448;

/// The two magic numbers of a bzImage, with the protocol's names.
#[derive(Clone, Copy)]
pub(crate) struct Signature {
    pub(crate) boot_flag: u16,
    pub(crate) header: u32,
}

// The places in the file.
macro_rules! signature {
    ($($use:tt)*) => {
        kx_fields::fields!($($use)* {
            boot_flag: u16 @ 0x1fe,
            header: u32 @ 0x202,
        })
    };
}

impl Signature {
    // The numbers in the first bytes of a file.
    fn of(block: &Block<0x206>) -> Signature
        ensures { result ≡ read signature block.now }
    {
        signature!(get block, Signature)
    }

    // Both are those of a bzImage.
    fn is_right(self) -> bool
        ensures { result ≡ is_right self }
    {
        self.boot_flag == BOOT_FLAG && self.header == MAGIC
    }
}

/// Whether a file has the signature of a bzImage: 0xaa55 at 0x1fe (`boot_flag`) and `HdrS` at 0x202 (`header`; Linux/x86
/// boot protocol, "The Real-Mode Kernel Header").
///
/// This is what tells the type of a file, and no more: `read` refuses each file without the signature as NotKernel, and
/// may refuse one with it.
#[tactic(auto, unfolding(crate::specs::Signature::is_bzimage))]
pub fn is_bzimage(bytes: &[u8]) -> bool
    ensures signature { result ≡ is_bzimage bytes.now }
{
    match Block::<0x206>::cut(bytes, 0) {
        Some(block) => Signature::of(&block).is_right(),
        None => false,
    }
}
