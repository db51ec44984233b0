//! The table of places.

ghost use Rattle.std.specs.Prelude.{◌≡◌, ◌≤◌};
ghost use Rattle.kexec_plan.specs.Table.{last_address, highest, kernel_rule, initrd_rule, headers_rule, parameters_rule, module_rule, information_rule};

use crate::places::PlaceRule;
use crate::request::Module;
use bzimage::BzImage;
use hole_search::End;
use kx_pages::{ADDRESS_LIMIT, PAGE_SIZE};
use memory_map::Row;
use multiboot_image::{Placed, info_length};
use plan_faults::Part;

/// The least address of a bzImage: 1 MiB.
const KERNEL_MIN: u64 = 0x10_0000;

/// The first address that 32 bits do not reach.
const LIMIT_OF_32_BITS: u64 = 1 << 32;

/// The last address below 4 GiB, or where a kernel may lie above it the last below the limit of addresses.
pub(crate) fn last_address(above4g: bool) -> u64
    ensures { result ≡ last_address above4g }
{
    if above4g {
        ADDRESS_LIMIT - 1
    } else {
        LIMIT_OF_32_BITS - 1
    }
}

/// A part of so many bytes, as high as it can lie.
pub(crate) fn highest(part: Part, length: u64, most: u64) -> PlaceRule
    ensures { result ≡ highest part length most }
{
    PlaceRule {
        part,
        length,
        end: End::Greatest,
        align: PAGE_SIZE,
        min: 0,
        most,
    }
}

/// A bzImage whose file has so many bytes.
pub(crate) fn kernel_rule(image: &BzImage, file: usize) -> PlaceRule
    requires { image.now.start ≤ file }
    ensures { result ≡ kernel_rule image.now file }
{
    PlaceRule {
        part: Part::Kernel,
        length: image.init_size.max((file - image.start) as u64),
        end: End::Least,
        align: image.align,
        min: image.pref.max(KERNEL_MIN),
        most: last_address(image.above4g),
    }
}

/// The initrd of a bzImage.
pub(crate) fn initrd_rule(image: &BzImage, initrd: &[u8]) -> PlaceRule
    ensures { result ≡ initrd_rule image.now initrd.now }
{
    let most = if image.above4g {
        ADDRESS_LIMIT - 1
    } else {
        image.initrd_max
    };
    highest(Part::Initrd, initrd.len() as u64, most)
}

/// The crash headers of a bzImage, of so many bytes.
pub(crate) fn headers_rule(image: &BzImage, length: u64) -> PlaceRule
    ensures { result ≡ headers_rule image.now length }
{
    highest(Part::Headers, length, last_address(image.above4g))
}

/// The boot parameters of a bzImage.
pub(crate) fn parameters_rule(image: &BzImage, rows: &[Row], command: &[u8]) -> PlaceRule
    ensures { result ≡ parameters_rule image.now rows.now command.now }
{
    let length = boot_params::length(rows.len(), command.len());
    highest(Part::Parameters, length, last_address(image.above4g))
}

/// A module of a Multiboot kernel.
pub(crate) fn module_rule(asked: &Module) -> PlaceRule
    ensures { result ≡ module_rule asked.now }
{
    let most = LIMIT_OF_32_BITS - 1 - PAGE_SIZE;
    highest(Part::Module, asked.bytes.len() as u64, most)
}

/// The information of a Multiboot kernel.
pub(crate) fn information_rule(rows: &[Row], command: &[u8], modules: &[Placed]) -> PlaceRule
    ensures { result ≡ information_rule rows.now command.now modules.now }
{
    let length = info_length(rows.len(), command.len(), modules);
    highest(Part::Information, length, last_address(false))
}
