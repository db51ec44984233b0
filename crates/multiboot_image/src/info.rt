//! The information that a Multiboot kernel finds at its start.

ghost use Rattle.std.specs.Prelude.{◌≡◌, ◌+◌, ◌*◌, ◌-◌, ◌^◌, ◌<◌, length, min, IfOk};
ghost use Rattle.multiboot_image.specs.MapRows.{mem_lower, mem_upper};
ghost use Rattle.multiboot_image.specs.Info.{info_of, info_text, name_place, places_of, info, info_size};
ghost use Rattle.multiboot_image.specs.inner.Info.{AreRising, IsInReach, info_length_of};

use crate::map_rows::{mem_lower, mem_upper, put_rows};
use crate::modules::{Placed, put_module_table, put_text, put_texts, texts_size};
use kx_fields::Block;
use memory_map::Row;
use std::alloc::{AllocError, Global};

/// The bytes of the structure, of a row of the map, and of a row of the module table.
const INFO: u64 = 88;

const ROW: u64 = 24;

const MODULE: u64 = 16;

/// The name of this loader.
const NAME: &[u8; 5] = b"kexec";

/// The information structure, as far as it is made here.
#[derive(Clone, Copy)]
pub(crate) struct Info {
    pub(crate) flags: u32,
    pub(crate) mem_lower: u32,
    pub(crate) mem_upper: u32,
    pub(crate) cmdline: u32,
    pub(crate) mods_count: u32,
    pub(crate) mods_addr: u32,
    pub(crate) mmap_length: u32,
    pub(crate) mmap_addr: u32,
    pub(crate) boot_loader_name: u32,
}

macro_rules! info {
    ($($use:tt)*) => {
        kx_fields::fields!($($use)* {
            flags: u32 @ 0,
            mem_lower: u32 @ 4,
            mem_upper: u32 @ 8,
            cmdline: u32 @ 16,
            mods_count: u32 @ 20,
            mods_addr: u32 @ 24,
            mmap_length: u32 @ 44,
            mmap_addr: u32 @ 48,
            boot_loader_name: u32 @ 64,
        })
    };
}

impl Info {
    #[tactic(auto, unfolding(crate::specs::Info::info_text))]
    fn block(self) -> Block<88>
        ensures { result ≡ info_text self }
    {
        let mut block = Block::zeros();
        info!(put block, self);
        block
    }
}

/// The places of the parts, as addresses.
#[derive(Clone, Copy)]
pub(crate) struct Places {
    pub(crate) map: u64,
    pub(crate) modules: u64,
    pub(crate) command: u64,
    pub(crate) name: u64,
    pub(crate) texts: u64,
}

impl Places {
    /// Where the parts stand of information at `at` with so many rows, modules and bytes of the command.
    fn new(at: u64, rows: usize, modules: usize, command: usize) -> Places
        requires { name_place at rows modules command < 2 ^ 32 }
        ensures { result ≡ places_of at rows modules command }
    {
        let map = at + INFO;
        let table = map + ROW * rows as u64;
        let text = table + MODULE * modules as u64;
        let name = text + command as u64 + 1;
        Places {
            map,
            modules: table,
            command: text,
            name,
            texts: name + NAME.len() as u64 + 1,
        }
    }
}

impl Info {
    /// The structure for parts at these places.
    fn new(place: Places, rows: &[Row], modules: usize) -> Info
        requires name { place.name < 2 ^ 32 }
        requires rising { AreRising place (length rows.now) modules }
        ensures { result ≡ info_of place rows.now modules }
    {
        Info {
            flags: 0x24d,
            mem_lower: mem_lower(rows),
            mem_upper: mem_upper(rows),
            cmdline: place.command as u32,
            mods_count: modules as u32,
            mods_addr: place.modules as u32,
            mmap_length: (ROW * rows.len() as u64) as u32,
            mmap_addr: place.map as u32,
            boot_loader_name: place.name as u32,
        }
    }
}

/// How many bytes the information has with so many rows, a command of so many bytes and these modules, or 2^64 - 1 where
/// this is more.
pub fn info_length(rows: usize, command: usize, modules: &[Placed]) -> u64
    ensures { result ≡ min (2 ^ 64 - 1) (info_size rows command modules.now) }
{
    let table = u128::from(ROW) * rows as u128 + u128::from(MODULE) * modules.len() as u128;
    let names = command as u128 + NAME.len() as u128 + 2;
    let all = u128::from(INFO) + table + names + u128::from(texts_size(modules));
    all.min(u128::from(u64::MAX)) as u64
}

/// The information at the address `at` (Multiboot Specification 0.6.96, section 3.3): the structure, the rows of the map,
/// the module table, the command, this loader's name and the modules' texts, without gaps.
pub fn info_bytes(
    alloc: Global,
    at: u64,
    rows: &[Row],
    command: &[u8],
    modules: &[Placed],
) -> Result<Vec<u8>, AllocError>
    requires { IsInReach at rows.now command.now modules.now }
    ensures exact { IfOk result (λ v. v.items ≡ info at rows.now command.now modules.now) }
    ensures length { IfOk result
        (λ v. length v.items ≡ info_length_of rows.now command.now modules.now) }
{
    let place = Places::new(at, rows.len(), modules.len(), command.len());
    let room = info_length(rows.len(), command.len(), modules);
    let mut out = Vec::with_capacity(alloc, room as usize)?;
    out.extend_from_slice(Info::new(place, rows, modules.len()).block().bytes())?;
    put_rows(&mut out, rows)?;
    put_module_table(&mut out, modules, place.texts)?;
    put_text(&mut out, command)?;
    put_text(&mut out, NAME)?;
    put_texts(&mut out, modules)?;
    Ok(out)
}
