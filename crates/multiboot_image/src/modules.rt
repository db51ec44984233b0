//! Modules: their table and their texts.

ghost use Rattle.std.specs.Prelude.{◌≡◌, ◌+◌, ◌-◌, ◌^◌, ◌++◌, ◌<◌, min, OnOk};
ghost use Rattle.multiboot_image.specs.Modules.{module_text, module_bytes, module_table, texts, texts_size, with_nul};
ghost use Rattle.multiboot_image.specs.inner.Modules.{AreBelow};

use kx_fields::Block;
use std::alloc::AllocError;
use std::marker::Model;

/// A module that is in memory: `length` bytes from the address `start` on, and the text that the kernel gets with it
/// (Multiboot Specification 0.6.96, section 3.3, mods_addr).
#[derive(Drop)]
pub struct Placed {
    pub start: u64,
    pub length: u64,
    pub text: Vec<u8>,
}

impl Model for Placed {
    ghost use Rattle.multiboot_image.specs.Modules.{PlacedModule};

    ghost Value = { PlacedModule };

    ghost view = { λ p. record { start = p.start; size = p.length; text = p.text.items } };
}

/// A row of the module table.
#[derive(Clone, Copy)]
pub(crate) struct ModuleRow {
    pub(crate) mod_start: u32,
    pub(crate) mod_end: u32,
    pub(crate) string: u32,
    pub(crate) reserved: u32,
}

macro_rules! module_row {
    ($($use:tt)*) => {
        kx_fields::fields!($($use)* {
            mod_start: u32 @ 0,
            mod_end: u32 @ 4,
            string: u32 @ 8,
            reserved: u32 @ 12,
        })
    };
}

impl ModuleRow {
    #[tactic(auto, unfolding(crate::specs::Modules::module_text))]
    fn block(self) -> Block<16>
        ensures { result ≡ module_text self }
    {
        let mut block = Block::zeros();
        module_row!(put block, self);
        block
    }
}

/// Puts the row of a placed module behind the others, whose text is at the address `text`.
fn put_module(out: &mut Vec<u8>, placed: &Placed, text: u64) -> Result<(), AllocError>
    requires stop { placed.now.start + placed.now.size < 2 ^ 32 }
    requires text { text < 2 ^ 32 }
    ensures { OnOk result (out.new.items ≡ out.old.items ++ module_bytes text placed.now) }
{
    let row = ModuleRow {
        mod_start: placed.start as u32,
        mod_end: (placed.start + placed.length) as u32,
        string: text as u32,
        reserved: 0,
    };
    out.extend_from_slice(row.block().bytes())?;
    Ok(())
}

/// Puts the module table behind the others, whose texts begin at the address `texts`.
pub(crate) fn put_module_table(
    out: &mut Vec<u8>,
    modules: &[Placed],
    texts: u64,
) -> Result<(), AllocError>
    requires { AreBelow texts modules.now }
    ensures { OnOk result (out.new.items ≡ out.old.items ++ module_table texts modules.now) }
{
    let mut text = texts;
    for placed in modules {
        put_module(out, placed, text)?;
        text += placed.text.len() as u64 + 1;
    }
    Ok(())
}

/// Puts a text and a NUL behind the others.
pub(crate) fn put_text(out: &mut Vec<u8>, text: &[u8]) -> Result<(), AllocError>
    ensures { OnOk result (out.new.items ≡ out.old.items ++ with_nul text.now) }
{
    out.extend_from_slice(text)?;
    out.push(0)?;
    Ok(())
}

/// Puts the texts of the modules behind the others.
pub(crate) fn put_texts(out: &mut Vec<u8>, modules: &[Placed]) -> Result<(), AllocError>
    ensures { OnOk result (out.new.items ≡ out.old.items ++ texts modules.now) }
{
    for placed in modules {
        put_text(out, &placed.text)?;
    }
    Ok(())
}

/// The bytes of the texts of these modules, each with its NUL, or 2^64 - 1 where there are more.
pub(crate) fn texts_size(modules: &[Placed]) -> u64
    ensures { result ≡ min (2 ^ 64 - 1) (texts_size modules.now) }
{
    let mut total: u64 = 0;
    for placed in modules {
        total = total
            .saturating_add(placed.text.len() as u64)
            .saturating_add(1);
    }
    total
}
