//! The symbols of a linked purgatory.

ghost use Rattle.std.specs.Prelude.{◌≡◌, ◌+◌, ◌≤◌, length, IfOk};
ghost use Rattle.kexec_plan.specs.Purgatory.{symbol_place, symbol_address, symbols_of, registers_text};
ghost use Rattle.kexec_plan.specs.inner.Purgatory.{HasSymbols};

use kx_fields::Block;
use kx_pages::Start;
use purgatory_link::{DIGEST, LinkFault, Linked, PurgatorySymbol, REGIONS, REGISTERS, START};

/// The addresses of a purgatory's symbols.
#[derive(Clone, Copy)]
pub(crate) struct Symbols {
    /// The registers of the new kernel: 136 bytes.
    pub(crate) regs: u64,
    /// The table of regions: 256 bytes.
    pub(crate) regions: u64,
    /// Their digest: 32 bytes.
    pub(crate) digest: u64,
    /// Where the purgatory starts.
    pub(crate) start: u64,
}

// The address of a symbol of so many bytes, which lie in the linked bytes.
#[tactic(auto, unfolding(crate::specs::Purgatory::symbol_place))]
fn symbol_place(linked: &Linked, name: &[u8], size: u64) -> Result<u64, LinkFault>
    ensures exact { result ≡ symbol_place linked.now name.now size }
    ensures from { IfOk result (λ a. linked.now.base ≤ a) }
    ensures to { IfOk result (λ a. a + size ≤ linked.now.base + length linked.now.bytes) }
{
    let Some((address, found)) = linked.symbol(name) else {
        return Err(LinkFault::NoSymbol {
            symbol: PurgatorySymbol::called(name),
        });
    };
    if size != found {
        return Err(LinkFault::WrongSize { found });
    }
    if !linked.is_inside(address, found) {
        return Err(LinkFault::WrongSize { found });
    }
    Ok(address)
}

// The address of a symbol.
#[tactic(auto, unfolding(crate::specs::Purgatory::symbol_address))]
fn symbol_address(linked: &Linked, name: &[u8]) -> Result<u64, LinkFault>
    ensures { result ≡ symbol_address linked.now name.now }
{
    match linked.symbol(name) {
        Some((address, _)) => Ok(address),
        None => Err(LinkFault::NoSymbol {
            symbol: PurgatorySymbol::called(name),
        }),
    }
}

impl Symbols {
    /// The symbols of a linked purgatory, or the first that is none.
    #[tactic(auto, unfolding(crate::specs::Purgatory::symbols_of))]
    pub(crate) fn find(linked: &Linked) -> Result<Symbols, LinkFault>
        ensures exact { result ≡ symbols_of linked.now }
        ensures inside { IfOk result (HasSymbols linked.now.base (length linked.now.bytes)) }
    {
        let regs = symbol_place(linked, REGISTERS, 136)?;
        let regions = symbol_place(linked, REGIONS, 256)?;
        let digest = symbol_place(linked, DIGEST, 32)?;
        let start = symbol_address(linked, START)?;
        Ok(Symbols {
            regs,
            regions,
            digest,
            start,
        })
    }
}

/// The registers of the new kernel, as the purgatory finds them.
#[tactic(auto, unfolding(crate::specs::Purgatory::registers_text))]
pub(crate) fn registers_of(start: Start) -> Block<136>
    ensures { result ≡ registers_text start }
{
    let mut block = Block::zeros();
    kx_fields::fields!(put block, start {
        rax: u64 @ 0,
        rbx: u64 @ 24,
        rsi: u64 @ 48,
        entry: u64 @ 128,
    });
    block
}
