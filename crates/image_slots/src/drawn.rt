//! The pages that are drawn for a load.

ghost use Rattle.std.specs.Prelude.{◌≡◌, ℕ, length, IfOk};
ghost use Rattle.std.specs.Ordering.{nat_cmp};
ghost use Rattle.std.specs.BTreeSet.{contains};
ghost use Rattle.kx_pages.specs.Lists.{has};

use kx_pages::Page;
use std::alloc::{AllocError, Global};
use std::collections::BTreeSet;
use std::marker::Model;

/// Pages in the order in which they were drawn. Contracts see this list. Whether a page is one of them is one look-up in
/// the set that is kept beside the list.
#[derive(Drop)]
pub(crate) struct DrawnPages {
    list: Vec<Page>,
    set: BTreeSet<Page>,
}

impl Model for DrawnPages {
    ghost use Rattle.std.specs.Prelude.{◌≡◌, ℕ, List};
    ghost use Rattle.std.specs.Coded.{coded_ℕ, coded_list};
    ghost use Rattle.std.specs.Ordering.{nat_cmp};
    ghost use Rattle.std.specs.BTreeSet.{contains};
    ghost use Rattle.kx_pages.specs.Lists.{has};

    ghost Value = { List ℕ };

    ghost coded = { coded_list coded_ℕ };

    ghost view = { λ d. d.list.items };

    ghost invariant = { λ d. (q : ℕ) → contains nat_cmp d.set q ≡ has q d.list.items };
}

// The set of these pages.
fn set_of(alloc: Global, list: &[Page]) -> Result<BTreeSet<Page>, AllocError>
    ensures { IfOk result (λ set. (q : ℕ) → contains nat_cmp set q ≡ has q list.now) }
{
    let mut set = BTreeSet::new(alloc);
    for page in list {
        set.insert(*page)?;
    }
    Ok(set)
}

impl DrawnPages {
    /// These pages, in this order.
    pub(crate) fn of(alloc: Global, list: Vec<Page>) -> Result<DrawnPages, AllocError>
        ensures { IfOk result (λ pages. pages ≡ list.items) }
    {
        let set = set_of(alloc, &list)?;
        Ok(DrawnPages { list, set })
    }

    /// The page is one of these.
    pub(crate) fn has(&self, page: Page) -> bool
        ensures { result ≡ has page self.now }
    {
        self.set.contains(&page)
    }

    /// How many they are.
    pub(crate) fn count(&self) -> u64
        ensures { result ≡ length self.now }
    {
        self.list.len() as u64
    }

    /// These pages in their order.
    pub(crate) fn as_slice(&self) -> &[Page]
        ensures { result.now ≡ self.now }
    {
        &self.list
    }
}
