//! Page numbers.

ghost use Rattle.std.specs.Prelude.{◌≡◌, ◌*◌, ◌/◌, ◌<◌, ◌^◌, ◌↔◌, IsSome, IfSome};
ghost use Rattle.kx_pages.specs.Numbers.{is_page_address};
ghost use Rattle.kx_pages.specs.inner.Numbers.{IsPage};

use std::marker::Model;

/// How many pages there are: 2^34, as addresses lie below 2^46.
pub const PAGE_LIMIT: u64 = 0x4_0000_0000;

/// Addresses of memory lie below this, 2^46 (this project's own limit).
pub const ADDRESS_LIMIT: u64 = 0x4000_0000_0000;

/// The bytes of a page.
pub const PAGE_SIZE: u64 = 4096;

/// The bytes of a page of zeros: what a page reads as that nothing was put into.
pub static ZERO_PAGE: [u8; 4096] = [0; 4096];

/// A page. Contracts see its number, which is below 2^34.
#[derive(Clone, Copy, Debug, PartialEq, Eq, PartialOrd, Ord)]
pub struct Page {
    number: u64,
}

impl Model for Page {
    ghost use Rattle.std.specs.Prelude.{ℕ, ◌<◌, ◌^◌};

    ghost Value = { ℕ };

    ghost view = { λ p. p.number };

    ghost invariant = { λ p. p.number < 2 ^ 34 };

    ghost inverse = { λ n. record { number = n } };
}

impl Page {
    /// The page of this number. None exactly where it is 2^34 or more.
    pub fn new(n: u64) -> Option<Page>
        ensures valid { IsSome result ↔ (n < 2 ^ 34) }
        ensures value { IfSome result (λ p. p ≡ n) }
    {
        if n < PAGE_LIMIT {
            Some(Page { number: n })
        } else {
            None
        }
    }

    /// The page of this number, which is known to be one.
    pub fn from_number(number: u64) -> Page
        requires { IsPage number }
        ensures { result ≡ number }
    {
        Page { number }
    }

    /// The page that has this address. The address is known to be below 2^46.
    pub fn from_address(address: u64) -> Page
        requires { address < 2 ^ 46 }
        ensures { result ≡ address / 4096 }
    {
        Page::from_number(address / PAGE_SIZE)
    }

    /// The page's number.
    pub fn number(self) -> u64
        ensures value { result ≡ self }
        ensures valid { IsPage self }
    {
        self.number
    }

    /// The address of the page's first byte.
    pub fn address(self) -> u64
        ensures value { result ≡ 4096 * self }
        ensures valid { IsPage self }
    {
        self.number * PAGE_SIZE
    }
}

/// Whether a page starts at this address: a multiple of 4,096 below 2^46.
pub fn is_page_address(address: u64) -> bool
    ensures { result ≡ is_page_address address }
{
    address.is_multiple_of(PAGE_SIZE) && address < ADDRESS_LIMIT
}
