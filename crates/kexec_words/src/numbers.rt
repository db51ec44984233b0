//! Numbers and types in words.

ghost use Rattle.std.specs.Prelude.{◌≡◌, ◌≤◌, ◌<◌, ◌^◌};
ghost use Rattle.kexec_words.specs.inner.Given.{text_in, given_values};
ghost use Rattle.kexec_words.specs.Meaning.{plan_numbers_by, trace_numbers_by};
ghost use Rattle.kexec_words.specs.Numbers.{number_of, hex_of, type_of, kept_of, address_of, pool_limit_of, first_past, below_of, page_address_of, swap_of, head_of, limit_of, sample_of, headers_address_of, core_address_of};

use crate::commands::Runs;
use crate::given::{Given, option_in, word_in};
use command_table::Which;
use kx_pages::{ADDRESS_LIMIT, PAGE_SIZE, Page, is_page_address};

const HEX_DIGITS: usize = 16;

const LIMIT_DIGITS: usize = 9;

const NUMBER_DIGITS: usize = 18;

const MOST_STEPS: u64 = 100_000_000;

// What `--type` says.
#[derive(Clone, Copy)]
pub(crate) enum TypeWord {
    Auto,
    Raw,
    Elf,
    Bzimage,
    Multiboot,
}

// The type and the numbers among the options of `boot` and `load`.
#[derive(Clone, Copy)]
pub(crate) struct PlanNumbers {
    pub(crate) kind: TypeWord,
    pub(crate) kept: Option<Runs>,
    pub(crate) at: Option<u64>,
    pub(crate) entry: Option<u64>,
    pub(crate) below: Option<Page>,
}

// The numbers of `trace`.
#[derive(Clone, Copy)]
pub(crate) struct TraceNumbers {
    pub(crate) swap: Option<u64>,
    pub(crate) head: u64,
    pub(crate) limit: u64,
}

// The number, where the text is 1 to `most` digits in this base.
fn number_in(text: &str, radix: u32, most: usize) -> Option<u64>
    requires radix { (2 ≤ radix) × (radix ≤ 36) }
    requires fits { radix ^ most ≤ 2 ^ 64 }
    ensures { result ≡ number_of radix most text.now }
{
    if text.is_empty() || text.len() > most || text.as_bytes()[0] == b'+' {
        return None;
    }
    match u64::from_str_radix(text, radix) {
        Ok(number) => Some(number),
        Err(_) => None,
    }
}

fn hex_in(text: &str) -> Option<u64>
    ensures { result ≡ hex_of text.now }
{
    number_in(text, 16, HEX_DIGITS)
}

fn type_in(text: Option<&str>) -> Result<TypeWord, Which>
    ensures { result ≡ type_of (text_in text.entry) }
{
    match text {
        None => Ok(TypeWord::Auto),
        Some("raw") => Ok(TypeWord::Raw),
        Some("elf") => Ok(TypeWord::Elf),
        Some("bzimage") => Ok(TypeWord::Bzimage),
        Some("multiboot") => Ok(TypeWord::Multiboot),
        Some(_) => Err(Which::Type),
    }
}

fn kept_in(text: Option<&str>) -> Result<Option<Runs>, Which>
    ensures { result ≡ kept_of (text_in text.entry) }
{
    match text {
        None => Ok(None),
        Some("1") => Ok(Some(Runs::Once)),
        Some("2") => Ok(Some(Runs::Twice)),
        Some(_) => Err(Which::Kept),
    }
}

pub(crate) fn address_in(text: Option<&str>, which: Which) -> Result<Option<u64>, Which>
    ensures { result ≡ address_of which (text_in text.entry) }
{
    match text {
        Some(text) => Ok(Some(hex_in(text).ok_or(which)?)),
        None => Ok(None),
    }
}

fn pool_limit_in(text: &str) -> Option<u64>
    ensures { result ≡ pool_limit_of text.now }
{
    match hex_in(text) {
        Some(limit) if limit.is_multiple_of(PAGE_SIZE) && limit <= ADDRESS_LIMIT => Some(limit),
        _ => None,
    }
}

// The first page past a limit. All pages lie below 2^46.
fn first_past(limit: u64) -> Option<Page>
    ensures { result ≡ first_past limit }
{
    if limit < ADDRESS_LIMIT {
        Some(Page::from_address(limit))
    } else {
        None
    }
}

fn below_in(text: Option<&str>) -> Result<Option<Page>, Which>
    ensures { result ≡ below_of (text_in text.entry) }
{
    match text {
        Some(text) => Ok(first_past(pool_limit_in(text).ok_or(Which::Below)?)),
        None => Ok(None),
    }
}

fn page_address_in(text: &str) -> Option<u64>
    ensures { result ≡ page_address_of text.now }
{
    match hex_in(text) {
        Some(address) if is_page_address(address) => Some(address),
        _ => None,
    }
}

fn swap_in(text: Option<&str>) -> Result<Option<u64>, Which>
    ensures { result ≡ swap_of (text_in text.entry) }
{
    match text {
        Some(text) => Ok(Some(page_address_in(text).ok_or(Which::Swap)?)),
        None => Ok(None),
    }
}

fn head_in(text: &str) -> Result<u64, Which>
    ensures { result ≡ head_of text.now }
{
    hex_in(text).ok_or(Which::Head)
}

fn limit_in(text: &str) -> Result<u64, Which>
    ensures { result ≡ limit_of text.now }
{
    match number_in(text, 10, LIMIT_DIGITS) {
        Some(limit) if limit <= MOST_STEPS => Ok(limit),
        _ => Err(Which::Limit),
    }
}

// The number of `sample`.
pub(crate) fn sample_number(text: &str) -> Result<u64, Which>
    ensures { result ≡ sample_of text.now }
{
    number_in(text, 10, NUMBER_DIGITS).ok_or(Which::Number)
}

fn headers_address_in(text: &str) -> Option<u64>
    ensures { result ≡ headers_address_of text.now }
{
    match hex_in(text) {
        Some(address) if address.is_multiple_of(8) && address < ADDRESS_LIMIT => Some(address),
        _ => None,
    }
}

// The address of `core`.
pub(crate) fn core_address(text: &str) -> Result<u64, Which>
    ensures { result ≡ core_address_of text.now }
{
    headers_address_in(text).ok_or(Which::Address)
}

// The type and the numbers, or the first that has not its form.
pub(crate) fn plan_numbers(given: &[Given<'_>], kept: Option<&str>) -> Result<PlanNumbers, Which>
    ensures { result ≡ plan_numbers_by (text_in kept.entry) (given_values given.now) }
{
    Ok(PlanNumbers {
        kind: type_in(option_in(given, "type"))?,
        kept: kept_in(kept)?,
        at: address_in(option_in(given, "at"), Which::At)?,
        entry: address_in(option_in(given, "entry"), Which::Entry)?,
        below: below_in(option_in(given, "below"))?,
    })
}

// The numbers of `trace`, or the first that has not its form.
pub(crate) fn trace_numbers(given: &[Given<'_>]) -> Result<TraceNumbers, Which>
    ensures { result ≡ trace_numbers_by (given_values given.now) }
{
    Ok(TraceNumbers {
        swap: swap_in(option_in(given, "swap"))?,
        head: head_in(word_in(given, "HEAD"))?,
        limit: limit_in(word_in(given, "LIMIT"))?,
    })
}
