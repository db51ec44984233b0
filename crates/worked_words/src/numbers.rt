//! Numbers in words: which texts have their form, and which number they are.

ghost use Rattle.std.specs.Prelude.{◌≡◌, Some, None, Ok, Err, codes, true, false};
ghost use Rattle.kexec_words.specs.Numbers.{is_number, number_of, hex_of, page_address_of, is_pool_limit, pool_limit_of, first_past, steps_of, sample_of, is_headers_address, headers_address_of, core_address_of};
ghost use Rattle.command_table.specs.declared.faults.Which.TheVariants as which;

/// A hexadecimal number has 1 to 16 digits, of either case, and the first digit is the highest.
pub fn hexadecimal_numbers()
    ensures low_digits { hex_of (codes "0123456789") ≡ Some 0x123456789 }
    ensures letters { hex_of (codes "abcdef") ≡ Some 0xabcdef }
    ensures capitals { hex_of (codes "ABCDEF") ≡ Some 0xabcdef }
    ensures zero { hex_of (codes "0") ≡ Some 0 }
    ensures leading_zeros { hex_of (codes "0000000000000010") ≡ Some 16 }
    ensures greatest { hex_of (codes "ffffffffffffffff") ≡ Some 18446744073709551615 }
    ensures no_digit { hex_of (codes "") ≡ None }
    ensures seventeen_digits { hex_of (codes "00000000000000010") ≡ None }
    ensures prefix { hex_of (codes "0x10") ≡ None }
    ensures plus { hex_of (codes "+10") ≡ None }
    ensures minus { hex_of (codes "-10") ≡ None }
    ensures space { hex_of (codes "10 ") ≡ None }
{}

/// The characters before 0 and behind 9, before A and behind F, and before a and behind f are no digits.
pub fn characters_beside_the_digits()
    ensures before_0 { is_number 16 16 (codes "/") ≡ false }
    ensures behind_9 { is_number 16 16 (codes ":") ≡ false }
    ensures before_capital_a { is_number 16 16 (codes "@") ≡ false }
    ensures behind_capital_f { is_number 16 16 (codes "G") ≡ false }
    ensures before_a { is_number 16 16 (codes "`") ≡ false }
    ensures behind_f { is_number 16 16 (codes "g") ≡ false }
    ensures behind_a_digit { is_number 16 16 (codes "1g") ≡ false }
    ensures digits { is_number 16 16 (codes "09AFaf") ≡ true }
{}

/// A decimal number has no letters, and at most as many digits as are allowed.
pub fn decimal_numbers()
    ensures digits { number_of 10 10 (codes "1234567890") ≡ Some 1234567890 }
    ensures too_many { number_of 10 9 (codes "1234567890") ≡ None }
    ensures letter { number_of 10 9 (codes "1a") ≡ None }
    ensures colon { number_of 10 9 (codes ":") ≡ None }
    ensures none { number_of 10 9 (codes "") ≡ None }
{}

/// The address of a page is a multiple of 4,096 below 2^46.
pub fn page_addresses()
    ensures first { page_address_of (codes "0") ≡ Some 0 }
    ensures second { page_address_of (codes "1000") ≡ Some 4096 }
    ensures inside { page_address_of (codes "1001") ≡ None }
    ensures half { page_address_of (codes "800") ≡ None }
    ensures last { page_address_of (codes "3ffffffff000") ≡ Some 0x3fff_ffff_f000 }
    ensures past_the_last { page_address_of (codes "400000000000") ≡ None }
    ensures no_number { page_address_of (codes "page") ≡ None }
{}

/// A limit of the pool is a multiple of 4,096 up to 2^46 itself, and past 2^46 there is no page.
pub fn limits_of_the_pool()
    ensures zero { is_pool_limit 0 ≡ true }
    ensures page { is_pool_limit 0x10_0000 ≡ true }
    ensures inside { is_pool_limit 0x10_0001 ≡ false }
    ensures half { is_pool_limit 0x800 ≡ false }
    ensures greatest { is_pool_limit 0x4000_0000_0000 ≡ true }
    ensures past_the_greatest { is_pool_limit 0x4000_0000_1000 ≡ false }
    ensures in_digits { pool_limit_of (codes "100000") ≡ Some 0x10_0000 }
    ensures inside_in_digits { pool_limit_of (codes "100001") ≡ None }
    ensures past_in_digits { pool_limit_of (codes "400000001000") ≡ None }
    ensures no_number { pool_limit_of (codes "limit") ≡ None }
    ensures first_page { first_past 0 ≡ Some 0 }
    ensures page_past { first_past 0x10_0000 ≡ Some 0x100 }
    ensures last_page { first_past 0x3fff_ffff_f000 ≡ Some 0x3_ffff_ffff }
    ensures no_page { first_past 0x4000_0000_0000 ≡ None }
{}

/// A number of steps has 1 to 9 digits and is at most 100,000,000.
pub fn numbers_of_steps()
    ensures zero { steps_of (codes "0") ≡ Some 0 }
    ensures leading_zeros { steps_of (codes "000000007") ≡ Some 7 }
    ensures greatest { steps_of (codes "100000000") ≡ Some 100000000 }
    ensures past_the_greatest { steps_of (codes "100000001") ≡ None }
    ensures ten_digits { steps_of (codes "0000000007") ≡ None }
    ensures letter { steps_of (codes "a") ≡ None }
{}

/// The number of a sample has 1 to 18 digits.
pub fn numbers_of_samples()
    ensures zero { sample_of (codes "0") ≡ Ok 0 }
    ensures greatest { sample_of (codes "999999999999999999") ≡ Ok 999999999999999999 }
    ensures nineteen_digits { sample_of (codes "0000000000000000001") ≡ Err which.Number }
    ensures letter { sample_of (codes "1f") ≡ Err which.Number }
    ensures none { sample_of (codes "") ≡ Err which.Number }
{}

/// The address of crash headers is a multiple of 8 below 2^46.
pub fn addresses_of_crash_headers()
    ensures zero { is_headers_address 0 ≡ true }
    ensures eight { is_headers_address 8 ≡ true }
    ensures four { is_headers_address 4 ≡ false }
    ensures greatest { is_headers_address 0x3fff_ffff_fff8 ≡ true }
    ensures past_the_greatest { is_headers_address 0x4000_0000_0000 ≡ false }
    ensures in_digits { headers_address_of (codes "5fff008") ≡ Some 0x5ff_f008 }
    ensures inside_in_digits { headers_address_of (codes "5fff00c") ≡ None }
    ensures no_number { headers_address_of (codes "5fff00x") ≡ None }
    ensures word { core_address_of (codes "10") ≡ Ok 16 }
    ensures refusal { core_address_of (codes "14") ≡ Err which.Address }
{}
