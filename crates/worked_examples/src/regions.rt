//! The test of a purgatory's regions.

ghost use Rattle.std.specs.Prelude.{◌≡◌, ◌++◌, ◌∷◌, [], Some, false, length, map, replicate, true};
ghost use Rattle.byteorder.specs.Endian.{little_bytes};
ghost use Rattle.purgatory_link.specs.Regions.{region_table};
ghost use Rattle.purgatory_link.specs.RegionTest.{first_wild_region, is_wild, passes, region, regions, regions_in, test};
ghost use Rattle.purgatory_link.specs.declared.region_test.RegionTest.TheVariants as answers;
ghost use Rattle.worked_examples.specs.Kernels.{three_bytes};
ghost use Rattle.worked_examples.specs.Records.{three_bytes_digest};
ghost use Rattle.worked_examples.specs.Regions.{two_rows, with_digest};

/// The bytes of the regions have the digest, or another one; a table that passes the limit of memory is not read.
pub fn test_of_a_region()
    ensures same { test (with_digest three_bytes_digest) 0x3000 0x3100 ≡ answers.Same }
    ensures differs { test (with_digest (replicate 32 0)) 0x3000 0x3100
        ≡ answers.Differs three_bytes_digest (replicate 32 0) }
    ensures wild_table { test (with_digest three_bytes_digest) 0x3fff_ffff_fff8 0x3100
        ≡ answers.Wild 16 }
    ensures wild_region { test (λ p. replicate 4096 0xff) 0x3000 0x3100 ≡ answers.Wild 0 }
{}

/// A row of the table is the address of a segment and how much memory it takes; zeros follow.
pub fn table_of_regions()
    ensures bytes { region_table three_bytes
        ≡ little_bytes 8 0x2000 ++ (little_bytes 8 0x1000 ++ replicate 240 0) }
    ensures length { length (region_table three_bytes) ≡ 256 }
{}

/// A table has 16 rows, each an address and a length. The bytes of two regions, of which the first goes over the border of
/// two pages.
pub fn rows_of_a_table()
    ensures first { region two_rows 0 ≡ record { start = 0x2fff; size = 2 } }
    ensures second { region two_rows 1 ≡ record { start = 0x5000; size = 1 } }
    ensures last { region two_rows 15 ≡ record { start = 0; size = 0 } }
    ensures rows { length (regions two_rows) ≡ 16 }
    ensures bytes { regions_in (λ p. replicate 4096 p) (regions two_rows) ≡ 2 ∷ 3 ∷ 5 ∷ [] }
{}

/// Regions at their limits: one that ends at 2^46 and one a byte longer, and regions of 2^28 bytes together, and a byte more.
pub fn limits_of_regions()
    ensures ends { map (passes 0x3fff_ffff_f000) (0x1000 ∷ 0x1001 ∷ []) ≡ false ∷ true ∷ [] }
    ensures total { map
        (is_wild
        (record { start = 0x1000; size = 0x800_0000 }
        ∷ record { start = 0x1000_0000; size = 0x800_0000 } ∷ record { start = 0; size = 1 } ∷ []))
        (0 ∷ 1 ∷ 2 ∷ []) ≡ false ∷ false ∷ true ∷ [] }
    ensures behind_the_rows { is_wild (record { start = 0x1000; size = 0x800_0000 } ∷ []) 1
        ≡ false }
    ensures first { first_wild_region
        (record { start = 0x1000; size = 0x800_0000 }
        ∷ record { start = 0x1000_0000; size = 0x800_0000 } ∷ record { start = 0; size = 1 } ∷ [])
        ≡ Some 2 }
{}
