//! Memory maps: what their lines say, and the first refusals.

ghost use Rattle.std.specs.Prelude.{◌≡◌, ◌∷◌, [], Some, Ok, Err, map, codes};
ghost use Rattle.kx_pages.specs.Spans.{pages, in_spans};
ghost use Rattle.memory_map.specs.Maps.{is_ram, reserved_area, crash_rows, core_ranges};
ghost use Rattle.memory_map.specs.Text.{map_reading};
ghost use Rattle.memory_map.specs.declared.fault.MapFault.TheVariants as faults;
ghost use Rattle.worked_examples.specs.Maps.{map_text, map_named, map_ram, ram_borders};

/// The map of a machine with 4 GiB of memory: its lines, the area for a crash kernel, the rows that a crash kernel gets,
/// the memory that a crash dump covers, and at the borders of its RAM which pages are RAM.
pub fn map_with_a_crash_area()
    ensures read { map_reading map_text ≡ Ok map_named }
    ensures area { reserved_area map_named ≡ Some (record { first = 0x2d000; count = 65536 }) }
    ensures crash_rows { crash_rows map_named
        ≡ record { start = 0x2d000000; size = 0x10000000; kind = 1 }
        ∷ record { start = 0xa0000; size = 0x60000; kind = 2 }
        ∷ record { start = 0xbffdf000; size = 0x21000; kind = 2 } ∷ [] }
    ensures core_ranges { core_ranges map_named
        ≡ record { start = 0x1000; size = 0x9f000; kind = 1 }
        ∷ record { start = 0x100000; size = 0x2cf00000; kind = 1 }
        ∷ record { start = 0x3d000000; size = 0x82fdf000; kind = 1 }
        ∷ record { start = 0x1_0000_0000; size = 0x4000_0000; kind = 1 } ∷ [] }
    ensures total { pages map_ram ≡ 982910 }
    ensures ram { map (in_spans map_ram) ram_borders ≡ map (is_ram map_named) ram_borders }
{}

/// The first refusal of a map: a line that goes backwards, RAM that meets earlier RAM, and a map without a whole page of
/// RAM.
pub fn spoiled_maps()
    ensures backwards { map_reading (codes "00001000-00000fff : System RAM\n")
        ≡ Err (faults.Backwards 1) }
    ensures overlap { map_reading (codes "0-fff : System RAM\n0-7ff : System RAM\n")
        ≡ Err (faults.RamOverlaps 2) }
    ensures half_a_page { map_reading (codes "0-7ff : System RAM\n") ≡ Err faults.NoRam }
    ensures empty { map_reading [] ≡ Err faults.NoRam }
    ensures empty_line { map_reading (codes "0-fff : System RAM\n\n") ≡ Err (faults.BadLine 2) }
{}
