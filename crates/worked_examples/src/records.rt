//! The file of a load record.

ghost use Rattle.std.specs.Prelude.{◌≡◌, ◌++◌, ◌∷◌, [], Ok, Err, length, take, drop, codes, map};
ghost use Rattle.byteorder.specs.Endian.{little_bytes};
ghost use Rattle.kx_fields.specs.Fields.{field};
ghost use Rattle.segments.specs.declared.fault.SegFault.TheVariants as segment_faults;
ghost use Rattle.load_record.specs.File.{head_of_record, record_file, record_reading, record_text};
ghost use Rattle.load_record.specs.Head.{head_text, version_of};
ghost use Rattle.load_record.specs.declared.fault.RecFault.TheVariants as faults;
ghost use Rattle.worked_examples.specs.Records.{kept_record, three_bytes_file, three_bytes_first, three_bytes_record};

/// The record of a kernel of three bytes has 155 bytes, and is read as it was written; so is one with context preserved.
/// Version 1 spells it in 123 bytes, which are read as the same record.
pub fn record_of_one_page()
    ensures bytes { record_file three_bytes_record ≡ three_bytes_file }
    ensures length { length three_bytes_file ≡ 155 }
    ensures read { record_reading three_bytes_file ≡ Ok three_bytes_record }
    ensures first_bytes { record_text (version_of three_bytes_first) three_bytes_record
        ≡ three_bytes_first }
    ensures first_length { length three_bytes_first ≡ 123 }
    ensures first_read { record_reading three_bytes_first ≡ Ok three_bytes_record }
    ensures kept { record_reading (record_file kept_record) ≡ Ok kept_record }
{}

/// The first refusal of a record: cut short in the head, in the digest or in the segment, longer, with another magic, kind,
/// mode, page or number of segments.
pub fn spoiled_records()
    ensures shorter { record_reading (take 154 three_bytes_file) ≡ Err (faults.Truncated 154) }
    ensures short_digest { record_reading (take 151 three_bytes_file)
        ≡ Err (faults.Truncated 151) }
    ensures short_head { record_reading (take 95 three_bytes_file) ≡ Err (faults.Truncated 95) }
    ensures longer { record_reading (three_bytes_file ++ 0 ∷ []) ≡ Err (faults.Trailing 155) }
    ensures first_shorter { record_reading (take 122 three_bytes_first)
        ≡ Err (faults.Truncated 122) }
    ensures first_longer { record_reading (three_bytes_first ++ 0 ∷ [])
        ≡ Err (faults.Trailing 123) }
    ensures magic { record_reading (codes "KXREC003" ++ drop 8 three_bytes_file)
        ≡ Err faults.BadMagic }
    ensures kind { record_reading
        (take 8 three_bytes_file ++ (little_bytes 4 2 ++ drop 12 three_bytes_file))
        ≡ Err (faults.BadKind 2) }
    ensures mode { record_reading
        (take 12 three_bytes_file ++ (little_bytes 4 2 ++ drop 16 three_bytes_file))
        ≡ Err (faults.BadMode 2) }
    ensures crash_kept { record_reading
        (take 8 three_bytes_file
        ++ (little_bytes 4 1 ++ (little_bytes 4 1 ++ drop 16 three_bytes_file)))
        ≡ Err (faults.BadMode 1) }
    ensures crash_control_page { record_reading
        (take 8 three_bytes_file ++ (little_bytes 4 1 ++ drop 12 three_bytes_file))
        ≡ Err faults.BadPage }
    ensures swap_page_without_need { record_reading
        (take 32 three_bytes_file ++ (little_bytes 8 0x11000 ++ drop 40 three_bytes_file))
        ≡ Err faults.BadPage }
    ensures no_segments { record_reading (take 88 three_bytes_file ++ little_bytes 8 0)
        ≡ Err (faults.Segments segment_faults.NoSegments) }
    ensures bad_address { record_reading
        (take 96 three_bytes_file ++ (little_bytes 8 0x2001 ++ drop 104 three_bytes_file))
        ≡ Err (faults.Segments (segment_faults.BadAddress 0)) }
{}

/// A segment whose bytes have another digest is refused before the rules and after trailing bytes.
pub fn changed_bytes()
    ensures last_byte { record_reading (take 154 three_bytes_file ++ codes "d")
        ≡ Err (faults.WrongDigest 0) }
    ensures digest { record_reading
        (take 120 three_bytes_file ++ 0xbb ∷ drop 121 three_bytes_file)
        ≡ Err (faults.WrongDigest 0) }
    ensures before_the_rules { record_reading
        (take 96 three_bytes_file
        ++ (little_bytes 8 0x2001 ++ (take 50 (drop 104 three_bytes_file) ++ codes "d")))
        ≡ Err (faults.WrongDigest 0) }
    ensures after_the_end { record_reading (take 154 three_bytes_file ++ codes "de")
        ≡ Err (faults.Trailing 155) }
{}

/// Each number of a record with context preserved at its place: kind and mode, and then head, control page, swap page, entry,
/// rax, rbx, rsi, table of regions, digest and the number of segments. Sixteen segments are read, and seventeen refused.
pub fn numbers_of_a_record()
    ensures kinds { map
        (λ place. field place 4
        (head_text (version_of three_bytes_file) (head_of_record kept_record))) (8 ∷ 12 ∷ [])
        ≡ 0 ∷ 1 ∷ [] }
    ensures numbers { map
        (λ place. field place 8
        (head_text (version_of three_bytes_file) (head_of_record kept_record)))
        (16 ∷ 24 ∷ 32 ∷ 40 ∷ 48 ∷ 56 ∷ 64 ∷ 72 ∷ 80 ∷ 88 ∷ [])
        ≡ 0x12002 ∷ 0x10000 ∷ 0x11000 ∷ 0x2000 ∷ 0xa ∷ 0xb ∷ 0xc ∷ 0xd ∷ 0xe ∷ 1 ∷ [] }
    ensures sixteen { record_reading (take 88 three_bytes_file ++ little_bytes 8 16)
        ≡ Err (faults.Truncated 96) }
    ensures seventeen { record_reading (take 88 three_bytes_file ++ little_bytes 8 17)
        ≡ Err (faults.Segments segment_faults.TooMany) }
{}
