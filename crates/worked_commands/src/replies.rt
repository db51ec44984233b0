//! The replies of `drill` as lines.

ghost use Rattle.std.specs.Prelude.{◌≡◌, ◌∷◌, [], codes};
ghost use Rattle.image_slots.specs.declared.reply.Reply.TheVariants as replies;
ghost use Rattle.load_commands.specs.Replies.{reply_line, reply_lines, segments_fault};
ghost use Rattle.segments.specs.declared.fault.SegFault.TheVariants as faults;

/// The line of each reply: the event's number in decimal, and then what is replied, a page in hexadecimal.
pub fn lines_of_replies()
    ensures memory { reply_line 10 replies.Memory ≡ codes "10 memory\n" }
    ensures done { reply_line 11 replies.Done ≡ codes "11 done\n" }
    ensures gone { reply_line 12 replies.Gone ≡ codes "12 gone\n" }
    ensures busy { reply_line 13 (replies.Busy 29) ≡ codes "13 busy 29\n" }
    ensures opened { reply_line 14 replies.Opened ≡ codes "14 opened\n" }
    ensures no_area { reply_line 15 replies.NoArea ≡ codes "15 no-area\n" }
    ensures not_open { reply_line 16 replies.NotOpen ≡ codes "16 not-open\n" }
    ensures written { reply_line 17 replies.Written ≡ codes "17 written\n" }
    ensures not_written { reply_line 18 replies.NotWritten ≡ codes "18 not-written\n" }
    ensures segments { reply_line 19 (replies.BadSegments (faults.Overlap 2 1))
        ≡ codes "19 segments Overlap\n" }
    ensures no_pages { reply_line 20 (replies.NoPages 30 41) ≡ codes "20 no-pages 30 41\n" }
    ensures no_image { reply_line 21 replies.NoImage ≡ codes "21 no-image\n" }
    ensures touched { reply_line 22 (replies.Touched 0x1f) ≡ codes "22 touched 1f\n" }
{}

/// The replies of several events are numbered one after another.
pub fn replies_in_their_order()
    ensures none { reply_lines 1 [] ≡ [] }
    ensures numbered { reply_lines 9 (replies.Done ∷ replies.Gone ∷ replies.Busy 4 ∷ [])
        ≡ codes "9 done\n10 gone\n11 busy 4\n" }
{}

/// The names of the faults of segments.
pub fn names_of_segment_faults()
    ensures memory { segments_fault faults.Memory ≡ codes "Memory" }
    ensures none { segments_fault faults.NoSegments ≡ codes "NoSegments" }
    ensures many { segments_fault faults.TooMany ≡ codes "TooMany" }
    ensures address { segments_fault (faults.BadAddress 1) ≡ codes "BadAddress" }
    ensures overlap { segments_fault (faults.Overlap 2 1) ≡ codes "Overlap" }
    ensures full { segments_fault (faults.TooFull 1) ≡ codes "TooFull" }
    ensures half { segments_fault faults.HalfOfMemory ≡ codes "HalfOfMemory" }
    ensures outside { segments_fault (faults.OutsideReserved 1) ≡ codes "OutsideReserved" }
    ensures no_ram { segments_fault (faults.NotRam 1) ≡ codes "NotRam" }
    ensures large { segments_fault (faults.TooLarge 65537) ≡ codes "TooLarge" }
{}
