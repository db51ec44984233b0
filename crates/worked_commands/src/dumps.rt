//! The lines of `dump`.

ghost use Rattle.std.specs.Prelude.{◌≡◌, ◌++◌, ◌∷◌, [], Some, None, codes};
ghost use Rattle.list_checker.specs.declared.fault.Why.TheVariants.{Flags, HeadKind, LinkAgain, PastLimit};
ghost use Rattle.kx_pages.specs.declared.item.Item.TheVariants.{Source};
ghost use Rattle.list_commands.specs.Dump.{head_fault, head_text, item_text, lines_of, segment_line, walk_text, word_line, word_lines};

/// The line of a word: its number in decimal, what it is, and the address in it. A word that is none has no line.
pub fn lines_of_words()
    ensures link { word_line 10 0x11002 ≡ codes "10 link 11000\n" }
    ensures destination { word_line 11 0xabc001 ≡ codes "11 destination abc000\n" }
    ensures source { word_line 12 0x12008 ≡ codes "12 source 12000\n" }
    ensures done { word_line 13 4 ≡ codes "13 done\n" }
    ensures done_with_an_address { word_line 14 0x5004 ≡ codes "14 done\n" }
    ensures two_flags { word_line 15 0x2009 ≡ [] }
    ensures item { item_text (Source 7) 0x9000 ≡ codes " source 9000\n" }
    ensures numbered { word_lines 9 (0x11002 ∷ 0x2001 ∷ 0x12008 ∷ 4 ∷ [])
        ≡ codes "9 link 11000\n10 destination 2000\n11 source 12000\n12 done\n" }
{}

/// The lines of a walk: of each word, or of those before the one that cannot be followed.
pub fn lines_of_walks()
    ensures whole { walk_text (0x11002 ∷ 0x2001 ∷ 0x12008 ∷ 4 ∷ []) None
        ≡ codes "0 link 11000\n1 destination 2000\n2 source 12000\n3 done\n" }
    ensures round { walk_text (0x11002 ∷ 0x2001 ∷ 0x11002 ∷ [])
        (Some (record { word = 2; why = LinkAgain }))
        ≡ codes "0 link 11000\n1 destination 2000\nword 2: LinkAgain\n" }
    ensures goods { lines_of (codes "x\n")
        ≡ record { outputs = []; text = codes "x\n"; fault = None } }
    ensures head { walk_text (0x11006 ∷ []) (Some (record { word = 0; why = Flags }))
        ≡ codes "word 0: Flags\n" }
{}

/// The line of a segment: its address and its bytes of memory in hexadecimal, the number of its bytes in decimal, and
/// their SHA-256, which for `abc` and for no bytes is that of FIPS 180-4's examples.
pub fn line_of_a_segment()
    ensures line { segment_line (record { bytes = codes "abc"; mem = 0xa2000; memsz = 0x3000 })
        ≡ codes "segment a2000 memsz 3000 bufsz 3 sha256 "
        ++ codes "ba7816bf8f01cfea414140de5dae2223b00361a396177a9cb410ff61f20015ad\n" }
    ensures no_bytes { segment_line (record { bytes = []; mem = 0; memsz = 0x1000 })
        ≡ codes "segment 0 memsz 1000 bufsz 0 sha256 "
        ++ codes "e3b0c44298fc1c149afbf4c8996fb92427ae41e4649b934ca495991b7852b855\n" }
{}

/// The line of the head of a crash kernel: the done word, or the first of the reasons Flags, PastLimit and HeadKind.
pub fn head_of_a_crash_kernel()
    ensures done { head_text 4 ≡ codes "0 done\n" }
    ensures no_fault { head_fault 4 ≡ None }
    ensures link { head_text 0x11002 ≡ codes "word 0: HeadKind\n" }
    ensures link_fault { head_fault 0x11002 ≡ Some (record { word = 0; why = HeadKind }) }
    ensures no_flag { head_text 0x11000 ≡ codes "word 0: Flags\n" }
    ensures past_the_limit { head_fault 0x4000_0000_0002
        ≡ Some (record { word = 0; why = PastLimit }) }
{}
