//! Words: what the list's items are as words, what the machine takes words for, and words in memory.

ghost use Rattle.std.specs.Prelude.{◌≡◌, ◌++◌, ◌∷◌, [], Some, None, replicate};
ghost use Rattle.byteorder.specs.Endian.{little_bytes};
ghost use Rattle.kx_pages.specs.Items.{code, decode};
ghost use Rattle.kx_pages.specs.declared.item.Item.TheVariants.{Link, Destination, Source, Done};
ghost use Rattle.kx_pages.specs.Bytes.{page_of};
ghost use Rattle.page_memory.specs.Memory.{word};
ghost use Rattle.page_memory.specs.inner.Memory.{set_word};
ghost use Rattle.kimage_list.specs.Laying.{in_bytes};
ghost use Rattle.relocate_machine.specs.Machine.{kind_of, word_address};
ghost use Rattle.relocate_machine.specs.declared.word.WordKind.TheVariants as kinds;

/// A word is a page's address with one flag.
pub fn words_of_items()
    ensures destination { code (Destination 2) ≡ 0x2001 }
    ensures link { code (Link 0x11) ≡ 0x11002 }
    ensures done { code (Done 0) ≡ 4 }
    ensures done_of_a_page { code (Done 0x12) ≡ 0x12004 }
    ensures source { code (Source 0x12) ≡ 0x12008 }
{}

/// The item of a word: none where the low twelve bits are another thing than one flag.
pub fn items_of_words()
    ensures destination { decode 0x2001 ≡ Some (Destination 2) }
    ensures link { decode 0x11002 ≡ Some (Link 0x11) }
    ensures done { decode 4 ≡ Some (Done 0) }
    ensures done_of_a_page { decode 0x12004 ≡ Some (Done 0x12) }
    ensures source { decode 0x12008 ≡ Some (Source 0x12) }
    ensures two_flags { decode 0x2009 ≡ None }
    ensures no_flag { decode 0x2000 ≡ None }
    ensures other_bit { decode 0x2011 ≡ None }
{}

/// The machine goes by the first flag that it finds, in the order destination, link, done, source, and by no other bit.
pub fn machine_takes_the_first_flag()
    ensures destination_and_source { kind_of 0x2009 ≡ kinds.Destination }
    ensures all_flags { kind_of 0x200f ≡ kinds.Destination }
    ensures link_and_done { kind_of 0x2006 ≡ kinds.Link }
    ensures done_and_source { kind_of 0x200c ≡ kinds.Done }
    ensures source { kind_of 0x12008 ≡ kinds.Source }
    ensures no_flag { kind_of 0x2010 ≡ kinds.Nothing }
    ensures address { word_address 0x2fff ≡ 0x2000 }
{}

/// The words of a memory in which page 11 has the bytes of a list, and of one in which every page is zeros.
pub fn words_in_memory()
    ensures first { word (λ p. page_of (in_bytes (0x2001 ∷ 0x12008 ∷ 4 ∷ []))) 0x11000 ≡ 0x2001 }
    ensures second { word (λ p. page_of (in_bytes (0x2001 ∷ 0x12008 ∷ 4 ∷ []))) 0x11008 ≡ 0x12008 }
    ensures third { word (λ p. page_of (in_bytes (0x2001 ∷ 0x12008 ∷ 4 ∷ []))) 0x11010 ≡ 4 }
    ensures rest { word (λ p. page_of (in_bytes (0x2001 ∷ 0x12008 ∷ 4 ∷ []))) 0x11018 ≡ 0 }
    ensures lowest_byte_first { word (λ p. page_of (1 ∷ 2 ∷ 3 ∷ 4 ∷ 5 ∷ 6 ∷ 7 ∷ 8 ∷ [])) 0x11000
        ≡ 0x0807_0605_0403_0201 }
    ensures last_slot { word (λ p. replicate 4088 0 ++ little_bytes 8 0x1200002) 0x11ff8
        ≡ 0x1200002 }
    ensures changed { word
        (set_word (λ p. page_of (in_bytes (0x2001 ∷ 0x12008 ∷ 4 ∷ []))) 0x11008 0x2008) 0x11008
        ≡ 0x2008 }
    ensures unchanged { word
        (set_word (λ p. page_of (in_bytes (0x2001 ∷ 0x12008 ∷ 4 ∷ []))) 0x11008 0x2008) 0x11010
        ≡ 4 }
{}
