//! What `boot-resident` makes of pairs that are refused, for the kernel `abc` at page 2, and what `sample` says.

ghost use Rattle.std.specs.Prelude.{◌≡◌, ◌++◌, ◌∷◌, [], ℕ, None, Ok, Err, codes};
ghost use Rattle.kx_pages.specs.Bytes.{page_of};
ghost use Rattle.page_memory.specs.Contents.{Contents, at};
ghost use Rattle.load_states.specs.States.{Checked, no_pages};
ghost use Rattle.resident_planner.specs.declared.fault.ResidentFault.TheVariants as faults;
ghost use Rattle.sample_load.specs.Samples.{memory_digest, sample_segments, start_of};
ghost use Rattle.file_commands.specs.Taking.{Refusal, by, too_long};
ghost use Rattle.load_commands.specs.BootResident.{CanBootResident, HasBootedResident, load_with, raw_inputs};
ghost use Rattle.list_commands.specs.Dump.{lines_of};
ghost use Rattle.command_parts.specs.Outputs.{Made};
ghost use Rattle.command_parts.specs.Runs.{after_runs};
ghost use Rattle.load_commands.specs.Sample.{HasSampled, IsSample, sample_text, samples};
ghost use Rattle.command_parts.specs.declared.reason.Reason.{Reason};
ghost use Rattle.command_parts.specs.declared.reason.Reason.TheVariants as reasons;
ghost use Rattle.worked_commands.specs.Inputs.{three_bytes};
ghost use Rattle.worked_commands.specs.Lists.{Never, Puts};
ghost use Rattle.worked_commands.specs.Loads.{few_plan};
ghost use Rattle.worked_commands.specs.Memories.{loaded};
ghost use Rattle.worked_commands.specs.Names.{boot_resident_raw, few_inputs};
ghost use Rattle.worked_commands.specs.Residents.{resident_makes, resident_over};
ghost use Rattle.worked_commands.specs.Texts.{kept_checked, plain_image, registers};

use kx_edge::{Shelf, Sink};

/// A pair whose destination is not wanted, one with a destination that an earlier pair has, and one whose source has other
/// bytes.
pub fn pairs_are_refused()
    ensures unwanted { (m : Contents) → resident_makes m ((5, 0x13) ∷ [])
        (Err (by (reasons.Resident (faults.NotWanted 5)))) }
    ensures other_page { (m : Contents) → resident_makes m ((5, 0x13) ∷ [])
        (Err (by (reasons.Resident (faults.NotWanted 6)))) → ⊥ }
    ensures repeats { (m : Contents) → at m 0x13 ≡ page_of (codes "abc")
        → resident_makes m ((2, 0x13) ∷ (2, 0x14) ∷ [])
        (Err (by (reasons.Resident (faults.Repeats 2)))) }
    ensures stale { (m : Contents) → at m 0x13 ≡ page_of (codes "abd")
        → resident_makes m ((2, 0x13) ∷ [])
        (Err (by (reasons.Resident (faults.Stale 2)))) }
    ensures other_reason { (m : Contents) → resident_makes m ((5, 0x13) ∷ [])
        (Err (by reasons.NotKept)) → ⊥ }
    ensures not_made { (m : Contents) (goods : Made)
        → resident_makes m ((5, 0x13) ∷ []) (Ok goods) → ⊥ }
    ensures never_too_long { (m : Contents) → resident_makes m []
        (Err (too_long (codes "l") 9)) → ⊥ }
{}

/// What `boot-resident` takes of its words, and the load of a list that was made.
pub fn load_of_a_list()
    ensures inputs { raw_inputs (codes "m") (codes "p") (codes "k") ≡ few_inputs }
    ensures load { load_with few_plan (record { memory = loaded; image = plain_image; copied = 1 })
        ≡ record {
          memory = loaded;
          pool = no_pages;
          image = plain_image;
          segments = three_bytes;
        } }
{}

/// What `sample` says of a list of seven words, where its first segment lies at 2a00 and its memory has this digest. It
/// makes lines alone, and nothing is refused.
pub fn sample_is_said()
    ensures text { (number : ℕ) → start_of (sample_segments number) ≡ registers
        → memory_digest (after_runs None kept_checked) ≡ 0xba ∷ 0x07 ∷ []
        → sample_text number kept_checked
        ≡ codes "accepted words 7 links 3 pairs 2\nhead 12002 control 10000 swap 11000\n"
        ++ codes "start entry 2a00 rax 2badb002 rbx 9500 rsi 90000\nran 7\nmemory ba07\n" }
    ensures made { (number : ℕ) (c : Checked) → IsSample number c
        → samples number tt (Ok (lines_of (sample_text number c))) }
    ensures no_output { (number : ℕ) (goods : Made) → samples number tt (Ok goods)
        → goods.outputs ≡ [] }
    ensures no_fault { (number : ℕ) (goods : Made) → samples number tt (Ok goods)
        → goods.fault ≡ None }
    ensures not_refused { (number : ℕ) (why : Refusal Reason) → samples number tt (Err why) → ⊥ }
{}

/// No list is made of a pair that is refused; and a sample puts no file.
pub fn lists_that_were_done<S: Shelf, O: Sink>()
    ensures cannot { (m : Contents) → CanBootResident (resident_over m ((5, 0x13) ∷ [])) → ⊥ }
    ensures never_booted { (m : Contents) → Never S.Shelf O.Sink
        (λ s o t p. HasBootedResident S.Shelf O.Sink s o t p boot_resident_raw
        (resident_over m ((5, 0x13) ∷ []))) }
    ensures sample { (number : ℕ) → Puts S.Shelf O.Sink
        (λ s o t p. HasSampled S.Shelf O.Sink s o t p number) [] }
{}
