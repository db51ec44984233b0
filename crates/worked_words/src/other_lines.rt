//! Command lines of the other commands, and what they mean.
#![tactic(auto, unfolding(clap::proofs::OnLiterals::clap_on_literals))]

ghost use Rattle.std.specs.Prelude.{◌≡◌, Some, None, Ok, codes, true, false};
ghost use Rattle.kexec_words.specs.Values.{check, dump, exec, trace, migrate, sample, boot_resident, drill, core};
ghost use Rattle.worked_words.specs.Lines.{meaning};

/// `check` and `dump` have a memory and a record.
pub fn checks_and_dumps()
    ensures check { meaning (codes "check m r")
        ≡ Ok (check (record { memory = codes "m"; load_record = codes "r" })) }
    ensures dump { meaning (codes "dump m r")
        ≡ Ok (dump (record { memory = codes "m"; load_record = codes "r" })) }
    ensures one_name { meaning (codes "check m m")
        ≡ Ok (check (record { memory = codes "m"; load_record = codes "m" })) }
    ensures name_with_hyphens { meaning (codes "dump -- --m -r")
        ≡ Ok (dump (record { memory = codes "--m"; load_record = codes "-r" })) }
{}

/// `exec` runs the list of a record once, or twice.
pub fn runs_of_a_record()
    ensures once { meaning (codes "exec m r o")
        ≡ Ok (exec (record {
          memory = codes "m";
          load_record = codes "r";
          out = codes "o";
          twice = false;
        })) }
    ensures twice { meaning (codes "exec --twice m r o")
        ≡ Ok (exec (record {
          memory = codes "m";
          load_record = codes "r";
          out = codes "o";
          twice = true;
        })) }
    ensures twice_at_the_end { meaning (codes "exec m r o --twice")
        ≡ Ok (exec (record {
          memory = codes "m";
          load_record = codes "r";
          out = codes "o";
          twice = true;
        })) }
{}

/// `trace` has a head in hexadecimal and a limit in decimal, and where a swap page is given, its address.
pub fn traces_of_a_list()
    ensures plain { meaning (codes "trace m o 20002 0100")
        ≡ Ok (trace (record {
          memory = codes "m";
          out = codes "o";
          head = 0x20002;
          limit = 100;
          swap = None;
        })) }
    ensures kept { meaning (codes "trace m o 20002 7 --swap 12000")
        ≡ Ok (trace (record {
          memory = codes "m";
          out = codes "o";
          head = 0x20002;
          limit = 7;
          swap = Some 0x12000;
        })) }
    ensures any_head { meaning (codes "trace m o FFFFFFFFFFFFFFFF 0")
        ≡ Ok (trace (record {
          memory = codes "m";
          out = codes "o";
          head = 0xffff_ffff_ffff_ffff;
          limit = 0;
          swap = None;
        })) }
{}

/// `migrate` has a record and an output, and `sample` a number in decimal.
pub fn migrations_and_samples()
    ensures migrate { meaning (codes "migrate r o")
        ≡ Ok (migrate (record { load_record = codes "r"; out = codes "o" })) }
    ensures sample { meaning (codes "sample 010") ≡ Ok (sample 10) }
    ensures greatest_sample { meaning (codes "sample 999999999999999999")
        ≡ Ok (sample 999999999999999999) }
{}

/// `boot-resident` has an address that must be given; any hexadecimal number is one.
pub fn boots_of_a_resident_kernel()
    ensures address { meaning (codes "boot-resident m p o k q --at 2000")
        ≡ Ok (boot_resident (record {
          memory = codes "m";
          pool = codes "p";
          out = codes "o";
          kernel = codes "k";
          pairs = codes "q";
          at = 0x2000;
        })) }
    ensures any_address { meaning (codes "boot-resident --at=1 m p o k q")
        ≡ Ok (boot_resident (record {
          memory = codes "m";
          pool = codes "p";
          out = codes "o";
          kernel = codes "k";
          pairs = codes "q";
          at = 1;
        })) }
{}

/// `drill` has a map that must be given, and `core` the address of crash headers.
pub fn drills_and_cores()
    ensures drill { meaning (codes "drill m p o v --map f")
        ≡ Ok (drill (record {
          memory = codes "m";
          pool = codes "p";
          out = codes "o";
          events = codes "v";
          map = codes "f";
        })) }
    ensures core { meaning (codes "core m o 5fff008")
        ≡ Ok (core (record { memory = codes "m"; out = codes "o"; address = 0x5ff_f008 })) }
{}
