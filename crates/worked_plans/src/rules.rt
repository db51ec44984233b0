//! The table of places: the rule of each part.

ghost use Rattle.std.specs.Prelude.{◌≡◌, ◌∷◌, [], true, false, codes, map, replicate};
ghost use Rattle.hole_search.specs.declared.search.End.TheVariants.{Least, Greatest};
ghost use Rattle.kexec_plan.specs.Parts.{whole_pages, part_size, start_at, segment_at};
ghost use Rattle.kexec_plan.specs.Table.{last_address, highest, kernel_rule, initrd_most, initrd_rule, headers_rule, parameters_rule, module_rule, information_rule};
ghost use Rattle.plan_faults.specs.declared.fault.Part.TheVariants as parts;
ghost use Rattle.worked_plans.specs.LinuxKernels.{high_kernel, low_kernel};
ghost use Rattle.worked_plans.specs.Machines.{machine_rows};
ghost use Rattle.worked_plans.specs.Multiboots.{a_module};

/// Sizes in whole pages, of which a part has one at least; a start and a segment.
pub fn sizes_of_parts()
    ensures whole { map whole_pages (0 ∷ 1 ∷ 4096 ∷ 4097 ∷ 8192 ∷ [])
        ≡ 0 ∷ 4096 ∷ 4096 ∷ 8192 ∷ 8192 ∷ [] }
    ensures part { map part_size (0 ∷ 1 ∷ 4096 ∷ 4097 ∷ 8192 ∷ [])
        ≡ 4096 ∷ 4096 ∷ 4096 ∷ 8192 ∷ 8192 ∷ [] }
    ensures start { start_at 0x1234 ≡ record { entry = 0x1234; rax = 0; rbx = 0; rsi = 0 } }
    ensures segment { segment_at (record { at = 0x5000; size = 0x2000 }) (codes "abc")
        ≡ record { bytes = codes "abc"; mem = 0x5000; memsz = 0x2000 } }
{}

/// A bzImage lies from its preferred address on, but not below 1 MiB, at a multiple of its alignment. It takes as much as
/// it needs at its start, or its protected-mode part, whichever is more.
pub fn rule_of_a_linux_kernel()
    ensures last { map last_address (true ∷ false ∷ [])
        ≡ 0x3fff_ffff_ffff ∷ 0xffff_ffff ∷ [] }
    ensures kernel { kernel_rule high_kernel 0x1000
        ≡ record {
          part = parts.Kernel;
          length = 0x3000;
          end = Least;
          align = 0x4000;
          min = 0x18_2000;
          most = 0x3fff_ffff_ffff;
        } }
    ensures long_file { kernel_rule low_kernel 0x3401
        ≡ record {
          part = parts.Kernel;
          length = 0x3001;
          end = Least;
          align = 0x4000;
          min = 0x18_2000;
          most = 0xffff_ffff;
        } }
    ensures low_address { (kernel_rule (record low_kernel { pref = 0x9_0000 }) 1025).min
        ≡ 0x10_0000 }
{}

/// The other parts lie as high as they can. That of an initrd counts for kernels below 4 GiB alone; a module ends so that
/// the address behind its last page is below 4 GiB.
pub fn rules_of_other_parts()
    ensures highest { highest parts.Purgatory 5 0x7fff
        ≡ record {
          part = parts.Purgatory;
          length = 5;
          end = Greatest;
          align = 4096;
          min = 0;
          most = 0x7fff;
        } }
    ensures initrd_most { map initrd_most (high_kernel ∷ low_kernel ∷ [])
        ≡ 0x3fff_ffff_ffff ∷ 0x6f_ffff ∷ [] }
    ensures initrd { initrd_rule low_kernel (codes "initrd")
        ≡ highest parts.Initrd 6 0x6f_ffff }
    ensures headers { map (λ k. headers_rule k 232) (high_kernel ∷ low_kernel ∷ [])
        ≡ highest parts.Headers 232 0x3fff_ffff_ffff
        ∷ highest parts.Headers 232 0xffff_ffff ∷ [] }
    ensures parameters { parameters_rule low_kernel machine_rows (codes "quiet")
        ≡ highest parts.Parameters 4102 0xffff_ffff }
    ensures parameters_of_many_rows { parameters_rule high_kernel
        (replicate 130 (record { start = 0; size = 0x1000; kind = 1 })) (codes "q")
        ≡ highest parts.Parameters 4160 0x3fff_ffff_ffff }
    ensures module { module_rule a_module ≡ highest parts.Module 5 0xffff_efff }
    ensures information { information_rule machine_rows (codes "quiet")
        (record { start = 0x7000; size = 5; text = codes "m1" } ∷ [])
        ≡ highest parts.Information 215 0xffff_ffff }
{}
