//! Parts are placed one after another, and made as they are placed.

ghost use Rattle.std.specs.Prelude.{◌≡◌, ◌+◌, ◌^◌, ◌≤◌, List, ℕ, length, Result, Ok, OnOk};
ghost use Rattle.kx_laws.specs.inner.Results.{Gives};
ghost use Rattle.kx_pages.specs.Spans.{in_spans};
ghost use Rattle.plan_faults.specs.declared.fault.PlanFault.{PlanFault as Fault};
ghost use Rattle.kexec_plan.specs.Laying.{push, tell, place_part, place_parts};
ghost use Rattle.kexec_plan.specs.inner.Laying.{part_of, laid_of, IsPart, EndLow};

use crate::command::told_command;
use crate::parts::{Parts, PlanPart};
use crate::places::{Site, place, segment_at};
use kx_pages::{PageSet, Start};
use multiboot_image::Placed;
use plan_faults::PlanFault;
use segments::Segment;
use std::alloc::{AllocError, Global};

/// The 64-bit entry lies so many bytes behind a bzImage's start.
const ENTRY: u64 = 0x200;

/// What eax holds at the start of a Multiboot kernel (Multiboot Specification 0.6.96, section 3.2).
const MAGIC: u64 = 0x2bad_b002;

/// What is laid so far.
#[derive(Drop)]
pub(crate) struct Laying {
    /// The pages that are taken.
    pub(crate) taken: PageSet,
    /// The segments.
    pub(crate) list: Vec<Segment>,
    /// Why the bytes of a part cannot be made.
    pub(crate) fault: Option<PlanFault>,
    /// The command, which tells a crash kernel where its headers lie.
    pub(crate) command: Vec<u8>,
    /// Address and length of the initrd.
    pub(crate) initrd: Option<(u64, u64)>,
    /// The modules, as the kernel is told of them.
    pub(crate) slots: Vec<Placed>,
    /// How the kernel starts.
    pub(crate) start: Start,
}

impl Laying {
    // What is told of a part at its place.
    fn tell(&mut self, alloc: Global, part: &PlanPart<'_>, site: Site) -> Result<(), AllocError>
        requires { site.at + site.size ≤ 2 ^ 46 }
        ensures { OnOk result
            (laid_of self.new ≡ tell (part_of part.now) site (laid_of self.old)) }
    {
        match part {
            PlanPart::Image { .. } => self.start.entry = site.at + ENTRY,
            PlanPart::Initrd { bytes, .. } => self.initrd = Some((site.at, bytes.len() as u64)),
            PlanPart::Headers { .. } => {
                self.command = told_command(alloc, &self.command, site.at)?;
            }
            PlanPart::Parameters { .. } => self.start.rsi = site.at,
            PlanPart::Module { module } => self.slots.push(Placed {
                start: site.at,
                length: module.bytes.len() as u64,
                text: Vec::from_slice(alloc, &module.text)?,
            })?,
            PlanPart::Information { .. } => {
                self.start.rax = MAGIC;
                self.start.rbx = site.at;
            }
        }
        Ok(())
    }

    // A segment more, or why there is none. Want of memory ends at once.
    fn push(&mut self, site: Site, bytes: Result<Vec<u8>, PlanFault>) -> Result<(), PlanFault>
        ensures slots { self.new.slots.items ≡ self.old.slots.items }
        ensures exact { (r : Result (List ℕ) Fault)
            → Gives PlanFault.Memory (λ v. v.items) bytes r
            → Gives PlanFault.Memory (λ _. laid_of self.new) result
            (Ok (push (laid_of self.old) site r)) }
    {
        match bytes {
            Ok(bytes) => self.list.push(segment_at(site, bytes))?,
            Err(PlanFault::Memory) => return Err(PlanFault::Memory),
            Err(fault) => self.fault = self.fault.or(Some(fault)),
        }
        Ok(())
    }

    // One part more, in RAM that is not taken.
    #[tactic(auto, unfolding(crate::specs::Laying::place_part), using(crate::proofs::Making::can_make, crate::proofs::Making::told_low, crate::proofs::Making::part_is))]
    fn place_part(
        &mut self,
        alloc: Global,
        ram: &PageSet,
        part: PlanPart<'_>,
    ) -> Result<(), PlanFault>
        requires part { IsPart (part_of part) }
        requires low { EndLow self.old.slots.items }
        ensures exact { Gives PlanFault.Memory (λ _. laid_of self.new) result
            (place_part (in_spans ram.now) (laid_of self.old) (part_of part.entry)) }
        ensures low { OnOk result (EndLow self.new.slots.items) }
    {
        let rule = part.rule(self);
        let site = place(ram, &mut self.taken, rule)?;
        self.tell(alloc, &part, site)?;
        let bytes = part.bytes(alloc, site, self);
        self.push(site, bytes)
    }

    /// These parts, one after another.
    pub(crate) fn place_parts(
        &mut self,
        alloc: Global,
        ram: &PageSet,
        parts: Parts<'_>,
    ) -> Result<(), PlanFault>
        requires low { EndLow self.old.slots.items }
        ensures exact { Gives PlanFault.Memory (λ _. laid_of self.new) result
            (place_parts (in_spans ram.now) (laid_of self.old) parts.entry) }
    {
        for part in parts.list {
            self.place_part(alloc, ram, part)?;
        }
        Ok(())
    }
}
