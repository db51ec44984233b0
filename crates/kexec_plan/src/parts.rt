//! The parts of a plan that need a place.

ghost use Rattle.std.specs.Prelude.{◌≡◌, ◌≤◌, ◌<◌, ◌^◌, ◌++◌, ◌∷◌, [], OnOk};
ghost use Rattle.kx_laws.specs.inner.Results.{Gives};
ghost use Rattle.kexec_plan.specs.Laying.{rule_of, bytes_of};
ghost use Rattle.kexec_plan.specs.inner.Laying.{part_of, laid_of, IsPart, CanMake};

use crate::laying::Laying;
use crate::places::{PlaceRule, Site};
use crate::request::Module;
use crate::table::{information_rule, module_rule, parameters_rule};
use bzimage::BzImage;
use crash_headers::Note;
use memory_map::{Map, Row};
use multiboot_image::info_bytes;
use plan_faults::PlanFault;
use std::alloc::{AllocError, Global};
use std::marker::Model;

/// A part of a plan that needs a place.
#[derive(Drop)]
pub(crate) enum PlanPart<'a> {
    /// The protected-mode part of a bzImage.
    Image {
        rule: PlaceRule,
        bytes: Vec<u8>,
    },
    /// The initrd of a bzImage.
    Initrd {
        rule: PlaceRule,
        bytes: Vec<u8>,
    },
    /// The headers of a crash kernel.
    Headers {
        rule: PlaceRule,
        map: &'a Map,
        notes: Vec<Note>,
    },
    /// The boot parameters of a bzImage, which hold its command.
    Parameters {
        image: BzImage,
        rows: &'a [Row],
    },
    /// A module of a Multiboot kernel.
    Module {
        module: Module,
    },
    /// The information of a Multiboot kernel, which holds its command.
    Information {
        rows: &'a [Row],
    },
}

impl<'a> PlanPart<'a> {
    /// The rule of its place, behind the parts that are laid.
    pub(crate) fn rule(&self, laying: &Laying) -> PlaceRule
        requires { IsPart (part_of self.now) }
        ensures value { result ≡ rule_of (part_of self.now) (laid_of laying.now) }
        ensures some_align { 0 < result.align }
        ensures align { result.align ≤ 2 ^ 45 }
    {
        match self {
            PlanPart::Image { rule, .. }
            | PlanPart::Initrd { rule, .. }
            | PlanPart::Headers { rule, .. } => *rule,
            PlanPart::Parameters { image, rows } => parameters_rule(image, rows, &laying.command),
            PlanPart::Module { module } => module_rule(module),
            PlanPart::Information { rows } => {
                information_rule(rows, &laying.command, &laying.slots)
            }
        }
    }

    /// Its bytes at its place.
    pub(crate) fn bytes(
        self,
        alloc: Global,
        site: Site,
        laying: &Laying,
    ) -> Result<Vec<u8>, PlanFault>
        requires { CanMake (part_of self) site (laid_of laying.now) }
        ensures { Gives PlanFault.Memory (λ v. v.items) result
            (bytes_of (part_of self.entry) site (laid_of laying.now)) }
    {
        let command = &laying.command;
        match self {
            PlanPart::Image { bytes, .. } | PlanPart::Initrd { bytes, .. } => Ok(bytes),
            PlanPart::Headers { map, notes, .. } => { Ok(crash_headers::make(alloc, map, &notes)?) }
            PlanPart::Parameters { image, rows } => {
                let (at, initrd) = (site.at, laying.initrd);
                Ok(boot_params::make(alloc, &image, rows, command, at, initrd)?)
            }
            PlanPart::Module { module } => Ok(module.bytes),
            PlanPart::Information { rows } => {
                Ok(info_bytes(alloc, site.at, rows, command, &laying.slots)?)
            }
        }
    }
}

/// Parts, in the order in which they are placed.
#[derive(Drop)]
pub(crate) struct Parts<'a> {
    /// The parts.
    pub(crate) list: Vec<PlanPart<'a>>,
}

impl<'a> Model for Parts<'a> {
    ghost use Rattle.std.specs.Prelude.{List, map};
    ghost use Rattle.kexec_plan.specs.Laying.{PlanPart as PartValue};
    ghost use Rattle.kexec_plan.specs.inner.Laying.{part_of, AreParts};

    ghost Value = { List PartValue };

    ghost view = { λ p. map part_of p.list.items };

    ghost invariant = { λ p. AreParts p.list.items };
}

impl<'a> Parts<'a> {
    /// No part.
    pub(crate) fn new(alloc: Global) -> Parts<'a>
        ensures { result ≡ [] }
    {
        Parts {
            list: Vec::new(alloc),
        }
    }

    /// One part more.
    pub(crate) fn push(&mut self, part: PlanPart<'a>) -> Result<(), AllocError>
        requires { IsPart (part_of part) }
        ensures { OnOk result (self.new ≡ self.old ++ part_of part.entry ∷ []) }
    {
        self.list.push(part)?;
        Ok(())
    }
}
