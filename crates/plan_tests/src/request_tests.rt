use crash_headers::Note;
use kexec_plan::{Module, PlanFault, Request, plan};
use kx_pages::ImageType;
use memory_map::Map;
use segments::SegFault;
use std::alloc::Global;
use std::test::Fail;

/// A machine of 256 MiB, and one of 8 MiB.
const SMALL: &[u8] = b"00001000-0fffffff : System RAM\n";

const LITTLE: &[u8] = b"00000000-007fffff : System RAM\n";

/// Bytes for the address 0x2000, entered there.
const RAW: ImageType = ImageType::Raw {
    at: 0x2000,
    entry: 0x2000,
};

/// A Multiboot kernel of 32 bytes at 1 MiB, by the addresses in its header (Multiboot 0.6.96, section 3.1).
const MULTIBOOT: &[u8] =
    b"\x02\xb0\xad\x1b\0\0\x01\0\xfe\x4f\x51\xe4\0\0\x10\0\0\0\x10\0\0\0\0\0\0\0\0\0\x10\0\x10\0";

// A request for a kernel of this type, without anything else.
fn request(alloc: Global, image: ImageType, kernel: &[u8]) -> Result<Request, Fail> {
    Ok(Request {
        crash: false,
        image,
        kernel: Vec::from_slice(alloc, kernel)?,
        initrd: None,
        command: None,
        modules: Vec::new(alloc),
        purgatory: None,
        notes: Vec::new(alloc),
    })
}

// Why there is no plan over the map of this text.
fn fault(alloc: Global, asked: Request, text: &[u8]) -> Result<Option<PlanFault>, Fail> {
    let map = Map::read(alloc, text)?;
    Ok(plan(alloc, asked, Some(&map)).err())
}

/// The type of a crash kernel, of which `load-panic` takes the type by its file alone.
const TYPES: [(&str, ImageType, PlanFault); 5] = [
    ("raw", RAW, PlanFault::CrashNeedsBzimage),
    ("elf", ImageType::Elf, PlanFault::CrashNeedsBzimage),
    (
        "multiboot",
        ImageType::Multiboot,
        PlanFault::CrashNeedsBzimage,
    ),
    ("by the file", ImageType::Auto, PlanFault::UnknownImage),
    ("bzimage", ImageType::Bzimage, PlanFault::NoReserved),
];

#[test]
fn a_crash_kernel_of_another_type_is_refused_before_the_area(rt: HostRuntime) -> Result<(), Fail> {
    for (name, image, wanted) in TYPES {
        let mut asked = request(rt.alloc(), image, b"abc")?;
        asked.crash = true;
        asked.notes.push(Note {
            start: 0x400_0000,
            size: 0x400,
        })?;
        assert_eq!(rt; fault(rt.alloc(), asked, SMALL)?, Some(wanted), "{name}");
    }
    Ok(())
}

// So many modules of one byte, each with a text of one byte.
fn modules(alloc: Global, count: usize) -> Result<Vec<Module>, Fail> {
    let mut modules = Vec::new(alloc);
    for _ in 0..count {
        modules.push(Module {
            bytes: vec![in alloc; 1u8; 1]?,
            text: Vec::from_slice(alloc, b"m")?,
        })?;
    }
    Ok(modules)
}

// The segments are kernel, modules and information; words can give 12 modules.
#[test]
fn there_are_14_modules_at_most(rt: HostRuntime) -> Result<(), Fail> {
    let many = PlanFault::Segments {
        fault: SegFault::TooMany,
    };
    for (count, wanted) in [(14, None), (15, Some(many))] {
        let mut asked = request(rt.alloc(), ImageType::Multiboot, MULTIBOOT)?;
        asked.modules = modules(rt.alloc(), count)?;
        assert_eq!(rt;
            fault(rt.alloc(), asked, LITTLE)?,
            wanted,
            "{count} modules"
        );
    }
    Ok(())
}
