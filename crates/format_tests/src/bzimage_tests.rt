//! Each prefix of a Linux kernel. Its numbers are shown by crates/scenes/data/linux-files.scenes.

use crate::bytes::put;
use bzimage::{BzFault, is_bzimage, read};
use std::alloc::Global;
use std::test::Fail;

// A kernel with the header's numbers of a usual one: setup_sects 4, a header that ends at 0x264, version 2.15, an
// alignment of 2 MiB, loaded at 16 MiB, and one byte of a protected-mode part.
fn file(alloc: Global) -> Result<Vec<u8>, Fail> {
    let mut file = vec![in alloc; 0u8; 0xa01]?;
    let fields: [(usize, &[u8]); 11] = [
        (0x1f1, &[4]),
        (0x1fe, &[0x55, 0xaa, 0xeb, 0x62]),
        (0x202, b"HdrS"),
        (0x206, &[0x0f, 0x02]),
        (0x211, &[0x81]),
        (0x22c, &[0xff, 0xff, 0xff, 0x7f]),
        (0x230, &[0, 0, 0x20, 0]),
        (0x234, &[1, 21, 3, 0]),
        (0x238, &[0xff, 7, 0, 0]),
        (0x258, &[0, 0, 0, 1]),
        (0x260, &[0, 0, 0, 3]),
    ];
    for (at, bytes) in fields {
        put(&mut file, at, bytes);
    }
    Ok(file)
}

fn fault(alloc: Global, file: &[u8]) -> Option<BzFault> {
    read(alloc, file).err()
}

// The signature needs 0x206 bytes, and no more. setup_sects is 4, or 0, which stands for 4.
#[test]
fn each_prefix_of_a_file_is_refused(rt: HostRuntime) -> Result<(), Fail> {
    let alloc = rt.alloc();
    for sectors in [4, 0] {
        let mut file = file(alloc)?;
        put(&mut file, 0x1f1, &[sectors]);
        for at in 0..file.len() {
            let wanted = if at < 0x264 {
                BzFault::NotKernel
            } else {
                BzFault::Truncated { at: at as u64 }
            };
            let found = (fault(alloc, &file[..at]), is_bzimage(&file[..at]));
            assert!(rt;
                found == (Some(wanted), at >= 0x206),
                "{at} bytes, {sectors} sectors"
            );
        }
        let kernel = read(alloc, &file)?;
        assert_eq!(rt; kernel.start, 0xa00, "{sectors} sectors");
    }
    Ok(())
}
