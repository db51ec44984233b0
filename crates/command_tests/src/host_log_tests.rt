//! The top call over the host's files, with its log.

use call_log::{Call, Logging};
use kx_edge::{HostShelf, StdSink};
use recorded_kexec::kexec_recorded;
use std::test::Fail;

#[test]
fn a_file_that_is_not_there_is_in_the_log(rt: HostRuntime) -> Result<(), Fail> {
    let alloc = rt.alloc();
    let mut words = Vec::new(alloc);
    for word in ["check", "/nowhere/memory", "/nowhere/record"] {
        words.push(String::from_str(alloc, word)?)?;
    }
    let (status, shelf, out) = kexec_recorded(
        alloc,
        &words,
        HostShelf::new(&rt),
        StdSink::new(&rt),
        Logging::On,
    );
    assert_eq!(rt; status.code(), 3);
    let calls = shelf.log.calls().ok_or("the shelf's log was given up")?;
    let mut wanted = Vec::new(alloc);
    wanted.push(Call::Untaken {
        name: String::from_str(alloc, "/nowhere/memory")?,
    })?;
    assert!(rt; calls == wanted.as_slice());
    let text = out.log.calls().ok_or("the sink's log was given up")?;
    assert!(rt; text.is_empty());
    Ok(())
}
