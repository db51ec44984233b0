//! `kexec`: loads a new kernel into a memory image, checks the list of page copies, and runs it, over files.
#![tactic(auto)]

ghost use Rattle.std.specs.Prelude.{◌≡◌};
ghost use Rattle.std.specs.Process.{exit_status};

use call_log::Logging;
use kexec_report::{Ending, Failure, LONGEST_NAME, name_called, read_words};
use kx_edge::{HostShelf, StdSink};
use recorded_kexec::kexec_recorded;
use std::process::ExitCode;

// Says what there is to say, and gives the exit status: what was asked for on standard output, and why a command was
// refused on standard error. Where that takes nothing, the status stays what it is.
fn finish(rt: &(impl Print + Eprint), ending: &Ending<'_>) -> ExitCode
    ensures { exit_status result ≡ ending.now.code }
{
    if let Some(notice) = &ending.notice {
        let _ = if notice.is_asked_for() {
            rt.println(notice)
        } else {
            rt.eprintln(notice)
        };
    }
    ExitCode::from(ending.code)
}

fn main(rt: HostRuntime) -> ExitCode {
    let mut room = [0u8; LONGEST_NAME];
    let program = name_called(&rt, &mut room);
    let words = match read_words(&rt) {
        Ok(words) => words,
        Err(error) => return finish(&rt, &Ending::without_words(program, error)),
    };
    let (status, shelf, sink) = kexec_recorded(
        rt.alloc(),
        &words,
        HostShelf::new(&rt),
        StdSink::new(&rt),
        Logging::Off,
    );
    let failure = Failure::of(shelf.inner.cause(), sink.inner.cause());
    finish(&rt, &Ending::of(&rt, program, &words, &status, failure))
}
