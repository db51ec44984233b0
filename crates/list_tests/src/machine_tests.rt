//! A step and a run by themselves; what a whole list does is shown by crates/scenes/data/machine.scenes.

use kx_pages::Mode;
use page_memory::Memory;
use relocate_machine::{Machine, Outcome, Step, Writes, run_held};
use std::test::Fail;

#[test]
#[tactic(auto, unfolding(relocate_machine::specs::inner::Writes::writes_of, relocate_machine::specs::Machine::kind_of, relocate_machine::specs::Machine::step_of, relocate_machine::specs::inner::Run::HeldFrom))]
fn a_done_word_alone_takes_one_step(rt: HostRuntime) -> Result<(), Fail> {
    let mut memory = Memory::empty(rt.alloc());
    let outcome = run_held(&mut memory, 4, Mode::Plain, 1);
    assert_eq!(rt; outcome, Outcome::Done { steps: 1 });
    let mut machine = Machine::start(4, Mode::Plain);
    assert_eq!(rt; machine.writes(&memory).destination, None);
    assert_eq!(rt; machine.step(&mut memory), Step::Ended);
    Ok(())
}
