//! A command: what it takes, what it makes of that, and how it is run.

ghost use Rattle.std.specs.Prelude.{IfSome, Result};
ghost use Rattle.file_commands.specs.Taking.{Refusal, Take};
ghost use Rattle.file_commands.specs.Answers.{Goods as GoodsOf, Meets, MeetsTold, command_of};
ghost use Rattle.file_commands.specs.inner.Calls.{Makes, Takes, call_answer};
ghost use Rattle.file_commands.specs.inner.Order.{Completes};

use crate::goods::{Goods, deliver};
use crate::stop::{MakeFault, Stop, TakeFault};
use kx_edge::{Shelf, Sink};
use std::alloc::Global;

/// A command over files: how it is to be done. What it takes has names of its own. Its goods may have a fault `F`, and it may
/// be refused for a reason `R`.
pub trait Command<F: Drop, R>: Drop {
    /// The names of what it takes.
    type Names;

    /// What it takes.
    type Taken;

    /// What contracts see of what it takes.
    ghost Inputs: { Type 0 };

    ghost inputs: { Self.Taken → Inputs };

    /// The files that it takes, and what is read of them.
    ghost takes: { Self.Names → Take R Inputs };

    /// What it makes of that.
    ghost makes: { Self → Inputs → Result (GoodsOf F) (Refusal R) → Type 0 };

    /// Takes its files.
    fn take<S: Shelf>(
        alloc: Global,
        names: Self::Names,
        shelf: &mut S,
    ) -> Result<Self::Taken, TakeFault<R>>
        ensures { Takes S.Shelf (takes names) inputs shelf.old result shelf.new };

    /// Makes its goods of what was taken.
    fn make(self, alloc: Global, taken: Self::Taken) -> Result<Goods<F>, MakeFault<R>>
        ensures { Makes (makes self) (inputs taken) result };
}

// What each answer says, in one clause.
fn take_make_deliver<F: Drop, R, C: Command<F, R>, S: Shelf, O: Sink>(
    alloc: Global,
    names: C::Names,
    command: C,
    shelf: &mut S,
    out: &mut O,
) -> Result<(), Stop<F, R>>
    ensures { Meets S.Shelf O.Sink (command_of (C.takes names) (C.makes command)) shelf.old out.old
        (call_answer result) shelf.new out.new }
{
    let taken = C::take(alloc, names, shelf)?;
    let goods = command.make(alloc, taken)?;
    deliver(goods, shelf, out)
}

/// Runs a command: takes its files, makes its goods in memory, and puts and says them.
pub fn run<F: Drop, R, C: Command<F, R>, S: Shelf, O: Sink>(
    alloc: Global,
    names: C::Names,
    command: C,
    shelf: &mut S,
    out: &mut O,
) -> Result<(), Stop<F, R>>
    // Each answer has its cause, and says what stands after it.
    ensures meets { Meets S.Shelf O.Sink (command_of (C.takes names) (C.makes command))
        shelf.old out.old (call_answer result) shelf.new out.new }

    // Over files that are told it is so by what is read of them.
    ensures told { IfSome (S.files shelf.old)
        (λ held. MeetsTold S.Shelf O.Sink (command_of (C.takes names) (C.makes command)) held
        shelf.old out.old (call_answer result) shelf.new out.new) }

    // What is in order is done where no device fails, or memory is wanted.
    ensures completes { Completes S.Shelf O.Sink (command_of (C.takes names) (C.makes command))
        shelf.old out.old (call_answer result) shelf.new out.new }
{
    take_make_deliver(alloc, names, command, shelf, out)
}
