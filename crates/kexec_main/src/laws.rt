//! What commands do together, and what their refusals stand for.

ghost use Rattle.kexec_main.specs.inner.Together.{LoadThenExecIsBoot};
ghost use Rattle.kexec_main.specs.inner.TooFew.{BootRefusesForPages, LoadRefusesForPages, NoLoadOverFewer, UsesEachPageOnce};

use kx_edge::{Shelf, Sink};

/// `load` and then `exec` on the two files that it wrote do what `boot` does: the same OUT, and the same text.
pub fn load_then_exec_is_boot<S: Shelf, O: Sink>()
    ensures { LoadThenExecIsBoot S.Shelf O.Sink }
{}

/// `boot` and `load` are refused for pages, with both numbers, exactly where the pool has fewer usable pages than the load
/// takes. With the clauses `told` and `refused` of `kexec` this says when they answer so.
pub fn pages_are_refused_exactly_where_they_are_too_few()
    ensures boot { BootRefusesForPages }
    ensures load { LoadRefusesForPages }
{}

/// The number of pages that a load takes is that of the pages which it uses: its control page, with context preserved its
/// swap page, each page of its list and each source is a page of its own, and over fewer no load by the rules of taking pages
/// comes to its end. An accepted list can be shorter: it may copy one page to two places with the same bytes.
pub fn a_load_takes_as_many_pages_as_it_uses()
    ensures own_pages { UsesEachPageOnce }
    ensures no_fewer { NoLoadOverFewer }
{}
