//! Benches.

ghost use Rattle.std.specs.Prelude.{◌≡◌, [], List};
ghost use Rattle.entry_core.specs.declared.entries.Entry.{Entry};
ghost use Rattle.session.specs.Session.{no_inputs};
ghost use Rattle.worker_loop.specs.Fits.{Fits};

use session::Session;
use std::alloc::Global;
use std::sync::Arc;
use trace_core::Packet;

/// What a worker has at hand: its session, and the packets of the shared database that it has
/// read so far, which are the first ones. Their number is the worker's read place.
#[derive(Debug, Drop)]
pub struct Bench {
    pub session: Session,
    pub packets: Vec<Arc<Packet>>,
}

impl Bench {
    /// A bench that has read nothing, with a session without clauses. It fits every journal.
    /// Takes no memory.
    pub fn new(alloc: Global, variant: u32) -> Bench
        ensures session { result.session ≡ record { solver = no_inputs; names = [] } }
        ensures packets { result.packets.items ≡ [] }
        ensures fits { (journal : List Entry) → Fits result journal }
    {
        Bench {
            session: Session::new(alloc, variant),
            packets: Vec::new(alloc),
        }
    }
}
