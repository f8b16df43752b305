//! How a ring is made.
ghost use Rattle.std.specs.Prelude.{◌≡◌, [], IfOk};
ghost use Rattle.reg_outbox.specs.declared.ends.TheConstants.{RING_ROOM};

use crate::ends::{Inbox, Outbox, RING_ROOM};
use rtrb::RingBuffer;
use std::alloc::{AllocError, Global};
use thiserror::Error;

/// Why no ring was made.
#[derive(Clone, Copy, Debug, PartialEq, Eq, Error)]
pub enum OutboxFault {
    /// A growth was refused.
    #[error("no memory")]
    Memory,
}

impl From<AllocError> for OutboxFault {
    ghost use Rattle.reg_outbox.specs.declared.making.OutboxFault.TheVariants.{Memory};

    ghost from_gives = { λ _ fault. fault ≡ Memory };

    fn from(_fault: AllocError) -> OutboxFault {
        OutboxFault::Memory
    }
}

/// The two ends of a ring of 64 notices, into which nothing was sent. Its one fault is that memory was refused.
pub fn outbox(alloc: Global) -> Result<(Outbox, Inbox), OutboxFault>
    ensures outbox { IfOk result (λ ends. ends.0 ≡ record { sent = []; free = RING_ROOM }) }
    ensures inbox { IfOk result (λ ends. ends.1 ≡ record { received = []; waiting = [] }) }
{
    let (producer, consumer) = RingBuffer::new(alloc, RING_ROOM)?;
    Ok((Outbox::new(producer), Inbox::new(consumer)))
}
