ghost use Rattle.std.specs.Prelude.{◌≡◌, IfOk};
ghost use Rattle.hg_keep.specs.Events.{events_of};

use hg_event::decode_first;
use hg_life::ByteFault;
use hg_model::{Bytes, Items, Memory};
use std::alloc::Global;

/// What is wrong with a file of events.
#[derive(Clone, Copy, Debug, PartialEq, Eq)]
pub struct EventFault {
    /// Where the first event begins that is none, in bytes from the beginning of the file.
    pub at: u64,
    pub fault: ByteFault,
}

/// The bytes of the events that these bytes spell, end to end, or the first fault.
pub fn read_events(alloc: Global, bytes: &[u8]) -> Result<Result<Items<Bytes>, EventFault>, Memory>
    ensures { IfOk result (λ events. events ≡ events_of bytes.now) }
{
    let mut events = Vec::new(alloc);
    let mut rest = bytes;
    while !rest.is_empty() {
        match decode_first(rest) {
            Err(fault) => {
                let at = (bytes.len() - rest.len()) as u64;
                return Ok(Err(EventFault { at, fault }));
            }
            Ok((_, len)) => {
                let (event, behind) = rest.split_at(len);
                events.push(Items::from_vec(Vec::from_slice(alloc, event)?))?;
                rest = behind;
            }
        }
    }
    Ok(Ok(Items::from_vec(events)))
}
