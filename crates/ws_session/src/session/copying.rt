//! A session is copied.

ghost use Rattle.std.specs.Prelude.{◌≡◌, ◌<◌, IfOk, OnErr};

use crate::event_room::EventRoom;
use crate::session::Session;
use ws_base::NoMemory;

impl Session {
    /// Another session that stands as this one does: it answers to the same bytes alike, and takes no more bytes of
    /// this one's. Want of memory leaves this one as it was.
    pub fn copy(&self) -> Result<Session, NoMemory>
        ensures same { IfOk result (λ copy. copy ≡ self.now) }

        // Memory is wanted where payload bytes are kept.
        ensures memory { OnErr result (0 < self.now.kept) }
    {
        let state = self.state.copy()?;
        Ok(Session {
            room: EventRoom::new(state.alloc()),
            state,
        })
    }
}
