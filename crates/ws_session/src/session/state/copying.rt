//! What a session keeps is copied.

ghost use Rattle.std.specs.Prelude.{◌≡◌, ◌<◌, IfOk, OnErr};

use crate::session::state::State;
use ws_base::NoMemory;

impl State {
    /// The same again, with room for the payload bytes that are kept.
    pub(in crate::session) fn copy(&self) -> Result<State, NoMemory>
        ensures same { IfOk result (λ copy. copy ≡ self.now) }
        ensures wants { OnErr result (0 < self.now.kept) }
    {
        let receiver = self.receiver.copy()?;
        Ok(State {
            receiver,
            sending: self.sending.copy(),
            status: self.status,
        })
    }
}
