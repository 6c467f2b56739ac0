//! A receiving side is copied.

ghost use Rattle.std.specs.Prelude.{◌≡◌, ◌<◌, length, IfOk, OnErr};

use crate::receiver::Receiver;
use ws_base::NoMemory;

impl Receiver {
    /// The same again, with room for the payload bytes that are kept.
    pub(crate) fn copy(&self) -> Result<Receiver, NoMemory>
        ensures same { IfOk result (λ copy. copy ≡ self.now) }
        ensures wants { OnErr result (0 < length self.now.assembled) }
    {
        let assembly = self.assembly.copy()?;
        Ok(Receiver {
            role: self.role,
            limits: self.limits,
            assembly,
            frame: self.frame,
        })
    }
}
