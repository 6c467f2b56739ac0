//! When a device for tests fails.

ghost use Rattle.std.specs.Prelude.{◌≡◌};
ghost use Rattle.ws_frame.specs.TestDevices.{fails_at};

/// Which calls of a device for tests fail, counted from 1.
#[derive(Clone, Copy)]
pub enum Failing {
    /// None does.
    Never,
    /// This one does, and those after it work again.
    Once(u64),
    /// This one does, and each one after it.
    From(u64),
}

impl Failing {
    /// Whether the call of this number fails.
    pub fn fails_at(self, call: u64) -> bool
        ensures { result ≡ fails_at self call }
    {
        match self {
            Failing::Never => false,
            Failing::Once(place) => call == place,
            Failing::From(place) => call >= place,
        }
    }
}
