//! What a session takes at most (RFC 6455 section 10.4 leaves the numbers to the endpoint).

ghost use Rattle.std.specs.Prelude.{◌≡◌, ◌≤◌, MatchOption};
ghost use Rattle.ws_session.specs.Limits.{LimitsValue, AreLimits};
ghost use Rattle.ws_session.specs.Sends.{most_limits};

use std::marker::Model;

/// The most payload bytes of a message: no limit is above it, and no message that is sent has more. The number is
/// ours: section 10.4 leaves it to the endpoint.
pub const MAX_MESSAGE: u32 = 16_777_216;

/// What a session takes at most: the payload bytes of one message, and of one data frame. A control frame has its own
/// limit, 125 bytes (section 5.5).
#[derive(Clone, Copy)]
pub struct Limits {
    max_message: u32,
    max_frame: u32,
}

impl Model for Limits {
    ghost use Rattle.ws_session.specs.Limits.{LimitsValue, AreLimits};

    ghost Value = { LimitsValue };

    ghost view = { λ l. record { max_message = l.max_message; max_frame = l.max_frame } };

    ghost invariant = { λ l. AreLimits (record { max_message = l.max_message; max_frame = l.max_frame }) };

    ghost inverse = { λ l. record { max_message = l.max_message; max_frame = l.max_frame } };
}

impl Limits {
    /// The largest that there are: messages of at most `MAX_MESSAGE` payload bytes, in frames of any size.
    pub fn largest() -> Limits
        ensures { result ≡ most_limits }
    {
        Limits {
            max_message: MAX_MESSAGE,
            max_frame: MAX_MESSAGE,
        }
    }

    /// Messages of at most so many payload bytes, in frames of any size. `None` outside 1 to `MAX_MESSAGE`.
    pub fn new(max_message: u32) -> Option<Limits>
        ensures { let limits : LimitsValue = record { max_message = max_message; max_frame = max_message }
            in MatchOption result (¬ (AreLimits limits)) (λ l. (l ≡ limits) × AreLimits limits) }
    {
        Limits::with_frame(max_message, max_message)
    }

    /// Messages of at most `max_message` payload bytes, in data frames of at most `max_frame` each. `None` where a
    /// frame could have none or more than a message, or a message more than `MAX_MESSAGE`.
    pub fn with_frame(max_message: u32, max_frame: u32) -> Option<Limits>
        ensures { let limits : LimitsValue = record { max_message = max_message; max_frame = max_frame }
            in MatchOption result (¬ (AreLimits limits)) (λ l. (l ≡ limits) × AreLimits limits) }
    {
        if max_frame == 0 || max_frame > max_message || max_message > MAX_MESSAGE {
            return None;
        }
        Some(Limits {
            max_message,
            max_frame,
        })
    }

    /// The most payload bytes of one message.
    pub fn max_message(&self) -> u32
        ensures value { result ≡ self.now.max_message }
        ensures bound { result ≤ MAX_MESSAGE }
    {
        self.max_message
    }

    /// The most payload bytes of one data frame.
    pub fn max_frame(&self) -> u32
        ensures value { result ≡ self.now.max_frame }
        ensures bound { result ≤ self.now.max_message }
    {
        self.max_frame
    }
}
