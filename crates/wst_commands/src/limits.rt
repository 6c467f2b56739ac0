//! The limits that words give.

ghost use Rattle.std.specs.Prelude.{◌≡◌, MatchOption};
ghost use Rattle.ws_session.specs.Limits.{AreLimits};
ghost use Rattle.wst_commands.specs.Limits.{limits_given};

use ws_session::Limits;

/// The limits with so many bytes of a message, and of a data frame. `None` where a frame could have none or more than a
/// message, or a message more than 16,777,216.
pub fn limits_given(message: u64, frame: u64) -> Option<Limits>
    ensures { MatchOption result (¬ (AreLimits (limits_given message frame)))
        (λ limits. AreLimits (limits_given message frame) × (limits ≡ limits_given message frame)) }
{
    let Ok(message) = u32::try_from(message) else {
        return None;
    };
    let Ok(frame) = u32::try_from(frame) else {
        return None;
    };
    Limits::with_frame(message, frame)
}
