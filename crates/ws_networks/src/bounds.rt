//! How long a connection is waited for.

ghost use Rattle.std.specs.Prelude.{◌≡◌};
ghost use Rattle.ws_loops.specs.Paces.{has_ended_by, passes_at};
ghost use Rattle.ws_networks.specs.Bounds.{bounds_from, is_given_up, gives_up_at};

/// How long is waited, and how long a connection lasts, in milliseconds.
#[derive(Clone, Copy)]
pub struct Limits {
    /// So long an address may take no connection, and then nothing may come, or be taken of what is written.
    pub limit: Option<u64>,
    /// So long a connection lasts at most, whatever comes, from when its name is looked up.
    pub deadline: Option<u64>,
}

impl Limits {
    /// Those of a connection whose name is looked up at this time.
    pub fn from(self, now: u64) -> Bounds
        ensures { result ≡ bounds_from self now }
    {
        Bounds {
            limit: self.limit,
            until: passes_at(self.deadline, now),
        }
    }
}

/// How long is waited for an address, and by when all ends.
#[derive(Clone, Copy)]
pub struct Bounds {
    /// So long an address may take no connection.
    pub limit: Option<u64>,
    /// By then the connection ends, whatever comes.
    pub until: Option<u64>,
}

impl Bounds {
    /// Whether an address that has been tried since then is waited for no longer.
    pub(crate) fn is_given_up(self, since: u64, now: u64) -> bool
        ensures { result ≡ is_given_up self since now }
    {
        is_by(passes_at(self.limit, since), now) || is_by(self.until, now)
    }

    /// Until when an address is waited for that has been tried since then.
    pub(crate) fn gives_up_at(self, since: u64) -> Option<u64>
        ensures { result ≡ gives_up_at self since }
    {
        match (self.until, passes_at(self.limit, since)) {
            (Some(one), Some(other)) => Some(one.min(other)),
            (Some(time), None) | (None, Some(time)) => Some(time),
            (None, None) => None,
        }
    }
}

/// When a limit, if there is one, passes that began then.
fn passes_at(limit: Option<u64>, since: u64) -> Option<u64>
    ensures { result ≡ passes_at limit since }
{
    match limit {
        None => None,
        Some(limit) => Some(since.saturating_add(limit)),
    }
}

/// Whether a time, if there is one, is no later than this.
fn is_by(time: Option<u64>, now: u64) -> bool
    ensures { result ≡ has_ended_by time now }
{
    match time {
        None => false,
        Some(time) => time <= now,
    }
}
