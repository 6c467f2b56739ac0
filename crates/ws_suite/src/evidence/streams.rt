//! What is seen of a stream while a session takes it: where the bytes behind its last event begin, how it ends, and
//! whether a message is left open.

ghost use Rattle.std.specs.Prelude.{◌≡◌, ◌≢◌, ◌↔◌, IsTrue, None, OnOk, Some, true};
ghost use Rattle.ws_suite.specs.InnerMarks.{first_asked, left_open, nothing_seen, seen_control, seen_end, seen_frame};
ghost use Rattle.ws_suite.specs.InnerMarks.{seen_more};

use ws_base::NoMemory;
use ws_session::Reason;

/// What ends a stream.
#[derive(Clone, Copy)]
pub(crate) enum StreamEnd {
    Closed,
    Failed(Reason),
}

/// The last frame of a message that came, if one did.
#[derive(Clone, Copy)]
pub(crate) enum LastFrame {
    Nothing,
    /// It leaves the message open.
    Fragment,
    /// It ends it.
    Message,
}

impl LastFrame {
    /// Whether one came.
    pub(super) fn came(self) -> bool
        ensures { IsTrue result ↔ (left_open self ≢ None) }
    {
        match self {
            LastFrame::Nothing => false,
            LastFrame::Fragment | LastFrame::Message => true,
        }
    }

    /// Whether one came that leaves its message open.
    pub(super) fn is_fragment(self) -> bool
        ensures { IsTrue result ↔ (left_open self ≡ Some true) }
    {
        match self {
            LastFrame::Fragment => true,
            LastFrame::Nothing | LastFrame::Message => false,
        }
    }
}

/// What is seen of a stream so far.
#[derive(Clone, Copy)]
pub(crate) struct Seen {
    /// How many bytes were taken.
    pub place: usize,
    /// Where the bytes behind the last event begin.
    pub after: usize,
    /// Where the frame of the close or the fault begins, if there is one.
    pub last: usize,
    pub end: Option<StreamEnd>,
    pub frame: LastFrame,
}

/// What was seen of both directions.
#[derive(Clone, Copy)]
pub(crate) struct Streams {
    pub sent: Seen,
    pub got: Seen,
}

impl Seen {
    /// Nothing was taken.
    pub(super) fn nothing() -> Seen
        ensures { result ≡ nothing_seen }
    {
        Seen {
            place: 0,
            after: 0,
            last: 0,
            end: None,
            frame: LastFrame::Nothing,
        }
    }

    /// So many bytes more were taken.
    #[inline]
    pub(super) fn take(&mut self, used: usize) -> Result<(), NoMemory>
        ensures { OnOk result (self.new ≡ seen_more self.old used) }
    {
        // There is no room for a greater number, as there is none for a transcript of so many bytes.
        let Some(place) = self.place.checked_add(used) else {
            return Err(NoMemory);
        };
        self.place = place;
        Ok(())
    }

    /// A frame of a message ends with the last byte that was taken.
    #[inline]
    pub(super) fn note_frame(&mut self, frame: LastFrame)
        ensures { self.new ≡ seen_frame self.old frame }
    {
        self.frame = frame;
        self.after = self.place;
    }

    /// A ping or a pong ends with it.
    #[inline]
    pub(super) fn note_control(&mut self)
        ensures { self.new ≡ seen_control self.old }
    {
        self.after = self.place;
    }

    /// The stream ends with it.
    #[inline]
    pub(super) fn note_end(&mut self, end: StreamEnd)
        ensures { self.new ≡ seen_end self.old end }
    {
        self.last = self.after;
        self.end = Some(end);
        self.after = self.place;
    }

    /// The place of the first byte that is asked about: that of the frame with which the stream ends, or where it
    /// doesn't that of the first behind the last event.
    pub(super) fn first_asked(&self) -> usize
        ensures { result ≡ first_asked self.now }
    {
        match self.end {
            Some(_) => self.last,
            None => self.after,
        }
    }
}
