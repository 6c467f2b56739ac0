//! How far a head has come that is noted.

/// How far a head has come that is noted.
#[derive(Clone, Copy)]
pub(crate) struct HeadPlace {
    /// The number of the line of it that has begun, of all that are noted: 0 where none has.
    pub(crate) line: u64,
    /// The last byte was a CR, which isn't noted yet.
    pub(crate) has_return: bool,
    /// The empty line behind it has come.
    pub(crate) is_over: bool,
}

impl HeadPlace {
    /// Nothing of it has come.
    pub(crate) fn new() -> HeadPlace {
        HeadPlace {
            line: 0,
            has_return: false,
            is_over: false,
        }
    }
}

/// The end from which a head comes.
#[derive(Clone, Copy, PartialEq, Eq)]
pub(crate) enum HeadFrom {
    /// The tester.
    Tester,
    /// The tested end.
    Tested,
}

impl HeadFrom {
    /// What stands before its lines.
    pub(crate) fn mark(self) -> u8 {
        match self {
            HeadFrom::Tester => b'>',
            HeadFrom::Tested => b'<',
        }
    }
}
