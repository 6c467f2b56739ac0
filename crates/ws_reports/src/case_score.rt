//! What a case adds to what a run comes to.

use crate::kept::KeptVerdict;
use crate::known_counts::Change;

/// What a case adds to what a run comes to.
#[derive(Drop)]
pub struct CaseScore {
    /// A run of it alone would be said to have failed.
    pub is_failed: bool,
    /// How it stands beside the earlier run, where one is known.
    pub change: Option<Change>,
    /// Its verdict, where a summary is asked for.
    pub verdict: Option<KeptVerdict>,
}
