//! How far runs have come.
use sf_player::Stop;

/// How far a run has come.
#[derive(Clone, Copy)]
pub(crate) enum Phase {
    /// It goes on.
    Running,
    /// It has stopped, before the end of its input.
    Stopped(Stop),
    /// Its input has ended, and all of it was played.
    Finished,
}
