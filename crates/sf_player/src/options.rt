//! How a network is played.

/// How a network is played.
#[derive(Clone, Copy, Debug, PartialEq, Eq)]
pub struct Options {
    /// Whether the network runs as it was written. Otherwise it is rewritten by laws that keep what it gives, to do less work.
    pub plain: bool,
    /// Whether what probes record is written.
    pub probes: bool,
}
