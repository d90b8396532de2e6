//! What each cluster passes at the start of its round.
use dash_base::ClusterId;

/// Is passed by each cluster, on the thread of that cluster, at the start of each of its rounds.
pub trait Gate: Sync {
    fn pass(&self, cluster: ClusterId, round: u64);
}

/// A gate that lets each cluster pass at once.
#[derive(Clone, Copy, Debug, Drop)]
pub struct OpenGate;

impl Gate for OpenGate {
    fn pass(&self, _cluster: ClusterId, _round: u64) {}
}
