//! The two classes of messages.

/// The class of a message. Each class has lanes of its own, so that a reply never waits behind a
/// request: a request may make its target send, and a reply never does.
#[derive(Clone, Copy, Debug, PartialEq, Eq)]
pub enum Class {
    Request,
    Reply,
}
