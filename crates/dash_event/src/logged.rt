//! Logs.
ghost use Rattle.std.specs.Prelude.{◌≡◌, List};
ghost use Rattle.dash_event.specs.declared.event.Event.{Event};

use crate::event::Event;
use std::marker::Model;

/// What has a log. Contracts see it as the list of its events.
pub trait Logged {
    /// The events.
    ghost log: { Self → List Event };

    /// The events, in the order of the log.
    fn events(&self) -> &[Event]
        ensures { result.now ≡ log self.now };
}

/// A log that is kept whole. Contracts see it as the list of its events.
#[derive(Drop)]
pub struct EventLog {
    pub events: Vec<Event>,
}

impl Model for EventLog {
    ghost use Rattle.std.specs.Prelude.{List};
    ghost use Rattle.dash_event.specs.declared.event.Event.{Event};

    ghost Value = { List Event };

    ghost view = { λ l. l.events.items };
}

impl Logged for EventLog {
    ghost log = { λ l. l };

    fn events(&self) -> &[Event] {
        &self.events
    }
}
