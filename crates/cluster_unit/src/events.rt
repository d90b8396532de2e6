//! The events of a unit's core.
ghost use Rattle.std.specs.Prelude.{◌≡◌, ◌<◌, false};
ghost use Rattle.cluster_unit.specs.Enabling.{is_take};
ghost use Rattle.unit_rows.specs.declared.choice.Choice.TheVariants.{Take};
ghost use Rattle.cluster_unit.specs.Choosing.{Performed};
ghost use Rattle.cluster_unit.specs.Turns.{spent, Acted, TookFrom};

use crate::act::act;
use crate::ends::{place, send_all, send_one, take_at};
use crate::messages::take_message;
use crate::turn::Turn;
use crate::unit_core::Core;
use dash_base::ClusterId;
use dash_event::Event;
use dash_msg::Class;
use unit_rows::Choice;

impl Core {
    /// Uses a turn, and does nothing.
    pub fn spend(&mut self)
        requires { 0 < self.old.reserved }
        ensures { self.new ≡ spent self.old }
    {
        self.reserved -= 1;
    }

    /// Does a choice. `Idle` where it is not enabled; and of a choice to take a message, where the lane
    /// shows none in this call, or there is no such lane.
    pub fn perform(&mut self, choice: Choice) -> Turn
        requires { 0 < self.old.reserved }
        ensures { Performed choice result self.old self.new }
    {
        match choice {
            Choice::Take(from, class) => self.take_any(from, class),
            Choice::Step(_)
            | Choice::Commit(_)
            | Choice::BusRead(..)
            | Choice::BusOwn(..)
            | Choice::Evict(..)
            | Choice::Ask(_)
            | Choice::Again(_)
            | Choice::Install(_)
            | Choice::Grant(_) => self.act(choice),
        }
    }

    /// Takes the next message of the lane of a class from a cluster. `Idle` where the lane shows none, or
    /// the machine has no such cluster.
    fn take_any(&mut self, from: ClusterId, class: Class) -> Turn
        requires { 0 < self.old.reserved }
        ensures { Performed (Take from class) result self.old self.new }
    {
        if from.0 >= self.site.topology.clusters {
            self.spend();
            return Turn::Idle;
        }
        self.take(from, class)
    }

    /// Does a choice, other than to take a message. `Idle` where it is not enabled.
    pub fn act(&mut self, choice: Choice) -> Turn
        requires reserved { 0 < self.old.reserved }
        requires own { is_take choice ≡ false }
        ensures { Acted choice result self.old self.new }
    {
        self.reserved -= 1;
        let Some((kind, sent)) = act(&self.site, &mut self.parts, choice) else {
            return Turn::Idle;
        };
        let stamp = self.last.saturating_add(1);
        send_one(&mut self.outlets, self.site.topology.clusters, stamp, sent);
        self.last = stamp;
        self.log.push_reserved(Event {
            stamp,
            cluster: self.site.cluster,
            kind,
        });
        Turn::Did
    }

    /// Takes the next message of the lane of a class from a cluster of the machine. `Idle` where the
    /// lane shows none.
    fn take(&mut self, from: ClusterId, class: Class) -> Turn
        requires reserved { 0 < self.old.reserved }
        requires from { from.0 < self.old.config.top.clusters }
        ensures { TookFrom from class result self.old self.new }
    {
        self.reserved -= 1;
        let Some(parcel) = take_at(&mut self.inlets, place(from, class)) else {
            return Turn::Idle;
        };
        let (kind, messages) = take_message(&self.site, &mut self.parts, from, &parcel.msg);
        let stamp = self.last.max(parcel.stamp).saturating_add(1);
        send_all(
            &mut self.outlets,
            self.site.topology.clusters,
            stamp,
            &messages,
        );
        self.last = stamp;
        self.log.push_reserved(Event {
            stamp,
            cluster: self.site.cluster,
            kind,
        });
        Turn::Did
    }
}
