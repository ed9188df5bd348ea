//! The events of a run in order.

ghost use Rattle.std.specs.Prelude.{◌≡◌, [], ◌∷◌, ◌++◌, OnOk, OnErr};

use crate::event::Event;
use sq_num::Memory;
use std::alloc::Global;
use std::marker::Model;

/// A list of events, the oldest first.
#[derive(Debug, Drop)]
pub struct Log {
    events: Vec<Event>,
}

impl Model for Log {
    ghost use Rattle.std.specs.Prelude.{List};
    ghost use Rattle.sq_system.specs.declared.event.Event.{Event as AnEvent};

    ghost Value = { List AnEvent };

    ghost view = { λ l. l.events.items };
}

impl Log {
    /// No events. It takes no memory.
    pub fn new(alloc: Global) -> Log
        ensures { result ≡ [] }
    {
        Log {
            events: Vec::new(alloc),
        }
    }

    /// Appends `event`, or leaves the list as it was for want of memory.
    pub fn push(&mut self, event: Event) -> Result<(), Memory>
        ensures ok { OnOk result (self.new ≡ self.old ++ event ∷ []) }
        ensures err { OnErr result (self.new ≡ self.old) }
    {
        self.events.push(event)?;
        Ok(())
    }

    /// The events in order.
    pub fn events(&self) -> &[Event]
        ensures { result.now ≡ self.now }
    {
        self.events.as_slice()
    }
}
