//! Parts that say which objects are there.
ghost use Rattle.std.specs.Prelude.{◌≡◌};
ghost use Rattle.std.specs.Option.{ForSome};
ghost use Rattle.vub_event.specs.HostTable.{has_event};
ghost use Rattle.vub_attend.specs.Naming.{has_content, has_log};

use std::sync::Wait;
use vub_locks::{Gate, LockedParts};
use vub_proto::{Service, VhostUserBackendMut};
use vub_vring::{OwnedParts, Parts};

/// Parts that say which objects are there: what is asked before a request is played that names some.
pub trait ObjectParts: Parts {
    /// Whether an event has this number.
    fn has_event(&self, object: u32) -> bool
        ensures { ForSome (Self.state self.now).shared (λ h. result ≡ has_event h.table object) };

    /// Whether a content has this number.
    fn has_content(&self, object: u32) -> bool
        ensures { ForSome (Self.state self.now).shared (λ h. result ≡ has_content h object) };

    /// Whether a log has this number.
    fn has_log(&self, object: u32) -> bool
        ensures { ForSome (Self.state self.now).shared (λ h. result ≡ has_log h object) };
}

impl<'a, D: VhostUserBackendMut, V: Service> ObjectParts for OwnedParts<'a, D, V> {
    fn has_event(&self, object: u32) -> bool {
        self.store.host.event(object).is_some()
    }

    fn has_content(&self, object: u32) -> bool {
        self.store.memory.has_object(object)
    }

    fn has_log(&self, object: u32) -> bool {
        self.store.memory.has_log(object)
    }
}

impl<R: Wait + Copy, D: VhostUserBackendMut, V: Service, G: Gate + Drop> ObjectParts
    for LockedParts<R, D, V, G> {
    fn has_event(&self, object: u32) -> bool {
        LockedParts::has_event(self, object)
    }

    fn has_content(&self, object: u32) -> bool {
        LockedParts::has_content(self, object)
    }

    fn has_log(&self, object: u32) -> bool {
        LockedParts::has_log(self, object)
    }
}
