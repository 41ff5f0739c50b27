//! Bibplush: what the author of a vhost-user device needs, given out by one crate. Nothing is made here: each item stands
//! in the crate that its line names, with its contract, and is the same item there and here.
//!
//! A device daemon has three parts that its author writes. A [`Service`] answers the entries of the queues. A
//! [`VhostUserBackendMut`] says how many queues there are and which worker serves which; [`FixedDevice`] is one of
//! constants. A [`Setup`] says what stands when the run begins. [`drive`] opens the set-up and plays a schedule of guest,
//! control and workers, one step a turn; the [`Run`] that it hands back says what happened.
//!
//! `docs/LIBRARY.md` goes through a device from an empty folder to its first run, and the crate `example_device` is that
//! device.
#![tactic(auto)]

// what a call hands back where memory is refused, and what public types have in the place of vectors
pub use vub_base::{Bytes, Listed, OutOfMemory};

// what an author implements, and the services and the device that stand
pub use vub_block::{BlockError, BlockService};
pub use vub_dir::{DirService, Tree, TreeEntry, TreeError};
pub use vub_proto::{Backend, Echo, FixedDevice, Refused, Service, VhostUserBackendMut};

// guest memory, as a device is told of it, and how it marks dirty pages
pub use vub_mem::{
    Bitmap, BitmapMmapRegion, BitmapReplace, LogError, MemError, MemRegionBitmap, Region,
};

// a set-up, the requests that control plays in it, and the run
pub use vub_core::drive;
pub use vub_model::{GivenRegion, GivenRing, Guest, Info, Object, Setup};
pub use vub_proto::{Part, Request};

// what a run hands back
pub use vub_model::{
    Count, DeviceCall, Harvested, Label, LogBytes, RingOp, Run, Small, Span, Stop, TableOp, Take,
};
pub use vub_proto::{Answer, DeviceOp, DeviceSaid, Used};

// why there is no run, why a request is refused, and why a worker stops
pub use vub_model::{DriveFault, SetupFault, StopCause, VringEpollError, Why};
pub use vub_proto::{Cause, Denied, ListenerError, VhostUserError};
pub use vub_queue::{Damage, QueueError};

// the table of events and interest lists
pub use vub_event::{Event, EventSet, Host, HostError, MemHost, Member, Ready};
