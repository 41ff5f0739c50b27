use crate::small::Small;
use sqlite_items::Boxed;
use vub_proto::DeviceSaid;

/// What a party did in its turn, as `Label` says it, with what the device answered where the step calls it.
#[derive(Debug, Drop)]
pub enum Play {
    Pass,
    Guest,
    Control(Boxed<Small>, DeviceSaid),
    Poll { object: u32 },
    Event,
    Sweep,
    Hear(DeviceSaid),
    Take,
    Serve,
    Put,
}
