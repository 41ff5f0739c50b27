use vub_base::Bytes;

/// What a call of the device answered. A step that asks no device has the outcome `Done`.
#[derive(Debug, Drop)]
pub enum DeviceSaid {
    /// The call was made, and answers no more.
    Done,
    /// Bytes of the config space.
    Content(Bytes),
    /// An object, if the device gives one.
    Object(Option<u32>),
    /// A number of shared memory regions.
    Number(u32),
    /// The device refused the call, with this number.
    Refused(i32),
}
