use vub_base::Bytes;

/// What is asked of a service.
#[derive(Debug, Drop)]
pub struct Ask {
    /// The bytes of the request.
    pub request: Bytes,
    /// How many bytes the reply may have.
    pub room: u32,
}
