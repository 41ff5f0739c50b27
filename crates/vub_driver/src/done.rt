use vub_base::Bytes;

/// The reply to a request.
#[derive(Debug, Drop)]
pub struct Done {
    /// The number of the request, from 0 on in the order of submitting.
    pub number: u64,
    /// The bytes of the reply.
    pub reply: Bytes,
}
