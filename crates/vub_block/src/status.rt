ghost use Rattle.std.specs.Prelude.{◌≡◌};
ghost use Rattle.vub_block.specs.Answer.{status_byte};

/// How a request ended, which is the last byte of its reply.
#[derive(Clone, Copy, Debug, PartialEq, Eq)]
pub enum Status {
    /// It was done (VIRTIO_BLK_S_OK).
    Ok = 0,
    /// It does not fit the disk or its own layout (VIRTIO_BLK_S_IOERR).
    IoErr = 1,
    /// Its type or its flags are not served (VIRTIO_BLK_S_UNSUPP).
    Unsupported = 2,
}

impl Status {
    /// The byte that is replied.
    pub fn byte(self) -> u8
        ensures { result ≡ status_byte self }
    {
        match self {
            Status::Ok => 0,
            Status::IoErr => 1,
            Status::Unsupported => 2,
        }
    }
}
