ghost use Rattle.std.specs.Prelude.{◌≡◌, IfSome, Some, option_map};
ghost use Rattle.vub_share.specs.Statuses.{number_of, complaint_of};

/// How the program has ended.
#[derive(Clone, Copy, Debug, PartialEq, Eq)]
pub enum Status {
    /// All was written.
    Done,
    /// There were words after the program's name.
    Words,
    /// What was read is no script.
    NotAScript,
    /// The script is past a limit, or its set-up can't be run.
    SetUp,
    /// The source had a fault.
    Read,
    /// The sink had a fault. A front of the text was written.
    Write,
    /// Memory was refused.
    Memory,
    /// More bytes were read than a script may have.
    TooLong,
}

impl Status {
    /// The exit status of the program.
    pub fn number(self) -> u8
        ensures { result ≡ number_of self }
    {
        match self {
            Status::Done => 0,
            Status::Words => 1,
            Status::NotAScript => 2,
            Status::SetUp => 3,
            Status::Read => 4,
            Status::Write => 5,
            Status::Memory => 6,
            Status::TooLong => 7,
        }
    }

    /// The status with this number, if there is one.
    pub fn from_number(number: u8) -> Option<Status>
        ensures found { IfSome result (λ status. number_of status ≡ number) }
        ensures all { (status : Status) → number_of status ≡ number → result ≡ Some status }
    {
        match number {
            0 => Some(Status::Done),
            1 => Some(Status::Words),
            2 => Some(Status::NotAScript),
            3 => Some(Status::SetUp),
            4 => Some(Status::Read),
            5 => Some(Status::Write),
            6 => Some(Status::Memory),
            7 => Some(Status::TooLong),
            _ => None,
        }
    }

    /// What the program says of it on standard error, after its own name.
    pub fn complaint(self) -> Option<&'static str>
        ensures { option_map (λ text. text.now) result ≡ complaint_of self }
    {
        match self {
            Status::Done => None,
            Status::Words => Some("words"),
            Status::NotAScript => Some("not a script"),
            Status::SetUp => Some("set-up"),
            Status::Read => Some("read"),
            Status::Write => Some("write"),
            Status::Memory => Some("memory"),
            Status::TooLong => Some("too long"),
        }
    }
}
