ghost use Rattle.std.specs.Prelude.{◌≡◌, ◌%◌, ◌^◌, ℕ};

/// What a user of a poll context names its objects by: a value that is stored in 64 bits.
pub trait PollToken {
    // the number that stands for this token
    ghost raw_of: { Self → ℕ };

    // the token that this number stands for
    ghost token_of: { ℕ → Self };

    /// The number that stands for this token.
    fn as_raw_token(&self) -> u64
        ensures { result ≡ raw_of self.now };

    /// The token that this number stands for: its low bits.
    fn from_raw_token(raw: u64) -> Self
        ensures { result ≡ token_of raw };
}

impl PollToken for usize {
    ghost raw_of = { λ token. token };

    ghost token_of = { λ raw. raw };

    fn as_raw_token(&self) -> u64 {
        *self as u64
    }

    fn from_raw_token(raw: u64) -> usize {
        raw as usize
    }
}

impl PollToken for u64 {
    ghost raw_of = { λ token. token };

    ghost token_of = { λ raw. raw };

    fn as_raw_token(&self) -> u64 {
        *self
    }

    fn from_raw_token(raw: u64) -> u64 {
        raw
    }
}

impl PollToken for u32 {
    ghost raw_of = { λ token. token };

    ghost token_of = { λ raw. raw % 2 ^ 32 };

    fn as_raw_token(&self) -> u64 {
        u64::from(*self)
    }

    fn from_raw_token(raw: u64) -> u32 {
        (raw % 0x1_0000_0000) as u32
    }
}

impl PollToken for u16 {
    ghost raw_of = { λ token. token };

    ghost token_of = { λ raw. raw % 2 ^ 16 };

    fn as_raw_token(&self) -> u64 {
        u64::from(*self)
    }

    fn from_raw_token(raw: u64) -> u16 {
        (raw % 0x1_0000) as u16
    }
}

impl PollToken for u8 {
    ghost raw_of = { λ token. token };

    ghost token_of = { λ raw. raw % 2 ^ 8 };

    fn as_raw_token(&self) -> u64 {
        u64::from(*self)
    }

    fn from_raw_token(raw: u64) -> u8 {
        (raw % 0x100) as u8
    }
}

impl PollToken for () {
    ghost raw_of = { λ _. 0 };

    ghost token_of = { λ _. tt };

    fn as_raw_token(&self) -> u64 {
        0
    }

    fn from_raw_token(_raw: u64) {}
}
