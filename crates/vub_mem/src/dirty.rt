ghost use Rattle.std.specs.Prelude.{◌≡◌, ◌↔◌, ℕ, ◌*◌, ◌<◌, ◌^◌, Option, Some, IfOk, IfErr, OnErr};
ghost use Rattle.vub_base.specs.Told.{Told};
ghost use Rattle.vub_mem.specs.LogBits.{LogBits, MarksPage, LoadsByte, HarvestsWord, MarksTold, LoadsTold, HarvestsTold, SpentTold, no_bits};

use crate::errors::LogError;

/// A log of dirty pages, with one bit a page: page `p` is bit `p % 8` of byte `p / 8`.
///
/// What a mark does and what a byte shows are relations, since a log that others share may change meanwhile. Of a log
/// that tells its bits these relations are bound to the bits: a mark sets the bit of its page and nothing else, a load
/// gives the bits of its byte and changes nothing.
pub trait DirtyLog: Drop {
    // how many bytes the log has
    ghost byte_len: { Self → ℕ };

    // the bits of the pages and the counts of harvests, where the log tells them
    ghost log_bits: { Self → Option LogBits };

    // a mark of this page may leave the second log for the first
    ghost marks: { Self → ℕ → Self → Type 0 };

    // this byte may be read as this number, and leave the second log for the first
    ghost loads: { Self → ℕ → ℕ → Self → Type 0 };

    /// How many bytes the log has. The number never changes.
    fn len(&self) -> u64
        ensures value { result ≡ byte_len self.now }
        ensures bound { byte_len self.now < 2 ^ 61 };

    /// Marks a page. Takes no memory.
    fn mark(&mut self, page: u64)
        requires { page < 8 * byte_len self.old }
        ensures marked { marks self.old page self.new }
        ensures told { Told (log_bits self.old) (log_bits self.new) (MarksPage page) }
        ensures len { byte_len self.new ≡ byte_len self.old };

    /// The bits of eight pages: the byte with this number.
    fn load(&mut self, byte: u64) -> u8
        requires { byte < byte_len self.old }
        ensures loaded { loads self.old byte result self.new }
        ensures told { Told (log_bits self.old) (log_bits self.new) (LoadsByte byte result) }
        ensures len { byte_len self.new ≡ byte_len self.old };

    // law: where the bits are told, a mark of a page that the log has sets its bit, and changes nothing else
    ghost marks_its_page: { MarksTold byte_len log_bits marks };

    // law: where the bits are told, a load of a byte that the log has gives its bits, and changes nothing
    ghost loads_its_byte: { LoadsTold byte_len log_bits loads };
}

/// A log of dirty pages whose words are harvested: word `w` holds pages `32 * w` to `32 * w + 31`, page `p` as bit
/// `p % 32`.
///
/// Of a log that tells its bits and its counts a harvest gives the bits of its word, clears them and raises the count
/// of that word by 1; all else stays.
pub trait HarvestLog: DirtyLog {
    // a harvest of this word may hand out these bits, and leave the second log for the first
    ghost harvests: { Self → ℕ → ℕ → Self → Type 0 };

    // the word was harvested 4294967295 times
    ghost spent: { Self → ℕ → Type 0 };

    /// Hands out the bits of a word and clears them. Takes no memory.
    ///
    /// # Errors
    /// `GenerationsSpent` exactly where the word was harvested 4294967295 times. Nothing changes then.
    fn harvest(&mut self, word: u64) -> Result<u32, LogError>
        requires { 4 * word < Self.byte_len self.old }
        ensures harvested { IfOk result (λ bits. harvests self.old word bits self.new) }
        ensures told { Told (Self.log_bits self.old) (Self.log_bits self.new) (HarvestsWord word result) }
        ensures spent { (result ≡ Err LogError.GenerationsSpent) ↔ spent self.old word }
        ensures only { OnErr result (result ≡ Err LogError.GenerationsSpent) }
        ensures err { OnErr result (self.new ≡ self.old) }
        ensures len { Self.byte_len self.new ≡ Self.byte_len self.old };

    // law: where the bits are told, a harvest that is made is as its definition says
    ghost harvests_its_word: { HarvestsTold Self.byte_len Self.log_bits harvests };

    // law: where the counts are told, a word is spent exactly where its count is 4294967295
    ghost spends_its_word: { SpentTold Self.byte_len Self.log_bits spent };
}

/// A numbered log.
#[derive(Drop)]
pub struct Stored<L: DirtyLog> {
    /// The number by which regions name it: of two logs with one number the first is meant.
    pub object: u32,
    /// The log.
    pub log: L,
}

/// The log of length 0, which has no page to mark. A mark, a load and a harvest of any number change nothing, and no
/// bit is set.
impl DirtyLog for () {
    ghost byte_len = { λ _. 0 };

    ghost log_bits = { λ _. Some no_bits };

    ghost marks = { λ a _ b. a ≡ b };

    ghost loads = { λ a _ bits b. (bits ≡ 0) × (a ≡ b) };

    ghost use Rattle.vub_mem.specs.NoPage.{no_page};

    ghost marks_its_page = { λ old page new has goes. absurd (no_page page has) };

    ghost loads_its_byte = { λ old byte number new has goes. absurd (no_page byte has) };

    fn len(&self) -> u64 {
        0
    }

    fn mark(&mut self, _page: u64)
        ensures { self.old ≡ self.new }
    {}

    fn load(&mut self, _byte: u64) -> u8
        ensures bits { result ≡ 0 }
        ensures same { self.old ≡ self.new }
    {
        0u8
    }
}

impl HarvestLog for () {
    ghost harvests = { λ a _ bits b. (bits ≡ 0) × (a ≡ b) };

    ghost spent = { λ _ _. ⊥ };

    ghost use Rattle.vub_mem.specs.NoPage.{no_page};

    ghost harvests_its_word = { λ old word number new has goes. absurd (no_page (4 * word) has) };

    ghost spends_its_word = { λ log word has. absurd (no_page (4 * word) has) };

    fn harvest(&mut self, _word: u64) -> Result<u32, LogError>
        ensures bits { result ≡ Ok 0 }
        ensures same { self.old ≡ self.new }
    {
        Ok(0)
    }
}
