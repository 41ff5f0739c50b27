//! Lists behind a header that holds their length, as C's structs with a flexible array member.
ghost use Rattle.std.specs.Prelude.{◌≡◌, ◌≢◌, ◌+◌, ◌<◌, ◌≤◌, ◌&&◌, ℕ, List, [], ◌∷◌, ◌++◌, length, replicate, vec_len, Ok, Err, IfOk, OnOk, OnErr, IsErrOf, MatchResult, ◌↔◌};
ghost use Rattle.std.specs.Borrow.{sem};
ghost use Rattle.std.specs.List.Retain.{IsFiltered};
ghost use Rattle.std.specs.Fn.{CalledAt};

use std::alloc::{AllocError, AllocFailed, Global};
use thiserror::Error;

/// Why a list behind a header was refused.
#[derive(Clone, Debug, Drop, PartialEq, Eq, Error)]
pub enum Error {
    /// The length would pass the greatest one, or isn't the one that the header holds.
    #[error("The max size has been exceeded")]
    SizeLimitExceeded,
    /// Memory was refused.
    #[error("out of memory")]
    OutOfMemory,
}

impl From<AllocError> for Error {
    ghost use Rattle.vub_util.specs.declared.fam.Error.TheVariants.{OutOfMemory};

    ghost from_gives = { λ _ r. r ≡ OutOfMemory };

    fn from(_refused: AllocError) -> Error {
        Error::OutOfMemory
    }
}

impl<T: Drop> From<AllocFailed<T>> for Error {
    ghost use Rattle.vub_util.specs.declared.fam.Error.TheVariants.{OutOfMemory};

    ghost from_gives = { λ _ r. r ≡ OutOfMemory };

    fn from(_refused: AllocFailed<T>) -> Error {
        Error::OutOfMemory
    }
}

/// A header that holds the length of the list behind it.
pub trait FamStruct: Drop {
    /// What the list has.
    type Entry: Copy;

    // the length that the header holds
    ghost held: { Self → ℕ };

    // the header with this length in place of its own
    ghost holding: { Self → ℕ → Self };

    // the greatest length
    ghost limit: { ℕ };

    // the entry of zero bytes
    ghost zero: { Self.Entry };

    /// The length that the header holds.
    fn len(&self) -> usize
        ensures { result ≡ held self.now };

    /// Puts this length into the header.
    fn set_len(&mut self, len: usize)
        requires { len ≤ limit }
        ensures { self.new ≡ holding self.old len };

    /// The greatest length of the list.
    fn max_len() -> usize
        ensures { result ≡ limit };

    /// The entry of which each byte is zero.
    fn zero_entry() -> Self::Entry
        ensures { result ≡ zero };

    /// A copy of the header, which is plain data.
    fn copy(&self) -> Self
        ensures { result ≡ self.now };

    // a length that was put in is the one that is held, and takes the place of the last one; to put in the one that is
    // held changes nothing
    ghost holds: { (h : Self) (n : ℕ) → n ≤ limit → held (holding h n) ≡ n };

    ghost holds_last: { (h : Self) (m n : ℕ) → holding (holding h m) n ≡ holding h n };

    ghost holds_own: { (h : Self) → holding h (held h) ≡ h };
}

/// A header and the list behind it. The header's length is the list's, and at most the greatest one.
#[derive(Drop)]
#[derive_where(Eq, Debug; T, T::Entry)]
pub struct FamStructWrapper<T: Default + FamStruct> {
    header: T,
    entries: Vec<T::Entry>,
    ghost same_length: { T.held header ≡ vec_len entries },
    ghost within: { vec_len entries ≤ T.limit },
}

impl<T: Default + FamStruct> FamStructWrapper<T> {
    ghost use Rattle.vub_util.specs.Lends.{lends_entries};

    /// The default header and `n` zero entries.
    ///
    /// # Errors
    /// `SizeLimitExceeded` exactly where `n` passes the greatest length.
    pub fn new(alloc: Global, n: usize) -> Result<FamStructWrapper<T>, Error>
        ensures limit { IsErrOf result Error.SizeLimitExceeded ↔ (T.limit < n) }
        ensures header { IfOk result (λ w. (h : T) × T.is_default h × (w.header ≡ T.holding h n)) }
        ensures entries { IfOk result (λ w. w.entries.items ≡ replicate n T.zero) }
    {
        if n > T::max_len() {
            return Err(Error::SizeLimitExceeded);
        }
        let zero = T::zero_entry();
        let mut entries = Vec::with_capacity(alloc, n)?;
        for _place in 0..n {
            entries.push(zero)?;
        }
        Ok(Self::behind_default(entries))
    }

    /// This header, and no entries.
    ///
    /// # Errors
    /// `SizeLimitExceeded` exactly where the header holds a length other than 0.
    pub fn from_header(alloc: Global, header: T) -> Result<FamStructWrapper<T>, Error>
        ensures { MatchResult result
            (λ w. (T.held header ≡ 0) × (w.header ≡ header) × (w.entries.items ≡ []))
            (λ e. (T.held header ≢ 0) × (e ≡ Error.SizeLimitExceeded)) }
    {
        if header.len() != 0 {
            return Err(Error::SizeLimitExceeded);
        }
        let entries = Vec::new(alloc);
        Ok(FamStructWrapper { header, entries })
    }

    /// The default header, and a copy of these entries.
    ///
    /// # Errors
    /// `SizeLimitExceeded` exactly where they are more than the greatest length.
    pub fn from_entries(alloc: Global, entries: &[T::Entry]) -> Result<FamStructWrapper<T>, Error>
        ensures limit { IsErrOf result Error.SizeLimitExceeded ↔ (T.limit < length entries.now) }
        ensures header { IfOk result (λ w. (h : T) × T.is_default h × (w.header ≡ T.holding h (length entries.now))) }
        ensures entries { IfOk result (λ w. w.entries.items ≡ entries.now) }
    {
        if entries.len() > T::max_len() {
            return Err(Error::SizeLimitExceeded);
        }
        let copied = Vec::from_slice(alloc, entries)?;
        Ok(Self::behind_default(copied))
    }

    // the default header with the length of these entries
    fn behind_default(entries: Vec<T::Entry>) -> FamStructWrapper<T>
        requires { vec_len entries ≤ T.limit }
        ensures header { (h : T) × T.is_default h × (result.header ≡ T.holding h (vec_len entries)) }
        ensures entries { result.entries.items ≡ entries.items }
    {
        let mut header = T::default();
        header.set_len(entries.len());
        FamStructWrapper { header, entries }
    }

    /// This header and these entries.
    ///
    /// # Errors
    /// `SizeLimitExceeded` exactly where the header holds another length than theirs, or they are more than the
    /// greatest length.
    pub fn from_parts(header: T, entries: Vec<T::Entry>) -> Result<FamStructWrapper<T>, Error>
        ensures refused { OnErr result (T.held header ≡ vec_len entries → T.limit < vec_len entries) }
        ensures error { OnErr result (IsErrOf result Error.SizeLimitExceeded) }
        ensures taken { IfOk result (λ w. (w.header ≡ header) × (w.entries.items ≡ entries.items)) }
        ensures fits { OnOk result ((T.held header ≡ vec_len entries) × (vec_len entries ≤ T.limit)) }
    {
        if header.len() != entries.len() || entries.len() > T::max_len() {
            return Err(Error::SizeLimitExceeded);
        }
        Ok(FamStructWrapper { header, entries })
    }

    /// The header and the entries.
    pub fn into_parts(self) -> (T, Vec<T::Entry>)
        ensures header { result.0 ≡ self.header }
        ensures entries { result.1.items ≡ self.entries.items }
        ensures length { T.held result.0 ≡ length result.1.items }
    {
        let FamStructWrapper { header, entries } = self;
        (header, entries)
    }

    /// The header.
    pub fn as_fam_struct_ref(&self) -> &T
        ensures header { result.now ≡ self.now.header }
        ensures length { T.held result.now ≡ length self.now.entries.items }
    {
        &self.header
    }

    /// The entries.
    pub fn as_slice(&self) -> &[T::Entry]
        ensures { result.now ≡ self.now.entries.items }
    {
        self.entries.as_slice()
    }

    /// The entries, to be changed in place. Once the slice is given back, the list has what was written through it,
    /// and the header stands.
    pub fn as_mut_slice(&mut self) -> &mut [T::Entry]
        ensures* writes_back { sem 𝓛 (lends_entries T.row T.Entry.row T.Default T.FamStruct self.entry result) }
        ensures entries { result.now ≡ self.old.entries.items }
    {
        self.entries.as_mut_slice()
    }

    /// The number of entries, which the header holds.
    pub fn len(&self) -> usize
        ensures entries { result ≡ length self.now.entries.items }
        ensures header { result ≡ T.held self.now.header }
        ensures within { result ≤ T.limit }
    {
        self.entries.len()
    }

    /// Appends an entry.
    ///
    /// # Errors
    /// `SizeLimitExceeded` exactly where the length is the greatest one; want of memory. Refused, nothing changes.
    pub fn push(&mut self, _alloc: Global, entry: T::Entry) -> Result<(), Error>
        ensures limit { IsErrOf result Error.SizeLimitExceeded ↔ (T.limit ≤ length self.old.entries.items) }
        ensures entries { OnOk result (self.new.entries.items ≡ self.old.entries.items ++ entry ∷ []) }
        ensures header { OnOk result (self.new.header ≡ T.holding self.old.header (length self.old.entries.items + 1)) }
        ensures err { OnErr result ((self.new.entries.items ≡ self.old.entries.items)
            × (self.new.header ≡ self.old.header)) }
    {
        if self.entries.len() >= T::max_len() {
            return Err(Error::SizeLimitExceeded);
        }
        self.entries.push(entry)?;
        self.header.set_len(self.entries.len());
        Ok(())
    }

    /// Keeps the entries of which `keep` says `true`, in their order. Where it keeps them all, the header stands.
    pub fn retain<P: FnMut(&T::Entry) -> bool + Drop>(&mut self, keep: P)
        requires { P.IsAlwaysCallable keep }
        ensures entries { IsFiltered (CalledAt P.FnMut) keep self.old.entries.items self.new.entries.items }
        ensures header { self.new.header ≡ T.holding self.old.header (length self.new.entries.items) }
        ensures all { length self.new.entries.items ≡ length self.old.entries.items
            → self.new.header ≡ self.old.header }
    {
        self.entries.retain(keep);
        self.header.set_len(self.entries.len());
    }

    /// A copy of the header and of the entries.
    ///
    /// # Errors
    /// Want of memory.
    pub fn clone(&self, _alloc: Global) -> Result<FamStructWrapper<T>, Error>
        ensures header { IfOk result (λ w. w.header ≡ self.now.header) }
        ensures entries { IfOk result (λ w. w.entries.items ≡ self.now.entries.items) }
        ensures error { OnErr result (IsErrOf result Error.OutOfMemory) }
    {
        Ok(Clone::clone(self)?)
    }
}

impl<T: Default + FamStruct + PartialEq> PartialEq for FamStructWrapper<T>
where
    T::Entry: PartialEq,
{
    ghost use Rattle.std.specs.Cmp.Lexicographic.{pointwise, lists_per};
    ghost use Rattle.std.specs.Cmp.{and_per, on_per};

    // the headers are equal, and the entries are, one by one
    ghost eq = { λ a b. T.eq a.header b.header && pointwise T.Entry.eq a.entries.items b.entries.items };

    ghost laws = { and_per (on_per (λ w. w.header) T.laws) (on_per (λ w. w.entries.items) (lists_per T.Entry.laws)) };

    fn eq(&self, other: &FamStructWrapper<T>) -> bool {
        self.header == other.header && self.entries == other.entries
    }
}

impl<T: Default + FamStruct> Clone for FamStructWrapper<T> {
    ghost is_clone = { λ w c. (c.header ≡ w.header) × (c.entries.items ≡ w.entries.items) };

    fn clone(&self) -> Result<FamStructWrapper<T>, AllocError> {
        let header = self.header.copy();
        let entries = Vec::from_slice(*self.entries.allocator(), self.entries.as_slice())?;
        Ok(FamStructWrapper { header, entries })
    }
}
