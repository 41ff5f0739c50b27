//! The numbered contents of a memory, each found by its number without a look at the others.
ghost use Rattle.std.specs.Prelude.{◌≡◌, ◌≢◌, ◌+◌, ◌≤◌, ◌++◌, ◌∷◌, [], false, length, is_some, IfSome, IfNone, OnOk, OnErr};
ghost use Rattle.std.specs.List.{AllByRecursion, list_any, position};
ghost use Rattle.vub_mem.specs.Found.{IsPlace};
ghost use Rattle.vub_mem.specs.Place.{is_numbered, content_of, with_bytes};

use crate::content::Content;
use std::alloc::Global;
use std::collections::BTreeMap;
use std::marker::Model;
use vub_base::{Bytes, OutOfMemory};

/// Contents in the order in which they came, with the place of each by its number. A contract sees their list.
#[derive(Drop)]
pub(crate) struct Contents {
    list: Vec<Content>,
    places: BTreeMap<u32, usize>,
}

impl Model for Contents {
    ghost use Rattle.std.specs.Prelude.{List};
    ghost use Rattle.vub_mem.specs.declared.content.Content.{Content};
    ghost use Rattle.vub_mem.specs.Numbers.{IsIndexed};

    ghost Value = { List Content };

    ghost view = { λ c. c.list.items };

    ghost invariant = { λ c. IsIndexed c.list.items c.places };
}

impl Contents {
    /// No contents. Takes no memory.
    pub(crate) fn new(alloc: Global) -> Contents
        ensures { result ≡ [] }
    {
        Contents {
            list: Vec::new(alloc),
            places: BTreeMap::new(alloc),
        }
    }

    /// What the map has for this number.
    fn indexed(&self, object: u32) -> Option<usize>
        ensures { result ≡ position (λ c. is_numbered c object) self.now }
    {
        match self.places.get(&object) {
            Some(place) => Some(*place),
            None => None,
        }
    }

    /// The place of the content with this number.
    fn place(&self, object: u32) -> Option<usize>
        ensures found { IfSome result (IsPlace self.now object) }
        ensures none { IfNone result (content_of self.now object ≡ []) }
        ensures any { is_some result ≡ list_any (λ c. is_numbered c object) self.now }
        ensures absent { IfNone result (AllByRecursion (λ c. c.object ≢ object) self.now) }
    {
        match self.indexed(object) {
            Some(place) => Some(place),
            None => None,
        }
    }

    /// The bytes of the content with this number, or none.
    pub(crate) fn bytes(&self, object: u32) -> &[u8]
        ensures { result.now ≡ content_of self.now object }
    {
        match self.place(object) {
            Some(place) => self.list[place].bytes.as_slice(),
            None => &[],
        }
    }

    /// Whether a content has this number.
    pub(crate) fn has(&self, object: u32) -> bool
        ensures value { result ≡ list_any (λ c. is_numbered c object) self.now }
        ensures absent { result ≡ false → AllByRecursion (λ c. c.object ≢ object) self.now }
    {
        match self.place(object) {
            Some(_) => true,
            None => false,
        }
    }

    /// Writes these bytes into the content with this number.
    pub(crate) fn store(&mut self, object: u32, offset: usize, bytes: &[u8])
        requires { offset + length bytes.now ≤ length (content_of self.old object) }
        ensures { self.new ≡ with_bytes self.old object offset bytes.now }
    {
        match self.place(object) {
            Some(place) => self.list[place].bytes.overwrite(offset, bytes),
            None => {}
        }
    }

    /// Puts a content under a number that none has.
    ///
    /// # Errors
    /// Want of memory leaves the contents as they were.
    pub(crate) fn put(&mut self, object: u32, bytes: Bytes) -> Result<(), OutOfMemory>
        requires { AllByRecursion (λ c. c.object ≢ object) self.old }
        ensures ok { OnOk result (self.new ≡ self.old ++ record { object = object; bytes = bytes } ∷ []) }
        ensures err { OnErr result (self.new ≡ self.old) }
    {
        let place = self.list.len();
        self.list.push(Content { object, bytes })?;
        match self.places.insert(object, place) {
            Ok(_) => Ok(()),
            Err(_) => {
                let _dropped = self.list.pop();
                Err(OutOfMemory)
            }
        }
    }
}
