ghost use Rattle.std.specs.Prelude.{◌≡◌, ◌+◌, ◌<◌, ◌^◌, [], length, take, drop, OnOk, OnErr, IfOk};
ghost use Rattle.vub_dir.specs.Content.{overlay};

use std::alloc::{AllocError, Global};
use std::marker::Model;

/// The bytes of one file.
#[derive(Debug, Drop)]
pub struct Content {
    octets: Vec<u8>,
}

impl Model for Content {
    ghost use Rattle.std.specs.Prelude.{List, ℕ};

    ghost Value = { List ℕ };

    ghost view = { λ c. c.octets.items };
}

impl Content {
    /// A copy of these bytes.
    pub(crate) fn from_slice(alloc: Global, bytes: &[u8]) -> Result<Content, AllocError>
        ensures { IfOk result (λ c. c ≡ bytes.now) }
    {
        let octets = Vec::from_slice(alloc, bytes)?;
        Ok(Content { octets })
    }

    /// How many bytes there are.
    pub(crate) fn len(&self) -> usize
        ensures { result ≡ length self.now }
    {
        self.octets.len()
    }

    /// The bytes from place `offset` on, at most `size` of them.
    pub(crate) fn part(&self, offset: u64, size: u32) -> &[u8]
        ensures { result.now ≡ take size (drop offset self.now) }
    {
        part_of(&self.octets, offset, size)
    }

    /// Puts `bytes` at place `offset`, after zeros where the file ends before it.
    pub(crate) fn write(&mut self, offset: usize, bytes: &[u8]) -> Result<(), AllocError>
        requires { offset + length bytes.now < 2 ^ 63 }
        ensures ok { OnOk result (self.new ≡ overlay self.old offset bytes.now) }
        ensures err { OnErr result (self.new ≡ self.old) }
    {
        overlay_in(&mut self.octets, offset, bytes)
    }
}

fn part_of(bytes: &[u8], offset: u64, size: u32) -> &[u8]
    ensures { result.now ≡ take size (drop offset bytes.now) }
{
    let rest = if offset < bytes.len() as u64 {
        &bytes[offset as usize..]
    } else {
        &[]
    };
    if (size as usize) < rest.len() {
        &rest[..size as usize]
    } else {
        rest
    }
}

#[tactic(auto, unfolding(crate::specs::Content::overlay))]
fn overlay_in(octets: &mut Vec<u8>, offset: usize, bytes: &[u8]) -> Result<(), AllocError>
    requires { offset + length bytes.now < 2 ^ 63 }
    ensures ok { OnOk result (octets.new.items ≡ overlay octets.old.items offset bytes.now) }
    ensures err { OnErr result (octets.new.items ≡ octets.old.items) }
{
    if bytes.is_empty() {
        return Ok(());
    }
    let end = offset + bytes.len();
    if octets.len() < end {
        octets.resize(end, 0)?;
    }
    octets[offset..end].copy_from_slice(bytes);
    Ok(())
}
