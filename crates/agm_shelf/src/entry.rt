ghost use Rattle.std.specs.Prelude.{◌≡◌, ◌≢◌, ◌≤◌, ◌<◌, ◌++◌, true, Some, Err, OnOk, OnErr, IfOk, IfErr, length, replicate, reverse};
ghost use Rattle.std.specs.Option.{option_map};
ghost use Rattle.agm_shelf.specs.Shelf.{IsTooLong};
ghost use Rattle.agm_shelf.specs.Entry.{content_text, newest_of, FirstGrows};
ghost use Rattle.agm_shelf.specs.declared.entry.Content.{Content};

use crate::ReadEnd;
use agm_bits::{List, Memory, Name};
use std::alloc::Global;

// What a name holds: bytes, or a number of bytes that are 0 and aren't stored.
#[derive(Debug, Drop)]
pub(crate) enum Content {
    Bytes(Name),
    Blank(usize),
}

// A name with what it holds.
#[derive(Debug, Drop)]
pub(crate) struct Entry {
    pub(crate) name: Name,
    pub(crate) content: Content,
}

// The newest entry of a name.
pub(crate) fn find_entry<'a>(entries: &'a [Entry], name: &[u8]) -> Option<&'a Entry>
    ensures { option_map (λ e. e.now) result ≡ newest_of (reverse entries.now) name.now }
{
    entries
        .iter()
        .rev()
        .find(|entry| entry.name.as_slice() == name)
}

// `len` bytes that are 0.
fn zeros(alloc: Global, len: usize) -> Result<Vec<u8>, Memory>
    ensures { IfOk result (λ v. v.items ≡ replicate len 0) }
{
    Ok(vec![in alloc; 0u8; len]?)
}

// A copy of the bytes.
fn copied(alloc: Global, bytes: &[u8]) -> Result<Vec<u8>, Memory>
    ensures { IfOk result (λ v. v.items ≡ bytes.now) }
{
    Ok(Vec::from_slice(alloc, bytes)?)
}

impl Content {
    // The number of its bytes.
    fn len(&self) -> usize
        ensures { result ≡ length (content_text self.now) }
    {
        match self {
            Content::Bytes(bytes) => bytes.len(),
            Content::Blank(len) => *len,
        }
    }

    // A copy of its bytes.
    fn text(&self, alloc: Global) -> Result<Vec<u8>, Memory>
        ensures { IfOk result (λ v. v.items ≡ content_text self.now) }
    {
        match self {
            Content::Bytes(bytes) => copied(alloc, bytes.as_slice()),
            Content::Blank(len) => zeros(alloc, *len),
        }
    }

    // A copy of its bytes, where there aren't more than `limit`.
    pub(crate) fn read(&self, alloc: Global, limit: usize) -> Result<Vec<u8>, ReadEnd>
        ensures ok { IfOk result (λ v. v.items ≡ content_text self.now) }
        ensures within { IfOk result (λ v. length v.items ≤ limit) }
        ensures too_long { IfErr result (IsTooLong limit true (Some (content_text self.now))) }
        ensures unfailing { result ≢ Err ReadEnd.Failed }
    {
        if self.len() > limit {
            return Err(ReadEnd::TooLong { seen: limit + 1 });
        }
        Ok(self.text(alloc)?)
    }

    // Adds bytes, all of which are stored then.
    fn grow(&mut self, alloc: Global, bytes: &[u8]) -> Result<(), Memory>
        ensures ok { OnOk result (self.new ≡ Content.Bytes (content_text self.old ++ bytes.now)) }
        ensures err { OnErr result (self.new ≡ self.old) }
    {
        match self {
            Content::Bytes(text) => text.extend(bytes),
            Content::Blank(len) => {
                let mut text = List::from_vec(zeros(alloc, *len)?);
                text.extend(bytes)?;
                *self = Content::Bytes(text);
                Ok(())
            }
        }
    }
}

// Adds bytes to the last entry's text.
fn grow_last(alloc: Global, entries: &mut [Entry], bytes: &[u8]) -> Result<(), Memory>
    requires { 0 < length entries.old }
    ensures ok { OnOk result (FirstGrows bytes.now (reverse entries.old) (reverse entries.new)) }
    ensures err { OnErr result (entries.new ≡ entries.old) }
{
    let last = entries.len() - 1;
    entries[last].content.grow(alloc, bytes)?;
    Ok(())
}

// The same on a list, whose last entry is the newest.
pub(crate) fn grow_newest(
    alloc: Global,
    entries: &mut List<Entry>,
    bytes: &[u8],
) -> Result<(), Memory>
    requires { 0 < length entries.old }
    ensures ok { OnOk result (FirstGrows bytes.now (reverse entries.old) (reverse entries.new)) }
    ensures err { OnErr result (entries.new ≡ entries.old) }
{
    grow_last(alloc, entries.as_mut_slice(), bytes)
}
