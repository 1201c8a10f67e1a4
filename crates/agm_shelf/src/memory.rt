ghost use Rattle.std.specs.Prelude.{◌≡◌, ◌≢◌, ◌≤◌, ◌<◌, ◌++◌, ◌∷◌, ◌↔◌, ℕ, List, [], IsTrue, IsErr, IsSome, Some, None, Err, OnOk, OnErr, IfOk, IfErr, IfSome, length, replicate, reverse, refl, true, false};
ghost use Rattle.std.specs.Option.{option_map};
ghost use Rattle.agm_shelf.specs.Shelf.{OthersStay, text_of, IsTooLong, GrowsByFront, Continues};
ghost use Rattle.agm_shelf.specs.Turn.{next_number};
ghost use Rattle.agm_shelf.specs.MemoryShelf.{texts, stored, open_name, call_number, told_calls, is_told, is_sound, read_fails, read_failures, write_failures, TakesTurn, KeepsTexts, KeepsCounts, SameButEntries};

use crate::entry::{Content, Entry, find_entry, grow_newest};
use crate::{PutEnd, ReadEnd, Shelf};
use agm_bits::{List as Row, Memory};
use std::alloc::Global;

/// A shelf in memory, each of whose calls can be told to fail. A text that is written again
/// covers the older one, which is freed with the shelf.
#[derive(Debug, Drop)]
pub struct MemoryShelf {
    alloc: Global,

    // The newest is the last.
    entries: Row<Entry>,

    // Whether the newest is pending.
    is_open: bool,

    failing: Row<usize>,
    calls: usize,
    read_faults: u64,
    write_faults: u64,
}

impl MemoryShelf {
    /// Holds nothing, and has no call that was told to fail.
    pub fn new(alloc: Global) -> MemoryShelf
        ensures empty { (name : List ℕ) → texts result name ≡ None }
        ensures pending { open_name result ≡ None }
        ensures told { told_calls result ≡ [] }
        ensures sound { IsTrue (is_sound result) }
        ensures number { call_number result ≡ 0 }
        ensures reads { read_failures result ≡ 0 }
        ensures writes { write_failures result ≡ 0 }
    {
        MemoryShelf {
            alloc,
            entries: Row::new(alloc),
            is_open: false,
            failing: Row::new(alloc),
            calls: 0,
            read_faults: 0,
            write_faults: 0,
        }
    }

    /// Lets the name hold the bytes. Condition: nothing is pending.
    pub fn hold(&mut self, name: &str, bytes: &[u8]) -> Result<(), Memory>
        requires { open_name self.old ≡ None }
        ensures held { OnOk result (texts self.new name.now ≡ Some bytes.now) }
        ensures stored { OnOk result (stored self.new name.now ≡ Some bytes.now) }
        ensures other_texts { OnOk result (OthersStay name.now (texts self.old) (texts self.new)) }
        ensures other_stored { OnOk result (OthersStay name.now (stored self.old) (stored self.new)) }
        ensures told { OnOk result (told_calls self.new ≡ told_calls self.old) }
        ensures rest { OnOk result (KeepsCounts self.old self.new) }
        ensures err { OnErr result (self.new ≡ self.old) }
    {
        let content = Content::Bytes(Row::from_slice(self.alloc, bytes)?);
        self.add(name, content, false)
    }

    /// Lets the name hold `len` bytes that are 0 and aren't stored. Condition: nothing is
    /// pending.
    pub fn hold_blank(&mut self, name: &str, len: usize) -> Result<(), Memory>
        requires { open_name self.old ≡ None }
        ensures held { OnOk result (texts self.new name.now ≡ Some (replicate len 0)) }
        ensures stored { OnOk result (stored self.new name.now ≡ None) }
        ensures other_texts { OnOk result (OthersStay name.now (texts self.old) (texts self.new)) }
        ensures other_stored { OnOk result (OthersStay name.now (stored self.old) (stored self.new)) }
        ensures told { OnOk result (told_calls self.new ≡ told_calls self.old) }
        ensures rest { OnOk result (KeepsCounts self.old self.new) }
        ensures err { OnErr result (self.new ≡ self.old) }
    {
        self.add(name, Content::Blank(len), false)
    }

    /// Lets the call of this number fail, counted from 0 over all calls of the trait's methods.
    pub fn fail(&mut self, call: usize) -> Result<(), Memory>
        ensures told { OnOk result (told_calls self.new ≡ told_calls self.old ++ call ∷ []) }
        ensures texts { KeepsTexts self.old self.new }
        ensures rest { KeepsCounts self.old self.new }
        ensures err { OnErr result (self.new ≡ self.old) }
    {
        self.failing.push(call)
    }

    /// What a name holds, and none where it isn't held or is blank.
    pub fn held(&self, name: &str) -> Option<&[u8]>
        ensures stored { option_map (λ t. t.now) result ≡ stored self.now name.now }
        ensures text { IfSome result (λ t. texts self.now name.now ≡ Some t.now) }
    {
        match find_entry(self.entries.as_slice(), name.as_bytes()) {
            Some(entry) => match &entry.content {
                Content::Bytes(text) => Some(text.as_slice()),
                Content::Blank(_) => None,
            },
            None => None,
        }
    }

    // Makes this the newest entry, which is pending or not.
    fn add(&mut self, name: &str, content: Content, is_open: bool) -> Result<(), Memory>
        ensures newest { OnOk result (reverse self.new.entries ≡ record { name = name.now; content = content } ∷ reverse self.old.entries) }
        ensures pending { OnOk result (self.new.is_open ≡ is_open) }
        ensures rest { OnOk result (SameButEntries self.old self.new) }
        ensures err { OnErr result (self.new ≡ self.old) }
    {
        let name = Row::from_slice(self.alloc, name.as_bytes())?;
        self.entries.push(Entry { name, content })?;
        self.is_open = is_open;
        Ok(())
    }

    // Counts a failed read.
    fn fails_to_read(&mut self) -> ReadEnd
        ensures end { result ≡ ReadEnd.Failed }
        ensures counted { self.new ≡ record self.old { read_faults = next_number self.old.read_faults } }
        ensures later { self.old.read_faults ≤ self.new.read_faults }
    {
        self.read_faults = self.read_faults.saturating_add(1);
        ReadEnd::Failed
    }

    // Counts a failed write.
    fn fails_to_write(&mut self) -> PutEnd
        ensures end { result ≡ PutEnd.Failed }
        ensures counted { self.new ≡ record self.old { write_faults = next_number self.old.write_faults } }
        ensures later { self.old.write_faults ≤ self.new.write_faults }
    {
        self.write_faults = self.write_faults.saturating_add(1);
        PutEnd::Failed
    }

    // Gives the call its number, and answers whether it was told to fail.
    fn takes_turn(&mut self) -> bool
        ensures turn { self.new ≡ record self.old { calls = next_number self.old.calls } }
        ensures told { result ≡ is_told self.old }
    {
        let call = self.calls;
        self.calls = call.saturating_add(1);
        self.failing.as_slice().contains(&call)
    }
}

impl Shelf for MemoryShelf {
    ghost tells = { λ _. true };

    ghost holds = { texts };

    ghost pending = { open_name };

    ghost read_faults = { read_failures };

    ghost write_faults = { write_failures };

    ghost sound = { is_sound };

    ghost sound_tells = { λ s h. refl };

    fn read(&mut self, alloc: Global, name: &str, limit: usize) -> Result<Vec<u8>, ReadEnd>
        ensures ok { IfOk result (λ v. texts self.old name.now ≡ Some v.items) }
        ensures within { IfOk result (λ v. length v.items ≤ limit) }
        ensures too_long { IfErr result (IsTooLong limit true (texts self.old name.now)) }
        ensures refused { limit < length (text_of (texts self.old name.now)) → IsErr result }
        ensures same { KeepsTexts self.old self.new }
        ensures pending { open_name self.new ≡ open_name self.old }

        // It fails exactly where it was told to or the name isn't held, and only then counts.
        ensures failed { (result ≡ Err ReadEnd.Failed) ↔ IsTrue (read_fails self.old name.now) }
        ensures turn { TakesTurn (read_fails self.old name.now) false self.old self.new }
        ensures goes_on { Continues (λ _. true) is_sound read_failures write_failures self.old self.new }
    {
        if self.takes_turn() {
            return Err(self.fails_to_read());
        }
        match find_entry(self.entries.as_slice(), name.as_bytes()) {
            Some(entry) => entry.content.read(alloc, limit),
            None => Err(self.fails_to_read()),
        }
    }

    fn begin(&mut self, alloc: Global, name: &str) -> Result<(), PutEnd>
        requires { open_name self.old ≡ None }
        ensures ok { OnOk result (open_name self.new ≡ Some name.now) }
        ensures empty { OnOk result (texts self.new name.now ≡ Some []) }
        ensures empty_stored { OnOk result (stored self.new name.now ≡ Some []) }
        ensures others { OthersStay name.now (texts self.old) (texts self.new) }
        ensures others_stored { OthersStay name.now (stored self.old) (stored self.new) }
        ensures err { OnErr result (open_name self.new ≡ None) }
        ensures left { OnErr result (KeepsTexts self.old self.new) }

        // It fails exactly where it was told to, and only then counts.
        ensures failed { (result ≡ Err PutEnd.Failed) ↔ IsTrue (is_told self.old) }
        ensures turn { TakesTurn false (is_told self.old) self.old self.new }
        ensures goes_on { Continues (λ _. true) is_sound read_failures write_failures self.old self.new }
    {
        if self.takes_turn() {
            return Err(self.fails_to_write());
        }
        self.add(name, Content::Bytes(Row::new(alloc)), true)?;
        Ok(())
    }

    fn append(&mut self, bytes: &[u8]) -> Result<(), PutEnd>
        requires { IsSome (open_name self.old) }
        ensures ok { OnOk result (open_name self.new ≡ open_name self.old) }
        ensures grown { OnOk result (let name = text_of (open_name self.old) in texts self.new name ≡ Some (text_of (texts self.old name) ++ bytes.now)) }
        ensures grown_stored { OnOk result (let name = text_of (open_name self.old) in stored self.new name ≡ texts self.new name) }
        ensures others { OthersStay (text_of (open_name self.old)) (texts self.old) (texts self.new) }
        ensures others_stored { OthersStay (text_of (open_name self.old)) (stored self.old) (stored self.new) }
        ensures err { OnErr result (open_name self.new ≡ None) }
        ensures left { OnErr result (KeepsTexts self.old self.new) }
        ensures front { OnErr result (let name = text_of (open_name self.old) in GrowsByFront bytes.now (texts self.old name) (texts self.new name)) }

        // It fails exactly where it was told to, and only then counts.
        ensures failed { (result ≡ Err PutEnd.Failed) ↔ IsTrue (is_told self.old) }
        ensures turn { TakesTurn false (is_told self.old) self.old self.new }
        ensures goes_on { Continues (λ _. true) is_sound read_failures write_failures self.old self.new }
    {
        if self.takes_turn() {
            self.is_open = false;
            return Err(self.fails_to_write());
        }
        match grow_newest(self.alloc, &mut self.entries, bytes) {
            Ok(()) => Ok(()),
            Err(_) => {
                self.is_open = false;
                Err(PutEnd::Memory)
            }
        }
    }

    fn end(&mut self) -> Result<(), PutEnd>
        requires { IsSome (open_name self.old) }
        ensures ended { open_name self.new ≡ None }
        ensures same { KeepsTexts self.old self.new }
        ensures no_memory { result ≢ Err PutEnd.Memory }

        // It fails exactly where it was told to, and only then counts.
        ensures failed { (result ≡ Err PutEnd.Failed) ↔ IsTrue (is_told self.old) }
        ensures turn { TakesTurn false (is_told self.old) self.old self.new }
        ensures goes_on { Continues (λ _. true) is_sound read_failures write_failures self.old self.new }
    {
        self.is_open = false;
        if self.takes_turn() {
            return Err(self.fails_to_write());
        }
        Ok(())
    }
}
