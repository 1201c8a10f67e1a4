ghost use Rattle.std.specs.Prelude.{◌≡◌, ◌++◌, ◌∷◌, ◌↔◌, [], IsTrue, Err, OnOk, OnErr, refl, true};
ghost use Rattle.agm_shelf.specs.Shelf.{TakesFront, Continues};
ghost use Rattle.agm_shelf.specs.Turn.{next_number};
ghost use Rattle.agm_shelf.specs.MemorySink.{taken_bytes, call_number, told_calls, is_told, is_sound, failures, TakesTurn};

use crate::{PutEnd, Sink};
use agm_bits::{List as Row, Memory};
use std::alloc::Global;

/// Printed bytes in memory. Each call of `put` can be told to fail.
#[derive(Debug, Drop)]
pub struct MemorySink {
    bytes: Row<u8>,
    failing: Row<usize>,
    calls: usize,
    faults: u64,
}

impl MemorySink {
    /// Has taken nothing, and has no call that was told to fail.
    pub fn new(alloc: Global) -> MemorySink
        ensures taken { taken_bytes result ≡ [] }
        ensures told { told_calls result ≡ [] }
        ensures sound { IsTrue (is_sound result) }
        ensures number { call_number result ≡ 0 }
        ensures faults { failures result ≡ 0 }
    {
        MemorySink {
            bytes: Row::new(alloc),
            failing: Row::new(alloc),
            calls: 0,
            faults: 0,
        }
    }

    /// Lets the call of `put` of this number fail, counted from 0.
    pub fn fail(&mut self, call: usize) -> Result<(), Memory>
        ensures told { OnOk result (told_calls self.new ≡ told_calls self.old ++ call ∷ []) }
        ensures taken { taken_bytes self.new ≡ taken_bytes self.old }
        ensures number { call_number self.new ≡ call_number self.old }
        ensures faults { failures self.new ≡ failures self.old }
        ensures err { OnErr result (self.new ≡ self.old) }
    {
        self.failing.push(call)
    }

    /// The bytes that it has taken.
    pub fn taken(&self) -> &[u8]
        ensures { result.now ≡ taken_bytes self.now }
    {
        self.bytes.as_slice()
    }

    // Gives the call its number, and answers whether it was told to fail.
    fn takes_turn(&mut self) -> bool
        ensures turn { self.new ≡ record self.old { calls = next_number self.old.calls } }
        ensures told { result ≡ is_told self.old }
    {
        let call = self.calls;
        self.calls = call.saturating_add(1);
        self.failing.as_slice().contains(&call)
    }
}

impl Sink for MemorySink {
    ghost tells = { λ _. true };

    ghost taken = { taken_bytes };

    ghost faults = { failures };

    ghost sound = { is_sound };

    ghost sound_tells = { λ s h. refl };

    fn put(&mut self, bytes: &[u8]) -> Result<(), PutEnd>
        ensures ok { OnOk result (taken_bytes self.new ≡ taken_bytes self.old ++ bytes.now) }
        ensures left { OnErr result (taken_bytes self.new ≡ taken_bytes self.old) }
        ensures front { OnErr result (TakesFront bytes.now (taken_bytes self.old) (taken_bytes self.new)) }

        // It fails exactly where it was told to, and only then counts.
        ensures failed { (result ≡ Err PutEnd.Failed) ↔ IsTrue (is_told self.old) }
        ensures turn { TakesTurn (is_told self.old) self.old self.new }
        ensures goes_on { Continues (λ _. true) is_sound failures failures self.old self.new }
    {
        if self.takes_turn() {
            self.faults = self.faults.saturating_add(1);
            return Err(PutEnd::Failed);
        }
        self.bytes.extend(bytes)?;
        Ok(())
    }
}
