ghost use Rattle.std.specs.Prelude.{◌≡◌, ◌≢◌, ◌⊎◌, ◌<◌, ◌≤◌, ◌++◌, ℕ, List, [], Bool, IsTrue, IsErr, IsSome, Option, Some, None, OnOk, OnErr, IfOk, IfErr, length};
ghost use Rattle.agm_shelf.specs.Shelf.{Rose, Contents, OthersStay, AllStay, text_of, IsTooLong, GrowsByFront, TakesFront, Continues};

use agm_bits::Memory;
use std::alloc::Global;

/// Why a text wasn't read.
#[derive(Clone, Copy, Debug, PartialEq, Eq)]
pub enum ReadEnd {
    /// The shelf couldn't read it, or the name isn't held.
    Failed,
    /// It is longer than the limit. `seen` is one byte more than the limit.
    TooLong { seen: usize },
    /// Memory was wanted.
    Memory,
}

/// Why bytes weren't written.
#[derive(Clone, Copy, Debug, PartialEq, Eq)]
pub enum PutEnd {
    /// They couldn't be written.
    Failed,
    /// Memory was wanted.
    Memory,
}

impl From<Memory> for ReadEnd {
    ghost use Rattle.agm_shelf.specs.declared.shelf.ReadEnd.{ReadEnd};

    ghost from_gives = { λ _ e. e ≡ ReadEnd.Memory };

    fn from(_: Memory) -> Self {
        ReadEnd::Memory
    }
}

impl From<Memory> for PutEnd {
    ghost use Rattle.agm_shelf.specs.declared.shelf.PutEnd.{PutEnd};

    ghost from_gives = { λ _ e. e ≡ PutEnd.Memory };

    fn from(_: Memory) -> Self {
        PutEnd::Memory
    }
}

/// Where texts are read from and written to, by name. One output at a time is written: `begin`
/// makes it pending, `append` adds to it, and `end` or an error ends it.
pub trait Shelf {
    /// Whether it tells what it holds.
    ghost tells: { Self → Bool };

    /// What each name holds, where it tells.
    ghost holds: { Self → Contents };

    /// The name of the pending output.
    ghost pending: { Self → Option (List ℕ) };

    /// How often a read failed. It never falls, and stays at 2^64-1.
    ghost read_faults: { Self → ℕ };

    /// How often a write failed. It never falls, and stays at 2^64-1.
    ghost write_faults: { Self → ℕ };

    /// Whether its calls fail only to read a name that isn't held.
    ghost sound: { Self → Bool };

    /// The text that a name holds, of at most `limit` bytes.
    fn read(&mut self, alloc: Global, name: &str, limit: usize) -> Result<Vec<u8>, ReadEnd>
        ensures ok { IfOk result (λ v. IsTrue (tells self.old) → holds self.old name.now ≡ Some v.items) }
        ensures within { IfOk result (λ v. length v.items ≤ limit) }

        // It is too long exactly where it is longer than the limit and neither of the others comes.
        ensures too_long { IfErr result (IsTooLong limit (tells self.old) (holds self.old name.now)) }
        ensures refused { IsTrue (tells self.old) → limit < length (text_of (holds self.old name.now)) → IsErr result }

        ensures failed { result ≡ Err ReadEnd.Failed → Rose (read_faults self.old) (read_faults self.new) }
        ensures uncounted { result ≢ Err ReadEnd.Failed → read_faults self.new ≡ read_faults self.old }
        ensures missing { IsTrue (sound self.old) → result ≡ Err ReadEnd.Failed → holds self.old name.now ≡ None }

        // Whatever it answers, no text changes.
        ensures same { AllStay (holds self.old) (holds self.new) }
        ensures pending { pending self.new ≡ pending self.old }
        ensures goes_on { Continues tells sound read_faults write_faults self.old self.new };

    /// Lets the name hold the empty text, to which the next calls append.
    fn begin(&mut self, alloc: Global, name: &str) -> Result<(), PutEnd>
        requires { pending self.old ≡ None }
        ensures ok { OnOk result (pending self.new ≡ Some name.now) }
        ensures empty { OnOk result (IsTrue (tells self.old) → holds self.new name.now ≡ Some []) }

        // After an error nothing is pending, and the name holds what it held or the empty text.
        ensures err { OnErr result (pending self.new ≡ None) }
        ensures left { OnErr result (IsTrue (tells self.old) → (holds self.new name.now ≡ holds self.old name.now) ⊎ (holds self.new name.now ≡ Some [])) }

        ensures others { OthersStay name.now (holds self.old) (holds self.new) }
        ensures failed { result ≡ Err PutEnd.Failed → Rose (write_faults self.old) (write_faults self.new) }
        ensures reads { read_faults self.new ≡ read_faults self.old }
        ensures unfailing { IsTrue (sound self.old) → result ≢ Err PutEnd.Failed }
        ensures goes_on { Continues tells sound read_faults write_faults self.old self.new };

    /// Adds bytes to the pending output.
    fn append(&mut self, bytes: &[u8]) -> Result<(), PutEnd>
        requires { IsSome (pending self.old) }
        ensures ok { OnOk result (pending self.new ≡ pending self.old) }
        ensures grown { OnOk result (IsTrue (tells self.old) → let name = text_of (pending self.old) in holds self.new name ≡ Some (text_of (holds self.old name) ++ bytes.now)) }

        // After an error nothing is pending, and some first bytes may have been added.
        ensures err { OnErr result (pending self.new ≡ None) }
        ensures front { OnErr result (IsTrue (tells self.old) → let name = text_of (pending self.old) in GrowsByFront bytes.now (holds self.old name) (holds self.new name)) }

        ensures others { OthersStay (text_of (pending self.old)) (holds self.old) (holds self.new) }
        ensures failed { result ≡ Err PutEnd.Failed → Rose (write_faults self.old) (write_faults self.new) }
        ensures reads { read_faults self.new ≡ read_faults self.old }
        ensures unfailing { IsTrue (sound self.old) → result ≢ Err PutEnd.Failed }
        ensures goes_on { Continues tells sound read_faults write_faults self.old self.new };

    /// Ends the pending output, whose text stays. It never wants memory.
    fn end(&mut self) -> Result<(), PutEnd>
        requires { IsSome (pending self.old) }
        ensures ended { pending self.new ≡ None }
        ensures same { AllStay (holds self.old) (holds self.new) }
        ensures failed { result ≡ Err PutEnd.Failed → Rose (write_faults self.old) (write_faults self.new) }
        ensures reads { read_faults self.new ≡ read_faults self.old }
        ensures unfailing { IsTrue (sound self.old) → result ≢ Err PutEnd.Failed }
        ensures no_memory { result ≢ Err PutEnd.Memory }
        ensures goes_on { Continues tells sound read_faults write_faults self.old self.new };

    /// A sound shelf tells what it holds.
    ghost sound_tells: { (s : Self) → IsTrue (sound s) → IsTrue (tells s) };
}

/// Where printed bytes go.
pub trait Sink {
    /// Whether it tells what it has taken.
    ghost tells: { Self → Bool };

    /// The bytes that it has taken, where it tells.
    ghost taken: { Self → List ℕ };

    /// How often a call failed. It never falls, and stays at 2^64-1.
    ghost faults: { Self → ℕ };

    /// Whether it never fails.
    ghost sound: { Self → Bool };

    /// Takes bytes. After an error some first bytes may have been taken.
    fn put(&mut self, bytes: &[u8]) -> Result<(), PutEnd>
        ensures ok { OnOk result (IsTrue (tells self.old) → taken self.new ≡ taken self.old ++ bytes.now) }
        ensures front { OnErr result (IsTrue (tells self.old) → TakesFront bytes.now (taken self.old) (taken self.new)) }
        ensures failed { result ≡ Err PutEnd.Failed → Rose (faults self.old) (faults self.new) }
        ensures unfailing { IsTrue (sound self.old) → result ≢ Err PutEnd.Failed }
        ensures goes_on { Continues tells sound faults faults self.old self.new };

    /// A sound sink tells what it has taken.
    ghost sound_tells: { (s : Self) → IsTrue (sound s) → IsTrue (tells s) };
}
