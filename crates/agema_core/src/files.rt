ghost use Rattle.std.specs.Prelude.{◌≡◌, ◌≢◌, ◌⊎◌, ◌≤◌, ◌++◌, IsTrue, Some, None, OnOk, OnErr, IfErr, IfOk, length, string_bytes};
ghost use Rattle.agm_shelf.specs.Shelf.{AllStay, OthersStay, Continues, IsFrontOrOld, TakesFront};
ghost use Rattle.agema_texts.specs.Original.{length_limit};
ghost use Rattle.agema_core.specs.Found.{IsReadEnd, IsPrintEnd, NoReadFailed};
ghost use Rattle.agema_core.specs.Answer.{report_name};
ghost use Rattle.agema_core.specs.Left.{IsWriteEnd, IsUntouched};

use agema_answers::{Ended, Refusal};
use agm_bits::{Memory, Name};
use agm_shelf::{PutEnd, ReadEnd, Shelf, Sink, write_whole};
use std::alloc::Global;

// The most bytes of a file that is read.
const LENGTH_LIMIT: usize = 268_435_456;

/// The name of the report's file beside OUT.
pub(crate) fn report_file(alloc: Global, out: &str) -> Result<String, Memory>
    ensures { IfOk result (λ s. string_bytes s ≡ report_name out.now) }
{
    Ok(format!(in alloc; "{out}.json")?)
}

// A fault in reading a file.
fn read_fault(alloc: Global, name: &str) -> Ended
    ensures { (result ≡ Ended.Memory) ⊎ (result ≡ Ended.ReadFault name.now) }
{
    match Name::from_slice(alloc, name.as_bytes()) {
        Ok(file) => Ended::ReadFault { file },
        Err(_) => Ended::Memory,
    }
}

// A fault in writing a file.
fn write_fault(alloc: Global, name: &str) -> Ended
    ensures { (result ≡ Ended.Memory) ⊎ (result ≡ Ended.WriteFault name.now) }
{
    match Name::from_slice(alloc, name.as_bytes()) {
        Ok(file) => Ended::WriteFault { file },
        Err(_) => Ended::Memory,
    }
}

// A file that is too long.
fn too_long(alloc: Global, name: &str) -> Ended
    ensures { (result ≡ Ended.Memory) ⊎ (result ≡ Ended.Refused (Refusal.TooLong name.now)) }
{
    match Name::from_slice(alloc, name.as_bytes()) {
        Ok(file) => Ended::Refused(Refusal::TooLong { file }),
        Err(_) => Ended::Memory,
    }
}

/// Writes a file.
pub(crate) fn write_file<H: Shelf>(
    alloc: Global,
    shelf: &mut H,
    name: &str,
    text: &[u8],
) -> Result<(), Ended>
    requires { H.pending shelf.old ≡ None }
    ensures pending { H.pending shelf.new ≡ None }
    ensures ok { OnOk result (IsTrue (H.tells shelf.old) → H.holds shelf.new name.now ≡ Some text.now) }
    ensures front { OnErr result (IsTrue (H.tells shelf.old) → IsFrontOrOld text.now (H.holds shelf.old name.now) (H.holds shelf.new name.now)) }
    ensures err { IfErr result (IsWriteEnd name.now (H.sound shelf.old) (H.write_faults shelf.old) (H.write_faults shelf.new)) }
    ensures reads { H.read_faults shelf.new ≡ H.read_faults shelf.old }
    ensures others { OthersStay name.now (H.holds shelf.old) (H.holds shelf.new) }
    ensures goes_on { Continues H.tells H.sound H.read_faults H.write_faults shelf.old shelf.new }
{
    match write_whole(alloc, shelf, name, text) {
        Ok(()) => Ok(()),
        Err(PutEnd::Failed) => Err(write_fault(alloc, name)),
        Err(PutEnd::Memory) => Err(Ended::Memory),
    }
}

/// Reads a file.
pub(crate) fn read_file<H: Shelf>(
    alloc: Global,
    shelf: &mut H,
    name: &str,
) -> Result<Vec<u8>, Ended>
    requires { H.pending shelf.old ≡ None }
    ensures pending { H.pending shelf.new ≡ None }
    ensures ok { IfOk result (λ v. IsTrue (H.tells shelf.old) → H.holds shelf.old name.now ≡ Some v.items) }
    ensures within { IfOk result (λ v. length v.items ≤ length_limit) }
    ensures err { IfErr result (IsReadEnd name.now (H.tells shelf.old) (H.sound shelf.old) (H.holds shelf.old name.now) (H.read_faults shelf.old) (H.read_faults shelf.new)) }
    ensures untouched { IfErr result IsUntouched }
    ensures quiet { OnOk result (H.read_faults shelf.new ≡ H.read_faults shelf.old) }
    ensures told { IfErr result (NoReadFailed (H.read_faults shelf.old) (H.read_faults shelf.new)) }
    ensures same { AllStay (H.holds shelf.old) (H.holds shelf.new) }
    ensures goes_on { Continues H.tells H.sound H.read_faults H.write_faults shelf.old shelf.new }
{
    match shelf.read(alloc, name, LENGTH_LIMIT) {
        Ok(bytes) => Ok(bytes),
        Err(ReadEnd::Failed) => Err(read_fault(alloc, name)),
        Err(ReadEnd::TooLong { .. }) => Err(too_long(alloc, name)),
        Err(ReadEnd::Memory) => Err(Ended::Memory),
    }
}

/// Prints a text.
pub(crate) fn print_text<K: Sink>(sink: &mut K, text: &[u8]) -> Ended
    ensures done { result ≡ Ended.Done → IsTrue (K.tells sink.old) → K.taken sink.new ≡ K.taken sink.old ++ text.now }
    ensures front { result ≢ Ended.Done → IsTrue (K.tells sink.old) → TakesFront text.now (K.taken sink.old) (K.taken sink.new) }
    ensures end { IsPrintEnd (K.sound sink.old) (K.faults sink.old) (K.faults sink.new) result }
{
    match sink.put(text) {
        Ok(()) => Ended::Done,
        Err(PutEnd::Failed) => Ended::PrintFault,
        Err(PutEnd::Memory) => Ended::Memory,
    }
}
