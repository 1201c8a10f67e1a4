ghost use Rattle.std.specs.Prelude.{◌≡◌, ◌≤◌, ◌<◌, ◌+◌, ◌^◌, IsTrue, false, Some, None, Ok, IsSome, OnOk, OnErr, IfOk, IfErr, IfSome, length};
ghost use Rattle.agm_shelf.specs.Shelf.{IsTooLong, Continues};
ghost use Rattle.agm_shelf.specs.Turn.{count_after};
ghost use Rattle.agm_shelf.specs.Ends.{read_failed, put_failed};
ghost use Rattle.std.specs.Io.KnownBytes.{Appends};
ghost use Rattle.agm_shelf.specs.FilesShelf.{open_name, open_contents, read_failures, write_failures};

use crate::{PutEnd, ReadEnd, Shelf};
use agm_bits::Name;
use std::alloc::Global;
use std::fs::{self, OpenFile};
use std::io::{ErrorKind, Read, Write};
use std::rt::Files;

// An output that is written.
#[derive(Drop)]
struct Output<F> {
    name: Name,
    file: F,
}

/// The files of the system, by their paths. It tells no content.
#[derive(Drop)]
pub struct FilesShelf<R: Files> {
    rt: R,
    output: Option<Output<R::File>>,
    read_faults: u64,
    write_faults: u64,
}

// Whether a file is known to be longer than a limit before it is read. A pipe tells no length.
fn is_longer<F: OpenFile>(file: &F, limit: usize) -> bool
    ensures { IsTrue result → limit + 1 < 2 ^ 64 }
{
    match file.metadata() {
        Ok(facts) => facts.len() > limit as u64,
        Err(_) => false,
    }
}

// All that a file has, where this isn't more than `limit` bytes. At most one byte more is read.
fn read_within<F: Read + OpenFile + Drop>(
    alloc: Global,
    file: F,
    limit: usize,
) -> Result<Vec<u8>, ReadEnd>
    ensures within { IfOk result (λ v. length v.items ≤ limit) }
    ensures whole { IfOk result (λ v. IfSome (F.remaining file) (λ bytes. v.items ≡ bytes)) }
    ensures too_long { IfErr result (IsTooLong limit false None) }
{
    if is_longer(&file, limit) {
        return Err(ReadEnd::TooLong { seen: limit + 1 });
    }
    let mut bytes = Vec::new(alloc);
    let most = (limit as u64).saturating_add(1);
    match file.take(most).read_to_end(&mut bytes) {
        Ok(_) if bytes.len() > limit => Err(ReadEnd::TooLong { seen: limit + 1 }),
        Ok(_) => Ok(bytes),
        Err(error) if error.kind() == ErrorKind::OutOfMemory => Err(ReadEnd::Memory),
        Err(_) => Err(ReadEnd::Failed),
    }
}

impl<R: Files + Drop> FilesShelf<R> {
    /// Nothing is pending, and nothing has failed.
    pub fn new(rt: R) -> FilesShelf<R>
        ensures pending { open_name result ≡ None }
        ensures reads { read_failures result ≡ 0 }
        ensures writes { write_failures result ≡ 0 }
    {
        FilesShelf {
            rt,
            output: None,
            read_faults: 0,
            write_faults: 0,
        }
    }
}

impl<R: Files + Drop> Shelf for FilesShelf<R> {
    ghost tells = { λ _. false };

    ghost holds = { λ _ _. None };

    ghost pending = { open_name };

    ghost read_faults = { read_failures };

    ghost write_faults = { write_failures };

    ghost sound = { λ _. false };

    ghost sound_tells = { λ s h. h };

    fn read(&mut self, alloc: Global, name: &str, limit: usize) -> Result<Vec<u8>, ReadEnd>
        ensures within { IfOk result (λ v. length v.items ≤ limit) }
        ensures too_long { IfErr result (IsTooLong limit false None) }
        ensures pending { open_name self.new ≡ open_name self.old }

        // Each failure is counted, and nothing else.
        ensures count { read_failures self.new ≡ count_after (read_failed result) (read_failures self.old) }
        ensures write_count { write_failures self.new ≡ write_failures self.old }
        ensures goes_on { Continues (λ _. false) (λ _. false) read_failures write_failures self.old self.new }
    {
        let text = match fs::open(&self.rt, name) {
            Ok(file) => read_within(alloc, file, limit),
            Err(_) => Err(ReadEnd::Failed),
        };
        if let Err(ReadEnd::Failed) = text {
            self.read_faults = self.read_faults.saturating_add(1);
        }
        text
    }

    fn begin(&mut self, alloc: Global, name: &str) -> Result<(), PutEnd>
        requires { open_name self.old ≡ None }
        ensures ok { OnOk result (open_name self.new ≡ Some name.now) }
        ensures err { OnErr result (open_name self.new ≡ None) }

        // Each failure is counted, and nothing else.
        ensures count { write_failures self.new ≡ count_after (put_failed result) (write_failures self.old) }
        ensures read_count { read_failures self.new ≡ read_failures self.old }
        ensures goes_on { Continues (λ _. false) (λ _. false) read_failures write_failures self.old self.new }
    {
        let path = name;
        let name = Name::from_slice(alloc, path.as_bytes())?;
        match fs::create(&self.rt, path) {
            Ok(file) => {
                self.output = Some(Output { name, file });
                Ok(())
            }
            Err(_) => {
                self.write_faults = self.write_faults.saturating_add(1);
                Err(PutEnd::Failed)
            }
        }
    }

    fn append(&mut self, bytes: &[u8]) -> Result<(), PutEnd>
        requires { IsSome (open_name self.old) }
        ensures ok { OnOk result (open_name self.new ≡ open_name self.old) }
        ensures err { OnErr result (open_name self.new ≡ None) }

        // A file that tells what it holds has grown by all the bytes.
        ensures grown { OnOk result (Appends (open_contents R.File.contents self.old) (open_contents R.File.contents self.new) bytes.now) }

        // Each failure is counted, and nothing else.
        ensures count { write_failures self.new ≡ count_after (put_failed result) (write_failures self.old) }
        ensures read_count { read_failures self.new ≡ read_failures self.old }
        ensures goes_on { Continues (λ _. false) (λ _. false) read_failures write_failures self.old self.new }
    {
        let is_written = match &mut self.output {
            Some(output) => output.file.write_all(bytes).is_ok(),
            None => false,
        };
        if is_written {
            return Ok(());
        }
        self.output = None;
        self.write_faults = self.write_faults.saturating_add(1);
        Err(PutEnd::Failed)
    }

    fn end(&mut self) -> Result<(), PutEnd>
        requires { IsSome (open_name self.old) }
        ensures ok { result ≡ Ok tt }
        ensures ended { open_name self.new ≡ None }
        ensures write_count { write_failures self.new ≡ write_failures self.old }
        ensures read_count { read_failures self.new ≡ read_failures self.old }
    {
        self.output = None;
        Ok(())
    }
}
