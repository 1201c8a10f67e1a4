ghost use Rattle.std.specs.Prelude.{◌≡◌, ◌≢◌, false, [], Err};
ghost use Rattle.agm_shelf.specs.Shelf.{Continues};
ghost use Rattle.agm_shelf.specs.Turn.{count_after};
ghost use Rattle.agm_shelf.specs.Ends.{put_failed};
ghost use Rattle.agm_shelf.specs.StdSink.{failures};

use crate::{PutEnd, Sink};

/// The standard output. It doesn't tell what it has taken.
#[derive(Drop)]
pub struct StdSink<R> {
    rt: R,
    faults: u64,
}

impl<R: Print + Drop> StdSink<R> {
    /// Nothing has failed.
    pub fn new(rt: R) -> StdSink<R>
        ensures { failures result ≡ 0 }
    {
        StdSink { rt, faults: 0 }
    }
}

impl<R: Print + Drop> Sink for StdSink<R> {
    ghost tells = { λ _. false };

    ghost taken = { λ _. [] };

    ghost faults = { failures };

    ghost sound = { λ _. false };

    ghost sound_tells = { λ s h. h };

    fn put(&mut self, bytes: &[u8]) -> Result<(), PutEnd>
        ensures no_memory { result ≢ Err PutEnd.Memory }

        // Each failure is counted.
        ensures count { failures self.new ≡ count_after (put_failed result) (failures self.old) }
        ensures goes_on { Continues (λ _. false) (λ _. false) failures failures self.old self.new }
    {
        if self.rt.write_all(bytes).is_err() {
            self.faults = self.faults.saturating_add(1);
            return Err(PutEnd::Failed);
        }
        Ok(())
    }
}
