ghost use Rattle.std.specs.Prelude.{◌≡◌, [], OnOk, OnErr, IsErrOf, option_map, ◌++◌, Some, ◌+◌, ◌^◌, ◌-◌, min};
ghost use Rattle.outside.specs.Cause.{HasCause, StandsUnless};

use crate::sink::{OutFault, Sink};
use std::alloc::Global;

/// A stream into memory, which tells its bytes. Own.
///
/// It fails at the writes whose numbers, from 0, stand in its list, and nowhere else.
#[derive(Drop)]
pub struct MemorySink {
    bytes: Vec<u8>,
    failing: Vec<u64>,
    writes: u64,
    faults: u64,
}

impl MemorySink {
    ghost use Rattle.outside.specs.MemorySink.{bytes_of, failing_of, writes_of, failed_writes, is_listed};

    /// An empty stream that fails at the writes of these numbers.
    pub fn new(alloc: Global, failing: Vec<u64>) -> MemorySink
        ensures bytes { bytes_of result ≡ [] }
        ensures failing { failing_of result ≡ failing.items }
        ensures writes { writes_of result ≡ 0 }
        ensures faults { failed_writes result ≡ 0 }
    {
        MemorySink {
            bytes: Vec::new(alloc),
            failing,
            writes: 0,
            faults: 0,
        }
    }

    /// Lends the bytes that were taken.
    pub fn bytes(&self) -> &Vec<u8>
        ensures { result.now.items ≡ bytes_of self.now }
    {
        &self.bytes
    }

    fn is_listed(&self) -> bool
        ensures { result ≡ is_listed self.now }
    {
        self.failing.contains(&self.writes)
    }
}

impl Sink for MemorySink {
    ghost use Rattle.outside.specs.MemorySink.{bytes_of, failed_writes, faults_after, is_listed, writes_of, writes_after, failing_of, FailsExactly};
    ghost use Rattle.std.specs.Prelude.{Some};

    ghost taken = { λ sink. Some (bytes_of sink) };

    ghost faults = { failed_writes };

    fn write(&mut self, bytes: &[u8]) -> Result<(), OutFault>
        ensures written { OnOk result (Some (bytes_of self.new) ≡ option_map (λ before. before ++ bytes.now) (Some (bytes_of self.old))) }
        ensures err { OnErr result (bytes_of self.new ≡ bytes_of self.old) }
        ensures cause { HasCause (failed_writes self.old) (failed_writes self.new) (IsErrOf result OutFault.Failed) }
        ensures stands { StandsUnless (IsErrOf result OutFault.Failed) (failed_writes self.old) (failed_writes self.new) }
        ensures exact { FailsExactly (is_listed self.old) result }
        ensures counted { failed_writes self.new ≡ faults_after result (failed_writes self.old) }
        ensures list { failing_of self.new ≡ failing_of self.old }
        ensures writes { writes_of self.new ≡ writes_after result (writes_of self.old) }
    {
        if self.is_listed() {
            self.writes = self.writes.saturating_add(1);
            self.faults = self.faults.saturating_add(1);
            return Err(OutFault::Failed);
        }
        self.bytes.extend_from_slice(bytes)?;
        self.writes = self.writes.saturating_add(1);
        Ok(())
    }
}
