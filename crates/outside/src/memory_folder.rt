ghost use Rattle.std.specs.Prelude.{◌≡◌, [], ◌||◌, Some, map, string_bytes, IfOk, OnOk, OnErr, IsErrOf, option_map, option_copied, is_none};
ghost use Rattle.outside.specs.Folder.{Holds, written, called};
ghost use Rattle.outside.specs.Cause.{HasCause, StandsUnless};

use crate::folder::{Folder, FolderFault};
use std::alloc::{AllocError, Global};
use std::collections::BTreeMap;

/// A folder in memory, which tells its files and its calls. Own.
///
/// It fails at the calls whose numbers, from 0, stand in its list, at a read of a name that isn't there, and nowhere
/// else.
#[derive(Drop)]
pub struct MemoryFolder {
    alloc: Global,
    files: BTreeMap<String, Vec<u8>>,
    calls: Vec<String>,
    failing: Vec<u64>,
    faults: u64,
}

impl MemoryFolder {
    ghost use Rattle.outside.specs.MemoryFolder.{files_of, calls_of, failing_of, failed_calls, files_made, is_listed};

    /// A folder of these files that fails at the calls of these numbers. A later file of the same name replaces an
    /// earlier one.
    pub fn new(
        alloc: Global,
        files: Vec<(String, Vec<u8>)>,
        failing: Vec<u64>,
    ) -> Result<MemoryFolder, AllocError>
        ensures files { IfOk result (λ folder. files_of folder ≡ files_made files.items) }
        ensures calls { IfOk result (λ folder. calls_of folder ≡ []) }
        ensures failing { IfOk result (λ folder. failing_of folder ≡ failing.items) }
        ensures faults { IfOk result (λ folder. failed_calls folder ≡ 0) }
    {
        let mut map = BTreeMap::new(alloc);
        for (name, bytes) in files {
            map.insert(name, bytes)?;
        }
        Ok(MemoryFolder {
            alloc,
            files: map,
            calls: Vec::new(alloc),
            failing,
            faults: 0,
        })
    }

    /// Lends the file of this name, or nothing exactly where it isn't there.
    pub fn file(&self, name: &str) -> Option<&Vec<u8>>
        ensures { option_map (λ bytes. bytes.items) (option_copied result) ≡ files_of self.now name.now }
    {
        self.files.get(name)
    }

    /// Lends the names that were called, in order.
    pub fn calls(&self) -> &Vec<String>
        ensures { map string_bytes result.now.items ≡ calls_of self.now }
    {
        &self.calls
    }

    fn is_listed(&self) -> bool
        ensures { result ≡ is_listed self.now }
    {
        let number = self.calls.len() as u64;
        self.failing.contains(&number)
    }

    /// Whether a read of this name is to fail.
    fn read_fails(&self, name: &str) -> bool
        ensures { result ≡ (is_listed self.now || is_none (files_of self.now name.now)) }
    {
        self.is_listed() || self.files.get(name).is_none()
    }
}

impl Folder for MemoryFolder {
    ghost use Rattle.std.specs.Prelude.{Some};
    ghost use Rattle.outside.specs.MemoryFolder.{files_of, calls_of, failing_of, failed_calls, faults_after, is_listed, FailsExactly};

    ghost files = { λ folder. Some (files_of folder) };

    ghost calls = { λ folder. Some (calls_of folder) };

    ghost faults = { failed_calls };

    fn read(&mut self, name: &str) -> Result<Vec<u8>, FolderFault>
        ensures bytes { IfOk result (λ bytes. Holds (Some (files_of self.old)) name.now bytes.items) }
        ensures same { files_of self.new ≡ files_of self.old }
        ensures calls { Some (calls_of self.new) ≡ called name.now result (Some (calls_of self.old)) }
        ensures cause { HasCause (failed_calls self.old) (failed_calls self.new) (IsErrOf result FolderFault.Failed) }
        ensures stands { StandsUnless (IsErrOf result FolderFault.Failed) (failed_calls self.old) (failed_calls self.new) }
        ensures exact { FailsExactly (is_listed self.old || is_none (files_of self.old name.now)) result }
        ensures counted { failed_calls self.new ≡ faults_after result (failed_calls self.old) }
        ensures list { failing_of self.new ≡ failing_of self.old }
    {
        let noted = String::from_str(self.alloc, name)?;
        if self.read_fails(name) {
            self.calls.push(noted)?;
            self.faults = self.faults.saturating_add(1);
            return Err(FolderFault::Failed);
        }
        let Some(bytes) = self.files.get(name) else {
            unreachable!()
        };
        let bytes = bytes.clone()?;
        self.calls.push(noted)?;
        Ok(bytes)
    }

    fn write(&mut self, name: &str, bytes: &[u8]) -> Result<(), FolderFault>
        ensures written { OnOk result (Some (files_of self.new) ≡ option_map (written name.now bytes.now) (Some (files_of self.old))) }
        ensures err { OnErr result (files_of self.new ≡ files_of self.old) }
        ensures calls { Some (calls_of self.new) ≡ called name.now result (Some (calls_of self.old)) }
        ensures cause { HasCause (failed_calls self.old) (failed_calls self.new) (IsErrOf result FolderFault.Failed) }
        ensures stands { StandsUnless (IsErrOf result FolderFault.Failed) (failed_calls self.old) (failed_calls self.new) }
        ensures exact { FailsExactly (is_listed self.old) result }
        ensures counted { failed_calls self.new ≡ faults_after result (failed_calls self.old) }
        ensures list { failing_of self.new ≡ failing_of self.old }
    {
        let noted = String::from_str(self.alloc, name)?;
        if self.is_listed() {
            self.calls.push(noted)?;
            self.faults = self.faults.saturating_add(1);
            return Err(FolderFault::Failed);
        }
        let key = String::from_str(self.alloc, name)?;
        let copy = Vec::from_slice(self.alloc, bytes)?;
        self.calls.push(noted)?;
        match self.files.insert(key, copy) {
            Ok(_) => Ok(()),
            Err(_) => {
                self.calls.pop();
                Err(FolderFault::Memory)
            }
        }
    }
}
