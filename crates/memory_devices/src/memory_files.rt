//! Files in memory, of which chosen reads fail.
ghost use Rattle.std.specs.Prelude.{[], ℕ, ◌++◌, ◌<◌, ◌↔◌, ◌∷◌, ◌≡◌, ◌≤◌, IfOk, IsErr, OnErr, OnOk, length, min, take};
ghost use Rattle.{outside.specs.{Faults.{MayRise}, Reading.{LeavesOthers}}, memory_devices.specs.Common.{HasCause}};
ghost use Rattle.memory_devices.specs.MemoryFiles.{FilesState, IsListedRead, failed_in, read_from, rest_of};

use crate::memory_file::MemoryFile;
use outside::{Failed, Files};
use std::alloc::Global;
use std::marker::Model;
use taxi_units::NoMemory;

/// Files in memory. The words have them in the order in which they were added, and a word without one reads an empty
/// file. The reads are numbered from 1, over all words, and exactly those with chosen numbers fail. Each word's count
/// of faults is the number of all reads that failed. A number stops at the last value of a `u64`.
#[derive(Drop)]
pub struct MemoryFiles {
    alloc: Global,
    files: Vec<MemoryFile>,
    fail: Vec<u64>,
    reads: u64,
    failed: u64,
}

impl Model for MemoryFiles {
    ghost Value = { FilesState };

    ghost view = { λ f. record { files = f.files.items; fail = f.fail.items; reads = f.reads; failed = f.failed } };
}

impl MemoryFiles {
    /// No file yet. The reads with the numbers in `fail` will fail. `NoMemory`: there is no memory.
    pub fn new(alloc: Global, fail: &[u64]) -> Result<MemoryFiles, NoMemory>
        ensures { IfOk result (λ f. f ≡ record { files = []; fail = fail.now; reads = 0; failed = 0 }) }
    {
        let Ok(fail) = Vec::from_slice(alloc, fail) else {
            return Err(NoMemory);
        };
        Ok(MemoryFiles {
            alloc,
            files: Vec::new(alloc),
            fail,
            reads: 0,
            failed: 0,
        })
    }

    /// Gives the next word a file with this content: word 0 first, then word 1 and so on. `NoMemory`: there is no
    /// memory, and nothing has changed.
    pub fn add(&mut self, content: &[u8]) -> Result<(), NoMemory>
        ensures added { OnOk result (self.new ≡ record self.old { files = self.old.files ++ content.now ∷ [] }) }
        ensures same { OnErr result (self.new ≡ self.old) }
    {
        let Ok(content) = Vec::from_slice(self.alloc, content) else {
            return Err(NoMemory);
        };
        self.files
            .push(MemoryFile::new(content))
            .map_err(|_| NoMemory)
    }
}

impl Files for MemoryFiles {
    ghost tells = { Unit {0} };

    ghost rest = { rest_of };

    ghost faults = { λ f _. f.failed };

    fn read(&mut self, word: usize, buf: &mut [u8]) -> Result<usize, Failed>
        requires { 0 < length buf.old }
        ensures within { IfOk result (λ n. n ≤ length buf.old) }
        ensures taken { IfOk result (λ n. rest_of self.old word ≡ take n buf.new ++ rest_of self.new word) }
        ensures over { result ≡ Ok 0 → rest_of self.old word ≡ [] }
        ensures kept { OnErr result (rest_of self.new word ≡ rest_of self.old word) }
        ensures others { LeavesOthers rest_of word self.old self.new }
        ensures cause { HasCause self.old.failed self.new.failed result }
        ensures counts { ℕ → MayRise (IsErr result) self.old.failed self.new.failed }

        // Exactly the reads whose numbers are in the list fail. The others fill the buffer or take all that is left.
        ensures exactly { IsErr result ↔ IsListedRead self.old }
        ensures count { IfOk result (λ n. n ≡ min (length buf.old) (length (rest_of self.old word))) }
        ensures read { IfOk result (λ n. self.new ≡ read_from self.old word n) }
        ensures failed { OnErr result (self.new ≡ failed_in self.old) }
    {
        self.reads = self.reads.saturating_add(1);
        if self.fail.contains(&self.reads) {
            self.failed = self.failed.saturating_add(1);
            return Err(Failed);
        }
        match self.files.get_mut(word) {
            Some(file) => Ok(file.take(buf)),
            None => Ok(0),
        }
    }
}
