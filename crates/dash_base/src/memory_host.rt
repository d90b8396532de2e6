//! A host that lives in memory, for tests and for proofs about what a run prints.
ghost use Rattle.std.specs.Prelude.{◌≡◌, ◌==◌, ◌↔◌, ℕ, ◌+◌, ◌<◌, ◌≤◌, [], ◌++◌, length, Some, IfOk, IfSome, IfNone, IsSomeAnd, Err, IsErrOf, IsTrue, is_err, option_map, true, vec_len, vec_capacity};
ghost use Rattle.std.specs.BTreeMap.{get_by_text};
ghost use Rattle.std.specs.List.{list_any};
ghost use Rattle.dash_base.specs.Outside.{on};
ghost use Rattle.dash_base.specs.MemoryHost.{files_of, file_at, fails_load, fails_print, after_load, after_print};

use crate::host::{Failed, Host, LoadFault, Stream};
use crate::memory::OutOfMemory;
use std::alloc::Global;
use std::collections::BTreeMap;
use std::marker::Model;

/// A host with files of its own, that keeps what is printed, and fails where it is told to.
///
/// Calls of `load` and `print` are numbered together, from 0. A call whose number is among `failing`
/// fails, and so do the load of a name that is not there and a print that passes the room. Each
/// failure is counted, up to the last value of its count.
#[derive(Drop)]
pub struct MemoryHost {
    files: BTreeMap<String, Vec<u8>>,
    failing: Vec<u32>,
    calls: u64,
    room: u32,
    out: Vec<u8>,
    err: Vec<u8>,
    load_faults: u64,
    print_faults: u64,
}

impl Model for MemoryHost {
    ghost use Rattle.std.specs.Prelude.{◌≤◌, vec_len, vec_capacity};
    ghost use Rattle.dash_base.specs.MemoryHost.{HostState, files_of};

    ghost Value = { HostState };

    ghost view = { λ h. record {
      files = files_of h.files;
      failing = h.failing.items;
      calls = h.calls;
      room = h.room;
      printed = record { out = h.out.items; err = h.err.items };
      load_faults = h.load_faults;
      print_faults = h.print_faults;
    } };

    ghost invariant = { λ h. (vec_len h.out ≤ h.room) × (vec_len h.err ≤ h.room) × (h.room ≤ vec_capacity h.out) × (h.room ≤ vec_capacity h.err) };
}

impl MemoryHost {
    /// A host with these files, and room for `room` printed bytes on each stream.
    pub fn new(
        alloc: Global,
        files: BTreeMap<String, Vec<u8>>,
        room: u32,
        failing: Vec<u32>,
    ) -> Result<MemoryHost, OutOfMemory>
        ensures state { IfOk result (λ h. h ≡ record {
          files = files_of files;
          failing = failing.items;
          calls = 0;
          room = room;
          printed = record { out = []; err = [] };
          load_faults = 0;
          print_faults = 0;
        }) }
        ensures files { IfOk result (λ h. ⟦<MemoryHost as Host>⟧.files h ≡ Some (λ name. option_map (λ bytes. bytes.items) (get_by_text files name))) }
    {
        let out = Vec::with_capacity(alloc, room as usize)?;
        let err = Vec::with_capacity(alloc, room as usize)?;
        Ok(MemoryHost {
            files,
            failing,
            calls: 0,
            room,
            out,
            err,
            load_faults: 0,
            print_faults: 0,
        })
    }

    /// What was printed on a stream.
    pub fn shown(&self, to: Stream) -> &[u8]
        ensures { result.now ≡ on to self.now.printed }
    {
        match to {
            Stream::Out => self.out.as_slice(),
            Stream::Err => self.err.as_slice(),
        }
    }

    /// How many loads failed.
    pub fn failed_loads(&self) -> u64
        ensures { result ≡ self.now.load_faults }
    {
        self.load_faults
    }

    /// How many prints failed.
    pub fn failed_prints(&self) -> u64
        ensures { result ≡ self.now.print_faults }
    {
        self.print_faults
    }
}

impl Host for MemoryHost {
    ghost files = { λ h. Some (file_at h.files) };

    ghost printed = { λ h. Some h.printed };

    ghost load_faults = { λ h. h.load_faults };

    ghost print_faults = { λ h. h.print_faults };

    ghost may_load = { λ h name. true };

    fn load(&mut self, alloc: Global, name: &str, limit: u64) -> Result<Vec<u8>, LoadFault>
        ensures fails { IsErrOf result LoadFault.Failed ↔ IsTrue (fails_load name.now self.old) }
        ensures state { self.new ≡ after_load result self.old }

        ensures small { IfOk result (λ bytes. vec_len bytes ≤ limit) }
        ensures bytes { IfOk result (λ bytes. file_at self.old.files name.now ≡ Some bytes.items) }
        ensures large { (size : ℕ) → result ≡ Err (LoadFault.TooLarge size) → limit < size }
        ensures size { (size : ℕ) → result ≡ Err (LoadFault.TooLarge size)
            → IsSomeAnd (file_at self.old.files name.now) (λ bytes. length bytes ≡ size) }
    {
        let fails = is_among(&self.failing, self.calls);
        self.calls = self.calls.saturating_add(1);
        if fails {
            self.load_faults = self.load_faults.saturating_add(1);
            return Err(LoadFault::Failed);
        }
        match file_of(&self.files, name) {
            None => {
                self.load_faults = self.load_faults.saturating_add(1);
                Err(LoadFault::Failed)
            }
            Some(bytes) => copy_within(alloc, bytes, limit),
        }
    }

    fn print(&mut self, to: Stream, bytes: &[u8]) -> Result<(), Failed>
        ensures fails { is_err result ≡ fails_print to bytes.now self.old }
        ensures state { self.new ≡ after_print to bytes.now result self.old }
    {
        let fails = is_among(&self.failing, self.calls);
        self.calls = self.calls.saturating_add(1);
        let printed = self.shown(to).len();
        if fails || bytes.len() > (self.room as usize).saturating_sub(printed) {
            self.print_faults = self.print_faults.saturating_add(1);
            return Err(Failed);
        }
        match to {
            Stream::Out => append(&mut self.out, bytes),
            Stream::Err => append(&mut self.err, bytes),
        }
        Ok(())
    }
}

/// Whether the number of a call is among these.
fn is_among(numbers: &Vec<u32>, call: u64) -> bool
    ensures { result ≡ list_any (λ number. number == call) numbers.now.items }
{
    numbers.iter().any(|number| u64::from(*number) == call)
}

/// The bytes of a file, if it is there.
fn file_of<'a>(files: &'a BTreeMap<String, Vec<u8>>, name: &str) -> Option<&'a [u8]>
    ensures found { IfSome result (λ bytes. file_at (files_of files.now) name.now ≡ Some bytes.now) }
    ensures absent { IfNone result (file_at (files_of files.now) name.now ≡ None) }
{
    match files.get(name) {
        Some(bytes) => Some(bytes.as_slice()),
        None => None,
    }
}

/// A copy of a file of at most `limit` bytes.
fn copy_within(alloc: Global, bytes: &[u8], limit: u64) -> Result<Vec<u8>, LoadFault>
    ensures ok { IfOk result (λ copy. copy.items ≡ bytes.now) }
    ensures small { IfOk result (λ copy. vec_len copy ≤ limit) }
    ensures large { (size : ℕ) → result ≡ Err (LoadFault.TooLarge size) → limit < size }
    ensures size { (size : ℕ) → result ≡ Err (LoadFault.TooLarge size) → length bytes.now ≡ size }
    ensures failed { ¬ IsErrOf result LoadFault.Failed }
{
    let size = bytes.len() as u64;
    if size > limit {
        return Err(LoadFault::TooLarge { size });
    }
    Ok(Vec::from_slice(alloc, bytes)?)
}

/// Adds bytes to a vector that has room for them.
fn append(to: &mut Vec<u8>, bytes: &[u8])
    requires { vec_len to.old + length bytes.now ≤ vec_capacity to.old }
    ensures items { to.new.items ≡ to.old.items ++ bytes.now }
    ensures capacity { vec_capacity to.old ≤ vec_capacity to.new }
{
    to.extend_from_slice(bytes).unwrap()
}
