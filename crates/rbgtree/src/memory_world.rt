// Files and samples in memory.
ghost use Rattle.std.specs.Prelude.{Some, IfSome, IfNone, IfOk, OnOk, OnErr, IsErr, IsTrue, Contains, List, ℕ, length, take, drop, min, ◌≡◌, ◌≤◌, ◌<◌, ◌-◌, ◌+◌, ◌^◌, ◌↔◌, ◌⊎◌};
ghost use Rattle.std.specs.Io.{ReadsAtMost};
ghost use Rattle.rbg_bytes.specs.Streams.{HasCause};
ghost use Rattle.rbgtree.specs.Files.{IsFile, IsMissing, ReadsFile};
ghost use Rattle.rbgtree.specs.Recordings.{OpensSamples, TakesOut};
ghost use Rattle.rbgtree.specs.MemoryFiles.{named, labelled, recorded, names, IsFirstAt, IsNoName, AreMissing, after_call, after_failed_call, after_opening};

use crate::world::World;
use rbg_bytes::Failed;
use sample_source::Samples;
use std::marker::Model;

/// Files and samples in memory, which are told. A call fails where its number, counted from 0 over the openings of samples and
/// the reads of files together, was listed, and where nothing has the name.
#[derive(Drop)]
pub struct MemWorld<S> {
    files: Vec<(String, Vec<u8>)>,
    samples: Vec<(String, S)>,
    fail: Vec<u64>,
    calls: u64,
    faults: u64,
}

impl<S> Model for MemWorld<S> {
    ghost use Rattle.rbgtree.specs.MemoryFiles.{Shelf, named, labelled};

    ghost Value = { Shelf S };

    ghost view = { λ w. record { files = named w.files.items; samples = labelled w.samples.items; fail = w.fail.items; calls = w.calls; faults = w.faults } };
}

impl<S> MemWorld<S> {
    /// These files and samples, of which the calls with the numbers in `fail` fail.
    pub fn new(
        files: Vec<(String, Vec<u8>)>,
        samples: Vec<(String, S)>,
        fail: Vec<u64>,
    ) -> MemWorld<S>
        ensures { result ≡ record { files = named files.items; samples = labelled samples.items; fail = fail.items; calls = 0; faults = 0 } }
    {
        MemWorld {
            files,
            samples,
            fail,
            calls: 0,
            faults: 0,
        }
    }

    // Whether the next call is one that fails.
    fn fails_next(&self) -> bool
        ensures { IsTrue result ↔ Contains self.now.fail self.now.calls }
    {
        self.fail.contains(&self.calls)
    }
}

// The place of the first entry of that name.
fn first_named<T>(entries: &[(String, T)], name: &str) -> Option<usize>
    ensures some { IfSome result (λ i. IsFirstAt (names entries.now) name.now i) }
    ensures within { IfSome result (λ i. i < length entries.now) }
    ensures none { IfNone result (IsNoName (names entries.now) name.now) }
{
    let mut place = 0;
    for entry in entries {
        if entry.0.as_str() == name {
            return Some(place);
        }
        place += 1;
    }
    None
}

// The bytes of the first file of that name.
fn find<'a>(files: &'a [(String, Vec<u8>)], name: &str) -> Option<&'a [u8]>
    ensures some { IfSome result (λ bytes. IsFile (named files.now) name.now bytes.now) }
    ensures none { IfNone result (IsMissing (named files.now) name.now) }
{
    match first_named(files, name) {
        Some(place) => Some(files[place].1.as_slice()),
        None => None,
    }
}

// The samples of the first entry of that name, which is then gone.
fn take_out<S>(samples: &mut Vec<(String, S)>, name: &str) -> Option<S>
    ensures some { IfSome result (λ s. TakesOut (labelled samples.old.items) name.now s (labelled samples.new.items)) }
    ensures none { IfNone result (AreMissing (labelled samples.old.items) name.now × (samples.new ≡ samples.old)) }
{
    match first_named(samples, name) {
        Some(place) => Some(samples.remove(place).1),
        None => None,
    }
}

// Copies the bytes from a place on, as many as there are and fit.
fn copy_from(bytes: &[u8], at: u64, buf: &mut [u8]) -> usize
    ensures count { result ≡ min (length buf.old) (length bytes.now - at) }
    ensures bytes { take result (drop at bytes.now) ≡ take result buf.new }
{
    if at >= bytes.len() as u64 {
        return 0;
    }
    let rest = &bytes[at as usize..];
    let count = buf.len().min(rest.len());
    buf[..count].copy_from_slice(&rest[..count]);
    count
}

impl<S: Samples + Send> World for MemWorld<S> {
    type Samples = S;

    ghost files = { λ w. Some w.files };

    ghost recordings = { λ w. Some (recorded S.told S.faults w.samples) };

    ghost faults = { λ w. w.faults };

    fn open_samples(&mut self, name: &str) -> Result<S, Failed>
        ensures samples { OpensSamples S.told S.faults (Some (recorded S.told S.faults self.old.samples)) (Some (recorded S.told S.faults self.new.samples)) name.now result }
        ensures files { Some self.new.files ≡ Some self.old.files }
        ensures cause { HasCause self.old.faults self.new.faults result }
        ensures failed { IsErr result ↔ (Contains self.old.fail self.old.calls ⊎ AreMissing self.old.samples name.now) }
        ensures ok { IfOk result (λ samples. TakesOut self.old.samples name.now samples self.new.samples × (self.new ≡ after_opening self.old self.new.samples)) }
        ensures err { OnErr result (self.new ≡ after_failed_call self.old) }
    {
        let fails = self.fails_next();
        self.calls = self.calls.saturating_add(1);
        if !fails {
            if let Some(samples) = take_out(&mut self.samples, name) {
                return Ok(samples);
            }
        }
        self.faults = self.faults.saturating_add(1);
        Err(Failed)
    }

    fn read_file(&mut self, name: &str, at: u64, buf: &mut [u8]) -> Result<usize, Failed>
        requires { 0 < length buf.old }
        ensures bound { ReadsAtMost result buf.new }
        ensures bytes { ReadsFile (Some self.old.files) name.now at result buf.new }
        ensures files { Some self.new.files ≡ Some self.old.files }
        ensures recordings { Some (recorded S.told S.faults self.new.samples) ≡ Some (recorded S.told S.faults self.old.samples) }
        ensures cause { HasCause self.old.faults self.new.faults result }
        ensures failed { IsErr result ↔ (Contains self.old.fail self.old.calls ⊎ IsMissing self.old.files name.now) }
        ensures count { IfOk result (λ n. (bytes : List ℕ) × IsFile self.old.files name.now bytes × (n ≡ min (length buf.old) (length bytes - at))) }
        ensures ok { OnOk result (self.new ≡ after_call self.old) }
        ensures err { OnErr result (self.new ≡ after_failed_call self.old) }
    {
        let fails = self.fails_next();
        self.calls = self.calls.saturating_add(1);
        if !fails {
            if let Some(bytes) = find(&self.files, name) {
                return Ok(copy_from(bytes, at, buf));
            }
        }
        self.faults = self.faults.saturating_add(1);
        Err(Failed)
    }

    fn fault_count(&self) -> u64 {
        self.faults
    }
}
