// The real files, noise sources, input and output. They count their faults and tell no content.
ghost use Rattle.std.specs.Prelude.{◌≡◌, None, Ok, IfOk, IfErr, IsErr, ⊤};
ghost use Rattle.std.specs.Io.{ReadsAtMost};
ghost use Rattle.rbg_bytes.specs.Streams.{HasCause};

use crate::world::World;
use rbg_bytes::{ByteSink, ByteSource, Failed};
use sample_source::Samples;
use std::fs::{self, File};
use std::io::{self, Read, Seek, SeekFrom, Write};
use std::net::{Net, TcpStream};
use std::rt::Files;

// What the system answered, where a failure is counted.
fn counted<T: Drop>(answer: io::Result<T>, faults: &mut u64) -> Result<T, Failed>
    ensures value { IfOk result (λ value. answer ≡ Ok value) }
    ensures failed { IfErr result (λ _. IsErr answer) }
    ensures cause { HasCause faults.old faults.new result }
{
    match answer {
        Ok(value) => Ok(value),
        Err(_) => {
            *faults = faults.saturating_add(1);
            Err(Failed)
        }
    }
}

/// A source over any reader, as standard input.
#[derive(Drop)]
pub struct Reading<R> {
    inner: R,
    faults: u64,
}

impl<R> Reading<R> {
    /// The source of which no read has failed yet.
    pub fn new(inner: R) -> Reading<R> {
        Reading { inner, faults: 0 }
    }
}

impl<R: Read + Drop> ByteSource for Reading<R> {
    ghost left = { λ _. None };

    ghost faults = { λ s. s.faults };

    fn read(&mut self, buf: &mut [u8]) -> Result<usize, Failed> {
        let answer = self.inner.read(buf);
        counted(answer, &mut self.faults)
    }

    fn fault_count(&self) -> u64 {
        self.faults
    }
}

/// A sink over any writer, as standard output and standard error. A write that takes nothing of a piece that isn't empty is a
/// fault.
#[derive(Drop)]
pub struct Writing<W> {
    inner: W,
    faults: u64,
}

impl<W> Writing<W> {
    /// The sink of which no write has failed yet.
    pub fn new(inner: W) -> Writing<W> {
        Writing { inner, faults: 0 }
    }
}

impl<W: Write + Drop> ByteSink for Writing<W> {
    ghost out = { λ _. None };

    ghost faults = { λ s. s.faults };

    fn write_all(&mut self, bytes: &[u8]) -> Result<(), Failed> {
        let answer = self.inner.write_all(bytes);
        counted(answer, &mut self.faults)
    }

    fn fault_count(&self) -> u64 {
        self.faults
    }
}

/// The samples of a noise source: those of a file, as a device is one, or those that come over a connection.
#[derive(Drop)]
pub struct OsSamples {
    device: Device,
    faults: u64,
}

#[derive(Drop)]
enum Device {
    OfFile(File),
    OfStream(TcpStream),
}

impl Device {
    // The next samples, as many as come.
    fn next(&mut self, buf: &mut [u8]) -> io::Result<usize>
        ensures { ReadsAtMost result buf.new }
    {
        match self {
            Device::OfFile(file) => file.read(buf),
            Device::OfStream(stream) => stream.read(buf),
        }
    }
}

impl Samples for OsSamples {
    ghost told = { λ _. None };

    ghost faults = { λ s. s.faults };

    ghost reads = { λ _ _ _ _. ⊤ };

    fn read(&mut self, buf: &mut [u8]) -> Result<usize, Failed> {
        let answer = self.device.next(buf);
        counted(answer, &mut self.faults)
    }

    fn fault_count(&self) -> u64 {
        self.faults
    }
}

// Opens samples by name: one that begins with `tcp:` is an address to connect to, any other is that of a file.
fn open_device<R: Files<File = File> + Net<Stream = TcpStream>>(
    system: &R,
    name: &str,
) -> io::Result<Device> {
    match name.strip_prefix("tcp:") {
        Some(address) => Ok(Device::OfStream(TcpStream::connect(system, address)?)),
        None => Ok(Device::OfFile(fs::open(system, name)?)),
    }
}

// A file that is being read, its name, and the place up to which it was read.
#[derive(Drop)]
struct Opened {
    name: String,
    file: File,
    at: u64,
}

impl Opened {
    // Opens a file at a place. At its front nothing is sought, so that a pipe can be opened too.
    fn open<R: Files<File = File> + AllocGlobal>(
        system: &R,
        name: &str,
        at: u64,
    ) -> io::Result<Opened> {
        let owned = String::from_str(system.alloc(), name)?;
        let mut file = fs::open(system, name)?;
        if 0 < at {
            file.seek(SeekFrom::Start(at))?;
        }
        Ok(Opened {
            name: owned,
            file,
            at,
        })
    }

    // Whether this is the file of that name, and was read up to that place.
    fn stands_at(&self, name: &str, at: u64) -> bool {
        self.name.as_str() == name && self.at == at
    }

    // Reads on.
    fn read(&mut self, buf: &mut [u8]) -> io::Result<usize>
        ensures { ReadsAtMost result buf.new }
    {
        let count = self.file.read(buf)?;
        self.at = self.at.saturating_add(count as u64);
        Ok(count)
    }
}

/// The files and the noise sources of the system. The file that was read last stays open: a read of it from the place up to
/// which it was read goes on there, so that what comes through a pipe can be read to its end, however long it is. A read of
/// another file or from another place opens the file anew.
#[derive(Drop)]
pub struct OsWorld<'a, R> {
    system: &'a R,
    last: Option<Opened>,
    faults: u64,
}

impl<'a, R> OsWorld<'a, R> {
    /// The system, of which nothing has failed yet.
    pub fn new(system: &'a R) -> OsWorld<'a, R> {
        OsWorld {
            system,
            last: None,
            faults: 0,
        }
    }
}

impl<'a, R: Files<File = File> + AllocGlobal> OsWorld<'a, R> {
    // Reads a file's bytes from a place on, as many as come at once. After a failure no file stays open.
    fn read_at(&mut self, name: &str, at: u64, buf: &mut [u8]) -> io::Result<usize>
        ensures bound { ReadsAtMost result buf.new }
        ensures faults { self.new.faults ≡ self.old.faults }
    {
        let mut opened = match self.last.take() {
            Some(last) if last.stands_at(name, at) => last,
            _ => Opened::open(self.system, name, at)?,
        };
        let count = opened.read(buf)?;
        self.last = Some(opened);
        Ok(count)
    }
}

impl<'a, R: Files<File = File> + Net<Stream = TcpStream> + AllocGlobal> World for OsWorld<'a, R> {
    type Samples = OsSamples;

    ghost files = { λ _. None };

    ghost recordings = { λ _. None };

    ghost faults = { λ s. s.faults };

    fn open_samples(&mut self, name: &str) -> Result<OsSamples, Failed> {
        let answer = open_device(self.system, name);
        let device = counted(answer, &mut self.faults)?;
        Ok(OsSamples { device, faults: 0 })
    }

    fn read_file(&mut self, name: &str, at: u64, buf: &mut [u8]) -> Result<usize, Failed> {
        let answer = self.read_at(name, at, buf);
        counted(answer, &mut self.faults)
    }

    fn fault_count(&self) -> u64 {
        self.faults
    }
}
