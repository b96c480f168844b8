// Files and samples of the outside, in memory and real, and the real readers and writers.
use crate::host::{OsWorld, Reading, Writing};
use crate::memory_world::MemWorld;
use crate::world::World;
use rbg_bytes::{ByteSink, ByteSource, Failed};
use sample_source::{Recorded, Samples};
use std::io::Write;
use std::net::TcpListener;
use std::test::Fail;

// The next samples of the entry of that name, or that it can't be opened.
fn next_of<W: World>(world: &mut W, name: &str) -> Result<(usize, [u8; 4]), Failed> {
    let mut samples = world.open_samples(name)?;
    let mut buf = [0u8; 4];
    let count = samples.read(&mut buf)?;
    Ok((count, buf))
}

#[test]
fn samples_in_memory_are_handed_out_once(rt: HostRuntime) -> Result<(), Fail> {
    let alloc = rt.alloc();
    let mut samples = Vec::new(alloc);
    for (name, sample) in [("a", 1u8), ("b", 2), ("a", 3)] {
        let recorded = Recorded::new(vec![in alloc; sample; 2]?);
        samples.push((String::from_str(alloc, name)?, recorded))?;
    }
    let mut world = MemWorld::new(Vec::new(alloc), samples, vec![in alloc; 1u64]?);
    assert_eq!(rt; next_of(&mut world, "a"), Ok((2, [1, 1, 0, 0])));
    assert_eq!(rt; next_of(&mut world, "a"), Err(Failed));
    assert_eq!(rt; next_of(&mut world, "a"), Ok((2, [3, 3, 0, 0])));
    assert_eq!(rt; next_of(&mut world, "a"), Err(Failed));
    assert_eq!(rt; next_of(&mut world, "c"), Err(Failed));
    assert_eq!(rt; next_of(&mut world, "b"), Ok((2, [2, 2, 0, 0])));
    assert_eq!(rt; world.fault_count(), 3);
    Ok(())
}

#[test]
fn samples_of_a_file_and_over_a_connection(rt: HostRuntime) -> Result<(), Fail> {
    let name = "rbgtree-test-samples";
    std::fs::write(&rt, name, "012345")?;
    let mut world = OsWorld::new(&rt);
    let mut samples = world.open_samples(name)?;
    let mut buf = [0u8; 4];
    assert_eq!(rt; samples.read(&mut buf), Ok(4));
    assert_eq!(rt; buf, *b"0123");
    assert_eq!(rt; samples.read(&mut buf), Ok(2));
    assert_eq!(rt; samples.read(&mut buf), Ok(0));
    std::fs::remove_file(&rt, name)?;
    assert!(rt; world.open_samples(name).is_err());

    let listener = TcpListener::bind(&rt, "127.0.0.1:0")?;
    let address = listener.local_addr()?;
    let name = format!(in rt.alloc(); "tcp:{address}")?;
    let mut samples = world.open_samples(&name)?;
    let (mut device, _) = listener.accept()?;
    device.write_all(b"xyz")?;
    drop(device);
    assert_eq!(rt; samples.read(&mut buf), Ok(3));
    assert_eq!(rt; buf, *b"xyz3");
    assert_eq!(rt; samples.read(&mut buf), Ok(0));
    drop(listener);
    assert!(rt; world.open_samples(&name).is_err());
    assert!(rt; world.open_samples("tcp:nowhere").is_err());
    assert_eq!(rt; world.fault_count(), 3);

    // A directory can be opened, and fails where it is read.
    let mut samples = world.open_samples(".")?;
    assert_eq!(rt; samples.read(&mut buf), Err(Failed));
    assert_eq!(rt; samples.fault_count(), 1);
    Ok(())
}

#[test]
fn real_files_readers_and_writers(rt: HostRuntime) -> Result<(), Fail> {
    let name = "rbgtree-test-file";
    std::fs::write(&rt, name, "0123456789")?;
    let mut world = OsWorld::new(&rt);
    let mut buf = [0u8; 4];
    assert_eq!(rt; world.read_file(name, 8, &mut buf), Ok(2));
    assert_eq!(rt; buf, *b"89\0\0");
    assert_eq!(rt; world.read_file(name, 0, &mut buf), Ok(4));
    assert_eq!(rt; buf, *b"0123");
    std::fs::remove_file(&rt, name)?;
    // The file stays open: reads go on where the last one ended, and from nowhere else.
    assert_eq!(rt; world.read_file(name, 4, &mut buf), Ok(4));
    assert_eq!(rt; buf, *b"4567");
    assert_eq!(rt; world.read_file(name, 8, &mut buf), Ok(2));
    assert_eq!(rt; world.read_file(name, 10, &mut buf), Ok(0));
    assert_eq!(rt; world.read_file(name, 0, &mut buf), Err(Failed));
    assert_eq!(rt; world.read_file(name, 10, &mut buf), Err(Failed));
    assert_eq!(rt; world.read_file(".", 0, &mut buf), Err(Failed));
    assert_eq!(rt; world.fault_count(), 3);

    let mut reading = Reading::new(b"abcde".as_slice());
    assert_eq!(rt; reading.read(&mut buf), Ok(4));
    assert_eq!(rt; buf, *b"abcd");
    assert_eq!(rt; reading.fault_count(), 0);
    let mut room = [0u8; 3];
    let mut writing = Writing::new(room.as_mut_slice());
    assert_eq!(rt; writing.write_all(b"xy"), Ok(()));
    assert_eq!(rt; writing.write_all(b"zw"), Err(Failed));
    assert_eq!(rt; writing.fault_count(), 1);
    Ok(())
}
