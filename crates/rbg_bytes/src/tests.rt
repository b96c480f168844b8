// What a source and a sink in memory give and take, called as a generic caller does.
ghost use Rattle.std.specs.Prelude.{◌<◌, length};

use crate::{
    ByteSink, ByteSource, Failed, Fixed, Line, MemSink, MemSource, Name, put_at, put_fitting,
    put_front, xor_bytes,
};
use std::test::Fail;

fn read_one<I: ByteSource>(source: &mut I, buf: &mut [u8]) -> (Result<usize, Failed>, u64)
    requires { 0 < length buf.old }
{
    (source.read(buf), source.fault_count())
}

fn write_one<O: ByteSink>(sink: &mut O, bytes: &[u8]) -> (Result<(), Failed>, u64) {
    (sink.write_all(bytes), sink.fault_count())
}

#[test]
fn reads_come_in_pieces_and_fail_where_listed(rt: HostRuntime) -> Result<(), Fail> {
    let alloc = rt.alloc();
    let mut source = MemSource::new(vec![in alloc; 7u8, 8, 9, 10]?, 3, vec![in alloc; 1u64]?);
    let mut buf = [0u8; 4];
    assert_eq!(rt; read_one(&mut source, &mut buf), (Ok(3), 0));
    assert_eq!(rt; &buf[..3], [7u8, 8, 9].as_slice());
    assert_eq!(rt; read_one(&mut source, &mut buf), (Err(Failed), 1));
    assert_eq!(rt; read_one(&mut source, &mut buf), (Ok(1), 1));
    assert_eq!(rt; buf[0], 10);
    assert_eq!(rt; read_one(&mut source, &mut buf), (Ok(0), 1));
    Ok(())
}

#[test]
fn writes_fail_where_listed_and_where_room_ends(rt: HostRuntime) -> Result<(), Fail> {
    let alloc = rt.alloc();
    let mut sink = MemSink::new(vec![in alloc; 0u8; 5]?, vec![in alloc; 1u64]?);
    assert_eq!(rt; write_one(&mut sink, &[1, 2, 3]), (Ok(()), 0));
    assert_eq!(rt; write_one(&mut sink, &[4]), (Err(Failed), 1));
    assert_eq!(rt; write_one(&mut sink, &[4, 5, 6]), (Err(Failed), 2));
    assert_eq!(rt; sink.written(), [1u8, 2, 3, 4, 5].as_slice());
    assert_eq!(rt; write_one(&mut sink, &[]), (Ok(()), 2));
    Ok(())
}

#[test]
fn bytes_and_digits_are_kept(rt: HostRuntime) -> Result<(), Fail> {
    let fixed = Fixed::<4>::of(&[1, 2, 3]);
    assert_eq!(rt; fixed.as_slice(), [1u8, 2, 3].as_slice());
    assert_eq!(rt; Name::of("").as_str(), "");
    assert_eq!(rt; Name::of("data/größe.bin").as_str(), "data/größe.bin");
    let mut line = Line::new();
    line.text("cut at ");
    line.number(18_446_744_073_709_551_615);
    line.text("\n");
    assert_eq!(rt;
        line.as_bytes(),
        b"cut at 18446744073709551615\n".as_slice()
    );
    Ok(())
}

#[test]
fn bytes_are_put_at_their_place_and_xored(rt: HostRuntime) -> Result<(), Fail> {
    let mut row = [1u8, 2, 3, 4, 5];
    put_at(&mut row, 1, &[20, 30]);
    assert_eq!(rt; row, [1, 20, 30, 4, 5]);
    assert_eq!(rt; put_fitting(&mut row, 3, &[40, 50, 60]), 2);
    assert_eq!(rt; row, [1, 20, 30, 40, 50]);
    put_front(&mut row, &[7]);
    assert_eq!(rt; row, [7, 20, 30, 40, 50]);
    xor_bytes(&mut row, &[0x07, 0xff, 0x1e, 0x02, 0x30]);
    assert_eq!(rt; row, [0, 235, 0, 42, 2]);
    Ok(())
}
