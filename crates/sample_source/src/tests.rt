// What both sources give, called as a generic caller does.
ghost use Rattle.std.specs.Prelude.{◌<◌, length};

use crate::{Faulty, Recorded, Samples};
use rbg_bytes::Failed;
use std::test::Fail;

fn read_one<S: Samples>(source: &mut S, buf: &mut [u8]) -> (Result<usize, Failed>, u64)
    requires { 0 < length buf.old }
{
    (source.read(buf), source.fault_count())
}

#[test]
fn recorded_samples_end(rt: HostRuntime) -> Result<(), Fail> {
    let mut source = Recorded::new(vec![in rt.alloc(); 7u8, 8, 9, 10, 11]?);
    let mut buf = [0u8; 4];
    assert_eq!(rt; read_one(&mut source, &mut buf), (Ok(4), 0));
    assert_eq!(rt; buf, [7, 8, 9, 10]);
    assert_eq!(rt; read_one(&mut source, &mut buf), (Ok(1), 0));
    assert_eq!(rt; buf[0], 11);
    assert_eq!(rt; read_one(&mut source, &mut buf), (Ok(0), 0));
    assert_eq!(rt; read_one(&mut source, &mut buf), (Ok(0), 0));
    Ok(())
}

#[test]
fn faulty_samples_come_in_pieces_and_fail_where_listed(rt: HostRuntime) -> Result<(), Fail> {
    let alloc = rt.alloc();
    let mut source = Faulty::new(vec![in alloc; 1u8, 2, 3, 4]?, 3, vec![in alloc; 1u64]?);
    let mut buf = [0u8; 4];
    assert_eq!(rt; read_one(&mut source, &mut buf), (Ok(3), 0));
    assert_eq!(rt; &buf[..3], [1u8, 2, 3].as_slice());
    assert_eq!(rt; read_one(&mut source, &mut buf), (Err(Failed), 1));
    assert_eq!(rt; read_one(&mut source, &mut buf), (Ok(1), 1));
    assert_eq!(rt; buf[0], 4);
    assert_eq!(rt; read_one(&mut source, &mut buf), (Ok(0), 1));
    Ok(())
}
