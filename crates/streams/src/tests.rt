// Over bytes in memory: what is read and written, and what is told where there is no room.
use crate::{fill, number, piece, put, put_or_tell};
use std::test::Fail;

#[test]
fn reads_pieces(rt: HostRuntime) -> Result<(), Fail> {
    let mut input: &[u8] = b"abcd";
    let mut room = [0u8; 3];
    assert_eq!(rt; piece(&mut input, &mut room)?, 3);
    assert_eq!(rt; room.as_slice(), b"abc".as_slice());
    assert_eq!(rt; fill(&mut input, &mut room), 1);
    assert_eq!(rt; room.as_slice(), b"dbc".as_slice());
    assert_eq!(rt; piece(&mut input, &mut room)?, 0);
    Ok(())
}

#[test]
fn writes_and_tells(rt: HostRuntime) -> Result<(), Fail> {
    let mut bytes = [0u8; 6];
    let mut told = Vec::new(rt.alloc());
    {
        let mut out: &mut [u8] = &mut bytes;
        put_or_tell(&mut out, b"no ", &mut told, b"unwritten\n")?;
        number(&mut out, 27)?;
        assert!(rt; put_or_tell(&mut out, b"\nok", &mut told, b"unwritten\n").is_err());
    }
    put(&mut told, b".")?;
    assert_eq!(rt; bytes.as_slice(), b"no 27\n".as_slice());
    assert_eq!(rt; told.as_slice(), b"unwritten\n.".as_slice());
    Ok(())
}
