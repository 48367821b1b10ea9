use simulation::{Fault, board_bytes};
use std::fs;
use std::test::Fail;

/// All bytes of a file are read unchanged and in order.
#[test]
fn file_is_read_unchanged(rt: HostRuntime) -> Result<(), Fail> {
    let mut bytes = Vec::new(rt.alloc());
    for round in 0..40u8 {
        for byte in 0..=255u8 {
            bytes.push(byte ^ round)?;
        }
    }
    fs::write(&rt, "bytes", bytes.as_slice())?;
    let read = board_bytes(&rt, rt.alloc(), "bytes").expect(&rt, "a file that was written");
    assert!(rt; read.as_slice() == bytes.as_slice());
    fs::remove_file(&rt, "bytes")?;
    assert!(rt; board_bytes(&rt, rt.alloc(), "bytes").err() == Some(Fault::BoardFile));
    Ok(())
}
