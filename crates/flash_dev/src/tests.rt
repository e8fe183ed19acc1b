// What no clause says: that memory suffices.
use crate::{CutFlash, DevErr, FlashDev, MemFlash};
use std::test::Fail;

#[test]
fn memory_suffices(rt: HostRuntime) -> Result<(), Fail> {
    let mut flash = MemFlash::new(rt.alloc(), &[0xFF; 8], &[2])?;
    assert_eq!(rt; flash.program(0, &[0x0F, 1, 2, 3]).is_ok(), true);
    assert_eq!(rt; flash.program(0, &[0, 0, 0, 0]).is_ok(), false);
    assert_eq!(rt; flash.program(0, &[0x3C, 0, 2, 2]).is_ok(), true);
    assert_eq!(rt;
        flash.bytes(),
        [0x0C, 0, 2, 2, 0xFF, 0xFF, 0xFF, 0xFF].as_slice()
    );
    assert_eq!(rt; flash.wear(), 3);
    assert_eq!(rt; flash.fetched(), 0);
    Ok(())
}

#[test]
fn an_armed_cut_falls(rt: HostRuntime) -> Result<(), Fail> {
    let memory = MemFlash::new(rt.alloc(), &[0xFF; 8], &[])?;
    let mut flash = CutFlash::new(memory);
    flash.arm(2, &[0x0A, 0x0B]);
    assert_eq!(rt; flash.program(0, &[0, 1, 2, 3]), Ok(()));
    assert_eq!(rt; flash.program(4, &[0, 0, 0, 0]), Err(DevErr::PowerLost));
    assert_eq!(rt; flash.program(0, &[0xFF, 0, 0xFF, 0xFF]), Ok(()));
    assert_eq!(rt;
        flash.into_inner().bytes(),
        [0, 0, 2, 3, 0x0A, 0x0B, 0xFF, 0xFF].as_slice()
    );
    Ok(())
}

#[test]
fn an_armed_cut_falls_on_a_flash_that_fails(rt: HostRuntime) -> Result<(), Fail> {
    let memory = MemFlash::new(rt.alloc(), &[0xFF; 4096], &[1])?;
    let mut flash = CutFlash::new(memory);
    flash.arm(1, &[0x0A]);
    assert_eq!(rt; flash.erase(0), Err(DevErr::PowerLost));
    assert_eq!(rt; flash.erase(0), Ok(()));
    Ok(())
}
