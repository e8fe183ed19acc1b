// A digest of the standard, of a nonce and of bytes of a flash.
use crate::Hash;
use ec_model::HashView;
use flash_ctl::Ctl;
use flash_dev::{FlashDev, Geometry, MemFlash};
use std::process::Abort;
use std::test::Fail;

// The SHA-256 of `abc`, as the standard gives it.
const OF_ABC: [u8; 32] = [
    0xBA, 0x78, 0x16, 0xBF, 0x8F, 0x01, 0xCF, 0xEA, 0x41, 0x41, 0x40, 0xDE, 0x5D, 0xAE, 0x22, 0x23,
    0xB0, 0x03, 0x61, 0xA3, 0x96, 0x17, 0x7A, 0x9C, 0xB4, 0x10, 0xFF, 0x61, 0xF2, 0x00, 0x15, 0xAD,
];

// A flash of so many bytes that begins with `bc`, where a flash has this size.
fn flash_of<R: Abort + AllocGlobal>(rt: &R, count: usize) -> Result<Ctl<MemFlash>, Fail> {
    let mut bytes = vec![in rt.alloc(); 0xFF; count]?;
    for (place, byte) in bytes.iter_mut().zip(*b"bc") {
        *place = byte;
    }
    assert!(rt; bytes.len() < 4294967296);
    let flash = MemFlash::new(rt.alloc(), &bytes, &[])?;
    let g = Geometry::new(flash.size()).ok_or("a flash has this size")?;
    Ok(Ctl::new(flash, g))
}

#[test]
fn a_nonce_and_bytes_are_hashed(rt: HostRuntime) -> Result<(), Fail> {
    let mut ctl = flash_of(&rt, 65536)?;
    let mut hash = Hash::new();
    hash.start(0, 2, b"a");
    let read = if ctl.geometry().size() >= 2 {
        hash.tick(&mut ctl).is_ok()
    } else {
        false
    };
    let shown = hash.view();
    let flash = ctl.into_flash();
    assert!(rt; read);
    assert_eq!(rt; flash.fetched(), 2);
    match shown {
        HashView::Done { at, size, digest } => {
            assert_eq!(rt; (at, size), (0, 2));
            assert_eq!(rt; digest, OF_ABC);
            Ok(())
        }
        _ => Err("the one tick was the last".into()),
    }
}
