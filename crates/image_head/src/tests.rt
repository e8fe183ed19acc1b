// Digests from outside, and images at the ends of what fits.
use super::*;
use ec_types::Fit;
use flash_dev::Geometry;
use std::process::Abort;
use std::test::Fail;

// A stack word, and a vector behind RW's head on a flash of 64 KiB.
const HEAD: [u8; 8] = [0, 0, 0, 0, 0, 0x81, 0, 0];

// SHA-256 of HEAD and 32,760 bytes 0xFF.
const PADDED: [u8; 32] = [
    0xF3, 0x6D, 0xBE, 0x08, 0xEE, 0xD8, 0xF0, 0xB9, 0x01, 0x19, 0xB3, 0x6B, 0x81, 0x66, 0xE0, 0xBE,
    0x94, 0x4F, 0xA0, 0x21, 0x43, 0x50, 0xED, 0x38, 0x70, 0x4A, 0x89, 0xCF, 0xB0, 0xCF, 0xF3, 0xD1,
];

// SHA-256 of HEAD and 32,760 bytes 0x5A.
const WHOLE: [u8; 32] = [
    0xEA, 0xED, 0xCD, 0x95, 0x2D, 0x97, 0x3E, 0x11, 0xC2, 0xAA, 0xDF, 0xFB, 0x3F, 0x79, 0x11, 0x51,
    0xCB, 0x88, 0xEA, 0x0D, 0x09, 0x97, 0x07, 0xDE, 0x5C, 0xC0, 0x1C, 0x09, 0xFF, 0xE3, 0x39, 0x03,
];

// SHA-256 of HEAD, 92 bytes 0x5A and 32,668 bytes 0xFF.
const PARTLY: [u8; 32] = [
    0xA8, 0xAF, 0xEE, 0x8A, 0x9B, 0x50, 0xAA, 0xE3, 0x1B, 0x0D, 0x88, 0x16, 0x30, 0x9D, 0x16, 0x28,
    0x4D, 0x54, 0x27, 0x1E, 0xCF, 0xFB, 0x31, 0xA5, 0xD0, 0x60, 0x45, 0x39, 0xD5, 0xBB, 0x68, 0x9A,
];

// HEAD, and 0x5A up to `count` bytes.
fn image_of<R: Abort + AllocGlobal>(rt: &R, count: usize) -> Result<Vec<u8>, Fail> {
    let mut image = vec![in rt.alloc(); 0x5A; count]?;
    for (place, byte) in image.iter_mut().zip(HEAD) {
        *place = byte;
    }
    Ok(image)
}

// The digest that is expected of `count` bytes on a flash of 64 KiB.
fn digest_of<R: Abort + AllocGlobal>(rt: &R, count: usize) -> Result<[u8; 32], Fail> {
    let g = Geometry::new(65536).ok_or("a flash has this size")?;
    let image = image_of(rt, count)?;
    assert!(rt; image.len() <= 32768);
    Ok(expected_digest(&image, g))
}

// Whether `count` bytes fit a flash of 64 KiB.
fn fit_of<R: Abort + AllocGlobal>(rt: &R, count: usize) -> Result<Fit, Fail> {
    let g = Geometry::new(65536).ok_or("a flash has this size")?;
    let image = image_of(rt, count)?;
    Ok(fits(&image, g))
}

#[test]
fn images_are_padded_to_the_size_of_rw(rt: HostRuntime) -> Result<(), Fail> {
    assert_eq!(rt; digest_of(&rt, 8)?, PADDED);
    assert_eq!(rt; digest_of(&rt, 100)?, PARTLY);
    assert_eq!(rt; digest_of(&rt, 32768)?, WHOLE);
    Ok(())
}

#[test]
fn images_fit_from_8_bytes_to_the_size_of_rw(rt: HostRuntime) -> Result<(), Fail> {
    assert_eq!(rt; fit_of(&rt, 7)?, Fit::Short);
    assert_eq!(rt; fit_of(&rt, 8)?, Fit::Yes);
    assert_eq!(rt; fit_of(&rt, 32768)?, Fit::Yes);
    assert_eq!(rt; fit_of(&rt, 32769)?, Fit::Long);
    Ok(())
}

#[test]
fn vectors_lie_in_their_region(rt: HostRuntime) {
    assert!(rt; vector_fits(&HEAD, 0x8000, 0x8000));
    assert!(rt; vector_fits(&HEAD, 0x8100, 1));
    assert!(rt; !vector_fits(&HEAD, 0x8100, 0));
    assert!(rt; !vector_fits(&HEAD, 0, 0x7000));
    assert!(rt; !vector_fits(&[0xFF; 8], 0xFFFF_FFFE, 1));
}

#[test]
fn versions_end_before_what_is_not_shown(rt: HostRuntime) {
    let mut raw = [b'v'; 32];
    raw[5] = 0x7F;
    let mut text = [0; 32];
    text[..5].copy_from_slice(b"vvvvv");
    assert_eq!(rt; version_text(&raw), text);
    let mut long = [b'v'; 32];
    long[31] = 0;
    assert_eq!(rt; version_text(&[b'v'; 32]), long);
}
