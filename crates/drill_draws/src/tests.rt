// A drill's draws. What they are to be was worked out by a program apart from this one.
use crate::{DrillImage, Generator};
use flash_dev::Geometry;
use std::process::Abort;
use std::test::Fail;

// A round as it is to be drawn: of its image the length, a checksum and the last bytes, and its cut.
#[derive(Drop)]
struct Wanted {
    length: usize,
    checksum: u32,
    last: [u8; 3],
    operation: u32,
    torn: [u8; 4],
}

// One number for all bytes, in their order.
fn checksum(bytes: &[u8]) -> u32 {
    let mut sum: u32 = 0;
    for byte in bytes {
        sum = sum.wrapping_mul(31).wrapping_add(u32::from(*byte));
    }
    sum
}

// Draws a round for a flash of so many bytes, and compares.
fn draws<R: Abort + AllocGlobal>(
    rt: &R,
    generator: &mut Generator,
    round: u32,
    size: u32,
    wanted: &Wanted,
) -> Result<(), Fail> {
    let mut image = DrillImage::new();
    match Geometry::new(size) {
        Some(geometry) => {
            let cut = generator.draw_round(round, geometry, &mut image);
            assert_eq!(rt; image.as_slice().len(), wanted.length);
            assert_eq!(rt; checksum(image.as_slice()), wanted.checksum);
            assert!(rt; image.as_slice().ends_with(&wanted.last));
            assert_eq!(rt; cut.operation, wanted.operation);
            assert_eq!(rt; cut.torn, wanted.torn);
        }
        None => assert!(rt; false),
    }
    Ok(())
}

#[test]
fn a_number_determines_its_draws(rt: HostRuntime) {
    let mut generator = Generator::new(7);
    assert_eq!(rt; generator.draw(), 4006077);
    assert_eq!(rt; generator.draw(), 15325873);
    assert_eq!(rt; generator.draw_below(4096), 3136);
    let mut last = Generator::new(0xFFFFFFFF);
    assert_eq!(rt; last.draw(), 3954061);
    assert_eq!(rt; last.draw_below(40), 20);
}

#[test]
fn a_number_determines_its_rounds(rt: HostRuntime) -> Result<(), Fail> {
    let mut generator = Generator::new(7);
    let first = Wanted {
        length: 2237,
        checksum: 0xE5C57051,
        last: [0x83, 0x25, 0x53],
        operation: 25,
        torn: [173, 188, 19, 0],
    };
    let second = Wanted {
        length: 3351,
        checksum: 0x4D65C43F,
        last: [0x2B, 0x81, 0x26],
        operation: 13,
        torn: [173, 76, 241, 0],
    };
    let third = Wanted {
        length: 5299,
        checksum: 0x203F38B4,
        last: [0x5D, 0x31, 0xE9],
        operation: 9,
        torn: [94, 29, 89, 0],
    };
    let fourth = Wanted {
        length: 3867,
        checksum: 0xAC4D967A,
        last: [0x0C, 0x8D, 0x76],
        operation: 22,
        torn: [132, 177, 250, 0],
    };
    draws(&rt, &mut generator, 1, 65536, &first)?;
    draws(&rt, &mut generator, 2, 65536, &second)?;
    draws(&rt, &mut generator, 3, 65536, &third)?;
    draws(&rt, &mut generator, 4, 65536, &fourth)
}

#[test]
fn the_longest_number_stands_in_the_version(rt: HostRuntime) {
    let mut image = DrillImage::new();
    match Geometry::new(4194304) {
        Some(geometry) => {
            let _cut = Generator::new(7).draw_round(4294967295, geometry, &mut image);
            let head = b"\0\0\0\0\0\x01\x20\0drill-4294967295\0\0\0\0\0\0\0\0\0\0\0\0\0\0\0\0\xB1";
            assert!(rt; image.as_slice().starts_with(head));
        }
        None => assert!(rt; false),
    }
}
