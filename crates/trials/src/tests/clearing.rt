// Clearing an image.
use super::calls::{fill, filled};
use super::layouts::lay;
use super::openings::check_no_places;
use imagebook::clear::clear_image;
use imagebook::fault::ImageFault;
use imagebook::opening::{Opened, close};
use std::process::Abort;
use std::test::Fail;

// How many bytes, and what is told when they are opened after they were cleared.
const LENGTHS: [(usize, usize, Option<ImageFault>); 9] = [
    (0, 0, None),
    (1, 0, Some(ImageFault::Ragged)),
    (1543, 0, Some(ImageFault::Ragged)),
    (1544, 1, None),
    (3088, 2, None),
    (3089, 0, Some(ImageFault::Ragged)),
    (47_864, 31, None),
    (49_408, 32, None),
    (50_952, 0, Some(ImageFault::TooMany)),
];

fn check_cleared<R: Abort + AllocGlobal>(
    rt: &R,
    mut bytes: Vec<u8>,
    places: usize,
    wanted: Option<ImageFault>,
) -> Result<(), Fail> {
    let zeros = vec![in rt.alloc(); 0_u8; bytes.len()]?;
    clear_image(&mut bytes);
    assert_eq!(rt; bytes.as_slice(), zeros.as_slice());
    let Opened { mut book, fault } = Opened::new(bytes);
    assert_eq!(rt; fault, wanted);
    assert_eq!(rt; book.places(), places);
    assert_eq!(rt; book.held(0), None);
    if places == 0 {
        check_no_places(rt, &mut book);
    }
    let closed = close(book);
    assert_eq!(rt; closed.as_slice(), zeros.as_slice());
    Ok(())
}

// Bytes that are all alike, and bytes that go up from 1.
#[test]
fn cleared_images(rt: HostRuntime) -> Result<(), Fail> {
    for (length, places, fault) in &LENGTHS {
        for byte in [0, 1, 3, 165, 255] {
            let bytes = vec![in rt.alloc(); byte; *length]?;
            check_cleared(&rt, bytes, *places, *fault)?;
        }
        let mut bytes = Vec::new(rt.alloc());
        for i in 0..*length {
            bytes.push(u8::try_from(i % 251)?.wrapping_add(1))?;
        }
        check_cleared(&rt, bytes, *places, *fault)?;
    }
    Ok(())
}

// After clearing, the places are taken from the first on, and no more of them than there are.
#[test]
fn filled_after_clearing(rt: HostRuntime) -> Result<(), Fail> {
    for places in [1, 31, 32] {
        let length = usize::from(places).wrapping_mul(1544);
        let mut bytes = vec![in rt.alloc(); 255; length]?;
        clear_image(&mut bytes);
        let mut days = Vec::new(rt.alloc());
        let first = 32_u16.wrapping_sub(places);
        for next in first..32 {
            days.push(filled(next))?;
        }
        let wanted = lay(rt.alloc(), usize::from(places), days.as_slice())?;
        let Opened { mut book, fault } = Opened::new(bytes);
        assert_eq!(rt; fault, None);
        fill(&rt, &mut book, u32::from(places));
        let closed = close(book);
        assert_eq!(rt; closed.as_slice(), wanted.as_slice());
    }
    Ok(())
}
