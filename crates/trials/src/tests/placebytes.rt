// The bytes of a place.
use super::calls::{MOST, NONE, day, free, given};
use books::place::Place;
use image::fault::PlaceFault;
use image::read::read_place;
use image::write::place_bytes;

// Day 513, reserved and billed, with three amounts of entity 0; zeros follow.
const WRITTEN: [u8; 32] = [
    3, 0, 1, 2, 0, 0, 0, 0, //
    255, 255, 255, 255, 255, 255, 255, 255, //
    0, 128, 198, 164, 126, 141, 3, 0, //
    0, 128, 57, 91, 129, 114, 252, 255,
];

fn written() -> Place {
    given(day(513, true, true), 0, [-1, MOST, -1_000_000_000_000_000])
}

// Its bytes with another one at `at`.
fn changed(at: usize, byte: u8) -> [u8; 1544] {
    let mut bytes = place_bytes(&written());
    if at < 1544 {
        bytes[at] = byte;
    }
    bytes
}

#[test]
fn place_as_bytes(rt: HostRuntime) {
    let bytes = place_bytes(&written());
    for (i, byte) in bytes.iter().enumerate() {
        let wanted = WRITTEN.get(i).copied().unwrap_or(0);
        assert_eq!(rt; *byte, wanted, "byte {i}");
    }
    assert_eq!(rt; read_place(&bytes), Ok(written()));
    assert_eq!(rt; read_place(&[0; 1544]), Ok(free()));
}

// A place, and a byte of it with its index.
const BYTES: [(u16, bool, bool, usize, [i64; 3], usize, u8); 10] = [
    (0, false, false, 0, NONE, 0, 0),
    (0, true, false, 0, NONE, 0, 1),
    (0, false, true, 0, NONE, 0, 2),
    (0, true, true, 0, NONE, 0, 3),
    (255, true, false, 0, NONE, 2, 255),
    (256, true, false, 0, NONE, 3, 1),
    (65_535, true, false, 0, NONE, 3, 255),
    (9, true, false, 1, [-2, 0, 0], 32, 254),
    (9, true, false, 63, [0, 77, 0], 1528, 77),
    (9, true, false, 63, [0, 0, -1], 1543, 255),
];

#[test]
fn bytes_of_places(rt: HostRuntime) {
    for (number, reserved, billed, entity, numbers, at, byte) in &BYTES {
        let place = given(day(*number, *reserved, *billed), *entity, *numbers);
        let bytes = place_bytes(&place);
        assert_eq!(rt; bytes.get(*at).copied(), Some(*byte), "byte {at}");
        assert_eq!(rt; read_place(&bytes), Ok(place));
    }
}

// A byte that makes the bytes no place.
const FAULTS: [(usize, u8, PlaceFault); 9] = [
    (0, 4, PlaceFault::Mark),
    (0, 7, PlaceFault::Mark),
    (0, 255, PlaceFault::Mark),
    (1, 1, PlaceFault::Filler),
    (4, 1, PlaceFault::Filler),
    (5, 255, PlaceFault::Filler),
    (6, 128, PlaceFault::Filler),
    (7, 1, PlaceFault::Filler),
    (1, 3, PlaceFault::Filler),
];

#[test]
fn faults_of_bytes(rt: HostRuntime) {
    for (at, byte, fault) in &FAULTS {
        assert_eq!(rt; read_place(&changed(*at, *byte)), Err(*fault), "byte {at}");
    }
    let mut both = changed(7, 1);
    both[0] = 4;
    assert_eq!(rt; read_place(&both), Err(PlaceFault::Mark));
}
