ghost use Rattle.std.specs.Prelude.{◌<◌};

use agm_bits::Memory;
use random_draws::{RandomBits, draw};
use std::alloc::Global;
use std::process::Abort;
use std::test::Fail;

// RFC 8439, A.1, vectors 1 and 2: key and nonce of zeros, blocks 0 and 1.
const ZEROS: [u8; 32] = [0; 32];

const FIRST: [u8; 16] = [
    0x76, 0xb8, 0xe0, 0xad, 0xa0, 0xf1, 0x3d, 0x90, 0x40, 0x5d, 0x6a, 0xe5, 0x53, 0x86, 0xbd, 0x28,
];
// The last four bytes of block 0, and the first four of block 1.
const ACROSS: [u8; 8] = [0xb2, 0xee, 0x65, 0x86, 0x9f, 0x07, 0xe7, 0xbe];

// RFC 8439, A.1, vector 5: a nonce that ends in 2, block 0.
const OTHER_STREAM: [u8; 8] = [0xc2, 0xc6, 0x4d, 0x37, 0x8c, 0xd5, 0x36, 0x37];

// RFC 8439, 2.3.2: the key 0 to 31, the nonce 00:00:00:09:00:00:00:4a:00:00:00:00, block 1.
const COUNTED: [u8; 32] = [
    0, 1, 2, 3, 4, 5, 6, 7, 8, 9, 10, 11, 12, 13, 14, 15, 16, 17, 18, 19, 20, 21, 22, 23, 24, 25,
    26, 27, 28, 29, 30, 31,
];

const HIGH: [u8; 8] = [0x10, 0xf1, 0xe7, 0xe4, 0xd1, 0x3b, 0x59, 0x15];

// A stream from a bit on, held against bytes whose lowest bits come first.
fn agrees(rt: &impl Abort, seed: &[u8; 32], stream: u64, first: u128, bytes: &[u8]) {
    let mut bits = RandomBits::new(seed, stream, first);
    for byte in bytes {
        for place in 0..8u32 {
            assert_eq!(rt; bits.next_bit(), (*byte >> place) % 2 == 1);
        }
    }
}

// A tape of two rows of so many bits, held against the bytes that its rows make one behind the other.
fn tape_agrees(rt: &impl Abort, alloc: Global, width: usize, bytes: &[u8]) -> Result<(), Memory>
    requires { width < 64 }
{
    let tape = draw(alloc, &ZEROS, 2, width)?;
    let mut number: usize = 0;
    for row in tape.rows.as_slice() {
        for place in 0..row.len() {
            let byte = bytes.get(number / 8).copied().unwrap_or(0);
            let at = (number % 8) as u32;
            assert_eq!(rt; row.get(place), (byte >> at) % 2 == 1);
            number = number.wrapping_add(1);
        }
    }
    assert_eq!(rt; number, 2 * width);
    Ok(())
}

#[test]
fn draws_are_the_standards(rt: HostRuntime) -> Result<(), Fail> {
    agrees(&rt, &ZEROS, 0, 0, &FIRST);
    agrees(&rt, &ZEROS, 0, 480, &ACROSS);
    agrees(&rt, &ZEROS, 0x0200_0000_0000_0000, 0, &OTHER_STREAM);
    agrees(&rt, &COUNTED, 0x4a00_0000, 0x12_0000_0000_0000_0200, &HIGH);
    assert_eq!(rt; tape_agrees(&rt, rt.alloc(), 60, &FIRST), Ok(()));
    Ok(())
}
