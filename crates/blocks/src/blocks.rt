// One block of an image: its check, its form, and the block of a payload.
ghost use Rattle.std.specs.Prelude.{◌≡◌, ◌∷◌, ◌++◌, ◌+◌, ◌*◌, ◌<◌, ◌≤◌, length, take, drop, replicate};
ghost use Rattle.rules.specs.Answers.{little_endian, bytes_of};
ghost use Rattle.rules.specs.Images.{block_size, checked_size, payload_size, edition, check_of, is_checked, is_formed, front_of, block_of};

use crate::bytes::{copy, is_zero};
use cells::{get16, put16};
use lent::memory::clear;

pub const BLOCK_SIZE: usize = 512;

pub const PAYLOAD_SIZE: usize = 504;

pub const HEAD_SIZE: usize = 4;

const CHECKED_SIZE: usize = 508;

const EDITION: u8 = 1;

// What a byte at a position adds to the check.
fn weight(byte: u8, position: usize) -> u64
    requires { position < checked_size }
    ensures { (result ≡ byte * (position + 1)) × (result ≤ 129540) }
{
    (byte as u64) * (position as u64 + 1)
}

// The check of the bytes in front of it.
fn check_of(front: &[u8]) -> u64
    requires { length front.now ≡ checked_size }
    ensures { (result ≡ check_of front.now) × (result < 4294967296) }
{
    let mut sum: u64 = 0;
    for (i, byte) in front.iter().enumerate() {
        sum += weight(*byte, i);
    }
    sum
}

// The check that stands in a block.
fn stored_check(block: &[u8]) -> u64
    requires { length block.now ≡ block_size }
    ensures { result ≡ little_endian 4 (drop checked_size block.now) }
{
    (get16(block, 254) as u64) + 65536 * (get16(block, 255) as u64)
}

// Whether a block's check is right.
pub fn is_checked(block: &[u8]) -> bool
    requires { length block.now ≡ block_size }
    ensures { result ≡ is_checked block.now }
{
    stored_check(block) == check_of(&block[..CHECKED_SIZE])
}

// Whether a block has this number, the edition, this count of used bytes, and zeros behind them.
pub fn is_formed(block: &[u8], number: usize, used: usize) -> bool
    requires { (length block.now ≡ block_size) × (used ≤ payload_size) }
    ensures { result ≡ is_formed number used (take checked_size block.now) }
{
    if block[0] as usize != number {
        return false;
    }
    if block[1] != EDITION {
        return false;
    }
    if get16(block, 1) as usize != used {
        return false;
    }
    let end = HEAD_SIZE + used;
    is_zero(&block[end..CHECKED_SIZE])
}

// Clears a block and writes its head.
fn put_head(block: &mut [u8], number: usize, used: usize)
    requires { (length block.old ≡ block_size) × ((number < 256) × (used ≤ payload_size)) }
    ensures { block.new ≡ number ∷ edition ∷ (bytes_of 2 used ++ replicate checked_size 0) }
{
    clear(block);
    block[0] = number as u8;
    block[1] = EDITION;
    put16(block, 1, used as u16);
}

// Writes the bytes in front of the check, and zeros in its place.
fn put_front(block: &mut [u8], number: usize, part: &[u8])
    requires { (length block.old ≡ block_size) × ((number < 256) × (length part.now ≤ payload_size)) }
    ensures { block.new ≡ front_of number part.now ++ replicate 4 0 }
{
    put_head(block, number, part.len());
    copy(block, HEAD_SIZE, part);
}

// Writes a check behind the bytes that it sums up.
fn put_check(block: &mut [u8], sum: u64)
    requires { (length block.old ≡ block_size) × (sum < 4294967296) }
    ensures { block.new ≡ take checked_size block.old ++ bytes_of 4 sum }
{
    put16(block, 254, (sum % 65536) as u16);
    put16(block, 255, (sum / 65536 % 65536) as u16);
}

// Writes the block of a payload.
pub fn put_block(block: &mut [u8], number: usize, part: &[u8])
    requires { (length block.old ≡ block_size) × ((number < 256) × (length part.now ≤ payload_size)) }
    ensures { block.new ≡ block_of number part.now }
{
    put_front(block, number, part);
    let sum = check_of(&block[..CHECKED_SIZE]);
    put_check(block, sum);
}
