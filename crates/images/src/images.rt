// Whole images: judged block by block, read, written.
ghost use Rattle.std.specs.Prelude.{◌≡◌, ◌+◌, ◌-◌, ◌*◌, ◌<◌, ◌≤◌, min, length};
ghost use Rattle.rules.specs.Images.{payload_size, blocks_for, image_size_of, image_of, image_fault, held_in};
ghost use Rattle.images.specs.Judged.{fault_of};

use blocks::blocks::{BLOCK_SIZE, HEAD_SIZE, PAYLOAD_SIZE, is_checked, is_formed, put_block};
use blocks::bytes::copy;
use rules::refusals::Refusal;

// The blocks that so many bytes need.
pub fn blocks_for(size: usize) -> usize
    requires { size ≤ 1048576 }
    ensures { result ≡ blocks_for size }
{
    (size + 503) / PAYLOAD_SIZE
}

// The bytes of an image of so many bytes.
pub fn image_size(size: usize) -> usize
    requires { size ≤ 1048576 }
    ensures { result ≡ image_size_of size }
{
    BLOCK_SIZE * blocks_for(size)
}

// How many of some bytes the block of a number holds.
fn used_in(size: usize, number: usize) -> usize
    requires { number < 256 }
    ensures { result ≡ min payload_size (size - payload_size * number) }
{
    let from = PAYLOAD_SIZE * number;
    if size <= from {
        return 0;
    }
    if size - from < PAYLOAD_SIZE {
        return size - from;
    }
    PAYLOAD_SIZE
}

// Whether an image of carriers of so many bytes is refused. Its lowest block decides.
pub fn judge(image: &[u8], size: usize) -> Result<(), Refusal>
    requires { (size ≤ 32768) × (length image.now ≡ image_size_of size) }
    ensures { fault_of result ≡ image_fault size image.now }
{
    let blocks = blocks_for(size);
    for i in 0..blocks {
        let at = BLOCK_SIZE * i;
        let end = at + BLOCK_SIZE;
        let block = &image[at..end];
        if !is_checked(block) {
            return Err(Refusal {
                number: 63,
                place: at,
            });
        }
        if !is_formed(block, i, used_in(size, i)) {
            return Err(Refusal {
                number: 64,
                place: at,
            });
        }
    }
    Ok(())
}

// Puts the carriers that an image holds into a buffer of their size.
pub fn read(image: &[u8], carriers: &mut [u8])
    requires { (length carriers.old ≤ 32768) × (length image.now ≡ image_size_of (length carriers.old)) }
    ensures { carriers.new ≡ held_in (length carriers.old) image.now }
{
    let size = carriers.len();
    let blocks = blocks_for(size);
    for i in 0..blocks {
        let from = BLOCK_SIZE * i + HEAD_SIZE;
        let end = from + used_in(size, i);
        copy(carriers, PAYLOAD_SIZE * i, &image[from..end]);
    }
}

// Writes the image of carriers.
pub fn write(image: &mut [u8], carriers: &[u8])
    requires { (length carriers.now ≤ 32768) × (length image.old ≡ image_size_of (length carriers.now)) }
    ensures { image.new ≡ image_of carriers.now }
{
    let size = carriers.len();
    let blocks = blocks_for(size);
    for number in 0..blocks {
        let from = PAYLOAD_SIZE * number;
        let until = from + used_in(size, number);
        let at = BLOCK_SIZE * number;
        let end = at + BLOCK_SIZE;
        put_block(&mut image[at..end], number, &carriers[from..until]);
    }
}
