//! Words of blocks.
use std::io;
use vx_block::{BlockFault, Geometry, put_block, read_block};

pub fn show<R: AllocGlobal + Print>(rt: &R) -> io::Result<()> {
    let mut word = Vec::new(rt.alloc());
    if put_block(&[0xab; 512], &mut word).is_err() {
        return println!(rt; "no memory");
    }
    println!(rt;
        "word of 512 bytes ab: {}",
        hex::encode(rt.alloc(), word.as_slice())?
    )?;
    let mut block = [0; 512];
    put_answer(rt, read_block(b"=5a", &mut block), block[511])?;
    put_answer(rt, read_block(b"=5A", &mut block), block[511])?;
    println!(rt; "regions of 33,554,432 blocks: {:?}", regions(33_554_432))?;
    println!(rt; "and of one block more: {:?}", regions(33_554_433))
}

/// What was answered, and the last byte of the block behind it.
fn put_answer<R: Print>(rt: &R, answer: Result<(), BlockFault>, last: u8) -> io::Result<()> {
    match answer {
        Ok(()) => println!(rt; "a block that ends with {last}"),
        Err(BlockFault::NotABlock) => println!(rt; "no block, and {last} stays"),
    }
}

fn regions(length: u64) -> Option<u64> {
    Geometry::new(length, 128).map(|geometry| geometry.regions())
}
