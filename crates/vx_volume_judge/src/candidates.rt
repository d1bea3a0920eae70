//! The values that each block of the volume may hold, by what was answered.
use crate::bytes::{has, only};
use std::alloc::{AllocError, Global};

/// For each block the bytes of which it may be full, as a set of numbers below 64.
#[derive(Drop)]
pub struct Candidates {
    blocks: Vec<u64>,
}

impl Candidates {
    /// Each block is full of its byte.
    pub fn new(alloc: Global, bytes: &[u8]) -> Result<Candidates, AllocError> {
        let mut blocks = Vec::new(alloc);
        for byte in bytes {
            blocks.push(only(u64::from(*byte)))?;
        }
        Ok(Candidates { blocks })
    }

    /// The same again.
    pub fn copy(&self, alloc: Global) -> Result<Candidates, AllocError> {
        let blocks = Vec::from_slice(alloc, self.blocks.as_slice())?;
        Ok(Candidates { blocks })
    }

    /// How many blocks there are.
    pub fn blocks(&self) -> u64 {
        self.blocks.len() as u64
    }

    /// Whether the block may be full of this byte. One that is not full of one byte is told by None.
    pub fn has(&self, block: u64, byte: Option<u8>) -> bool {
        match (self.blocks.get(block as usize), byte) {
            (Some(bytes), Some(byte)) => has(*bytes, u64::from(byte)),
            _ => false,
        }
    }

    /// The block is full of this byte, and of no other.
    pub fn set(&mut self, block: u64, byte: u8) {
        if let Some(bytes) = self.blocks.get_mut(block as usize) {
            *bytes = only(u64::from(byte));
        }
    }

    /// The block may be full of this byte too.
    pub fn add(&mut self, block: u64, byte: u8) {
        if let Some(bytes) = self.blocks.get_mut(block as usize) {
            *bytes |= only(u64::from(byte));
        }
    }
}
