//! What the devices held behind the cut before.
use crate::trial::copy_of;
use std::alloc::Global;
use vx_volume_judge::Finding;

/// The bytes of the devices; before the first run there are none.
#[derive(Drop)]
pub struct Held {
    pub images: Vec<Vec<u8>>,
}

impl Held {
    /// Takes what the devices hold now. No more of them than these have changed since the cut before, which is one write earlier: a write is of
    /// one device.
    pub fn take(&mut self, alloc: Global, images: &[&[u8]], changes: u64) -> Result<(), Finding> {
        let mut changed = 0u64;
        for (old, new) in self.images.iter().zip(images) {
            if old.as_slice() != *new {
                changed = changed.saturating_add(1);
            }
        }
        if changes < changed {
            return Err(Finding::Writes);
        }
        self.images = copy_of(alloc, images)?;
        Ok(())
    }
}
