use vx_cell::Cell;
use vx_maps::{MapStore, StoreFault};
use vx_pages::LocalPiece;
use vx_volume::Volume;

/// What is left of a volume that was to be put back: all of it, where there was no memory to take its log apart, or the regions
/// and copies that the pool had no room for.
#[derive(Drop)]
pub enum VolumeLeft<P: LocalPiece> {
    Whole(Volume<P>),
    Parts {
        cells: Vec<Cell<P>>,
        copies: Vec<Vec<P>>,
    },
}

/// What is left of the copies of a log that was to be made new: the copies, or a store of them, where there was no memory to
/// take it apart.
#[derive(Drop)]
pub enum LogLeft<P: LocalPiece> {
    Copies(Vec<Vec<P>>),
    Store(MapStore<P>),
}

/// Why there is no new log, and what its copies became.
#[derive(Drop)]
pub struct FreshRefused<P: LocalPiece> {
    pub fault: StoreFault,
    pub left: LogLeft<P>,
}
