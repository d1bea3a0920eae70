//! The files of a folder as devices, and a folder as a shelf.
#![tactic(auto)]

mod file_piece;
mod file_shelf;
mod folder;
mod known;

pub use file_piece::FilePiece;
pub use file_shelf::FileShelf;
