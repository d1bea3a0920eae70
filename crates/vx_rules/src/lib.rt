//! The rules that a valid configuration keeps, and the refusal that a broken rule answers; below them, where subdisks lie: on disks,
//! none over another, and in the columns of plexes, without holes.
#![tactic(auto)]

mod adding;
mod check;
mod column;
mod columns;
mod extent;
mod index;
mod laid;
mod layout;
mod limits;
mod maps;
mod overlap;
mod piece;
mod pieces;
mod references;
mod relations;
mod rule;
mod scans;
mod sizes;
mod space;
mod uses;
mod whole;

pub use adding::{first_broken_by, first_had, firsts};
pub use check::first_broken;
pub use overlap::overlap_fault;
pub use pieces::Pieces;
pub use rule::Rule;
pub use sizes::{holds, layout_fits_kind};
