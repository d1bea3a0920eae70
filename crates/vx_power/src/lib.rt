//! A power switch for devices: once so many writes were drawn, all calls are answered that the power is gone.
#![tactic(auto)]

mod berths;
mod board;
mod fuse;
mod power_shelf;
mod powered;
mod rule;
#[cfg(test)]
mod tests;
mod views;

pub use fuse::Fuse;
pub use power_shelf::PowerShelf;
pub use powered::Powered;
