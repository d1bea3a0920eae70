//! Printed views of a configuration.
#![tactic(auto)]

mod fault;
mod records;
mod shown;

pub use fault::PrintFault;
pub use records::print_m;
