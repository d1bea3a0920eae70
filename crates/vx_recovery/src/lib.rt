//! How `vxrecover` goes over the volumes of the imported group. Definitions alone.
#![tactic(auto)]
