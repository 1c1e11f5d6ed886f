//! Finite simplicial sets: tables are built from rows as they are written, and of spheres.
#![tactic(auto)]

mod bases;
mod faces;
mod faults;
mod laws;
mod spheres;
mod tables;

pub use bases::{BaseFault, bundle_base};
pub use faults::TableFault;
pub use spheres::sphere_table;
pub use tables::{build_table, rows_told, table_faults};
