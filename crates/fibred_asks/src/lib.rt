//! The second perturbation of products and circle bundles and their four maps on cells of the code, by asking for the maps of base and fibre.
#![tactic(auto)]

mod firsts;
mod laws;
mod maps;
mod series;
mod small_sums;
mod smalls;
mod steps;
mod tensors;
mod totals;

pub use laws::{limited_reaches, reached_values};
pub use maps::{Maps, fibred};
pub use series::{second_p, second_s};
pub use smalls::on_smalls;
pub use tensors::on_tensors;
pub use totals::{total_d, total_f, total_g, total_h};
