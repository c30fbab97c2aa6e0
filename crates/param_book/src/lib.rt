//! The table of parameters, what runs depend on, and the program's own emitters.
#![tactic(auto)]

mod agreement;
mod emitters;
mod table;
#[cfg(test)]
mod tests;

pub use agreement::agree;
pub use emitters::{OWN_COUNT, is_external, own_named, own_sets};
pub use table::{ENTRY_FUNCTION, NO_PARAM, SIGNED_OVERFLOW, fits, number, opening, run_params};
