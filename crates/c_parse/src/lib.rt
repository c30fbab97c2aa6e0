//! The grammar of C (C11 6.5 to 6.9), cut down to integers, and how tokens are read by it.
#![tactic(auto)]

mod build;
mod build_stmt;
mod class;
mod declare;
mod expr;
mod fault;
mod law;
mod level;
mod look;
mod note;
mod part;
mod place;
mod spec;
mod stmt;
mod text;
mod unit;
mod word;

pub use class::Class;
pub use fault::Fault;
pub use law::trees_are_small;
pub use level::Level;
pub use part::{
    Braced, Bracketed, DeclrRest, Ended, Ending, Governed, Head, Named, Part, Placed, Started,
    Stored,
};
pub use text::{ParseFault, parse};
pub use word::Prefix;
