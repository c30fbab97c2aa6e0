//! Grammars as data: what a table says of a list of tokens, how tokens are read by it, and the laws
//! that tie both for every table that passes a computed test. A parser is proved equal to the reading;
//! the laws make that a proof about the grammar.
#![tactic(auto)]

mod laws;

pub use laws::{
    derivation_is_read, one_derivation, one_stop, reading_derives, reading_stops, stop_is_read,
    stop_or_derivation, weight_within_tokens,
};
