//! A script's lines in turn.

ghost use Rattle.std.specs.Prelude.{◌≡◌, ◌==◌, [], OnOk, OnErr, length};
ghost use Rattle.serde_json.specs.View.{view, items_view};
ghost use Rattle.event_script.specs.Reading.{Gives};
ghost use Rattle.event_script.specs.Names.{emitter_named, number_told, with_told};
ghost use Rattle.event_script.specs.Lines.{request_of, wanted_of, entry_of, props_named};

use crate::emission::emission_of;
use crate::fault::ScriptFault;
use crate::names::{NO_EMITTER, is_blank_line, prop_named};
use crate::registration::registration_of;
use crate::setting::{run_of, setting_of};
use crate::value::value_of;
use c_ir::PropTable;
use fc_base::{EmitterId, Name};
use indexmap::IndexMap;
use param_book::own_named;
use serde_json::Value;
use sqlite_items::Items;
use status_history::{Change, Entry, Hyps};
use std::alloc::{AllocError, Global};
use std::marker::Model;

/// A part of the program that emits entries of its own.
#[derive(Clone, Copy, Debug, PartialEq, Eq)]
pub enum Analyser {
    Rte,
    Eva,
}

/// What a line asks for.
#[derive(Debug, Drop)]
pub enum Wanted {
    /// Nothing: the line is blank.
    Blank,
    /// One change of the history.
    Do(Change),
    /// A run of an analyser.
    Run(Analyser),
}

/// A reader of script lines. It knows the emitters that it was told of, and contracts see it as the list of
/// their names and numbers.
#[derive(Debug, Drop)]
pub struct Script {
    alloc: Global,
    /// The number of each emitter that was told of, by its name.
    told: IndexMap<String, EmitterId>,
}

impl Model for Script {
    ghost use Rattle.std.specs.Prelude.{List, ℕ, map, string_bytes};
    ghost use Rattle.fc_base.specs.declared.ids.EmitterId.{EmitterId};

    ghost Value = { List (List ℕ × EmitterId) };

    ghost view = { λ s. map (λ p. (string_bytes p.0, p.1)) s.told.entries };
}

impl Script {
    /// A reader that was told of no emitter.
    pub fn new(alloc: Global) -> Script
        ensures { result ≡ [] }
    {
        Script {
            alloc,
            told: IndexMap::new(alloc),
        }
    }

    /// Notes that a name is this emitter's.
    pub fn told(&mut self, name: &str, id: EmitterId) -> Result<(), AllocError>
        ensures ok { OnOk result (self.new ≡ with_told name.now id self.old) }
        ensures err { OnErr result (self.new ≡ self.old) }
    {
        self.told.insert(String::from_str(self.alloc, name)?, id)?;
        Ok(())
    }

    /// How many emitters it was told of.
    pub fn len(&self) -> usize
        ensures { result ≡ length self.now }
    {
        self.told.len()
    }

    /// Whether it was told of none.
    pub fn is_empty(&self) -> bool
        ensures { result ≡ (length self.now == 0) }
    {
        self.told.is_empty()
    }

    /// The number that it was told for a name; None exactly where it was told of none.
    #[tactic(auto, using(crate::proofs::Told::number_of_texts))]
    pub fn number_told(&self, name: &str) -> Option<EmitterId>
        ensures { result ≡ number_told self.now name.now }
    {
        self.told.get(name).copied()
    }

    /// What a line asks for, where `last` stands for the version of an `emit` line that says none. A line is blank (it
    /// has only spaces, tabs, carriage returns, vertical tabs and form feeds), or it is one of these JSON objects, with
    /// members in any order and no others:
    ///
    /// - `{"register":NAME,"correctness":[PARAM, ..]}`, where NAME has 1 to 64 bytes, each an ASCII letter or digit,
    ///   `_` or `-`: `Change::Register`, with the set of the parameters that are named;
    /// - `{"emit":EMITTER,"prop":NAME,"status":STATUS,"hyps":[NAME, ..]}`, or with a `"version":VERSION` too, a whole
    ///   number from 0 to 4294967295: `Change::Emit`;
    /// - `{"param":PARAM,"value":VALUE}`, with a whole number from -2^63 to 2^63 - 1: `Change::Param`;
    /// - `{"run":"rte"}`: `Wanted::Run`, of `Analyser::Rte`;
    /// - `{"run":"eva"}`: `Wanted::Run`, of `Analyser::Eva`.
    ///
    /// What there isn't stands as a number that nothing has: an emitter that it wasn't told of and that isn't the
    /// program's own as 4294967295, a property that isn't in the table as 4294967295, and a parameter as 7. A whole
    /// number is written in digits alone, perhaps behind a minus sign; `-0`, `1.0`, `1e2` and `null` are none. Of a
    /// repeated key the last value counts. The answer is `Form` exactly where the line is none of these, also where
    /// it isn't UTF-8. It leaves the reader as it was.
    #[tactic(auto, unfolding(crate::specs::Lines::request_of))]
    pub fn line(&mut self, text: &[u8], props: &PropTable, last: u32) -> Result<Wanted, ScriptFault>
        ensures value { Gives (λ w. w) result (request_of self.old props.now.rows last text.now) }
        ensures same { self.new ≡ self.old }
    {
        if is_blank_line(text) {
            return Ok(Wanted::Blank);
        }
        let value = value_of(self.alloc, text)?;
        self.wanted_of(&value, props, last)
    }

    /// What a line's value asks for.
    fn wanted_of(&self, value: &Value, props: &PropTable, last: u32) -> Result<Wanted, ScriptFault>
        ensures { Gives (λ w. w) result (wanted_of self.now props.now.rows last (view value.now)) }
    {
        if let Some(said) = registration_of(value) {
            let name = Name::new(self.alloc, said.name)?;
            let correctness = said.correctness;
            return Ok(Wanted::Do(Change::Register { name, correctness }));
        }
        if let Some(change) = setting_of(value) {
            return Ok(Wanted::Do(change));
        }
        if let Some(analyser) = run_of(value) {
            return Ok(Wanted::Run(analyser));
        }
        let entry = self.entry_of(value, props, last)?;
        Ok(Wanted::Do(Change::Emit(entry)))
    }

    /// The entry that an `emit` line's value is.
    #[tactic(auto, unfolding(crate::specs::Lines::entry_of))]
    fn entry_of(&self, value: &Value, props: &PropTable, last: u32) -> Result<Entry, ScriptFault>
        ensures { Gives (λ e. e) result (entry_of self.now props.now.rows last (view value.now)) }
    {
        let Some(said) = emission_of(value, last) else {
            return Err(ScriptFault::Form);
        };
        let hyps = props_named(self.alloc, props, said.hyps)?;
        Ok(Entry {
            emitter: self.emitter_named(said.emitter),
            prop: prop_named(props, said.prop),
            status: said.status,
            hyps,
            version: said.version,
        })
    }

    /// The emitter that a name stands for.
    fn emitter_named(&self, name: &str) -> EmitterId
        ensures { result ≡ emitter_named self.now name.now }
    {
        match self.number_told(name) {
            Some(id) => id,
            None => own_named(name).unwrap_or(NO_EMITTER),
        }
    }
}

/// The properties that texts name.
fn props_named(alloc: Global, props: &PropTable, names: &[Value]) -> Result<Hyps, ScriptFault>
    ensures { Gives (λ ps. ps) result (props_named props.now.rows (items_view names.now)) }
{
    let mut numbers = Items::new(alloc);
    for name in names {
        let Some(name) = name.as_str() else {
            return Err(ScriptFault::Form);
        };
        numbers.push(prop_named(props, name))?;
    }
    Ok(numbers)
}
