//! Laws of chains of calls, as contracts of functions that do nothing.

ghost use Rattle.call_cycles.specs.Laws.{ChainsEnd, CalleesEnd, EndWithMore};

/// Where no function leads to itself, each chain of calls ends within the number of functions.
pub fn chains_end()
    ensures { ChainsEnd }
{}

/// Where the chains of calls from a function end within some number, those from its callees end within one less;
/// and a greater number is a bound too.
pub fn chains_of_callees()
    ensures callees { CalleesEnd }
    ensures more { EndWithMore }
{}
