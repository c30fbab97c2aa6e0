//! The laws of readings and of weights. Each is a function that does nothing and whose clause the check
//! proves: those of readings for all tables that pass the computed test (`IsSound`) and compare classes
//! exactly (`IsExact`), that of weights for all tables.

ghost use Rattle.std.specs.Prelude.{◌≡◌, ◌+◌, ◌≤◌, ℕ, List, length};
ghost use Rattle.grammar_forms.specs.Forms.{Grammar, Parts, Made};
ghost use Rattle.grammar_forms.specs.Derives.{Cause, IsText, StopsAt};
ghost use Rattle.grammar_forms.specs.Sound.{IsSound, IsExact};
ghost use Rattle.grammar_forms.specs.Weights.{IsLight};
ghost use Rattle.grammar_forms.specs.inner.Reading.{Read, Stop, read_rule};

/// What is read is a text of the production, and the next token can't go on with it.
pub fn reading_derives<C, S, T, A>()
    ensures { (g : Grammar C S T A) → IsSound g →
        (s : S) (d : ℕ) (ts : List T) (v : Parts T A) (rest : List T)
        → read_rule g s d ts ≡ Read v rest → IsText g d s ts v rest }
{}

/// Each text that the next token can't go on with is read.
pub fn derivation_is_read<C, S, T, A>()
    ensures { (g : Grammar C S T A) → IsSound g → IsExact g →
        (s : S) (d : ℕ) (ts : List T) (v : Parts T A) (rest : List T)
        → IsText g d s ts v rest → read_rule g s d ts ≡ Read v rest }
{}

/// Where the reading stops, a stop is stated.
pub fn reading_stops<C, S, T, A>()
    ensures { (g : Grammar C S T A) → IsSound g →
        (s : S) (d : ℕ) (ts : List T) (w : Cause) (n : ℕ)
        → read_rule g s d ts ≡ Stop w n → StopsAt g d s ts w n }
{}

/// Each stated stop is where the reading stops.
pub fn stop_is_read<C, S, T, A>()
    ensures { (g : Grammar C S T A) → IsSound g → IsExact g →
        (s : S) (d : ℕ) (ts : List T) (w : Cause) (n : ℕ)
        → StopsAt g d s ts w n → read_rule g s d ts ≡ Stop w n }
{}

/// Tokens have at most one text of a production that can't go on, with one value.
pub fn one_derivation<C, S, T, A>()
    ensures { (g : Grammar C S T A) → IsSound g → IsExact g →
        (s : S) (d : ℕ) (ts : List T)
        → (v u : Parts T A) (rest end : List T) → IsText g d s ts v rest → IsText g d s ts u end
        → (v ≡ u) × (rest ≡ end) }
{}

/// Tokens have at most one stop.
pub fn one_stop<C, S, T, A>()
    ensures { (g : Grammar C S T A) → IsSound g → IsExact g →
        (s : S) (d : ℕ) (ts : List T)
        → (w u : Cause) (n m : ℕ) → StopsAt g d s ts w n → StopsAt g d s ts u m
        → (w ≡ u) × (n ≡ m) }
{}

/// No tokens have both a text that can't go on and a stop.
pub fn stop_or_derivation<C, S, T, A>()
    ensures { (g : Grammar C S T A) → IsSound g → IsExact g →
        (s : S) (d : ℕ) (ts : List T) (v : Parts T A) (rest : List T)
        → (w : Cause) (n : ℕ) → IsText g d s ts v rest → StopsAt g d s ts w n → ⊥ }
{}

/// Where no production makes of its parts a value that weighs more than they count, a value weighs at most
/// the number of its tokens.
pub fn weight_within_tokens<C, S, T, A>()
    ensures { (g : Grammar C S T A) (w : S → A → ℕ) → IsLight g w →
        (s : S) (d : ℕ) (ts : List T) (a : A) (rest : List T)
        → IsText g d s ts (Made a) rest → w s a + length rest ≤ length ts }
{}
