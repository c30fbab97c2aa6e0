//! The words of a command.

ghost use Rattle.std.specs.Prelude.{◌≡◌, MatchOption, None, Some, map, string_bytes};
ghost use Rattle.std.specs.Option.{option_map};
ghost use Rattle.kernel_serve.specs.Words.{after_main, after_script, begins_report, if_last, is_no_value, is_option, options_of, report_command, take_flag, take_value, value_after};
ghost use Rattle.kernel_serve.specs.inner.Taking.{IsCommand, command_of, fit};

/// What a command asks for.
#[derive(Clone, Copy)]
pub(crate) struct Command<'w> {
    pub(crate) file: &'w str,
    pub(crate) script: Option<&'w str>,
    /// The name of the entry function, where it isn't `main`.
    pub(crate) main: Option<&'w str>,
    /// Whether nothing is analysed.
    pub(crate) no_eva: bool,
    pub(crate) lib_entry: bool,
    pub(crate) points: bool,
}

/// Which words are a value of an option.
#[derive(Clone, Copy)]
enum Values {
    Any,
    /// Names have at most 256 bytes.
    Names,
}

/// The command that words are; None where they are none.
pub(crate) fn report_command(words: &[String]) -> Option<Command>
    ensures { IsCommand result (report_command (map string_bytes words.now)) }
{
    let (call, words) = words.split_first()?;
    let (file, words) = words.split_first()?;
    if begins_report(call.as_str(), file.as_str()) {
        options(file.as_str(), words)
    } else {
        None
    }
}

/// The command with these options after its file.
fn options<'w>(file: &'w str, words: &'w [String]) -> Option<Command<'w>>
    ensures { IsCommand result (options_of file.now (map string_bytes words.now)) }
{
    let (script, words) = take_value(words, "--script", Values::Any)?;
    after_script(file, script, words)
}

/// The command with these options after that of the script.
fn after_script<'w>(
    file: &'w str,
    script: Option<&'w str>,
    words: &'w [String],
) -> Option<Command<'w>>
    ensures { IsCommand result (after_script file.now (record { value = option_map (λ w. w.now) script.entry; rest = map string_bytes words.now })) }
{
    let (no_eva, words) = take_flag(words, "--no-eva");
    let (main, words) = take_value(words, "--main", Values::Names)?;
    after_main(file, script, no_eva, main, words)
}

/// The command with these options after that of the entry function.
fn after_main<'w>(
    file: &'w str,
    script: Option<&'w str>,
    no_eva: bool,
    main: Option<&'w str>,
    words: &'w [String],
) -> Option<Command<'w>>
    ensures { IsCommand result (after_main file.now (option_map (λ w. w.now) script.entry) no_eva (record { value = option_map (λ w. w.now) main.entry; rest = map string_bytes words.now })) }
{
    let (lib_entry, words) = take_flag(words, "--lib-entry");
    let (points, words) = take_flag(words, "--points");
    let command = Command {
        file,
        script,
        main,
        no_eva,
        lib_entry,
        points,
    };
    if_last(command, words)
}

/// The command, if no word is left.
fn if_last<'w>(command: Command<'w>, words: &'w [String]) -> Option<Command<'w>>
    ensures { IsCommand result (if_last (command_of command.entry) (map string_bytes words.now)) }
{
    match words.split_first() {
        None => Some(command),
        Some(_) => None,
    }
}

/// An option with a value, if it stands first, and the words after it; None where the value doesn't fit.
fn take_value<'w>(
    words: &'w [String],
    option: &str,
    values: Values,
) -> Option<(Option<&'w str>, &'w [String])>
    ensures { MatchOption result (take_value option.now (fit values) (map string_bytes words.now) ≡ None) (λ t. take_value option.now (fit values) (map string_bytes words.now) ≡ Some (record { value = option_map (λ w. w.now) t.0; rest = map string_bytes t.1.now })) }
{
    match words.split_first() {
        None => Some((None, words)),
        Some((word, rest)) => {
            if word.as_str() == option {
                value_after(rest, values)
            } else {
                Some((None, words))
            }
        }
    }
}

/// The value that stands first.
fn value_after(words: &[String], values: Values) -> Option<(Option<&str>, &[String])>
    ensures { MatchOption result (value_after (fit values) (map string_bytes words.now) ≡ None) (λ t. value_after (fit values) (map string_bytes words.now) ≡ Some (record { value = option_map (λ w. w.now) t.0; rest = map string_bytes t.1.now })) }
{
    let (word, rest) = words.split_first()?;
    if fits(values, word.as_str()) {
        Some((Some(word.as_str()), rest))
    } else {
        None
    }
}

/// An option without a value, if it stands first, and the words after it.
fn take_flag<'w>(words: &'w [String], option: &str) -> (bool, &'w [String])
    ensures { take_flag option.now (map string_bytes words.now) ≡ record { value = result.0; rest = map string_bytes result.1.now } }
{
    match words.split_first() {
        None => (false, words),
        Some((word, rest)) => {
            if word.as_str() == option {
                (true, rest)
            } else {
                (false, words)
            }
        }
    }
}

fn begins_report(call: &str, file: &str) -> bool
    ensures { result ≡ begins_report call.now file.now }
{
    call == "report" && !is_option(file)
}

fn is_option(word: &str) -> bool
    ensures { result ≡ is_option word.now }
{
    match word.as_bytes() {
        [first, _, ..] => *first == b'-',
        _ => false,
    }
}

fn is_no_value(word: &str) -> bool
    ensures { result ≡ is_no_value word.now }
{
    match word.as_bytes() {
        [first, ..] => *first == b'-',
        [] => true,
    }
}

/// Whether a word can be a value.
fn fits(values: Values, word: &str) -> bool
    ensures { result ≡ fit values word.now }
{
    match values {
        Values::Any => !is_no_value(word),
        Values::Names => !is_no_value(word) && word.len() <= 256,
    }
}
