//! The forms of chains.

use std::alloc::{AllocError, Global};

/// How many links a chain has.
#[derive(Clone, Copy)]
pub(crate) enum Links {
    /// As many as a file of the greatest length has room for.
    Most,
    Just(usize),
    /// So many, in each of which `#` stands for its number, counted from 1, and `@` for the number before.
    Numbered(usize),
}

/// A form of chain: the file begins with `head`; then come the links, `middle`, what closes each link, and `end`.
#[derive(Clone, Copy)]
pub(crate) struct Form {
    pub(crate) name: &'static str,
    pub(crate) head: &'static str,
    /// What stands `prefixes` times before each link.
    pub(crate) prefix: &'static str,
    pub(crate) prefixes: usize,
    pub(crate) link: &'static str,
    pub(crate) middle: &'static str,
    pub(crate) close: &'static str,
    pub(crate) end: &'static str,
    pub(crate) links: Links,
}

/// Where a chain without anything special stands.
#[derive(Clone, Copy)]
enum Place {
    /// In what `main` returns.
    Returned,
    /// In the value of an object of the file.
    Constant,
    /// In an annotation.
    Asserted,
}

/// A chain of operators: its place, its name and a link.
type Chain = (Place, &'static str, &'static str, Links);

/// A number of links that no usual stack holds.
const MANY: Links = Links::Just(100_000);

/// Chains of operators: those of C without a check, those with one or two, constants, and annotations.
const CHAINS: [Chain; 27] = [
    (Place::Returned, "conjunction", "1&&", Links::Most),
    (Place::Returned, "disjunction", "1||", MANY),
    (Place::Returned, "or", "1|", MANY),
    (Place::Returned, "exclusive or", "1^", MANY),
    (Place::Returned, "and", "1&", MANY),
    (Place::Returned, "equality", "1==", MANY),
    (Place::Returned, "order", "1<", MANY),
    (Place::Returned, "shift to the left", "1<<", MANY),
    (Place::Returned, "shift to the right", "1>>", MANY),
    (Place::Returned, "sum", "1+", MANY),
    (Place::Returned, "difference", "1-", MANY),
    (Place::Returned, "product", "1*", MANY),
    (Place::Returned, "quotient", "1/", MANY),
    (Place::Returned, "remainder", "1%", MANY),
    (Place::Returned, "conditional", "1?1:", MANY),
    (Place::Constant, "constant sum", "1+", MANY),
    (Place::Constant, "constant conjunction", "1&&", MANY),
    (Place::Constant, "constant shift", "1<<", MANY),
    (Place::Constant, "constant conditional", "1?1:", MANY),
    (Place::Asserted, "asserted conjunction", "1&&", Links::Most),
    (Place::Asserted, "asserted disjunction", "1||", MANY),
    (Place::Asserted, "asserted implication", "1==>", MANY),
    (Place::Asserted, "asserted equivalence", "1<==>", MANY),
    (Place::Asserted, "asserted relation", "1<=", MANY),
    (Place::Asserted, "asserted sum", "1+", MANY),
    (Place::Asserted, "asserted product", "1*", MANY),
    (Place::Asserted, "asserted quotient", "1/", MANY),
];

/// The form of a chain of operators.
fn form_of((place, name, link, links): Chain) -> Form {
    let (head, end) = match place {
        Place::Returned => ("int main(void){return ", ";}"),
        Place::Constant => ("int x = ", ";int main(void){}"),
        Place::Asserted => ("int main(void){/*@ assert ", ";*/}"),
    };
    Form {
        name,
        head,
        prefix: "",
        prefixes: 0,
        link,
        middle: "1",
        close: "",
        end,
        links,
    }
}

/// Chains of operators with 199 prefix operators or casts before each operand but the last, up to the 200th nesting.
fn prefixed(name: &'static str, prefix: &'static str, links: Links) -> Form {
    Form {
        prefix,
        prefixes: 199,
        ..form_of((Place::Returned, name, "1&&", links))
    }
}

/// A chain of statements in `main`.
fn stated(name: &'static str, link: &'static str, links: Links) -> Form {
    Form {
        head: "int main(void){",
        middle: "",
        end: "}",
        ..form_of((Place::Returned, name, link, links))
    }
}

/// A chain of `1?` that is closed after its middle.
fn within(place: Place, name: &'static str, links: Links) -> Form {
    Form {
        close: ":1",
        ..form_of((place, name, "1?", links))
    }
}

/// A chain of assignments.
fn assigned(name: &'static str, end: &'static str) -> Form {
    Form {
        head: "int main(void) { int a; ",
        end,
        ..form_of((Place::Returned, name, "a=", MANY))
    }
}

/// Other expressions.
fn expressions() -> [Form; 7] {
    [
        within(Place::Returned, "conditional within", Links::Most),
        within(Place::Constant, "constant conditional within", MANY),
        prefixed("not", "!", Links::Just(1_000)),
        prefixed("minus", "- ", Links::Just(1_000)),
        prefixed("cast", "(int)", Links::Just(1_000)),
        assigned("assignment", "; }"),
        Form {
            head: "/*@ requires ",
            end: ";*/void f(void){}int main(void){f();}",
            ..form_of((Place::Asserted, "precondition of a call", "1&&", MANY))
        },
    ]
}

/// Statements.
fn statements() -> [Form; 5] {
    [
        stated("empty blocks", "{}", Links::Most),
        stated("empty statements", ";", MANY),
        Form {
            close: "}",
            ..stated("blocks in blocks", "{", Links::Just(199))
        },
        Form {
            middle: ";",
            ..stated("else if", "if(1);else ", Links::Just(199))
        },
        Form {
            middle: ";",
            ..stated("loops in loops", "while(1)", Links::Just(199))
        },
    ]
}

/// Functions that call the one before, the last of which `main` calls.
fn calling(name: &'static str, end: &'static str, links: usize) -> Form {
    Form {
        head: "void f0(void){}",
        end,
        ..stated(name, "void f#(void){f@();}", Links::Numbered(links))
    }
}

/// Functions that call one another: as many as a table of properties has room for, and one more.
fn calls() -> [Form; 3] {
    [
        calling("calls", "int main(void){f21843();}", 21_843),
        calling(
            "calls with too many points",
            "int main(void){f21844();}",
            21_844,
        ),
        Form {
            head: "",
            end: "void f21843(void){}int main(void){f0();}",
            ..stated(
                "calls of later functions",
                "void f#(void);void f@(void){f#();}",
                Links::Numbered(21_843),
            )
        },
    ]
}

/// Files without their last tokens.
fn cut() -> [Form; 4] {
    [
        Form {
            end: "",
            ..form_of((Place::Constant, "sum that is cut off", "1+", MANY))
        },
        Form {
            end: "",
            ..within(Place::Constant, "conditional within that is cut off", MANY)
        },
        assigned("assignment that is cut off", ""),
        Form {
            end: "*/}",
            ..form_of((
                Place::Asserted,
                "asserted conjunction that is cut off",
                "1&&",
                Links::Most,
            ))
        },
    ]
}

/// All forms.
pub(crate) fn forms(alloc: Global) -> Result<Vec<Form>, AllocError> {
    let mut forms = Vec::new(alloc);
    for chain in CHAINS {
        forms.push(form_of(chain))?;
    }
    forms.extend_from_slice(expressions().as_slice())?;
    forms.extend_from_slice(statements().as_slice())?;
    forms.extend_from_slice(calls().as_slice())?;
    forms.extend_from_slice(cut().as_slice())?;
    Ok(forms)
}
