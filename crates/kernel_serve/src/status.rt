//! How a call ends.

ghost use Rattle.std.specs.Prelude.{◌≡◌, ◌++◌, IfOk, codes};
ghost use Rattle.kernel_serve.specs.Status.{exit_status, fault_text, lex_text, parse_text, acsl_text, types_text, bind_text, limit_text, line_fault_name, refusal_name, script_text, with_name, with_number};

use acsl_bind::BindFault;
use acsl_read::AcslFault;
use c_lex::LexFault;
use c_parse::ParseFault;
use c_types::TypeFault;
use fc_base::Name;
use status_rules::Refusal;
use std::alloc::{AllocError, Global};

/// Why a file that could be read is refused.
#[derive(Debug, Drop)]
pub enum FrontFault {
    /// The file has no tokens of C (C11 6.4); the fault is never its Memory.
    Lex(LexFault),
    /// The file's tokens are no program (C11 6.5 to 6.9, cut down); the fault is never its Memory.
    Parse(ParseFault),
    /// A note of the file is no annotation (ACSL manual, cut down); the fault is never its Memory.
    Acsl(AcslFault),
    /// The file's text has no program (C11 6.3, 6.5 to 6.9), or `main` isn't defined, which is Unknown. The fault is
    /// never its Memory or TooManyCells.
    Types(TypeFault),
    /// A note of the file is in breach of the rules of annotations (ACSL manual, function contracts, loop annotations,
    /// terms and predicates); the fault is never its Memory.
    Bind(BindFault),
}

/// Which limit an input passes, with the limit plus one or the count.
#[derive(Clone, Copy, Debug, PartialEq, Eq)]
pub enum LimitFault {
    /// The file has more than 4,194,304 bytes.
    FileTooLong(u64),
    /// The script has more than 16,777,216 bytes.
    ScriptTooLong(u64),
    /// The program has more than 4,096 cells; how many.
    TooManyCells(u32),
    /// The program has more than 65,536 properties; how many, or 4,294,967,295 where there are more than that.
    TooManyProps(u32),
    /// The analysis would be too much: its work times the program's cells is more than 200,000,000.
    TooLarge { work: u64, cells: u32 },
}

/// Why a line of a script stops it.
#[derive(Clone, Copy, Debug, PartialEq, Eq)]
pub enum LineFault {
    /// It is of no form that a script's lines have.
    Form,
    /// Its change is refused, or the entries of its run are; the reason is never want of memory.
    Refused(Refusal),
    /// The analysis that it asks for would be too much: its work times the program's cells is more than 200,000,000.
    TooLarge,
}

/// How a call ended.
#[derive(Debug, Drop)]
pub enum Status {
    /// All was written.
    Done,
    /// A file was read and refused.
    Refused(FrontFault),
    /// The words are no command.
    Usage,
    /// A file couldn't be read.
    ReadFault,
    /// Not all could be written.
    WriteFault,
    /// There was no memory left.
    Memory,
    /// An input passes a limit.
    Limit(LimitFault),
    /// A line of the script, counted from 1, stops it.
    ScriptLine { line: u32, why: LineFault },
}

impl Status {
    /// The exit status of the program: 0 for Done, 1 for Refused, 2 for Usage, 3 for ReadFault, 4 for
    /// WriteFault, 5 for Memory, 6 for Limit and 7 for ScriptLine (this project's own).
    pub fn exit_status(&self) -> u8
        ensures { result ≡ exit_status self.now }
    {
        match self {
            Status::Done => 0,
            Status::Refused(_) => 1,
            Status::Usage => 2,
            Status::ReadFault => 3,
            Status::WriteFault => 4,
            Status::Memory => 5,
            Status::Limit(_) => 6,
            Status::ScriptLine { .. } => 7,
        }
    }
}

/// The line that says how a call ended, with its LF: a refusal with its stage, its name, the token's text where
/// it keeps one, and its place, an offset from 0 or a line from 1; a limit with its name and its counts; a line of the
/// script with its number and the name of what stops it. No bytes for Done (this project's own).
pub fn fault_line(alloc: Global, status: &Status) -> Result<Vec<u8>, AllocError>
    ensures { IfOk result (λ line. line.items ≡ fault_text status.now) }
{
    match status {
        Status::Done => Ok(Vec::new(alloc)),
        Status::Refused(FrontFault::Lex(fault)) => lex_line(alloc, fault),
        Status::Refused(FrontFault::Parse(fault)) => parse_line(alloc, fault),
        Status::Refused(FrontFault::Acsl(fault)) => acsl_line(alloc, fault),
        Status::Refused(FrontFault::Types(fault)) => types_line(alloc, fault),
        Status::Refused(FrontFault::Bind(fault)) => bind_line(alloc, fault),
        Status::Usage => line(alloc, "usage\n"),
        Status::ReadFault => line(alloc, "read fault\n"),
        Status::WriteFault => line(alloc, "write fault\n"),
        Status::Memory => line(alloc, "out of memory\n"),
        Status::Limit(fault) => limit_line(alloc, *fault),
        Status::ScriptLine { line, why } => script_line(alloc, *line, *why),
    }
}

fn line(alloc: Global, text: &str) -> Result<Vec<u8>, AllocError>
    ensures { IfOk result (λ line. line.items ≡ text.now) }
{
    Vec::from_slice(alloc, text.as_bytes())
}

#[tactic(auto, unfolding(crate::specs::Status::lex_text))]
fn lex_line(alloc: Global, fault: &LexFault) -> Result<Vec<u8>, AllocError>
    ensures { IfOk result (λ line. line.items ≡ lex_text fault.now) }
{
    let text = match fault {
        LexFault::BadByte(at) => format!(in alloc; "refused: lex BadByte {at}\n")?,
        LexFault::OpenComment(at) => format!(in alloc; "refused: lex OpenComment {at}\n")?,
        LexFault::LiteralTooWide(at) => format!(in alloc; "refused: lex LiteralTooWide {at}\n")?,
        LexFault::Directive(line) => {
            let number = line.0;
            format!(in alloc; "refused: lex Directive {number}\n")?
        }
        LexFault::NameTooLong(at) => format!(in alloc; "refused: lex NameTooLong {at}\n")?,
        LexFault::Memory => return line(alloc, "out of memory\n"),
    };
    line(alloc, text.as_str())
}

/// A line that ends with a token's text and its place.
fn word_line(alloc: Global, start: &str, word: &[u8], at: u32) -> Result<Vec<u8>, AllocError>
    ensures { IfOk result (λ line. line.items ≡ start.now ++ (word.now ++ with_number (codes " ") at)) }
{
    let place = format!(in alloc; " {at}\n")?;
    let mut text = line(alloc, start)?;
    text.extend_from_slice(word)?;
    text.extend_from_slice(place.as_bytes())?;
    Ok(text)
}

#[tactic(auto, unfolding(crate::specs::Status::parse_text))]
fn parse_line(alloc: Global, fault: &ParseFault) -> Result<Vec<u8>, AllocError>
    ensures { IfOk result (λ line. line.items ≡ parse_text fault.now) }
{
    match fault {
        ParseFault::NotC(at) => {
            let text = format!(in alloc; "refused: parse NotC {at}\n")?;
            line(alloc, text.as_str())
        }
        ParseFault::Unsupported(word, at) => {
            word_line(alloc, "refused: parse Unsupported ", word.as_slice(), *at)
        }
        ParseFault::TooDeep(at) => {
            let text = format!(in alloc; "refused: parse TooDeep {at}\n")?;
            line(alloc, text.as_str())
        }
        ParseFault::Memory => line(alloc, "out of memory\n"),
    }
}

#[tactic(auto, unfolding(crate::specs::Status::acsl_text))]
fn acsl_line(alloc: Global, fault: &AcslFault) -> Result<Vec<u8>, AllocError>
    ensures { IfOk result (λ line. line.items ≡ acsl_text fault.now) }
{
    let text = match fault {
        AcslFault::NotAcsl(at) => format!(in alloc; "refused: acsl NotAcsl {at}\n")?,
        AcslFault::Unsupported(word, at) => {
            return word_line(alloc, "refused: acsl Unsupported ", word.as_slice(), *at);
        }
        AcslFault::TooDeep(at) => format!(in alloc; "refused: acsl TooDeep {at}\n")?,
        AcslFault::Memory => return line(alloc, "out of memory\n"),
    };
    line(alloc, text.as_str())
}

/// A line that ends with a name.
fn named_line(alloc: Global, start: &str, name: &Name) -> Result<Vec<u8>, AllocError>
    ensures { IfOk result (λ line. line.items ≡ with_name start.now name.now) }
{
    worded_line(alloc, start, name.as_str())
}

/// A line that ends with a word.
fn worded_line(alloc: Global, start: &str, word: &str) -> Result<Vec<u8>, AllocError>
    ensures { IfOk result (λ line. line.items ≡ with_name start.now word.now) }
{
    let mut text = line(alloc, start)?;
    text.extend_from_slice(word.as_bytes())?;
    text.extend_from_slice("\n".as_bytes())?;
    Ok(text)
}

#[tactic(auto, unfolding(crate::specs::Status::types_text))]
fn types_line(alloc: Global, fault: &TypeFault) -> Result<Vec<u8>, AllocError>
    ensures { IfOk result (λ line. line.items ≡ types_text fault.now) }
{
    let text = match fault {
        TypeFault::Unknown(name) => return named_line(alloc, "refused: types Unknown ", name),
        TypeFault::Twice(name) => return named_line(alloc, "refused: types Twice ", name),
        TypeFault::Recursive(name) => return named_line(alloc, "refused: types Recursive ", name),
        TypeFault::BadType(at) => format!(in alloc; "refused: types BadType {at}\n")?,
        TypeFault::Arity(at) => format!(in alloc; "refused: types Arity {at}\n")?,
        TypeFault::SideEffect(at) => format!(in alloc; "refused: types SideEffect {at}\n")?,
        TypeFault::ConstWrite(at) => format!(in alloc; "refused: types ConstWrite {at}\n")?,
        TypeFault::TooManyCells(count) => format!(in alloc; "limit: TooManyCells {count}\n")?,
        TypeFault::Memory => return line(alloc, "out of memory\n"),
    };
    line(alloc, text.as_str())
}

#[tactic(auto, unfolding(crate::specs::Status::bind_text))]
fn bind_line(alloc: Global, fault: &BindFault) -> Result<Vec<u8>, AllocError>
    ensures { IfOk result (λ line. line.items ≡ bind_text fault.now) }
{
    let text = match fault {
        BindFault::Unknown(name) => return named_line(alloc, "refused: bind Unknown ", name),
        BindFault::NotHere(at) => format!(in alloc; "refused: bind NotHere {at}\n")?,
        BindFault::BadType(at) => format!(in alloc; "refused: bind BadType {at}\n")?,
        BindFault::Memory => return line(alloc, "out of memory\n"),
    };
    line(alloc, text.as_str())
}

#[tactic(auto, unfolding(crate::specs::Status::limit_text))]
fn limit_line(alloc: Global, fault: LimitFault) -> Result<Vec<u8>, AllocError>
    ensures { IfOk result (λ line. line.items ≡ limit_text fault) }
{
    let text = match fault {
        LimitFault::FileTooLong(count) => format!(in alloc; "limit: FileTooLong {count}\n")?,
        LimitFault::ScriptTooLong(count) => format!(in alloc; "limit: ScriptTooLong {count}\n")?,
        LimitFault::TooManyCells(count) => format!(in alloc; "limit: TooManyCells {count}\n")?,
        LimitFault::TooManyProps(count) => format!(in alloc; "limit: TooManyProps {count}\n")?,
        LimitFault::TooLarge { work, cells } => {
            format!(in alloc; "limit: TooLarge {work} {cells}\n")?
        }
    };
    line(alloc, text.as_str())
}

#[tactic(auto, unfolding(crate::specs::Status::script_text))]
fn script_line(alloc: Global, number: u32, why: LineFault) -> Result<Vec<u8>, AllocError>
    ensures { IfOk result (λ line. line.items ≡ script_text number why) }
{
    let start = format!(in alloc; "script line {number}: ")?;
    worded_line(alloc, start.as_str(), line_fault_name(why))
}

fn line_fault_name(why: LineFault) -> &'static str
    ensures { result.now ≡ line_fault_name why }
{
    match why {
        LineFault::Form => "Form",
        LineFault::Refused(why) => refusal_name(why),
        LineFault::TooLarge => "TooLarge",
    }
}

fn refusal_name(why: Refusal) -> &'static str
    ensures { result.now ≡ refusal_name why }
{
    match why {
        Refusal::UnknownEmitter => "UnknownEmitter",
        Refusal::ReservedEmitter => "ReservedEmitter",
        Refusal::UnknownProperty => "UnknownProperty",
        Refusal::UnknownHyp(_) => "UnknownHyp",
        Refusal::TooManyHyps(_) => "TooManyHyps",
        Refusal::FutureVersion(_) => "FutureVersion",
        Refusal::OutOfRange => "OutOfRange",
        Refusal::NameTaken => "NameTaken",
        Refusal::TooManyEmitters(_) => "TooManyEmitters",
        Refusal::HistoryFull(_) => "HistoryFull",
        Refusal::EventsFull(_) => "EventsFull",
        Refusal::Memory => "Memory",
    }
}
