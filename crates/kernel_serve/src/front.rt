//! The stages of a file: its length, its tokens, the grammar of C, that of annotations, its types, its binding, its
//! entry function and its properties.

ghost use Rattle.std.specs.Prelude.{◌≡◌, ◌≤◌, ◌^◌, IfErr, IfOk, length};
ghost use Rattle.c_ast.specs.Weight.{weight_of_unit};
ghost use Rattle.kernel_serve.specs.Stages.{entry_from, is_entry};
ghost use Rattle.kernel_serve.specs.inner.Steps.{IsBoundAnswer, IsEntryAnswer, IsFileAnswer, IsTypesAnswer, acsl_status, bind_status, lex_status, parse_status, type_status};

use crate::status::{FrontFault, LimitFault, Status};
use acsl_bind::{BindFault, bind};
use acsl_notes::notes;
use acsl_read::AcslFault;
use c_ast::{Annot, Unit as Tree};
use c_ir::{Fun, Program, PropTable};
use c_lex::{LexFault, tokens};
use c_parse::{ParseFault, parse};
use c_types::{TypeFault, check, one_program};
use fc_base::Name;
use prop_table::{TableFault, table};
use std::alloc::Global;

/// The most bytes of a file.
pub(crate) const MOST_FILE: usize = 4_194_304;

/// The most functions whose numbers have 32 bits. No file within its limit has more.
const MOST_FNS: usize = 4_294_967_296;

/// A program with its properties, and the number of its entry function.
#[derive(Drop)]
pub(crate) struct Entered {
    pub(crate) program: Program,
    pub(crate) props: PropTable,
    pub(crate) entry: u32,
}

/// The program of a file of C, whose entry function has this name; refused at the first stage that it doesn't pass.
pub(crate) fn program_in(alloc: Global, bytes: &[u8], name: &str) -> Result<Entered, Status>
    requires { length name.now ≤ 256 }
    ensures { IsFileAnswer name.now bytes.now result }
{
    if bytes.len() > MOST_FILE {
        return Err(Status::Limit(LimitFault::FileTooLong(4_194_305)));
    }
    let tokens = match tokens(alloc, bytes) {
        Ok(tokens) => tokens,
        Err(fault) => return Err(lex_status(fault)),
    };
    let tree = match parse(alloc, bytes, tokens.as_slice()) {
        Ok(tree) => tree,
        Err(fault) => return Err(parse_status(fault)),
    };
    let annots = match notes(alloc, bytes, tokens.as_slice()) {
        Ok(annots) => annots,
        Err(fault) => return Err(acsl_status(fault)),
    };
    typed(alloc, &tree, annots.as_slice(), name)
}

/// How a call ends where a file has no tokens.
fn lex_status(fault: LexFault) -> Status
    ensures { result ≡ lex_status fault }
{
    match fault {
        LexFault::Memory => Status::Memory,
        LexFault::BadByte(at) => Status::Refused(FrontFault::Lex(LexFault::BadByte(at))),
        LexFault::OpenComment(at) => Status::Refused(FrontFault::Lex(LexFault::OpenComment(at))),
        LexFault::LiteralTooWide(at) => {
            Status::Refused(FrontFault::Lex(LexFault::LiteralTooWide(at)))
        }
        LexFault::Directive(line) => Status::Refused(FrontFault::Lex(LexFault::Directive(line))),
        LexFault::NameTooLong(at) => Status::Refused(FrontFault::Lex(LexFault::NameTooLong(at))),
    }
}

/// How a call ends where a file's tokens are no text of C.
fn parse_status(fault: ParseFault) -> Status
    ensures { result ≡ parse_status fault }
{
    match fault {
        ParseFault::Memory => Status::Memory,
        ParseFault::NotC(at) => Status::Refused(FrontFault::Parse(ParseFault::NotC(at))),
        ParseFault::Unsupported(word, at) => {
            Status::Refused(FrontFault::Parse(ParseFault::Unsupported(word, at)))
        }
        ParseFault::TooDeep(at) => Status::Refused(FrontFault::Parse(ParseFault::TooDeep(at))),
    }
}

/// How a call ends where a note of a file is no annotation.
fn acsl_status(fault: AcslFault) -> Status
    ensures { result ≡ acsl_status fault }
{
    match fault {
        AcslFault::Memory => Status::Memory,
        AcslFault::NotAcsl(at) => Status::Refused(FrontFault::Acsl(AcslFault::NotAcsl(at))),
        AcslFault::Unsupported(word, at) => {
            Status::Refused(FrontFault::Acsl(AcslFault::Unsupported(word, at)))
        }
        AcslFault::TooDeep(at) => Status::Refused(FrontFault::Acsl(AcslFault::TooDeep(at))),
    }
}

/// How a call ends where a note of a file is in breach of the rules.
fn bind_status(fault: BindFault) -> Status
    ensures { result ≡ bind_status fault }
{
    match fault {
        BindFault::Memory => Status::Memory,
        BindFault::Unknown(name) => Status::Refused(FrontFault::Bind(BindFault::Unknown(name))),
        BindFault::NotHere(at) => Status::Refused(FrontFault::Bind(BindFault::NotHere(at))),
        BindFault::BadType(at) => Status::Refused(FrontFault::Bind(BindFault::BadType(at))),
    }
}

/// How a call ends where a file's text has no program.
fn type_status(fault: TypeFault) -> Status
    ensures { result ≡ type_status fault }
{
    match fault {
        TypeFault::Memory => Status::Memory,
        TypeFault::TooManyCells(count) => Status::Limit(LimitFault::TooManyCells(count)),
        TypeFault::Unknown(name) => Status::Refused(FrontFault::Types(TypeFault::Unknown(name))),
        TypeFault::Twice(name) => Status::Refused(FrontFault::Types(TypeFault::Twice(name))),
        TypeFault::BadType(at) => Status::Refused(FrontFault::Types(TypeFault::BadType(at))),
        TypeFault::Arity(at) => Status::Refused(FrontFault::Types(TypeFault::Arity(at))),
        TypeFault::SideEffect(at) => Status::Refused(FrontFault::Types(TypeFault::SideEffect(at))),
        TypeFault::Recursive(name) => {
            Status::Refused(FrontFault::Types(TypeFault::Recursive(name)))
        }
        TypeFault::ConstWrite(at) => Status::Refused(FrontFault::Types(TypeFault::ConstWrite(at))),
    }
}

/// Whether this is a function of this name with a body.
fn is_entry(name: &str, f: &Fun) -> bool
    ensures { result ≡ is_entry name.now f.now }
{
    f.body.is_some() && f.name.as_str() == name
}

/// The number of the function of this name with a body.
fn entry_of(name: &str, all: &[Fun]) -> Option<u32>
    requires { length all.now ≤ 2 ^ 32 }
    ensures { result ≡ entry_from name.now 0 all.now }
{
    for number in 0..all.len() {
        if is_entry(name, &all[number]) {
            return Some(number as u32);
        }
    }
    None
}

/// The program of a text and its annotations; refused where there is none.
#[tactic(auto, using(crate::proofs::Fronted::no_types, crate::proofs::Fronted::no_binding, crate::proofs::Fronted::is_bound))]
fn bound(alloc: Global, tree: &Tree, annots: &[Annot]) -> Result<Program, Status>
    requires { weight_of_unit tree.now ≤ 4194304 }
    ensures { IsBoundAnswer tree.now.items annots.now result }
{
    one_program();
    let skeleton = match check(alloc, tree) {
        Ok(skeleton) => skeleton,
        Err(fault) => return Err(type_status(fault)),
    };
    match bind(alloc, skeleton, annots) {
        Ok(program) => Ok(program),
        Err(fault) => Err(bind_status(fault)),
    }
}

/// A program with its properties and the number of the function of this name; refused where it doesn't define that
/// function, or has too many properties.
#[tactic(auto, using(crate::proofs::Fronted::too_many, crate::proofs::Fronted::few, crate::proofs::Fronted::no_room))]
fn enter(alloc: Global, program: Program, name: &str) -> Result<Entered, Status>
    requires { length name.now ≤ 256 }
    ensures { IsEntryAnswer name.now program result }
{
    let fns = program.fns.as_slice();
    if fns.len() > MOST_FNS {
        return Err(Status::Memory);
    }
    let Some(entry) = entry_of(name, fns) else {
        return match Name::new(alloc, name) {
            Ok(name) => Err(Status::Refused(FrontFault::Types(TypeFault::Unknown(name)))),
            Err(_) => Err(Status::Memory),
        };
    };
    match table(alloc, &program) {
        Ok(props) => Ok(Entered {
            program,
            props,
            entry,
        }),
        Err(TableFault::TooManyProps(count)) => {
            Err(Status::Limit(LimitFault::TooManyProps(count)))
        }
        Err(TableFault::Memory) => Err(Status::Memory),
    }
}

/// What a text and its annotations come to; refused where they have no such program.
#[tactic(auto, using(crate::proofs::Fronted::entry_found, crate::proofs::Fronted::not_bound))]
fn typed(alloc: Global, tree: &Tree, annots: &[Annot], name: &str) -> Result<Entered, Status>
    requires size { weight_of_unit tree.now ≤ 4194304 }
    requires name { length name.now ≤ 256 }
    ensures { IsTypesAnswer name.now tree.now.items annots.now result }
{
    match bound(alloc, tree, annots) {
        Ok(program) => enter(alloc, program, name),
        Err(status) => Err(status),
    }
}
