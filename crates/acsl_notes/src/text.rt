//! All notes of a text.

ghost use Rattle.std.specs.Prelude.{List, IfOk, IfErr};
ghost use Rattle.c_ast.specs.declared.annot.Annot.{Annot};
ghost use Rattle.acsl_notes.specs.Notes.{notes_of, AreAnnots, IsOnly, IsFirstFault};

use crate::note::add_opened;
use acsl_read::AcslFault;
use c_ast::Annot;
use c_lex::Token;
use sqlite_items::Items;
use std::alloc::Global;

/// Annotations in the order of the text.
pub type Annots = Items<Annot>;

/// The annotations of a text, of which these are the tokens: one for each note, in the order of the text. Words and
/// names are taken from the bytes.
///
/// A text whose notes aren't all annotations is refused by the fault of the first that is none, with the place that
/// `read` gives it. `Memory` may come for any text that has a note.
pub fn notes(alloc: Global, bytes: &[u8], tokens: &[Token]) -> Result<Annots, AcslFault>
    ensures found { IfOk result (λ annots. AreAnnots bytes.now annots (notes_of tokens.now)) }
    ensures only { (annots : List Annot) → AreAnnots bytes.now annots (notes_of tokens.now) → IsOnly annots result }
    ensures fault { IfErr result (IsFirstFault bytes.now (notes_of tokens.now)) }
{
    let mut annots = Items::new(alloc);
    let mut rest = tokens;
    'reading: while let Some((token, behind)) = rest.split_first() {
        match add_opened(alloc, bytes, &mut annots, *token, behind) {
            Ok(()) => {}
            Err(fault) => return Err(fault),
        }
        rest = behind;
    }
    Ok(annots)
}
