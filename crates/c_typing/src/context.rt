//! Where a statement stands.

use c_ir::IntType;
use fc_base::FnId;

/// What a statement's rules ask of the place where it stands.
#[derive(Clone, Copy, Debug)]
pub struct Context {
    /// The function whose body it is in.
    pub owner: FnId,
    /// The type of the function's result, if it has one.
    pub result: Option<IntType>,
    /// Whether a loop is around it.
    pub in_loop: bool,
    /// The cell from which on the objects of its block begin.
    pub since: u32,
    /// In the outermost block of a function the cells of its formals, which are declared in that block too (C11
    /// 6.2.1), from `formals_from` to below `formals_to`.
    pub formals_from: u32,
    pub formals_to: u32,
}
