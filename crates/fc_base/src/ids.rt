//! Numbers of things, counted from 0, and places in a text.

/// The number of a property in its table.
#[derive(Clone, Copy, Debug, PartialEq, Eq)]
pub struct PropId(pub u32);

/// The number of a point of the program.
#[derive(Clone, Copy, Debug, PartialEq, Eq)]
pub struct PointId(pub u32);

/// The number of a checked operator.
#[derive(Clone, Copy, Debug, PartialEq, Eq)]
pub struct SiteId(pub u32);

/// The number of a function, in order of first declaration.
#[derive(Clone, Copy, Debug, PartialEq, Eq)]
pub struct FnId(pub u32);

/// The number of an emitter. 0 to 3 are the program's own, `kernel`, `rte`, `eva` and `replay`.
#[derive(Clone, Copy, Debug, PartialEq, Eq)]
pub struct EmitterId(pub u32);

/// A line of a text, counted from 1.
#[derive(Clone, Copy, Debug, PartialEq, Eq)]
pub struct Line(pub u32);

/// The bytes of a text from offset `from` up to, and without, offset `to`, both counted from 0.
#[derive(Clone, Copy, Debug, PartialEq, Eq)]
pub struct Span {
    pub from: u32,
    pub to: u32,
}
