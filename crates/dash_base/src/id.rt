//! The numbers by which parts of the machine go.

/// A cluster, from 0.
#[derive(Clone, Copy, Debug, PartialEq, Eq)]
pub struct ClusterId(pub u32);

/// A hart, from 0, counted over the whole machine.
#[derive(Clone, Copy, Debug, PartialEq, Eq)]
pub struct HartId(pub u32);

/// A line of 16 bytes, counted from the lowest address of memory.
#[derive(Clone, Copy, Debug, PartialEq, Eq)]
pub struct LineId(pub u32);

/// The byte address of an aligned word. Nothing here checks that it is aligned.
#[derive(Clone, Copy, Debug, PartialEq, Eq)]
pub struct WordAddr(pub u32);
