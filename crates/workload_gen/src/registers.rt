//! The registers that the program uses, by the names of the manual's chapter on assembly.

pub const ZERO: u32 = 0;

pub const T0: u32 = 5;

pub const T1: u32 = 6;

pub const T2: u32 = 7;

pub const S1: u32 = 9;
/// The hart's number, as a run opens.
pub const A0: u32 = 10;
/// The number of a call.
pub const A7: u32 = 17;

pub const S2: u32 = 18;

pub const S3: u32 = 19;

pub const S4: u32 = 20;

pub const S5: u32 = 21;

pub const S6: u32 = 22;

pub const S7: u32 = 23;

pub const T3: u32 = 28;

pub const T4: u32 = 29;

pub const T5: u32 = 30;

pub const T6: u32 = 31;
