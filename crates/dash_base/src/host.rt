//! The outside world, as the program sees it: files that are read whole, and two streams.
ghost use Rattle.std.specs.Prelude.{◌≡◌, ℕ, ◌<◌, ◌≤◌, List, [], ◌∷◌, length, Option, None, IfSome, IsSomeAnd, IfOk, OnOk, OnErr, IsTrue, Bool};
ghost use Rattle.std.specs.Prelude.{vec_len};
ghost use Rattle.dash_base.specs.Outside.{Files, Printed, Appends, AppendsPart, Follows, Rose, CountsLoad, Call, load_of, print_call, with_calls};
ghost use Rattle.dash_base.specs.declared.host.LoadFault.{LoadFault};

use crate::memory::OutOfMemory;
use std::alloc::{AllocError, Global};

/// A stream that bytes are printed on.
#[derive(Clone, Copy, Debug, PartialEq, Eq)]
pub enum Stream {
    /// Standard output.
    Out,
    /// Standard error.
    Err,
}

/// Why a file was not given.
#[derive(Clone, Copy, Debug, PartialEq, Eq)]
pub enum LoadFault {
    /// It has more bytes than the limit: `size`.
    TooLarge { size: u64 },
    /// It couldn't be read.
    Failed,
    /// There was no memory for it.
    OutOfMemory,
}

impl From<AllocError> for LoadFault {
    ghost use Rattle.std.specs.Prelude.{◌≡◌};
    ghost use Rattle.dash_base.specs.declared.host.LoadFault.TheVariants as fault;

    ghost from_gives = { λ _ e. e ≡ fault.OutOfMemory };

    fn from(_error: AllocError) -> LoadFault {
        LoadFault::OutOfMemory
    }
}

/// Bytes couldn't be printed.
#[derive(Clone, Copy, Debug, PartialEq, Eq)]
pub struct Failed;

/// The outside. An implementation tells contracts what it can: the files that there are, what was
/// printed, and the calls that were made of it. It counts its faults in any case, so that an answer
/// `Failed` always shows.
pub trait Host {
    /// The bytes of each file, where the host tells them. No call changes it.
    ghost files: { Self → Option Files };
    /// What was printed, where the host tells it.
    ghost printed: { Self → Option Printed };
    /// How many loads failed.
    ghost load_faults: { Self → ℕ };
    /// How many prints failed.
    ghost print_faults: { Self → ℕ };
    /// Whether a name may be asked for. No call changes it.
    ghost may_load: { Self → List ℕ → Bool };
    /// The calls that were made of it, the last one at the end, where the host tells them.
    ghost calls: { Self → Option (List Call) } = { λ _. None };

    /// The bytes of a file of at most `limit` bytes.
    fn load(&mut self, alloc: Global, name: &str, limit: u64) -> Result<Vec<u8>, LoadFault>
        requires { IsTrue (may_load self.old name.now) }
        ensures files { files self.new ≡ files self.old }
        ensures may_load { may_load self.new ≡ may_load self.old }
        ensures printed { printed self.new ≡ printed self.old }
        ensures print_faults { print_faults self.new ≡ print_faults self.old }
        ensures calls { calls self.new ≡ with_calls (calls self.old) (load_of name.now ∷ []) }

        ensures small { IfOk result (λ bytes. vec_len bytes ≤ limit) }
        ensures bytes { IfSome (files self.old) (λ told. IfOk result (λ bytes. told name.now ≡ Some bytes.items)) }
        ensures large { (size : ℕ) → result ≡ Err (LoadFault.TooLarge size) → limit < size }
        ensures size { IfSome (files self.old) (λ told. (size : ℕ) → result ≡ Err (LoadFault.TooLarge size)
            → IsSomeAnd (told name.now) (λ bytes. length bytes ≡ size)) }

        ensures counts { load_faults self.old ≤ load_faults self.new }
        ensures counted { CountsLoad result (load_faults self.old) (load_faults self.new) };

    /// Prints bytes on a stream.
    fn print(&mut self, to: Stream, bytes: &[u8]) -> Result<(), Failed>
        ensures files { files self.new ≡ files self.old }
        ensures may_load { may_load self.new ≡ may_load self.old }
        ensures load_faults { load_faults self.new ≡ load_faults self.old }
        ensures calls { calls self.new ≡ with_calls (calls self.old) (print_call to bytes.now result ∷ []) }

        ensures ok { OnOk result (Follows (Appends to bytes.now) (printed self.old) (printed self.new)) }
        ensures err { OnErr result (Follows (AppendsPart to bytes.now) (printed self.old) (printed self.new)) }

        ensures counts { print_faults self.old ≤ print_faults self.new }
        ensures failed { OnErr result (Rose (print_faults self.old) (print_faults self.new)) }
        ensures steady { OnOk result (print_faults self.new ≡ print_faults self.old) };
}
