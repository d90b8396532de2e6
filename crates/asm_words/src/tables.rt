//! The numbers that registers and sets of a fence have by their spellings.
ghost use Rattle.std.specs.Prelude.{◌≡◌, ◌<◌, IfSome};
ghost use Rattle.asm_words.specs.Tables.{register_of, fence_set_of};

use rv32_text::names;

/// The number of a register by its name in the ABI. `None` where no register has the name.
#[tactic(auto, using(crate::proofs::Found::found_step, crate::proofs::Found::none_below))]
pub fn register(word: &[u8]) -> Option<u32>
    ensures value { result ≡ register_of word.now }
    ensures in_range { IfSome result (λ n. n < 32) }
{
    let mut n = 32;
    while 0 < n {
        n -= 1;
        if names::register(n).as_bytes() == word {
            return Some(n);
        }
    }
    None
}

/// The set of a fence by its letters. `None` where no set is spelled so.
#[tactic(auto, using(crate::proofs::Found::found_step, crate::proofs::Found::none_below))]
pub fn fence_set(word: &[u8]) -> Option<u32>
    ensures value { result ≡ fence_set_of word.now }
    ensures in_range { IfSome result (λ n. n < 16) }
{
    let mut n = 16;
    while 0 < n {
        n -= 1;
        if names::fence_set(n).as_bytes() == word {
            return Some(n);
        }
    }
    None
}
