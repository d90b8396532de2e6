//! Laws of the workload. A function does nothing, or is two calls in a row: its contract is the law.
ghost use Rattle.hart_core.specs.Meaning.{IsFound};
ghost use Rattle.hart_core.specs.declared.found.Found.TheVariants.{NoWord};
ghost use Rattle.elf_load.specs.declared.refusal.LoadRefusal.TheVariants.{OutOfMemory};
ghost use Rattle.std.specs.Prelude.{◌≡◌, ℕ, IfErr, IfOk};
ghost use Rattle.workload_gen.specs.Guarded.{CountersAreGuarded};
ghost use Rattle.workload_gen.specs.RunLaws.{CountersComeToTotals, HartsAreDone, HartsOnlyExit, LastStoresWriteTotals, NothingIsPut, WorkloadsAreProperlyLabelled};
ghost use Rattle.workload_gen.specs.LockWords.{LocksAreHeld};
ghost use Rattle.workload_gen.specs.Program.{image_of};
ghost use Rattle.workload_gen.specs.Summary.{TotalsFit};

use crate::program::generate;
use elf_load::{Image, LoadRefusal, MemoryMap};
use rv32_encode::laws::load_of_write_elf;
use std::alloc::Global;

/// The memory of the workload's machine.
const MEMORY: MemoryMap = MemoryMap {
    base: 0,
    size: 65_536,
};

/// Behind the last instruction of the program there is no other one.
pub fn nothing_follows()
    ensures { (seed : ℕ) → IsFound (image_of seed) 4236 NoWord }
{}

/// In every sequential run of the workload, complete or not, a hart loads or stores a counter only while it
/// holds the counter's lock word: the last access of that one is an Ask of this hart. It frees a lock word only
/// while it holds it, and makes no other access.
pub fn counters_are_guarded()
    ensures { CountersAreGuarded }
{}

/// At the end of every sequential run, complete or not, a lock word is 1 where a hart has asked for it and not
/// freed it, and 0 where none has.
pub fn locks_are_held()
    ensures { LocksAreHeld }
{}

/// In every sequential run a hart can go on, or has exited with code 0, having retired 7,507 instructions. So
/// none traps, and none spends its budget.
pub fn harts_only_exit()
    ensures { HartsOnlyExit }
{}

/// In no sequential run a byte is put on the console.
pub fn nothing_is_put()
    ensures { NothingIsPut }
{}

/// After a complete sequential run every hart has exited with code 0, having retired 7,507 instructions: none
/// waits for ever.
pub fn harts_are_done()
    ensures { HartsAreDone }
{}

/// After a complete sequential run, whatever the order of its steps, each counter has its total.
pub fn counters_come_to_totals()
    ensures { CountersComeToTotals }
{}

/// And that is what the last store of its word in the run wrote, or 0 where there is none.
pub fn last_stores_write_totals()
    ensures { LastStoresWriteTotals }
{}

/// For every seed the workload is properly labelled on its machine: no sequential run has a data race. Between
/// two uses of a counter by different harts the first one's hart frees the counter's lock word, and then the
/// second one's asks for it.
pub fn workloads_are_properly_labelled()
    ensures { WorkloadsAreProperlyLabelled }
{}

/// The total of each counter fits a word, so no sum on the way to it wraps.
#[tactic(auto, using(crate::proofs::SumsListed::total_small))]
pub fn totals_fit()
    ensures { TotalsFit }
{}

/// What is loaded of the program's file into the memory of its machine is the image of the seed. There is no
/// refusal but for want of memory.
///
/// # Errors
///
/// `OutOfMemory` alone.
pub fn load_of_generate(alloc: Global, seed: u32) -> Result<Image, LoadRefusal>
    ensures image { IfOk result (λ image. image ≡ image_of seed) }
    ensures refusal { IfErr result (λ refusal. refusal ≡ OutOfMemory) }
{
    let program = generate(alloc, seed)?;
    load_of_write_elf(alloc, &program, MEMORY)
}
