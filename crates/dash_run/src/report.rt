//! The text of a report.
ghost use Rattle.std.specs.Prelude.{◌≡◌, ◌++◌, ◌<◌, codes, length, IfOk, OnOk, string_bytes, nat_lt};
ghost use Rattle.trace_text.specs.Spelling.{hex};
ghost use Rattle.dash_base.specs.Places.{hart_count};
ghost use Rattle.elf_load.specs.Image.{ImageView};
ghost use Rattle.dash_model.specs.Machine.{Machine};
ghost use Rattle.dash_run.specs.Report.{hart_of, end_text, console_section, hart_line, register_line, hart_text, harts_text, status_line, harts_section, words_text};
ghost use Rattle.dash_run.specs.Units.{AreOn, AreAt};

use cluster_unit::Unit;
use dash_base::{End, HartId, OutOfMemory, Topology};
use hart_core::Hart;
use std::alloc::Global;
use std::fmt::Write;
use trace_text::cause_name;

/// The console section: how many bytes were put, and the bytes.
#[tactic(auto, unfolding(crate::specs::Report::console_section))]
pub fn console_section(alloc: Global, console: &[u8]) -> Result<Vec<u8>, OutOfMemory>
    ensures { IfOk result (λ text. text.items ≡ console_section console.now) }
{
    let count = console.len();
    let head = format!(in alloc; "console {count}\n")?;
    let mut text = Vec::from_slice(alloc, head.as_bytes())?;
    text.extend_from_slice(console)?;
    text.push(b'\n')?;
    Ok(text)
}

/// The harts section: how each hart rests, its registers, and the exit status.
#[tactic(auto, unfolding(crate::specs::Report::harts_section, crate::specs::Report::status_line))]
pub fn harts_section(
    alloc: Global,
    topology: &Topology,
    units: &[Unit],
    status: u8,
) -> Result<String, OutOfMemory>
    requires { AreOn (λ u. u.core) topology.now units.now }
    ensures { (image : ImageView) (m : Machine) → AreAt (λ u. u.core) (record { image = image; top = topology.now }) m units.now
        → IfOk result (λ text. string_bytes text ≡ harts_section topology.now (hart_of (record { image = image; top = topology.now }) m) (hart_count topology.now) status) }
{
    let mut text = String::new(alloc);
    push_harts(&mut text, topology, units)?;
    write!(text, "status {status}\n")?;
    Ok(text)
}

/// The lines of all harts.
fn push_harts(text: &mut String, topology: &Topology, units: &[Unit]) -> Result<(), OutOfMemory>
    requires { AreOn (λ u. u.core) topology.now units.now }
    ensures { (image : ImageView) (m : Machine) → AreAt (λ u. u.core) (record { image = image; top = topology.now }) m units.now
        → OnOk result (string_bytes text.new ≡ string_bytes text.old ++ harts_text topology.now (hart_of (record { image = image; top = topology.now }) m) (hart_count topology.now)) }
{
    for number in 0..topology.hart_count() {
        push_hart(text, topology, number, hart_of(topology, units, number))?;
    }
    Ok(())
}

/// A hart by its number in the machine.
pub fn hart_of<'a>(topology: &Topology, units: &'a [Unit], number: u32) -> &'a Hart
    requires on { AreOn (λ u. u.core) topology.now units.now }
    requires inside { number < hart_count topology.now }
    ensures { (image : ImageView) (m : Machine) → AreAt (λ u. u.core) (record { image = image; top = topology.now }) m units.now
        → result.now ≡ hart_of (record { image = image; top = topology.now }) m number }
{
    let cluster = topology.cluster_of(HartId(number));
    units[cluster.0 as usize].core.hart(number % topology.harts)
}

/// The lines of one hart.
#[tactic(auto, unfolding(crate::specs::Report::hart_text))]
fn push_hart(
    text: &mut String,
    topology: &Topology,
    number: u32,
    hart: &Hart,
) -> Result<(), OutOfMemory>
    ensures { OnOk result (string_bytes text.new ≡ string_bytes text.old ++ hart_text topology.now number hart.now) }
{
    push_hart_line(text, topology, number, hart)?;
    let registers = hart.registers();
    push_registers(text, "x0", &registers[0..8])?;
    push_registers(text, "x8", &registers[8..16])?;
    push_registers(text, "x16", &registers[16..24])?;
    push_registers(text, "x24", &registers[24..32])?;
    Ok(())
}

/// The line that says how a hart rests.
#[tactic(auto, unfolding(crate::specs::Report::hart_line, trace_text::specs::Spelling::hex))]
fn push_hart_line(
    text: &mut String,
    topology: &Topology,
    number: u32,
    hart: &Hart,
) -> Result<(), OutOfMemory>
    ensures { OnOk result (string_bytes text.new ≡ string_bytes text.old ++ hart_line topology.now number hart.now) }
{
    write!(text, "hart {number} ")?;
    let retired = hart.retired();
    push_end(text, hart.end(), retired < topology.budget)?;
    let pc = hart.pc();
    write!(text, " pc {pc:08x} retired {retired}\n")?;
    Ok(())
}

/// How a hart that may have instructions left rests.
#[tactic(auto, unfolding(trace_text::specs::Spelling::hex))]
fn push_end(text: &mut String, end: End, has_left: bool) -> Result<(), OutOfMemory>
    ensures { OnOk result (string_bytes text.new ≡ string_bytes text.old ++ end_text has_left end) }
{
    match end {
        End::Exited(code) => write!(text, "exit {code:08x}")?,
        End::Trapped { cause, value } => {
            let cause = cause_name(cause);
            write!(text, "trap {cause} {value:08x}")?
        }
        End::Running => text.push_str(if has_left { "waits" } else { "budget" })?,
    }
    Ok(())
}

/// A line of registers, after the name of the first of them.
#[tactic(auto, unfolding(crate::specs::Report::register_line))]
fn push_registers(text: &mut String, label: &str, words: &[u32]) -> Result<(), OutOfMemory>
    ensures { OnOk result (string_bytes text.new ≡ string_bytes text.old ++ register_line label.now words.now) }
{
    text.push_str(label)?;
    for word in words {
        push_word(text, *word)?;
    }
    text.push_str("\n")?;
    Ok(())
}

#[tactic(auto, unfolding(trace_text::specs::Spelling::hex))]
fn push_word(text: &mut String, word: u32) -> Result<(), OutOfMemory>
    ensures { OnOk result (string_bytes text.new ≡ string_bytes text.old ++ (codes " " ++ hex word)) }
{
    write!(text, " {word:08x}")?;
    Ok(())
}
