//! From what the host gave for a request to what is to be printed.
ghost use Rattle.std.specs.Prelude.{◌≡◌, IfOk, IfErr, map, vec_len, true, option_map, unwrap_or, ◌∷◌, []};
ghost use Rattle.round_run.specs.Finished.{IsFinished, status_of};
ghost use Rattle.std.specs.List.{AllByRecursion};
ghost use Rattle.trace_text.specs.Fits.{FitsEvent};
ghost use Rattle.dash_run.specs.Report.{log_sections};
ghost use Rattle.dash_base.specs.declared.topology.TopoRefusal.TheVariants as topo;
ghost use Rattle.dash_run.specs.Accepted.{IsTopologyOf, IsRefusedSource};
ghost use Rattle.dash_run.specs.Output.{source_of, inputs_of, IsAnswer, IsAnswerOn, IsReport};

use crate::access_text::access_section;
use crate::inputs::{Inputs, Source};
use crate::lines;
use crate::output::{Output, Prepared, Sections};
use crate::report::{console_section, harts_section};
use crate::run::Run;
use arbiter::Arbiter;
use dash_base::{OutOfMemory, TopoRefusal, Topology};
use dash_event::Event;
use elf_load::{Image, LoadRefusal, MemoryMap, load};
use round_run::{Cause, Finished, Gate, Machine, RunEnd, run_rounds};
use std::alloc::Global;
use std::sync::Wait;
use std::thread::Threads;
use trace_merge::console;
use trace_text::write_log;

/// What is printed for an image and a machine: the refusal of the topology, or of the image, or the
/// report of the run.
pub fn answer<R: Threads + Wait + Sync, G: Gate>(
    rt: &R,
    alloc: Global,
    inputs: Inputs,
    with_log: bool,
    gate: &G,
    arbiters: Vec<Box<dyn Arbiter + Send>>,
) -> Result<Prepared, OutOfMemory>
    requires { vec_len arbiters ≡ 16 }
    ensures { IfOk result (λ a. IsAnswer with_log (inputs_of inputs) a.output
        (record { log = a.run.log.items; units = map (λ u. record { core = u.core; turns = u.turns; steps = u.steps; ahead = u.ahead }) a.run.units.items; rounds = a.run.rounds })) }
{
    let Inputs { image, source } = inputs;
    match topology_of(alloc, &source) {
        Ok(topology) => Ok(answer_on(rt, alloc, &topology, with_log, image, gate, arbiters)?),
        Err(TopoRefusal::OutOfMemory) => Err(OutOfMemory),
        Err(refusal) => Ok(Prepared {
            output: Output::Line {
                status: 4,
                text: lines::bad_topology(alloc, &refusal)?,
            },
            run: Run::none(alloc),
        }),
    }
}

/// The topology of a machine.
fn topology_of(alloc: Global, source: &Source) -> Result<Topology, TopoRefusal>
    ensures ok { IfOk result (IsTopologyOf (source_of source.now)) }
    ensures refused { IfErr result (λ refusal. (refusal ≡ topo.OutOfMemory → ⊥) → IsRefusedSource (source_of source.now) refusal) }
{
    match source {
        Source::Numbers {
            clusters,
            harts,
            budget,
        } => Topology::simple(*clusters, *harts, *budget),
        Source::Text { bytes } => topology::read(alloc, bytes.as_slice()),
    }
}

/// What is printed on a topology that is accepted.
fn answer_on<R: Threads + Wait + Sync, G: Gate>(
    rt: &R,
    alloc: Global,
    topology: &Topology,
    with_log: bool,
    bytes: Vec<u8>,
    gate: &G,
    arbiters: Vec<Box<dyn Arbiter + Send>>,
) -> Result<Prepared, OutOfMemory>
    requires { vec_len arbiters ≡ 16 }
    ensures { IfOk result (λ a. IsAnswerOn with_log topology.now bytes.items a.output
        (record { log = a.run.log.items; units = map (λ u. record { core = u.core; turns = u.turns; steps = u.steps; ahead = u.ahead }) a.run.units.items; rounds = a.run.rounds })) }
{
    match load(alloc, bytes.as_slice(), map_of(topology)) {
        Ok(image) => {
            drop(bytes);
            Ok(report(rt, alloc, &image, topology, with_log, gate, arbiters)?)
        }
        Err(LoadRefusal::OutOfMemory) => Err(OutOfMemory),
        Err(refusal) => Ok(Prepared {
            output: Output::Line {
                status: 3,
                text: lines::refused(alloc, refusal)?,
            },
            run: Run::none(alloc),
        }),
    }
}

/// The range of memory.
fn map_of(topology: &Topology) -> MemoryMap
    ensures base { result.base ≡ topology.now.base }
    ensures size { result.size ≡ topology.now.memory }
{
    MemoryMap {
        base: topology.base,
        size: topology.memory,
    }
}

/// The report of an image's run.
fn report<R: Threads + Wait + Sync, G: Gate>(
    rt: &R,
    alloc: Global,
    image: &Image,
    topology: &Topology,
    with_log: bool,
    gate: &G,
    arbiters: Vec<Box<dyn Arbiter + Send>>,
) -> Result<Prepared, OutOfMemory>
    requires { vec_len arbiters ≡ 16 }
    ensures { IfOk result (λ a. IsReport with_log (record { image = image.now; top = topology.now }) a.output
        (record { log = a.run.log.items; units = map (λ u. record { core = u.core; turns = u.turns; steps = u.steps; ahead = u.ahead }) a.run.units.items; rounds = a.run.rounds })) }
{
    let machine = Machine::new(alloc, topology, image, arbiters)?;
    match run_rounds(rt, alloc, machine, gate) {
        Ok(finished) => Ok(report_of(alloc, image, topology, with_log, finished)?),
        Err(RunEnd::OutOfMemory) => Err(OutOfMemory),
    }
}

/// The report of a run that ended.
fn report_of(
    alloc: Global,
    image: &Image,
    topology: &Topology,
    with_log: bool,
    finished: Finished,
) -> Result<Prepared, OutOfMemory>
    requires { IsFinished (λ u. record { core = u.core; turns = u.turns; steps = u.steps; ahead = u.ahead }) (record { image = image.now; top = topology.now }) finished.log.items finished.units.items finished.rounds finished.waits.items finished.cause }
    ensures { IfOk result (λ a. IsReport with_log (record { image = image.now; top = topology.now }) a.output
        (record { log = a.run.log.items; units = map (λ u. record { core = u.core; turns = u.turns; steps = u.steps; ahead = u.ahead }) a.run.units.items; rounds = a.run.rounds })) }
{
    let status = status_of(finished.cause);
    let console = console(alloc, finished.log.as_slice())?;
    let sections = Sections {
        console: console_section(alloc, console.as_slice())?,
        harts: harts_section(alloc, topology, finished.units.as_slice(), status)?,
        accesses: access_section(alloc, finished.log.as_slice())?,
        log: log_section(alloc, with_log, finished.log.as_slice())?,
    };
    let Finished {
        log,
        units,
        rounds,
        ..
    } = finished;
    Ok(Prepared {
        output: Output::Report { status, sections },
        run: Run { log, units, rounds },
    })
}

/// The text of a log, where it is asked for.
fn log_section(alloc: Global, with_log: bool, log: &[Event]) -> Result<Option<Vec<u8>>, OutOfMemory>
    ensures text { IfOk result (λ text. unwrap_or (option_map (λ t. t.items ∷ []) text) [] ≡ log_sections with_log log.now) }
    ensures fits { IfOk result (λ _. with_log ≡ true → AllByRecursion FitsEvent log.now) }
{
    if !with_log {
        return Ok(None);
    }
    Ok(Some(write_log(alloc, log)?))
}

/// The exit status of a run that ended for a cause.
fn status_of(cause: Cause) -> u8
    ensures { result ≡ status_of cause }
{
    match cause {
        Cause::Exited => 0,
        Cause::Budget => 10,
        Cause::Trapped => 11,
        Cause::Deadlock => 12,
    }
}
