//! The top call: from words and a host to a printed report and an exit status.
ghost use Rattle.std.specs.Prelude.{◌≡◌, ℕ, ◌≤◌, ◌⊎◌, ◌++◌, ◌∷◌, List, [], Bool, length, IfOk, IsTrue, OnErr, OnOk, map, string_bytes, vec_len};
ghost use Rattle.dash_base.specs.declared.host.Stream.TheVariants as stream;
ghost use Rattle.dash_base.specs.Outside.{Appends, AppendsPart, Follows, Rose, print_on, with_calls};
ghost use Rattle.dash_run.specs.CommandLine.{Request, Asks, AsksSeed, AsksNoSeed};
ghost use Rattle.dash_run.specs.Inputs.{NamedFile, IsFileOf, Inputs, AreSmall};
ghost use Rattle.dash_run.specs.Accepted.{IsAccepted};
ghost use Rattle.dash_run.specs.Outcome.{Ends, IsClean, IsRunStatus, joined};
ghost use Rattle.dash_run.specs.Output.{output_status, output_stream, output_texts, IsReady, IsShort, HasTried};
ghost use Rattle.dash_run.specs.Theorem.{MadeRun, OfMachine, IsWholeRun, HasPrinted, IsOrdered, IsSequential, HasCause, EndsSummed};

use crate::answer::answer;
use crate::command_line::read_words;
use crate::files::{Loaded, load_inputs};
use crate::generated::{Generated, generate_and_run};
use crate::lines;
use crate::output::{Output, Prepared, Sections};
use crate::run::Run;
use crate::seed::read_seed;
use arbiter::Arbiter;
use cluster_unit::Unit;
use dash_base::{Failed, Host, OutOfMemory, Stream};
use dash_event::Event;
use dash_model::laws::{runs_are_coherent, runs_keep_releases};
use round_run::Gate;
use std::alloc::Global;
use std::sync::Wait;
use std::thread::Threads;
use trace_merge::laws::runs_are_sequential;

/// How a call ended.
#[derive(Drop)]
pub struct Ended {
    /// The exit status: 0, 2, 3, 4, 5, 6, 10, 11 or 12.
    pub status: u8,
    /// The log of the run, also where a print of its report failed; empty where no run was made.
    pub log: Vec<Event>,
    /// The units that made it, one for each cluster.
    pub units: Vec<Unit>,
    /// After how many rounds it ended.
    pub rounds: u64,
}

/// The top call: does what the words ask for, and prints the report, the summary or the line.
///
/// The host may be asked for the files that the words name, and for nothing else. Cluster c chooses by
/// arbiter c. What follows from the clause `outcome` are the other clauses, and laws of the module
/// `laws`: each status has its cause, each cause its status, and the host gets no other calls than the
/// loads of these files and the prints.
pub fn dash<R: Threads + Wait + Sync, H: Host, G: Gate>(
    rt: &R,
    alloc: Global,
    words: &[String],
    host: &mut H,
    gate: &G,
    arbiters: Vec<Box<dyn Arbiter + Send>>,
) -> Ended
    requires names { (q : Request) → Asks (map string_bytes words.now) q → (file : NamedFile) → IsFileOf q file → IsTrue (H.may_load host.old file.name) }
    requires arbiters { vec_len arbiters ≡ 16 }
    ensures outcome { Ends (map string_bytes words.now) (H.files host.old)
        (record { old = H.load_faults host.old; new = H.load_faults host.new })
        (record { old = H.print_faults host.old; new = H.print_faults host.new })
        (record { old = H.printed host.old; new = H.printed host.new })
        (record { old = H.calls host.old; new = H.calls host.new }) result.status
        (record { log = result.log.items; units = map (λ u. record { core = u.core; turns = u.turns; steps = u.steps; ahead = u.ahead }) result.units.items; rounds = result.rounds }) }

    // A run is one of the machine of caches, messages and write buffers: complete, and merged from the logs
    // of its units, which had 256 turns in each round, of fewer than 2^56.
    ensures machine { MadeRun result.status result.log.items → OfMachine (map string_bytes words.now) (H.files host.old)
        (IsWholeRun (record { log = result.log.items; units = map (λ u. record { core = u.core; turns = u.turns; steps = u.steps; ahead = u.ahead }) result.units.items; rounds = result.rounds })) }

    // Where no run was made, nothing is left of one.
    ensures empty { result.log.items ≡ [] → (result.units.items ≡ []) × (result.rounds ≡ 0) }

    // The report of a run, or for a seed the summary of its workload, and nothing else, was printed; or a
    // part of it, where a print failed.
    ensures printed { MadeRun result.status result.log.items → OfMachine (map string_bytes words.now) (H.files host.old)
        (HasPrinted (map string_bytes words.now) result.log.items result.status (record { old = H.printed host.old; new = H.printed host.new })) }

    // A run is coherent, and keeps the release rule.
    ensures order { MadeRun result.status result.log.items → OfMachine (map string_bytes words.now) (H.files host.old) (IsOrdered result.log.items) }

    // Where the image is properly labelled for the topology, the records of a run are a sequential run
    // within the budgets.
    ensures sequential { MadeRun result.status result.log.items → OfMachine (map string_bytes words.now) (H.files host.old) (IsSequential result.log.items) }

    // Each status has its cause: those of a run are the status of the complete run.
    ensures status { HasCause (map string_bytes words.now) (H.files host.old)
        (record { old = H.load_faults host.old; new = H.load_faults host.new })
        (record { old = H.print_faults host.old; new = H.print_faults host.new }) result.log.items result.status }

    // Where no fault was counted, an accepted image and topology give a run, or there was no memory.
    ensures completeness { (q : Request) (inputs : Inputs) → IsClean (map string_bytes words.now) (H.files host.old)
        (record { old = H.load_faults host.old; new = H.load_faults host.new })
        (record { old = H.print_faults host.old; new = H.print_faults host.new }) q inputs
        → AreSmall q inputs → IsAccepted inputs → IsRunStatus result.status ⊎ (result.status ≡ 6) }

    // A seed gives status 0 and the summary of its workload, by one print and no other call of the host; or
    // the print failed after a part of it, or there was no memory.
    ensures summary { (seed : ℕ) → AsksSeed (map string_bytes words.now) seed → EndsSummed seed
        (record { old = H.print_faults host.old; new = H.print_faults host.new })
        (record { old = H.printed host.old; new = H.printed host.new })
        (record { old = H.calls host.old; new = H.calls host.new }) result.status }
{
    runs_are_coherent();
    runs_keep_releases();
    runs_are_sequential();
    carry_out(rt, alloc, words, host, gate, arbiters)
}

/// Does what the words ask for, and prints its output.
fn carry_out<R: Threads + Wait + Sync, H: Host, G: Gate>(
    rt: &R,
    alloc: Global,
    words: &[String],
    host: &mut H,
    gate: &G,
    arbiters: Vec<Box<dyn Arbiter + Send>>,
) -> Ended
    requires names { (q : Request) → Asks (map string_bytes words.now) q → (file : NamedFile) → IsFileOf q file → IsTrue (H.may_load host.old file.name) }
    requires arbiters { vec_len arbiters ≡ 16 }
    ensures outcome { Ends (map string_bytes words.now) (H.files host.old)
        (record { old = H.load_faults host.old; new = H.load_faults host.new })
        (record { old = H.print_faults host.old; new = H.print_faults host.new })
        (record { old = H.printed host.old; new = H.printed host.new })
        (record { old = H.calls host.old; new = H.calls host.new }) result.status
        (record { log = result.log.items; units = map (λ u. record { core = u.core; turns = u.turns; steps = u.steps; ahead = u.ahead }) result.units.items; rounds = result.rounds }) }
{
    match prepare(rt, alloc, words, host, gate, arbiters) {
        Ok(prepared) => match show(host, &prepared.output) {
            Ok(()) => {
                let status = prepared.output.status();
                prepared.ended(status)
            }
            Err(Failed) => prepared.ended(5),
        },
        Err(OutOfMemory) => Run::none(alloc).ended(6),
    }
}

/// Makes what is to be printed for the words.
fn prepare<R: Threads + Wait + Sync, H: Host, G: Gate>(
    rt: &R,
    alloc: Global,
    words: &[String],
    host: &mut H,
    gate: &G,
    arbiters: Vec<Box<dyn Arbiter + Send>>,
) -> Result<Prepared, OutOfMemory>
    requires names { (q : Request) → Asks (map string_bytes words.now) q → (file : NamedFile) → IsFileOf q file → IsTrue (H.may_load host.old file.name) }
    requires arbiters { vec_len arbiters ≡ 16 }
    ensures ready { IfOk result (λ a. IsReady (map string_bytes words.now) (H.files host.old) (H.load_faults host.old) (H.load_faults host.new) (H.calls host.old) (H.calls host.new)
        (output_status a.output) (output_stream a.output) (output_texts a.output)
        (record { log = a.run.log.items; units = map (λ u. record { core = u.core; turns = u.turns; steps = u.steps; ahead = u.ahead }) a.run.units.items; rounds = a.run.rounds })) }
    ensures memory { OnErr result (IsShort (map string_bytes words.now) (H.calls host.old) (H.calls host.new)) }
    ensures printed { H.printed host.new ≡ H.printed host.old }
    ensures print_faults { H.print_faults host.new ≡ H.print_faults host.old }
{
    let Some(seed) = read_seed(words) else {
        return prepare_report(rt, alloc, words, host, gate, arbiters);
    };
    let Generated { text, run } = generate_and_run(rt, alloc, seed, gate, arbiters)?;
    Ok(Prepared {
        output: Output::Summary { text },
        run,
    })
}

/// Loads the files that the words name, runs the image, and makes what is to be printed.
fn prepare_report<R: Threads + Wait + Sync, H: Host, G: Gate>(
    rt: &R,
    alloc: Global,
    words: &[String],
    host: &mut H,
    gate: &G,
    arbiters: Vec<Box<dyn Arbiter + Send>>,
) -> Result<Prepared, OutOfMemory>
    requires names { (q : Request) → Asks (map string_bytes words.now) q → (file : NamedFile) → IsFileOf q file → IsTrue (H.may_load host.old file.name) }
    requires no_seed { AsksNoSeed (map string_bytes words.now) }
    requires arbiters { vec_len arbiters ≡ 16 }
    ensures ready { IfOk result (λ a. IsReady (map string_bytes words.now) (H.files host.old) (H.load_faults host.old) (H.load_faults host.new) (H.calls host.old) (H.calls host.new)
        (output_status a.output) (output_stream a.output) (output_texts a.output)
        (record { log = a.run.log.items; units = map (λ u. record { core = u.core; turns = u.turns; steps = u.steps; ahead = u.ahead }) a.run.units.items; rounds = a.run.rounds })) }
    ensures memory { OnErr result (IsShort (map string_bytes words.now) (H.calls host.old) (H.calls host.new)) }
    ensures printed { H.printed host.new ≡ H.printed host.old }
    ensures print_faults { H.print_faults host.new ≡ H.print_faults host.old }
{
    let Some(command) = read_words(words) else {
        return Ok(Prepared {
            output: Output::Usage,
            run: Run::none(alloc),
        });
    };
    match load_inputs(alloc, host, &command)? {
        Loaded::Given { inputs } => Ok(answer(rt, alloc, inputs, command.log, gate, arbiters)?),
        Loaded::NotGiven { text } => Ok(Prepared {
            output: Output::Line { status: 5, text },
            run: Run::none(alloc),
        }),
    }
}

/// Prints the output.
fn show<H: Host>(host: &mut H, output: &Output) -> Result<(), Failed>
    ensures ok { OnOk result (Follows (Appends (output_stream output.now) (joined (output_texts output.now))) (H.printed host.old) (H.printed host.new)) }
    ensures err { OnErr result (Follows (AppendsPart (output_stream output.now) (joined (output_texts output.now))) (H.printed host.old) (H.printed host.new)) }
    ensures failed { OnErr result (Rose (H.print_faults host.old) (H.print_faults host.new)) }
    ensures steady { OnOk result (H.print_faults host.new ≡ H.print_faults host.old) }
    ensures load_faults { H.load_faults host.new ≡ H.load_faults host.old }
    ensures printed_all { OnOk result (H.calls host.new ≡ with_calls (H.calls host.old) (map (print_on (output_stream output.now)) (output_texts output.now))) }
    ensures broke_off { OnErr result (HasTried (output_stream output.now) (output_texts output.now) (H.calls host.old) (H.calls host.new)) }
{
    match output {
        Output::Usage => host.print(Stream::Err, lines::usage().as_bytes()),
        Output::Line { text, .. } => host.print(Stream::Err, text.as_bytes()),
        Output::Report { sections, .. } => print_sections(host, sections),
        Output::Summary { text } => host.print(Stream::Out, text.as_slice()),
    }
}

/// Prints the sections of a report on standard output, and none after one that fails.
fn print_sections<H: Host>(host: &mut H, sections: &Sections) -> Result<(), Failed>
    ensures ok { OnOk result (Follows (Appends stream.Out (joined sections.now)) (H.printed host.old) (H.printed host.new)) }
    ensures err { OnErr result (Follows (AppendsPart stream.Out (joined sections.now)) (H.printed host.old) (H.printed host.new)) }
    ensures failed { OnErr result (Rose (H.print_faults host.old) (H.print_faults host.new)) }
    ensures steady { OnOk result (H.print_faults host.new ≡ H.print_faults host.old) }
    ensures load_faults { H.load_faults host.new ≡ H.load_faults host.old }
    ensures printed_all { OnOk result (H.calls host.new ≡ with_calls (H.calls host.old) (map (print_on stream.Out) sections.now)) }
    ensures broke_off { OnErr result (HasTried stream.Out sections.now (H.calls host.old) (H.calls host.new)) }
{
    let console = sections.console.as_slice();
    let harts = sections.harts.as_bytes();
    let accesses = sections.accesses.as_bytes();
    match &sections.log {
        Some(log) => print_four(host, console, harts, accesses, log.as_slice()),
        None => print_three(host, console, harts, accesses),
    }
}

/// Prints four texts on standard output, and none after one that fails.
fn print_four<H: Host>(
    host: &mut H,
    first: &[u8],
    second: &[u8],
    third: &[u8],
    fourth: &[u8],
) -> Result<(), Failed>
    ensures ok { OnOk result (Follows (Appends stream.Out (first.now ++ second.now ++ third.now ++ fourth.now)) (H.printed host.old) (H.printed host.new)) }
    ensures err { OnErr result (Follows (AppendsPart stream.Out (first.now ++ second.now ++ third.now ++ fourth.now)) (H.printed host.old) (H.printed host.new)) }
    ensures failed { OnErr result (Rose (H.print_faults host.old) (H.print_faults host.new)) }
    ensures steady { OnOk result (H.print_faults host.new ≡ H.print_faults host.old) }
    ensures load_faults { H.load_faults host.new ≡ H.load_faults host.old }
    ensures printed_all { OnOk result (H.calls host.new ≡ with_calls (H.calls host.old) (map (print_on stream.Out) (first.now ∷ second.now ∷ third.now ∷ fourth.now ∷ []))) }
    ensures broke_off { OnErr result (HasTried stream.Out (first.now ∷ second.now ∷ third.now ∷ fourth.now ∷ []) (H.calls host.old) (H.calls host.new)) }
{
    print_three(host, first, second, third)?;
    host.print(Stream::Out, fourth)?;
    Ok(())
}

/// Prints three texts on standard output, and none after one that fails.
fn print_three<H: Host>(
    host: &mut H,
    first: &[u8],
    second: &[u8],
    third: &[u8],
) -> Result<(), Failed>
    ensures ok { OnOk result (Follows (Appends stream.Out (first.now ++ second.now ++ third.now)) (H.printed host.old) (H.printed host.new)) }
    ensures err { OnErr result (Follows (AppendsPart stream.Out (first.now ++ second.now ++ third.now)) (H.printed host.old) (H.printed host.new)) }
    ensures failed { OnErr result (Rose (H.print_faults host.old) (H.print_faults host.new)) }
    ensures steady { OnOk result (H.print_faults host.new ≡ H.print_faults host.old) }
    ensures load_faults { H.load_faults host.new ≡ H.load_faults host.old }
    ensures printed_all { OnOk result (H.calls host.new ≡ with_calls (H.calls host.old) (map (print_on stream.Out) (first.now ∷ second.now ∷ third.now ∷ []))) }
    ensures broke_off { OnErr result (HasTried stream.Out (first.now ∷ second.now ∷ third.now ∷ []) (H.calls host.old) (H.calls host.new)) }
{
    print_both(host, first, second)?;
    host.print(Stream::Out, third)?;
    Ok(())
}

/// Prints two texts on standard output, and not the second where the first fails.
fn print_both<H: Host>(host: &mut H, first: &[u8], second: &[u8]) -> Result<(), Failed>
    ensures ok { OnOk result (Follows (Appends stream.Out (first.now ++ second.now)) (H.printed host.old) (H.printed host.new)) }
    ensures err { OnErr result (Follows (AppendsPart stream.Out (first.now ++ second.now)) (H.printed host.old) (H.printed host.new)) }
    ensures failed { OnErr result (Rose (H.print_faults host.old) (H.print_faults host.new)) }
    ensures steady { OnOk result (H.print_faults host.new ≡ H.print_faults host.old) }
    ensures load_faults { H.load_faults host.new ≡ H.load_faults host.old }
    ensures printed_all { OnOk result (H.calls host.new ≡ with_calls (H.calls host.old) (map (print_on stream.Out) (first.now ∷ second.now ∷ []))) }
    ensures broke_off { OnErr result (HasTried stream.Out (first.now ∷ second.now ∷ []) (H.calls host.old) (H.calls host.new)) }
{
    host.print(Stream::Out, first)?;
    host.print(Stream::Out, second)?;
    Ok(())
}
