//! The words of a command line that ask for an image.
ghost use Rattle.std.specs.Prelude.{◌≡◌, ◌≢◌, ◌<◌, ◌^◌, ℕ, IfSome, IfNone, map, string_bytes, codes, decimal, IsTrue, Bool, true, ◌↔◌};
ghost use Rattle.dash_run.specs.CommandLine.{MachineWords as Words, Request, is_name, Asks, AsksAlone, AsksFile, AsksSizes, AreSizes, IsLogged, AsksNoImage, IsNumber};
ghost use Rattle.dash_run.specs.Output.{machine_of, request_of};

use itoa::Buffer;

/// What is asked for: the name of an image's file, a machine, and whether the log is to be printed.
#[derive(Clone, Copy, Debug)]
pub struct Command<'a> {
    pub image: &'a str,
    pub machine: MachineWords<'a>,
    pub log: bool,
}

/// Which machine is asked for.
#[derive(Clone, Copy, Debug)]
pub enum MachineWords<'a> {
    /// The first three keys of its topology, every other one at its default.
    Sizes {
        clusters: u32,
        harts: u32,
        budget: u32,
    },
    /// The name of a file with its topology.
    File {
        name: &'a str,
    },
}

/// What the words ask for, where they are `run IMAGE`, or `run IMAGE TOPOLOGY` or
/// `run IMAGE CLUSTERS HARTS BUDGET` with or without `--log` behind it.
pub fn read_words(words: &[String]) -> Option<Command<'_>>
    ensures some { IfSome result (λ q. Asks (map string_bytes words.now) (request_of q)) }
    ensures none { IfNone result (AsksNoImage (map string_bytes words.now)) }
{
    match words {
        [command, image] => read_alone(command.as_str(), image.as_str()),
        [command, image, topology] => read_file(
            command.as_str(),
            image.as_str(),
            topology.as_str(),
            false,
        ),
        [command, image, topology, flag] => read_file_logged(
            command.as_str(),
            image.as_str(),
            topology.as_str(),
            flag.as_str(),
        ),
        [command, image, clusters, harts, budget] => read_sizes(
            command.as_str(),
            image.as_str(),
            clusters.as_str(),
            harts.as_str(),
            budget.as_str(),
            false,
        ),
        [command, image, clusters, harts, budget, flag] => read_sizes_logged(
            command.as_str(),
            image.as_str(),
            clusters.as_str(),
            harts.as_str(),
            budget.as_str(),
            flag.as_str(),
        ),
        _ => None,
    }
}

/// `run IMAGE`.
fn read_alone<'a>(command: &str, image: &'a str) -> Option<Command<'a>>
    ensures some { IfSome result (λ q. AsksAlone command.now image.now (request_of q)) }
    ensures none { IfNone result ((q : Request) → AsksAlone command.now image.now q → ⊥) }
{
    if !is_run(command, image) {
        return None;
    }
    Some(Command {
        image,
        machine: MachineWords::Sizes {
            clusters: 1,
            harts: 1,
            budget: 1_000_000,
        },
        log: false,
    })
}

/// `run IMAGE TOPOLOGY`, with the log or without it.
fn read_file<'a>(command: &str, image: &'a str, topology: &'a str, log: bool) -> Option<Command<'a>>
    ensures some { IfSome result (λ q. AsksFile command.now image.now topology.now log (request_of q)) }
    ensures none { IfNone result ((q : Request) → AsksFile command.now image.now topology.now log q → ⊥) }
{
    if !is_run(command, image) || !is_name(topology) {
        return None;
    }
    Some(Command {
        image,
        machine: MachineWords::File { name: topology },
        log,
    })
}

/// `run IMAGE TOPOLOGY --log`.
fn read_file_logged<'a>(
    command: &str,
    image: &'a str,
    topology: &'a str,
    flag: &str,
) -> Option<Command<'a>>
    ensures some { IfSome result (λ q. IsLogged flag.now (AsksFile command.now image.now topology.now true (request_of q))) }
    ensures none { IfNone result ((q : Request) → IsLogged flag.now (AsksFile command.now image.now topology.now true q) → ⊥) }
{
    if flag != "--log" {
        return None;
    }
    read_file(command, image, topology, true)
}

/// `run IMAGE CLUSTERS HARTS BUDGET`, with the log or without it.
fn read_sizes<'a>(
    command: &str,
    image: &'a str,
    clusters: &str,
    harts: &str,
    budget: &str,
    log: bool,
) -> Option<Command<'a>>
    ensures some { IfSome result (λ q. AsksSizes command.now image.now clusters.now harts.now budget.now log (request_of q)) }
    ensures none { IfNone result ((q : Request) → AsksSizes command.now image.now clusters.now harts.now budget.now log q → ⊥) }
{
    if !is_run(command, image) {
        return None;
    }
    let machine = sizes(clusters, harts, budget)?;
    Some(Command {
        image,
        machine,
        log,
    })
}

/// `run IMAGE CLUSTERS HARTS BUDGET --log`.
fn read_sizes_logged<'a>(
    command: &str,
    image: &'a str,
    clusters: &str,
    harts: &str,
    budget: &str,
    flag: &str,
) -> Option<Command<'a>>
    ensures some { IfSome result (λ q. IsLogged flag.now (AsksSizes command.now image.now clusters.now harts.now budget.now true (request_of q))) }
    ensures none { IfNone result ((q : Request) → IsLogged flag.now (AsksSizes command.now image.now clusters.now harts.now budget.now true q) → ⊥) }
{
    if flag != "--log" {
        return None;
    }
    read_sizes(command, image, clusters, harts, budget, true)
}

/// The machine of three numbers.
fn sizes<'a>(clusters: &str, harts: &str, budget: &str) -> Option<MachineWords<'a>>
    ensures some { IfSome result (λ m. AreSizes clusters.now harts.now budget.now (machine_of m)) }
    ensures none { IfNone result ((m : Words) → AreSizes clusters.now harts.now budget.now m → ⊥) }
{
    let (Some(clusters), Some(harts), Some(budget)) = (
        number(clusters),
        number(harts),
        number(budget),
    ) else {
        return None;
    };
    Some(MachineWords::Sizes {
        clusters,
        harts,
        budget,
    })
}

/// Whether a command line begins with `run` and a name.
fn is_run(command: &str, image: &str) -> bool
    ensures { IsTrue result ↔ ((command.now ≡ codes "run") × (is_name image.now ≡ true)) }
{
    command == "run" && is_name(image)
}

/// Whether a word is a name: it is not empty and does not begin with `-`.
fn is_name(word: &str) -> bool
    ensures { result ≡ is_name word.now }
{
    match word.as_bytes() {
        [] => false,
        [first, ..] => *first != b'-',
    }
}

/// The number of 32 bits of which a word is the decimal spelling, without needless zeros or a sign.
pub fn number(word: &str) -> Option<u32>
    ensures some { IfSome result (IsNumber word.now) }
    ensures none { IfNone result ((n : ℕ) → n < 2 ^ 32 → decimal n ≢ word.now) }
{
    match word.parse::<u32>() {
        Ok(number) if Buffer::new().format(number) == word => Some(number),
        _ => None,
    }
}
