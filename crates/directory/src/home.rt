//! The home.
ghost use Rattle.std.specs.Prelude.{◌≡◌, ◌<◌, ◌*◌, ◌+◌, ◌/◌, length, true, IfOk};
ghost use Rattle.dash_base.specs.declared.topology.Topology.{Topology};
ghost use Rattle.directory.specs.View.{HomeView, is_home, kept_at, line_of, IsWhole, is_served, after_serve, sent_by};
ghost use Rattle.directory.specs.Rows.{named};
ghost use Rattle.directory.specs.Opening.{IsOpening};

use crate::burst::Burst;
use crate::entry::EntryState;
use crate::home_line::HomeLine;
use crate::{opening, rows};
use dash_base::{ClusterId, Line, LineId, OutOfMemory, Topology, home_among};
use dash_msg::Msg;
use elf_load::Image;
use std::alloc::Global;
use std::marker::Model;

/// The home of each line whose number modulo the number of clusters is the cluster's. Contracts see
/// the cluster, how many clusters and lines the machine has, and a map from those lines to their
/// entries and contents.
#[derive(Drop)]
pub struct Home {
    cluster: u32,
    clusters: u32,
    lines: u32,
    kept: Vec<HomeLine>,
}

impl Model for Home {
    ghost use Rattle.directory.specs.View.{HomeView, home_code};

    ghost Value = { HomeView };

    ghost coded = { home_code };

    ghost use Rattle.directory.specs.Kept.{map_of, AreKept};

    ghost view = { λ h. record {
      cluster = h.cluster;
      clusters = h.clusters;
      lines = h.lines;
      kept = map_of h.clusters h.cluster h.kept.items;
    } };

    ghost invariant = { λ h. AreKept h.cluster h.clusters h.lines h.kept.items };
}

impl Home {
    /// The home of a cluster, whose lines have the bytes of the image, version 0 and no copies. It
    /// takes all the memory that it is to need.
    pub fn new(
        alloc: Global,
        topology: &Topology,
        cluster: ClusterId,
        image: &Image,
    ) -> Result<Home, OutOfMemory>
        requires { cluster.0 < topology.now.clusters }
        ensures { IfOk result (λ home. IsOpening topology.now cluster.0 image.now home) }
    {
        let kept = opening::opening_lines(alloc, image, topology, cluster)?;
        Ok(Home {
            cluster: cluster.0,
            clusters: topology.clusters,
            lines: topology.line_count(),
            kept,
        })
    }

    /// What every home keeps: it has just the lines whose home it is. The call does nothing.
    pub fn keeps_its_lines(&self)
        ensures { IsWhole self.now }
    {
        let _kept = &self.kept;
    }

    /// Whether a line has this home. Each line of a call has it.
    pub fn is_home(&self, line: LineId) -> bool
        ensures { result ≡ is_home self.now line.0 }
    {
        line.0 < self.lines && home_among(self.clusters, line.0).0 == self.cluster
    }

    /// The directory entry of a line.
    pub fn entry(&self, line: LineId) -> EntryState
        requires { is_home self.now line.0 ≡ true }
        ensures { result ≡ (kept_at self.now line.0).entry }
    {
        self.kept_line(line).entry
    }

    /// The content of a line in memory.
    pub fn line(&self, line: LineId) -> Line
        requires { is_home self.now line.0 ≡ true }
        ensures { result ≡ (kept_at self.now line.0).content }
    {
        self.kept_line(line).content
    }

    fn kept_line(&self, line: LineId) -> HomeLine
        requires { is_home self.now line.0 ≡ true }
        ensures { result ≡ kept_at self.now line.0 }
    {
        self.kept[(line.0 / self.clusters) as usize]
    }

    /// Whether a message from a cluster is one to `serve` here: a request for a line that has this
    /// home, or what an owner tells of it. The clusters have to be some of the machine's.
    pub fn serves(&self, from: ClusterId, msg: &Msg) -> bool
        ensures { result ≡ is_served self.now from msg.now }
    {
        match line_of(msg) {
            None => false,
            Some(line) => {
                self.is_home(line) && from.0 < self.clusters && named(from, msg).0 < self.clusters
            }
        }
    }

    /// Serves a message from a cluster: a request for a line, or what an owner tells of one. The
    /// answer is what is sent, in order. Where the entry is not as the message has it, nothing
    /// changes and nothing is sent.
    pub fn serve(&mut self, from: ClusterId, msg: &Msg) -> Burst
        requires { is_served self.old from msg.now ≡ true }
        ensures sent { result.items ≡ sent_by self.old from msg.now }
        ensures after { self.new ≡ after_serve self.old from msg.now }
    {
        match line_of(msg) {
            None => Burst::new(),
            Some(line) => {
                let clusters = self.clusters;
                let kept = &mut self.kept[(line.0 / clusters) as usize];
                rows::serve(clusters, from, msg, kept)
            }
        }
    }
}

/// The line of a message that is a home's to serve.
fn line_of(msg: &Msg) -> Option<LineId>
    ensures { result ≡ line_of msg.now }
{
    match msg {
        Msg::Read { line }
        | Msg::ReadEx { line }
        | Msg::WriteBack { line, .. }
        | Msg::SharingBack { line, .. }
        | Msg::Transfer { line, .. } => Some(*line),
        _ => None,
    }
}

/// The cluster that a message names, which is the sender where it names none.
fn named(from: ClusterId, msg: &Msg) -> ClusterId
    ensures { result ≡ named from msg.now }
{
    match msg {
        Msg::SharingBack { to, .. } | Msg::Transfer { to, .. } => *to,
        _ => from,
    }
}
