//! Units of one machine on one thread, whose choices a test makes.

use crate::programs::{STARTING, image};
use cluster_unit::{Turn, Unit, units};
use dash_base::{HartId, Labels, Mask, Topology, WordAddr};
use dash_event::{Access, Kind, Op, Seen};
use std::alloc::Global;
use std::process::Abort;
use std::test::Fail;
use unit_rows::Choice;

/// The room for the choices of a cluster.
const MOST_CHOICES: usize = 2_048;

/// The units of a machine, by their clusters.
#[derive(Drop)]
pub struct Script {
    units: Vec<Unit>,
}

impl Script {
    /// A machine of so many clusters and harts, each of which runs its program, with the other sizes at
    /// their defaults. Each hart has come to the first instruction of its own.
    pub fn new(
        rt: &impl Abort,
        alloc: Global,
        clusters: u32,
        harts: u32,
        programs: [&[u32]; 4],
    ) -> Result<Script, Fail> {
        let topology = Topology::simple(clusters, harts, 100)?;
        let mut script = Script {
            units: all_units(rt, alloc, topology, programs)?,
        };
        for cluster in 0..clusters {
            for hart in 0..harts {
                for _start in 0..STARTING {
                    script.perform(rt, cluster, Choice::Step(hart))?;
                }
            }
        }
        Ok(script)
    }

    /// What a cluster does of a choice.
    pub fn try_perform(
        &mut self,
        rt: &impl Abort,
        cluster: u32,
        choice: Choice,
    ) -> Result<Turn, Fail> {
        assert!(rt; (cluster as usize) < self.units.len());
        let unit = &mut self.units[cluster as usize];
        unit.core.reserve(1)?;
        assert!(rt; unit.core.reserved() > 0);
        Ok(unit.perform(choice))
    }

    /// A cluster does a choice, which is enabled.
    pub fn perform(&mut self, rt: &impl Abort, cluster: u32, choice: Choice) -> Result<(), Fail> {
        let turn = self.try_perform(rt, cluster, choice)?;
        assert_eq!(rt; (cluster, choice, turn), (cluster, choice, Turn::Did));
        Ok(())
    }

    /// The first hart of a cluster does so many instructions.
    pub fn steps(&mut self, rt: &impl Abort, cluster: u32, count: u32) -> Result<(), Fail> {
        for _step in 0..count {
            self.perform(rt, cluster, Choice::Step(0))?;
        }
        Ok(())
    }

    /// Clusters do these choices, each of which is enabled then.
    pub fn play(&mut self, rt: &impl Abort, choices: &[(u32, Choice)]) -> Result<(), Fail> {
        for (cluster, choice) in choices {
            self.perform(rt, *cluster, *choice)?;
        }
        Ok(())
    }

    /// A choice that is not enabled.
    pub fn idle(&mut self, rt: &impl Abort, cluster: u32, choice: Choice) -> Result<(), Fail> {
        let turn = self.try_perform(rt, cluster, choice)?;
        assert_eq!(rt; (cluster, choice, turn), (cluster, choice, Turn::Idle));
        Ok(())
    }

    /// Runs on until nothing is enabled, or for 400 events: each time the first choice in the order of
    /// these clusters and of their choices. One choice is held back from when it is enabled, until so
    /// many other events were done, or none other can be.
    pub fn run(
        &mut self,
        rt: &impl Abort,
        alloc: Global,
        order: [u32; 2],
        held: (u32, Choice),
        delay: u32,
    ) -> Result<(), Fail> {
        let mut choices = Vec::with_capacity(alloc, MOST_CHOICES)?;
        let mut waited = 0;
        for _event in 0..400 {
            let is_held = self.lists(rt, &mut choices, held)? && waited < delay;
            let found = if is_held {
                self.first(rt, &mut choices, order, Some(held))?
            } else {
                None
            };
            if found.is_some() {
                waited += 1;
            }
            let next = match found {
                Some(next) => Some(next),
                None => self.first(rt, &mut choices, order, None)?,
            };
            let Some((cluster, choice)) = next else {
                return Ok(());
            };
            self.perform(rt, cluster, choice)?;
        }
        Ok(())
    }

    /// Whether a choice is one of its cluster's.
    fn lists(
        &mut self,
        rt: &impl Abort,
        choices: &mut Vec<Choice>,
        of: (u32, Choice),
    ) -> Result<bool, Fail> {
        self.list(rt, of.0, choices)?;
        Ok(choices.contains(&of.1))
    }

    /// The first choice of the first of these clusters that has one, other than this.
    fn first(
        &mut self,
        rt: &impl Abort,
        choices: &mut Vec<Choice>,
        order: [u32; 2],
        other_than: Option<(u32, Choice)>,
    ) -> Result<Option<(u32, Choice)>, Fail> {
        for cluster in order {
            self.list(rt, cluster, choices)?;
            for choice in choices.as_slice() {
                if other_than != Some((cluster, *choice)) {
                    return Ok(Some((cluster, *choice)));
                }
            }
        }
        Ok(None)
    }

    /// Lists the choices of a cluster.
    fn list(
        &mut self,
        rt: &impl Abort,
        cluster: u32,
        choices: &mut Vec<Choice>,
    ) -> Result<(), Fail> {
        assert!(rt; (cluster as usize) < self.units.len() && choices.capacity() >= MOST_CHOICES);
        self.units[cluster as usize].core.list(choices);
        Ok(())
    }

    /// What a hart of a cluster read first of a word.
    pub fn first_read(&self, cluster: usize, hart: HartId, word: WordAddr) -> Option<u32> {
        for event in self.units.get(cluster)?.core.log() {
            let access = match event.kind {
                Kind::Load { access, .. } | Kind::Rmw { access, .. } => access,
                _ => continue,
            };
            if access.hart == hart && access.word == word && access.read.is_some() {
                return access.read;
            }
        }
        None
    }

    /// What happened last at a cluster.
    pub fn last(&self, rt: &impl Abort, cluster: u32) -> Result<Kind, Fail> {
        assert!(rt; (cluster as usize) < self.units.len());
        let log = self.units[cluster as usize].core.log();
        assert!(rt; !log.is_empty());
        Ok(log[log.len() - 1].kind)
    }

    /// What the access read that happened last at a cluster.
    pub fn last_read(&self, rt: &impl Abort, cluster: u32) -> Result<Option<u32>, Fail> {
        Ok(match self.last(rt, cluster)? {
            Kind::Load { access, .. } | Kind::Rmw { access, .. } => access.read,
            _ => None,
        })
    }

    /// A register of the first hart of a cluster.
    pub fn register(&self, rt: &impl Abort, cluster: u32, number: usize) -> Result<u32, Fail> {
        assert!(rt; (cluster as usize) < self.units.len() && number < 32);
        let core = &self.units[cluster as usize].core;
        assert!(rt; core.harts() > 0);
        Ok(core.hart(0).registers()[number])
    }
}

/// An ordinary load of a whole word, from its hart's buffer at level 0 or from the cluster's copy at 1
/// or 2.
pub fn loaded(hart: u32, number: u32, word: u32, read: u32, seen: Seen, level: u32) -> Kind {
    Kind::Load {
        access: Access {
            hart: HartId(hart),
            number,
            op: Op::Load,
            labels: Labels {
                aq: false,
                rl: false,
            },
            word: WordAddr(word),
            mask: Mask::new(15),
            read: Some(read),
            written: None,
            seen,
        },
        level,
    }
}

/// The units of a machine, which choose in rotation.
fn all_units(
    rt: &impl Abort,
    alloc: Global,
    topology: Topology,
    programs: [&[u32]; 4],
) -> Result<Vec<Unit>, Fail> {
    let image = image(alloc, programs)?;
    let mut arbiters = Vec::new(alloc);
    for _cluster in 0..topology.clusters {
        arbiters.push(None)?;
    }
    assert!(rt; arbiters.len() == topology.clusters as usize);
    Ok(units(alloc, &topology, &image, arbiters)?)
}
