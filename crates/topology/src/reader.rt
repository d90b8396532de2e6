//! The text of a topology.
ghost use Rattle.std.specs.Prelude.{◌≡◌, Some, IfOk, IfErr};
ghost use Rattle.toml.specs.View.{table_view};
ghost use Rattle.topology.specs.Document.{IsReadAs, IsRefused, IsAcceptedAs, IsRefusalOf, IsUnknown};

use crate::members::{first_missing, first_unknown, sizes_of};
use dash_base::{KeyName, TopoRefusal, Topology};
use std::alloc::Global;
use toml::Table;

/// The topology that a text gives. It refuses, in this order, a text that is no TOML document
/// (`Syntax`); the first required key that isn't there (`Missing`); the least name by bytes that is
/// that of no key (`Unknown`); the first key, in the order of the table of keys, whose value is no
/// integer or out of its bounds (`Range`); the first that has to be a power of two and isn't
/// (`NotPower`); and too much work (`TooMuch`). `OutOfMemory` may stand in place of any answer.
pub fn read(alloc: Global, bytes: &[u8]) -> Result<Topology, TopoRefusal>
    ensures ok { IfOk result (IsReadAs bytes.now) }
    ensures refused { IfErr result (IsRefused bytes.now) }
{
    match toml::table_from_slice(alloc, bytes) {
        Ok(table) => topology_of(alloc, &table),
        Err(error) if error.is_memory() => Err(TopoRefusal::OutOfMemory),
        Err(_) => Err(TopoRefusal::Syntax),
    }
}

/// The topology that a document's members give.
fn topology_of(alloc: Global, table: &Table) -> Result<Topology, TopoRefusal>
    ensures ok { IfOk result (IsAcceptedAs (table_view table.now)) }
    ensures refused { IfErr result (IsRefusalOf (table_view table.now)) }
{
    if let Some(key) = first_missing(table) {
        return Err(TopoRefusal::Missing { key });
    }
    if let Some(name) = first_unknown(table) {
        return Err(unknown(alloc, name));
    }
    Topology::of(&sizes_of(table))
}

/// The refusal of a name that is that of no key, unless there is no memory for it.
fn unknown(alloc: Global, name: &str) -> TopoRefusal
    ensures { IsUnknown name.now result }
{
    match String::from_str(alloc, name) {
        Ok(text) => TopoRefusal::Unknown {
            key: KeyName { text },
        },
        Err(_) => TopoRefusal::OutOfMemory,
    }
}
