//! What the members of a document give the keys of a topology.
ghost use Rattle.std.specs.Prelude.{◌≡◌, not, is_some, option_map};
ghost use Rattle.dash_base.specs.Names.{key_name};
ghost use Rattle.toml.specs.Data.{get_member};
ghost use Rattle.toml.specs.View.{view, table_view};
ghost use Rattle.topology.specs.Document.{size_of, size_or, sizes_of, first_missing, is_key, least_unknown};

use dash_base::{KEYS, Key, Sizes, default_stack};
use toml::{Table, Value};

/// The keys that have no default, in the order of the table of keys.
const REQUIRED: [Key; 3] = [Key::Clusters, Key::Harts, Key::Budget];

/// What stands for a value that is no number of 32 bits: it is out of every key's bounds.
const NO_SIZE: u32 = u32::MAX;

/// The first required key that isn't there.
pub fn first_missing(table: &Table) -> Option<Key>
    ensures { result ≡ first_missing (table_view table.now) }
{
    REQUIRED.iter().copied().find(|key| !has(table, *key))
}

/// The least name by bytes that is that of no key.
pub fn first_unknown(table: &Table) -> Option<&str>
    ensures { option_map (λ name. name.now) result ≡ least_unknown (table_view table.now) }
{
    for (name, _value) in table.iter() {
        if !is_key(name.as_str()) {
            return Some(name.as_str());
        }
    }
    None
}

/// The sizes that a document gives, with defaults for those that it doesn't give.
pub fn sizes_of(table: &Table) -> Sizes
    ensures { result ≡ sizes_of (table_view table.now) }
{
    let clusters = size_or(table, Key::Clusters, 0);
    let harts = size_or(table, Key::Harts, 0);
    let usual = Sizes::simple(clusters, harts, size_or(table, Key::Budget, 0));
    let memory = size_or(table, Key::Memory, usual.memory);
    Sizes {
        memory,
        locks: size_or(table, Key::Locks, usual.locks),
        base: size_or(table, Key::Base, usual.base),
        l2: size_or(table, Key::L2, usual.l2),
        l1: size_or(table, Key::L1, usual.l1),
        buffer: size_or(table, Key::Buffer, usual.buffer),
        acks: size_or(table, Key::Acks, usual.acks),
        prefetch: size_or(table, Key::Prefetch, usual.prefetch),
        stack: size_or(table, Key::Stack, default_stack(clusters, harts, memory)),
        ..usual
    }
}

/// Whether a document has a key.
fn has(table: &Table, key: Key) -> bool
    ensures { result ≡ is_some (get_member (key_name key) (table_view table.now)) }
{
    given(table, key).is_some()
}

/// The size that a document gives a key, or its default.
fn size_or(table: &Table, key: Key, usual: u32) -> u32
    ensures { result ≡ size_or (table_view table.now) key usual }
{
    match given(table, key) {
        Some(value) => size_of(value),
        None => usual,
    }
}

/// The value that a document gives a key.
fn given(table: &Table, key: Key) -> Option<&Value>
    ensures { option_map (λ v. view v.now) result ≡ get_member (key_name key) (table_view table.now) }
{
    table.get(key.name())
}

/// What a value stands for.
fn size_of(value: &Value) -> u32
    ensures { result ≡ size_of (view value.now) }
{
    match value {
        Value::Integer(number) => match u32::try_from(*number) {
            Ok(size) => size,
            Err(_) => NO_SIZE,
        },
        _ => NO_SIZE,
    }
}

/// Whether a name is that of a key.
fn is_key(name: &str) -> bool
    ensures { result ≡ is_key name.now }
{
    KEYS.iter().any(|key| key.name() == name)
}
