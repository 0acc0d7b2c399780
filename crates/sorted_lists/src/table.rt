//! Hash maps with reserved capacity, seen as their entries in order of the keys.
ghost use Rattle.std.specs.Prelude.{◌≡◌, ◌+◌, ◌<◌, ◌≤◌, OnOk};
ghost use Rattle.std.specs.HashMap.{spare};
ghost use Rattle.sorted_lists.specs.SortedList.{IsExact, in_order, value_of, with_value};

use std::alloc::AllocError;
use std::collections::HashMap;
use std::hash::Hash;

/// Reserves capacity for `n` more entries.
pub fn reserve<K: Ord + Hash, V>(map: &mut HashMap<K, V>, n: usize) -> Result<(), AllocError>
    requires { IsExact K.cmp }
    ensures entries { in_order K.cmp map.new.entries ≡ in_order K.cmp map.old.entries }
    ensures room { OnOk result (n ≤ spare map.new) }
    ensures kept { spare map.old ≤ spare map.new }
{
    map.reserve(n)
}

/// What the map has under the key.
pub fn value_of<K: Ord + Hash, V: Copy>(map: &HashMap<K, V>, key: K) -> Option<V>
where
    K: Drop,
    requires { IsExact K.cmp }
    ensures { result ≡ value_of K.cmp (in_order K.cmp map.now.entries) key }
{
    map.get(&key).copied()
}

/// The map, which has capacity for one more, gains the value under the key, in place of what it has there.
pub fn set_value<K: Ord + Hash + Drop, V: Drop>(map: &mut HashMap<K, V>, key: K, value: V)
    requires exact { IsExact K.cmp }
    requires room { 0 < spare map.old }
    ensures entries { in_order K.cmp map.new.entries ≡ with_value K.cmp key value (in_order K.cmp map.old.entries) }
    ensures room { spare map.old ≤ spare map.new + 1 }
{
    let replaced: Result<_, _> = map.insert(key, value);
    replaced.unwrap();
}
