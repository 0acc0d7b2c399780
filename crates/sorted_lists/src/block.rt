// Maps in one vector each, in order of their keys.
ghost use Rattle.std.specs.Prelude.{◌≡◌, ◌<◌, ◌≤◌, ◌++◌, [], length, vec_capacity};
ghost use Rattle.sorted_lists.specs.SortedList.{keys, Rises, with_value, without_key, last_up_to, first_from};
ghost use Rattle.sorted_lists.specs.BlockMap.{begins_up_to};

// The last entry whose key is not above this one.
pub(crate) fn last_up_to<K: Ord + Copy, V: Copy>(block: &[(K, V)], key: K) -> Option<(K, V)>
    requires { Rises K.cmp (keys block.now) }
    ensures { result ≡ last_up_to K.cmp key block.now }
{
    match block.binary_search_by_key(&key, |&(k, _)| k) {
        Ok(place) => Some(block[place]),
        Err(0) => None,
        Err(place) => Some(block[place - 1]),
    }
}

// The first entry whose key is not below this one.
pub(crate) fn first_from<K: Ord + Copy, V: Copy>(block: &[(K, V)], key: K) -> Option<(K, V)>
    requires { Rises K.cmp (keys block.now) }
    ensures { result ≡ first_from K.cmp key block.now }
{
    match block.binary_search_by_key(&key, |&(k, _)| k) {
        Ok(place) => Some(block[place]),
        Err(place) if place < block.len() => Some(block[place]),
        Err(_) => None,
    }
}

// The block, which has capacity for one more, gains the value under the key, in place of what it has there.
pub(crate) fn insert<K: Ord + Copy, V: Copy>(block: &mut Vec<(K, V)>, key: K, value: V)
    requires rises { Rises K.cmp (keys block.old.items) }
    requires room { length block.old.items < vec_capacity block.old }
    ensures entries { block.new.items ≡ with_value K.cmp key value block.old.items }
    ensures capacity { vec_capacity block.old ≤ vec_capacity block.new }
{
    match block.binary_search_by_key(&key, |&(k, _)| k) {
        Ok(place) => block[place] = (key, value),
        Err(place) => block.insert(place, (key, value)).unwrap(),
    }
}

// The block has nothing under the key.
pub(crate) fn remove<K: Ord + Copy, V: Copy>(block: &mut Vec<(K, V)>, key: K)
    requires { Rises K.cmp (keys block.old.items) }
    ensures entries { block.new.items ≡ without_key K.cmp key block.old.items }
    ensures capacity { vec_capacity block.old ≤ vec_capacity block.new }
{
    if let Ok(place) = block.binary_search_by_key(&key, |&(k, _)| k) {
        block.remove(place);
    }
}

// So many entries stay, and those after them go to the other block, which is empty and has capacity for them.
pub(crate) fn split<K: Copy, V: Copy>(block: &mut Vec<(K, V)>, place: usize, back: &mut Vec<(K, V)>)
    requires place { place ≤ length block.old.items }
    requires empty { back.old.items ≡ [] }
    requires room { length block.old.items ≤ vec_capacity back.old }
    ensures entries { block.new.items ++ back.new.items ≡ block.old.items }
    ensures len { length block.new.items ≡ place }
    ensures kept { vec_capacity block.old ≤ vec_capacity block.new }
    ensures capacity { vec_capacity back.old ≤ vec_capacity back.new }
{
    back.extend_from_slice(&block[place..]).unwrap();
    block.truncate(place);
}

// Whether the first key, if there is one, is not above this one.
pub(crate) fn begins_up_to<K: Ord + Copy, V: Copy>(block: &[(K, V)], key: K) -> bool
    ensures { result ≡ begins_up_to K.cmp key block.now }
{
    match block.first() {
        Some((first, _)) => first.cmp(&key).is_le(),
        None => true,
    }
}
