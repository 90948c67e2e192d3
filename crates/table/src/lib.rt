// Tables are an array of slots and a count. Laws of them stand in proofs/; these are the functions that they share.
#![tactic(auto)]

ghost use Rattle.std.specs.Prelude.{◌≡◌, ◌<◌, ◌≤◌, min, take, length};
ghost use Rattle.std.specs.Fn.{FnReturnsAt};
ghost use Rattle.table.specs.Calls.{Finds, Keeps};
ghost use Rattle.table.specs.Table.{filled, without};

// A count above its size reads as the size.
pub fn count_of(len: usize, size: usize) -> usize
    ensures { result ≡ min len size }
{
    len.min(size)
}

// The place of the first entry that passes.
pub fn position<T, F: Fn(&T) -> bool>(entries: &[T], test: F) -> Option<usize>
    requires { F.IsAlwaysCallable test }
    ensures { Finds (λ x b. FnReturnsAt F.Fn test x b) entries.now result }
{
    entries.iter().position(test)
}

// Of the first `len` slots those that stay move together, in order. The answer is how many they are; later slots hold what they held.
pub fn retain<T: Copy, F: Fn(&T) -> bool>(slots: &mut [T], len: usize, stays: F) -> usize
    requires callable { F.IsAlwaysCallable stays }
    requires low { len ≤ length slots.old }
    ensures { Keeps (λ x b. FnReturnsAt F.Fn stays x b) len slots.old result slots.new }
{
    // By index, since the loop writes into the slots that it reads.
    let mut kept = 0;
    for i in 0..len {
        let entry = slots[i];
        if stays(&entry) {
            slots[kept] = entry;
            kept += 1;
        }
    }
    kept
}

// The entry at `at` goes: the later ones of the first `len` move down.
pub fn remove<T: Copy>(slots: &mut [T], len: usize, at: usize)
    requires { (at < len) × (len ≤ length slots.old) }
    ensures { slots.new ≡ filled slots.old (without (take len slots.old) at) }
{
    slots.copy_within(at + 1..len, at);
}
