// Masks over the blocks of a graph: sets of blocks 1 to 128, two words each, in one row. Below the public calls.
// Rests on nothing; the contracts cite specs Masks, which blocks are in a mask.
#![tactic(auto)]

ghost use Rattle.std.specs.Prelude.{◌≡◌, ◌+◌, ◌*◌, ◌≤◌, length};
ghost use Rattle.masks.specs.Masks.{Put, Meets};

/// Puts a block into a mask.
pub fn put(row: &mut [u64], mask: usize, block: usize)
    requires { (1 ≤ block) × (block ≤ 128) × (2 * mask + 2 ≤ length row.old) }
    ensures { Put mask block row.old row.new }
{
    if block <= 64 {
        row[2 * mask] |= 1 << (block - 1);
    } else {
        row[2 * mask + 1] |= 1 << (block - 65);
    }
}

/// Whether some block is in a mask of one row and in a mask of another.
pub fn meet(row: &[u64], mask: usize, others: &[u64], other: usize) -> bool
    requires { (2 * mask + 2 ≤ length row.now) × (2 * other + 2 ≤ length others.now) }
    ensures { Meets row.now mask others.now other result }
{
    let low = row[2 * mask] & others[2 * other];
    let high = row[2 * mask + 1] & others[2 * other + 1];
    low | high != 0
}
