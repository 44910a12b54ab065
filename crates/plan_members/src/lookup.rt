// Whether a key is that of a member of a group, by the keys in the group's rows.
ghost use Rattle.std.specs.Prelude.{ℕ};
ghost use Rattle.plan_members.specs.Members.{group_keys};
ghost use Rattle.plan_members.specs.GroupRows.{HasRows, HasRow, IsGroup};
ghost use Rattle.plan_members.specs.Lookup.{KeyBetween, SaysAt, SaysInGroup};

use crate::group_rows::Rows;
use crate::keys::row_key;

// Whether the group in some rows has a member k, and that has a key.
fn has_key(file: &[u8], work: &[u32], rows: Rows, k: usize, key: u32) -> bool
    requires { HasRows file.now work.now rows }
    ensures { (limit g : ℕ) → IsGroup file.now limit work.now g rows
        → SaysAt (group_keys limit file.now g) key k result }
{
    if k < rows.end - rows.first {
        row_key(file, work, rows.first + k) == key
    } else {
        false
    }
}

// The first member of the group in some rows whose key is not below a key, or the number of
// members; by halving, since keys do not fall along a group, however the file orders its blocks.
fn first_from(file: &[u8], work: &[u32], rows: Rows, key: u32) -> usize
    requires { HasRows file.now work.now rows }
    ensures { (limit g : ℕ) → IsGroup file.now limit work.now g rows
        → KeyBetween (group_keys limit file.now g) key result result }
{
    let mut low = 0;
    let mut high = rows.end - rows.first;
    while low < high {
        let mid = low + (high - low) / 2;
        if row_key(file, work, rows.first + mid) < key {
            low = mid + 1;
        } else {
            high = mid;
        }
    }
    low
}

// Whether the group in some rows has a block with a key, an exit of its member k: most exits lead
// to the next member.
pub fn in_group(file: &[u8], work: &[u32], rows: Rows, k: usize, key: u32) -> bool
    requires { HasRow file.now work.now rows k }
    ensures { SaysInGroup file.now work.now rows key result }
{
    if has_key(file, work, rows, k + 1, key) {
        return true;
    }
    let first = first_from(file, work, rows, key);
    has_key(file, work, rows, first, key)
}
