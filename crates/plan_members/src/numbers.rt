// The work numbers of an accepted file, filled for the passes over its blocks and groups.
ghost use Rattle.file_blocks.specs.Parse.{Accepted};
ghost use Rattle.plan_members.specs.Prepared.{Prepared};
ghost use Rattle.plan_groups.specs.Groups.{HasRoom};

use plan_groups::{first_instrs, group_blocks};

// Fills the work numbers of an accepted file with n blocks. Grouping needs all four quarters, so
// the first instructions of the blocks come after it.
pub fn prepare(file: &[u8], work: &mut [u32], n: u32, limit: u64)
    requires { HasRoom file.now work.old n × Accepted file.now }
    ensures { Prepared file.now n limit work.old work.new }
{
    let size = n as usize;
    group_blocks(file, work, n, limit);
    first_instrs(file, work, size);
}
