// The keys of a file's blocks, read one by one, and whether they rise.
ghost use Rattle.std.specs.Prelude.{◌≡◌, get_or};
ghost use Rattle.file_keys.specs.Order.{block_keys};
ghost use Rattle.file_keys.specs.First.{rising};
ghost use Rattle.file_keys.specs.Steps.{RightBlocks, HasRecords};

use file_blocks::block_count;
use file_records::block_record::key;
use file_records::trailer::section_start;

// Where the block records of a file stand, and how many there are.
#[derive(Clone, Copy)]
pub(crate) struct Records {
    pub start: usize,
    pub count: usize,
}

// The block records of a file, by its trailer.
pub(crate) fn records_of(file: &[u8]) -> Records
    requires { RightBlocks file.now }
    ensures { HasRecords file.now result }
{
    Records {
        start: section_start(file, 1),
        count: block_count(file),
    }
}

// The key of block i, or 0 where there is no such block.
fn key_at(file: &[u8], records: Records, i: usize) -> u64
    requires { HasRecords file.now records }
    ensures { result ≡ get_or (block_keys file.now) i 0 }
{
    if i < records.count {
        key(file, records.start + 16 * i)
    } else {
        0
    }
}

// The same, of a block number as the work numbers have it.
pub(crate) fn key_of(file: &[u8], records: Records, i: u32) -> u64
    requires { HasRecords file.now records }
    ensures { result ≡ get_or (block_keys file.now) i 0 }
{
    key_at(file, records, i as usize)
}

// Whether keys rise strictly in file order.
pub(crate) fn rises(file: &[u8], records: Records) -> bool
    requires { HasRecords file.now records }
    ensures { result ≡ rising (block_keys file.now) }
{
    let mut last = key_at(file, records, 0);
    for i in 1..records.count {
        let next = key_at(file, records, i);
        if next <= last {
            return false;
        }
        last = next;
    }
    true
}
