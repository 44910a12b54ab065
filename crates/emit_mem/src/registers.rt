// The registers of a register list.
ghost use Rattle.std.specs.Prelude.{◌≡◌, ◌*◌, ◌≤◌, length, slice_index_or};
ghost use Rattle.lower_forms.specs.InlineBody.{listed};

use armv4t::is_listed;

// The bytes of the registers below limit that are listed.
pub(crate) fn bytes_listed(rlist: u16, limit: u8) -> u32
    ensures bytes { result ≡ length (listed rlist limit) * 4 }
    ensures small { result ≤ limit * 4 }
{
    let mut n = 0;
    for r in 0..limit {
        if is_listed(rlist, r) {
            n += 4;
        }
    }
    n
}

// The lowest register listed, or 16.
pub(crate) fn lowest_listed(rlist: u16) -> u8
    ensures { result ≡ slice_index_or (listed rlist 16) 0 16 }
{
    for r in 0..16 {
        if is_listed(rlist, r) {
            return r;
        }
    }
    16
}
