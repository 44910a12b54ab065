// The work numbers that a call is lent.
ghost use Rattle.std.specs.Prelude.{◌≡◌, ◌≤◌, length};
ghost use Rattle.call_frame.specs.Frame.{cleared};

// The first m numbers become 0.
pub fn clear(work: &mut [u32], m: usize)
    requires { m ≤ length work.old }
    ensures { work.new ≡ cleared m work.old }
{
    work[..m].fill(0);
}
