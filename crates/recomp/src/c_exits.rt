// The C form of the call for the exits of a block.
ghost use Rattle.std.specs.Prelude.{◌≡◌, ◌∷◌, []};
ghost use Rattle.file_blocks.specs.Parse.{parse};
ghost use Rattle.call_exits.specs.Calls.{exits_call, exits_numbers};

// The numbers of the exits of a block. The answer is 0, or the number of the refusal.
#[unsafe(no_mangle)]
pub extern "C" fn recomp_exits(
    file: &[u8],
    block: u64,
    at: &mut u64,
    count: &mut u64,
    first: &mut u64,
    second: &mut u64,
) -> u32
    ensures answer { result ∷ at.new ∷ count.new ∷ first.new ∷ second.new ∷ []
        ≡ exits_numbers (exits_call block (parse file.now)) }
{
    call_exits::exits_numbers(file, block, at, count, first, second)
}
