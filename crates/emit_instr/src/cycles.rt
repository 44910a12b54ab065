// The cycles pending.
ghost use Rattle.std.specs.Prelude.{◌≡◌, ◌+◌, ◌^◌, ◌<◌, cond};

// The cycles pending with those of an instruction. In a block of a block file the sum does not
// wrap.
pub(crate) fn with_cost(cycles: u64, cost: u16) -> u64
    ensures { cycles + cost < 2 ^ 64 → result ≡ cycles + cost }
{
    std::num::wrapping_add_u64(cycles, cost as u64)
}

// The cycles pending after an instruction; those before it are ticked already if it touches memory
// (touches_bus).
pub(crate) fn pending(touches_bus: bool, cycles: u64, cost: u16) -> u64
    ensures { cycles + cost < 2 ^ 64 → result ≡ cond touches_bus 0 cycles + cost }
{
    if touches_bus {
        cost as u64
    } else {
        with_cost(cycles, cost)
    }
}
