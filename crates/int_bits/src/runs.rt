// Masks that are one run of ones.
ghost use Rattle.int_bits.specs.Run.{Found};

// Where the ones of `mask` start if they are adjacent, and none if they are not.
pub(crate) fn run_start(mask: u64) -> Option<u32>
    ensures { Found 64 mask result }
{
    // The ones above the lowest, and the zeros below it.
    let others = mask.wrapping_sub(1);
    // Where a bit differs from the one below it: `prepare` starts with the same, so that other masks pay little for the test.
    let zeros = !mask;
    let edges = zeros ^ zeros << 1;
    // Above bit 0 both have the start of each run but the lowest.
    if others & edges < 2 {
        return Some((edges ^ 1).trailing_zeros() & 63);
    }
    None
}
