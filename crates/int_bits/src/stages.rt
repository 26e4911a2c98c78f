// The masks of the stages, and the stages over any masks.
#![tactic(auto, using(crate::proofs::Width::stages_le))]

ghost use Rattle.std.specs.Prelude.{◌≡◌, map};
ghost use Rattle.std.specs.Int.Bits.{bit_and};
ghost use Rattle.int_bits.specs.Stages.{stage_masks, extract_stages, deposit_stages};
ghost use mir.Val.{bits};

use crate::words::Word;

// The mask of each stage: the bits that shift at the stage, and the zeros that they shift into.
pub fn prepare<T: Word<STAGES>, const STAGES: usize>(sparse: T) -> [T; STAGES]
    ensures { map T.number result ≡ stage_masks (bits T.width) (T.number sparse) STAGES }
{
    // `zeros` starts as a mask of the bits to be removed.
    let mut zeros = !sparse;
    let mut masks = [zeros; STAGES];
    for (stage, mask) in masks.iter_mut().enumerate() {
        let n = 1 << stage;
        // Suppose `zeros` has bits set at ranges `{ a..a+n, b..b+n, ... }`.
        // Then `parity` becomes `{ a.. } XOR { b.. } XOR ...`, the ranges `{ a..b, c..d, e.. }`.
        let mut parity = zeros;
        for doubling in stage..STAGES {
            parity = parity ^ parity << (1 << doubling);
        }
        *mask = parity;

        // Toggle off the bits that are shifted into; left are `{ b..b+n, d..d+n, ... }`.
        zeros = zeros & !parity;
        // Expand these down to the bits that were shifted from: `{ b-n..b+n, d-n..d+n, ... }`.
        zeros = zeros ^ zeros >> n;
    }
    masks
}

// The stages of gather over any masks: over those of `sparse`, `x` gathered under `sparse`.
pub fn extract_impl<T: Word<STAGES>, const STAGES: usize>(
    masks: [T; STAGES],
    mut x: T,
    sparse: T,
) -> T
    ensures { T.number result ≡ extract_stages STAGES (map T.number masks) (bit_and (T.number x) (T.number sparse)) }
{
    x = x & sparse;
    for (stage, mask) in masks.iter().enumerate() {
        let n = 1 << stage;
        // In effect, the upper run of data is swapped with the group of `n` zeros below it.
        let q = x & *mask;
        x = x ^ q;
        x = x ^ q >> n;
    }
    x
}

// The stages of scatter over any masks: over those of `sparse`, `x` scattered under `sparse`.
pub fn deposit_impl<T: Word<STAGES>, const STAGES: usize>(
    masks: [T; STAGES],
    mut x: T,
    sparse: T,
) -> T
    ensures { T.number result ≡ bit_and (deposit_stages (bits T.width) STAGES (map T.number masks) (T.number x)) (T.number sparse) }
{
    // By the stage's number: over `iter().enumerate().rev()` the invariant would have to follow the iterator's state.
    for stage in (0..STAGES).rev() {
        let n = 1 << stage;
        // In effect, `n` 0-bits are inserted somewhere in each run of data to spread it.
        let q = x & masks[stage];
        x = x ^ q;
        x = x ^ q << n;
    }
    x & sparse
}
