// Gather and scatter of the bits of an unsigned integer under a mask, after core's int_bits.
//
// A bit moves by the count of the mask's zeros below it. The move is made in stages, each of which moves some of the bits by
// `n = 1 << stage`. Gathering, the data are runs A, B, C, .. split by groups of `n` zeros, and a stage moves every other run down
// over the zeros below it. The stage's mask covers both, the run and the zeros:
//
//     .A.B.C.D.E.F.G.H
//      ##  ##  ##  ##
//     ..AB..CD..EF..GH
//       ####    ####
//     ....ABCD....EFGH
//         ########
//     ........ABCDEFGH
//
// Scattering, the stages are reversed.
#![tactic(auto)]

ghost use Rattle.std.specs.Prelude.{◌≡◌};
ghost use Rattle.int_bits.specs.Gather.{gather, scatter};
ghost use mir.Val.{bits};

mod runs;
mod stages;
mod words;

use runs::run_start;
pub use stages::{deposit_impl, extract_impl, prepare};
pub use words::Word;

// From so many stages on a test for a run pays: fewer cost little more than the test.
const STAGES_WORTH_A_TEST: usize = 5;

// The bits of `x` at the ones of `mask`, moved together from bit 0 up. Under a single run they are together already.
pub fn gather<T: Word<STAGES>, const STAGES: usize>(x: T, mask: T) -> T
    ensures { T.number result ≡ gather (bits T.width) (T.number x) (T.number mask) }
{
    let word = mask.widen();
    if STAGES >= STAGES_WORTH_A_TEST
        && let Some(start) = run_start(word)
    {
        return (x & mask) >> start;
    }
    extract_impl(prepare(mask), x, mask)
}

// The bits of `x` from bit 0 up, moved apart to the ones of `mask`. Under a single run they stay together.
pub fn scatter<T: Word<STAGES>, const STAGES: usize>(x: T, mask: T) -> T
    ensures { T.number result ≡ scatter (bits T.width) (T.number x) (T.number mask) }
{
    let word = mask.widen();
    if STAGES >= STAGES_WORTH_A_TEST
        && let Some(start) = run_start(word)
    {
        return x << start & mask;
    }
    deposit_impl(prepare(mask), x, mask)
}
