// Numbers as bytes, the most significant first: a lent part of a slice is read as one number, or filled with one.
#![tactic(auto)]

ghost use Rattle.std.specs.Prelude.{◌≡◌, ◌%◌, ◌^◌, length};
ghost use Rattle.fields.specs.Fields.{number, bytes};

// The number that the bytes stand for; of more than eight, its low 64 bits.
#[tactic(auto, using(crate::proofs::Loops::number_taken))]
pub fn get(part: &[u8]) -> u64
    ensures { result ≡ number part.now % 2 ^ 64 }
{
    part.iter().fold(0, |n, byte| (n << 8) + *byte as u64)
}

// The part becomes the low bytes of a number, as many as it has.
#[tactic(auto, using(crate::proofs::Loops::put_last, crate::proofs::Loops::put_none))]
pub fn put(n: u64, part: &mut [u8])
    ensures { part.new ≡ bytes (length part.old) n }
{
    let mut rest = n;

    // By index: of what `iter_mut().rev()` lends, a proof knows the length alone afterwards.
    for i in (0..part.len()).rev() {
        part[i] = (rest % 256) as u8;
        rest /= 256;
    }
}
