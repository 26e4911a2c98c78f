// Gather and scatter as C functions.
ghost use Rattle.std.specs.Prelude.{◌≡◌};
ghost use Rattle.int_bits.specs.Gather.{gather, scatter};

#[unsafe(no_mangle)]
pub extern "C" fn ply_gather_u8(x: u8, mask: u8) -> u8
    ensures { result ≡ gather 8 x mask }
{
    int_bits::gather::<u8, 3>(x, mask)
}

#[unsafe(no_mangle)]
pub extern "C" fn ply_scatter_u8(x: u8, mask: u8) -> u8
    ensures { result ≡ scatter 8 x mask }
{
    int_bits::scatter::<u8, 3>(x, mask)
}

#[unsafe(no_mangle)]
pub extern "C" fn ply_gather_u16(x: u16, mask: u16) -> u16
    ensures { result ≡ gather 16 x mask }
{
    int_bits::gather::<u16, 4>(x, mask)
}

#[unsafe(no_mangle)]
pub extern "C" fn ply_scatter_u16(x: u16, mask: u16) -> u16
    ensures { result ≡ scatter 16 x mask }
{
    int_bits::scatter::<u16, 4>(x, mask)
}

#[unsafe(no_mangle)]
pub extern "C" fn ply_gather_u32(x: u32, mask: u32) -> u32
    ensures { result ≡ gather 32 x mask }
{
    int_bits::gather::<u32, 5>(x, mask)
}

#[unsafe(no_mangle)]
pub extern "C" fn ply_scatter_u32(x: u32, mask: u32) -> u32
    ensures { result ≡ scatter 32 x mask }
{
    int_bits::scatter::<u32, 5>(x, mask)
}

#[unsafe(no_mangle)]
pub extern "C" fn ply_gather_u64(x: u64, mask: u64) -> u64
    ensures { result ≡ gather 64 x mask }
{
    int_bits::gather::<u64, 6>(x, mask)
}

#[unsafe(no_mangle)]
pub extern "C" fn ply_scatter_u64(x: u64, mask: u64) -> u64
    ensures { result ≡ scatter 64 x mask }
{
    int_bits::scatter::<u64, 6>(x, mask)
}
