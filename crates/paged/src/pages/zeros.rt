// Looking for a non-zero byte.
ghost use Rattle.std.specs.Prelude.{◌≡◌};
ghost use Rattle.paged.specs.Pages.{blank};

// The bytes that are looked at together.
const BLOCK: usize = 32;

// Whether a block has only zeros: no bit is set in any of its bytes.
fn zero_block(block: &[u8]) -> bool
    ensures { result ≡ blank block.now }
{
    block.iter().fold(0, |bits, byte| bits | byte) == 0
}

// Whether there are only zeros. It ends at the first block with a non-zero byte. It stays a call:
// written out in the loops over pages it takes their registers, and long writes took a fifth
// longer.
#[inline(never)]
pub(super) fn all_zero(bytes: &[u8]) -> bool
    ensures { result ≡ blank bytes.now }
{
    let (blocks, rest) = bytes.as_chunks::<BLOCK>();
    blocks.iter().all(|block| zero_block(block)) && zero_block(rest)
}
