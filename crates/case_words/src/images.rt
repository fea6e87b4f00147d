// The image that a case works on.
ghost use Rattle.std.specs.Prelude.{◌≡◌, IfOk, OnOk};

use anyhow::anyhow;
use std::alloc::Global;
use store::Store;

/// What an image lies in: a number of bytes of memory, or a map and a pool with numbers of places
/// and of pages.
#[derive(Clone, Copy)]
pub enum Room {
    Flat { bytes: usize },
    Paged { places: usize, pages: usize },
}

// Makes an image of these bytes.
pub(crate) fn fill<S: Store>(image: &mut S, bytes: &[u8]) -> anyhow::Result<()>
    ensures same { S.holds image.new ≡ S.holds image.old }
    ensures image { OnOk result (S.image image.new ≡ bytes.now) }
{
    image.resize(bytes.len() as u64)?;
    image.write(0, bytes)?;
    Ok(())
}

/// The bytes of an image.
pub fn contents<S: Store>(heap: Global, image: &S) -> anyhow::Result<Vec<u8>>
    ensures { IfOk result (λ bytes. bytes.items ≡ S.image image.now) }
{
    let size = image.size();
    if size > 1 << 20 {
        return Err(anyhow!("the image is too large to show"));
    }
    let mut bytes = vec![in heap; 0u8; size as usize]?;
    image.read(0, &mut bytes)?;
    Ok(bytes)
}
