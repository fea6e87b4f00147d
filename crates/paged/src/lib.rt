// An image in pages of 256 bytes: only the pages with a non-zero byte take a page of the lent pool.
#![tactic(auto)]

ghost use Rattle.std.specs.Prelude.{◌≡◌};

mod image;
mod pages;

pub use image::PagedImage;
pub use pages::{PAGE, PLACES, POOL};

/// The numbers of the rules that constants have: bytes of a page, map places and pool pages.
pub fn limits_of_pages()
    ensures page { PAGE ≡ 256 }
    ensures places { PLACES ≡ 65536 }
    ensures pool { POOL ≡ 65535 }
{}

#[cfg(test)]
mod tests {
    use super::*;
    use fault::{Cause, Fault};
    use store::Store;

    // Two pool pages hold no third page with a non-zero byte, until another is blank.
    #[test]
    fn full_pool(rt: HostRuntime) {
        let mut map = [0; 3];
        let mut pool = [0; 512];
        let mut image = PagedImage::open(&mut map, &mut pool);
        assert!(rt; image.resize(768).is_ok());
        assert!(rt; image.write(0, b"a").is_ok());
        assert!(rt; image.write(256, b"b").is_ok());
        let refused = image.write(512, b"k");
        assert_eq!(rt; refused, Err(Fault::new(Cause::NoRoom, 512)));
        assert!(rt; image.zero(0, 1).is_ok());
        assert!(rt; image.write(512, b"k").is_ok());
        let mut back = [9; 3];
        assert!(rt; image.read(511, &mut back).is_ok());
        assert_eq!(rt; back, [0, b'k', 0]);
        assert_eq!(rt; image.used_pages(), 2);
    }

    // Cut, then grown again: zeros. The rest of the map and the pool stays, and both come back.
    #[test]
    fn grows_by_zeros(rt: HostRuntime) {
        let mut map = [0; 1];
        let mut pool = [7; 258];
        let mut image = PagedImage::open(&mut map, &mut pool);
        assert_eq!(rt; image.size(), 0);
        assert!(rt; image.resize(2).is_ok());
        assert!(rt; image.write(0, b"ab").is_ok());
        assert!(rt; image.resize(1).is_ok());
        assert!(rt; image.resize(3).is_ok());
        let mut back = [9; 3];
        assert!(rt; image.read(0, &mut back).is_ok());
        assert_eq!(rt; back, [b'a', 0, 0]);
        let (map, pool) = image.close();
        assert_eq!(rt; map.first().copied(), Some(1));
        assert_eq!(rt; pool.first().copied(), Some(b'a'));
        assert_eq!(rt; pool.last().copied(), Some(7));
    }
}
