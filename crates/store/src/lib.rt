// Stores: what keeps the bytes of an image. The contract is one trait, `Store`. The flat image
// keeps its bytes in one piece of memory that the caller hands in.
#![tactic(auto)]

ghost use Rattle.std.specs.Prelude.{◌≡◌, ◌^◌};

mod contract;
mod flat;
mod range;

pub use contract::{LIMIT, Store};
pub use flat::FlatImage;
pub use range::{check_range, within};

/// The number of the rules that a constant has: no image is above 2^40 bytes.
pub fn limit_of_images()
    ensures { LIMIT ≡ 2 ^ 40 }
{}

#[cfg(test)]
mod tests {
    use super::*;
    use fault::{Cause, Fault};

    // Also where offset and length together pass 64 bits.
    #[test]
    fn reads_past_the_end(rt: HostRuntime) {
        let mut memory = [7; 8];
        let image = FlatImage::open(&mut memory, 4);
        let mut back = [9; 3];
        let refused = image.read(2, &mut back);
        assert_eq!(rt; refused, Err(Fault::new(Cause::Outside, 2)));
        let refused = image.read(u64::MAX, &mut back);
        assert_eq!(rt; refused, Err(Fault::new(Cause::Outside, u64::MAX)));
        assert_eq!(rt; back, [9; 3]);
    }

    fn regrown<S: Store>(image: &mut S) -> [u8; 6] {
        let mut back = [9; 6];
        let _ = image.resize(2);
        let _ = image.resize(6);
        let _ = image.read(0, &mut back);
        back
    }

    #[test]
    fn grows_by_zeros(rt: HostRuntime) {
        let mut memory = [7; 8];
        assert_eq!(rt;
            regrown(&mut FlatImage::open(&mut memory, 8)),
            [7, 7, 0, 0, 0, 0]
        );
        assert_eq!(rt; memory, [7, 7, 0, 0, 0, 0, 7, 7]);
    }

    #[test]
    fn closes_with_its_memory(rt: HostRuntime) {
        let mut memory = [7; 3];
        let mut image = FlatImage::open(&mut memory, 2);
        assert!(rt; image.write(1, b"a").is_ok());
        assert_eq!(rt; *image.close(), *[7, b'a', 7].as_slice());
    }
}
