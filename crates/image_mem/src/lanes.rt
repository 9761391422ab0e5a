//! The lanes of a word.
ghost use Rattle.std.specs.Prelude.{◌≡◌, ℕ, ◌<◌, ◌%◌, ◌^◌, IsTrue};
ghost use Rattle.image_mem.specs.Lanes.{is_access_size, merged};

/// The word `old` with the `size` bytes from lane `address mod 4` on replaced by the low bytes of
/// `value`, the lowest first. `size` is 1, 2 or 4, and `address` is a multiple of it.
pub fn merge_lanes(old: u32, value: u32, address: u32, size: u32) -> u32
    requires size { IsTrue (is_access_size size) }
    requires aligned { address % size ≡ 0 }
    ensures { result ≡ merged old value (address % 4) size }
{
    // all four lanes need no copy of any
    if size == 4 {
        return value;
    }
    let first = (address % 4) as usize;
    let bytes = value.to_le_bytes();
    let mut lanes = old.to_le_bytes();
    lanes[first] = bytes[0];
    if size == 2 {
        lanes[first + 1] = bytes[1];
    }
    u32::from_le_bytes(lanes)
}

/// A merged word is below 2^32, and one of which all four lanes were replaced doesn't depend on the
/// old word.
pub fn merged_words()
    ensures below { (old value first size : ℕ) → merged old value first size < 2 ^ 32 }
    ensures whole { (one other value : ℕ) → merged one value 0 4 ≡ merged other value 0 4 }
{}
