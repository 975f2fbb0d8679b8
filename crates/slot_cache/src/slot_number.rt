// Which slot a title has.
ghost use Rattle.std.specs.Prelude.{◌≡◌, ◌<◌, ◌%◌};
ghost use Rattle.slot_cache.specs.Slots.{slot_of};

use crate::slot_cache::SLOTS_MAX;
use md5::{Digest, Md5};
use wiki_titles::Title;

/// The slot of a title, below `slots`: the first eight bytes of the MD5 digest of its text as a number, high byte
/// first, modulo the number of slots. It costs one digest, and takes no memory.
pub fn slot_of(key: &Title, slots: u32) -> u32
    requires { 0 < slots }
    ensures value { result ≡ slot_of key.now slots }
    ensures below { result < slots }
{
    let digest: [u8; 16] = Md5::digest(key.text().as_bytes());
    let head = [
        digest[0], digest[1], digest[2], digest[3], digest[4], digest[5], digest[6], digest[7],
    ];
    number_below(u64::from_be_bytes(head), slots)
}

// The number modulo the number of slots. Beside the digest a division is the dearest part of a look, and the usual number
// of slots needs none.
fn number_below(number: u64, slots: u32) -> u32
    requires { 0 < slots }
    ensures value { result ≡ number % slots }
    ensures below { result < slots }
{
    if slots == SLOTS_MAX {
        (number % u64::from(SLOTS_MAX)) as u32
    } else {
        (number % u64::from(slots)) as u32
    }
}
