//! The slots of keys.

ghost use Rattle.std.specs.Prelude.{◌≡◌, ◌<◌};
ghost use Rattle.table_block.specs.Slots.{slot_of, hash_of};

/// How many slots a table has.
pub const SLOTS: u16 = 1024;

// Where a hash begins, and what it is multiplied by at each byte.
const START: u32 = 2_166_136_261;

const PRIME: u32 = 16_777_619;

// The hash of a key, in 32 bits.
fn hash(key: &[u8]) -> u32
    ensures { result ≡ hash_of key.now }
{
    let mut hash = START;
    for byte in key {
        hash = (hash ^ u32::from(*byte)).wrapping_mul(PRIME);
    }
    hash
}

/// The slot of a key: its hash modulo the count of slots.
#[tactic(auto, unfolding(crate::specs::Slots::slot_of))]
pub fn hash_slot(key: &[u8]) -> u16
    ensures slot { result ≡ slot_of key.now }
    ensures within { result < SLOTS }
{
    (hash(key) % u32::from(SLOTS)) as u16
}
