//! Records found in a block.

ghost use Rattle.std.specs.Prelude.{◌≡◌, ℕ, List, ◌+◌, ◌^◌, ◌<◌, ◌≤◌, length, take, drop, slice_range, Ok, IfOk, IfErr, IfSome};
ghost use Rattle.std.specs.Int.{w16, to_be_bytes};
ghost use Rattle.table_block.specs.Records.{Record, IsBlock, IsUnfit};
ghost use Rattle.table_block.specs.Spots.{Finds, IsSpot, IsWithin, ReadsAt, spot_in};
ghost use Rattle.std.specs.Str.{bytes_eq};

use far_words::Unfit;

/// How many bytes of a record stand before its key.
pub(crate) const HEAD: usize = 4;

/// Where a record stands in a block's bytes: where it begins, where its value does, and where it ends.
#[derive(Clone, Copy, PartialEq, Eq, Debug)]
pub struct Spot {
    pub at: u32,
    pub value: u32,
    pub end: u32,
}

// The two bytes at a place, as a number.
fn short_at(bytes: &[u8], at: usize) -> u16
    requires { at + 2 ≤ length bytes.now }
    ensures { take 2 (drop at bytes.now) ≡ to_be_bytes w16 result }
{
    u16::from_be_bytes([bytes[at], bytes[at + 1]])
}

/// The record that begins at a place, or none where that is the end of the bytes. Unfit comes exactly where no whole
/// record begins there.
pub fn next_spot(bytes: &[u8], at: u32) -> Result<Option<Spot>, Unfit>
    requires few { length bytes.now < 2 ^ 32 }
    requires within { at ≤ length bytes.now }
    ensures reads { ReadsAt bytes.now at result }
    ensures within { IfOk result (λ found. IfSome found (IsWithin bytes.now)) }
{
    let from = at as usize;
    let left = bytes.len() - from;
    if left == 0 {
        return Ok(None);
    }
    if left < HEAD {
        return Err(Unfit { place: at });
    }
    let key = u32::from(short_at(bytes, from));
    let value = u32::from(short_at(bytes, from + 2));
    if left - HEAD < (key + value) as usize {
        return Err(Unfit { place: at });
    }
    let from = at + HEAD as u32 + key;
    Ok(Some(Spot {
        at,
        value: from,
        end: from + value,
    }))
}

// Whether the record in this place has this key.
fn has_key(bytes: &[u8], spot: &Spot, key: &[u8]) -> bool
    requires { IsWithin bytes.now spot.now }
    ensures { result ≡ bytes_eq (slice_range bytes.now (spot.now.at + 4) spot.now.value) key.now }
{
    &bytes[spot.at as usize + HEAD..spot.value as usize] == key
}

/// The place of the record with a key: of the first such record. Unfit comes exactly where the bytes aren't records one
/// after the other, and names the first that isn't whole: all of them are looked at, also those after the key.
pub fn find(bytes: &[u8], key: &[u8]) -> Result<Option<Spot>, Unfit>
    requires { length bytes.now < 2 ^ 32 }
    ensures ok { IfOk result (Finds bytes.now key.now) }
    ensures unfit { IfErr result (λ unfit. IsUnfit bytes.now unfit.place) }
    ensures reads { (records : List Record) → IsBlock bytes.now records → result ≡ Ok (spot_in 0 records key.now) }
    ensures spot { IfOk result (λ found. IfSome found (IsSpot bytes.now)) }
    ensures within { IfOk result (λ found. IfSome found (IsWithin bytes.now)) }
{
    let mut found = None;
    let mut at = 0;
    loop {
        let Some(spot) = next_spot(bytes, at)? else {
            return Ok(found);
        };
        if found.is_none() && has_key(bytes, &spot, key) {
            found = Some(spot);
        }
        at = spot.end;
    }
}
