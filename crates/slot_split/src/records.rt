//! Lists of records.

ghost use Rattle.std.specs.Prelude.{◌≡◌, ℕ, List, ◌+◌, ◌^◌, ◌<◌, ◌∷◌, [], ◌++◌, length, IfOk, IfErr, OnOk, OnErr, HoldsAt};
ghost use Rattle.slot_split.specs.Read.{BlamesRecords};
ghost use Rattle.table_block.specs.Records.{Record, head, records_size, IsBlock, IsUnfit};

use far_words::Unfit;
use std::alloc::{AllocError, Global};
use std::marker::Model;
use table_block::{Spot, next_spot, put_record};

// How many bytes of a record stand before its key.
pub(crate) const HEAD: usize = 4;

/// Records one after the other, as a block has them: contracts see the list of them, each a key and a value.
#[derive(Debug, Drop)]
pub struct Records {
    bytes: Vec<u8>,
    spots: Vec<Spot>,
}

impl Model for Records {
    ghost use Rattle.std.specs.Prelude.{List};
    ghost use Rattle.table_block.specs.Records.{Record};
    ghost use Rattle.slot_split.specs.Held.{records_at, AreHeld};

    ghost Value = { List Record };

    ghost view = { λ records. records_at records.bytes.items records.spots.items };

    ghost invariant = { λ records. AreHeld records.bytes.items records.spots.items };
}

/// Why a block's records could not be read.
#[derive(Clone, Copy, PartialEq, Eq, Debug)]
pub enum RecordsEnd {
    /// The bytes aren't records one after the other.
    Unfit(Unfit),
    NoMemory,
}

impl Records {
    /// No record. It takes no memory until the first push.
    pub fn new(alloc: Global) -> Records
        ensures { result ≡ [] }
    {
        Records {
            bytes: Vec::new(alloc),
            spots: Vec::new(alloc),
        }
    }

    /// How many records these are. The count of their bytes fits 32 bits.
    pub fn len(&self) -> usize
        ensures value { result ≡ length self.now }
        ensures limit { records_size self.now < 2 ^ 32 }
    {
        self.spots.len()
    }

    /// How many bytes they are, one after the other.
    pub fn size(&self) -> u32
        ensures { result ≡ records_size self.now }
    {
        self.bytes.len() as u32
    }

    /// Their bytes, one after the other: those of a block.
    pub fn bytes(&self) -> &[u8]
        ensures { IsBlock result.now self.now }
    {
        self.bytes.as_slice()
    }

    /// The key of a record.
    pub fn key(&self, index: usize) -> &[u8]
        requires { index < length self.now }
        ensures key { HoldsAt (λ r. r.0 ≡ result.now) self.now index }
        ensures fits { length result.now < 2 ^ 16 }
    {
        let spot = &self.spots[index];
        &self.bytes[spot.at as usize + HEAD..spot.value as usize]
    }

    /// The value of a record.
    pub fn value(&self, index: usize) -> &[u8]
        requires { index < length self.now }
        ensures value { HoldsAt (λ r. r.1 ≡ result.now) self.now index }
        ensures fits { length result.now < 2 ^ 16 }
    {
        let spot = &self.spots[index];
        &self.bytes[spot.value as usize..spot.end as usize]
    }

    /// Adds a record at the end. At an `Err` the records stand as they were.
    pub fn push(&mut self, key: &[u8], value: &[u8]) -> Result<(), AllocError>
        requires key_fits { length key.now < 2 ^ 16 }
        requires value_fits { length value.now < 2 ^ 16 }
        requires few { records_size self.old + head + length key.now + length value.now < 2 ^ 32 }
        ensures ok { OnOk result (self.new ≡ self.old ++ (key.now, value.now) ∷ []) }
        ensures err { OnErr result (self.new ≡ self.old) }
    {
        let at = self.bytes.len();
        let from = at + HEAD + key.len();
        let end = from + value.len();
        self.bytes.reserve(end - at)?;
        self.spots.reserve(1)?;
        put_record(&mut self.bytes, key, value);
        self.spots.push_reserved(Spot {
            at: at as u32,
            value: from as u32,
            end: end as u32,
        });
        Ok(())
    }

    /// The records of a block's bytes.
    pub fn read(alloc: Global, bytes: &[u8]) -> Result<Records, RecordsEnd>
        requires { length bytes.now < 2 ^ 32 }
        ensures ok { IfOk result (IsBlock bytes.now) }
        ensures unfit { IfErr result (BlamesRecords bytes.now) }
    {
        let mut records = Records::new(alloc);
        let mut at = 0;
        loop {
            match next_spot(bytes, at)? {
                None => return Ok(records),
                Some(spot) => {
                    records.push(
                        &bytes[spot.at as usize + HEAD..spot.value as usize],
                        &bytes[spot.value as usize..spot.end as usize],
                    )?;
                    at = spot.end;
                }
            }
        }
    }
}

impl From<Unfit> for RecordsEnd {
    ghost use Rattle.slot_split.specs.declared.records.RecordsEnd.TheVariants as ends;

    ghost from_gives = { λ unfit end. end ≡ ends.Unfit unfit };

    fn from(unfit: Unfit) -> RecordsEnd {
        RecordsEnd::Unfit(unfit)
    }
}

impl From<AllocError> for RecordsEnd {
    ghost use Rattle.slot_split.specs.declared.records.RecordsEnd.TheVariants as ends;

    ghost from_gives = { λ _ end. end ≡ ends.NoMemory };

    fn from(_: AllocError) -> RecordsEnd {
        RecordsEnd::NoMemory
    }
}
