// An ownership record as one number, and back: each well-formed record has one number, and each number at most one record.
ghost use Rattle.std.specs.Prelude.{◌≡◌, true, Some};
ghost use Rattle.policy.specs.Orec.{well_formed};
ghost use Rattle.policy.specs.Packing.{packed, unpacked};
ghost use Rattle.policy.specs.declared.orec.OwnershipRecord.{OwnershipRecord};

use crate::orec::{Mode, OwnershipRecord};

const READERS_UNIT: u64 = 4;

const THREAD_UNIT: u64 = 1024;

const VERSION_UNIT: u64 = 65_536;

// Methods: `u64::from(record)` would not say which number it is, and each way has a second promise, on the other.
impl OwnershipRecord {
    pub fn pack(&self) -> u64
        ensures value { result ≡ packed self.now }
        ensures back { well_formed self.now ≡ true → unpacked result ≡ Some self.now }
    {
        u64::from(u8::from(self.mode))
            + READERS_UNIT * u64::from(self.readers)
            + THREAD_UNIT * u64::from(self.thread)
            + VERSION_UNIT * u64::from(self.version)
    }

    pub fn unpack(number: u64) -> Option<OwnershipRecord>
        ensures value { result ≡ unpacked number }
        ensures form { (o : OwnershipRecord) → result ≡ Some o → (packed o ≡ number) × (well_formed o ≡ true) }
    {
        // A number with a field that its type cannot hold is no record's.
        let mode = u8::try_from(number % READERS_UNIT).ok()?;
        let record = OwnershipRecord {
            mode: Mode::try_from(mode).ok()?,
            readers: u8::try_from(number % THREAD_UNIT / READERS_UNIT).ok()?,
            thread: u8::try_from(number % VERSION_UNIT / THREAD_UNIT).ok()?,
            version: u32::try_from(number / VERSION_UNIT).ok()?,
        };
        Some(record).filter(OwnershipRecord::is_well_formed)
    }
}
