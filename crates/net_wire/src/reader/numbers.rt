ghost use Rattle.std.specs.Prelude.{◌≡◌, ◌≤◌, IfOk, slice_index_or};
ghost use Rattle.spec_reading.specs.Reading as reading;
ghost use Rattle.net_wire.specs.ReaderCalls.{Gives};

use super::Reader;
use crate::Unread;
use ax_types::limits::{MAX_CLIENTS, MAX_LIFE};
use ax_types::{ClientId, Life};

/// The byte at an index, or this one behind the end.
fn padded_byte(byte: u8, bytes: &[u8], i: usize) -> u8
    ensures { result ≡ slice_index_or bytes.now i byte }
{
    if i < bytes.len() { bytes[i] } else { byte }
}

/// The number of the first eight bytes, where those that lack are taken as `byte`.
#[tactic(auto, using(crate::proofs::Forms::eight_padded))]
fn padded_number(byte: u8, bytes: &[u8]) -> u64
    ensures { result ≡ reading.padded_number byte bytes.now }
{
    u64::from_be_bytes([
        padded_byte(byte, bytes, 0),
        padded_byte(byte, bytes, 1),
        padded_byte(byte, bytes, 2),
        padded_byte(byte, bytes, 3),
        padded_byte(byte, bytes, 4),
        padded_byte(byte, bytes, 5),
        padded_byte(byte, bytes, 6),
        padded_byte(byte, bytes, 7),
    ])
}

impl<'a> Reader<'a> {
    /// One byte.
    pub fn read_byte(&mut self) -> Result<u8, Unread>
        ensures { Gives result self.new (reading.byte_at self.old) }
    {
        match self.rest {
            [] => Err(Unread::Part),
            [byte, rest @ ..] => {
                self.rest = rest;
                Ok(*byte)
            }
        }
    }

    /// One byte, from `least` to `most`.
    pub fn read_small(&mut self, least: u8, most: u8) -> Result<u8, Unread>
        ensures { Gives result self.new (reading.small_at least most self.old) }
    {
        let byte = self.read_byte()?;
        if least <= byte && byte <= most {
            Ok(byte)
        } else {
            Err(Unread::Wrong)
        }
    }

    /// A number of eight bytes.
    #[tactic(auto, unfolding(spec_reading::specs::Reading::u64_at))]
    pub fn read_u64(&mut self) -> Result<u64, Unread>
        ensures { Gives result self.new (reading.u64_at self.old) }
    {
        if self.rest.len() < 8 {
            return Err(Unread::Part);
        }
        let (front, rest) = self.rest.split_at(8);
        self.rest = rest;
        Ok(u64::from_be_bytes([
            front[0], front[1], front[2], front[3], front[4], front[5], front[6], front[7],
        ]))
    }

    /// A number of four bytes.
    #[tactic(auto, unfolding(spec_reading::specs::Reading::u32_at))]
    pub fn read_u32(&mut self) -> Result<u32, Unread>
        ensures { Gives result self.new (reading.u32_at self.old) }
    {
        if self.rest.len() < 4 {
            return Err(Unread::Part);
        }
        let (front, rest) = self.rest.split_at(4);
        self.rest = rest;
        Ok(u32::from_be_bytes([front[0], front[1], front[2], front[3]]))
    }

    /// A signed number of eight bytes.
    #[tactic(auto, unfolding(spec_reading::specs::Reading::i64_at))]
    pub fn read_i64(&mut self) -> Result<i64, Unread>
        ensures { Gives result self.new (reading.i64_at self.old) }
    {
        Ok(self.read_u64()?.cast_signed())
    }

    /// A number of eight bytes, from `least` to `most`. Bytes with which no such number begins are wrong, though there
    /// be less than eight.
    #[tactic(auto, using(crate::proofs::Forms::padded_same), unfolding(spec_reading::specs::Reading::within_at))]
    pub fn read_within(&mut self, least: u64, most: u64) -> Result<u64, Unread>
        ensures number { Gives result self.new (reading.within_at least most self.old) }
        ensures within { IfOk result (λ number. (least ≤ number) × (number ≤ most)) }
    {
        let number = padded_number(0, self.rest);
        if padded_number(255, self.rest) < least || most < number {
            return Err(Unread::Wrong);
        }
        if self.rest.len() < 8 {
            return Err(Unread::Part);
        }
        self.rest = &self.rest[8..];
        Ok(number)
    }

    /// A truth value: one byte, 0 or 1.
    pub fn read_truth(&mut self) -> Result<bool, Unread>
        ensures { Gives result self.new (reading.truth_at self.old) }
    {
        match self.read_byte()? {
            0 => Ok(false),
            1 => Ok(true),
            _ => Err(Unread::Wrong),
        }
    }

    /// A client: one byte.
    pub fn read_client(&mut self) -> Result<ClientId, Unread>
        ensures { Gives result self.new (reading.client_at self.old) }
    {
        let number = self.read_small(1, MAX_CLIENTS)?;
        ClientId::new(number).ok_or(Unread::Wrong)
    }

    /// The life of a map's entry: a number of eight bytes.
    pub fn read_life(&mut self) -> Result<Life, Unread>
        ensures { Gives result self.new (reading.life_at self.old) }
    {
        let length = self.read_within(1, MAX_LIFE)?;
        Life::new(length).ok_or(Unread::Wrong)
    }
}
