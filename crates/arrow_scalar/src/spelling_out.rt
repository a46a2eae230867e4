//! Where spellings go: into a list of bytes, or into a count of them alone.
ghost use Rattle.std.specs.Prelude.{◌≡◌, ◌+◌, ◌-◌, ◌^◌, ◌++◌, ◌∷◌, [], ℕ, List, OnOk, length as count, min, replicate};
ghost use Rattle.arrow_flat.specs.Natives.{octets};
ghost use Rattle.arrow_layout.specs.Spelling.{length_bytes, number_bytes};

use arrow_types::Mem;

/// What takes the bytes of spellings, one after the other.
pub(crate) trait SpellingOut {
    /// The bytes were appended to the first, which became the second.
    ghost Appended: { Self → List ℕ → Self → Type 0 };

    ghost nothing: { (x : Self) → Appended x [] x };

    ghost joined: { (x y z : Self) (bs cs : List ℕ) → Appended x bs y → Appended y cs z
        → Appended x (bs ++ cs) z };

    /// Appends a byte.
    fn push_byte(&mut self, byte: u8) -> Mem<()>
        ensures { OnOk result (Appended self.old (byte ∷ []) self.new) };

    /// Appends the 16 bytes of a number, in two's complement, the lowest first.
    fn push_number(&mut self, number: i128) -> Mem<()>
        ensures { OnOk result (Appended self.old (number_bytes number) self.new) };

    /// Appends the 8 bytes of a length, the lowest first.
    fn push_length(&mut self, length: usize) -> Mem<()>
        ensures { OnOk result (Appended self.old (length_bytes length) self.new) };

    /// Appends bytes.
    fn push_bytes(&mut self, bytes: &[u8]) -> Mem<()>
        ensures { OnOk result (Appended self.old (octets bytes.now) self.new) };

    /// Appends zeros, as nulls are spelled.
    fn push_zeros(&mut self, zeros: usize) -> Mem<()>
        ensures { OnOk result (Appended self.old (replicate zeros 0) self.new) };
}

impl SpellingOut for Vec<u8> {
    ghost use Rattle.arrow_scalar.specs.Appended.{append_nothing, append_both};

    ghost Appended = { λ x bs y. y.items ≡ x.items ++ bs };

    ghost nothing = { λ x. append_nothing x.items };

    ghost joined = { λ x y z bs cs. append_both x.items y.items z.items bs cs };

    fn push_byte(&mut self, byte: u8) -> Mem<()> {
        Ok(self.push(byte)?)
    }

    fn push_number(&mut self, number: i128) -> Mem<()> {
        self.extend_from_slice(&number.to_le_bytes())
    }

    fn push_length(&mut self, length: usize) -> Mem<()> {
        self.extend_from_slice(&length.to_le_bytes())
    }

    fn push_bytes(&mut self, bytes: &[u8]) -> Mem<()> {
        for byte in bytes {
            self.push(*byte)?;
        }
        Ok(())
    }

    fn push_zeros(&mut self, zeros: usize) -> Mem<()> {
        for _zero in 0..zeros {
            self.push(0)?;
        }
        Ok(())
    }
}

/// A count of bytes, which stays at the greatest `usize` once it has come there.
#[derive(Drop)]
pub(crate) struct ByteCount {
    bytes: usize,
}

impl ByteCount {
    /// No bytes.
    pub(crate) fn new() -> ByteCount
        ensures { result.bytes ≡ 0 }
    {
        ByteCount { bytes: 0 }
    }

    /// The count.
    pub(crate) fn get(&self) -> usize
        ensures { result ≡ self.now.bytes }
    {
        self.bytes
    }

    /// Counts more bytes.
    fn add(&mut self, bytes: usize) -> Mem<()>
        ensures { OnOk result (self.new.bytes ≡ min (self.old.bytes + bytes) (2 ^ 64 - 1)) }
    {
        self.bytes = self.bytes.saturating_add(bytes);
        Ok(())
    }
}

impl SpellingOut for ByteCount {
    ghost use Rattle.arrow_scalar.specs.Appended.{Counted, count_nothing, count_both};

    ghost Appended = { λ x bs y. Counted x.bytes (count bs) y.bytes };

    ghost nothing = { λ x. count_nothing x.bytes };

    ghost joined = { λ x y z bs cs. count_both x.bytes y.bytes z.bytes bs cs };

    fn push_byte(&mut self, _byte: u8) -> Mem<()> {
        self.add(1)
    }

    fn push_number(&mut self, _number: i128) -> Mem<()> {
        self.add(16)
    }

    fn push_length(&mut self, _length: usize) -> Mem<()> {
        self.add(8)
    }

    fn push_bytes(&mut self, bytes: &[u8]) -> Mem<()> {
        self.add(bytes.len())
    }

    fn push_zeros(&mut self, zeros: usize) -> Mem<()> {
        self.add(zeros)
    }
}
