ghost use Rattle.std.specs.Prelude.{◌≡◌, ◌*◌, ◌<◌, ◌≤◌, ℕ, IfErr, IfOk, length, pos};
ghost use Rattle.ssd_geo.specs.BaseMatrix.{BaseMatrix, IsAccepted, first_fault, layer_of, parity_entry};
ghost use Rattle.ssd_geo.specs.Codewords.{shift_of};
ghost use Rattle.std.specs.Ordering.{int_eq};
ghost use Rattle.qc_matrix.specs.Fault.{IsFirstFault};

use super::entries::Entries;
use super::fault::CodeFault;
use super::layers::layers_of;
use std::alloc::Global;
use std::marker::Model;

/// A code, by a base matrix that was tested. Contracts see it as the matrix.
#[derive(Drop)]
pub struct Code {
    z: u16,
    mb: u8,
    nb: u8,
    entries: Vec<i16>,
    layers: Vec<Vec<(u16, u16)>>,
}

impl Model for Code {
    ghost use Rattle.std.specs.Prelude.{◌≡◌, ℕ, ◌<◌, [], slice_index_or};
    ghost use Rattle.ssd_geo.specs.BaseMatrix.{BaseMatrix};
    ghost use Rattle.qc_matrix.specs.Layers.{IsCode, code_matrix};

    ghost Value = { BaseMatrix };

    ghost view = { code_matrix };

    ghost invariant = { IsCode };
}

impl Code {
    /// Tests a base matrix, whose entries stand row by row, and makes its code.
    pub fn read(alloc: Global, entries: &[i16], mb: u8, nb: u8, z: u16) -> Result<Code, CodeFault>
        requires z_low { 4 ≤ z }
        requires z_high { z ≤ 1024 }
        requires mb_low { 3 ≤ mb }
        requires mb_high { mb ≤ 16 }
        requires nb_low { mb < nb }
        requires nb_high { nb ≤ 128 }
        requires whole { length entries.now ≡ mb * nb }
        ensures ok { IfOk result (λ code. code ≡ record { z = z; mb = mb; nb = nb; entries = entries.now }) }
        ensures accepted { IfOk result IsAccepted }
        ensures err { IfErr result
            (IsFirstFault (first_fault (record { z = z; mb = mb; nb = nb; entries = entries.now }))) }
    {
        let lent = Entries {
            list: entries,
            mb,
            nb,
            z,
        };
        if let Some((row, col)) = lent.range_fault() {
            return Err(CodeFault::EntryRange { row, col });
        }
        if let Some(row) = lent.column_fault() {
            return Err(CodeFault::ParityColumn { row });
        }
        if let Some((row, col)) = lent.diagonal_fault() {
            return Err(CodeFault::Diagonal { row, col });
        }
        let layers = layers_of(alloc, &lent).map_err(|_| CodeFault::Memory)?;
        let entries = Vec::from_slice(alloc, entries).map_err(|_| CodeFault::Memory)?;
        Ok(Code {
            z,
            mb,
            nb,
            entries,
            layers,
        })
    }

    /// The lifting size.
    pub fn z(&self) -> u16
        ensures value { result ≡ self.now.z }
        ensures accepted { IsAccepted self.now }
    {
        self.z
    }

    /// The number of base rows.
    pub fn mb(&self) -> u8
        ensures value { result ≡ self.now.mb }
        ensures accepted { IsAccepted self.now }
    {
        self.mb
    }

    /// The number of base columns.
    pub fn nb(&self) -> u8
        ensures value { result ≡ self.now.nb }
        ensures accepted { IsAccepted self.now }
    {
        self.nb
    }

    /// The shift of the first and of the last base row in the first parity column.
    pub fn parity_shift(&self) -> u16
        ensures { result ≡ shift_of (parity_entry self.now 0) }
    {
        let entry = self.entries[(self.nb - self.mb) as usize];
        if entry < 0 {
            return 0;
        }
        entry as u16
    }

    /// Whether base row `i` has shift 0 in the first parity column, as the one middle row has.
    pub fn has_zero_shift(&self, i: u8) -> bool
        requires { i < self.now.mb }
        ensures { result ≡ int_eq (parity_entry self.now i) (pos 0) }
    {
        self.entries[i as usize * self.nb as usize + (self.nb - self.mb) as usize] == 0
    }

    /// The blocks of base row `i`, each a column and a shift, in rising columns.
    pub fn layer(&self, i: u8) -> &[(u16, u16)]
        requires { i < self.now.mb }
        ensures { result.now ≡ layer_of self.now i }
    {
        self.layers[i as usize].as_slice()
    }
}
