ghost use Rattle.std.specs.Prelude.{◌≡◌, ◌+◌, ◌*◌, ◌<◌, ◌≤◌, length, option_map, pos, slice_index_or, negsuc};
ghost use Rattle.std.specs.Ordering.{int_eq};
ghost use Rattle.ssd_geo.specs.BaseMatrix.{IsWithinLimits, block_of_entry, breaks_parity_column, column_fault, diagonal, diagonal_entry, diagonal_fault, entry_at, entry_range, has_middle_before, is_entry_in_range, parity_column, parity_entry, range_fault};

/// The entries of a base matrix, row by row, with its sizes.
#[derive(Clone, Copy)]
pub struct Entries<'a> {
    pub list: &'a [i16],
    pub mb: u8,
    pub nb: u8,
    pub z: u16,
}

impl Entries<'_> {
    ghost use Rattle.qc_matrix.specs.Entries.{matrix_of};

    // The entry in row i and column j.
    pub fn at(&self, i: usize, j: usize) -> i16
        requires row { i < self.now.mb }
        requires column { j < self.now.nb }
        requires whole { length self.now.list.now ≡ self.now.mb * self.now.nb }
        ensures { result ≡ entry_at (matrix_of self.now) i j }
    {
        self.list[i * self.nb as usize + j]
    }

    // The block that the entry makes, if it isn't zero.
    pub fn block(&self, i: u8, column: u8) -> Option<(u16, u16)>
        requires row { i < self.now.mb }
        requires column { column < self.now.nb }
        requires limits { IsWithinLimits (matrix_of self.now) }
        ensures { result ≡ block_of_entry column (entry_at (matrix_of self.now) i column) }
    {
        let entry = self.at(i as usize, column as usize);
        if entry < 0 {
            return None;
        }
        Some((column as u16, entry as u16))
    }

    // Whether that entry is -1 or a shift below the lifting size.
    fn is_in_range(&self, i: usize, j: usize) -> bool
        requires row { i < self.now.mb }
        requires column { j < self.now.nb }
        requires limits { IsWithinLimits (matrix_of self.now) }
        ensures { result ≡ is_entry_in_range self.now.z (entry_at (matrix_of self.now) i j) }
    {
        let entry = self.at(i, j);
        entry >= -1 && entry < self.z as i16
    }

    // The first entry out of range, by its row and column.
    pub fn range_fault(&self) -> Option<(u8, u8)>
        requires { IsWithinLimits (matrix_of self.now) }
        ensures { option_map (λ p. entry_range (p.0) (p.1)) result ≡ range_fault (matrix_of self.now) }
    {
        let width = self.nb as usize;
        for k in 0..self.mb as usize * width {
            if !self.is_in_range(k / width, k % width) {
                return Some(((k / width) as u8, (k % width) as u8));
            }
        }
        None
    }

    // Whether row i breaks the form of the first parity column, where it is known if a middle row before it has a 0.
    fn breaks_parity_column(&self, i: u8, middle: bool) -> bool
        requires row { i < self.now.mb }
        requires limits { IsWithinLimits (matrix_of self.now) }
        requires before { middle ≡ has_middle_before (matrix_of self.now) i }
        ensures { result ≡ breaks_parity_column (matrix_of self.now) i }
    {
        let column = (self.nb - self.mb) as usize;
        let entry = self.at(i as usize, column);
        if i == 0 {
            return entry == -1;
        }
        if i + 1 == self.mb {
            return entry != self.at(0, column) || !middle;
        }
        entry != -1 && (entry != 0 || middle)
    }

    // Whether row i has a 0 in the first parity column.
    fn has_shift_zero(&self, i: u8) -> bool
        requires row { i < self.now.mb }
        requires limits { IsWithinLimits (matrix_of self.now) }
        ensures { result ≡ int_eq (parity_entry (matrix_of self.now) i) (pos 0) }
    {
        self.at(i as usize, (self.nb - self.mb) as usize) == 0
    }

    // Whether row i, or a middle row before it, has a 0 in the first parity column.
    fn has_middle_until(&self, i: u8, middle: bool) -> bool
        requires row { i < self.now.mb }
        requires limits { IsWithinLimits (matrix_of self.now) }
        requires before { middle ≡ has_middle_before (matrix_of self.now) i }
        ensures { result ≡ has_middle_before (matrix_of self.now) (i + 1) }
    {
        if i == 0 {
            return false;
        }
        middle || self.has_shift_zero(i)
    }

    // The first row that breaks the form of the first parity column.
    pub fn column_fault(&self) -> Option<u8>
        requires { IsWithinLimits (matrix_of self.now) }
        ensures { option_map parity_column result ≡ column_fault (matrix_of self.now) }
    {
        let mut middle = false;
        for i in 0..self.mb {
            if self.breaks_parity_column(i, middle) {
                return Some(i);
            }
            middle = self.has_middle_until(i, middle);
        }
        None
    }

    // Whether an entry is that of row i and parity column t of the dual diagonal.
    fn is_diagonal(&self, i: usize, j: usize, t: usize) -> bool
        requires row { i < self.now.mb }
        requires column { j < self.now.nb }
        requires limits { IsWithinLimits (matrix_of self.now) }
        ensures { result ≡ int_eq (entry_at (matrix_of self.now) i j) (diagonal_entry i t) }
    {
        let due = if i == t || i + 1 == t { 0 } else { -1 };
        self.at(i, j) == due
    }

    // The first entry that differs from the dual diagonal, by its row and column.
    pub fn diagonal_fault(&self) -> Option<(u8, u8)>
        requires { IsWithinLimits (matrix_of self.now) }
        ensures { option_map (λ p. diagonal (p.0) (p.1)) result ≡ diagonal_fault (matrix_of self.now) }
    {
        let width = self.mb as usize - 1;
        let first = (self.nb - self.mb) as usize + 1;
        for k in 0..self.mb as usize * width {
            let row = k / width;
            if !self.is_diagonal(row, first + k % width, 1 + k % width) {
                return Some((row as u8, (first + k % width) as u8));
            }
        }
        None
    }
}
