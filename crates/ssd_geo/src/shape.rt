ghost use Rattle.std.specs.Prelude.{◌≡◌, ◌≢◌, ◌↔◌, ◌*◌, ◌-◌, ◌<◌, ◌≤◌, ◌+◌, ◌/◌, ◌%◌, IsTrue, IsOk, IfOk, IfErr, Some};
ghost use Rattle.ssd_geo.specs.Limits.{IsWithinLimits, code_bytes_of, first_size_fault, is_within, is_word_count, payload_bytes_of, word_bytes_of};
ghost use Rattle.ssd_geo.specs.Stripe.{place_of_parity, place_of_slot};
ghost use Rattle.ssd_geo.specs.Superblock.{slots_of};

use crate::{Place, Slot};

/// The sizes of the drive, of its code and of its pages. They are within the limits, with no factory bad
/// superblock counted.
#[derive(Clone, Copy, Debug, PartialEq, Eq)]
pub struct Shape {
    /// Codewords of each page: one, two or four.
    pub words: u8,
    /// Channels.
    pub channels: u8,
    /// Dies of each channel.
    pub dies: u8,
    /// Superblocks of each channel, which are the blocks of each die.
    pub superblocks: u16,
    /// Pages of each block.
    pub pages: u16,
    /// The lifting size: the bits of one block of a codeword.
    pub z: u16,
    /// Rows of the base matrix.
    pub mb: u8,
    /// Columns of the base matrix.
    pub nb: u8,
    /// Data bytes of each page.
    pub bytes: u32,
    /// Rows of each channel's page map.
    pub rows: u32,
    pub ghost within: { IsWithinLimits (record {
      words = words;
      channels = channels;
      dies = dies;
      superblocks = superblocks;
      pages = pages;
      z = z;
      mb = mb;
      nb = nb;
      bytes = bytes;
      rows = rows;
    }) },
}

/// The first argument of `Shape::new`, counted from 0, that is out of its range.
#[derive(Clone, Copy, Debug, PartialEq, Eq)]
pub struct ShapeFault {
    /// The argument's number.
    pub field: u8,
}

impl Shape {
    ghost use Rattle.ssd_geo.specs.Limits.{Sizes};
    ghost use Rattle.ssd_geo.specs.Shape.{HasSizes, sizes_of};

    /// The shape of these sizes.
    pub fn new(
        words: u8,
        channels: u8,
        dies: u8,
        superblocks: u16,
        pages: u16,
        z: u16,
        mb: u8,
        nb: u8,
        bytes: u32,
        rows: u32,
    ) -> Result<Shape, ShapeFault>
        ensures within { let sizes : Sizes = record {
          words = words;
          channels = channels;
          dies = dies;
          superblocks = superblocks;
          pages = pages;
          z = z;
          mb = mb;
          nb = nb;
          bytes = bytes;
          rows = rows;
        } in
            IsOk result ↔ IsWithinLimits sizes }
        ensures sizes { let sizes : Sizes = record {
          words = words;
          channels = channels;
          dies = dies;
          superblocks = superblocks;
          pages = pages;
          z = z;
          mb = mb;
          nb = nb;
          bytes = bytes;
          rows = rows;
        } in
            IfOk result (λ s. HasSizes s sizes) }
        ensures fault { let sizes : Sizes = record {
          words = words;
          channels = channels;
          dies = dies;
          superblocks = superblocks;
          pages = pages;
          z = z;
          mb = mb;
          nb = nb;
          bytes = bytes;
          rows = rows;
        } in
            IfErr result (λ e. first_size_fault sizes ≡ Some e.field) }
    {
        let field = if !is_word_count(words) {
            0
        } else if !is_in_range(1, channels as u32, 8) {
            1
        } else if !is_in_range(3, dies as u32, 8) {
            2
        } else if !is_in_range(4, superblocks as u32, 256) {
            3
        } else if !is_in_range(2, pages as u32, 256) {
            4
        } else if !is_in_range(4, z as u32, 1024) {
            5
        } else if !is_in_range(3, mb as u32, 16) {
            6
        } else if !is_in_range(mb as u32 + 1, nb as u32, 128)
            || !has_whole_bytes(mb, nb, z)
            || cells(channels, dies, superblocks, pages, page_cells(words, nb, z)) > 1 << 28
        {
            7
        } else if !fits_payload(bytes, words, mb, nb, z) {
            8
        } else if !is_in_range(1, rows, most_rows(dies, superblocks, pages)) {
            9
        } else {
            return Ok(Shape {
                words,
                channels,
                dies,
                superblocks,
                pages,
                z,
                mb,
                nb,
                bytes,
                rows,
            });
        };
        Err(ShapeFault { field })
    }

    /// How many data slots a superblock has.
    pub fn slots(&self) -> u32
        ensures { result ≡ slots_of self.now.pages self.now.dies }
    {
        self.pages as u32 * (self.dies as u32 - 1)
    }

    /// How many bytes a codeword has.
    pub fn code_bytes(&self) -> usize
        ensures bytes { result ≡ code_bytes_of (sizes_of self.now) }
        ensures bits { 8 * result ≡ self.now.nb * self.now.z }
    {
        self.nb as usize * self.z as usize / 8
    }

    /// How many bytes a page's word has: those of all its codewords.
    pub fn word_bytes(&self) -> usize
        ensures bytes { result ≡ word_bytes_of (sizes_of self.now) }
        ensures bits { 8 * result ≡ self.now.words * (self.now.nb * self.now.z) }
    {
        self.words as usize * self.code_bytes()
    }

    /// How many bytes a page's payload has: those of its codewords that aren't parity.
    pub fn payload_bytes(&self) -> usize
        ensures bytes { result ≡ payload_bytes_of (sizes_of self.now) }
        ensures bits { 8 * result ≡ self.now.words * ((self.now.nb - self.now.mb) * self.now.z) }
    {
        self.words as usize * ((self.nb - self.mb) as usize * self.z as usize / 8)
    }

    /// The page where a slot's word stands.
    pub fn place_of(&self, slot: Slot) -> Place
        requires superblock { slot.sb < self.now.superblocks }
        requires index { slot.index < slots_of self.now.pages self.now.dies }
        ensures { result ≡ place_of_slot self.now.dies slot }
    {
        let data = self.dies as u32 - 1;
        let stripe = (slot.index / data) as u16;
        let number = (slot.index % data) as u8;
        let parity = self.parity_place(slot.sb, stripe).die;
        Place {
            die: if number < parity { number } else { number + 1 },
            sb: slot.sb,
            page: stripe,
        }
    }

    /// The page where a stripe's parity stands.
    pub fn parity_place(&self, sb: u16, stripe: u16) -> Place
        requires superblock { sb < self.now.superblocks }
        requires stripe { stripe < self.now.pages }
        ensures { result ≡ place_of_parity self.now.dies sb stripe }
    {
        Place {
            die: ((sb + stripe) % self.dies as u16) as u8,
            sb,
            page: stripe,
        }
    }
}

/// Whether a page may have so many codewords.
fn is_word_count(words: u8) -> bool
    ensures value { result ≡ is_word_count words }
    ensures low { IsTrue result → 1 ≤ words }
    ensures high { IsTrue result → words ≤ 4 }
    ensures not_three { IsTrue result → words ≢ 3 }
{
    is_in_range(1, words as u32, 4) && words != 3
}

/// How many cells a page has.
fn page_cells(words: u8, nb: u8, z: u16) -> u32
    requires words { words ≤ 4 }
    requires nb { nb ≤ 128 }
    requires z { z ≤ 1024 }
    ensures value { result ≡ words * (nb * z) }
    ensures bound { result ≤ 524288 }
{
    words as u32 * (nb as u32 * z as u32)
}

fn cells(channels: u8, dies: u8, superblocks: u16, pages: u16, page_cells: u32) -> u64
    requires channels { channels ≤ 8 }
    requires dies { dies ≤ 8 }
    requires superblocks { superblocks ≤ 256 }
    requires pages { pages ≤ 256 }
    requires page_cells { page_cells ≤ 524288 }
    ensures { result ≡ channels * dies * superblocks * pages * page_cells }
{
    channels as u64 * dies as u64 * superblocks as u64 * pages as u64 * page_cells as u64
}

/// Whether codewords and their parts have whole bytes.
fn has_whole_bytes(mb: u8, nb: u8, z: u16) -> bool
    requires { mb < nb }
    ensures { IsTrue result ↔ (((nb - mb) * z % 8 ≡ 0) × (nb * z % 8 ≡ 0)) }
{
    (nb - mb) as u32 * z as u32 % 8 == 0 && nb as u32 * z as u32 % 8 == 0
}

/// Whether so many data bytes, at least one, stand with a head of 16 bytes in a payload.
fn fits_payload(bytes: u32, words: u8, mb: u8, nb: u8, z: u16) -> bool
    requires words { words ≤ 4 }
    requires columns { mb < nb }
    ensures { IsTrue result ↔ ((1 ≤ bytes) × (bytes + 16 ≤ words * ((nb - mb) * z / 8))) }
{
    let payload = words as u32 * ((nb - mb) as u32 * z as u32 / 8);
    bytes >= 1 && payload >= 16 && bytes <= payload - 16
}

/// The most rows of a channel: those of all superblocks but two, which are kept for collections.
fn most_rows(dies: u8, superblocks: u16, pages: u16) -> u32
    requires dies { 1 ≤ dies }
    requires superblocks { 2 ≤ superblocks }
    requires most { superblocks ≤ 256 }
    requires pages { pages ≤ 256 }
    ensures { result ≡ (superblocks - 2) * (dies - 1) * pages }
{
    (superblocks as u32 - 2) * (dies as u32 - 1) * pages as u32
}

fn is_in_range(low: u32, n: u32, high: u32) -> bool
    ensures { result ≡ is_within low high n }
{
    low <= n && n <= high
}
