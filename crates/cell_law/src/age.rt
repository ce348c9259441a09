ghost use Rattle.std.specs.Prelude.{◌≡◌};
ghost use Rattle.ssd_geo.specs.Cells.{aged_level};

/// The level of a cell after its block was aged.
pub fn age_cell(level: i16, erased: i16, amount: u16) -> i16
    ensures { result ≡ aged_level erased amount level }
{
    if level <= erased {
        return level;
    }
    // In 32 bits, since the difference may pass the range of a level before it is held at the erased one.
    let fallen = i32::from(level) - i32::from(amount);
    if fallen <= i32::from(erased) {
        return erased;
    }
    fallen as i16
}
