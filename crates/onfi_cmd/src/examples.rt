ghost use Rattle.std.specs.Prelude.{◌≡◌, Ok, Err, [], ◌∷◌, ◌++◌, map, pos, negsuc};
ghost use Rattle.onfi_cmd.specs.Addresses.{params_of_level, row_of_page};
ghost use Rattle.onfi_cmd.specs.Cycles.{cycles_of};
ghost use Rattle.onfi_cmd.specs.Reading.{operation_of};
ghost use Rattle.onfi_cmd.specs.declared.cycle.Cycle.TheVariants.{Address, Byte, Command};
ghost use Rattle.onfi_cmd.specs.declared.cycle_fault.CycleFault.TheVariants.{Short};
ghost use Rattle.onfi_cmd.specs.declared.op.Op.TheVariants.{Read, SetFeatures};

/// Set Features of the read level -3 is EFh, 89h, FDh, FFh, 00h, 00h. Without the last cycle it is too short, at 5.
pub fn setting_a_read_level()
    ensures cycles { cycles_of (SetFeatures 0x89 (params_of_level (negsuc 2))) []
        ≡ Command 0xEF ∷ Address 0x89 ∷ Byte 0xFD ∷ Byte 0xFF ∷ Byte 0x00 ∷ Byte 0x00 ∷ [] }
    ensures short { operation_of (Command 0xEF ∷ Address 0x89 ∷ Byte 0xFD ∷ Byte 0xFF ∷ Byte 0x00 ∷ []) ≡ Err (Short 5) }
{}

/// A read of block 5, page 3, in a die with 16 pages a block: 00h, two column cycles, 53h 00h 00h, 30h.
pub fn reading_a_page()
    ensures row { row_of_page 16 5 3 ≡ 0x53 }
    ensures cycles { cycles_of (Read 0 (row_of_page 16 5 3)) []
        ≡ Command 0x00 ∷ map Address (0x00 ∷ 0x00 ∷ 0x53 ∷ 0x00 ∷ 0x00 ∷ []) ++ Command 0x30 ∷ [] }
    ensures back { operation_of (cycles_of (Read 0 (row_of_page 16 5 3)) []) ≡ Ok (Read 0 0x53) }
{}
