ghost use Rattle.std.specs.Prelude.{◌≡◌, ◌+◌, ◌≤◌, ℕ, List, Ok, length};
ghost use Rattle.onfi_cmd.specs.Cycles.{HasItsBytes, HasItsFeature, IsOfBytes, Spells, bytes_of_op, cycles_of};
ghost use Rattle.onfi_cmd.specs.Reading.{operation_of};
ghost use Rattle.onfi_cmd.specs.declared.cycle.Cycle.{Cycle};
ghost use Rattle.onfi_cmd.specs.declared.op.Op.{Op};

/// Operations and their cycles match one to one: the cycles of an operation within its conditions say that
/// operation, and cycles that say an operation are the ones of it. The data bytes are those that were sent, and there
/// are at most seven cycles beside them.
pub fn operations_match_cycles()
    ensures there { (cycles : List Cycle) (op : Op) (bytes : List ℕ) → Spells cycles op bytes → operation_of cycles ≡ Ok op }
    ensures back { (cycles : List Cycle) (op : Op) → IsOfBytes cycles → operation_of cycles ≡ Ok op →
        Spells cycles op (bytes_of_op op cycles) }
    ensures data_bytes { (op : Op) (bytes : List ℕ) → HasItsBytes op bytes → bytes_of_op op (cycles_of op bytes) ≡ bytes }
    ensures few { (op : Op) (bytes : List ℕ) → HasItsFeature op → length (cycles_of op bytes) ≤ length bytes + 7 }
{}
