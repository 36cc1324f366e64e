// THE TABLE of the cycles of each operation, and their look-up.
// Rests on formats Limits; the definition is specs Operations `cycles_of`.
#![tactic(auto)]

ghost use Rattle.std.specs.Prelude.{◌≡◌, ◌≤◌};
ghost use Rattle.formats.specs.Limits.{most_operation};
ghost use Rattle.operation_sheet.specs.Operations.{cycles_of};

// Operations 0 to 7 take 1 cycle, 8 to 11 take 2, 12 to 14 take 3, and 15 takes 8.
const CYCLES: [u8; 16] = [1, 1, 1, 1, 1, 1, 1, 1, 2, 2, 2, 2, 3, 3, 3, 8];

/// The cycles of an operation.
pub fn cycles(operation: usize) -> usize
    requires { operation ≤ most_operation }
    ensures { (result ≡ cycles_of operation) × (result ≤ 8) }
{
    CYCLES[operation] as usize
}
