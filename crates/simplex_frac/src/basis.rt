ghost use Rattle.std.specs.Prelude.{◌≡◌, ◌+◌, ◌<◌, ◌^◌, IfOk};
ghost use Rattle.sums.specs.Places.{list_below};

use entries::NoMemory;
use std::alloc::Global;

/// The basis of a first table of so many real columns: the columns of the identity block, line by line.
pub fn first_basis(alloc: Global, columns: u32, height: u32) -> Result<Vec<u32>, NoMemory>
    requires { columns + height < 2 ^ 32 }
    ensures { IfOk result (λ basis. basis.items ≡ list_below (λ line. columns + line) height) }
{
    let mut basis = Vec::new(alloc);
    for line in 0..height {
        basis.push(columns + line)?;
    }
    Ok(basis)
}
