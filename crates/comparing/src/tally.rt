// Sheets compared one after the other, and counted.
ghost use Rattle.std.specs.Prelude.{◌≡◌, ℕ, ◌+◌, ◌^◌, ◌<◌, IfErr, IfOk};

use crate::differing::{Difference, Differs};
use crate::random::Random;

// Counts sheets by what is found of each.
pub trait Tally: Drop {
    // What is found of one sheet.
    type Found;

    // How many sheets are counted.
    ghost counted: { Self → ℕ };

    fn none() -> Self
        ensures { counted result ≡ 0 };

    // Counts one sheet more.
    fn add(&mut self, found: Self::Found)
        requires { counted self.old + 1 < 2 ^ 32 }
        ensures { counted self.new ≡ counted self.old + 1 };
}

// Counts so many sheets; `compared` makes and compares one. Either none of them differs, or the first that does is named.
// Each public comparison promises these clauses again, of its own counts.
pub fn tallied<T: Tally, F: Fn(&mut Random) -> Result<T::Found, Differs>>(
    random: &mut Random,
    sheets: u32,
    compared: F,
) -> Result<T, Difference>
    requires { F.IsAlwaysCallable compared }
    ensures all { IfOk result (λ tally. T.counted tally ≡ sheets) }
    ensures one { IfErr result (λ difference. difference.sheet < sheets) }
{
    let mut tally = T::none();
    // The number of the turn is the sheet's name in a difference.
    for sheet in 0..sheets {
        let found = compared(random).map_err(|_| Difference { sheet })?;
        tally.add(found);
    }
    Ok(tally)
}
