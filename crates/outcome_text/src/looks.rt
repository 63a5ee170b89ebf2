//! How many lists come to what looks the same.
ghost use Rattle.std.specs.Prelude.{◌≡◌, IfOk, length};
ghost use Rattle.std.specs.HashMap.{hash_map_len};
ghost use Rattle.outcome_text.specs.Looks.{AreSums};
ghost use Rattle.outcome_text.specs.Survey.{new_ones};

use crate::counts::plus;
use crate::survey::Told;
use path_text::NoMemory;
use std::alloc::Global;
use std::collections::HashMap;

/// How many lists come to each look of these outcomes, by its bytes. NoMemory where room was refused.
pub(crate) fn sums_of<'a>(
    alloc: Global,
    all: &'a [Told],
) -> Result<HashMap<&'a [u8], u64>, NoMemory>
    ensures looks { IfOk result (λ sums. hash_map_len sums ≡ length (new_ones all.now)) }
    ensures sums { IfOk result (λ sums. AreSums sums all.now) }
{
    let mut sums = HashMap::new(alloc);
    for told in all {
        let key = told.look.as_slice();
        let before = sums.get(key).copied().unwrap_or(0);
        sums.insert(key, plus(before, told.lists))?;
    }
    Ok(sums)
}
