//! Which line does a merge take next? [`least_of`] picks the first of the heads with the least key. An earlier run
//! has the earlier lines of a key, so the lines of a key keep their order.
ghost use Rattle.std.specs.Prelude.{◌≡◌, IfSome, IfNone};
ghost use Rattle.std.specs.Option.{option_map};
ghost use Rattle.lt_trace.specs.Heads.{keys_of_heads, IsFirstLeast, HaveEnded, is_below_least};

use crate::line::TraceLine;
use lt_ids::Key;
use std::cmp::Ordering;

fn is_below_least(key: &Key, least: Option<(usize, &Key)>) -> bool
    ensures { result ≡ is_below_least key.now (option_map (λ l. (l.0, l.1.now)) least.entry) }
{
    match least {
        None => true,
        Some((_, other)) => matches!(key.cmp(other), Ordering::Less),
    }
}

/// The index of the first head with the least key, or `None` if all runs have ended.
pub(crate) fn least_of(heads: &[Option<TraceLine>]) -> Option<usize>
    ensures some { IfSome result (IsFirstLeast (keys_of_heads heads.now)) }
    ensures none { IfNone result (HaveEnded (keys_of_heads heads.now)) }
{
    let mut least: Option<(usize, &Key)> = None;
    let mut i = 0;
    for head in heads {
        if let Some(line) = head {
            if is_below_least(&line.key, least) {
                least = Some((i, &line.key));
            }
        }
        i += 1;
    }
    let (index, _) = least?;
    Some(index)
}
