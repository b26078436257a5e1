//! Which keys have the most steps?
ghost use Rattle.std.specs.Prelude.{◌≡◌, ◌≤◌, OnOk, take, not, insert, length};
ghost use Rattle.std.specs.List.{prefix_len};
ghost use Rattle.lt_trace_statistics.specs.Findings.{is_hotter, ranked_with, ranked_after, is_key_of, with_count, wait_count, most_keys};

use crate::summary::HotKey;
use crate::waits::wait_count;
use lt_ids::Key;
use lt_rules::Reply;
use std::alloc::AllocError;

/// How many keys a summary names at most.
pub const MOST_KEYS: usize = 10;

/// Whether this is the latest key.
pub(crate) fn is_key_of(latest: &Option<HotKey>, key: &Key) -> bool
    ensures { result ≡ is_key_of latest.now key.now }
{
    match latest {
        Some(latest) => latest.key == *key,
        None => false,
    }
}

/// Counts a step of the latest key, which has this reply.
pub(crate) fn count_step(latest: &mut Option<HotKey>, reply: &Reply)
    ensures { latest.new ≡ with_count reply.now latest.old }
{
    if let Some(hot) = latest {
        hot.steps = hot.steps.saturating_add(1);
        hot.waits = hot.waits.saturating_add(wait_count(reply));
    }
}

/// Whether one key comes before the other: it has more steps, or as many and the smaller name.
fn is_hotter(one: &HotKey, other: &HotKey) -> bool
    ensures { result ≡ is_hotter one.now other.now }
{
    if one.steps == other.steps {
        one.key < other.key
    } else {
        other.steps < one.steps
    }
}

/// How many of these keys come before this one, up to the first that does not.
fn rank_of(ranked: &[HotKey], hot: &HotKey) -> usize
    ensures rank { result ≡ prefix_len (λ other. not (is_hotter hot.now other)) ranked.now }
    ensures within { result ≤ length ranked.now }
{
    ranked
        .iter()
        .take_while(|other| !is_hotter(hot, other))
        .count()
}

/// Puts a key at its rank, and drops what is behind the tenth.
fn rank(ranked: &mut Vec<HotKey>, hot: HotKey) -> Result<(), AllocError>
    ensures { OnOk result (ranked.new.items ≡ take most_keys (ranked_with hot ranked.old.items)) }
{
    let rank = rank_of(ranked, &hot);
    ranked.insert(rank, hot)?;
    ranked.truncate(MOST_KEYS);
    Ok(())
}

/// Puts the latest key at its rank, if there is one.
pub(crate) fn rank_latest(
    ranked: &mut Vec<HotKey>,
    latest: Option<HotKey>,
) -> Result<(), AllocError>
    ensures { OnOk result (ranked.new.items ≡ ranked_after latest ranked.old.items) }
{
    match latest {
        Some(hot) => rank(ranked, hot),
        None => Ok(()),
    }
}
