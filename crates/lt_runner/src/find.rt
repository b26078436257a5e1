//! The index of a key in a request's list.
ghost use Rattle.std.specs.Prelude.{◌≡◌, IfSome, slice_get};
ghost use Rattle.lt_ids.specs.declared.request.Access as access;
ghost use Rattle.lt_runner.specs.Machine.{index_of};

use lt_ids::{Access, Key};

fn find_key(keys: &[(Key, Access)], key: &Key) -> Option<usize>
    ensures { result ≡ index_of keys.now key.now }
{
    keys.iter().position(|k| k.0 == *key)
}

/// The index of the key in the list, or `None` if it is not there.
pub(crate) fn index_of(keys: &[(Key, Access)], key: &Key) -> Option<usize>
    ensures index { result ≡ index_of keys.now key.now }
    ensures found { IfSome result (λ index. (a : access.Access) × (slice_get keys.now index ≡ Some (key.now, a))) }
{
    find_key(keys, key)
}
