//! The plain tables over which a test opens a table.
ghost use Rattle.std.specs.Prelude.{◌≡◌, IfOk, length};
ghost use Rattle.std.specs.List.{All};
ghost use Rattle.std.specs.FinMap as finmap;

use lt_plain::PlainTable;
use lt_table_core::empty_tables;
use std::alloc::{AllocError, Global};

/// `count` empty plain tables.
pub fn plain_tables(alloc: Global, count: usize) -> Result<Vec<PlainTable>, AllocError>
    ensures many { IfOk result (λ tables. length tables.items ≡ count) }
    ensures empty { IfOk result (λ tables. All (λ t. t ≡ finmap.empty) tables.items) }
{
    empty_tables(
        alloc,
        count,
        || -> PlainTable
            ensures { result ≡ finmap.empty }
        { PlainTable::new(alloc) },
    )
}
