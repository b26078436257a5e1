//! How does a caller call a function that is generic over a book's name, for a book that it has just opened?
ghost use Rattle.std.specs.Prelude.{◌≡◌, IfOk, []};

use lt_words::{Book, Front, Name, abandon_all};
use std::alloc::{AllocError, Global};
use std::marker::Brand;

/// A new seen prefix for a shard of the book that `N` names.
fn front_of<N: Name>(book: &Book) -> Front
    requires { book.now ≡ N.of }
    ensures of { result.of ≡ N.of }
    ensures seen { result.seen ≡ [] }
{
    book.front()
}

/// Opens a book and uses it under a name. The compiled code is the same for every name, so the call uses `Brand`,
/// and the proof chooses the book that this name denotes.
pub fn open_by_name(alloc: Global) -> Result<(Book, Front), AllocError>
    ensures { IfOk result (λ r. r.1.of ≡ r.0) }
{
    let (book, passes) = Book::open(alloc, 2, 2)?;
    abandon_all(passes);
    let front = front_of::<Brand>(&book);
    Ok((book, front))
}
