//! Does the plain table follow the rules of one key?
//!
//! [`worked`] plays examples that were worked by hand; [`calls`] makes their calls. The linked table plays such
//! examples in the tests of `bindings/`.
//!
//! A call that runs out of memory must have changed nothing and is made again, so these tests pass under any single
//! allocation failure, as injected by `rt try --test --fail-alloc N`.

mod calls;
mod worked;
