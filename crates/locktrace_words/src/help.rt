//! What does the help of each command show below its options? Examples, and the exit status.

pub const PROGRAM: &str = "Examples:
  locktrace sort TRACE > HISTORIES
  locktrace check HISTORIES
  locktrace audit TRACE
  locktrace explain HISTORIES
  locktrace show HISTORIES --key orders/7
  locktrace picture HISTORIES --key orders/7 -o orders.svg

Without a command, it checks standard input. docs/FORMATS.md describes the texts.

Exit status: 0 done, 1 the text or the trace is refused, 2 the command line is refused, 4 out of memory,
5 a read or a write failed";

pub const SORT: &str = "Examples:
  locktrace sort TRACE > HISTORIES
  locktrace sort --json --memory 2G --temporary /var/tmp < TRACE > HISTORIES";

pub const CHECK: &str = "Examples:
  locktrace check HISTORIES
  locktrace sort TRACE | locktrace check";

pub const AUDIT: &str = "Examples:
  locktrace audit TRACE
  locktrace audit < TRACE

The trace is not sorted. Beside the steps it has the lines 'PASS asked N.K', 'PASS told N.K' and 'PASS gave-up N.K' of a
waiting layer. docs/FORMATS.md has the rules.";

pub const EXPLAIN: &str = "Example:
  locktrace explain HISTORIES

Of a legal text, it writes the waits, the longest queue, the longest wait and the ten keys with the most steps.";

pub const SHOW: &str = "Examples:
  locktrace show HISTORIES
  locktrace show HISTORIES --key orders/7 --from 100 --to 120
  locktrace show HISTORIES --width 200 --colour always | less -R

On a terminal, the width is that of the environment's COLUMNS, or 80, and there are colours unless NO_COLOR is set.
Otherwise the width is 120, and there are none";

pub const PICTURE: &str = "Examples:
  locktrace picture HISTORIES --key orders/7 -o orders.svg
  locktrace picture HISTORIES --key orders/7 --from 100 --to 120 --html -o orders.html";
