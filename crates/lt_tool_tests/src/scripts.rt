//! What does the run of a script write, and how does it end?
//! Each row of `RUNS` is what the run shows, a script and its whole output; `NOTED` has what a gate is asked and told.
//! Read next `gates` and `streams`; `docs/FORMATS.md` explains the texts. tools/gate/compare_runs has other options,
//! scripts that are cut, and long ones.
ghost use Rattle.lockrun_words.specs.Options.{AreInRange};

use lt_tool::{Finish, Gate, Options, RunError, run_script, run_script_with};
use lt_tool_test_kit::gates::{Between, Crossed, GateNotes, GateTold, Late};
use lt_tool_test_kit::options::options;
use lt_tool_test_kit::streams::{FAULTS_OF_READS, FAULTS_OF_WRITES, Paper, Torn, blank};
use std::alloc::Global;
use std::io::{ErrorKind, Read};
use std::process::Abort;
use std::random::RandomSource;
use std::sync::Wait;
use std::test::*;
use std::thread::Threads;

/// What each run shows, its script, and its output. Eight runs are the scripts of `examples/`, whose files have
/// the same output.
const RUNS: [(&'static str, &'static str, &'static str); 32] = [
    ("an empty script", "", "locks 2\n"),
    (
        "a reader at the time of the holder waits",
        "1 acquire 7 20.0 a\n2 open 8 20.0 a:r\n2 scan\n2 look a\n",
        "1 1 taken\n2 2 request 1\n2 3 waiting a\n2 4 first 7 held\nlocks 2\na 1 1 acquire 7 20.0 = taken\na 2 2 visit 1.1 8 20.0 r = wait\na 3 2 look 1 = first 7 held\n",
    ),
    (
        "examples/a-reader-below-the-lock-passes",
        "1 acquire 7 20.0 a\n2 open 8 19.4294967295 a:r\n2 scan\n3 open 9 20.1 a:r\n3 scan\n1 finish 7 a\n",
        "1 1 taken\n1 6 freed\n2 2 request 1\n2 3 proceed\n3 4 request 2\n3 5 waiting a\nlocks 2\na 1 1 acquire 7 20.0 = taken\na 2 2 visit 1.1 8 19.4294967295 r = pass\na 3 3 visit 2.1 9 20.1 r = wait\na 4 1 finish 7 = freed let 2.1\n",
    ),
    (
        "examples/writers-go-by-number",
        "3 acquire 9 10.0 a\n1 open 1 10.0 a:w\n2 open 2 10.0 a:w\n2 scan\n1 scan\n3 finish 9 a\n1 await\n2 look a\n",
        "1 2 request 1\n1 5 waiting a\n1 7 let\n2 3 request 2\n2 4 waiting a\n2 8 first 1 reserved\n3 1 taken\n3 6 freed\nlocks 2\na 1 3 acquire 9 10.0 = taken\na 2 2 visit 2.1 2 10.0 w = wait\na 3 1 visit 1.1 1 10.0 w = wait\na 4 3 finish 9 = freed let 1.1\na 5 2 look 2 = first 1 reserved\n",
    ),
    (
        "a smaller number takes the reservation",
        "3 acquire 9 10.0 a\n1 open 1 10.0 a:w\n2 open 2 10.0 a:w\n2 scan\n3 finish 9 a\n1 scan\n2 look a\n1 look a\n",
        "1 2 request 1\n1 6 proceed\n1 8 reserved\n2 3 request 2\n2 4 waiting a\n2 7 idle\n3 1 taken\n3 5 freed\nlocks 2\na 1 3 acquire 9 10.0 = taken\na 2 2 visit 2.1 2 10.0 w = wait\na 3 3 finish 9 = freed let 2.1\na 4 1 visit 1.1 1 10.0 w = pass\na 5 2 look 2 = idle\na 6 1 look 1 = reserved\n",
    ),
    (
        "examples/a-reservation-is-passed-over",
        "3 acquire 9 10.0 a\n1 open 1 10.0 a:w\n2 open 2 10.0 a:w\n2 scan\n3 finish 9 a\n1 scan\n2 look a\n1 look a\n1 acquire 1 11.0 a\n1 finish 1 a\n2 look a\n2 await\n2 scan\n2 scan\n",
        "1 2 request 1\n1 6 proceed\n1 8 reserved\n1 9 taken\n1 10 freed\n2 3 request 2\n2 4 waiting a\n2 7 idle\n2 11 reserved\n2 12 let\n2 13 rescan\n2 14 proceed\n3 1 taken\n3 5 freed\nlocks 2\na 1 3 acquire 9 10.0 = taken\na 2 2 visit 2.1 2 10.0 w = wait\na 3 3 finish 9 = freed let 2.1\na 4 1 visit 1.1 1 10.0 w = pass\na 5 2 look 2 = idle\na 6 1 look 1 = reserved\na 7 1 acquire 1 11.0 = taken\na 8 1 finish 1 = freed\na 9 2 look 2 = reserved\na 10 2 visit 2.2 2 10.0 w = pass\n",
    ),
    (
        "a lock is taken over a reservation",
        "3 acquire 9 10.0 a\n1 open 1 10.0 a:w\n2 open 2 10.0 a:w\n1 scan\n2 scan\n3 finish 9 a\n3 acquire 5 12.0 a\n1 look a\n2 look a\n",
        "1 2 request 1\n1 4 waiting a\n1 8 idle\n2 3 request 2\n2 5 waiting a\n2 9 first 5 held\n3 1 taken\n3 6 freed\n3 7 taken\nlocks 2\na 1 3 acquire 9 10.0 = taken\na 2 1 visit 1.1 1 10.0 w = wait\na 3 2 visit 2.1 2 10.0 w = wait\na 4 3 finish 9 = freed let 1.1\na 5 3 acquire 5 12.0 = taken\na 6 1 look 1 = idle\na 7 2 look 2 = first 5 held\n",
    ),
    (
        "examples/nobody-waits-for-himself",
        "3 acquire 9 10.0 a\n1 open 4 10.0 a:w\n2 open 4 10.0 a:w\n1 scan\n2 scan\n3 finish 9 a\n2 look a\n1 acquire 4 10.0 a\n2 await\n",
        "1 2 request 1\n1 4 waiting a\n1 8 taken\n2 3 request 2\n2 5 waiting a\n2 7 own 4\n2 9 let\n3 1 taken\n3 6 freed\nlocks 2\na 1 3 acquire 9 10.0 = taken\na 2 1 visit 1.1 4 10.0 w = wait\na 3 2 visit 2.1 4 10.0 w = wait\na 4 3 finish 9 = freed let 1.1\na 5 2 look 2 = own 4\na 6 1 acquire 4 10.0 = taken let 2.1\n",
    ),
    (
        "a raised time lets the readers below it through",
        "3 acquire 9 10.0 a\n1 open 1 12.0 a:r\n1 scan\n2 open 2 15.0 a:r\n2 scan\n3 update 9 15.0 a\n1 await\n2 look a\n2 await\n",
        "1 2 request 1\n1 3 waiting a\n1 7 let\n2 4 request 2\n2 5 waiting a\n2 8 first 9 held\n2 9 waiting\n3 1 taken\n3 6 raised\nlocks 2\na 1 3 acquire 9 10.0 = taken\na 2 1 visit 1.1 1 12.0 r = wait\na 3 2 visit 2.1 2 15.0 r = wait\na 4 3 update 9 15.0 = raised let 1.1\na 5 2 look 2 = first 9 held\n",
    ),
    (
        "a lower time is kept, and others change nothing",
        "1 acquire 7 20.0 a\n1 acquire 7 5.0 a\n1 update 7 20.0 a\n2 acquire 8 30.0 a\n2 update 8 40.0 a\n2 finish 8 a\n2 finish 8 b\n",
        "1 1 taken\n1 2 kept\n1 3 kept\n2 4 other\n2 5 other\n2 6 other\n2 7 other\nlocks 2\na 1 1 acquire 7 20.0 = taken\na 2 1 acquire 7 5.0 = kept\na 3 1 update 7 20.0 = kept\na 4 2 acquire 8 30.0 = other\na 5 2 update 8 40.0 = other\na 6 2 finish 8 = other\nb 1 2 finish 8 = other\n",
    ),
    (
        "a leave gives the reservation on",
        "3 acquire 9 10.0 a\n1 open 1 10.0 a:w\n2 open 2 10.0 a:w\n1 scan\n2 scan\n3 finish 9 a\n1 leave\n2 await\n2 leave\n3 open 6 1.0 a:r\n3 leave\n",
        "1 2 request 1\n1 4 waiting a\n1 7 done\n2 3 request 2\n2 5 waiting a\n2 8 let\n2 9 done\n3 1 taken\n3 6 freed\n3 10 request 3\n3 11 done\nlocks 2\na 1 3 acquire 9 10.0 = taken\na 2 1 visit 1.1 1 10.0 w = wait\na 3 2 visit 2.1 2 10.0 w = wait\na 4 3 finish 9 = freed let 1.1\na 5 1 leave 1 = left let 2.1\na 6 2 leave 2 = left\na 7 3 leave 3 = absent\n",
    ),
    (
        "a scan of a request that waits is refused",
        "1 acquire 7 20.0 a\n2 open 8 20.0 a:r\n2 scan\n2 look a\n2 scan\n",
        "1 1 taken\n2 2 request 1\n2 3 waiting a\n2 4 first 7 held\n2 5 refused StillWaiting\nlocks 2\na 1 1 acquire 7 20.0 = taken\na 2 2 visit 1.1 8 20.0 r = wait\na 3 2 look 1 = first 7 held\n",
    ),
    (
        "a key of 64 bytes",
        "1 open 1 1.0 kkkkkkkkkkkkkkkkkkkkkkkkkkkkkkkkkkkkkkkkkkkkkkkkkkkkkkkkkkkkkkkk:r\n1 scan\n",
        "1 1 request 1\n1 2 proceed\nlocks 2\nkkkkkkkkkkkkkkkkkkkkkkkkkkkkkkkkkkkkkkkkkkkkkkkkkkkkkkkkkkkkkkkk 1 1 visit 1.1 1 1.0 r = pass\n",
    ),
    (
        "readers are let through before the first writer",
        "4 acquire 9 10.0 a\n1 open 1 12.0 a:r\n1 scan\n2 open 2 15.0 a:r\n2 scan\n3 open 3 1.0 a:w\n3 scan\n4 finish 9 a\n3 look a\n",
        "1 2 request 1\n1 3 waiting a\n2 4 request 2\n2 5 waiting a\n3 6 request 3\n3 7 waiting a\n3 9 reserved\n4 1 taken\n4 8 freed\nlocks 2\na 1 4 acquire 9 10.0 = taken\na 2 1 visit 1.1 1 12.0 r = wait\na 3 2 visit 2.1 2 15.0 r = wait\na 4 3 visit 3.1 3 1.0 w = wait\na 5 4 finish 9 = freed let 2.1 1.1 3.1\na 6 3 look 3 = reserved\n",
    ),
    (
        "examples/the-distinguished-waiter-leaves",
        "4 acquire 9 10.0 a\n1 open 1 12.0 a:r\n1 scan\n2 open 2 15.0 a:r\n2 scan\n3 open 3 1.0 a:w\n3 scan\n3 look a\n1 leave\n3 look a\n2 look a\n",
        "1 2 request 1\n1 3 waiting a\n1 9 done\n2 4 request 2\n2 5 waiting a\n2 11 first 9 held\n3 6 request 3\n3 7 waiting a\n3 8 for 9 held\n3 10 for 9 held\n4 1 taken\nlocks 2\na 1 4 acquire 9 10.0 = taken\na 2 1 visit 1.1 1 12.0 r = wait\na 3 2 visit 2.1 2 15.0 r = wait\na 4 3 visit 3.1 3 1.0 w = wait\na 5 3 look 3 = for 9 held\na 6 1 leave 1 = left\na 7 3 look 3 = for 9 held\na 8 2 look 2 = first 9 held\n",
    ),
    (
        "two keys apart",
        "1 acquire 7 20.0 a\n2 acquire 8 20.0 b\n1 finish 7 a\n2 finish 8 b\n",
        "1 1 taken\n1 3 freed\n2 2 taken\n2 4 freed\nlocks 2\na 1 1 acquire 7 20.0 = taken\na 2 1 finish 7 = freed\nb 1 2 acquire 8 20.0 = taken\nb 2 2 finish 8 = freed\n",
    ),
    (
        "a scan without a request",
        "1 scan\n",
        "1 1 none\nlocks 2\n",
    ),
    (
        "a look at a key that was not named",
        "1 open 7 1.0 a:r\n1 look b\n",
        "1 1 request 1\n1 2 stranger\nlocks 2\n",
    ),
    (
        "an update of a pass with a request",
        "1 open 7 1.0 a:w\n1 acquire 7 1.0 a\n1 update 7 2.0 a\n",
        "1 1 request 1\n1 2 taken\n1 3 raised\nlocks 2\na 1 1 acquire 7 1.0 = taken\na 2 1 update 7 2.0 = raised\n",
    ),
    (
        "a let of an earlier wait lets nothing through",
        "2 acquire 9 1.0 a\n2 acquire 9 1.0 b\n1 open 1 1.0 a:w\n1 scan\n2 finish 9 a\n1 leave\n1 open 1 1.0 b:w\n1 scan\n1 await\n2 finish 9 b\n1 await\n",
        "1 3 request 1\n1 4 waiting a\n1 6 done\n1 7 request 2\n1 8 waiting b\n1 9 waiting\n1 11 let\n2 1 taken\n2 2 taken\n2 5 freed\n2 10 freed\nlocks 2\na 1 2 acquire 9 1.0 = taken\na 2 1 visit 1.1 1 1.0 w = wait\na 3 2 finish 9 = freed let 1.1\na 4 1 leave 1 = left\nb 1 2 acquire 9 1.0 = taken\nb 2 1 visit 2.1 1 1.0 w = wait\nb 3 2 finish 9 = freed let 2.1\n",
    ),
    (
        "examples/a-scan-over-three-keys",
        "2 acquire 9 10.0 b\n1 open 1 20.0 c:r a:w b:w\n1 scan\n1 await\n2 finish 9 b\n1 await\n1 scan\n1 scan\n1 await\n",
        "1 2 request 1\n1 3 waiting b\n1 4 waiting\n1 6 let\n1 7 rescan\n1 8 proceed\n1 9 idle\n2 1 taken\n2 5 freed\nlocks 2\na 1 1 visit 1.1 1 20.0 w = pass\na 2 1 visit 1.2 1 20.0 w = pass\nb 1 2 acquire 9 10.0 = taken\nb 2 1 visit 1.1 1 20.0 w = wait\nb 3 2 finish 9 = freed let 1.1\nb 4 1 visit 1.2 1 20.0 w = pass\nc 1 1 visit 1.2 1 20.0 r = pass\nc 2 1 visit 1.2 1 20.0 r = pass\n",
    ),
    (
        "a request without a key",
        "1 open 1 1.0\n1 scan\n",
        "1 1 refused NoKeys\n1 2 none\nlocks 2\n",
    ),
    (
        "a key that is named twice is visited once, as a write",
        "1 open 1 1.0 a:r a:w\n1 scan\n",
        "1 1 request 1\n1 2 proceed\nlocks 2\na 1 1 visit 1.1 1 1.0 w = pass\n",
    ),
    (
        "a pass with a request opens no other one",
        "1 open 1 1.0 a:r\n1 open 2 1.0 b:r\n1 leave\n1 open 2 1.0 b:r\n",
        "1 1 request 1\n1 2 busy\n1 3 done\n1 4 request 2\nlocks 2\na 1 1 leave 1 = absent\n",
    ),
    (
        "examples/writers-without-a-transaction",
        "4 acquire 9 10.0 a\n1 open - 1.0 a:w\n1 scan\n2 open 2 1.0 a:w\n2 scan\n3 open - 1.0 a:w\n3 scan\n4 finish 9 a\n3 look a\n2 leave\n3 await\n",
        "1 2 request 1\n1 3 waiting a\n2 4 request 2\n2 5 waiting a\n2 10 done\n3 6 request 3\n3 7 waiting a\n3 9 first 2 reserved\n3 11 let\n4 1 taken\n4 8 freed\nlocks 2\na 1 4 acquire 9 10.0 = taken\na 2 1 visit 1.1 - 1.0 w = wait\na 3 2 visit 2.1 2 1.0 w = wait\na 4 3 visit 3.1 - 1.0 w = wait\na 5 4 finish 9 = freed let 1.1 2.1\na 6 3 look 3 = first 2 reserved\na 7 2 leave 2 = left let 3.1\n",
    ),
    (
        "a request without a transaction passes where a greater number has the lock reserved, and leaves it reserved",
        "4 acquire 9 10.0 a\n1 open - 1.0 a:w\n2 open 2 1.0 a:w\n2 scan\n4 finish 9 a\n1 scan\n2 look a\n3 open - 1.0 a:w\n3 scan\n3 look a\n",
        "1 2 request 1\n1 6 proceed\n2 3 request 2\n2 4 waiting a\n2 7 reserved\n3 8 request 3\n3 9 waiting a\n3 10 first 2 reserved\n4 1 taken\n4 5 freed\nlocks 2\na 1 4 acquire 9 10.0 = taken\na 2 2 visit 2.1 2 1.0 w = wait\na 3 4 finish 9 = freed let 2.1\na 4 1 visit 1.1 - 1.0 w = pass\na 5 2 look 2 = reserved\na 6 3 visit 3.1 - 1.0 w = wait\na 7 3 look 3 = first 2 reserved\n",
    ),
    (
        "examples/a-bound-on-a-queue",
        "4 acquire 9 10.0 a\n1 open 1 1.0 a:w\n1 scan\n2 open 2 1.0 max=1 a:w\n2 scan\n2 await\n3 open 3 1.0 max=2 a:w\n3 scan\n4 finish 9 a\n2 scan\n2 leave\n",
        "1 2 request 1\n1 3 waiting a\n2 4 request 2\n2 5 long a\n2 6 idle\n2 10 long a\n2 11 done\n3 7 request 3\n3 8 waiting a\n4 1 taken\n4 9 freed\nlocks 2\na 1 4 acquire 9 10.0 = taken\na 2 1 visit 1.1 1 1.0 w = wait\na 3 2 visit 2.1 2 1.0 w max=1 = long\na 4 3 visit 3.1 3 1.0 w max=2 = wait\na 5 4 finish 9 = freed let 1.1\na 6 2 visit 2.1 2 1.0 w max=1 = long\na 7 2 leave 2 = absent\n",
    ),
    (
        "a request that stands already is not refused by its bound",
        "3 acquire 9 10.0 a\n1 open 1 10.0 a:w\n2 open 2 10.0 max=1 a:w\n2 scan\n3 finish 9 a\n1 scan\n2 scan\n2 scan\n2 await\n",
        "1 2 request 1\n1 6 proceed\n2 3 request 2\n2 4 waiting a\n2 7 rescan\n2 8 waiting a\n2 9 waiting\n3 1 taken\n3 5 freed\nlocks 2\na 1 3 acquire 9 10.0 = taken\na 2 2 visit 2.1 2 10.0 w max=1 = wait\na 3 3 finish 9 = freed let 2.1\na 4 1 visit 1.1 1 10.0 w = pass\na 5 2 visit 2.2 2 10.0 w max=1 = wait\n",
    ),
    (
        "the visits before a queue that is too long stand, and the next scan begins at the first key",
        "3 acquire 9 10.0 b\n1 open 1 1.0 b:w\n1 scan\n2 open 2 1.0 max=1 a:w b:w\n2 scan\n2 await\n1 leave\n2 scan\n3 finish 9 b\n2 scan\n2 scan\n",
        "1 2 request 1\n1 3 waiting b\n1 7 done\n2 4 request 2\n2 5 long b\n2 6 idle\n2 8 waiting b\n2 10 rescan\n2 11 proceed\n3 1 taken\n3 9 freed\nlocks 2\na 1 2 visit 2.1 2 1.0 w max=1 = pass\na 2 2 visit 2.1 2 1.0 w max=1 = pass\na 3 2 visit 2.2 2 1.0 w max=1 = pass\nb 1 3 acquire 9 10.0 = taken\nb 2 1 visit 1.1 1 1.0 w = wait\nb 3 2 visit 2.1 2 1.0 w max=1 = long\nb 4 1 leave 1 = left\nb 5 2 visit 2.1 2 1.0 w max=1 = wait\nb 6 3 finish 9 = freed let 2.1\nb 7 2 visit 2.2 2 1.0 w max=1 = pass\n",
    ),
    (
        "a queue that is too long ends a scan that was let through, and its wait is forgotten",
        "3 acquire 9 10.0 a\n3 acquire 9 10.0 b\n1 open 1 1.0 b:w\n1 scan\n2 open 2 1.0 max=1 a:w b:w\n2 scan\n3 finish 9 a\n2 scan\n2 await\n2 look a\n2 look b\n3 finish 9 b\n1 leave\n2 scan\n2 leave\n",
        "1 3 request 1\n1 4 waiting b\n1 13 done\n2 5 request 2\n2 6 waiting a\n2 8 long b\n2 9 idle\n2 10 reserved\n2 11 nothing\n2 14 proceed\n2 15 done\n3 1 taken\n3 2 taken\n3 7 freed\n3 12 freed\nlocks 2\na 1 3 acquire 9 10.0 = taken\na 2 2 visit 2.1 2 1.0 w max=1 = wait\na 3 3 finish 9 = freed let 2.1\na 4 2 look 2 = reserved\na 5 2 visit 2.2 2 1.0 w max=1 = pass\na 6 2 leave 2 = left\nb 1 3 acquire 9 10.0 = taken\nb 2 1 visit 1.1 1 1.0 w = wait\nb 3 2 visit 2.2 2 1.0 w max=1 = long\nb 4 2 look 2 = nothing\nb 5 3 finish 9 = freed let 1.1\nb 6 1 leave 1 = left\nb 7 2 visit 2.2 2 1.0 w max=1 = pass\nb 8 2 leave 2 = absent\n",
    ),
    (
        "a bound that ends like an access is a key",
        "1 open 7 1.0 max=0:r\n1 scan\n",
        "1 1 request 1\n1 2 proceed\nlocks 2\nmax=0 1 1 visit 1.1 7 1.0 r = pass\n",
    ),
    (
        "the greatest pass, transaction, time and bound",
        "64 acquire 18446744073709551615 18446744073709551615.4294967295 a\n64 open 18446744073709551615 18446744073709551615.4294967295 max=4294967295 b:w\n64 scan\n1 open - 18446744073709551615.4294967295 a:r\n1 scan\n1 look a\n",
        "1 4 request 2\n1 5 waiting a\n1 6 first 18446744073709551615 held\n64 1 taken\n64 2 request 1\n64 3 proceed\nlocks 2\na 1 64 acquire 18446744073709551615 18446744073709551615.4294967295 = taken\na 2 1 visit 2.1 - 18446744073709551615.4294967295 r = wait\na 3 1 look 2 = first 18446744073709551615 held\nb 1 64 visit 1.1 18446744073709551615 18446744073709551615.4294967295 w max=4294967295 = pass\n",
    ),
];

/// Two passes, each with a key of its own.
const TWO_KEYS: &str = "1 acquire 7 20.0 a\n2 acquire 8 20.0 b\n1 finish 7 a\n2 finish 8 b\n";

const TWO_KEYS_ANSWERED: &str =
    "1 1 taken\n1 3 freed\n2 2 taken\n2 4 freed\nlocks 2\na 1 1 acquire 7 20.0 = taken\na 2 1 finish 7 = freed\nb 1 2 acquire 8 20.0 = taken\nb 2 2 finish 8 = freed\n";

/// The output of `TWO_KEYS` if its last line does not run.
const TWO_KEYS_BUT_ONE_LINE: &str =
    "1 1 taken\n1 3 freed\n2 2 taken\nlocks 2\na 1 1 acquire 7 20.0 = taken\na 2 1 finish 7 = freed\nb 1 2 acquire 8 20.0 = taken\n";

type RunEnding = Result<Finish, RunError>;

/// Runs the script, and runs it a second time if it ran out of memory and has written nothing.
fn run_by<H: Threads + Wait + RandomSource + Sync, R: Read + Drop>(
    rt: &H,
    alloc: Global,
    mut readers: [R; 2],
    writer: &mut Paper,
    options: &Options,
) -> RunEnding
    requires { AreInRange options.now }
{
    for reader in &mut readers {
        let ended = run_script(rt, alloc, reader, writer, options);
        if ended != Err(RunError::Memory) || !writer.written().is_empty() {
            return ended;
        }
    }
    Err(RunError::Memory)
}

/// The same with the default options.
fn run_of<H: Threads + Wait + RandomSource + Sync, R: Read + Drop>(
    rt: &H,
    alloc: Global,
    readers: [R; 2],
    writer: &mut Paper,
) -> RunEnding {
    run_by(rt, alloc, readers, writer, &Options::default())
}

/// Runs the script of a row, and asserts how the run ends and what it writes.
fn expect_output<H: Threads + Wait + RandomSource + Sync + Abort>(
    rt: &H,
    alloc: Global,
    run: &(&'static str, &'static str, &'static str),
    at_once: usize,
    options: &Options,
    finish: Finish,
)
    requires { AreInRange options.now }
{
    let (what, script, output) = *run;
    let mut writer = blank(at_once, 1024);
    let readers = [script.as_bytes(), script.as_bytes()];
    let ended = run_by(rt, alloc, readers, &mut writer, options);
    assert!(rt; ended == Ok(finish), "{what}");
    assert!(rt; writer.written() == output.as_bytes(), "{what}");
}

/// Each script has its answers and histories with few shards and with many, and also if the writer takes three
/// bytes at a time.
#[test]
fn scripts_give_their_answers_and_their_steps(rt: HostRuntime) {
    for run in &RUNS {
        for (shards, at_once) in [(1, 1024), (4, 3), (64, 1024)] {
            let options = options(shards, 1000000, false, 1000000);
            expect_output(&rt, rt.alloc(), run, at_once, &options, Finish::Done);
        }
    }
}

/// Runs a script with this gate.
fn run_gated<H: Threads + Wait + RandomSource + Sync, G: Gate + Sync>(
    rt: &H,
    alloc: Global,
    script: &str,
    threads: bool,
    gate: &G,
    writer: &mut Paper,
) -> RunEnding {
    let options = options(4, 1000000, threads, 1000000000);
    run_script_with(rt, alloc, &mut script.as_bytes(), writer, &options, gate)
}

/// A run with a gate that notes its calls: the script, whether the passes run on threads, the line before which
/// the gate answers false (0 for none), and how the run ends; the pass whose notes are compared, or none for all
/// passes; and the expected notes.
type Noted = (
    &'static str,
    bool,
    usize,
    Finish,
    Option<u64>,
    &'static [u64],
);

/// Two passes. Skipped lines count in the numbers of the lines.
const LINES_OF_TWO: &str =
    "# 1\n1 acquire 7 20.0 a\n2 acquire 8 20.0 b\n\n1 finish 7 a\n2 finish 8 b\n";

/// Without threads the gate is asked in the order of the script, and with threads in the order of each pass. If it
/// answers false before a line, it is not told of that line, and not asked for a later line of its pass.
const NOTED: [Noted; 9] = [
    (
        LINES_OF_TWO,
        false,
        0,
        Finish::Done,
        None,
        &[120, 121, 230, 231, 150, 151, 260, 261],
    ),
    (
        LINES_OF_TWO,
        false,
        5,
        Finish::TurnsOut,
        None,
        &[120, 121, 230, 231, 150, 260, 261],
    ),
    (
        LINES_OF_TWO,
        false,
        3,
        Finish::TurnsOut,
        None,
        &[120, 121, 230, 150, 151],
    ),
    (
        LINES_OF_TWO,
        true,
        0,
        Finish::Done,
        Some(1),
        &[120, 121, 150, 151],
    ),
    (
        LINES_OF_TWO,
        true,
        0,
        Finish::Done,
        Some(2),
        &[230, 231, 260, 261],
    ),
    (
        LINES_OF_TWO,
        true,
        5,
        Finish::TurnsOut,
        Some(1),
        &[120, 121, 150],
    ),
    (
        LINES_OF_TWO,
        true,
        5,
        Finish::TurnsOut,
        Some(2),
        &[230, 231, 260, 261],
    ),
    (LINES_OF_TWO, true, 3, Finish::TurnsOut, Some(2), &[230]),
    (
        LINES_OF_TWO,
        true,
        3,
        Finish::TurnsOut,
        Some(1),
        &[120, 121, 150, 151],
    ),
];

/// Runs the script of the row, and asserts how the run ends and what the gate noted.
fn expect_notes<H: Threads + Wait + RandomSource + Sync + Abort>(
    rt: &H,
    alloc: Global,
    row: &Noted,
) {
    let (script, threads, refused, finish, pass, expected) = *row;
    let mut notes = GateNotes::new(refused);
    let mut writer = blank(1024, 1024);
    let mut ended = run_gated(rt, alloc, script, threads, &notes, &mut writer);
    if ended == Err(RunError::Memory) {
        notes = GateNotes::new(refused);
        ended = run_gated(rt, alloc, script, threads, &notes, &mut writer);
    }
    assert_eq!(rt; ended, Ok(finish));
    assert!(rt; notes.are(pass, expected), "{pass:?} {expected:?}");
}

/// The gate is asked before each line and told after it, each time with the pass and the line.
#[test]
fn a_gate_sees_each_line_begin_and_end(rt: HostRuntime) {
    for row in &NOTED {
        expect_notes(&rt, rt.alloc(), row);
    }
}

/// A gate that answers false before a line ends the pass of that line and no other, with threads and without.
#[test]
fn a_gate_ends_a_pass(rt: HostRuntime) {
    for threads in [true, false] {
        let mut writer = blank(1024, 1024);
        let mut ended = run_gated(
            &rt,
            rt.alloc(),
            TWO_KEYS,
            threads,
            &GateNotes::new(4),
            &mut writer,
        );
        if ended == Err(RunError::Memory) {
            ended = run_gated(
                &rt,
                rt.alloc(),
                TWO_KEYS,
                threads,
                &GateNotes::new(4),
                &mut writer,
            );
        }
        assert_eq!(rt; ended, Ok(Finish::TurnsOut));
        assert_eq!(rt; writer.written(), TWO_KEYS_BUT_ONE_LINE.as_bytes());
    }
}

/// Runs the script with this gate and on threads, and asserts that the run is done and has this output.
fn expect_gated<H: Threads + Wait + RandomSource + Sync + Abort, G: Gate + Sync>(
    rt: &H,
    alloc: Global,
    gate: &G,
    script: &'static str,
    output: &'static str,
) {
    let mut writer = blank(1024, 1024);
    let ended = run_gated(rt, alloc, script, true, gate, &mut writer);
    assert!(rt; ended == Ok(Finish::Done), "{script}");
    assert!(rt; writer.written() == output.as_bytes(), "{script}");
}

/// The gate holds the first line of pass 1 until the last line of pass 2 is answered, and holds that one until it
/// was asked for the first. Both are answered only if the passes work at once.
#[test]
fn passes_work_at_once(rt: HostRuntime) {
    expect_gated(
        &rt,
        rt.alloc(),
        &Crossed::new(),
        TWO_KEYS,
        TWO_KEYS_ANSWERED,
    );
}

/// Two passes acquire the same lock.
const TWO_TAKERS: &str = "1 acquire 7 20.0 a\n2 acquire 8 20.0 a\n1 finish 7 a\n";

/// The output of `TWO_TAKERS` if pass 2 comes first.
const SECOND_TAKES: &str =
    "1 1 other\n1 3 other\n2 2 taken\nlocks 2\na 1 2 acquire 8 20.0 = taken\na 2 1 acquire 7 20.0 = other\na 3 1 finish 7 = other\n";

/// If a gate holds a line until another is answered, the lines take effect in the order of the gate: here in the
/// order of the script, as without threads, and in another order. Runs in which an `await` is answered `waiting`
/// are left out, since on threads it keeps polling.
#[test]
fn passes_take_turns_by_a_gate(rt: HostRuntime) {
    expect_gated(&rt, rt.alloc(), &GateTold::new(), TWO_TAKERS, SECOND_TAKES);
    for (_, script, output) in &RUNS {
        if !output.contains("waiting\n") {
            expect_gated(&rt, rt.alloc(), &Between::new(), script, output);
        }
    }
}

/// A writer waits until the holder frees the lock.
const ONE_LET: &str =
    "2 acquire 9 10.0 a\n1 open 1 10.0 a:w\n1 scan\n1 await\n2 finish 9 a\n1 leave\n";

const ONE_LET_ANSWERED: &str =
    "1 2 request 1\n1 3 waiting a\n1 4 let\n1 6 done\n2 1 taken\n2 5 freed\nlocks 2\na 1 2 acquire 9 10.0 = taken\na 2 1 visit 1.1 1 10.0 w = wait\na 3 2 finish 9 = freed let 1.1\na 4 1 leave 1 = left\n";

/// On threads an `await` keeps polling. The gate holds the line that lets the request through until long after the
/// `await` began.
#[test]
fn passes_poll_until_they_are_let_through(rt: HostRuntime) {
    expect_gated(&rt, rt.alloc(), &Late::new(), ONE_LET, ONE_LET_ANSWERED);
}

/// A lock is taken, and a request to read its key is opened.
const TWO_LINES: &str = "1 acquire 7 20.0 a\n2 open 8 20.0 a:r\n";

const ANSWERED: &str = "1 1 taken\n2 2 request 1\nlocks 2\na 1 1 acquire 7 20.0 = taken\n";

fn torn(fails_at: usize, fault: ErrorKind) -> Torn<'static> {
    Torn {
        rest: TWO_LINES.as_bytes(),
        reads: 0,
        fails_at,
        fault,
    }
}

/// A reader of the two lines that does not fail.
fn whole() -> Torn<'static> {
    torn(usize::MAX, ErrorKind::Other)
}

/// A script of 37 bytes takes four reads of up to ten bytes, and a fifth that finds its end. A read that fails or
/// is interrupted is reported, although the next one would succeed.
#[test]
fn reads_that_fail(rt: HostRuntime) {
    assert_eq!(rt; TWO_LINES.len(), 37);
    for fault in &FAULTS_OF_READS {
        for fails_at in 0..6 {
            let mut writer = blank(1024, 1024);
            let readers = [torn(fails_at, *fault), torn(fails_at, *fault)];
            let ended = run_of(&rt, rt.alloc(), readers, &mut writer);
            let (ending, written) = if fails_at < 5 {
                (Err(RunError::Read), "")
            } else {
                (Ok(Finish::Done), ANSWERED)
            };
            assert_eq!(rt; ended, ending);
            assert_eq!(rt; writer.written(), written.as_bytes());
        }
    }
}

/// A writer that fails after `stops_at` bytes holds a prefix of the output of that length. So does a writer that
/// then takes no bytes or is interrupted, although the next write would succeed.
#[test]
fn writes_that_fail(rt: HostRuntime) {
    assert_eq!(rt; ANSWERED.len(), 61);
    for fault in &FAULTS_OF_WRITES {
        for stops_at in 0..62 {
            let mut writer = blank(7, stops_at);
            writer.fault = *fault;
            let ended = run_of(&rt, rt.alloc(), [whole(), whole()], &mut writer);
            assert_eq!(rt;
                ended,
                if stops_at == 61 {
                    Ok(Finish::Done)
                } else {
                    Err(RunError::Write)
                }
            );
            assert_eq!(rt; Some(writer.written()), ANSWERED.as_bytes().get(..stops_at));
        }
    }
}
