use crate::event::Logged;
use crate::law::BookRule;
use crate::parking::Parking;
use logbook::Word;

/// A word on a cache line of its own, so that threads that write different words do not slow each other down. The
/// status word of a pass shares its line with the word on which the pass's caller sleeps, because a thread that
/// writes the first then reads the second.
#[derive(Drop)]
pub(crate) struct CacheLine {
    pub word: Word<Logged, u64, BookRule>,
    pub parking: Parking,
    _rest: [u64; 6],
}

impl CacheLine {
    ghost use Rattle.std.specs.Prelude.{◌≡◌};

    pub fn new(word: Word<Logged, u64, BookRule>) -> CacheLine
        ensures { result.word ≡ word }
    {
        CacheLine {
            word,
            parking: Parking::new(),
            _rest: [0; 6],
        }
    }
}
