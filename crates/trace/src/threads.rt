//! What is known of each thread.
ghost use Rattle.std.specs.Prelude.{◌≡◌, length};
ghost use Rattle.trace.specs.Limits.{threads};

use crate::life::Life;
use crate::limits::THREAD_COUNT;

mod methods;

/// What is known of each thread, by its number.
#[derive(Clone, Copy)]
pub struct ThreadTable {
    // an array, since a board has no heap
    lives: [Life; THREAD_COUNT],
    ghost whole: { length lives ≡ threads },
}
