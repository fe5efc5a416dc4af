//! The words that are drawn, and how many name a centre.
ghost use Rattle.std.specs.Prelude.{◌≡◌, IfOk};
ghost use Rattle.tc_load.specs.Words.{drawn_in, words_of};

use crate::limits::{CENTRES, STREAM};
use rand_core::utils::NextWord;
use rand_pcg::Pcg32;
use std::alloc::Global;
use tc_lists::NoMemory;

/// So many words of the generator that starts at this number, in order.
pub fn words_of(alloc: Global, count: usize, start: u64) -> Result<Vec<u32>, NoMemory>
    ensures { IfOk result (λ words. words.items ≡ words_of count start) }
{
    let mut generator = Pcg32::new(start, STREAM);
    let mut words = Vec::with_capacity(alloc, count)?;
    for _ in 0..count {
        words.push(generator.next_word())?;
    }
    Ok(words)
}

/// How many of the words name this centre.
pub fn drawn_in(centre: usize, words: &[u32]) -> usize
    ensures { result ≡ drawn_in centre words.now }
{
    words
        .iter()
        .filter(|word| (**word % CENTRES) as usize == centre)
        .count()
}
