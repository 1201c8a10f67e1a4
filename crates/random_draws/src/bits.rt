ghost use Rattle.std.specs.Prelude.{◌≡◌, ◌+◌, ◌%◌, ◌^◌, ◌<◌, ◌/◌, IfOk, OnOk, OnErr};
ghost use Rattle.rand_chacha.specs.ChaCha.{key_of, word_at};
ghost use Rattle.random_draws.specs.Draws.{Turn, random_bit, random_bits};

use agm_bits::{BitRow, Memory};
use rand_chacha::ChaCha20Rng;
use rand_core::SeedableRng;
use rand_core::utils::NextWord;
use std::alloc::Global;
use std::marker::Model;

/// The bits of one stream of a seed, in turn. Bit `n` is bit `n % 32`, the lowest first, of word `n / 32` of ChaCha20 (RFC 8439)
/// with the seed as key. Streams differ in the last 64 bits of the state, and a counter of blocks has the 64 bits before.
///
/// Bits are counted in 128 bits. They are no secrets: whoever knows the seed knows them.
#[derive(Drop)]
pub struct RandomBits {
    generator: ChaCha20Rng,
    // The word of the next bit, where some bit of it is drawn already.
    word: u32,
    // The number of the next bit.
    next: u128,
}

impl Model for RandomBits {
    ghost Value = { Turn };

    ghost view = { λ it. record { key = it.generator.key; stream = it.generator.stream; next = it.next } };

    ghost invariant = { λ it. (it.generator.word_pos ≡ (it.next + 31) / 32 % 2 ^ 68)
        × (0 < it.next % 32 → it.word ≡ word_at 10 it.generator.key it.generator.stream (it.next / 32 % 2 ^ 68)) };
}

impl RandomBits {
    /// The bits of a stream from bit `first` on.
    pub fn new(seed: &[u8; 32], stream: u64, first: u128) -> RandomBits
        ensures { result ≡ record { key = key_of seed.now; stream = stream; next = first } }
    {
        let mut generator = ChaCha20Rng::from_seed(*seed);
        generator.set_stream(stream);
        generator.set_word_pos(first / 32);
        let word = if first % 32 == 0 {
            0
        } else {
            generator.next_word()
        };
        RandomBits {
            generator,
            word,
            next: first,
        }
    }

    /// Draws the next bit.
    pub fn next_bit(&mut self) -> bool
        ensures bit { result ≡ random_bit self.old.key self.old.stream self.old.next }
        ensures after { self.new ≡ record self.old { next = (self.old.next + 1) % 2 ^ 128 } }
    {
        let place = (self.next % 32) as u32;
        if place == 0 {
            self.word = self.generator.next_word();
        }
        self.next = self.next.wrapping_add(1);
        (self.word >> place) % 2 == 1
    }

    /// Draws a row of so many bits. After `Memory` some of them are drawn.
    pub fn row(&mut self, alloc: Global, width: usize) -> Result<BitRow, Memory>
        ensures row { IfOk result (λ row. row ≡ random_bits self.old.key self.old.stream self.old.next width) }
        ensures after { OnOk result (self.new ≡ record self.old { next = (self.old.next + width) % 2 ^ 128 }) }
        ensures err { OnErr result (self.new ≡ record self.old { next = self.new.next }) }
    {
        // Read here, so that its range is known: bits are counted in 128 bits.
        let _counted = self.next;
        let mut row = BitRow::new(alloc);
        for _ in 0..width {
            row.push(self.next_bit())?;
        }
        Ok(row)
    }
}
