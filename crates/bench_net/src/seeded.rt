ghost use Rattle.std.specs.Prelude.{◌≡◌};
ghost use Rattle.bench_net.specs.Keystream.{word, seeded_passes, seeded_draw};

use crate::draws::Draws;
use crate::net::Net;
use rand_chacha::ChaCha8Rng;
use rand_core::SeedableRng;
use rand_core::utils::NextWord;
use std::marker::Model;

// An attempt's place has the publisher's number in bits 53 up, the sequence number's in bits 37 up, the part's in bits
// 21 up, and its own below.
const PUBLISHER: u128 = 0x20_0000_0000_0000;

const SEQ: u128 = 0x20_0000_0000;

const PART: u128 = 0x20_0000;

// The first stream of draws, after those of all askers.
const DRAWS: u64 = 0x1_0000_0000;

/// A network and draws that follow from a seed: the words of ChaCha with 8 rounds under it, by stream and place.
#[derive(Clone, Copy, Debug)]
pub struct Seeded {
    seed: [u8; 32],
}

// A seeded network is seen as the octets of its seed.
impl Model for Seeded {
    ghost use Rattle.std.specs.Prelude.{ℕ, List};

    ghost Value = { List ℕ };

    ghost view = { λ net. net.seed };

    ghost inverse = { λ seed. record { seed = seed } };
}

impl Seeded {
    pub fn new(seed: [u8; 32]) -> Seeded
        ensures { result ≡ seed }
    {
        Seeded { seed }
    }

    // The word at a place of a stream.
    fn word(&self, stream: u64, place: u128) -> u32
        ensures { result ≡ word self.now stream place }
    {
        let mut words = ChaCha8Rng::from_seed(self.seed);
        words.set_stream(stream);
        words.set_word_pos(place);
        words.next_word()
    }
}

impl Net for Seeded {
    ghost passes = { seeded_passes };

    /// Whether the attempt's word, modulo 1,000, is at least `loss`: so loss 0 passes always, and loss 1,000 never.
    fn passes(
        &self,
        asker: u32,
        publisher: u32,
        seq: u32,
        part: u32,
        attempt: u32,
        loss: u32,
    ) -> bool {
        let place = u128::from(publisher) * PUBLISHER
            + u128::from(seq) * SEQ
            + u128::from(part) * PART
            + u128::from(attempt);
        loss == 0 || self.word(u64::from(asker), place) % 1_000 >= loss
    }

    /// A word is drawn at once.
    fn may_wait(&self) -> bool {
        false
    }
}

impl Draws for Seeded {
    ghost draw = { seeded_draw };

    fn draw(&self, member: u32, k: u64) -> u32 {
        self.word(DRAWS + u64::from(member), u128::from(k))
    }
}
