ghost use Rattle.std.specs.Prelude.{◌≡◌};
ghost use Rattle.lab_seeds.specs.Seeds.{seed_octets};

use bench_net::Seeded;

/// The network and the draws of a seed: its 8 octets, the lowest first, and 24 zeros are the key of the keystream.
pub fn seeded(seed: u64) -> Seeded
    ensures { result ≡ seed_octets seed }
{
    let mut octets = [0; 32];
    octets[..8].copy_from_slice(&seed.to_le_bytes());
    Seeded::new(octets)
}
