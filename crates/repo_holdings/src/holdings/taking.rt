// The results of parts that were asked for.
ghost use Rattle.std.specs.Prelude.{◌≡◌, ◌<◌, ◌≤◌, ◌^◌, [], ◌∷◌, vec_len, vec_capacity, map, is_some, count_by};
ghost use Rattle.std.specs.Prelude.{sum_by};
ghost use Rattle.std.specs.List.{All};
ghost use Rattle.repo_holdings.specs.Contents.{IsDigestIn};
ghost use Rattle.repo_catalog.specs.Entries.{without_all};
ghost use Rattle.repo_holdings.specs.Stock.{IsSound};
ghost use Rattle.repo_holdings.specs.HoldingsState.{held_plan, AreInOrder};
ghost use Rattle.repo_holdings.specs.Taking.{came, arrival_octets, with_fetched, with_all_fetched, after_outcome};
ghost use Rattle.repo_holdings.specs.Taking.{CanBeTaken, AreTakable, AreFew, AreReady, HasTaken, HaveWaited};
ghost use Rattle.repo_holdings.specs.Taking.{AreCounted, AreApartPairs};

use super::Holdings;
use super::pending::Pending;
use super::stock::Stock;
use crate::contents::ContentsDigest;
use crate::record_summary::Arrival;
use repo_catalog::Catalogue;
use repo_plan::Part;

/// A part that was asked for, how many attempts were made, and its packet, if one was received.
#[derive(Drop)]
pub struct Tried {
    pub part: Part,
    pub attempts: u32,
    pub arrival: Option<Arrival>,
}

impl Tried {
    // How many octets the received packet has; 0 if none was received.
    fn octets(&self) -> u64
        ensures { result ≡ arrival_octets self.now }
    {
        match &self.arrival {
            Some(arrival) => arrival.packet.octets().len() as u64,
            None => 0,
        }
    }
}

/// What `take` added: the number of parts that are newly held, and the number of octets of their packets.
#[derive(Clone, Copy, Debug, PartialEq, Eq)]
pub struct Taken {
    pub parts: u32,
    pub octets: u64,
}

impl Holdings {
    /// Takes the results of parts that were asked for, within the capacity: the packets that were received are held
    /// from now on, and the attempts are counted. The entries of objects that become whole are merged into the
    /// catalogue together, and those of withdrawn objects are removed together. It allocates nothing.
    ///
    /// Digests that `digests` gives, in order of their publications, aren't computed again.
    pub fn take(&mut self, all: Vec<Tried>, digests: &[ContentsDigest]) -> Taken
        requires room { vec_len all ≤ self.old.spare }
        requires takable { AreTakable (held_plan self.old) self.old.store all.items }
        requires few { vec_len all < 2 ^ 32 }
        requires digests { All (IsDigestIn (with_all_fetched (map came all.items) self.old.store)) digests.now }
        ensures taken { self.new ≡ after_outcome (map came all.items) self.old }
        ensures in_order { AreInOrder self.new }
        ensures parts { result.parts ≡ count_by (λ x. is_some x.arrival) all.items }
        ensures octets { result.octets ≡ sum_by arrival_octets all.items }
    {
        let tried = all.len();
        let taken = self.stock.take_all(&mut self.pending, all, digests);
        self.catalogue.add_all_reserved(&mut self.pending.fresh);
        remove_gone(&mut self.catalogue, &mut self.pending.gone);
        self.spare -= tried;
        taken
    }
}

// Removes the entries of the publications `gone`, and empties `gone`.
fn remove_gone(catalogue: &mut Catalogue, gone: &mut Vec<(u32, u16)>)
    requires { AreApartPairs gone.old.items }
    ensures removed { catalogue.new ≡ record catalogue.old {
      entries = without_all gone.old.items catalogue.old.entries;
    } }
    ensures gone { gone.new.items ≡ [] }
    ensures room { vec_capacity gone.old ≤ vec_capacity gone.new }
{
    if gone.is_empty() {
        return;
    }
    gone.sort_unstable();
    catalogue.remove_all(gone);
    gone.clear();
}

impl Stock {
    // Takes the results of parts that were asked for. There is room for them. The entries of objects that become whole
    // wait from now on, and so do the publications that are newly withdrawn.
    fn take_all(
        &mut self,
        pending: &mut Pending,
        all: Vec<Tried>,
        digests: &[ContentsDigest],
    ) -> Taken
        requires ready { AreReady (vec_len all) self.old pending.old }
        requires takable { AreTakable self.old.plan self.old.store.packets all.items }
        requires few { AreFew all.items }
        requires digests { All (IsDigestIn (with_all_fetched (map came all.items) self.old.store.packets)) digests.now }
        ensures taken { HasTaken all.items self.old self.new }
        ensures sound { IsSound self.new }
        ensures waiting { HaveWaited (vec_len all) pending.old pending.new
            self.old.store.packets self.new.store.packets }
        ensures counted { AreCounted all.items result }
    {
        let mut parts = 0;
        let mut octets = 0;
        for tried in all {
            parts += u32::from(tried.arrival.is_some());
            octets += tried.octets();
            self.take_one(pending, tried, digests);
        }
        Taken { parts, octets }
    }

    // Takes the result of one part.
    fn take_one(&mut self, pending: &mut Pending, tried: Tried, digests: &[ContentsDigest])
        requires ready { AreReady 1 self.old pending.old }
        requires takable { CanBeTaken self.old.plan self.old.store.packets tried }
        requires digests { All (IsDigestIn (with_fetched tried.part (came tried).packet self.old.store.packets))
            digests.now }
        ensures taken { HasTaken (tried ∷ []) self.old self.new }
        ensures sound { IsSound self.new }
        ensures waiting { HaveWaited 1 pending.old pending.new self.old.store.packets self.new.store.packets }
    {
        let Tried {
            part,
            attempts,
            arrival,
        } = tried;
        if let Some(arrival) = arrival {
            let change = self.gain(part, arrival, digests);
            pending.push(change);
        }
        self.plan.add_attempts_reserved(part, attempts);
    }
}
