ghost use Rattle.std.specs.Prelude.{◌≡◌, ◌<◌, ℕ, max, Ok, Err, length, option_map, IfOk, OnOk, OnErr, MatchResult};
ghost use Rattle.sorted_lists.specs.SortedList.{value_of};
ghost use Rattle.repo_plan.specs.Parts.{part_cmp};
ghost use Rattle.repo_plan.specs.Sound.{PlanIsSound};
ghost use Rattle.repo_store.specs.Served.{served};
ghost use Rattle.repo_holdings.specs.Listed.{member_catalogue};
ghost use Rattle.repo_holdings.specs.Stock.{HaveRoom, OnlyRoomChanges};
ghost use Rattle.repo_holdings.specs.HoldingsState.{nothing_held, held_plan, with_known_up_to};

mod claiming;
mod counts;
mod gaining;
mod hiding;
mod pending;
mod publishing;
mod stock;
mod stored_parent;
mod taking;
mod wanting;
mod whole;

use self::pending::Pending;
use self::stock::Stock;
use crate::notes::Notes;
use ndn_name::PacketFault;
use repo_catalog::Catalogue;
use repo_object::Packet;
use repo_plan::{Part, Plan};
use repo_store::Store;
use std::alloc::{AllocError, Global};
use std::marker::Model;
pub use stored_parent::StoredParent;
pub use taking::{Taken, Tried};
pub use whole::Whole;

/// What is held of publications: which parts are known, held, wanted, claimed and hidden, their packets, and the
/// catalogue of the objects of which no part is missing and that are not withdrawn.
///
/// A call that fails changes nothing, also where memory ran out. Room is made first, by `reserve`; a call that uses it
/// allocates nothing.
pub struct Holdings {
    stock: Stock,
    catalogue: Catalogue,
    // Empty, except while packets are taken.
    pending: Pending,
    // For how many more parts there is capacity: to hold and to try each of them, and for as many entries.
    spare: usize,
}

// Holdings are dropped by one call, which is proved once, and not field by field wherever one goes out of scope.
impl Drop for Holdings {
    fn drop(self) {
        let Holdings {
            stock: _,
            catalogue: _,
            pending: _,
            spare: _,
        } = self;
    }
}

impl Model for Holdings {
    ghost use Rattle.repo_holdings.specs.HoldingsState.{HoldingsState};

    ghost Value = { HoldingsState };

    ghost use Rattle.repo_holdings.specs.HoldingsFields.{state, IsHoldings};

    ghost view = { state };

    ghost invariant = { IsHoldings };
}

impl Holdings {
    /// Empty holdings for `publishers` publishers.
    pub fn new(alloc: Global, publishers: usize) -> Result<Holdings, AllocError>
        ensures { IfOk result (λ held. held ≡ nothing_held publishers) }
    {
        Ok(Holdings {
            stock: Stock {
                plan: Plan::new(alloc, publishers)?,
                store: Store::new(alloc),
                notes: Notes::new(alloc),
            },
            catalogue: Catalogue::new(alloc),
            pending: Pending {
                fresh: Vec::new(alloc),
                gone: Vec::new(alloc),
            },
            spare: 0,
        })
    }

    /// Reserves capacity for `n` parts, each of which may be held and tried, and for `n` catalogue entries.
    pub fn reserve(&mut self, n: usize) -> Result<(), AllocError>
        ensures ok { OnOk result (self.new ≡ record self.old { spare = max self.old.spare n }) }
        ensures err { OnErr result (self.new ≡ self.old) }
    {
        make_room(&mut self.stock, &mut self.pending, &mut self.catalogue, n)?;
        self.spare = self.spare.max(n);
        Ok(())
    }

    /// Makes the publisher's publications known up to number `seq`. Those that are known already stay known.
    pub fn raise(&mut self, publisher: u32, seq: u16)
        requires { publisher < length self.old.known }
        ensures { self.new ≡ with_known_up_to publisher seq self.old }
    {
        self.stock.plan.raise(publisher, seq);
    }

    /// The plan of any holdings is sound. Costs nothing, and is called for its clause.
    pub fn cite_soundness(&self)
        ensures { PlanIsSound (held_plan self.now) }
    {
        self.stock.plan.cite_soundness();
    }

    /// How many parts are held.
    pub fn len(&self) -> usize
        ensures { result ≡ length self.now.store }
    {
        self.stock.store.len()
    }

    /// The octets of the packet of a part that is held. It allocates nothing.
    pub fn packet(&self, part: Part) -> Option<&[u8]>
        ensures { option_map (λ octets. octets.now) result ≡ value_of part_cmp self.now.store part }
    {
        self.stock.store.get(part)
    }

    /// The packet of a part that is held, which may be shared. It allocates nothing.
    pub fn stored(&self, part: Part) -> Option<&Packet>
        ensures { option_map (λ packet. packet.now) result ≡ value_of part_cmp self.now.store part }
    {
        self.stock.store.packet(part)
    }

    /// Puts the packets that were added since the last call in order of their names, so that they are found faster.
    /// Nothing that is held changes. It allocates nothing.
    pub fn order_names(&mut self)
        ensures { self.new ≡ self.old }
    {
        self.stock.store.order_names();
    }

    /// The packet that answers an Interest: that of the least part that satisfies it. It allocates nothing.
    pub fn serve(&self, interest: &[u8]) -> Result<Option<&[u8]>, PacketFault>
        ensures { MatchResult result
            (λ found. served interest.now self.now.store ≡ Ok (option_map (λ octets. octets.now) found))
            (λ fault. served interest.now self.now.store ≡ Err fault) }
    {
        self.stock.store.serve(interest)
    }

    /// The objects of which no part is missing, and which are not withdrawn.
    pub fn catalogue(&self) -> &Catalogue
        ensures { result.now.entries ≡ member_catalogue self.now.store }
    {
        &self.catalogue
    }
}

// Reserves capacity for `n` parts, records and entries.
fn make_room(
    stock: &mut Stock,
    pending: &mut Pending,
    catalogue: &mut Catalogue,
    n: usize,
) -> Result<(), AllocError>
    ensures room { OnOk result (HaveRoom n stock.new pending.new catalogue.new) }
    ensures still { (k : ℕ) → HaveRoom k stock.old pending.old catalogue.old
        → HaveRoom k stock.new pending.new catalogue.new }
    ensures stock { OnlyRoomChanges stock.old stock.new }
    ensures fresh { pending.new.fresh.items ≡ pending.old.fresh.items }
    ensures gone { pending.new.gone.items ≡ pending.old.gone.items }
    ensures catalogue { catalogue.new.entries ≡ catalogue.old.entries }
{
    let Some(twice) = n.checked_mul(2) else {
        return Err(AllocError);
    };
    stock.plan.reserve(twice)?;
    stock.store.reserve(n)?;
    stock.notes.reserve(n)?;
    pending.fresh.reserve(n)?;
    pending.gone.reserve(n)?;
    catalogue.reserve(n)
}
