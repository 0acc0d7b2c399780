ghost use Rattle.std.specs.Prelude.{◌≡◌, ◌≤◌, false, length, OnOk, OnErr};
ghost use Rattle.std.specs.List.{All};
ghost use Rattle.sorted_lists.specs.SortedList.{Rises, contains, value_of};
ghost use Rattle.repo_plan.specs.Parts.{Pair, pair_cmp};
ghost use Rattle.repo_plan.specs.Plan.{claims_part_in};
ghost use Rattle.repo_holdings.specs.Listed.{is_withdrawal};
ghost use Rattle.repo_holdings.specs.Stock.{MatchesEntries};
ghost use Rattle.repo_holdings.specs.HoldingsState.{held_plan, AreInOrder};
ghost use Rattle.repo_holdings.specs.Hiding.{outside_all, IsHiding, CanBeHidden, LeavesRoom, hides_all, plan_hides};

use super::Holdings;
use super::stock::Stock;
use crate::notes::Notes;
use repo_catalog::Catalogue;
use repo_plan::Plan;
use std::alloc::AllocError;

impl Holdings {
    /// Has the catalogue look up names by an index from now on. It changes only what a look-up costs.
    pub fn index_names(&mut self) -> Result<(), AllocError>
        ensures { self.new ≡ self.old }
    {
        self.catalogue.index_names()
    }

    /// These publications, which are in order, are hidden for good: none of their packets is held or listed any more,
    /// and none of their parts is wanted. The capacity that was reserved stays.
    ///
    /// Packets and entries are removed in one pass, however many publications there are. A withdrawal can't be hidden:
    /// what it withdraws stays withdrawn.
    pub fn hide_all(&mut self, publications: &[(u32, u16)]) -> Result<(), AllocError>
        requires unclaimed { All (λ pair. claims_part_in (held_plan self.old) pair ≡ false) publications.now }
        requires in_order { Rises pair_cmp publications.now }
        requires objects { All (λ pair. is_withdrawal self.old.store pair ≡ false) publications.now }
        ensures ok { OnOk result (self.new ≡ hides_all publications.now self.old) }
        ensures in_order { AreInOrder self.new }
        ensures err { OnErr result (self.new ≡ self.old) }
    {
        let Some(twice) = self.spare.checked_mul(2) else {
            return Err(AllocError);
        };
        let Some(room) = twice.checked_add(publications.len()) else {
            return Err(AllocError);
        };
        self.stock.plan.reserve(room)?;
        // Entries are to be found by their names from the first deletion on.
        self.catalogue.reserve(0)?;
        hide_all(&mut self.stock, &mut self.catalogue, publications);
        Ok(())
    }
}

// These publications are hidden for good, within the capacity: none of their packets is held or listed any more.
fn hide_all(stock: &mut Stock, catalogue: &mut Catalogue, publications: &[(u32, u16)])
    requires room { length publications.now ≤ stock.old.plan.spare }
    requires hidable { CanBeHidden publications.now stock.old }
    requires kept { MatchesEntries stock.old catalogue.old.entries }
    ensures hidden { IsHiding publications.now stock.old.plan stock.new.plan }
    ensures packets { stock.new.store.packets ≡ outside_all publications.now stock.old.store.packets }
    ensures kept { MatchesEntries stock.new catalogue.new.entries }
    ensures room { LeavesRoom (length publications.now) stock.old stock.new }
    ensures catalogue_room { catalogue.new.spare ≡ catalogue.old.spare }
{
    hide_in_plan(&mut stock.plan, publications);
    forget_names(&mut stock.notes, publications);
    stock.store.drop_all(publications);
    catalogue.remove_all(publications);
}

// The plan hides these publications, for which capacity was reserved.
fn hide_in_plan(plan: &mut Plan, publications: &[(u32, u16)])
    requires room { length publications.now ≤ plan.old.spare }
    requires unclaimed { All (λ pair. claims_part_in plan.old pair ≡ false) publications.now }
    ensures { plan.new ≡ plan_hides publications.now plan.old }
{
    for (publisher, seq) in publications {
        plan.hide_reserved(*publisher, *seq);
    }
}

// Removes the noted names of the objects of these publications.
fn forget_names(notes: &mut Notes, publications: &[(u32, u16)])
    ensures withdrawn { notes.new.withdrawn ≡ notes.old.withdrawn }
    ensures others { (q : Pair) → contains pair_cmp publications.now q ≡ false
        → value_of pair_cmp notes.new.names q ≡ value_of pair_cmp notes.old.names q }
    ensures room { notes.new.spare ≡ notes.old.spare }
{
    for publication in publications {
        notes.take_name(*publication);
    }
}
