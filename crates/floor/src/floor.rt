// The floor: a rule, a store, sixteen rows and the need.
ghost use Rattle.std.specs.Prelude.{◌≡◌, ◌==◌, false, replicate, if◌then◌else◌, is_err, IfOk, MatchResult, Some, None, OnErr, OnOk, nat_lt, slice_index, vec_capacity};
ghost use Rattle.runs.specs.Runs.{Founded};
ghost use Rattle.stores.specs.Kept.{page_at};
ghost use Rattle.stores.specs.Writings.{SpentBy};
ghost use Rattle.runs.specs.Founding.{row_at, founding_refusal, Founding};
ghost use Rattle.quorum.specs.Below.{any};
ghost use Rattle.quorum.specs.Members.{size};
ghost use Rattle.quorum.specs.Faults.{allowed, refused_by};
ghost use Rattle.quorum.specs.declared.fault.Layer.TheVariants.{Rule};
ghost use Rattle.quorum.specs.declared.fault.Reason.TheVariants.{ZeroWeight};
ghost use Rattle.floor.specs.Worlds.{world};
ghost use Rattle.rows.specs.Rows.{empty_row};

use super::founding::{any_used, found_rows, write_founding};
use lend::Table;
use manager::Need;
use quorum::{Fault, Layer, QuorumRule, Reason, Replica, WeightRule, refuse_if};
use rows::{Message, Row};
use stores::{Breakable, Number, Page, Store, View};

#[derive(Drop)]
pub struct Floor<R, S> {
    // That it is the same after a call is said of each call, in its clause `rule`: this tells of a floor before and after, so it is
    // no fact about a value that a type could carry.
    pub(crate) rule: R,
    pub(crate) store: S,
    pub(crate) table: Table<Row>,
    pub(crate) need: Need,
}

impl<S: Breakable + Drop> Floor<WeightRule, S> {
    // A new floor with the weight rule of these weights; refused by the rule where one is zero.
    pub fn weighted(weights: [u8; 16], store: S) -> Result<Floor<WeightRule, S>, Fault>
        ensures rule { MatchResult result (λ floor. floor.rule.weights ≡ weights) (λ fault. fault ≡ refused_by Rule ZeroWeight) }
        ensures refused { is_err result ≡ any (λ k. slice_index weights k == 0) 16 }
        ensures store { IfOk result (λ floor. floor.store ≡ store) }
        ensures rows { IfOk result (λ floor. floor.table.rows ≡ replicate 16 (empty_row false)) }
        ensures need { IfOk result (λ floor. floor.need ≡ Need.One) }
    {
        Ok(Floor::new(WeightRule::new(weights)?, store))
    }
}

impl<R: QuorumRule + Copy, S: Breakable> Floor<R, S> {
    // A new floor: all rows down and empty, need one.
    pub fn new(rule: R, store: S) -> Floor<R, S>
        ensures rule { result.rule ≡ rule }
        ensures store { result.store ≡ store }
        ensures rows { result.table.rows ≡ replicate 16 (empty_row false) }
        ensures need { result.need ≡ Need.One }
    {
        Floor {
            rule,
            store,
            table: Table::new([Row::empty(false); 16]),
            need: Need::One,
        }
    }

    // The page of a replica, if there is such a replica.
    pub fn page(&self, replica: u8) -> Option<Page>
        ensures { result ≡ (if nat_lt replica 16
            then Some (page_at (S.Store.pages self.now.store) replica) else None) }
    {
        let replica = Replica::new(replica)?;
        Some(self.store.read(replica))
    }

    // The row of a replica, if there is such a replica.
    pub fn row(&self, replica: u8) -> Option<Row>
        ensures { result ≡ (if nat_lt replica 16 then Some (row_at self.now.table.rows replica) else None) }
    {
        let replica = Replica::new(replica)?;
        Some(*self.table.row(replica))
    }

    pub fn need(&self) -> Need
        ensures { result ≡ self.now.need }
    {
        self.need
    }

    // Whether the view may be founded here: refused as its founding is.
    pub fn check_founding(&self, view: View) -> Result<(), Fault>
        ensures { result ≡ allowed
            (founding_refusal view (S.Store.pages self.now.store) (S.Store.places self.now.store)) }
    {
        let bad = view.set.is_empty() || view.number > Number::HIGHEST;
        refuse_if(bad, Reason::BadFounding.by(Layer::Floor))?;
        let used = self.store.places() < 16 || any_used(&self.store);
        refuse_if(used, Reason::NotFresh.by(Layer::Floor))
    }

    // Founding: members of the set hold the first view, all sixteen replicas are up and idle, the post is
    // empty. It uses at most one place for each member.
    pub fn found(&mut self, post: &mut Vec<Message>, view: View, need: Need) -> Result<(), Fault>
        ensures answer { result ≡ allowed
            (founding_refusal view (S.Store.pages self.old.store) (S.Store.places self.old.store)) }
        ensures founded { OnOk result (Founding view need
            (S.Store.pages self.new.store) self.new.table.rows self.new.need post.new.items) }
        ensures begins { OnOk result (Founded view
            (world S.Store.pages S.Store.places self.new post.new.items)) }
        ensures rule { self.new.rule ≡ self.old.rule }
        ensures places { OnOk result (SpentBy (size view.set.0)
            (S.Store.places self.old.store) (S.Store.places self.new.store)) }
        ensures capacity { vec_capacity post.new ≡ vec_capacity post.old }
        ensures kept { OnErr result ((self.new ≡ self.old) × (post.new ≡ post.old)) }
    {
        self.check_founding(view)?;
        write_founding(&mut self.store, view)?;
        found_rows(&mut self.table, view);
        self.need = need;
        post.clear();
        Ok(())
    }
}
