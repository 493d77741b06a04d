// Lists of calls: the findings of a whole evening.
ghost use Rattle.std.specs.Prelude.{◌≡◌, ◌≤◌, OnErr, OnOk, vec_capacity};
ghost use Rattle.runs.specs.Founding.{founding_refusal};
ghost use Rattle.floor.specs.Ran.{Ran, Found, Evening};
ghost use Rattle.floor.specs.Worlds.{world};
ghost use Rattle.quorum.specs.Faults.{allowed};

use super::floor::Floor;
use manager::Need;
use quorum::{Fault, QuorumRule};
use rows::Message;
use runs::Call;
use stores::{Breakable, View};

impl<R: QuorumRule + Copy, S: Breakable> Floor<R, S> {
    fn make_all(&mut self, post: &mut Vec<Message>, calls: &[Call])
        ensures ran { Ran S.Store.pages S.Store.places S.Breakable.leaves
            (R.QuorumRule.carries self.old.rule) (vec_capacity post.old)
            self.old.store (world S.Store.pages S.Store.places self.old post.old.items)
            self.new.store (world S.Store.pages S.Store.places self.new post.new.items) calls.now }
        ensures rule { self.new.rule ≡ self.old.rule }
        ensures capacity { vec_capacity post.old ≤ vec_capacity post.new }
    {
        for call in calls {
            let _ = self.step(post, *call);
        }
    }

    // Makes the calls, one after another, whatever each answers. Whatever run led here from an accepted
    // founding, that run and these calls have the three findings and keep every world in order, and with
    // room for 65,536 messages no call finds no memory.
    pub fn run(&mut self, post: &mut Vec<Message>, calls: &[Call])
        ensures found { Found S.Store.pages S.Store.places S.Breakable.leaves
            (R.QuorumRule.carries self.old.rule) (vec_capacity post.old)
            self.old.store (world S.Store.pages S.Store.places self.old post.old.items)
            self.new.store (world S.Store.pages S.Store.places self.new post.new.items) calls.now }
        ensures rule { self.new.rule ≡ self.old.rule }
        ensures capacity { vec_capacity post.old ≤ vec_capacity post.new }
    {
        self.make_all(post, calls);
    }

    // Founds, and makes the calls: the three findings of that evening, and every world of it in order.
    // With room for 65,536 messages no call finds no memory.
    pub fn evening(
        &mut self,
        post: &mut Vec<Message>,
        first: View,
        need: Need,
        calls: &[Call],
    ) -> Result<(), Fault>
        ensures answer { result ≡ allowed
            (founding_refusal first (S.Store.pages self.old.store) (S.Store.places self.old.store)) }
        ensures evening { OnOk result (Evening S.Store.pages S.Store.places S.Breakable.leaves
            (R.QuorumRule.carries self.old.rule) (vec_capacity post.old) first need
            self.old.store self.new.store (world S.Store.pages S.Store.places self.new post.new.items) calls.now) }
        ensures capacity { vec_capacity post.old ≤ vec_capacity post.new }
        ensures kept { OnErr result ((self.new ≡ self.old) × (post.new ≡ post.old)) }
    {
        self.found(post, first, need)?;
        self.run(post, calls);
        Ok(())
    }
}
