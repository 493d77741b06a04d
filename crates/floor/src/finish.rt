// A call that is not cut off: its page's write and its messages.
ghost use Rattle.std.specs.Prelude.{◌≡◌, ◌+◌, ◌<◌, ◌≤◌, ◌++◌, length, vec_len, vec_capacity, Err, IfOk, OnOk, OnErr, slice_set};
ghost use Rattle.quorum.specs.declared.fault.Failure.TheVariants.{NoMemory};
ghost use Rattle.runs.specs.World.{Did, Same, listed, unit_of};
ghost use Rattle.floor.specs.Memory.{LacksRoomFor};
ghost use Rattle.floor.specs.Parts.{PutBack, Stored, Tested};
ghost use Rattle.floor.specs.Worlds.{world};

use super::accepted::Accepted;
use super::floor::Floor;
use super::founding::set_row;
use manager::Answer;
use quorum::{Failure, QuorumRule, Replica};
use rows::{Message, Posts, Row};
use runs::Work;
use std::alloc::AllocError;
use stores::{Breakable, Store};

// How many messages a call posts.
fn outgoing_count(posts: Posts) -> usize
    ensures { result ≡ length (listed posts) }
{
    match posts {
        Posts::Nothing => 0,
        Posts::One(_) => 1,
        Posts::Two(_, _) => 2,
    }
}

// Where the store has a place, room in the post for so many messages. Where it has none the write
// will be refused, and no room is made, so that want of memory is told last.
#[inline(always)]
fn make_room<S: Store>(store: &S, post: &mut Vec<Message>, count: usize) -> Result<(), AllocError>
    ensures room { OnOk result
        (0 < S.places store.now → vec_len post.new + count ≤ vec_capacity post.new) }
    ensures lacking { OnErr result
        ((0 < S.places store.now) × (vec_capacity post.old < vec_len post.old + count)) }
    ensures items { post.new.items ≡ post.old.items }
    ensures len { vec_len post.new ≡ vec_len post.old }
    ensures capacity { vec_capacity post.old ≤ vec_capacity post.new }
{
    if store.places() > 0 {
        post.reserve(count)?;
    }
    Ok(())
}

// Appends the messages, for which there is room.
#[inline(always)]
fn append(post: &mut Vec<Message>, posts: Posts)
    requires { vec_len post.old + length (listed posts) ≤ vec_capacity post.old }
    ensures items { post.new.items ≡ post.old.items ++ listed posts }
    ensures capacity { vec_capacity post.new ≡ vec_capacity post.old }
{
    match posts {
        Posts::Nothing => {}
        Posts::One(message) => post.push_reserved(message),
        Posts::Two(first, second) => {
            post.push_reserved(first);
            post.push_reserved(second);
        }
    }
}

impl<R: QuorumRule + Copy, S: Breakable> Floor<R, S> {
    // The page is written, and the messages are posted; refused, nothing changes.
    #[inline(always)]
    fn write_and_post(
        &mut self,
        post: &mut Vec<Message>,
        accepted: &Accepted,
    ) -> Result<(), Failure>
        ensures test { Tested (world S.Store.pages S.Store.places self.old post.old.items) accepted.now result }
        ensures memory { result ≡ Err NoMemory
            → vec_capacity post.old < vec_len post.old + length (listed accepted.now.answer.posts) }
        ensures stored { OnOk result (Stored
            (world S.Store.pages S.Store.places self.old post.old.items) accepted.now
            (world S.Store.pages S.Store.places self.new post.new.items)) }
        ensures refused { OnErr result (Same
            (world S.Store.pages S.Store.places self.old post.old.items)
            (world S.Store.pages S.Store.places self.new post.new.items)) }
        ensures rule { self.new.rule ≡ self.old.rule }
        ensures capacity { vec_capacity post.old ≤ vec_capacity post.new }
    {
        accepted.check_room(post)?;
        let posts = accepted.answer.posts;
        make_room(&self.store, post, outgoing_count(posts))?;
        self.store.write(accepted.kept)?;
        append(post, posts);
        Ok(())
    }

    // A row is put back as it was.
    #[inline(always)]
    pub(crate) fn put_back(&mut self, replica: Replica, before: Row)
        ensures { self.new ≡ record self.old {
          table = record { rows = slice_set self.old.table.rows replica before };
        } }
    {
        set_row(&mut self.table, replica, before);
    }

    // The end of a call that the manager accepted. Refused here, the row is put back as it was before.
    #[inline(always)]
    fn finish(
        &mut self,
        post: &mut Vec<Message>,
        accepted: &Accepted,
        before: &Row,
    ) -> Result<Answer, Failure>
        ensures test { Tested
            (world S.Store.pages S.Store.places self.old post.old.items) accepted.now (unit_of result) }
        ensures memory { result ≡ Err NoMemory
            → vec_capacity post.old < vec_len post.old + length (listed accepted.now.answer.posts) }
        ensures answer { IfOk result (λ a. a ≡ accepted.now.answer) }
        ensures stored { OnOk result (Stored
            (world S.Store.pages S.Store.places self.old post.old.items) accepted.now
            (world S.Store.pages S.Store.places self.new post.new.items)) }
        ensures refused { OnErr result (PutBack
            (world S.Store.pages S.Store.places self.old post.old.items) accepted.now before.now
            (world S.Store.pages S.Store.places self.new post.new.items)) }
        ensures rule { self.new.rule ≡ self.old.rule }
        ensures capacity { vec_capacity post.old ≤ vec_capacity post.new }
    {
        match self.write_and_post(post, accepted) {
            Ok(()) => Ok(accepted.answer),
            Err(failure) => {
                self.put_back(accepted.kept.replica, *before);
                Err(failure)
            }
        }
    }

    // A call that is not cut off.
    #[inline(always)]
    pub(crate) fn carry_out(
        &mut self,
        post: &mut Vec<Message>,
        work: Work,
    ) -> Result<Answer, Failure>
        ensures did { Did (R.QuorumRule.carries self.old.rule)
            (world S.Store.pages S.Store.places self.old post.old.items) work result
            (world S.Store.pages S.Store.places self.new post.new.items) }
        ensures memory { result ≡ Err NoMemory → LacksRoomFor (R.QuorumRule.carries self.old.rule)
            (world S.Store.pages S.Store.places self.old post.old.items) work (vec_capacity post.old) }
        ensures rule { self.new.rule ≡ self.old.rule }
        ensures capacity { vec_capacity post.old ≤ vec_capacity post.new }
    {
        let before = self.row_before(work);
        let accepted = self.accept(post, work)?;
        self.finish(post, &accepted, &before)
    }
}
