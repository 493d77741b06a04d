// The floor's own refusals, or the task that it hands to the manager.
ghost use Rattle.std.specs.Prelude.{◌≡◌, nat_le};
ghost use Rattle.quorum.specs.Faults.{refused_if, given};
ghost use Rattle.quorum.specs.declared.fault.Reason.TheVariants.{NoSuchReplica};
ghost use Rattle.runs.specs.World.{floor_refusal, message_at, up_test, down_test, loss_test, delivery_test};
ghost use Rattle.floor.specs.Tasks.{delivery_task, tasked};

use super::floor::Floor;
use super::task::Task;
use manager::check_message;
use quorum::{Fault, Layer, QuorumRule, Reason, Replica, refuse_if};
use rows::Message;
use runs::Work;
use stores::Breakable;

// The message at an index of the post.
fn message_at(post: &[Message], index: u64) -> Option<Message>
    ensures { result ≡ message_at post.now index }
{
    post.get(index as usize).copied()
}

// There is such a replica.
fn find(replica: u8) -> Result<Replica, Fault>
    ensures { result ≡ given (refused_if (nat_le 16 replica) (floor_refusal NoSuchReplica replica)) replica }
{
    Replica::new(replica).ok_or(Reason::NoSuchReplica.at(replica, Layer::Floor))
}

impl<R: QuorumRule + Copy, S: Breakable> Floor<R, S> {
    // There is such a replica, and it is up.
    pub(crate) fn check_up(&self, replica: u8) -> Result<Replica, Fault>
        ensures { result ≡ given (up_test self.now.table.rows replica) replica }
    {
        let found = find(replica)?;
        let down = !self.table.row(found).up;
        refuse_if(down, Reason::WrongPower.at(replica, Layer::Floor))?;
        Ok(found)
    }

    // There is such a replica, and it is down. A function beside the one above: a flag for up at each call would be no plainer.
    fn check_down(&self, replica: u8) -> Result<Replica, Fault>
        ensures { result ≡ given (down_test self.now.table.rows replica) replica }
    {
        let found = find(replica)?;
        let up = self.table.row(found).up;
        refuse_if(up, Reason::WrongPower.at(replica, Layer::Floor))?;
        Ok(found)
    }

    // There are such replicas, and the first is up.
    fn check_loss(&self, replica: u8, lost: u8) -> Result<Replica, Fault>
        ensures { result ≡ given (loss_test self.now.table.rows replica lost) replica }
    {
        find(replica)?;
        find(lost)?;
        self.check_up(replica)
    }

    // A message against the rules comes first, an index past the post last.
    fn check_delivery(
        &self,
        replica: u8,
        message: Option<Message>,
    ) -> Result<(Replica, Task), Fault>
        ensures { result ≡ delivery_task replica (delivery_test self.now.table.rows replica message) message }
    {
        let Some(message) = message else {
            self.check_up(replica)?;
            return Err(Reason::NoSuchMessage.at(replica, Layer::Floor));
        };
        check_message(replica, &message)?;
        Ok((self.check_up(replica)?, Task::Deliver(message)))
    }

    // The replica at which a call is made, and what the manager is asked there.
    pub(crate) fn task(&self, post: &[Message], work: Work) -> Result<(Replica, Task), Fault>
        ensures { result ≡ tasked self.now.table.rows post.now work }
    {
        match work {
            Work::View(replica, head) => Ok((self.check_up(replica)?, Task::View(head))),
            Work::Deliver(replica, index) => self.check_delivery(replica, message_at(post, index)),
            Work::Loss(replica, lost) => Ok((self.check_loss(replica, lost)?, Task::Loss(lost))),
            Work::Start(replica) => Ok((self.check_down(replica)?, Task::Start)),
        }
    }
}
