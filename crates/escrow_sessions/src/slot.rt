//! A worker that is fed through a channel, and what is done with it.
ghost use Rattle.std.specs.Prelude.{[], ◌≡◌};
ghost use Rattle.crossbeam_channel.specs.Ends.{sends_on, receives_on};
ghost use Rattle.escrow_sessions.specs.Ends.{taken_on};

use crate::channel::{Receiver, Sender};
use crate::feed::{Done, Ended};
use crate::rule::Item;
use crate::service::Service;
use crate::team::{Work, Worked, Worker, WorkerContext, start};
use escrow_shards::{Gate, Pass};
use std::sync::Wait;
use std::thread::{PromisedHandle, Threads};

/// A worker that is fed through a channel, or one that couldn't be started, to which nothing is
/// sent.
#[derive(Drop)]
pub(crate) enum Slot {
    Fed(FedWorker),
    Absent(Done),
}

impl Slot {
    ghost use Rattle.std.specs.Prelude.{[], ◌∷◌, ◌++◌, List};
    ghost use Rattle.escrow_shards.specs.Pass.{Pass};
    ghost use Rattle.escrow_sessions.specs.Slots.{IsSlot, JoinsAs};
    ghost use Rattle.escrow_sessions.specs.declared.rule.Item.{Item};

    /// Makes a channel, and then starts a worker that takes from it.
    pub(crate) fn start_fed<E, H: Service + Sync, R: Wait + Sync, G: Gate + Sync>(
        context: &WorkerContext<'_, '_, E, H, R, G>,
        place: u64,
        pass: Pass,
    ) -> Self
        requires { H.has_pass context.now.service.now pass }
        ensures { IsSlot pass [] result }
    {
        let Ok((sender, receiver)) = Sender::open(context.alloc) else {
            return Slot::Absent(Done {
                pass,
                answers: Vec::new(context.alloc),
                ended: Ended::NotStarted,
            });
        };
        match start(context, place, pass, receiver) {
            Worker::Absent(Worked { done, source }) => {
                sender.meet(source);
                Slot::Absent(done)
            }
            Worker::Started(thread) => Slot::Fed(FedWorker { sender, thread }),
        }
    }

    /// Sends a message to the worker, if it was started. May wait until there is room.
    pub(crate) fn send<R: Wait>(&mut self, rt: &R, item: Item)
        ensures { (seat : Pass) (sent : List Item) → IsSlot seat sent self.old
            → IsSlot seat (sent ++ item ∷ []) self.new }
    {
        match self {
            Slot::Fed(fed) => fed.send(rt, item),
            Slot::Absent(_) => drop(item),
        }
    }

    /// Waits for the worker's thread to end, and returns what the worker did.
    pub(crate) fn join<R: Threads>(self, rt: &R) -> Done
        ensures { JoinsAs self result }
    {
        match self {
            Slot::Fed(fed) => fed.join(rt),
            Slot::Absent(done) => done,
        }
    }
}

/// A worker on its thread. It began with the other end of the channel, from which nothing had been
/// received.
#[derive(Drop)]
pub(crate) struct FedWorker {
    pub(crate) sender: Sender,
    pub(crate) thread: PromisedHandle<Worked<Receiver>, Work<Receiver>>,
    ghost channel: { receives_on thread.promise.source.value.receiver ≡ sends_on sender.sender },
    ghost began: { taken_on thread.promise.source.value ≡ [] },
}

impl FedWorker {
    ghost use Rattle.std.specs.Prelude.{◌≡◌, List};
    ghost use Rattle.escrow_statement.specs.declared.statement.Request.{Request};
    ghost use Rattle.escrow_sessions.specs.Ends.{sent_on};
    ghost use Rattle.escrow_sessions.specs.Serving.{IsDone};
    ghost use Rattle.escrow_sessions.specs.Slots.{IsSentTo, to_the_end};

    /// Sends the worker a message. May wait until there is room.
    pub(crate) fn send<R: Wait>(&mut self, rt: &R, item: Item)
        ensures { IsSentTo self.old item self.new }
    {
        self.sender.send(rt, item);
    }

    /// Waits for the worker's thread to end, and returns what the worker did.
    pub(crate) fn join<R: Threads>(self, rt: &R) -> Done
        ensures { (requests : List Request) → sent_on self.sender ≡ to_the_end requests
            → IsDone self.thread.promise.pass.value requests result }
    {
        let FedWorker { sender, thread } = self;
        let Worked { done, source } = thread.join(rt);
        sender.meet(source);
        done
    }
}
