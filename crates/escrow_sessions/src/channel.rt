//! The channel to a worker: its two ends, and what is done at them.
ghost use Rattle.std.specs.Prelude.{◌≡◌, true};
ghost use Rattle.crossbeam_channel.specs.Claims.{view, IsSeatAt};
ghost use Rattle.crossbeam_channel.specs.Ends.{sends_on, receives_on};

use crate::rule::{Ends, InOrder, Item, Log, Sends, Takes, Whole};
use crate::source::Source;
use crossbeam_channel::{Pass, RuledReceiver, RuledSender, bounded_with};
use escrow_statement::Request;
use std::alloc::{AllocError, Global};
use std::sync::Wait;
use std::unreachable;

/// The end that sends.
#[derive(Drop)]
pub(crate) struct Sender {
    pub(crate) sender: RuledSender<Item, Log, InOrder>,
    pub(crate) pass: Pass<Item, Log>,
    ghost seated: { IsSeatAt (sends_on sender) pass },
    ghost sends: { (view pass).sends ≡ true },
}

/// The end that receives.
#[derive(Drop)]
pub(crate) struct Receiver {
    pub(crate) receiver: RuledReceiver<Item, Log, InOrder>,
    pub(crate) pass: Pass<Item, Log>,
    ghost seated: { IsSeatAt (receives_on receiver) pass },
    ghost takes: { (view pass).takes ≡ true },
}

/// The most messages that wait in a channel.
pub const MAX_WAITING: usize = 16;

impl Sender {
    ghost use Rattle.std.specs.Prelude.{◌≡◌, ◌++◌, List, IfOk};
    ghost use Rattle.crossbeam_channel.specs.Ends.{sends_on, receives_on};
    ghost use Rattle.escrow_sessions.specs.declared.rule.Item.{Item};
    ghost use Rattle.escrow_sessions.specs.Ends.{sent_on, taken_on, AreNew, IsSent};

    /// Returns the two ends of a new channel, on which nothing was sent. Fails only if memory is
    /// refused.
    pub(crate) fn open(alloc: Global) -> Result<(Self, Receiver), AllocError>
        ensures { IfOk result (λ ends. AreNew ends.0 ends.1) }
    {
        let (sender, receiver, mut pass) = bounded_with::<Item, Log, InOrder, Global>(
            alloc,
            MAX_WAITING,
        )?;
        let taking = sender.another::<Ends>(&mut pass);
        let sender_end = Sender { sender, pass };
        let receiver_end = Receiver {
            receiver,
            pass: taking,
        };
        Ok((sender_end, receiver_end))
    }

    /// Sends a message. May wait until there is room.
    pub(crate) fn send<R: Wait>(&mut self, rt: &R, mut item: Item)
        ensures { IsSent self.old item self.new }
    {
        for _ in rt.forever() {
            match self.sender.send_as::<Sends, R>(rt, &mut self.pass, item) {
                Ok(()) => return,
                Err(error) => item = error.into_inner(),
            }
        }
        unreachable!()
    }

    /// Brings both ends together. This shows that what was received is the first part of what was
    /// sent.
    pub(crate) fn meet(self, receiver_end: Receiver)
        requires { receives_on receiver_end.receiver ≡ sends_on self.sender }
        ensures { (left : List Item) × (sent_on self ≡ taken_on receiver_end ++ left) }
    {
        let Sender { sender, mut pass } = self;
        let Receiver {
            receiver,
            pass: taking,
        } = receiver_end;
        sender.absorb::<Ends>(&mut pass, taking);
        sender.learn_as::<Whole>(&mut pass);
        drop(receiver);
    }
}

impl Source for Receiver {
    ghost use Rattle.escrow_sessions.specs.Ends.{gives_taken};

    ghost gives = { gives_taken };

    fn next<R: Wait>(&mut self, rt: &R) -> Option<Request> {
        for _ in rt.forever() {
            match self.receiver.recv_as::<Takes, R>(rt, &mut self.pass) {
                Ok(Item::One(request)) => return Some(request),
                Ok(Item::End) => return None,
                Err(_) => {}
            }
        }
        unreachable!()
    }
}
