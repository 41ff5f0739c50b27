//! A link in memory, whose requests are there from the beginning.
ghost use Rattle.std.specs.Prelude.{◌≡◌, ◌≤◌, [], true, false, Err, IfOk, IfErr, OnErr, IsErr, IsErrOf};
ghost use Rattle.vub_base.specs.Causes.{Rose};
ghost use Rattle.vub_attend.specs.Links.{GivesNext, TakesAnswer, IsLinkError, IsEnding};

use crate::link::{Closer, Link, LinkFailed};
use std::alloc::Global;
use std::collections::VecDeque;
use std::marker::Model;
use vub_base::{Bytes, OutOfMemory};
use vub_proto::{Answer, Request, VhostUserError};

/// A queue of requests that ends with an error, which it gives at every further `next`. It keeps the answers, and tells
/// them with the requests that are left. Each call at which it ends, and a refused `open`, counts as a fault.
#[derive(Debug, Drop)]
pub struct MemLink {
    requests: VecDeque<Request>,
    answers: Vec<Answer>,
    ending: VhostUserError,
    opens: bool,
    faults: u64,
}

impl Model for MemLink {
    ghost use Rattle.vub_attend.specs.Links.{MemTalk, IsEnding};

    ghost Value = { MemTalk };

    ghost view = { λ l. record {
      talk = record { left = l.requests.items; given = l.answers.items };
      ending = l.ending;
      opens = l.opens;
      faults = l.faults;
    } };

    ghost invariant = { λ l. IsEnding l.ending };
}

/// The closer of a link that ends by itself.
#[derive(Clone, Copy, Debug)]
pub struct NoCloser;

impl Closer for NoCloser {
    fn close(&self) {}
}

/// A copy of an answer.
///
/// # Errors
/// Want of memory.
fn copied(alloc: Global, answer: &Answer) -> Result<Answer, OutOfMemory>
    ensures { IfOk result (λ copy. copy ≡ answer.now) }
{
    let copy = match answer {
        Answer::Ok => Answer::Ok,
        Answer::Number(n) => Answer::Number(*n),
        Answer::Content(bytes) => Answer::Content(Bytes::from_slice(alloc, bytes.as_slice())?),
        Answer::Object(object) => Answer::Object(*object),
        Answer::Base { index, num } => Answer::Base {
            index: *index,
            num: *num,
        },
        Answer::Failed(error) => Answer::Failed(*error),
        Answer::Listener(error) => Answer::Listener(*error),
    };
    Ok(copy)
}

impl MemLink {
    /// A link with these requests, in order, that ends with this error. Takes no memory.
    pub fn new(alloc: Global, requests: Vec<Request>, ending: VhostUserError) -> MemLink
        requires { IsEnding ending }
        ensures left { result.talk.left ≡ requests.items }
        ensures given { result.talk.given ≡ [] }
        ensures ending { result.ending ≡ ending }
        ensures opens { result.opens ≡ true }
        ensures faults { result.faults ≡ 0 }
    {
        MemLink {
            requests: VecDeque::from_vec(requests),
            answers: Vec::new(alloc),
            ending,
            opens: true,
            faults: 0,
        }
    }

    /// The same link, which can't be opened.
    pub fn unopened(self) -> MemLink
        ensures { result ≡ record self { opens = false } }
    {
        let MemLink {
            requests,
            answers,
            ending,
            opens: _,
            faults,
        } = self;
        MemLink {
            requests,
            answers,
            ending,
            opens: false,
            faults,
        }
    }

    /// The answers that it was given, in order.
    pub fn answers(&self) -> &[Answer]
        ensures { result.now ≡ self.now.talk.given }
    {
        self.answers.as_slice()
    }

    /// Counts a fault.
    fn count(&mut self)
        ensures rest { self.new ≡ record self.old { faults = self.new.faults } }
        ensures rose { Rose self.old.faults self.new.faults }
        ensures later { self.old.faults ≤ self.new.faults }
    {
        self.faults = self.faults.saturating_add(1);
    }
}

impl Link for MemLink {
    type Closer = NoCloser;

    ghost use Rattle.std.specs.Prelude.{Some};

    ghost talk = { λ l. Some l.talk };

    ghost fault_count = { λ l. l.faults };

    fn faults(&self) -> u64 {
        self.faults
    }

    /// Opens the link.
    ///
    /// # Errors
    /// Exactly where it was made not to open.
    fn open(&mut self) -> Result<(), LinkFailed>
        ensures exact { OnErr result (self.old.opens ≡ false) }
        ensures cause { OnErr result (Rose self.old.faults self.new.faults) }
        ensures later { self.old.faults ≤ self.new.faults }
        ensures talk { Some self.new.talk ≡ Some self.old.talk }
    {
        if self.opens {
            return Ok(());
        }
        self.count();
        Err(LinkFailed)
    }

    /// Takes the next request.
    ///
    /// # Errors
    /// The error with which the link ends, exactly where no request is left.
    fn next(&mut self, _alloc: Global) -> Result<Request, VhostUserError>
        ensures gives { GivesNext (Some self.old.talk) (Some self.new.talk) result }
        ensures cause { IfErr result (IsLinkError self.old.faults self.new.faults) }
        ensures later { self.old.faults ≤ self.new.faults }
        ensures ends { self.old.talk.left ≡ [] → result ≡ Err self.old.ending }
        ensures ending { self.new.ending ≡ self.old.ending }
    {
        match self.requests.pop_front() {
            Some(request) => Ok(request),
            None => {
                self.count();
                Err(self.ending)
            }
        }
    }

    /// Keeps the answer.
    ///
    /// # Errors
    /// Want of memory.
    fn answer(&mut self, alloc: Global, answer: &Answer) -> Result<(), VhostUserError>
        ensures takes { TakesAnswer answer.now (Some self.old.talk) (Some self.new.talk) result }
        ensures cause { IfErr result (IsLinkError self.old.faults self.new.faults) }
        ensures later { self.old.faults ≤ self.new.faults }
        ensures memory { IfErr result (λ e. e ≡ VhostUserError.OutOfMemory) }
    {
        let Ok(copy) = copied(alloc, answer) else {
            return Err(VhostUserError::OutOfMemory);
        };
        match self.answers.push(copy) {
            Ok(()) => Ok(()),
            Err(_) => Err(VhostUserError::OutOfMemory),
        }
    }

    fn closer(&self, _alloc: Global) -> Result<NoCloser, OutOfMemory> {
        Ok(NoCloser)
    }
}
