//! What the world asks of a server, and the plain server as one.
ghost use Rattle.std.specs.Prelude.{◌≡◌, OnOk, IfOk, length};
ghost use Rattle.mc_model.specs.Views.{placed_of, IsSpanOf};
ghost use Rattle.mc_text.specs.declared.limits.Limits.{Limits};
ghost use Rattle.mc_text.specs.Fits.{HasOwnHash};
ghost use Rattle.sei_main.specs.Asked.{IsCallAt};
ghost use Rattle.sei_main.specs.Answering.{Answering, asked, plain_answering};

use mc_model::{CallSpan, PlainServer};
use sei_code::Memory;
use sei_fault::Planned;
use sei_script::Text;
use sei_traverse::State;

/// Which messages of its connection a call has to do with.
#[derive(Clone, Copy, Debug, PartialEq, Eq)]
pub struct Numbers {
    /// The number of the request, from 0.
    pub request: u64,
    /// The number of the message that the reply is, from 0: how many were sent before.
    pub reply: u64,
}

/// The entry of a call.
#[derive(Drop)]
pub struct Entered {
    /// The time at which it was carried out, in seconds since the start of 1970.
    pub now: u64,
    /// Its reply.
    pub reply: Text,
}

/// What became of a call.
#[derive(Drop)]
pub struct Served {
    /// Its entry, if it was entered.
    pub entered: Option<Entered>,
    /// The message that was sent; an empty one if none was.
    pub message: Text,
    /// How its traversal ended.
    pub state: State,
}

/// A server of calls: what becomes of a call is a function of the server's state and of what it is asked.
pub trait Service {
    /// The server after a call, what became of it, and how many strikes fell in its traversal.
    ghost answering: { Answering Self };

    /// The limits of the requests that it is asked, which never change.
    ghost limits: { Self → Limits };

    /// Answers `call`, whose key and block are spans of `text`: call number `nth`, from 0, of the
    /// request that `text` spells. `now` is in seconds since the start of 1970, and `plan` is the fault
    /// that is planned for its traversal. If memory ran out, nothing is said of the server but its
    /// limits.
    fn answer(
        &mut self,
        now: u64,
        text: &[u8],
        nth: u64,
        call: &CallSpan,
        numbers: Numbers,
        plan: Option<Planned>,
    ) -> Result<Served, Memory>
        requires span { IsSpanOf text.now call.now }
        requires hash { HasOwnHash text.now call.now }
        requires call { IsCallAt (limits self.old) text.now nth (placed_of text.now call.now) }
        ensures server { OnOk result (self.new ≡ (answering self.old (asked now text.now nth (placed_of text.now call.now) numbers plan)).server) }
        ensures served { IfOk result (λ served. served ≡ (answering self.old (asked now text.now nth (placed_of text.now call.now) numbers plan)).served) }
        ensures limits { limits self.new ≡ limits self.old };
}

/// The plain server knows no faults: it enters each call, sends its reply, and finishes.
impl Service for PlainServer {
    ghost answering = { plain_answering };

    ghost limits = { λ s. record { buckets = length s.buckets; value_bytes = s.room.value_bytes } };

    fn answer(
        &mut self,
        now: u64,
        text: &[u8],
        _nth: u64,
        call: &CallSpan,
        _numbers: Numbers,
        _plan: Option<Planned>,
    ) -> Result<Served, Memory> {
        let reply = PlainServer::answer(self, now, text, call)?;
        let message = reply.clone()?;
        Ok(Served {
            entered: Some(Entered {
                now,
                reply: Text::new(reply),
            }),
            message: Text::new(message),
            state: State::Finished,
        })
    }
}
