//! The world of a script: what each line does, and what is written as it happens.
ghost use Rattle.std.specs.Prelude.{◌≡◌, ◌+◌, ◌*◌, ◌<◌, ◌≤◌, [], ◌^◌, false, length, OnOk, IfOk, slice_set, slice_index_or};
ghost use Rattle.std.specs.Io.KnownBytes.{append_known};
ghost use Rattle.sei_outside.specs.Faults.{Rose};
ghost use Rattle.sei_outside.specs.Bytes.{WrotePart};
ghost use Rattle.sei_code.specs.declared.modes.Mode.{Mode};
ghost use Rattle.mc_model.specs.Server.{IsValid};
ghost use Rattle.mc_model.specs.Views.{placed_of, IsSpanOf};
ghost use Rattle.mc_text.specs.Fits.{HasOwnHash};
ghost use Rattle.mc_text.specs.Reading.{IsReading, calls_at};
ghost use Rattle.sei_script.specs.ReportLines.{has_message};
ghost use Rattle.sei_main.specs.Seats.{empty_seat, fed_more};
ghost use Rattle.sei_main.specs.State.{limits_of, round_by, led_by};
ghost use Rattle.sei_main.specs.Serving.{answer_in, answers_by, is_abort, is_stopped, step_by};
ghost use Rattle.sei_main.specs.Asked.{IsCallAt};
ghost use Rattle.sei_main.specs.Becomes.{Becomes, IsNext, IsNextOf, IsKnown, IsResultOf, asking_of, answers_to, events_to, seat_behind};
ghost use Rattle.sei_main.specs.Report.{entered_text, ended_text, served_text, events_text, line_text_by};

use super::connection::Connection;
use super::service::{Entered, Numbers, Served, Service};
use crate::plans::Plans;
use mc_model::{CallSpan, Geometry};
use mc_text::{Limits, Request, read_front};
use sei_code::Memory;
use sei_outside::Sink;
use sei_script::{Reporter, ScriptLine, Stop};
use sei_traverse::State;
use std::alloc::Global;
use std::marker::Model;

/// A server, and the connections that were opened to it.
#[derive(Drop)]
pub struct World<S: Service> {
    alloc: Global,
    geometry: Geometry,
    server: S,
    connections: Vec<Connection>,
    /// What the clock answers, in seconds since the start of 1970.
    clock: u64,
    /// The faults that are planned for traversals.
    plans: Plans,
    /// Whether a traversal was aborted; then no connection makes a step any more.
    aborted: bool,
}

impl<S: Service> Model for World<S> {
    ghost use Rattle.std.specs.Prelude.{◌≡◌};
    ghost use Rattle.mc_model.specs.Server.{IsValid};
    ghost use Rattle.sei_main.specs.State.{StateOf, limits_of};

    ghost Value = { StateOf S };

    ghost view = { λ w. record { geometry = w.geometry; server = w.server; seats = w.connections.items; clock = w.clock; plans = w.plans; aborted = w.aborted } };

    ghost invariant = { λ w. IsValid w.geometry × (S.limits w.server ≡ limits_of w.geometry) };
}

/// A request whose calls are answered: when, whose it is, the number of its first call there, and the
/// numbers of the request and of its first message.
#[derive(Clone, Copy)]
struct Asking {
    now: u64,
    connection: u32,
    first: u64,
    numbers: Numbers,
}

/// What became of calls of a request: how many messages of the request were sent so far, and how the
/// last traversal ended.
#[derive(Clone, Copy)]
struct Answered {
    messages: u64,
    state: State,
}

/// Writes the line of an entry, if there is one.
fn write_entered<K: Sink>(
    reporter: Reporter,
    sink: &mut K,
    c: u32,
    number: u64,
    bucket: u64,
    entered: &Option<Entered>,
) -> Result<(), Stop>
    ensures all { OnOk result (K.written sink.new ≡ append_known (K.written sink.old) (entered_text reporter.history c number bucket entered.now)) }
    ensures part { WrotePart (K.written sink.old) (K.written sink.new) (entered_text reporter.history c number bucket entered.now) }
    ensures fault { result ≡ Err Stop.WriteFault → Rose (K.faults sink.old) (K.faults sink.new) }
    ensures told { K.faults sink.old < K.faults sink.new → result ≡ Err Stop.WriteFault }
    ensures later { K.faults sink.old ≤ K.faults sink.new }
{
    match entered {
        None => Ok(()),
        Some(entered) => {
            reporter.write_entry(sink, c, number, bucket, entered.now, entered.reply.bytes())
        }
    }
}

/// Writes how a traversal ended, if it did not finish.
fn write_ended<K: Sink>(
    reporter: Reporter,
    sink: &mut K,
    c: u32,
    number: u64,
    state: State,
) -> Result<(), Stop>
    ensures all { OnOk result (K.written sink.new ≡ append_known (K.written sink.old) (ended_text c number state)) }
    ensures part { WrotePart (K.written sink.old) (K.written sink.new) (ended_text c number state) }
    ensures fault { result ≡ Err Stop.WriteFault → Rose (K.faults sink.old) (K.faults sink.new) }
    ensures told { K.faults sink.old < K.faults sink.new → result ≡ Err Stop.WriteFault }
    ensures later { K.faults sink.old ≤ K.faults sink.new }
{
    match state {
        State::Went | State::Finished => Ok(()),
        State::Refused => reporter.write_refused(sink, c),
        State::Aborted(abort) => reporter.write_abort(sink, c, number, abort.phase, abort.cause),
    }
}

/// Writes what became of a call, which stands at this bucket and has this number at its connection;
/// whether a message was sent.
fn write_served<K: Sink>(
    reporter: Reporter,
    sink: &mut K,
    c: u32,
    number: u64,
    bucket: u64,
    served: &Served,
) -> Result<bool, Stop>
    ensures sent { IfOk result (λ sent. sent ≡ has_message served.now.message) }
    ensures all { OnOk result (K.written sink.new ≡ append_known (K.written sink.old) (served_text reporter.history c number bucket served.now)) }
    ensures part { WrotePart (K.written sink.old) (K.written sink.new) (served_text reporter.history c number bucket served.now) }
    ensures fault { result ≡ Err Stop.WriteFault → Rose (K.faults sink.old) (K.faults sink.new) }
    ensures told { K.faults sink.old < K.faults sink.new → result ≡ Err Stop.WriteFault }
    ensures later { K.faults sink.old ≤ K.faults sink.new }
{
    write_entered(reporter, sink, c, number, bucket, &served.entered)?;
    let sent = reporter.write_message(sink, c, served.message.bytes())?;
    write_ended(reporter, sink, c, number, served.state)?;
    Ok(sent)
}

/// Answers call number `nth` of a request, after n of its messages, and writes what happens.
fn answer_call<S: Service, K: Sink>(
    server: &mut S,
    reporter: Reporter,
    asking: Asking,
    plans: &Plans,
    text: &[u8],
    nth: u64,
    messages: u64,
    call: &CallSpan,
    sink: &mut K,
) -> Result<Answered, Stop>
    requires span { IsSpanOf text.now call.now }
    requires hash { HasOwnHash text.now call.now }
    requires call { IsCallAt (S.limits server.old) text.now nth (placed_of text.now call.now) }
    requires few { asking.first + nth + 1 < 2 ^ 64 }
    requires messages { messages ≤ nth }
    ensures server { OnOk result (server.new ≡ (answer_in S.answering (asking_of asking text.now plans.now) nth messages server.old (placed_of text.now call.now)).server) }
    ensures answered { IfOk result (λ answered. IsResultOf answered (answer_in S.answering (asking_of asking text.now plans.now) nth messages server.old (placed_of text.now call.now))) }
    ensures few { IfOk result (λ answered. answered.messages ≤ nth + 1) }
    ensures limits { S.limits server.new ≡ S.limits server.old }
    ensures all { OnOk result (K.written sink.new ≡ append_known (K.written sink.old) (events_text reporter.history (answer_in S.answering (asking_of asking text.now plans.now) nth messages server.old (placed_of text.now call.now)).events)) }
    ensures part { WrotePart (K.written sink.old) (K.written sink.new) (events_text reporter.history (answer_in S.answering (asking_of asking text.now plans.now) nth messages server.old (placed_of text.now call.now)).events) }
    ensures fault { result ≡ Err Stop.WriteFault → Rose (K.faults sink.old) (K.faults sink.new) }
    ensures told { K.faults sink.old < K.faults sink.new → result ≡ Err Stop.WriteFault }
    ensures later { K.faults sink.old ≤ K.faults sink.new }
{
    let number = asking.first + nth;
    let numbers = Numbers {
        request: asking.numbers.request,
        reply: asking.numbers.reply.saturating_add(messages),
    };
    let plan = plans.at(asking.connection, number);
    match server.answer(asking.now, text, nth, call, numbers, plan) {
        Err(_) => Err(Stop::Memory),
        Ok(served) => {
            let sent = write_served(
                reporter,
                sink,
                asking.connection,
                number,
                call.bucket,
                &served,
            )?;
            Ok(Answered {
                messages: messages + sent as u64,
                state: served.state,
            })
        }
    }
}

/// Whether a traversal ended otherwise than it should.
fn is_stopped(state: State) -> bool
    ensures { result ≡ is_stopped state }
{
    match state {
        State::Finished => false,
        State::Went | State::Refused | State::Aborted(_) => true,
    }
}

/// Answers the calls of a request, up to the first whose traversal does not finish, and writes what
/// happens.
fn answer_calls<S: Service, K: Sink>(
    server: &mut S,
    reporter: Reporter,
    asking: Asking,
    plans: &Plans,
    text: &[u8],
    request: &Request,
    sink: &mut K,
) -> Result<Answered, Stop>
    requires reading { IsReading (S.limits server.old) text.now request.now }
    requires some { 0 < length text.now }
    requires buckets { (S.limits server.old).buckets ≤ 64 }
    requires few { asking.first + 64 * length text.now < 2 ^ 64 }
    ensures server { OnOk result (server.new ≡ (answers_by S.answering (asking_of asking text.now plans.now) 0 0 server.old (calls_at text.now request.now)).server) }
    ensures answered { IfOk result (λ answered. IsResultOf answered (answers_by S.answering (asking_of asking text.now plans.now) 0 0 server.old (calls_at text.now request.now))) }
    ensures few { IfOk result (λ answered. answered.messages ≤ length (calls_at text.now request.now)) }
    ensures limits { S.limits server.new ≡ S.limits server.old }
    ensures all { OnOk result (K.written sink.new ≡ append_known (K.written sink.old) (events_text reporter.history (answers_by S.answering (asking_of asking text.now plans.now) 0 0 server.old (calls_at text.now request.now)).events)) }
    ensures part { WrotePart (K.written sink.old) (K.written sink.new) (events_text reporter.history (answers_by S.answering (asking_of asking text.now plans.now) 0 0 server.old (calls_at text.now request.now)).events) }
    ensures fault { result ≡ Err Stop.WriteFault → Rose (K.faults sink.old) (K.faults sink.new) }
    ensures told { K.faults sink.old < K.faults sink.new → result ≡ Err Stop.WriteFault }
    ensures later { K.faults sink.old ≤ K.faults sink.new }
{
    let mut answered = Answered {
        messages: 0,
        state: State::Finished,
    };
    let mut cursor = request.cursor(text);
    for nth in 0..request.calls() {
        if let Some(call) = cursor.next(request, text) {
            answered = answer_call(
                server,
                reporter,
                asking,
                plans,
                text,
                nth,
                answered.messages,
                &call,
                sink,
            )?;
            if is_stopped(answered.state) {
                return Ok(answered);
            }
        }
    }
    Ok(answered)
}

/// The connection takes a request, which stands in the first `size` bytes that wait there: its calls
/// are answered, at this time. Whether a traversal was aborted.
fn take_request<S: Service, K: Sink>(
    server: &mut S,
    connection: &mut Connection,
    reporter: Reporter,
    plans: &Plans,
    now: u64,
    c: u32,
    size: usize,
    request: &Request,
    sink: &mut K,
) -> Result<bool, Stop>
    requires next { IsNextOf (S.limits server.old) connection.old size request.now }
    requires buckets { (S.limits server.old).buckets ≤ 64 }
    ensures server { OnOk result (server.new ≡ (answers_to S.answering now plans.now c server.old connection.old size request.now).server) }
    ensures connection { OnOk result (connection.new ≡ seat_behind S.answering now plans.now c server.old connection.old size request.now) }
    ensures aborted { IfOk result (λ aborted. aborted ≡ is_abort (answers_to S.answering now plans.now c server.old connection.old size request.now).state) }
    ensures limits { S.limits server.new ≡ S.limits server.old }
    ensures all { OnOk result (K.written sink.new ≡ append_known (K.written sink.old) (events_text reporter.history (events_to S.answering now plans.now c server.old connection.old size request.now))) }
    ensures part { WrotePart (K.written sink.old) (K.written sink.new) (events_text reporter.history (events_to S.answering now plans.now c server.old connection.old size request.now)) }
    ensures fault { result ≡ Err Stop.WriteFault → Rose (K.faults sink.old) (K.faults sink.new) }
    ensures told { K.faults sink.old < K.faults sink.new → result ≡ Err Stop.WriteFault }
    ensures later { K.faults sink.old ≤ K.faults sink.new }
{
    let text = &connection.waiting()[..size];
    let asking = Asking {
        now,
        connection: c,
        first: connection.entered(),
        numbers: Numbers {
            request: connection.requests(),
            reply: connection.sent(),
        },
    };
    let answered = answer_calls(server, reporter, asking, plans, text, request, sink)?;
    match answered.state {
        State::Finished => {
            let closes = request.ends_connection();
            reporter.write_closed(sink, c, closes)?;
            connection.took(size, request.calls(), answered.messages, closes);
            Ok(false)
        }
        State::Went | State::Refused => {
            connection.stop(answered.messages);
            Ok(false)
        }
        State::Aborted(_) => {
            connection.stop(answered.messages);
            Ok(true)
        }
    }
}

fn feed_at(connections: &mut Vec<Connection>, c: usize, bytes: &[u8]) -> Result<(), Memory>
    requires { c < length connections.old.items }
    ensures { OnOk result (connections.new.items ≡ slice_set connections.old.items c (fed_more (slice_index_or connections.old.items c empty_seat) bytes.now)) }
{
    connections[c].feed(bytes)
}

/// The first whole request that waits at a connection, and how many bytes it has.
fn next_request(connection: &Connection, limits: &Limits) -> Option<(usize, Request)>
    requires { 0 < limits.now.buckets }
    ensures { IsNext limits.now connection.now result }
{
    if connection.is_closed() {
        return None;
    }
    match read_front(connection.waiting(), limits) {
        None => None,
        Some(request) => Some((request.length(), request)),
    }
}

#[tactic(auto, unfolding(crate::specs::State::led_by))]
impl<S: Service> World<S> {
    /// A world with this server and no connection, the clock at 0, and these planned faults.
    pub fn new(alloc: Global, geometry: Geometry, server: S, plans: Plans) -> World<S>
        requires geometry { IsValid geometry }
        requires limits { S.limits server ≡ limits_of geometry }
        ensures { result ≡ record { geometry = geometry; server = server; seats = []; clock = 0; plans = plans; aborted = false } }
    {
        World {
            alloc,
            geometry,
            server,
            connections: Vec::new(alloc),
            clock: 0,
            plans,
            aborted: false,
        }
    }

    pub fn connections(&self) -> &[Connection]
        ensures { result.now ≡ self.now.seats }
    {
        self.connections.as_slice()
    }

    /// Whether a traversal was aborted.
    pub fn is_aborted(&self) -> bool
        ensures { result ≡ self.now.aborted }
    {
        self.aborted
    }

    fn limits(&self) -> Limits
        ensures limits { result ≡ limits_of self.now.geometry }
        ensures some { 0 < result.buckets }
    {
        Limits {
            buckets: self.geometry.buckets,
            value_bytes: 8 * self.geometry.value_words,
        }
    }

    fn connect(&mut self) -> Result<(), Memory>
        ensures { OnOk result (self.new ≡ (led_by (step_by S.answering) self.old (ScriptLine.Open 0 Mode.Plain)).state) }
    {
        self.connections.push(Connection::new(self.alloc))?;
        Ok(())
    }

    fn feed(&mut self, c: u32, bytes: &[u8]) -> Result<(), Memory>
        requires { c < length self.old.seats }
        ensures { OnOk result (self.new ≡ (led_by (step_by S.answering) self.old (ScriptLine.Say c bytes.now)).state) }
    {
        feed_at(&mut self.connections, c as usize, bytes)
    }

    /// One step of a connection: its first whole request is answered. Whether there was one. Behind an
    /// abort nothing happens.
    fn step<K: Sink>(&mut self, reporter: Reporter, c: u32, sink: &mut K) -> Result<bool, Stop>
        requires { c < length self.old.seats }
        ensures state { IfOk result (λ went. Becomes self.new went (step_by S.answering self.old c)) }
        ensures all { OnOk result (K.written sink.new ≡ append_known (K.written sink.old) (events_text reporter.history (step_by S.answering self.old c).events)) }
        ensures part { WrotePart (K.written sink.old) (K.written sink.new) (events_text reporter.history (step_by S.answering self.old c).events) }
        ensures fault { result ≡ Err Stop.WriteFault → Rose (K.faults sink.old) (K.faults sink.new) }
        ensures told { K.faults sink.old < K.faults sink.new → result ≡ Err Stop.WriteFault }
        ensures later { K.faults sink.old ≤ K.faults sink.new }
    {
        if self.aborted {
            return Ok(false);
        }
        let limits = self.limits();
        match next_request(&self.connections[c as usize], &limits) {
            None => Ok(false),
            Some((size, request)) => match take_request(
                &mut self.server,
                &mut self.connections[c as usize],
                reporter,
                &self.plans,
                self.clock,
                c,
                size,
                &request,
                sink,
            ) {
                Err(stop) => Err(stop),
                Ok(aborted) => {
                    self.aborted = aborted;
                    Ok(true)
                }
            },
        }
    }

    /// One step of each connection. Whether one of them answered a request.
    fn round<K: Sink>(&mut self, reporter: Reporter, sink: &mut K) -> Result<bool, Stop>
        requires { length self.old.seats < 2 ^ 32 }
        ensures state { IfOk result (λ went. Becomes self.new went (round_by (step_by S.answering) self.old)) }
        ensures all { OnOk result (K.written sink.new ≡ append_known (K.written sink.old) (events_text reporter.history (round_by (step_by S.answering) self.old).events)) }
        ensures part { WrotePart (K.written sink.old) (K.written sink.new) (events_text reporter.history (round_by (step_by S.answering) self.old).events) }
        ensures fault { result ≡ Err Stop.WriteFault → Rose (K.faults sink.old) (K.faults sink.new) }
        ensures told { K.faults sink.old < K.faults sink.new → result ≡ Err Stop.WriteFault }
        ensures later { K.faults sink.old ≤ K.faults sink.new }
    {
        let count = self.connections.len() as u32;
        let mut went = false;
        for c in 0..count {
            let answered = self.step(reporter, c, sink)?;
            went |= answered;
        }
        Ok(went)
    }

    /// Rounds up to the first in which no connection answers a request.
    fn drain<K: Sink>(&mut self, reporter: Reporter, sink: &mut K) -> Result<(), Stop>
        requires { length self.old.seats < 2 ^ 32 }
        ensures state { OnOk result (self.new ≡ (led_by (step_by S.answering) self.old ScriptLine.Drain).state) }
        ensures all { OnOk result (K.written sink.new ≡ append_known (K.written sink.old) (line_text_by (step_by S.answering) reporter.history self.old ScriptLine.Drain)) }
        ensures part { WrotePart (K.written sink.old) (K.written sink.new) (line_text_by (step_by S.answering) reporter.history self.old ScriptLine.Drain) }
        ensures fault { result ≡ Err Stop.WriteFault → Rose (K.faults sink.old) (K.faults sink.new) }
        ensures told { K.faults sink.old < K.faults sink.new → result ≡ Err Stop.WriteFault }
        ensures later { K.faults sink.old ≤ K.faults sink.new }
    {
        let mut went = true;
        while went {
            went = self.round(reporter, sink)?;
        }
        Ok(())
    }

    /// Does what a line of the script says, and writes what it leads to.
    pub fn apply<K: Sink>(
        &mut self,
        reporter: Reporter,
        line: &ScriptLine,
        sink: &mut K,
    ) -> Result<(), Stop>
        requires few { length self.old.seats < 2 ^ 32 }
        requires known { IsKnown (length self.old.seats) line.now }
        ensures state { OnOk result (self.new ≡ (led_by (step_by S.answering) self.old line.now).state) }
        ensures all { OnOk result (K.written sink.new ≡ append_known (K.written sink.old) (line_text_by (step_by S.answering) reporter.history self.old line.now)) }
        ensures part { WrotePart (K.written sink.old) (K.written sink.new) (line_text_by (step_by S.answering) reporter.history self.old line.now) }
        ensures fault { result ≡ Err Stop.WriteFault → Rose (K.faults sink.old) (K.faults sink.new) }
        ensures told { K.faults sink.old < K.faults sink.new → result ≡ Err Stop.WriteFault }
        ensures later { K.faults sink.old ≤ K.faults sink.new }
    {
        match line {
            ScriptLine::Geometry { .. } => Ok(()),
            ScriptLine::Open { .. } => match self.connect() {
                Err(_) => Err(Stop::Memory),
                Ok(()) => Ok(()),
            },
            ScriptLine::Say { c, bytes } | ScriptLine::Hex { c, bytes } => {
                match self.feed(*c, bytes.bytes()) {
                    Err(_) => Err(Stop::Memory),
                    Ok(()) => Ok(()),
                }
            }
            ScriptLine::Drain => self.drain(reporter, sink),
            ScriptLine::Clock { now } => {
                self.clock = *now;
                Ok(())
            }
            ScriptLine::Fault { .. } => Ok(()),
        }
    }
}
