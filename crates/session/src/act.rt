// The acts of a session: open, feed, complete, close; the inquiry for stale requests; its numbers and its device. Each act takes the session
// and hands back the next: what must be looked up is asked and looked up once, what will be done is planned from values, and then it is
// carried out.
ghost use Rattle.std.specs.Prelude.{ℕ, ◌≡◌, Some, length};
ghost use Rattle.limits.specs.Limits;
ghost use Rattle.results.specs.Results.{results_of};
ghost use Rattle.model.specs.State.{numbers_of, served_devid};
ghost use Rattle.model.specs.Acts.{plain, isochronous};
ghost use Rattle.model.specs.Cut.{lent};
ghost use Rattle.results.specs.declared.Results.{Results};
ghost use Rattle.settling.specs.Settling.{given_for};
ghost use Rattle.session.specs.Views.{standing_of, view_of, fresh_session, handed, answer_of};
ghost use Rattle.session.specs.Values.{request_fed, feed_value, plain_given, iso_given, complete_value, close_value, stale_value};
ghost use Rattle.session.specs.Acts.{Opens, Feeds, Completes, Closes, Inquires};

use crate::answer::{Closed, Completed, Fed, Inquired, Opened};
use crate::carry::{copy_body, write_header, write_planned, write_request_reply};
use crate::state::Session;
use ages::stale_tickets;
use events::answer::Answer;
use events::plan::Plan;
use exports::device::Table;
use feeding::ask::ask;
use feeding::message::plan_piece;
use feeding::request::plan_request;
use limits::{ATTACHED, CLOSED, WAITING};
use links::link::{Standing, fresh_link};
use pending::counts::Numbers;
use pending::list::Pending;
use pending::look::Key;
use results::Results;
use settling::close::plan_close;
use settling::completion::{Given, plan_completion};
use tables::is_good;
use verdicts::verdict::Refusal;

// A session that nothing was said to yet.
fn fresh_session(table: Table, phase: u8) -> Session
    ensures { result ≡ fresh_session table phase }
{
    let link = fresh_link(phase);
    let pending = Pending::empty();
    Session {
        table: table,
        link: link,
        pending: pending,
    }
}

// The answer of a feed's plan, with a reply of so many bytes. What stands beside an accepted submit's event is its record's.
fn answer_of(plan: Plan, length: usize) -> Answer
    ensures { result ≡ answer_of plan length }
{
    let event = plan.event;
    let change = plan.change;
    let urb = change.urb;
    let setup = urb.setup;
    let iso = urb.iso;
    Answer {
        event: event,
        consumed: plan.consumed,
        length: length,
        setup: setup,
        iso: iso,
    }
}

impl Session {
    // What the plans of its acts start from.
    fn standing(self) -> Standing
        ensures { result ≡ standing_of self }
    {
        Standing {
            link: self.link,
            pending: self.pending.count,
        }
    }

    // A session over a table: waiting, or closed over no devices if the table breaks a rule.
    pub fn open(table: Table) -> Opened
        ensures { Opens table result }
    {
        if is_good(table) {
            return Opened {
                session: fresh_session(table, WAITING),
                answer: Ok(()),
            };
        }
        let none = Table { count: 0, ..table };
        Opened {
            session: fresh_session(none, CLOSED),
            answer: Err(Refusal::BadTable),
        }
    }

    // A feed of a session that waits: a request, for which the time has no use. (Only this hands on the table, most of the session.)
    fn feed_request(self, piece: &[u8], work: &mut [u8], reply: &mut [u8]) -> Fed
        requires { self.link.phase ≡ Limits.WAITING }
        ensures by_index { (time : ℕ)
            → Feeds self piece.now (lent work.old reply.old) (lent work.new reply.new) time result }
        ensures value { result ≡ request_fed self piece.now (length work.old) (length reply.old) }
    {
        let list = self.pending;
        let now = self.standing();
        let asked = plan_request(self.table, now, piece, work.len(), reply.len());
        let plan = asked.plan;
        let said = asked.reply;
        let next = plan.link;
        let change = plan.change;
        let pending = list.changed(change);
        let dropped = list.tickets(change.dropped);
        copy_body(piece, plan.from, plan.to, plan.body, work);
        let n = write_request_reply(self.table, said, reply);
        Fed {
            session: Session {
                link: next,
                pending: pending,
                ..self
            },
            answer: answer_of(plan, n),
            dropped: dropped,
        }
    }

    // A piece of the stream, up to the end of the first whole message or all of it, and the time, in milliseconds that wrap. A submit's
    // data and descriptors go to the work buffer, a reply to the front of the reply buffer.
    pub fn feed(self, piece: &[u8], work: &mut [u8], reply: &mut [u8], time: u32) -> Fed
        ensures feeds { Feeds self piece.now (lent work.old reply.old) (lent work.new reply.new) time result }
        ensures value { result ≡ feed_value self piece.now (length work.old) (length reply.old) time }
    {
        let link = self.link;
        if link.phase == WAITING {
            return self.feed_request(piece, work, reply);
        }
        let list = self.pending;
        let asked = ask(link, piece);
        let look = list.look(asked.key);
        let now = self.standing();
        let plan = plan_piece(now, asked, look, piece, work.len(), reply.len(), time);
        let next = plan.link;
        let change = plan.change;
        let pending = list.changed(change);
        let dropped = list.tickets(change.dropped);
        let n = write_planned(plan, piece, work, reply);
        Fed {
            session: Session {
                link: next,
                pending: pending,
                ..self
            },
            answer: answer_of(plan, n),
            dropped: dropped,
        }
    }

    // A completion of either kind. (An array inside an Option isn't known to have its type's length.)
    fn settle(self, ticket: u64, given: Given, payload: &[u8], header: &mut [u8]) -> Completed
        requires { (r : Results) → given.results ≡ Some r → length r.list ≡ Limits.MAX-PACKETS }
        ensures completes { Completes self (given_for given ticket payload.now header.old) header.new result }
        ensures value { result ≡ complete_value self given ticket (length payload.now) (length header.old) }
    {
        let list = self.pending;
        let now = self.standing();
        let look = list.look(Some(Key::Ticket(ticket)));
        let plan = plan_completion(now, look, given, payload.len(), header.len());
        let next = plan.link;
        let change = plan.change;
        let iso = plan.iso;
        let pending = list.changed(change);
        write_header(plan.reply, iso, given.results, header);
        Completed {
            session: Session {
                link: next,
                pending: pending,
                ..self
            },
            answer: plan.answer,
        }
    }

    // The device side is done with a ticket: the header of its reply, and how long the reply is on the wire. (payload is the
    // device's data.)
    pub fn complete(
        self,
        ticket: u64,
        status: u32,
        actual: u32,
        payload: &[u8],
        header: &mut [u8],
    ) -> Completed
        ensures completes { Completes self (handed plain ticket status actual payload.now header.old) header.new result }
        ensures value { result ≡ complete_value self (plain_given status actual) ticket (length payload.now) (length header.old) }
    {
        let given = Given {
            status: status,
            actual: actual,
            results: None,
        };
        self.settle(ticket, given, payload, header)
    }

    // The same for an isochronous URB, with a result for each packet; total is the sum of their actual lengths. The descriptors stand
    // behind the header's 48 bytes. (Two acts, as the rules and the C header have them.)
    pub fn complete_iso(
        self,
        ticket: u64,
        status: u32,
        total: u32,
        results: Results,
        payload: &[u8],
        header: &mut [u8],
    ) -> Completed
        ensures completes { Completes self (handed (isochronous (results_of results)) ticket status total payload.now header.old)
            header.new result }
        ensures value { result ≡ complete_value self (iso_given status total results) ticket (length payload.now) (length header.old) }
    {
        let given = Given {
            status: status,
            actual: total,
            results: Some(results),
        };
        self.settle(ticket, given, payload, header)
    }

    // The end: what is pending is dropped.
    pub fn close(self) -> Closed
        ensures closes { Closes self result }
        ensures value { result ≡ close_value self }
    {
        let list = self.pending;
        let plan = plan_close(self.standing());
        let next = plan.link;
        let change = plan.change;
        let pending = list.changed(change);
        let dropped = list.tickets(change.dropped);
        Closed {
            session: Session {
                link: next,
                pending: pending,
                ..self
            },
            answer: plan.answer,
            dropped: dropped,
        }
    }

    // The tickets of the pending URBs that are stale: whose age at a time is at least a limit. The session stays as it is, and isn't handed
    // back.
    pub fn stale(self, time: u32, limit: u32) -> Inquired
        ensures inquires { Inquires self time limit result }
        ensures value { result ≡ stale_value self time limit }
    {
        let list = self.pending;
        if self.standing().phase() == CLOSED {
            return Inquired {
                answer: Err(Refusal::SessionClosed),
                stale: list.tickets(0),
            };
        }
        let listed = Ok(());
        Inquired {
            answer: listed,
            stale: stale_tickets(list, time, limit),
        }
    }

    // How many URBs were accepted, are pending, were returned, unlinked and dropped.
    pub fn numbers(self) -> Numbers
        ensures { result ≡ numbers_of (view_of self) }
    {
        let counts = self.link.counts;
        let list = self.pending;
        Numbers {
            accepted: counts.accepted,
            pending: list.len() as u64,
            returned: counts.returned,
            unlinked: counts.unlinked,
            dropped: counts.dropped,
        }
    }

    // The devid of the device that is attached, by which a host knows which one it serves; 0 while none is.
    pub fn devid(self) -> u64
        ensures { result ≡ served_devid (view_of self) }
    {
        if self.standing().phase() == ATTACHED {
            return self.link.devid;
        }
        0
    }
}
