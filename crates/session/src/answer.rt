// What the acts hand back: the next session, and an answer of `events`. The tickets of what was dropped stand beside it, lowest
// first. An inquiry changes nothing and hands back no session; the stale tickets stand beside its answer.
use crate::state::Session;
use events::answer::{Answer, Returned};
use pending::list::Tickets;
use verdicts::verdict::Refusal;

#[derive(Clone, Copy)]
pub struct Opened {
    pub session: Session,
    pub answer: Result<(), Refusal>,
}

#[derive(Clone, Copy)]
pub struct Fed {
    pub session: Session,
    pub answer: Answer,
    pub dropped: Tickets,
}

#[derive(Clone, Copy)]
pub struct Completed {
    pub session: Session,
    pub answer: Result<Returned, Refusal>,
}

#[derive(Clone, Copy)]
pub struct Closed {
    pub session: Session,
    pub answer: Result<(), Refusal>,
    pub dropped: Tickets,
}

#[derive(Clone, Copy)]
pub struct Inquired {
    pub answer: Result<(), Refusal>,
    pub stale: Tickets,
}
