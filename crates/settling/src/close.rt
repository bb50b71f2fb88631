// The plan of a close.
ghost use Rattle.std.specs.Prelude.{◌≡◌};
ghost use Rattle.settling.specs.Settling.{close_plan};

use limits::CLOSED;
use links::link::{Link, Standing};
use pending::change::Change;
use verdicts::verdict::Refusal;

// What a close will do: the next link, the change of the list, the answer.
#[derive(Clone, Copy)]
pub struct ClosePlan {
    pub link: Link,
    pub change: Change,
    pub answer: Result<(), Refusal>,
}

// A close: all URBs are dropped.
#[tactic(auto, unfolding(crate::specs::Settling::close_plan))]
pub fn plan_close(now: Standing) -> ClosePlan
    ensures { result ≡ close_plan now.link now.pending }
{
    if now.phase() == CLOSED {
        return ClosePlan {
            link: now.link,
            change: Change::keep(now.pending),
            answer: Err(Refusal::SessionClosed),
        };
    }
    ClosePlan {
        link: now.ended(),
        change: Change::clear(now.pending),
        answer: Ok(()),
    }
}
