// The results of an `I>` record, and their total.
ghost use Rattle.std.specs.Prelude.{◌≡◌, ◌+◌, ◌-◌, ◌*◌, ◌%◌, ◌^◌, ◌≤◌, ◌++◌, fold, length, drop, replicate};
ghost use Rattle.limits.specs.Limits.{MAX-PACKETS};
ghost use Rattle.results.specs.Results.{no_result, results_of};
ghost use Rattle.tape.specs.Layout;
ghost use Rattle.tape.specs.Tape.{result_at, read_results, iso_results, iso_total};

use crate::layout::{RESULT_LEN, RESULT_STATUS_AT, RESULTS_AT};
use limits::MAX_PACKETS;
use results::{PacketResult, Results, no_results, refused_results};
use wire::number::BigEndian;

fn result_at(bytes: &[u8], at: usize) -> PacketResult
    requires { at + Layout.RESULT-LEN ≤ length bytes.now }
    ensures { result ≡ result_at at bytes.now }
{
    PacketResult {
        actual: u32::read(bytes, at),
        status: u32::read(bytes, at + RESULT_STATUS_AT),
    }
}

// The first count results, and blank ones behind them. (The count is a byte of the tape: no slice has it.)
fn results_in(bytes: &[u8], count: usize) -> [PacketResult; MAX_PACKETS]
    requires { (count ≤ MAX-PACKETS) × (Layout.RESULTS-AT + count * Layout.RESULT-LEN ≤ length bytes.now) }
    ensures { result ≡ read_results count (drop Layout.RESULTS-AT bytes.now) ++ replicate (MAX-PACKETS - count) no_result }
{
    let mut list = refused_results(0);
    for i in 0..count {
        list[i] = result_at(bytes, RESULTS_AT + i * RESULT_LEN);
    }
    list
}

// The results of a record that has `count` of them; none where they aren't all there.
pub fn iso_results(bytes: &[u8], count: u8) -> Results
    ensures { (results_of result ≡ iso_results count bytes.now) × (result.count ≤ MAX-PACKETS) }
{
    let n = count as usize;
    if MAX_PACKETS < n || bytes.len() < RESULTS_AT + n * RESULT_LEN {
        return no_results();
    }
    Results {
        list: results_in(bytes, n),
        count: n,
    }
}

// What their actual lengths add up to, each sum wrapped.
fn total_of(list: &[PacketResult]) -> u32
    ensures { result ≡ fold (λ total r. (total + r.actual) % 2 ^ 32) 0 list.now }
{
    list.iter()
        .fold(0, |total: u32, r| total.wrapping_add(r.actual))
}

// The sum of their actual lengths, which wraps.
#[tactic(auto, using(crate::proofs::Results::total_folded))]
pub fn iso_total(r: Results) -> u32
    ensures { result ≡ iso_total (results_of r) }
{
    total_of(r.listed())
}
