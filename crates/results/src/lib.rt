// What the device side says of an isochronous URB's packets, judged and counted. What each is stands in specs/.
#![tactic(auto)]

ghost use Rattle.std.specs.Prelude.{◌≡◌, ◌≤◌, length, take, replicate};
ghost use Rattle.limits.specs.Limits.{MAX-PACKETS};
ghost use Rattle.results.specs.Results.{packet_result, no_results, results_of, sum, errors, all_within, results_fit};

use ground::part::front;
use limits::MAX_PACKETS;
use packets::packet::Packet;

// A packet's actual length and status.
#[repr(C)]
#[derive(Clone, Copy)]
pub struct PacketResult {
    pub actual: u32,
    pub status: u32,
}

// The first count of the list. A count above MAX_PACKETS fits no URB. (An array and a count: C hands it in.)
#[repr(C)]
#[derive(Clone, Copy)]
pub struct Results {
    pub list: [PacketResult; MAX_PACKETS],
    pub count: usize,
}

// The same for each packet of a submit that is refused: nothing was transferred, and the status is the reply's.
pub fn refused_results(status: u32) -> [PacketResult; MAX_PACKETS]
    ensures { result ≡ replicate MAX-PACKETS (packet_result 0 status) }
{
    [PacketResult { actual: 0, status }; MAX_PACKETS]
}

// What stands in the place of results where there are none.
pub fn no_results() -> Results
    ensures { result ≡ no_results }
{
    Results {
        list: refused_results(0),
        count: 0,
    }
}

impl Results {
    // The first count of the list; all of it where the count is above it.
    pub fn listed(&self) -> &[PacketResult]
        ensures front { result.now ≡ take self.now.count self.now.list }
        ensures few { length result.now ≤ MAX-PACKETS }
    {
        front(&self.list, self.count)
    }

    // In 64 bits, where the sum of MAX_PACKETS numbers of 32 is exact.
    fn sum(&self) -> u64
        ensures { result ≡ sum (results_of self.now) }
    {
        self.listed().iter().map(|r| r.actual as u64).sum()
    }

    // No actual length is above its packet's.
    fn all_within(&self, iso: &[Packet]) -> bool
        requires { self.now.count ≤ length iso.now }
        ensures { result ≡ all_within iso.now (results_of self.now) }
    {
        self.listed()
            .iter()
            .zip(iso)
            .all(|(r, p)| r.actual <= p.length)
    }
}

// How many packets have a status that isn't 0.
pub fn error_count(r: Results) -> u32
    ensures { result ≡ errors (results_of r) }
{
    r.listed().iter().filter(|r| r.status != 0).count() as u32
}

// Whether results fit a URB with these packets, where so many bytes were transferred in all.
pub fn results_fit(iso: &[Packet], r: Results, total: u32) -> bool
    ensures { result ≡ results_fit (length iso.now) iso.now (results_of r) total }
{
    r.count == iso.len() && r.all_within(iso) && r.sum() == total as u64
}
