//! Searches whose memory is limited, by gauges that say what a test wants, and what Linux says as text.
use crate::parts::{all_within, asked_of};
use explore_command::{Gauge, Silent, explore_part, explore_script, peak_in};
use outcome_text::ExploreFault;
use search_tests::scenes::{REMOVED, script_of};
use std::alloc::Global;

/// A gauge that says so many bytes, or nothing.
#[derive(Drop)]
struct Says {
    bytes: Option<u64>,
}

impl Gauge for Says {
    ghost use Rattle.std.specs.Prelude.{◌≡◌};

    ghost may_say = { λ gauge said. said ≡ gauge.bytes };

    fn most_taken(&self) -> Option<u64> {
        self.bytes
    }
}

/// A limit of megabytes, what the gauge says, and how a search ends.
type Case = (Option<u32>, Option<u64>, Result<(), ExploreFault>);

#[rattlefmt::skip]
const CASES: [Case; 7] = [
    (None, None, Ok(())),
    (None, Some(u64::MAX), Ok(())),
    (Some(1), Some(1_000_000), Ok(())),
    (Some(1), Some(1_000_001), Err(ExploreFault::TooMuchMemory(1))),
    (Some(512), Some(512_000_000), Ok(())),
    (Some(512), Some(u64::MAX), Err(ExploreFault::TooMuchMemory(512))),
    (Some(1_000_000), None, Err(ExploreFault::NoGauge)),
];

/// Whether a search, or the search of a part, ends as it should, and nothing is written before a fault.
fn ends_so(alloc: Global, case: &Case, part: bool) -> Option<bool> {
    let (memory, bytes, wanted) = case;
    let mut asked = asked_of(alloc, &all_within(None), "")?;
    asked.memory = *memory;
    let gauge = Says { bytes: *bytes };
    let script = script_of(alloc, REMOVED).ok()?;
    let mut text = Vec::new(alloc);
    let (told, wait) = (&mut text, &mut Silent);
    let ended = if part {
        explore_part(alloc, &script, told, &asked, &gauge, wait)
    } else {
        match explore_script(alloc, &script, told, &asked, &gauge, wait) {
            Ok(_) => Ok(()),
            Err(fault) => Err(fault),
        }
    };
    Some(ended == *wanted && text.is_empty() == wanted.is_err())
}

#[test]
fn searches_end_by_their_gauge(rt: HostRuntime) {
    let alloc = rt.alloc();
    for case in &CASES {
        let ended = (ends_so(alloc, case, false), ends_so(alloc, case, true));
        assert!(rt;
            ended == (Some(true), Some(true)),
            "{:?} {:?}",
            case.0,
            case.1
        );
    }
}

/// A text of /proc/self/status, and what it says.
#[rattlefmt::skip]
const STATUSES: [(&str, Option<u64>); 7] = [
    ("Name:\tinroot\nVmPeak:\t    9000 kB\nVmHWM:\t    2816 kB\nVmRSS:\t    2700 kB\n", Some(2_883_584)),
    ("Name:\tinroot\nVmHWM:\t       0 kB\n", Some(0)),
    ("Name:\tVmHWM:\t1 kB\nVmHWM:\t    2816 kB\n", Some(2_883_584)),
    ("Name:\tinroot\nVmRSS:\t    2700 kB\n", None),
    ("Name:\tinroot\nVmHWM:\t    2816", None),
    ("Name:\tinroot\nVmHWM:\t 18446744073709551615 kB\n", None),
    ("", None),
];

#[test]
fn linux_says_how_much_was_resident(rt: HostRuntime) {
    for (status, bytes) in STATUSES {
        assert_eq!(rt; peak_in(status), bytes, "{status}");
    }
}
