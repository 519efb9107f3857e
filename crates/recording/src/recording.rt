// A recording fed in pieces: each unit is taken into the table where it ends, and nothing is kept but numbers and a unit's first bytes.
ghost use Rattle.std.specs.Prelude.{◌≡◌};
ghost use Rattle.bitstream.specs.Outcome.{number};
ghost use Rattle.aps_table.specs.Taking.{Verdict};
ghost use Rattle.aps_table.specs.Calls.{single};
ghost use Rattle.aps_table.specs.Answers.{unit_answer};
ghost use Rattle.recording.specs.Feeding.{new_recording, one_more, count_up, moved, emptied, ended, stepped, step_table, fed, fed_table, closed, closed_table, answered, answer_of};
ghost use Rattle.recording.specs.Inner.{more, Passed};
ghost use Rattle.recording.specs.Collected.{kept_taken};
ghost use Rattle.recording.specs.Feeding.{short_of};

use crate::collected::{COLLECTED, Collected};
use crate::scan::{BROKEN, Event, INSIDE, OUTSIDE, Scan};
use aps_table::places::Table;
use aps_table::table::{Counts, Taken};
use bitstream::Refusal;

// Where the scan stands, what is collected of the unit, how many units were accepted, refused and passed over, and how many bytes stood where they may. Counts and bytes are counted as far as 64 bits go.
#[repr(C)]
#[derive(Clone, Copy)]
pub struct Recording {
    pub(crate) scan: Scan,
    pub(crate) unit: Collected,
    pub(crate) counts: Counts,
    pub(crate) place: usize,
}

// 2: the place in the recording of the first byte that may not stand where it stands.
#[derive(Clone, Copy)]
pub struct OutOfPlace {
    pub place: usize,
}

impl OutOfPlace {
    // The number alone.
    pub fn refusal(self) -> Refusal
        ensures { number result ≡ 2 }
    {
        Refusal::InvalidData
    }
}

// One more, as far as 64 bits go.
#[tactic(auto, unfolding(crate::specs::Feeding::one_more))]
fn one_more(n: usize) -> usize
    ensures { result ≡ one_more n }
{
    if n < usize::MAX { n + 1 } else { n }
}

// So many more, as far as 64 bits go.
fn more(n: usize, m: usize) -> usize
    ensures { result ≡ more n m }
{
    if m < usize::MAX - n {
        return n + m;
    }
    usize::MAX
}

// One unit more is counted.
fn count_up(counts: Counts, answer: Result<Taken, Refusal>) -> Counts
    ensures { (v : Verdict) → unit_answer answer ≡ single v → result ≡ count_up v counts }
{
    match answer {
        Ok(Taken::Accepted) => Counts {
            accepted: one_more(counts.accepted),
            ..counts
        },
        Ok(Taken::Passed) => Counts {
            passed: one_more(counts.passed),
            ..counts
        },
        Err(_) => Counts {
            refused: one_more(counts.refused),
            ..counts
        },
    }
}

impl Recording {
    // Nothing was fed.
    #[tactic(auto, unfolding(crate::specs::Feeding::new_recording))]
    pub fn new() -> Self
        ensures { result ≡ new_recording }
    {
        Recording {
            scan: Scan {
                phase: OUTSIDE,
                zeros: 0,
            },
            unit: Collected {
                size: 0,
                head: [0u8; COLLECTED],
            },
            counts: Counts::default(),
            place: 0,
        }
    }

    // The scan goes on past a byte.
    fn goes_on(&mut self, phase: u8, zeros: u8)
        ensures { self.new ≡ moved phase zeros self.old }
    {
        self.scan = Scan { phase, zeros };
        self.place = one_more(self.place);
    }

    // A unit starts past a byte: nothing is collected of it.
    fn starts(&mut self)
        ensures { self.new ≡ moved 1 0 (emptied self.old) }
    {
        self.unit.size = 0;
        self.goes_on(INSIDE, 0);
    }

    // The unit ends here: it is taken and counted.
    fn ends(&mut self, table: &mut Table)
        ensures state { self.new ≡ ended self.old }
        ensures table { table.new ≡ kept_taken (short_of self.old.unit) table.old }
    {
        let answer = self.unit.take(table);
        self.counts = count_up(self.counts, answer);
    }

    // One byte.
    #[tactic(auto, unfolding(crate::specs::Feeding::stepped, crate::specs::Feeding::step_table))]
    fn step(&mut self, table: &mut Table, b: u8)
        ensures state { self.new ≡ stepped self.old b }
        ensures table { table.new ≡ step_table self.old b table.old }
    {
        let scan = self.scan;
        match scan.event(b) {
            Event::Waits => self.goes_on(scan.phase, scan.one_zero_more()),
            Event::Starts => self.starts(),
            Event::Collects => {
                self.unit.push_after(scan.zeros, b);
                self.goes_on(INSIDE, 0);
            }
            Event::Ends => {
                self.ends(table);
                self.goes_on(OUTSIDE, 2);
            }
            Event::Joins => {
                self.ends(table);
                self.starts();
            }
            Event::Breaks => self.scan.phase = BROKEN,
        }
    }

    // How many of the bytes are passed at once: up to the next zero byte, those of a unit with no zero byte right before are its own.
    fn pass_run(&mut self, s: &[u8]) -> usize
        ensures { Passed self.old s.now result self.new }
    {
        if self.scan.phase != INSIDE {
            return 0;
        }
        if self.scan.zeros != 0 {
            return 0;
        }
        let n = s.iter().position(|&b| b == 0).unwrap_or(s.len());
        self.unit.push_all(&s[..n]);
        self.place = more(self.place, n);
        n
    }

    // The counts, or the place of the byte that may not stand.
    #[tactic(auto, unfolding(crate::specs::Feeding::answer_of))]
    fn answer(&self) -> Result<Counts, OutOfPlace>
        ensures { answered result ≡ answer_of self.now }
    {
        if self.scan.phase >= BROKEN {
            return Err(OutOfPlace { place: self.place });
        }
        Ok(self.counts)
    }
}

// The next piece of the recording, of any length: each unit that ends in it is taken. 2 from the first byte on that may not stand where it stands: the table stays as the units before it left it.
pub fn feed(
    recording: &mut Recording,
    table: &mut Table,
    piece: &[u8],
) -> Result<Counts, OutOfPlace>
    ensures answer { answered result ≡ answer_of recording.new }
    ensures state { recording.new ≡ fed recording.old piece.now }
    ensures table { table.new ≡ fed_table recording.old piece.now table.old }
{
    let mut at = 0;
    // The next place is what the step gives; no index is counted.
    while at < piece.len() {
        recording.step(table, piece[at]);
        at += 1;
        at += recording.pass_run(&piece[at..]);
    }
    recording.answer()
}

// The unit that is pending ends here, at a cut or at the recording's end; zero bytes right before belong to no unit.
#[tactic(auto, unfolding(crate::specs::Feeding::closed, crate::specs::Feeding::closed_table))]
pub fn close(recording: &mut Recording, table: &mut Table) -> Result<Counts, OutOfPlace>
    ensures answer { answered result ≡ answer_of recording.new }
    ensures state { recording.new ≡ closed recording.old }
    ensures table { table.new ≡ closed_table recording.old table.old }
{
    if recording.scan.phase == INSIDE {
        recording.ends(table);
        recording.scan.phase = OUTSIDE;
    }
    recording.answer()
}
