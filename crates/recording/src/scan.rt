// Where the scan of a recording stands, and what the next byte does there: H.266 Annex B.
ghost use Rattle.std.specs.Prelude.{◌≡◌};
ghost use Rattle.recording.specs.Scanning.{outside_event, inside_event, event, two_of_next};

// The phases, as numbers that C can hold; any other counts as the last.
pub(crate) const OUTSIDE: u8 = 0;

pub(crate) const INSIDE: u8 = 1;

pub(crate) const BROKEN: u8 = 2;

// The phase, and the zero bytes right before: more than two count as two.
#[repr(C)]
#[derive(Clone, Copy)]
pub(crate) struct Scan {
    pub(crate) phase: u8,
    pub(crate) zeros: u8,
}

// What a byte does: a zero byte waits; it starts a unit; it is the unit's own, and so are the zero bytes right before; it ends the unit; it ends it and starts the next; it may not stand there.
#[derive(Clone, Copy)]
pub(crate) enum Event {
    Waits,
    Starts,
    Collects,
    Ends,
    Joins,
    Breaks,
}

impl Scan {
    // Outside of a unit only zero bytes may stand, and 01 after two of them starts one.
    #[tactic(auto, unfolding(crate::specs::Scanning::outside_event))]
    fn outside_event(self, b: u8) -> Event
        ensures { result ≡ outside_event self.zeros b }
    {
        if b == 0 {
            return Event::Waits;
        }
        if b != 1 {
            return Event::Breaks;
        }
        if self.zeros < 2 {
            return Event::Breaks;
        }
        Event::Starts
    }

    // A unit ends before 00 00 00 and 00 00 01.
    #[tactic(auto, unfolding(crate::specs::Scanning::inside_event))]
    fn inside_event(self, b: u8) -> Event
        ensures { result ≡ inside_event self.zeros b }
    {
        if b > 1 {
            return Event::Collects;
        }
        if self.zeros < 2 {
            if b == 0 {
                return Event::Waits;
            }
            return Event::Collects;
        }
        if b == 0 {
            return Event::Ends;
        }
        Event::Joins
    }

    // What the byte does.
    #[tactic(auto, unfolding(crate::specs::Scanning::event))]
    pub(crate) fn event(self, b: u8) -> Event
        ensures { result ≡ event self b }
    {
        if self.phase == OUTSIDE {
            return self.outside_event(b);
        }
        if self.phase == INSIDE {
            return self.inside_event(b);
        }
        Event::Breaks
    }

    // The zero bytes with one more.
    pub(crate) fn one_zero_more(self) -> u8
        ensures { result ≡ two_of_next self.zeros }
    {
        if self.zeros == 0 { 1 } else { 2 }
    }
}
