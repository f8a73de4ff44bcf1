// What one stage of the lines hands to the next: a value for each line, in its unit.
#![tactic(auto)]

use units::{Flow, Ms, Vph};

// Lines 1–3 with the folded volumes and the through volume without folded lefts.
#[derive(Clone, Copy)]
pub struct Volumes {
    pub left: Vph,
    pub through: Vph,
    pub right: Vph,
    pub foldedright: Vph,
    pub foldedleft: Vph,
    pub straight: Vph,
}

// Lines 4–9.
#[derive(Clone, Copy)]
pub struct Flows {
    pub turning: u32,
    pub left: Flow,
    pub through: Flow,
    pub right: Flow,
    pub straight: Flow,
    pub lefts: Flow,
}

// Lines 10–12.
#[derive(Clone, Copy)]
pub struct Walking {
    pub right: Ms,
    pub through: Ms,
    pub frequency: u32,
}

// Lines 13–18.
#[derive(Clone, Copy)]
pub struct Times {
    pub left: Ms,
    pub through: Ms,
    pub right: Ms,
    pub adjustedleft: Ms,
    pub adjustedthrough: Ms,
    pub adjustedright: Ms,
}

// Lines 1–18, which look at the approach alone.
#[derive(Clone, Copy)]
pub struct First {
    pub volumes: Volumes,
    pub flows: Flows,
    pub walking: Walking,
    pub times: Times,
}

// What the oncoming approach does to this one.
#[derive(Clone, Copy)]
pub struct Meeting {
    pub share: u32,
    pub alloweda: bool,
    pub allowedb: bool,
}

// Lines 19–22.
#[derive(Clone, Copy)]
pub struct LeftLane {
    pub heaviest: Vph,
    pub share: u32,
    pub equivalent: u32,
    pub flow: Flow,
}

// Lines 23–26.
#[derive(Clone, Copy)]
pub struct Permitted {
    pub a: Ms,
    pub b: Ms,
    pub lesser: Ms,
    pub weighted: Ms,
}

// Lines 27 and 28.
#[derive(Clone, Copy)]
pub struct Split {
    pub largest: Ms,
    pub weighted: Ms,
}

// Lines 19–28, which look across the street.
#[derive(Clone, Copy)]
pub struct Later {
    pub lane: LeftLane,
    pub permitted: Permitted,
    pub split: Split,
}

impl Later {
    // Where a sheet has no such lines.
    pub const NONE: Later = Later {
        lane: LeftLane {
            heaviest: Vph(0),
            share: 0,
            equivalent: 0,
            flow: Flow(0),
        },
        permitted: Permitted {
            a: Ms(0),
            b: Ms(0),
            lesser: Ms(0),
            weighted: Ms(0),
        },
        split: Split {
            largest: Ms(0),
            weighted: Ms(0),
        },
    };
}

// All lines of an approach.
#[derive(Clone, Copy)]
pub struct Lines {
    pub first: First,
    pub later: Later,
}
