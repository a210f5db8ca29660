//! Floors.

use crate::texts::{
    ALONE, BARE, CHAIN, EQUAL, LEVEL, NO_MASTER, ONE, ONE_FREE, PRIMES, RATIO, RAY, RISES, STEEP,
    X_APART, Y_AND_Z,
};
use crate::wanted::{CutNumbers, Place, is_at, is_cut, split_of};
use bz_event::{FloorAnswer, Solved, TaskName, TaskStop};
use bz_floor::floor;
use std::test::Fail;

/// What is wanted of a floor.
#[derive(Clone, Copy)]
enum Wanted {
    Cut(CutNumbers),
    Ray(&'static [i128]),
    Stop(Place),
}

/// The floor of a block, and all its right answers.
#[derive(Clone, Copy)]
struct FloorOf {
    model: &'static [u8],
    part: &'static [u8],
    block: u32,
    wanted: &'static [Wanted],
}

const FLOORS: &[FloorOf] = &[
    // No row, and a cost that falls.
    FloorOf {
        model: RAY,
        part: X_APART,
        block: 1,
        wanted: &[Wanted::Ray(&[1])],
    },
    // Two inequalities, of which either holds the cost.
    FloorOf {
        model: ONE,
        part: X_APART,
        block: 1,
        wanted: &[
            Wanted::Cut(CutNumbers {
                alpha: &[],
                p0: 1,
                beta: 0,
                gcd: 1,
                mu: &[(1, 3)],
            }),
            Wanted::Cut(CutNumbers {
                alpha: &[(0, -6)],
                p0: 1,
                beta: -3,
                gcd: 1,
                mu: &[(0, 3)],
            }),
        ],
    },
    // A row and a free column.
    FloorOf {
        model: ONE_FREE,
        part: X_APART,
        block: 1,
        wanted: &[Wanted::Cut(CutNumbers {
            alpha: &[(0, -6)],
            p0: 1,
            beta: -3,
            gcd: 1,
            mu: &[(0, 3)],
        })],
    },
    // An equality and a free column.
    FloorOf {
        model: EQUAL,
        part: X_APART,
        block: 1,
        wanted: &[Wanted::Cut(CutNumbers {
            alpha: &[(0, -10)],
            p0: 3,
            beta: -5,
            gcd: 1,
            mu: &[(1, 5)],
        })],
    },
    // An upper bound and a maximum.
    FloorOf {
        model: RISES,
        part: X_APART,
        block: 1,
        wanted: &[Wanted::Cut(CutNumbers {
            alpha: &[],
            p0: 2,
            beta: 15,
            gcd: 1,
            mu: &[(0, 3)],
        })],
    },
    // No inequality.
    FloorOf {
        model: BARE,
        part: Y_AND_Z,
        block: 1,
        wanted: &[Wanted::Ray(&[-1])],
    },
    // Neither an inequality nor a cost.
    FloorOf {
        model: BARE,
        part: Y_AND_Z,
        block: 2,
        wanted: &[Wanted::Cut(CutNumbers {
            alpha: &[],
            p0: 1,
            beta: 0,
            gcd: 1,
            mu: &[],
        })],
    },
    // No master columns.
    FloorOf {
        model: ALONE,
        part: NO_MASTER,
        block: 1,
        wanted: &[
            Wanted::Cut(CutNumbers {
                alpha: &[],
                p0: 1,
                beta: 0,
                gcd: 1,
                mu: &[(1, 1), (2, 2)],
            }),
            Wanted::Cut(CutNumbers {
                alpha: &[],
                p0: 1,
                beta: -3,
                gcd: 1,
                mu: &[(0, 1), (2, 1)],
            }),
        ],
    },
    // A master without integers.
    FloorOf {
        model: LEVEL,
        part: X_APART,
        block: 1,
        wanted: &[
            Wanted::Cut(CutNumbers {
                alpha: &[],
                p0: 1,
                beta: 0,
                gcd: 1,
                mu: &[(2, 2), (4, 1)],
            }),
            Wanted::Cut(CutNumbers {
                alpha: &[],
                p0: 1,
                beta: 2,
                gcd: 2,
                mu: &[(1, 1), (2, 5)],
            }),
            Wanted::Cut(CutNumbers {
                alpha: &[(0, 2)],
                p0: 1,
                beta: 1,
                gcd: 1,
                mu: &[(0, 2), (3, 1)],
            }),
            Wanted::Cut(CutNumbers {
                alpha: &[(0, 1)],
                p0: 1,
                beta: 0,
                gcd: 1,
                mu: &[(0, 1), (2, 1)],
            }),
        ],
    },
    // A ray that has to be divided.
    FloorOf {
        model: RATIO,
        part: X_APART,
        block: 1,
        wanted: &[Wanted::Ray(&[2, 1])],
    },
    // A wide sum along a ray.
    FloorOf {
        model: CHAIN,
        part: X_APART,
        block: 1,
        wanted: &[Wanted::Stop(Place::Fold { list: 9, at: 0 })],
    },
    // A wide sum of the cut.
    FloorOf {
        model: STEEP,
        part: X_APART,
        block: 1,
        wanted: &[Wanted::Stop(Place::Fold { list: 7, at: 0 })],
    },
    // A wide common denominator.
    FloorOf {
        model: PRIMES,
        part: X_APART,
        block: 1,
        wanted: &[Wanted::Stop(Place::Den { place: 1 })],
    },
];

fn is_answer(answer: &FloorAnswer, block: u32, wanted: &Wanted) -> bool {
    match (answer, wanted) {
        (FloorAnswer::Floor { cut, .. }, Wanted::Cut(numbers)) => is_cut(cut, block, numbers),
        (FloorAnswer::Ray { d }, Wanted::Ray(numbers)) => d.as_slice() == *numbers,
        _ => false,
    }
}

/// Whether the floor of the block came to what is wanted.
fn is_wanted(found: &Result<Solved<FloorAnswer>, TaskStop>, block: u32, wanted: &Wanted) -> bool {
    let task = TaskName::Floor { block };
    match (found, wanted) {
        (Err(TaskStop::Wide(stopped)), Wanted::Stop(place)) => {
            stopped.task == task && is_at(&stopped.answer, *place)
        },
        (Ok(solved), _) => solved.task == task && is_answer(&solved.answer, block, wanted),
        _ => false,
    }
}

#[test]
fn floors_come_to_their_answers(rt: HostRuntime) -> Result<(), Fail> {
    let alloc = rt.alloc();
    for (at, case) in FLOORS.iter().enumerate() {
        let split = split_of(alloc, case.model, case.part)?;
        if case.block < 1 || case.block > split.blocks() {
            return Err(Fail::from("there is no such block"));
        }
        let found = floor(alloc, &split, case.block);
        let right = case
            .wanted
            .iter()
            .any(|wanted| is_wanted(&found, case.block, wanted));
        assert!(rt; right, "at {at}");
    }
    Ok(())
}
