//! Separations.

use crate::master;
use crate::texts::{
    ALONE, BARE, DOUBLE, EQUAL, FAR, FIFTH, FIXED, GATE, HALF, LEVEL, NO_MASTER, ONE, RISES, STEEP,
    TALL, TWO_BLOCKS, WIDE, X_APART, Y_AND_Z,
};
use crate::wanted::{CutNumbers, Place, is_at, is_cut, split_of, unfit};
use bz_cut::Mode;
use bz_event::{SepAnswer, SepTask, Solved, TaskName, TaskStop};
use bz_sep::separate;
use std::test::Fail;

/// What is wanted of a separation.
#[derive(Clone, Copy)]
enum Wanted {
    Cut(CutNumbers),
    Fill { times: i128, y: &'static [i128] },
    Stop(Place),
}

/// The separation of a block at the point `x / den` with the etas `eta / den`, and all its right answers.
#[derive(Clone, Copy)]
struct Separation {
    model: &'static [u8],
    part: &'static [u8],
    block: u32,
    den: i128,
    x: &'static [i128],
    eta: &'static [i128],
    mode: Mode,
    wanted: &'static [Wanted],
}

const SEPARATIONS: &[Separation] = &[
    // A closed gate.
    Separation {
        model: GATE,
        part: TWO_BLOCKS,
        block: 1,
        den: 1,
        x: &[0],
        eta: &[0, 0],
        mode: Mode::Cost,
        wanted: &[Wanted::Cut(CutNumbers {
            alpha: &[(0, -1)],
            p0: 0,
            beta: -1,
            gcd: 1,
            mu: &[(0, 1), (1, 1)],
        })],
    },
    // An open gate.
    Separation {
        model: GATE,
        part: TWO_BLOCKS,
        block: 1,
        den: 1,
        x: &[1],
        eta: &[0, 0],
        mode: Mode::Cost,
        wanted: &[Wanted::Fill { times: 1, y: &[0] }],
    },
    // The second gate, half open.
    Separation {
        model: GATE,
        part: TWO_BLOCKS,
        block: 2,
        den: 2,
        x: &[1],
        eta: &[0, 0],
        mode: Mode::Point,
        wanted: &[Wanted::Cut(CutNumbers {
            alpha: &[(0, -1)],
            p0: 0,
            beta: -1,
            gcd: 1,
            mu: &[(0, 1), (1, 1)],
        })],
    },
    // A block without a cost, and an eta below 0.
    Separation {
        model: GATE,
        part: TWO_BLOCKS,
        block: 1,
        den: 1,
        x: &[1],
        eta: &[-1, 0],
        mode: Mode::Cost,
        wanted: &[Wanted::Cut(CutNumbers {
            alpha: &[],
            p0: 1,
            beta: 0,
            gcd: 1,
            mu: &[],
        })],
    },
    // A wide right side.
    Separation {
        model: WIDE,
        part: X_APART,
        block: 1,
        den: 1,
        x: &[10000000000000000000],
        eta: &[0],
        mode: Mode::Cost,
        wanted: &[Wanted::Stop(Place::Build { row: 0 })],
    },
    // A row and the cost.
    Separation {
        model: ONE,
        part: X_APART,
        block: 1,
        den: 1,
        x: &[0],
        eta: &[0],
        mode: Mode::Cost,
        wanted: &[Wanted::Cut(CutNumbers {
            alpha: &[(0, -6)],
            p0: 1,
            beta: -3,
            gcd: 1,
            mu: &[(0, 3)],
        })],
    },
    // Just enough for the cost.
    Separation {
        model: ONE,
        part: X_APART,
        block: 1,
        den: 4,
        x: &[1],
        eta: &[6],
        mode: Mode::Cost,
        wanted: &[Wanted::Fill { times: 1, y: &[2] }],
    },
    // Too little by a quarter.
    Separation {
        model: ONE,
        part: X_APART,
        block: 1,
        den: 4,
        x: &[1],
        eta: &[5],
        mode: Mode::Cost,
        wanted: &[Wanted::Cut(CutNumbers {
            alpha: &[(0, -6)],
            p0: 1,
            beta: -3,
            gcd: 1,
            mu: &[(0, 3)],
        })],
    },
    // Without a cost.
    Separation {
        model: ONE,
        part: X_APART,
        block: 1,
        den: 4,
        x: &[2],
        eta: &[-7],
        mode: Mode::Point,
        wanted: &[Wanted::Fill { times: 1, y: &[0] }],
    },
    // An equality and a free column.
    Separation {
        model: EQUAL,
        part: X_APART,
        block: 1,
        den: 1,
        x: &[0],
        eta: &[2],
        mode: Mode::Cost,
        wanted: &[Wanted::Fill { times: 3, y: &[1] }],
    },
    // The same for less.
    Separation {
        model: EQUAL,
        part: X_APART,
        block: 1,
        den: 1,
        x: &[0],
        eta: &[1],
        mode: Mode::Cost,
        wanted: &[Wanted::Cut(CutNumbers {
            alpha: &[(0, -10)],
            p0: 3,
            beta: -5,
            gcd: 1,
            mu: &[(1, 5)],
        })],
    },
    // A block without rows.
    Separation {
        model: BARE,
        part: Y_AND_Z,
        block: 1,
        den: 1,
        x: &[0],
        eta: &[-3, 0],
        mode: Mode::Cost,
        wanted: &[Wanted::Fill { times: 2, y: &[-3] }],
    },
    // The same without a cost.
    Separation {
        model: BARE,
        part: Y_AND_Z,
        block: 1,
        den: 1,
        x: &[0],
        eta: &[-3, 0],
        mode: Mode::Point,
        wanted: &[Wanted::Fill { times: 1, y: &[0] }],
    },
    // A block without rows and cost.
    Separation {
        model: BARE,
        part: Y_AND_Z,
        block: 2,
        den: 3,
        x: &[0],
        eta: &[0, -3],
        mode: Mode::Cost,
        wanted: &[Wanted::Cut(CutNumbers {
            alpha: &[],
            p0: 1,
            beta: 0,
            gcd: 1,
            mu: &[],
        })],
    },
    // A column fixed.
    Separation {
        model: FIXED,
        part: X_APART,
        block: 1,
        den: 2,
        x: &[1],
        eta: &[15],
        mode: Mode::Cost,
        wanted: &[Wanted::Fill { times: 1, y: &[5] }],
    },
    // The same for less.
    Separation {
        model: FIXED,
        part: X_APART,
        block: 1,
        den: 2,
        x: &[1],
        eta: &[14],
        mode: Mode::Cost,
        wanted: &[Wanted::Cut(CutNumbers {
            alpha: &[],
            p0: 2,
            beta: -15,
            gcd: 1,
            mu: &[(1, 3)],
        })],
    },
    // No master columns.
    Separation {
        model: ALONE,
        part: NO_MASTER,
        block: 1,
        den: 1,
        x: &[],
        eta: &[3],
        mode: Mode::Cost,
        wanted: &[Wanted::Fill {
            times: 1,
            y: &[3, 0],
        }],
    },
    // The same for less.
    Separation {
        model: ALONE,
        part: NO_MASTER,
        block: 1,
        den: 1,
        x: &[],
        eta: &[2],
        mode: Mode::Cost,
        wanted: &[Wanted::Cut(CutNumbers {
            alpha: &[],
            p0: 1,
            beta: -3,
            gcd: 1,
            mu: &[(0, 1), (2, 1)],
        })],
    },
    // A master without integers.
    Separation {
        model: LEVEL,
        part: X_APART,
        block: 1,
        den: 3,
        x: &[7],
        eta: &[11],
        mode: Mode::Cost,
        wanted: &[Wanted::Fill {
            times: 1,
            y: &[4, 3],
        }],
    },
    // The same for less.
    Separation {
        model: LEVEL,
        part: X_APART,
        block: 1,
        den: 3,
        x: &[7],
        eta: &[10],
        mode: Mode::Cost,
        wanted: &[Wanted::Cut(CutNumbers {
            alpha: &[(0, 2)],
            p0: 1,
            beta: 1,
            gcd: 1,
            mu: &[(0, 2), (3, 1)],
        })],
    },
    // Above all that the rows allow.
    Separation {
        model: LEVEL,
        part: X_APART,
        block: 1,
        den: 2,
        x: &[15],
        eta: &[99],
        mode: Mode::Cost,
        wanted: &[Wanted::Cut(CutNumbers {
            alpha: &[(0, 1)],
            p0: 0,
            beta: 7,
            gcd: 1,
            mu: &[(0, 1), (1, 1), (3, 3)],
        })],
    },
    // Numbers with a common divisor.
    Separation {
        model: DOUBLE,
        part: X_APART,
        block: 1,
        den: 1,
        x: &[0],
        eta: &[0],
        mode: Mode::Point,
        wanted: &[Wanted::Cut(CutNumbers {
            alpha: &[(0, -1)],
            p0: 0,
            beta: -1,
            gcd: 2,
            mu: &[(0, 1), (1, 1)],
        })],
    },
    // A maximum.
    Separation {
        model: RISES,
        part: X_APART,
        block: 1,
        den: 1,
        x: &[1],
        eta: &[-8],
        mode: Mode::Cost,
        wanted: &[Wanted::Cut(CutNumbers {
            alpha: &[],
            p0: 2,
            beta: 15,
            gcd: 1,
            mu: &[(0, 3)],
        })],
    },
    // A wide pivot.
    Separation {
        model: FAR,
        part: X_APART,
        block: 1,
        den: 1,
        x: &[0],
        eta: &[0],
        mode: Mode::Point,
        wanted: &[Wanted::Stop(Place::Pivot {
            row: 1,
            pivot_row: 0,
            column: 2,
        })],
    },
    // A wide sum of the cut.
    Separation {
        model: STEEP,
        part: X_APART,
        block: 1,
        den: 1,
        x: &[0],
        eta: &[0],
        mode: Mode::Cost,
        wanted: &[Wanted::Stop(Place::Fold { list: 7, at: 0 })],
    },
    // A wide denominator.
    Separation {
        model: FIFTH,
        part: X_APART,
        block: 1,
        den: 40000000000000000000000000000000000001,
        x: &[0],
        eta: &[0],
        mode: Mode::Point,
        wanted: &[Wanted::Stop(Place::Fold { list: 4, at: 1 })],
    },
    // A wide right side of the fill.
    Separation {
        model: TALL,
        part: X_APART,
        block: 1,
        den: 1,
        x: &[0],
        eta: &[0],
        mode: Mode::Point,
        wanted: &[
            Wanted::Stop(Place::Den { place: 1 }),
            Wanted::Stop(Place::Fold { list: 5, at: 0 }),
        ],
    },
    // A wide eta.
    Separation {
        model: HALF,
        part: X_APART,
        block: 1,
        den: 1,
        x: &[0],
        eta: &[100000000000000000000000000000000000000],
        mode: Mode::Cost,
        wanted: &[Wanted::Stop(Place::Fold { list: 6, at: 1 })],
    },
];

fn is_answer(answer: &SepAnswer, block: u32, wanted: &Wanted) -> bool {
    match (answer, wanted) {
        (SepAnswer::Cut { cut, .. }, Wanted::Cut(numbers)) => is_cut(cut, block, numbers),
        (SepAnswer::Fill { y: fill }, Wanted::Fill { times, y }) => {
            fill.times == *times && fill.y.as_slice() == *y
        },
        _ => false,
    }
}

/// Whether the separation of the block as its post 7 came to what is wanted.
fn is_wanted(found: &Result<Solved<SepAnswer>, TaskStop>, block: u32, wanted: &Wanted) -> bool {
    let task = TaskName::Sep { post: 7, block };
    match (found, wanted) {
        (Err(TaskStop::Wide(stopped)), Wanted::Stop(place)) => {
            stopped.task == task && stopped.point.is_some() && is_at(&stopped.answer, *place)
        },
        (Ok(solved), _) => {
            solved.task == task
                && solved.point.is_some()
                && is_answer(&solved.answer, block, wanted)
        },
        _ => false,
    }
}

#[test]
fn separations_come_to_their_answers(rt: HostRuntime) -> Result<(), Fail> {
    let alloc = rt.alloc();
    for (at, case) in SEPARATIONS.iter().enumerate() {
        let split = split_of(alloc, case.model, case.part)?;
        if case.block < 1 || case.block > split.blocks() {
            return Err(Fail::from("there is no such block"));
        }
        let task = SepTask {
            post: 7,
            block: case.block,
            point: master(alloc, &split, case.den, case.x, case.eta).map_err(unfit)?,
            mode: case.mode,
        };
        let found = separate(alloc, &split, &task);
        let right = case
            .wanted
            .iter()
            .any(|wanted| is_wanted(&found, case.block, wanted));
        assert!(rt; right, "at {at}");
    }
    Ok(())
}
